//! Where a refusal stands in what was typed.
ghost use Rattle.std.specs.Prelude.{◌≡◌};
ghost use Rattle.sq_show.specs.Place as spec;

/// A line and a column, each from 1.
#[derive(Clone, Copy, Debug, PartialEq, Eq)]
pub struct Place {
    pub line: usize,
    pub column: usize,
}

/// The place in a whole text of what has the place `inside` in a part of it that begins at `start`. Numbers that are too large stay at their
/// greatest.
pub fn place_in(start: Place, inside: Place) -> Place
    ensures { result ≡ spec.place_in start inside }
{
    Place {
        line: start.line.saturating_add(inside.line.saturating_sub(1)),
        column: if inside.line == 1 {
            start.column.saturating_add(inside.column.saturating_sub(1))
        } else {
            inside.column
        },
    }
}
