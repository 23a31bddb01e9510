//! The findings of binding in a part of a text besides its tree.

ghost use Rattle.std.specs.Prelude.{◌≡◌, Ok};
ghost use Rattle.sq_binding.specs.Expression as spec;
ghost use Rattle.sq_binding.specs.Findings as findings;
ghost use Rattle.sq_binding.specs.QueryFindings.{values_of_subquery};
ghost use Rattle.sq_binder.specs.Binds.{Binds};
ghost use Rattle.sq_binder.specs.Bound.{findings_of};
ghost use Rattle.sq_binder.specs.Scope.{found_of};

use crate::column::FoundColumn;
use crate::stop::Stop;

/// No FROM clause has more items (own rule).
pub const MOST_ITEMS: usize = 16;

/// The findings in a part.
#[derive(Clone, Copy)]
pub struct Findings {
    /// How many items of the FROM clause, from the left, hold all columns that are read.
    pub items: usize,
    /// How many items of the query around this one, from the left, hold all columns of it that are read.
    pub outer_items: usize,
    /// How many queries further out the columns that are read reach.
    pub reach: usize,
    /// Whether a column of the outermost query is read.
    pub reads_outermost: bool,
    /// Whether evaluation may answer a status.
    pub can_fail: bool,
    /// Whether a column of this query that is no grouping column occurs outside set functions.
    pub has_ungrouped: bool,
    /// Whether USER is read.
    pub has_user: bool,
}

impl Findings {
    /// Nothing is found.
    pub const NONE: Findings = Findings {
        items: 0,
        outer_items: 0,
        reach: 0,
        reads_outermost: false,
        can_fail: false,
        has_ungrouped: false,
        has_user: false,
    };

    /// The findings in two parts.
    pub fn and(self, other: Findings) -> Findings
        ensures { findings_of result ≡ findings.both (findings_of self) (findings_of other) }
    {
        Findings {
            items: self.items.max(other.items),
            outer_items: self.outer_items.max(other.outer_items),
            reach: self.reach.max(other.reach),
            reads_outermost: self.reads_outermost || other.reads_outermost,
            can_fail: self.can_fail || other.can_fail,
            has_ungrouped: self.has_ungrouped || other.has_ungrouped,
            has_user: self.has_user || other.has_user,
        }
    }

    /// The findings in a part whose evaluation may answer a status.
    pub fn failing(self) -> Findings
        ensures { findings_of result ≡ findings.failing (findings_of self) }
    {
        Findings {
            can_fail: true,
            ..self
        }
    }

    /// The findings in a subquery, seen from the query around it.
    pub fn of_subquery(self) -> Findings
        ensures { findings_of result ≡ values_of_subquery (findings_of self) }
    {
        Findings {
            items: self.outer_items,
            outer_items: if self.reach > 1 { MOST_ITEMS } else { 0 },
            reach: self.reach.saturating_sub(1),
            has_ungrouped: false,
            ..self
        }
    }
}

/// The findings in a column reference.
pub fn column_findings(found: &FoundColumn) -> Result<Findings, Stop>
    ensures { Binds findings_of (Ok (spec.column_findings (found_of found.now))) result }
{
    let Some(items) = found.item.checked_add(1) else {
        return Err(Stop::NoMemory);
    };
    Ok(Findings {
        items: if_at(0, found.depth, items),
        outer_items: if_at(1, found.depth, items),
        reach: found.depth,
        reads_outermost: found.is_outermost,
        can_fail: false,
        has_ungrouped: found.depth == 0 && !found.is_grouped,
        has_user: false,
    })
}

/// A number of items if the column is so many queries further out, and else 0.
fn if_at(at: usize, depth: usize, items: usize) -> usize
    ensures { result ≡ spec.if_at at depth items }
{
    if depth == at { items } else { 0 }
}
