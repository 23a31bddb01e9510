//! The cursors that a module has, while its procedures are bound.

ghost use Rattle.std.specs.Prelude.{◌≡◌, ◌<◌, Some, length, nat_lt, true};
ghost use Rattle.std.specs.List.{list_all};
ghost use Rattle.sq_binder.specs.Cursors.{named_cursor_of};
ghost use Rattle.sq_module.specs.Named.{cursor_at};

use crate::program::DeclaredCursor;
use indexmap::IndexMap;
use sq_binder::Cursors;
use sq_bound::KnownCursor;
use sq_lex::Name;

/// The cursors of one module: for each name its number among all cursors.
#[derive(Clone, Copy)]
pub(crate) struct ModuleCursors<'a> {
    pub(crate) numbers: &'a IndexMap<Name, usize>,
    pub(crate) cursors: &'a [DeclaredCursor],
    /// Each number is that of a cursor.
    ghost there: { list_all (λ e. nat_lt e.1 (length cursors.now)) numbers.now.entries ≡ true },
}

impl<'a> Cursors for ModuleCursors<'a> {
    ghost use Rattle.sq_module.specs.Named.{cursors_named};

    ghost named = { λ c. cursors_named c.cursors.now c.numbers.now.entries };

    fn cursor(&self, name: Name) -> Option<KnownCursor<'_>> {
        match self.numbers.get(&name) {
            Some(number) => Some(lend_cursor(self.cursors, *number)),
            None => None,
        }
    }
}

/// The cursor with this number.
fn lend_cursor(cursors: &[DeclaredCursor], number: usize) -> KnownCursor<'_>
    requires { number < length cursors.now }
    ensures { cursor_at cursors.now number ≡ Some (named_cursor_of result) }
{
    KnownCursor {
        number,
        cursor: &cursors[number].cursor,
    }
}
