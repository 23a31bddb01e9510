//! The cursors that statements name.

ghost use Rattle.std.specs.Prelude.{◌≡◌};
ghost use Rattle.std.specs.Option.{option_map};
ghost use Rattle.sq_binding.specs.Change.{cursor_named};
ghost use Rattle.sq_binder.specs.Binds.{Binds};
ghost use Rattle.sq_binder.specs.Cursors.{named_cursor_of};

use crate::Stop;
use sq_bound::KnownCursor;
use sq_lex::Name;
use sq_meaning::BindingFault;

/// The cursors of a module.
pub trait Cursors {
    ghost use Rattle.sq_binding.specs.Change.{NamedCursors};

    ghost named: { Self → NamedCursors };

    /// The cursor of this name, if there is one and its query has no fault.
    fn cursor(&self, name: Name) -> Option<KnownCursor<'_>>
        ensures { option_map named_cursor_of result ≡ named self.now name };
}

/// The cursor of this name, or the fault `UnknownCursor`.
pub fn cursor_named<C: Cursors>(cursors: &C, name: Name) -> Result<KnownCursor<'_>, Stop>
    ensures { Binds named_cursor_of (cursor_named (C.named cursors.now) name) result }
{
    match cursors.cursor(name) {
        Some(known) => Ok(known),
        None => Err(Stop::about(BindingFault::UnknownCursor, name)),
    }
}
