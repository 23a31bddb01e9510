//! The tables that a user's texts may change.

use crate::Tables;
use crate::under::UnderTable;
use sq_lex::Name;

/// A privilege that a statement needs. UPDATE is held column by column.
#[derive(Clone, Copy, Debug, PartialEq, Eq)]
pub enum Privilege {
    Select,
    Insert,
    Delete,
    Update(Name),
}

/// The tables that the texts of a user may name, the tables among them that may be changed, and the privileges of the user.
pub trait ChangeableTables: Tables {
    ghost use Rattle.std.specs.Prelude.{◌≡◌};
    ghost use Rattle.std.specs.Option.{option_map};
    ghost use Rattle.sq_binder.specs.Names.{Changes, beneath_of, privilege_of};

    ghost changes: { Self → Changes };

    /// The rows and columns under the table of this owner and name, if it may be changed.
    fn beneath(&self, user: Name, name: Name) -> Option<UnderTable<'_>>
        ensures { option_map beneath_of result ≡ (changes self.now).beneath
            (record { user = user; name = name }) };

    /// Whether the user of the texts holds the privilege on the table of this owner and name.
    fn holds(&self, user: Name, name: Name, privilege: Privilege) -> bool
        ensures { result ≡ (changes self.now).holds (record { user = user; name = name })
            (privilege_of privilege) };
}
