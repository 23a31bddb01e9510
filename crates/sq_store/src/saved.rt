//! The contents that a store may go back to.

ghost use Rattle.std.specs.Prelude.{◌≡◌};

use crate::table::Table;
use sq_items::Items;

/// The contents that a store may go back to.
#[derive(Drop)]
pub(crate) struct Saved {
    pub(crate) committed: Items<Table>,
    pub(crate) before: Option<Items<Table>>,
}

impl Saved {
    /// The committed content.
    pub(crate) fn into_committed(self) -> Items<Table>
        ensures { result ≡ self.committed }
    {
        let Saved { committed, before } = self;
        drop(before);
        committed
    }
}
