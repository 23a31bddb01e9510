//! Changes of a table, and why one can't be made.

ghost use Rattle.std.specs.Prelude.{◌≡◌};

use sq_value::Row;
use std::alloc::AllocError;
use thiserror::Error;

/// A change of a table.
#[derive(Debug, Drop)]
pub enum Change {
    /// A new row, under the next number.
    Insert(Row),
    /// Another row under a number. Where the number has no row, nothing changes.
    Replace(u64, Row),
    /// The row under a number goes. The number isn't used again.
    Remove(u64),
}

/// Why none of some changes was made.
#[derive(Debug, Drop, Error)]
pub enum ApplyFault {
    /// After all changes two rows would have the same key.
    #[error("two rows with the same key")]
    Duplicate,
    #[error("out of memory")]
    NoMemory,
}

impl From<AllocError> for ApplyFault {
    ghost use Rattle.sq_store.specs.declared.change.ApplyFault.TheVariants.{NoMemory};

    ghost from_gives = { λ _ fault. fault ≡ NoMemory };

    fn from(_: AllocError) -> ApplyFault {
        ApplyFault::NoMemory
    }
}
