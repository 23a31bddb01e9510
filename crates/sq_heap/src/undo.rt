//! What undoes one change.

use sq_value::Row;

/// What undoes a change of a slot.
#[derive(Drop)]
pub(crate) struct Undo {
    /// The slot's place.
    pub(crate) at: usize,
    /// The row that was there, none where the slot was new.
    pub(crate) old: Option<Row>,
}
