//! The limits of a run.

/// The limits of a run.
#[derive(Clone, Copy, Debug, PartialEq, Eq)]
pub struct Limits {
    /// The greatest number that a row of a table may have, at most 1000000000.
    pub row_numbers: u64,
}
