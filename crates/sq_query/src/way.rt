//! How the rows of a table are found.

use sq_bound::TablePlace;

/// A table that a statement reads, and how its rows are found.
#[derive(Clone, Copy, Debug, PartialEq, Eq)]
pub struct Way {
    /// The table or view in the text.
    pub table: TablePlace,
    pub how: How,
}

/// How the rows of a table are found, or those of the base table under it.
#[derive(Clone, Copy, Debug, PartialEq, Eq)]
pub enum How {
    /// By one value of each column of a key: one row at most.
    Key(KeyPlace),
    /// By several values of the only column of a key.
    Several(KeyPlace),
    /// By values of a column that refers to a table: the rows with one of them or null.
    Value(ColumnPlace),
    /// All rows are looked at.
    Whole,
}

/// The number of a key of the base table at a place.
#[derive(Clone, Copy, Debug, PartialEq, Eq)]
pub struct KeyPlace {
    pub base: usize,
    pub key: usize,
}

/// A column of the base table at a place.
#[derive(Clone, Copy, Debug, PartialEq, Eq)]
pub struct ColumnPlace {
    pub base: usize,
    pub column: usize,
}
