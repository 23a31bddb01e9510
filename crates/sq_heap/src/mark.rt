//! How the last change of the store is found again.

/// Where the last `apply` began.
#[derive(Clone, Copy)]
pub(crate) struct Mark {
    /// The table that it changed.
    pub(crate) table: usize,
    /// How many changes of the table there were before it.
    pub(crate) from: usize,
}
