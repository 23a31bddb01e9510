//! The changes that a statement would make in a base table, and what they are made in.

use sq_bound::{BaseTable, Shared};
use sq_store::{Change, Store};
use std::alloc::Global;

/// The tables, and the changes that a statement would make in one of them.
#[derive(Drop)]
pub(crate) struct Changing<'a, S: Store> {
    pub(crate) alloc: Global,
    /// All base tables.
    pub(crate) bases: &'a [Shared<BaseTable>],
    /// The one that changes.
    pub(crate) base: &'a BaseTable,
    pub(crate) store: &'a S,
    pub(crate) changes: &'a [Change],
}
