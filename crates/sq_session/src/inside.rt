//! What a session works on, for those who look at it between calls.

use crate::cursor::CursorState;
use sq_catalog::Catalog;
use sq_module::Program;
use sq_store::Store;
use std::alloc::Global;

/// The catalog, procedures, tables and cursors of a session.
#[derive(Drop)]
pub struct Inside<'a, S: Store> {
    pub alloc: Global,
    pub catalog: &'a Catalog,
    pub program: &'a Program,
    pub store: &'a S,
    pub cursors: &'a [CursorState],
}
