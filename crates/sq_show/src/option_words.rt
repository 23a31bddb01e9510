//! A check option that a row would not meet, in words.

use crate::breach_words::{write_put, write_table};
use sq_bound::{Names, TableDesc, TablePlace};
use sq_catalog::Catalog;
use sq_cause::OptionBreach;
use sq_session::Session;
use sq_store::Store;
use std::alloc::AllocError;

/// `view U1.V: new row 1 would not be one of its rows`
pub(crate) fn write_option<S: Store>(
    session: &Session<S>,
    place: usize,
    breach: OptionBreach,
    words: &mut Vec<u8>,
) -> Result<(), AllocError> {
    match only_view(session.catalog(), place, breach.level) {
        Some(view) => {
            words.extend_from_slice(b"view ")?;
            write_table(view, words)?;
        }
        None => words.extend_from_slice(b"check option of the view")?,
    }
    words.extend_from_slice(b": ")?;
    write_put(breach.put, words)?;
    words.extend_from_slice(b" would not be one of its rows")
}

/// The view whose condition is at this level over a base table, if there is only one.
pub(crate) fn only_view(catalog: &Catalog, place: usize, level: usize) -> Option<&TableDesc> {
    let mut only = None;
    for view in 0..1000 {
        if let Some(table) = catalog.at(TablePlace::View(view)) {
            if is_at_level(table, place, level) {
                if only.is_some() {
                    return None;
                }
                only = Some(table);
            }
        }
    }
    only
}

/// Whether the condition of a view is at this level over a base table.
fn is_at_level(view: &TableDesc, place: usize, level: usize) -> bool {
    match &view.leaf {
        Some(leaf) => {
            let leaf = leaf.get();
            leaf.table.get().place == place && leaf.conditions.len() == level.saturating_add(1)
        }
        None => false,
    }
}
