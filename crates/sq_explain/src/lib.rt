//! The meaning of each status, refusal and fault, with a small text that shows it: docs/STATUSES.md, name by
//! name.
#![tactic(auto)]

mod entries;
mod explain;

pub use entries::text_of;
pub use explain::{Entry, all_entries, find_entry, letters_between, names_of, nearest_names};
