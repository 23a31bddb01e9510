//! Tables of numbered rows, and the trait of what keeps them.
#![tactic(auto)]

mod change;
mod fits;
mod key;
mod list_store;
mod meter;
mod saved;
mod store;
mod table;

pub use change::{ApplyFault, Change};
pub use fits::can_apply;
pub use key::{are_same, has_values};
pub use list_store::{ListStore, copy_keys};
pub use meter::Meter;
pub use store::{MOST_ROW_NUMBERS, Store};
pub use table::{Numbered, Table};
