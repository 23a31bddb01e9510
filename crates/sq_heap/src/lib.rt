//! A store that keeps its tables as slots on the heap, with what undoes their changes.
#![tactic(auto)]

mod hash;
mod index;
mod indexes;
mod keys;
mod lookup;
mod mark;
mod slots;
mod store;
mod table;
mod undo;

pub use store::HeapStore;
