//! A list and a box that contracts see as their contents.
//!
//! The value of a tree built of them has no pointer. So two trees are equal if their contents are, even if a type
//! contains itself through them.
#![tactic(auto)]

mod boxed;
mod items;

pub use boxed::Boxed;
pub use items::Items;
