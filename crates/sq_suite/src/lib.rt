//! The decisions and texts of a runner of suites, without files: the cases asked for, the outcome that a case
//! wants, the differences of two texts, and the words of TAP and JUnit.
#![tactic(auto)]

mod bytes;
mod difference;
mod edits;
mod folder;
mod glob;
mod guide;
mod junit;
mod lines;
mod outcome;
mod shard;
mod tap;

pub use folder::{Kind, kind_of};
pub use glob::matches;
pub use junit::{write_case, write_end, write_start};
pub use outcome::{Outcome, Unclear, wanted_outcome, write_block, write_differences, write_part};
pub use shard::Shard;
pub use tap::{write_counts, write_plan, write_result};
