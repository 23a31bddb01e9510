//! The output of a report: a trait for an output of bytes, one over any writer of std, and the loop that
//! writes a whole text.
#![tactic(auto)]

mod out;
mod over_writer;
mod whole;

pub use out::{Out, OutFault};
pub use over_writer::OutOf;
pub use whole::write_whole;

#[cfg(test)]
mod tests;
