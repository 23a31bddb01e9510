//! The definitions (ISO/IEC 9075:1992, clauses 4 to 8, 10 to 14 and 22).
//!
//! They say what value expressions, search conditions and query expressions mean. They say which schemas, modules, scripts and
//! statements are well formed, and who holds which privilege. And they say what calls and runs mean, with changes,
//! constraints, cursors, the machine, and the report of a run.
//!
//! They are in `specs/`. This crate has only the types that both they and the processor use: the status, and the names of
//! faults and refusals.
#![tactic(auto)]

mod fault;
mod refusal;
mod status;

pub use fault::BindingFault;
pub use refusal::{ModuleFault, SchemaFault, ScriptFault};
pub use status::Status;
