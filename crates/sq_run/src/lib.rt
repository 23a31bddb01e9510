//! A run: schema, module and script texts in, the report of the table machine out.
//!
//! `proofs/` has the laws that its contract rests on, and others that no code needs, in folders:
//! - `Laws`: of the machine and of the definitions alone. A failed call changes nothing, constraints hold in every run, a call
//!   changes what its user may change. `Small` and `Worked` are examples and whole runs that compute.
//! - `Sites`: what the rules take is well formed, and so not answered with 42000.
//! - `Places`, `Changed`: a text means by its places what it means by its names.
//! - `Schemas`, `OpenCursors`, `Steps`: what schemas and modules declare is what a session knows, a cursor that walks is one
//!   that lists its rows, and a whole call of a session is the machine's step.
//! - `Metering`: how many rows a call of accepted texts reads, where it is keyed or quiet by its text.
//! - `Texts`, `Tokens`: what texts come to, what a run writes of it, and at which token a text is refused.
//!
//! This crate is above the code, so a new law proves no code again but its own.
#![tactic(auto)]

mod counterpart;
mod machine;
mod processor;

pub use machine::Processor;
pub use processor::run;
pub use sq_perform::{
    LexFaultKind, Limits, ModuleFault, Out, OutFault, OutOf, Refusal, RefusalName, RunFault,
    SchemaRefusalName,
};
pub use sq_session::{Fault, Output, Reply, TableRows};
