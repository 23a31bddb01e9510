//! Modules: which are refused, and their procedures and cursors with their names as places (ISO/IEC 9075:1992, clause 12 and
//! 13.1).
#![tactic(auto)]

mod admission;
mod bound;
mod cursors;
mod declared;
mod items;
mod opened;
mod opener;
mod procedure;
mod program;
mod refusal;

pub use admission::{AdmittedModule, AdmittedProcedure, admit};
pub use bound::bound_cursor;
pub use program::{BoundProcedure, DeclaredCursor, ProcedureName, Program};
pub use refusal::{ModuleRefusal, SessionFault};
