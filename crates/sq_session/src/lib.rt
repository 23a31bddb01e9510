//! Modules, cursors and transactions: a session makes one procedure call after the other (ISO/IEC 9075:1992, 4.21, clause 12,
//! 13.1 to 13.5, 14.3 and 14.4). What a call may do to the tables and cursors, and what it answers, stands in
//! `specs/Step.antt`, with the rules of FETCH in `specs/Fetch.antt` and those of targets in `specs/Target.antt`.
//!
//! Cursors, targets, base tables and columns of them that a bound statement names are there: the procedures of a session fit
//! its catalog, and its tables have rows for the base tables. Its cursors and statements are well formed, each of its parameters
//! has a value of its kind while a call runs, and the rows that an open cursor has listed are of the kinds of its columns. So no
//! statement sets a text parameter from a number, has more or fewer targets than a row has values, or fetches by a
//! parameter that is no number; and a call answers 42000 exactly where its procedure has a fault.
#![tactic(auto)]

mod call;
mod called;
mod change;
mod cursor;
mod cursors;
mod fetch;
mod inside;
mod machine;
mod open;
mod parameter;
mod reads;
mod reply;
mod retrieved;
mod rows;
mod session;
mod target;
mod walk;
mod walk_list;

pub use called::Called;
pub use cursor::{CursorState, NumbersCursor, RowsCursor, number_on, row_at};
pub use inside::Inside;
pub use parameter::started_values;
pub use reply::{Done, Output, Reply};
pub use retrieved::RetrievedRow;
pub use rows::TableRows;
pub use session::Session;
pub use sq_binder::Fault;
pub use sq_catalog::FullName;
pub use sq_module::{ModuleRefusal, ProcedureName, SessionFault};
pub use walk::WalkingCursor;
