//! INSERT, UPDATE and DELETE, over whatever store keeps the tables (ISO/IEC 9075:1992, 13.6 to 13.10).
//!
//! A bound statement holds the leaf under the table that it names. Callers ensure that the store keeps the tables of
//! the names and their keys. They ensure that the statement is over one of these tables, and that set clauses are
//! for columns of it. They also ensure that the source of an insert statement and set clauses are well formed. So
//! each value is null, or a number or text as its column asks. A statement that is well formed as a whole never ends
//! with 42000.
#![tactic(auto)]

mod complete;
mod constraint;
mod given;
mod lost;
mod reference;
mod row;
mod setting;
mod statement;
mod storing;
mod target;

pub use complete::Changed;
pub use row::{is_null, row_put, values_in};
pub use setting::Setting;
pub use statement::{delete, find_deleted, find_inserted, find_updated, insert, update};
pub use storing::assign_value;
pub use target::{leaf_under, rows_changed};
