//! The remarks on texts that are not refused (ISO/IEC 9075:1992, clause 13 and 11.19): the fault for which a call
//! answers 42000, and which cursors and views are updatable.
#![tactic(auto)]

mod cursor;
mod mark;
mod module;
mod opener;
mod remark;
mod rule;
mod schema;

pub use mark::Mark;
pub use module::check_modules;
pub use remark::Remark;
pub use rule::Rule;
pub use schema::check_schemas;
