//! The catalog: the tables, views and privileges that schema texts define (ISO/IEC 9075:1992, clauses 10 and 11).
#![tactic(auto)]

mod base;
mod bound_reference;
mod build;
mod catalog;
mod check;
mod column;
mod description;
mod draft;
mod fault;
mod grant;
mod held;
mod insert;
mod key;
mod lookups;
mod names;
mod privilege;
mod reference;
mod referenced;
mod table;
mod target;
mod typed;
mod user_tables;
mod view;
mod view_grants;
mod view_names;
mod view_table;
mod written;

pub use catalog::{Catalog, FullName};
pub use fault::{CatalogFault, RefusalName, SchemaRefusal};
pub use user_tables::UserTables;
