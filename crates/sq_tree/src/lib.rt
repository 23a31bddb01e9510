//! The trees of schema texts, module texts and script texts, as plain data.
//!
//! A tree keeps each word and bracket that a text may have or lack, so it has one list of tokens; it keeps no positions.
//! Lists joined by AND, by OR, by signs and by commas are flat; only round brackets nest.
#![tactic(auto)]

mod cond;
mod data_type;
mod expr;
mod list;
mod module;
mod names;
mod query;
mod schema;
mod script;
mod statement;

pub use cond::{
    Body, Comparison, Cond, Conj, Correlation, Quantifier, QuerySpecification, SelectList,
    TableExpression, TableReference, Tail, Test,
};
pub use data_type::{CharacterWord, DataType, ExactWord, Precision, VaryingWord};
pub use expr::{
    Added, Expr, Factor, Primary, Scaled, SetFunction, SetQuantifier, Sign, SignedNumber, Term,
    TimesSign,
};
pub use list::CommaList;
pub use module::{
    BareDeclaration, Cursor, Declaration, Declarations, ModuleItem, ModuleText, Procedure,
    SortDirection, SortKey, SortSpecification,
};
pub use names::{ColumnReference, Indicator, Parameter, TableName};
pub use query::{Query, QueryTerm, UnionTerm};
pub use schema::{
    Action, ColumnConstraint, ColumnDefinition, DefaultValue, ForeignKey, GrantStatement, Grantee,
    Privileges, References, SchemaDefinition, SchemaElement, SchemaText, TableDefinition,
    TableElement, ViewDefinition,
};
pub use script::{Argument, Arguments, ScriptItem, ScriptText};
pub use statement::{
    Assignment, Delete, Fetch, FetchFrom, Insert, InsertSource, NewValue, Orientation, Position,
    Select, Statement, Update, Where,
};
