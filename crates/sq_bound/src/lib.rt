//! The results of binding texts: trees whose names are places, and the tables that names mean (ISO/IEC 9075:1992, clauses 6 to
//! 8, 11 and 13).
#![tactic(auto)]

mod condition;
mod distinct;
mod domain;
mod expression;
mod keyed;
mod names;
mod parts;
mod query;
mod quiet;
mod shared;
mod statement;

pub use condition::{
    BoundCond, BoundConj, BoundFrom, BoundSpecification, BoundTest, Compared, Grouping, Predicate,
    ResultColumn, TablePlace,
};
pub use distinct::are_distinct;
pub use domain::fits_kind;
pub use expression::{Aggregate, BoundExpr, Input, Operation, Operator, Place, SetFunctionCall};
pub use keyed::{equal_sides, own_column, shortest_key};
pub use names::{
    BaseColumn, BaseTable, Column, ColumnDefault, KnownCursor, Leaf, Names, ObjectColumn,
    ParameterDesc, Reference, TableBody, TableDesc, View,
};
pub use parts::{pair_of, value_if};
pub use query::{
    BoundCursor, BoundQuery, BoundTerm, BoundUnion, CursorBody, SortColumn, Target, UpdatableQuery,
};
pub use quiet::is_quiet_cond;
pub use shared::Shared;
pub use statement::{
    BoundAssignment, BoundFetch, BoundInsert, BoundSelect, BoundStatement, BoundUpdate,
    ChangeTarget, Distance, FetchOrientation, InsertedRows, Output, PositionedTarget,
};
