//! Binding: the meanings of the names in a text, and the bound forms of its parts. The parts are value expressions, search
//! conditions, query expressions, cursors, views, conditions of CHECK and statements (ISO/IEC 9075:1992, 5.3, 6.1 to 6.5, 6.11 to
//! 6.13, 7.3 to 7.11, clause 8, 11.9, 11.19, 13.1 to 13.10, 14.3 and 14.4).
//!
//! Each function has one clause: `Binds image definition result` says that it answers what the definition of `sq_binding` computes,
//! the fault included, or that memory ran out. `Finds` says it of a part of a query, after the set functions and subqueries before
//! it.
//!
//! An image is the part of a value here that the definitions see. It leaves out the kinds in a bound tree, and all but the place of
//! the base table under a table. It also leaves out the key by which a condition names a row, and the columns that are kept with a
//! query. A second clause says these.
#![tactic(auto)]

mod assignment;
mod bound;
mod changeable;
mod check;
mod column;
mod common;
mod condition;
mod cursor;
mod cursors;
mod delete;
mod domain;
mod expression;
mod fetch;
mod findings;
mod found;
mod from;
mod group;
mod in_turn;
mod insert;
mod into;
mod item_name;
mod kinds;
mod literal;
mod literal_value;
mod names;
mod needed;
mod new_value;
mod operation;
mod order;
mod orientation;
mod parameter;
mod predicate;
mod query;
mod query_findings;
mod receiver;
mod row;
mod rows;
mod scope;
mod select_list;
mod set_function;
mod source;
mod specification;
mod statement;
mod stop;
mod subquery;
mod surroundings;
mod target;
mod typed;
mod under;
mod updatable;
mod update;
mod view;
mod whole;

pub use bound::{Bound, ExprResult};
pub use changeable::{ChangedTable, changed_table, item_at_leaf};
pub use check::{CheckResult, CheckStop, bind_check};
pub use column::{FoundColumn, ItemColumn};
pub use condition::{
    ClauseResult, CondResult, bind_cond, bind_select, count_functions, make_present,
};
pub use cursor::{CursorResult, bind_cursor};
pub use cursors::Cursors;
pub use domain::domain_of;
pub use expression::bind_expr;
pub use findings::Findings;
pub use found::{
    Brought, Counts, Found, begin_list, bring_nothing, pair_parts, push_item, with_next,
};
pub use from::{FromClause, columns_over, correlation_of, from_clause};
pub use in_turn::grow_list;
pub use item_name::name_of;
pub use kinds::{are_comparable, is_text};
pub use literal_value::{is_whole, number_value, signed_value, text_value};
pub use names::{ChangeableTables, Privilege};
pub use order::{OrderResult, order_by};
pub use parameter::{indicator_of, parameter_of};
pub use query::{QueryResult, bind_query};
pub use query_findings::QueryFindings;
pub use scope::{Environment, FromItem, Scope};
pub use set_function::is_distinct;
pub use statement::bind_statement;
pub use stop::{Fault, Stop};
pub use subquery::SelectResult;
pub use surroundings::{
    NamedTable, Surroundings, Tables, TreeResult, TypedResult, bind_agreeing, value,
};
pub use target::{TargetResult, bind_target};
pub use typed::Typed;
pub use under::UnderTable;
pub use updatable::{Over, UpdatableResult, bind_updatable};
pub use view::{BoundView, ViewResult, bind_view};
pub use whole::{at_first, take_permitted};
