//! The phrases of statements and definitions: value expressions, search conditions and query expressions.
//!
//! If reading stops, a call of `drop` drops the parts read before. At a `?` the same drop is proved in line, variant by
//! variant, at each such exit, and takes most of a proof's time.
#![tactic(auto)]

mod condition;
mod expression;
mod predicate;
mod query_expression;
mod select;

pub use condition::{cond, inner_cond};
pub use expression::{expr, inner_expr, quantifier_if_any};
pub use query_expression::query;
pub use select::{query_specification, select_list, table_expression};
