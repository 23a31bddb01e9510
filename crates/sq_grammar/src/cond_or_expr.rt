//! A condition or an expression.

use sq_tree::Expr;

/// The part read at a possible beginning of a condition: a part of the condition, or an expression alone.
#[derive(Drop)]
pub enum CondOrExpr<T> {
    Cond(T),
    Expr(Expr),
}
