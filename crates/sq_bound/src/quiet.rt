//! Conditions on rows whose truth is never a fault: they hold no arithmetic between two operands, no ESCAPE and no subquery.

ghost use Rattle.std.specs.Prelude.{◌≡◌, []};
ghost use Rattle.std.specs.List.{list_all};
ghost use Rattle.sq_meaning.specs.Quiet.{has_no_escape, is_quiet, is_quiet_expr};
ghost use Rattle.sq_bound.specs.Condition.{conj_of, predicate_of};
ghost use Rattle.sq_bound.specs.Expression.{expr_of};
ghost use Rattle.sq_bound.specs.Quiet.{is_quiet_cond};

use crate::condition::{BoundCond, BoundConj, Predicate};
use crate::expression::BoundExpr;

/// Whether the truth of a condition on rows is never a fault.
#[cycle(is_quiet_cond)]
pub fn is_quiet_cond(condition: &BoundCond) -> bool
    ensures { result ≡ is_quiet_cond condition.now }
{
    for term in condition.terms.as_slice() {
        if !is_quiet_term(term) {
            return false;
        }
    }
    true
}

#[cycle(is_quiet_cond)]
fn is_quiet_term(term: &BoundConj) -> bool
    ensures { result ≡ is_quiet (conj_of [] term.now) }
{
    for test in term.tests.as_slice() {
        if !is_quiet_predicate(&test.predicate) {
            return false;
        }
    }
    true
}

#[cycle(is_quiet_cond)]
fn is_quiet_predicate(predicate: &Predicate) -> bool
    ensures { result ≡ is_quiet (predicate_of [] predicate.now) }
{
    match predicate {
        Predicate::Compare(_, left, right) => is_quiet_expr(left) && is_quiet_expr(right),
        Predicate::Between(_, operand, low, high) => {
            is_quiet_expr(operand) && is_quiet_expr(low) && is_quiet_expr(high)
        }
        Predicate::InList(_, operand, list) => {
            is_quiet_expr(operand) && are_quiet_exprs(list.as_slice())
        }
        Predicate::Like(_, text, pattern, escape) => {
            is_quiet_expr(text) && is_quiet_expr(pattern) && escape.is_none()
        }
        Predicate::Null(_, operand) => is_quiet_expr(operand),
        Predicate::Bracketed(condition) => is_quiet_cond(condition.get()),
        Predicate::CompareQuery(..) | Predicate::InQuery(..) | Predicate::Exists(_) => false,
    }
}

fn are_quiet_exprs(exprs: &[BoundExpr]) -> bool
    ensures { result ≡ list_all (λ e. is_quiet_expr (expr_of [] e)) exprs.now }
{
    exprs.iter().all(|expr| is_quiet_expr(expr))
}

/// Whether the value of an expression is never a fault. A condition on rows has no set function.
fn is_quiet_expr(expr: &BoundExpr) -> bool
    ensures { result ≡ is_quiet_expr (expr_of [] expr.now) }
{
    match expr {
        BoundExpr::Literal(_)
        | BoundExpr::Parameter(_)
        | BoundExpr::User
        | BoundExpr::Column(_)
        | BoundExpr::SetFunction(_) => true,
        BoundExpr::Signed(_, operand) => is_quiet_expr(operand.get()),
        BoundExpr::Operations(first, rest) => rest.is_empty() && is_quiet_expr(first.get()),
    }
}
