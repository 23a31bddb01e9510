//! Signs and operators (ISO/IEC 9075:1992, 6.11 and 6.12).

ghost use Rattle.std.specs.Prelude.{◌≡◌, ◌++◌, IfOk, Ok, true};
ghost use Rattle.sq_bound.specs.Names.{is_bounded};
ghost use Rattle.sq_binding.specs.Expression as spec;
ghost use Rattle.sq_binding.specs.Numbered.{Numbered};
ghost use Rattle.sq_binder.specs.Binds.{Binds};
ghost use Rattle.sq_binding.specs.Seen.{numbered_of};
ghost use Rattle.sq_binder.specs.Bound.{bound_of};

use crate::bound::{Bound, ExprResult};
use crate::kinds::{is_text, operation_kind};
use crate::stop::Stop;
use sq_bound::{BoundExpr, Operation, Operator};
use sq_items::{Boxed, Items};
use sq_meaning::BindingFault;
use sq_tree::{Sign, TimesSign};
use sq_value::Kind;
use std::alloc::{AllocError, Global};

/// The operator of a sign between two terms.
pub fn sum_operator(sign: Sign) -> Operator
    ensures { result ≡ spec.sum_operator sign }
{
    match sign {
        Sign::Plus => Operator::Plus,
        Sign::Minus => Operator::Minus,
    }
}

/// The operator of a sign between two factors.
pub fn product_operator(sign: TimesSign) -> Operator
    ensures { result ≡ spec.product_operator sign }
{
    match sign {
        TimesSign::Times => Operator::Times,
        TimesSign::Over => Operator::Over,
    }
}

/// An operand with a sign before it.
pub fn sign_operand(alloc: Global, sign: Sign, operand: Bound) -> ExprResult
    ensures { Binds bound_of (spec.signed_as sign (bound_of operand)) result }
{
    if is_text(operand.kind) {
        drop(operand);
        return Err(Stop::broken(BindingFault::KindMismatch));
    }
    with_sign(alloc, sign, operand)
}

#[tactic(auto, using(crate::proofs::Expressions::Images::images))]
fn with_sign(alloc: Global, sign: Sign, operand: Bound) -> ExprResult
    ensures { Binds bound_of (Ok (spec.signed_by sign (bound_of operand))) result }
{
    let Bound {
        expr,
        kind,
        calls,
        calls_can_fail,
        findings,
    } = operand;
    match Boxed::new(alloc, expr) {
        Ok(expr) => Ok(Bound {
            expr: BoundExpr::Signed(sign, expr),
            kind,
            calls,
            calls_can_fail,
            findings,
        }),
        Err(_) => {
            drop(calls);
            Err(Stop::NoMemory)
        }
    }
}

/// Two operands and the operator between them.
#[tactic(auto, using(crate::proofs::Expressions::KindLaws::operated_bounded))]
pub fn apply_operator(alloc: Global, operator: Operator, left: Bound, right: Bound) -> ExprResult
    ensures { Binds bound_of (spec.operated_as operator (bound_of left) (bound_of right)) result }
{
    match operation_kind(operator, left.kind, right.kind) {
        Ok(kind) => operands(alloc, operator, left, right, kind),
        Err(stop) => {
            drop(left);
            drop(right);
            Err(stop)
        }
    }
}

/// Two operands and their operator, with a result of this kind.
fn operands(alloc: Global, operator: Operator, left: Bound, right: Bound, kind: Kind) -> ExprResult
    requires { is_bounded kind ≡ true }
    ensures { Binds bound_of (Ok (spec.operands operator (bound_of left) (bound_of right) kind)) result }
{
    let calls_can_fail = left.calls_can_fail || right.calls_can_fail;
    let findings = left.findings.and(right.findings).failing();
    let expr = with_operation(alloc, left.expr, operator, right.expr);
    match (expr, join_lists(left.calls, right.calls)) {
        (Ok(expr), Ok(calls)) => Ok(Bound {
            expr,
            kind,
            calls,
            calls_can_fail,
            findings,
        }),
        (expr, calls) => {
            drop(expr);
            drop(calls);
            Err(Stop::NoMemory)
        }
    }
}

/// The expression with a further operation after it.
#[tactic(auto, using(crate::proofs::Expressions::Operations::operation_behind))]
fn with_operation(
    alloc: Global,
    left: BoundExpr,
    operator: Operator,
    operand: BoundExpr,
) -> Result<BoundExpr, AllocError>
    ensures { IfOk result
        (λ expr. numbered_of expr ≡ Numbered.operation operator (numbered_of left) (numbered_of operand)) }
{
    let operation = Operation { operator, operand };
    match left {
        BoundExpr::Operations(first, mut rest) => match rest.push(operation) {
            Ok(()) => Ok(BoundExpr::Operations(first, rest)),
            Err(error) => {
                drop(first);
                drop(rest);
                Err(error)
            }
        },
        first => begin_operation(alloc, first, operation),
    }
}

/// An operand with its first operation after it.
#[tactic(auto, using(crate::proofs::Expressions::Operations::operation_first))]
fn begin_operation(
    alloc: Global,
    first: BoundExpr,
    operation: Operation,
) -> Result<BoundExpr, AllocError>
    ensures { IfOk result
        (λ expr. numbered_of expr
        ≡ Numbered.operation operation.operator (numbered_of first) (numbered_of operation.operand)) }
{
    let first = match Boxed::new(alloc, first) {
        Ok(first) => first,
        Err(error) => {
            drop(operation);
            return Err(error);
        }
    };
    let mut rest = Items::new(alloc);
    match rest.push(operation) {
        Ok(()) => Ok(BoundExpr::Operations(first, rest)),
        Err(error) => {
            drop(first);
            drop(rest);
            Err(error)
        }
    }
}

/// Two lists, one after the other.
pub fn join_lists<T: Drop>(left: Items<T>, right: Items<T>) -> Result<Items<T>, AllocError>
    ensures { IfOk result (λ all. all ≡ left ++ right) }
{
    let mut all = left.into_vec();
    let mut more = right.into_vec();
    match all.append(&mut more) {
        Ok(()) => {
            drop(more);
            Ok(Items::from_vec(all))
        }
        Err(error) => {
            drop(all);
            drop(more);
            Err(error)
        }
    }
}
