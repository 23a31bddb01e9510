//! Set functions (ISO/IEC 9075:1992, 6.5).

ghost use Rattle.std.specs.Prelude.{◌≡◌, ◌||◌, Ok, nat_lt, not, true};
ghost use Rattle.sq_meaning.specs.Spelled.{is_distinct_word};
ghost use Rattle.sq_meaning.specs.Sure.{is_extreme};
ghost use Rattle.sq_bound.specs.Names.{is_bounded};
ghost use Rattle.sq_binding.specs.Expression as spec;
ghost use Rattle.sq_binder.specs.Binds.{Binds};
ghost use Rattle.sq_binding.specs.Seen.{call_of};
ghost use Rattle.sq_binder.specs.Bound.{bound_of};

use crate::bound::{Bound, ExprResult};
use crate::findings::Findings;
use crate::kinds::set_function_kind;
use crate::stop::Stop;
use sq_bound::{Aggregate, BoundExpr, SetFunctionCall};
use sq_items::Items;
use sq_meaning::BindingFault;
use sq_tree::{SetFunction, SetQuantifier};
use sq_value::Kind;
use std::alloc::Global;

/// `COUNT(*)`, of this number among the set functions of its query.
pub fn count_rows(alloc: Global, allowed: bool, number: usize) -> ExprResult
    ensures { Binds bound_of (spec.count_bound allowed number) result }
{
    if allowed {
        make_call(
            alloc,
            number,
            SetFunctionCall::CountRows,
            Kind::Num(0),
            true,
        )
    } else {
        Err(Stop::broken(BindingFault::MisplacedSetFunction))
    }
}

/// A set function over an expression that reads columns of its own query alone.
#[tactic(auto, using(crate::proofs::Expressions::KindLaws::call_bounded))]
pub fn function_over(
    alloc: Global,
    allowed: bool,
    number: usize,
    function: SetFunction,
    quantifier: Option<SetQuantifier>,
    operand: Bound,
) -> ExprResult
    ensures { Binds bound_of
        (spec.function_over allowed number function (is_distinct_word quantifier) (bound_of operand)) result }
{
    if is_misplaced(allowed, operand.findings) {
        drop(operand);
        return Err(Stop::broken(BindingFault::MisplacedSetFunction));
    }
    match set_function_kind(function, operand.kind) {
        Ok(kind) => function_call(alloc, number, function, quantifier, operand, kind),
        Err(stop) => {
            drop(operand);
            Err(stop)
        }
    }
}

/// A set function of this number whose values are of this kind.
fn function_call(
    alloc: Global,
    number: usize,
    function: SetFunction,
    quantifier: Option<SetQuantifier>,
    operand: Bound,
    kind: Kind,
) -> ExprResult
    requires { is_bounded kind ≡ true }
    ensures { Binds bound_of
        (Ok (spec.function_call number function (is_distinct_word quantifier)
        (bound_of operand) kind)) result }
{
    let can_fail = call_can_fail(function, operand.findings.can_fail);
    let Bound { expr, calls, .. } = operand;
    drop(calls);
    let call = SetFunctionCall::Over(Aggregate {
        function,
        distinct: is_distinct(quantifier),
        operand: expr,
    });
    make_call(alloc, number, call, kind, can_fail)
}

/// A set function, which is known by its number.
#[tactic(auto, using(crate::proofs::Expressions::Images::images))]
fn make_call(
    alloc: Global,
    number: usize,
    call: SetFunctionCall,
    kind: Kind,
    can_fail: bool,
) -> ExprResult
    requires { is_bounded kind ≡ true }
    ensures { Binds bound_of (Ok (spec.called number (call_of call) kind can_fail)) result }
{
    let mut calls = Items::new(alloc);
    match calls.push(call) {
        Ok(()) => Ok(Bound {
            expr: BoundExpr::SetFunction(number),
            kind,
            calls,
            calls_can_fail: can_fail,
            findings: Findings::NONE,
        }),
        Err(_) => {
            drop(calls);
            Err(Stop::NoMemory)
        }
    }
}

/// Whether no set function may occur here, or its operand reads a column of a query around.
fn is_misplaced(allowed: bool, operand: Findings) -> bool
    ensures { result ≡ (not allowed || nat_lt 0 operand.reach) }
{
    !allowed || operand.reach > 0
}

/// Whether a set function may answer a status. It may if its operand may. It may also be out of range, unless its value
/// is one of the values that it is over.
fn call_can_fail(function: SetFunction, operand_can_fail: bool) -> bool
    ensures { result ≡ (operand_can_fail || not (is_extreme function)) }
{
    operand_can_fail || !is_extreme(function)
}

/// Whether its value is one of the values that it is over.
fn is_extreme(function: SetFunction) -> bool
    ensures { result ≡ is_extreme function }
{
    matches!(function, SetFunction::Min | SetFunction::Max)
}

/// Whether DISTINCT is written.
pub fn is_distinct(quantifier: Option<SetQuantifier>) -> bool
    ensures { result ≡ is_distinct_word quantifier }
{
    matches!(quantifier, Some(SetQuantifier::Distinct))
}
