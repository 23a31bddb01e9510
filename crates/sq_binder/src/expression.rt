//! Value expressions: columns and parameters become places, and kinds are checked (ISO/IEC 9075:1992, 6.2 to 6.5 and 6.11 to
//! 6.13).

ghost use Rattle.std.specs.Prelude.{◌≡◌, ◌+◌, ◌&&◌, IfSome, Ok, false, length, nat_lt, not, true};
ghost use Rattle.sq_meaning.specs.Spelled.{added_of, expr_of, factor_of, primary_of, scaled_of, term_of};
ghost use Rattle.sq_binding.specs.Expression as spec;
ghost use Rattle.sq_binding.specs.Numbered.{Numbered};
ghost use Rattle.sq_binder.specs.Binds.{Binds};
ghost use Rattle.sq_binder.specs.Bound.{bound_of};
ghost use Rattle.sq_binder.specs.Expression.{bound_at, product_step, sum_step};
ghost use Rattle.sq_binder.specs.Scope.{found_of, parameters_in, scopes_in};
ghost use Rattle.sq_value.specs.declared.domain.Kind.TheVariants.{Chars};

use crate::bound::{Bound, ExprResult};
use crate::column::FoundColumn;
use crate::findings::{Findings, column_findings};
use crate::literal::{number_literal, text_literal};
use crate::operation::{apply_operator, product_operator, sign_operand, sum_operator};
use crate::parameter::parameter_value;
use crate::scope::Environment;
use crate::set_function::{count_rows, function_over};
use crate::stop::Stop;
use sq_bound::{BoundExpr, Place};
use sq_meaning::BindingFault;
use sq_tree::{Added, ColumnReference, Expr, Factor, Primary, Scaled, Term};
use sq_value::Kind;
use std::alloc::Global;

/// The surroundings of a value expression.
#[derive(Clone, Copy)]
pub struct Standing<'a> {
    pub environment: &'a Environment<'a>,
    /// Whether set functions may occur here.
    pub allowed: bool,
    /// Whether a set function is around.
    pub in_function: bool,
}

/// A value expression in an environment that allows set functions or not. `before` set functions of the query come before it.
pub fn bind_expr(
    expr: &Expr,
    environment: &Environment<'_>,
    allowed: bool,
    before: usize,
) -> ExprResult
    ensures { Binds bound_of
        (spec.bound (scopes_in environment.now) (parameters_in environment.now) allowed false
        (expr_of expr.now) before) result }
{
    let at = Standing {
        environment,
        allowed,
        in_function: false,
    };
    expr_value(expr, &at, before)
}

/// The number of the query's set functions up to the end of a part: `before` and the set functions of the part. It is `None`
/// if that exceeds `usize`.
pub fn number_behind(before: usize, part: &Bound) -> Option<usize>
    ensures { IfSome result (λ number. number ≡ before + length (bound_of part.now).calls) }
{
    before.checked_add(part.calls.len())
}

#[cycle(exprs)]
fn expr_value(expr: &Expr, at: &Standing<'_>, before: usize) -> ExprResult
    ensures { Binds bound_of (bound_at at.now (expr_of expr.now) before) result }
{
    let mut sum = term_value(&expr.first, at, before)?;
    for added in expr.rest.as_slice() {
        match with_term(sum, added, at, before) {
            Ok(next) => sum = next,
            Err(stop) => return Err(stop),
        }
    }
    Ok(sum)
}

/// A sum with a further term after it.
#[cycle(exprs)]
fn with_term(left: Bound, added: &Added, at: &Standing<'_>, before: usize) -> ExprResult
    ensures { Binds bound_of (sum_step at.now before (bound_of left) (added_of added.now)) result }
{
    let Some(number) = number_behind(before, &left) else {
        drop(left);
        return Err(Stop::NoMemory);
    };
    match term_value(&added.term, at, number) {
        Ok(right) => apply_operator(at.environment.alloc, sum_operator(added.sign), left, right),
        Err(stop) => {
            drop(left);
            Err(stop)
        }
    }
}

#[cycle(exprs)]
fn term_value(term: &Term, at: &Standing<'_>, before: usize) -> ExprResult
    ensures { Binds bound_of (bound_at at.now (term_of term.now) before) result }
{
    let mut product = factor_value(&term.first, at, before)?;
    for scaled in term.rest.as_slice() {
        match with_factor(product, scaled, at, before) {
            Ok(next) => product = next,
            Err(stop) => return Err(stop),
        }
    }
    Ok(product)
}

/// A product with a further factor after it.
#[cycle(exprs)]
fn with_factor(left: Bound, scaled: &Scaled, at: &Standing<'_>, before: usize) -> ExprResult
    ensures { Binds bound_of (product_step at.now before (bound_of left) (scaled_of scaled.now)) result }
{
    let Some(number) = number_behind(before, &left) else {
        drop(left);
        return Err(Stop::NoMemory);
    };
    match factor_value(&scaled.factor, at, number) {
        Ok(right) => apply_operator(
            at.environment.alloc,
            product_operator(scaled.sign),
            left,
            right,
        ),
        Err(stop) => {
            drop(left);
            Err(stop)
        }
    }
}

#[cycle(exprs)]
fn factor_value(factor: &Factor, at: &Standing<'_>, before: usize) -> ExprResult
    ensures { Binds bound_of (bound_at at.now (factor_of factor.now) before) result }
{
    let operand = primary_value(&factor.primary, at, before)?;
    match factor.sign {
        None => Ok(operand),
        Some(sign) => sign_operand(at.environment.alloc, sign, operand),
    }
}

#[cycle(exprs)]
fn primary_value(primary: &Primary, at: &Standing<'_>, before: usize) -> ExprResult
    ensures { Binds bound_of (bound_at at.now (primary_of primary.now) before) result }
{
    let alloc = at.environment.alloc;
    match primary {
        Primary::Number(number) => Ok(number_literal(alloc, *number)),
        Primary::Text(characters) => text_literal(alloc, characters),
        Primary::Parameter(parameter) => parameter_value(
            alloc,
            at.environment.parameters,
            *parameter,
        ),
        Primary::User => Ok(user_value(alloc)),
        Primary::Column(reference) => column_value(at, reference),
        Primary::CountRows => count_rows(alloc, at.allowed, before),
        Primary::SetFunction(function, quantifier, expr) => {
            let operand = expr_value(expr.get(), &at.inside(), 0)?;
            function_over(alloc, at.allowed, before, *function, *quantifier, operand)
        }
        Primary::Bracketed(expr) => expr_value(expr.get(), at, before),
    }
}

impl<'a> Standing<'a> {
    /// The surroundings of a set function's operand, in which no further set function may occur.
    fn inside(&self) -> Standing<'a>
        ensures { result
            ≡ record { environment = self.now.environment; allowed = false; in_function = true } }
    {
        Standing {
            environment: self.environment,
            allowed: false,
            in_function: true,
        }
    }
}

/// USER, a text of 18 characters (6.2; the length is an own rule).
#[tactic(auto, using(crate::proofs::Expressions::Images::images))]
fn user_value(alloc: Global) -> Bound
    ensures { bound_of result ≡ spec.plain Numbered.user (Chars 18) spec.user_findings }
{
    let findings = Findings {
        has_user: true,
        ..Findings::NONE
    };
    Bound::plain(alloc, BoundExpr::User, Kind::Chars(18), findings)
}

fn column_value(at: &Standing<'_>, reference: &ColumnReference) -> ExprResult
    ensures { Binds bound_of
        (spec.column_value (scopes_in at.now.environment.now) at.now.in_function reference.now) result }
{
    let found = at.environment.column(reference)?;
    column_allowed(at.environment.alloc, at.in_function, &found)
}

/// A column, if it may occur here. Of a grouped query around, only a grouping column may, or a column in a set function.
fn column_allowed(alloc: Global, in_function: bool, found: &FoundColumn) -> ExprResult
    ensures { Binds bound_of (spec.column_allowed in_function (found_of found.now)) result }
{
    if is_ungrouped(in_function, found) {
        return Err(Stop::broken(BindingFault::UngroupedColumn));
    }
    column_bound(alloc, found)
}

/// Whether it is a column of a query around that may not occur here.
fn is_ungrouped(in_function: bool, found: &FoundColumn) -> bool
    ensures { result ≡ (nat_lt 0 found.now.depth && not found.now.is_grouped && not in_function) }
{
    found.depth > 0 && !found.is_grouped && !in_function
}

#[tactic(auto, using(crate::proofs::Expressions::Images::images))]
fn column_bound(alloc: Global, found: &FoundColumn) -> ExprResult
    ensures { Binds bound_of (Ok (spec.column_bound (found_of found.now))) result }
{
    let findings = column_findings(found)?;
    let place = Place {
        depth: found.depth,
        item: found.item,
        column: found.column.position,
    };
    Ok(Bound::plain(alloc, BoundExpr::Column(place), found.column.kind, findings))
}
