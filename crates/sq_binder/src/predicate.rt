//! Predicates (ISO/IEC 9075:1992, 8.2 to 8.8).

ghost use Rattle.std.specs.Prelude.{map};
ghost use Rattle.std.specs.Option.{option_map};
ghost use Rattle.sq_meaning.specs.Spelled.{expr_of, listed, not_if};
ghost use Rattle.sq_meaning.specs.Syntax.{between as between_tree, compare, in_list as in_list_tree, is_null, like as like_tree};
ghost use Rattle.sq_binding.specs.Condition as spec;
ghost use Rattle.sq_binding.specs.Found.{each};
ghost use Rattle.sq_binding.specs.Seen.{numbered_of, predicate_seen};
ghost use Rattle.sq_binder.specs.Found.{Finds, both_of, pairs};
ghost use Rattle.sq_binder.specs.Surroundings.{surroundings};

use crate::found::{Counts, Found, begin_list, pair_parts, with_next};
use crate::stop::Stop;
use crate::surroundings::{Surroundings, Tables, bind_agreeing, bind_escape, bind_text, value};
use crate::typed::Typed;
use sq_bound::{BoundExpr, Predicate};
use sq_items::{Boxed, Items};
use sq_tree::{CommaList, Comparison, Expr};
use sq_value::Kind;

pub type PredicateResult = Result<Found<Predicate>, Stop>;

/// `left op right` (8.2).
pub fn bind_comparison<T: Tables>(
    comparison: Comparison,
    left: &Expr,
    right: &Expr,
    at: &Surroundings<'_, T>,
    before: Counts,
) -> PredicateResult
    ensures { Finds predicate_seen (spec.cond_bound (surroundings T.named at.now)
        (compare comparison (expr_of left.now) (expr_of right.now))) before result }
{
    let left = value(left, at, before)?;
    let right = bind_agreeing(right, left.part.kind, at, left.brought.next);
    let Found { part, brought } = pair_parts(left, right)?;
    let (left, right) = part;
    Ok(Found {
        part: Predicate::Compare(comparison, left.expr, right),
        brought,
    })
}

/// `left [ NOT ] BETWEEN low AND high` (8.3).
pub fn bind_between<T: Tables>(
    negated: bool,
    left: &Expr,
    low: &Expr,
    high: &Expr,
    at: &Surroundings<'_, T>,
    before: Counts,
) -> PredicateResult
    ensures { Finds predicate_seen (spec.cond_bound (surroundings T.named at.now)
        (not_if negated (between_tree (expr_of left.now) (expr_of low.now)
        (expr_of high.now)))) before result }
{
    let left = value(left, at, before)?;
    let bounds = bind_bounds(low, high, left.part.kind, at, left.brought.next);
    let Found { part, brought } = pair_parts(left, bounds)?;
    let (left, (low, high)) = part;
    Ok(Found {
        part: Predicate::Between(negated, left.expr, low, high),
        brought,
    })
}

fn bind_bounds<T: Tables>(
    low: &Expr,
    high: &Expr,
    kind: Kind,
    at: &Surroundings<'_, T>,
    before: Counts,
) -> Result<Found<(BoundExpr, BoundExpr)>, Stop>
    ensures { let a = surroundings T.named at.now in Finds (both_of numbered_of numbered_of)
        (pairs (spec.agreeing a kind (expr_of low.now)) (λ x. spec.agreeing a kind (expr_of high.now)))
        before result }
{
    let low = bind_agreeing(low, kind, at, before)?;
    let high = bind_agreeing(high, kind, at, low.brought.next);
    pair_parts(low, high)
}

/// `left [ NOT ] IN (list)` (8.4).
pub fn bind_in_list<T: Tables>(
    negated: bool,
    left: &Expr,
    list: &CommaList<Expr>,
    at: &Surroundings<'_, T>,
    before: Counts,
) -> PredicateResult
    ensures { Finds predicate_seen (spec.cond_bound (surroundings T.named at.now)
        (not_if negated (in_list_tree (expr_of left.now) (map expr_of (listed list.now))))) before result }
{
    let left = value(left, at, before)?;
    let list = bind_list(list, left.part.kind, at, left.brought.next);
    let Found { part, brought } = pair_parts(left, list)?;
    let (left, list) = part;
    Ok(Found {
        part: Predicate::InList(negated, left.expr, list),
        brought,
    })
}

/// The expressions of an IN list, of kinds that agree with this one.
fn bind_list<T: Tables>(
    list: &CommaList<Expr>,
    kind: Kind,
    at: &Surroundings<'_, T>,
    before: Counts,
) -> Result<Found<Items<BoundExpr>>, Stop>
    ensures { Finds (map numbered_of) (each (spec.agreeing (surroundings T.named at.now) kind)
        (map expr_of (listed list.now))) before result }
{
    let first = bind_agreeing(&list.first, kind, at, before);
    let mut exprs = begin_list(at.environment.alloc, first)?;
    for expr in list.rest.as_slice() {
        let next = bind_agreeing(expr, kind, at, exprs.brought.next);
        match with_next(exprs, next) {
            Ok(more) => exprs = more,
            Err(stop) => return Err(stop),
        }
    }
    Ok(exprs)
}

/// `left [ NOT ] LIKE pattern [ ESCAPE escape ]` (8.5).
pub fn bind_like<T: Tables>(
    negated: bool,
    left: &Expr,
    pattern: &Expr,
    escape: &Option<Boxed<Expr>>,
    at: &Surroundings<'_, T>,
    before: Counts,
) -> PredicateResult
    ensures { Finds predicate_seen (spec.cond_bound (surroundings T.named at.now)
        (not_if negated (like_tree (expr_of left.now) (expr_of pattern.now) (option_map expr_of escape.now))))
        before result }
{
    let left = bind_text(left, at, before)?;
    let pattern = bind_pattern(pattern, escape, at, left.brought.next);
    let Found { part, brought } = pair_parts(left, pattern)?;
    let (left, (pattern, escape)) = part;
    Ok(Found {
        part: Predicate::Like(negated, left, pattern, escape),
        brought,
    })
}

/// A pattern and its escape character.
fn bind_pattern<T: Tables>(
    pattern: &Expr,
    character: &Option<Boxed<Expr>>,
    at: &Surroundings<'_, T>,
    before: Counts,
) -> Result<Found<(BoundExpr, Option<BoundExpr>)>, Stop>
    ensures { let a = surroundings T.named at.now in Finds (both_of numbered_of (option_map numbered_of))
        (pairs (spec.text a (expr_of pattern.now))
        (λ x. spec.escape_bound a (option_map expr_of character.now))) before result }
{
    let pattern = bind_text(pattern, at, before)?;
    let character = bind_escape(character, at, pattern.brought.next);
    pair_parts(pattern, character)
}

/// `left IS [ NOT ] NULL` (8.6).
pub fn bind_null_test<T: Tables>(
    negated: bool,
    left: &Expr,
    at: &Surroundings<'_, T>,
    before: Counts,
) -> PredicateResult
    ensures { Finds predicate_seen (spec.cond_bound (surroundings T.named at.now)
        (not_if negated (is_null (expr_of left.now)))) before result }
{
    let Found { part, brought } = value(left, at, before)?;
    let Typed { expr, kind: _ } = part;
    Ok(Found {
        part: Predicate::Null(negated, expr),
        brought,
    })
}
