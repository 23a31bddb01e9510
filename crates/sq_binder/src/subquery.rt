//! Subqueries of predicates (ISO/IEC 9075:1992, 7.11 and 8.2 to 8.8).

ghost use Rattle.std.specs.Prelude.{◌≡◌, Ok, map};
ghost use Rattle.sq_binding.specs.Condition as spec;
ghost use Rattle.sq_binding.specs.Found.{Binding};
ghost use Rattle.sq_binding.specs.NumberedCondition.{NumberedSelect};
ghost use Rattle.sq_binding.specs.Seen.{column_of, predicate_seen, select_seen};
ghost use Rattle.sq_binding.specs.Select.{Typed as AnyTyped};
ghost use Rattle.sq_binder.specs.Found.{Finds};
ghost use Rattle.sq_binder.specs.Subquery.{Beside, Numbers, among_query, compared_as, compared_side, fault_beside, query_compared, query_exists};
ghost use Rattle.sq_binder.specs.Surroundings.{typed_of};
ghost use Rattle.sq_binder.specs.declared.found.Counts.{Counts as AnyCounts};

use crate::found::{Brought, Counts, Found, pair_parts};
use crate::kinds::are_comparable;
use crate::predicate::PredicateResult;
use crate::stop::Stop;
use crate::typed::Typed;
use sq_bound::{BoundExpr, BoundSpecification, Compared, Predicate, ResultColumn};
use sq_items::Boxed;
use sq_meaning::BindingFault;
use sq_tree::{Comparison, Quantifier};
use sq_value::Kind;
use std::alloc::Global;

pub type SelectResult = Result<Found<BoundSpecification>, Stop>;

/// A query specification as a subquery: with a number, if it reads no column of a query around it.
fn subquery(query: SelectResult) -> SelectResult
    ensures { (b : Binding NumberedSelect) (before : AnyCounts) → Finds select_seen b before query
        → Finds select_seen (spec.subquery b) before result }
{
    let query = query?;
    as_subquery(query)
}

fn as_subquery(query: Found<BoundSpecification>) -> SelectResult
    ensures { Numbers query result }
{
    if query.brought.findings.values.reach == 0 {
        return number_query(query);
    }
    let Found { part, brought } = query;
    Ok(Found {
        part,
        brought: brought.of_subquery(),
    })
}

/// The query, with the next number of a subquery.
fn number_query(query: Found<BoundSpecification>) -> SelectResult
    requires { query.brought.findings.values.reach ≡ 0 }
    ensures { Numbers query result }
{
    let Found { mut part, brought } = query;
    let Some(subqueries) = brought.next.subqueries.checked_add(1) else {
        drop(part);
        drop(brought);
        return Err(Stop::NoMemory);
    };
    part.number = Some(brought.next.subqueries);
    let brought = brought.of_subquery();
    Ok(Found {
        part,
        brought: Brought {
            next: Counts {
                subqueries,
                ..brought.next
            },
            ..brought
        },
    })
}

/// The fault of a subquery with these columns that is compared with a value of this kind: one column, of a kind that agrees.
fn fault_beside(kind: Kind, columns: &[ResultColumn]) -> Option<BindingFault>
    ensures { result ≡ fault_beside kind (map column_of columns.now) }
{
    match columns {
        [column] if are_comparable(kind, column.kind) => None,
        [_] => Some(BindingFault::KindMismatch),
        _ => Some(BindingFault::CountMismatch),
    }
}

/// A subquery that is compared with a value of this kind.
fn check_beside(kind: Kind, query: SelectResult) -> SelectResult
    ensures { (b : Binding NumberedSelect) (before : AnyCounts) → Finds select_seen b before query
        → Finds select_seen (spec.beside kind b) before result }
{
    let query = subquery(query)?;
    match fault_beside(kind, query.part.columns.as_slice()) {
        None => Ok(query),
        Some(fault) => {
            drop(query);
            Err(Stop::broken(fault))
        }
    }
}

/// A scalar subquery, which may have more than one row.
fn make_scalar(kind: Kind, query: SelectResult) -> SelectResult
    ensures { (b : Binding NumberedSelect) (before : AnyCounts) → Finds select_seen b before query
        → Finds select_seen (spec.scalar kind b) before result }
{
    let Found { part, brought } = check_beside(kind, query)?;
    Ok(Found {
        part,
        brought: brought.failing(),
    })
}

/// An expression and the subquery after it.
fn boxed_beside(
    alloc: Global,
    left: Found<Typed>,
    query: SelectResult,
) -> Result<Found<(BoundExpr, Boxed<BoundSpecification>)>, Stop>
    ensures { Beside left query result }
{
    let Found { part, brought } = pair_parts(left, query)?;
    let (left, query) = part;
    match Boxed::new(alloc, query) {
        Ok(query) => Ok(Found {
            part: (left.expr, query),
            brought,
        }),
        Err(_) => {
            drop(left);
            drop(brought);
            Err(Stop::NoMemory)
        }
    }
}

/// How a comparison has the values of its subquery. SOME and ANY are one (8.7).
fn compared_as(quantifier: Option<Quantifier>) -> Compared
    ensures { result ≡ compared_as quantifier }
{
    match quantifier {
        None => Compared::Scalar,
        Some(Quantifier::All) => Compared::All,
        Some(Quantifier::Any | Quantifier::Some) => Compared::Any,
    }
}

/// A subquery that is compared, with or without a quantifier.
fn compared_side(quantifier: Option<Quantifier>, kind: Kind, query: SelectResult) -> SelectResult
    ensures { (b : Binding NumberedSelect) (before : AnyCounts) → Finds select_seen b before query
        → Finds select_seen (compared_side quantifier kind b) before result }
{
    match quantifier {
        None => make_scalar(kind, query),
        Some(_) => check_beside(kind, query),
    }
}

/// `left op [ ALL | ANY | SOME ] (query)`.
pub fn bind_compared_query(
    alloc: Global,
    comparison: Comparison,
    quantifier: Option<Quantifier>,
    left: Found<Typed>,
    query: SelectResult,
) -> PredicateResult
    ensures { (b : Binding AnyTyped) (q : Binding NumberedSelect) (before : AnyCounts)
        → Finds typed_of b before (Ok left) → Finds select_seen q left.brought.next query
        → Finds predicate_seen (query_compared comparison quantifier b q) before result }
{
    let query = compared_side(quantifier, left.part.kind, query);
    let Found { part, brought } = boxed_beside(alloc, left, query)?;
    let (left, query) = part;
    Ok(Found {
        part: Predicate::CompareQuery(comparison, compared_as(quantifier), left, query),
        brought,
    })
}

/// `left [ NOT ] IN (query)`.
pub fn bind_in_query(
    alloc: Global,
    negated: bool,
    left: Found<Typed>,
    query: SelectResult,
) -> PredicateResult
    ensures { (b : Binding AnyTyped) (q : Binding NumberedSelect) (before : AnyCounts)
        → Finds typed_of b before (Ok left) → Finds select_seen q left.brought.next query
        → Finds predicate_seen (among_query negated b q) before result }
{
    let query = check_beside(left.part.kind, query);
    let Found { part, brought } = boxed_beside(alloc, left, query)?;
    let (left, query) = part;
    Ok(Found {
        part: Predicate::InQuery(negated, left, query),
        brought,
    })
}

/// `EXISTS (query)`.
pub fn bind_exists(alloc: Global, query: SelectResult) -> PredicateResult
    ensures { (b : Binding NumberedSelect) (before : AnyCounts) → Finds select_seen b before query
        → Finds predicate_seen (query_exists b) before result }
{
    let Found { part, brought } = subquery(query)?;
    match Boxed::new(alloc, part) {
        Ok(query) => Ok(Found {
            part: Predicate::Exists(query),
            brought,
        }),
        Err(_) => {
            drop(brought);
            Err(Stop::NoMemory)
        }
    }
}
