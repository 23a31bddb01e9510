//! Which tables stand beside a part of a query specification or of a condition: where rows of a table in the part are found by a key, it may
//! stand in none of the others.

ghost use Rattle.std.specs.Prelude.{◌<◌, List, IfOk, length};
ghost use Rattle.sq_bound.specs.Condition.{conj_of, select_of, test_of};
ghost use Rattle.sq_bound.specs.Expression.{PlacedExpr};
ghost use Rattle.sq_query.specs.Inner.{AreOfOtherParts, around_tables, lines_tables};
ghost use Rattle.sq_query.specs.Needed.{Adds, inside_tables};

use crate::needed::Needed;
use sq_bound::{BoundCond, BoundConj, BoundSpecification, BoundTest};
use std::alloc::{AllocError, Global};
use std::slice::from_ref;

/// Whether a condition reads a table.
pub(crate) fn has_subqueries(alloc: Global, condition: &BoundCond) -> Result<bool, AllocError> {
    let inside = Needed::of_condition(alloc, condition)?;
    Ok(!inside.is_empty())
}

/// Whether a term reads a table.
pub(crate) fn is_term_with_subqueries(alloc: Global, term: &BoundConj) -> Result<bool, AllocError> {
    let mut inside = Needed::new(alloc);
    inside.add_of_terms(from_ref(term))?;
    Ok(!inside.is_empty())
}

/// Whether a test reads a table.
pub(crate) fn is_test_with_subqueries(alloc: Global, test: &BoundTest) -> Result<bool, AllocError> {
    let mut inside = Needed::new(alloc);
    inside.add_of_each(from_ref(test))?;
    Ok(!inside.is_empty())
}

/// These tables, and those of the subqueries of a query specification.
pub(crate) fn with_subqueries(
    alloc: Global,
    tables: &Needed,
    query: &BoundSpecification,
) -> Result<Needed, AllocError>
    ensures { IfOk result (λ all. Adds tables.now (inside_tables (select_of query.now)) all) }
{
    let mut all = tables.copied(alloc)?;
    all.add_of_subqueries(query)?;
    Ok(all)
}

/// These tables, and those of a query specification but the ones in the subqueries of its WHERE clause.
pub(crate) fn with_around(
    alloc: Global,
    tables: &Needed,
    query: &BoundSpecification,
) -> Result<Needed, AllocError>
    ensures { IfOk result (λ all. Adds tables.now (around_tables (select_of query.now)) all) }
{
    let mut all = tables.copied(alloc)?;
    all.add_around(query)?;
    Ok(all)
}

/// These tables, and those of a query specification but the ones in the subqueries of its HAVING clause.
pub(crate) fn with_lines_of(
    alloc: Global,
    tables: &Needed,
    query: &BoundSpecification,
) -> Result<Needed, AllocError>
    ensures { IfOk result (λ all. Adds tables.now (lines_tables (select_of query.now)) all) }
{
    let mut all = tables.copied(alloc)?;
    all.add_of_lines(query)?;
    Ok(all)
}

/// These tables, and those of all terms but one.
pub(crate) fn beside_term(
    alloc: Global,
    tables: &Needed,
    terms: &[BoundConj],
    number: usize,
) -> Result<Needed, AllocError>
    requires number { number < length terms.now }
    ensures { (functions : List PlacedExpr)
        → IfOk result (λ all. AreOfOtherParts (conj_of functions) terms.now number tables.now all) }
{
    let mut all = tables.copied(alloc)?;
    all.add_of_terms(&terms[..number])?;
    all.add_of_terms(&terms[number + 1..])?;
    Ok(all)
}

/// These tables, and those of all tests but one.
pub(crate) fn beside_test(
    alloc: Global,
    tables: &Needed,
    tests: &[BoundTest],
    number: usize,
) -> Result<Needed, AllocError>
    requires number { number < length tests.now }
    ensures { (functions : List PlacedExpr)
        → IfOk result (λ all. AreOfOtherParts (test_of functions) tests.now number tables.now all) }
{
    let mut all = tables.copied(alloc)?;
    all.add_of_each(&tests[..number])?;
    all.add_of_each(&tests[number + 1..])?;
    Ok(all)
}
