//! Which tables a query reads: those in its FROM clauses, subqueries included.

ghost use Rattle.std.specs.Prelude.{◌≡◌, ◌++◌, List, IfOk, OnOk};
ghost use Rattle.sq_bound.specs.Condition.{clause_of, cond_of, conj_of, predicate_of, select_of};
ghost use Rattle.sq_bound.specs.Expression.{PlacedExpr};
ghost use Rattle.sq_query.specs.Needed.{clause_tables, cond_tables, inside_tables, specification_tables};

use sq_bound::{BoundCond, BoundConj, BoundSpecification, Predicate, TablePlace};
use std::alloc::{AllocError, Global};

/// The tables in the FROM clauses of a query specification, in the order of the text.
pub(crate) fn tables_needed(
    alloc: Global,
    query: &BoundSpecification,
) -> Result<Vec<TablePlace>, AllocError>
    ensures { IfOk result (λ tables. tables.items ≡ specification_tables query.now) }
{
    let mut tables = Vec::new(alloc);
    add_of_specification(query, &mut tables)?;
    Ok(tables)
}

#[cycle(needed_of_cond)]
fn add_of_specification(
    query: &BoundSpecification,
    tables: &mut Vec<TablePlace>,
) -> Result<(), AllocError>
    ensures { OnOk result (tables.new.items ≡ tables.old.items ++ specification_tables query.now) }
{
    tables.extend_from_slice(query.from.tables.as_slice())?;
    add_of_subqueries(query, tables)
}

#[cycle(needed_of_cond)]
fn add_of_subqueries(
    query: &BoundSpecification,
    tables: &mut Vec<TablePlace>,
) -> Result<(), AllocError>
    ensures { OnOk result (tables.new.items ≡ tables.old.items ++ inside_tables (select_of query.now)) }
{
    add_of_optional(&query.condition, tables)?;
    match &query.grouping {
        Some(grouping) => add_of_optional(&grouping.having, tables),
        None => Ok(()),
    }
}

#[cycle(needed_of_cond)]
fn add_of_optional(
    condition: &Option<BoundCond>,
    tables: &mut Vec<TablePlace>,
) -> Result<(), AllocError>
    ensures { (functions : List PlacedExpr) → OnOk result
        (tables.new.items ≡ tables.old.items ++ clause_tables (clause_of functions condition.now)) }
{
    match condition {
        Some(condition) => add_of_condition(condition, tables),
        None => Ok(()),
    }
}

#[cycle(needed_of_cond)]
fn add_of_condition(condition: &BoundCond, tables: &mut Vec<TablePlace>) -> Result<(), AllocError>
    ensures { (functions : List PlacedExpr) → OnOk result
        (tables.new.items ≡ tables.old.items ++ cond_tables (cond_of functions condition.now)) }
{
    for term in condition.terms.as_slice() {
        add_of_tests(term, tables)?;
    }
    Ok(())
}

#[cycle(needed_of_cond)]
fn add_of_tests(term: &BoundConj, tables: &mut Vec<TablePlace>) -> Result<(), AllocError>
    ensures { (functions : List PlacedExpr) → OnOk result
        (tables.new.items ≡ tables.old.items ++ cond_tables (conj_of functions term.now)) }
{
    for test in term.tests.as_slice() {
        add_of_predicate(&test.predicate, tables)?;
    }
    Ok(())
}

#[cycle(needed_of_cond)]
fn add_of_predicate(predicate: &Predicate, tables: &mut Vec<TablePlace>) -> Result<(), AllocError>
    ensures { (functions : List PlacedExpr) → OnOk result
        (tables.new.items ≡ tables.old.items ++ cond_tables (predicate_of functions predicate.now)) }
{
    match predicate {
        Predicate::CompareQuery(_, _, _, query) => add_of_specification(query.get(), tables),
        Predicate::InQuery(_, _, query) => add_of_specification(query.get(), tables),
        Predicate::Exists(query) => add_of_specification(query.get(), tables),
        Predicate::Bracketed(condition) => add_of_condition(condition.get(), tables),
        _ => Ok(()),
    }
}
