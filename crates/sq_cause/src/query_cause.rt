//! Where a query of SELECT INTO, of INSERT or of a cursor that is not updatable ends with a status (ISO/IEC 9075:1992, 7.9, 13.2,
//! 13.5 and 13.8).

ghost use Rattle.std.specs.Prelude.{◌≡◌, ◌++◌, [], IfOk, IfSome, None, OnOk, Some, slice_get, true};
ghost use Rattle.std.specs.List.{AllByRecursion};
ghost use Rattle.sq_bound.specs.Joined.{specifications_of, term_specifications};
ghost use Rattle.sq_bound.specs.WellFormed.{IsQuery, IsSelect};
ghost use Rattle.sq_catalog.specs.Catalog.{column_kinds};
ghost use Rattle.sq_session.specs.Called.{HasValues, IsWholeFor, MayPerform, kind_for, parameter_kinds};
ghost use Rattle.sq_session.specs.Kind.{body_at};
ghost use Rattle.sq_session.specs.Schemas.{schemas_of};
ghost use Rattle.sq_session.specs.State.{state_of};
ghost use Rattle.sq_cause.specs.QueryCause.{AreItems, HasEnd, IsEndAmong, IsQueryCause, lent_queries, queries_of_body, queries_of_source};

use crate::cause::QueryCause;
use sq_bound::{
    BoundInsert, BoundQuery, BoundSpecification, BoundStatement, BoundTerm, CursorBody,
    InsertedRows, Names, TableBody, TablePlace,
};
use sq_catalog::Catalog;
use sq_ending::{InnerEnd, inner_end};
use sq_session::{Called, Inside};
use sq_store::Store;
use std::alloc::AllocError;

/// Where a query of the statement ends with a status: of UNION the first query specification that does.
pub(crate) fn query_cause<S: Store>(
    called: &Called<'_>,
    inside: &Inside<'_, S>,
    statement: &BoundStatement,
) -> Result<Option<QueryCause>, AllocError>
    requires may { MayPerform called.now statement.now }
    requires whole { IsWholeFor called.now
        (state_of (S.content_now inside.now.store.now) (S.committed inside.now.store.now)
        (S.key_columns inside.now.store.now) (S.row_numbers inside.now.store.now) inside.now.cursors.now) }
    ensures { IfOk result (λ found. IfSome found (IsQueryCause (schemas_of called.now.catalog.now)
        (kind_for called.now statement.now) called.now.values.now (S.content_now inside.now.store.now))) }
{
    match statement {
        BoundStatement::Select(select) => end_of(called, inside, None, &select.query),
        BoundStatement::Insert(insert) => inserted_end(called, inside, insert),
        BoundStatement::Open(cursor) => opened_end(called, inside, *cursor),
        _ => Ok(None),
    }
}

/// Where the query of an insert statement ends.
fn inserted_end<S: Store>(
    called: &Called<'_>,
    inside: &Inside<'_, S>,
    insert: &BoundInsert,
) -> Result<Option<QueryCause>, AllocError>
    requires may { MayPerform called.now (BoundStatement.Insert insert.now) }
    requires whole { IsWholeFor called.now
        (state_of (S.content_now inside.now.store.now) (S.committed inside.now.store.now)
        (S.key_columns inside.now.store.now) (S.row_numbers inside.now.store.now) inside.now.cursors.now) }
    ensures { IfOk result (λ found. IfSome found (IsEndAmong (schemas_of called.now.catalog.now)
        called.now.procedure.now.user called.now.values.now (S.content_now inside.now.store.now)
        (queries_of_source insert.now.source))) }
{
    match &insert.source {
        InsertedRows::Query(query) => end_of(called, inside, None, query),
        InsertedRows::Values(_) => Ok(None),
    }
}

/// Where the query of a cursor that is not updatable ends.
fn opened_end<S: Store>(
    called: &Called<'_>,
    inside: &Inside<'_, S>,
    cursor: usize,
) -> Result<Option<QueryCause>, AllocError>
    requires may { MayPerform called.now (BoundStatement.Open cursor) }
    requires whole { IsWholeFor called.now
        (state_of (S.content_now inside.now.store.now) (S.committed inside.now.store.now)
        (S.key_columns inside.now.store.now) (S.row_numbers inside.now.store.now) inside.now.cursors.now) }
    ensures { IfOk result (λ found. IfSome found (IsEndAmong (schemas_of called.now.catalog.now)
        called.now.procedure.now.user called.now.values.now (S.content_now inside.now.store.now)
        (queries_of_body (body_at called.now.cursors.now cursor)))) }
{
    let Some(declared) = called.cursors.get(cursor) else {
        return Ok(None);
    };
    match &declared.cursor.body {
        CursorBody::Rows(query, _) => end_in(called, inside, query),
        CursorBody::Updatable(_) => Ok(None),
    }
}

/// Where a query expression ends: its first query specification that ends with a status.
fn end_in<S: Store>(
    called: &Called<'_>,
    inside: &Inside<'_, S>,
    query: &BoundQuery,
) -> Result<Option<QueryCause>, AllocError>
    requires well { IsQuery (column_kinds called.now.catalog.now) (parameter_kinds called.now) query.now }
    requires given { HasValues called.now }
    requires whole { IsWholeFor called.now
        (state_of (S.content_now inside.now.store.now) (S.committed inside.now.store.now)
        (S.key_columns inside.now.store.now) (S.row_numbers inside.now.store.now) inside.now.cursors.now) }
    ensures { IfOk result (λ found. IfSome found (IsEndAmong (schemas_of called.now.catalog.now)
        called.now.procedure.now.user called.now.values.now (S.content_now inside.now.store.now)
        (specifications_of query.now))) }
{
    let mut all = Vec::new(called.alloc);
    let found = match add_specifications(query, &mut all) {
        Ok(()) => first_end(called, inside, all.as_slice()),
        Err(error) => Err(error),
    };
    drop(all);
    found
}

/// Adds the query specifications of a query expression, in the order of the text.
#[cycle(add_specifications)]
fn add_specifications<'a>(
    query: &'a BoundQuery,
    all: &mut Vec<&'a BoundSpecification>,
) -> Result<(), AllocError>
    ensures { OnOk result
        (lent_queries all.new.items ≡ lent_queries all.old.items ++ specifications_of query.now) }
{
    add_term(&query.first, all)?;
    for union in query.rest.as_slice() {
        add_term(&union.term, all)?;
    }
    Ok(())
}

/// Adds those of a term.
#[cycle(add_specifications)]
fn add_term<'a>(
    term: &'a BoundTerm,
    all: &mut Vec<&'a BoundSpecification>,
) -> Result<(), AllocError>
    ensures { OnOk result
        (lent_queries all.new.items ≡ lent_queries all.old.items ++ term_specifications term.now) }
{
    match term {
        BoundTerm::Specification(query) => {
            all.push(query)?;
            Ok(())
        }
        BoundTerm::Bracketed(query) => add_specifications(query.get(), all),
    }
}

/// Where the first of these query specifications that ends does so.
fn first_end<S: Store>(
    called: &Called<'_>,
    inside: &Inside<'_, S>,
    queries: &[&BoundSpecification],
) -> Result<Option<QueryCause>, AllocError>
    requires well { AllByRecursion
        (IsSelect (column_kinds called.now.catalog.now) (parameter_kinds called.now) [])
        (lent_queries queries.now) }
    requires given { HasValues called.now }
    requires whole { IsWholeFor called.now
        (state_of (S.content_now inside.now.store.now) (S.committed inside.now.store.now)
        (S.key_columns inside.now.store.now) (S.row_numbers inside.now.store.now) inside.now.cursors.now) }
    ensures { IfOk result (λ found. IfSome found (IsEndAmong (schemas_of called.now.catalog.now)
        called.now.procedure.now.user called.now.values.now (S.content_now inside.now.store.now)
        (lent_queries queries.now))) }
{
    for (number, query) in queries.iter().enumerate() {
        let term = number_among(queries.len(), number);
        match end_of(called, inside, term, *query) {
            Ok(None) => (),
            Ok(Some(cause)) => return Ok(Some(cause)),
            Err(error) => return Err(error),
        }
    }
    Ok(None)
}

/// A number among so many, if there is more than one.
fn number_among(count: usize, number: usize) -> Option<usize>
    ensures only { result ≡ None → count ≡ 1 }
    ensures several { IfSome result (λ n. n ≡ number) }
{
    if count == 1 { None } else { Some(number) }
}

/// Where a query specification with this number ends.
fn end_of<S: Store>(
    called: &Called<'_>,
    inside: &Inside<'_, S>,
    term: Option<usize>,
    query: &BoundSpecification,
) -> Result<Option<QueryCause>, AllocError>
    requires well { IsSelect (column_kinds called.now.catalog.now) (parameter_kinds called.now) [] query.now }
    requires given { HasValues called.now }
    requires whole { IsWholeFor called.now
        (state_of (S.content_now inside.now.store.now) (S.committed inside.now.store.now)
        (S.key_columns inside.now.store.now) (S.row_numbers inside.now.store.now) inside.now.cursors.now) }
    ensures { IfOk result (λ found. IfSome found (HasEnd (schemas_of called.now.catalog.now)
        called.now.procedure.now.user called.now.values.now (S.content_now inside.now.store.now)
        term query.now)) }
{
    match inner_end(
        called.alloc,
        called.catalog,
        query,
        inside.store,
        called.inputs(),
    ) {
        Ok(Some(end)) => with_items(called, term, query, end),
        Ok(None) => Ok(None),
        Err(error) => Err(error),
    }
}

/// The end of a query specification, with the items of FROM of the query that ends.
fn with_items(
    called: &Called<'_>,
    term: Option<usize>,
    query: &BoundSpecification,
    end: InnerEnd,
) -> Result<Option<QueryCause>, AllocError>
    ensures term { IfOk result (λ found. IfSome found (λ cause. cause.term ≡ term)) }
    ensures end { IfOk result (λ found. IfSome found (λ cause. cause.end ≡ end)) }
    ensures items { IfOk result (λ found. IfSome found (λ cause. AreItems called.now.catalog.now.views
        query.now end.views.items cause.tables.items)) }
{
    let mut tables = Vec::new(called.alloc);
    match add_items(called.catalog, query, end.views.as_slice(), &mut tables) {
        Ok(true) => Ok(Some(QueryCause { term, end, tables })),
        Ok(false) => {
            drop(tables);
            drop(end);
            Ok(None)
        }
        Err(error) => {
            drop(tables);
            drop(end);
            Err(error)
        }
    }
}

/// Adds the items of FROM of the last of the views' queries, from outside in, or of the query itself; `false` if a view is not
/// there.
fn add_items(
    catalog: &Catalog,
    query: &BoundSpecification,
    views: &[usize],
    tables: &mut Vec<TablePlace>,
) -> Result<bool, AllocError>
    ensures { tables.old.items ≡ [] → IfOk result (λ found. found ≡ true
        → AreItems catalog.now.views query.now views.now tables.new.items) }
{
    match views {
        [] => {
            tables.extend_from_slice(query.from.tables.as_slice())?;
            Ok(true)
        }
        [view, inner @ ..] => match query_at(catalog, *view) {
            Some(query) => add_items(catalog, query, inner, tables),
            None => Ok(false),
        },
    }
}

/// The query of the view at a place.
fn query_at(catalog: &Catalog, place: usize) -> Option<&BoundSpecification>
    ensures { IfSome result (λ query. slice_get catalog.now.views place ≡ Some query.now) }
{
    match catalog.at(TablePlace::View(place)) {
        Some(table) => match &table.body {
            TableBody::View(view) => Some(&view.query),
            TableBody::Base(_) => None,
        },
        None => None,
    }
}
