//! Query expressions (ISO/IEC 9075:1992, 7.10). Brackets change nothing.

ghost use Rattle.std.specs.Prelude.{◌≡◌, ◌∷◌, ◌++◌, [], IfOk, map};
ghost use Rattle.sq_meaning.specs.Spelled.{query_of, query_term_of};
ghost use Rattle.sq_binding.specs.Found.{Binding};
ghost use Rattle.sq_binding.specs.NumberedCondition.{NumberedSelect};
ghost use Rattle.sq_binding.specs.QueryExpression as spec;
ghost use Rattle.sq_binding.specs.QueryExpression.{NumberedQuery, columns_of_query};
ghost use Rattle.sq_binding.specs.Seen.{column_of, select_seen};
ghost use Rattle.sq_binder.specs.Found.{Finds, both_of, pairs};
ghost use Rattle.sq_binder.specs.Surroundings.{surroundings};
ghost use Rattle.sq_binder.specs.declared.found.Counts.{Counts as AnyCounts};
ghost use Rattle.sq_binder.specs.Query.{Joins, as_query, union_of};
ghost use Rattle.sq_binding.specs.SeenQuery.{HaveTheirColumns, TermHasColumns, query_seen, term_seen};

use crate::common::common_columns;
use crate::{
    Counts, Found, SelectResult, Stop, Surroundings, Tables, bind_select, pair_parts, push_item,
};
use sq_bound::{BoundQuery, BoundTerm, BoundUnion, ResultColumn};
use sq_items::{Boxed, Items};
use sq_tree::{Query, QueryTerm};
use std::alloc::{AllocError, Global};

pub type QueryResult = Result<Found<BoundQuery>, Stop>;

type TermResult = Result<Found<BoundTerm>, Stop>;

/// A query expression (ISO/IEC 9075:1992, 7.10): its tree with its columns, and its additions to
/// the query around it. Or its first fault.
#[cycle(queries)]
pub fn bind_query<T: Tables>(query: &Query, at: &Surroundings<'_, T>, before: Counts) -> QueryResult
    ensures finds { Finds query_seen (spec.query_bound (surroundings T.named at.now)
        (query_of at.now.environment.now.user query.now)) before result }
    ensures columns { IfOk result (λ found. HaveTheirColumns found.part) }
{
    let first = bind_term(&query.first, at, before);
    let mut joined = start_query(at.environment.alloc, first)?;
    for union in query.rest.as_slice() {
        let term = bind_term(&union.term, at, joined.brought.next);
        match with_union(at.environment.alloc, joined, union.all, term) {
            Ok(more) => joined = more,
            Err(stop) => return Err(stop),
        }
    }
    Ok(joined)
}

#[cycle(queries)]
fn bind_term<T: Tables>(term: &QueryTerm, at: &Surroundings<'_, T>, before: Counts) -> TermResult
    ensures finds { Finds term_seen (spec.query_bound (surroundings T.named at.now)
        (query_term_of at.now.environment.now.user term.now)) before result }
    ensures columns { IfOk result (λ found. TermHasColumns found.part) }
{
    match term {
        QueryTerm::Specification(query) => specification_term(bind_select(
            &query.table,
            query.quantifier,
            &query.list,
            at,
            before,
        )),
        QueryTerm::Bracketed(query) => {
            bracketed_term(at.environment.alloc, bind_query(query.get(), at, before))
        }
    }
}

fn specification_term(query: SelectResult) -> TermResult
    ensures finds { (b : Binding NumberedSelect) (before : AnyCounts) → Finds select_seen b before query
        → Finds term_seen (as_query b) before result }
    ensures columns { IfOk result (λ found. TermHasColumns found.part) }
{
    let Found { part, brought } = query?;
    Ok(Found {
        part: BoundTerm::Specification(part),
        brought,
    })
}

fn bracketed_term(alloc: Global, query: QueryResult) -> TermResult
    requires { IfOk query (λ found. HaveTheirColumns found.part) }
    ensures finds { (b : Binding NumberedQuery) (before : AnyCounts) → Finds query_seen b before query
        → Finds term_seen b before result }
    ensures columns { IfOk result (λ found. TermHasColumns found.part) }
{
    let Found { part, brought } = query?;
    match Boxed::new(alloc, part) {
        Ok(query) => Ok(Found {
            part: BoundTerm::Bracketed(query),
            brought,
        }),
        Err(_) => {
            drop(brought);
            Err(Stop::NoMemory)
        }
    }
}

/// The columns of a query term.
fn columns_of(term: &BoundTerm) -> &[ResultColumn]
    requires { TermHasColumns term.now }
    ensures { map column_of result.now ≡ columns_of_query (term_seen term.now) }
{
    match term {
        BoundTerm::Specification(query) => query.columns.as_slice(),
        BoundTerm::Bracketed(query) => query.get().columns.as_slice(),
    }
}

/// A query expression of one term.
fn start_query(alloc: Global, term: TermResult) -> QueryResult
    requires { IfOk term (λ found. TermHasColumns found.part) }
    ensures finds { (b : Binding NumberedQuery) (before : AnyCounts) → Finds term_seen b before term
        → Finds query_seen b before result }
    ensures columns { IfOk result (λ found. HaveTheirColumns found.part) }
{
    let Found { part, brought } = term?;
    match of_term(alloc, part) {
        Ok(part) => Ok(Found { part, brought }),
        Err(_) => {
            drop(brought);
            Err(Stop::NoMemory)
        }
    }
}

/// The query expression of one term, with the term's columns.
pub fn of_term(alloc: Global, term: BoundTerm) -> Result<BoundQuery, AllocError>
    requires { TermHasColumns term }
    ensures { IfOk result (λ query. (query_seen query ≡ term_seen term) × HaveTheirColumns query) }
{
    match Items::from_slice(alloc, columns_of(&term)) {
        Ok(columns) => Ok(BoundQuery {
            first: term,
            rest: Items::new(alloc),
            columns,
        }),
        Err(error) => {
            drop(term);
            Err(error)
        }
    }
}

/// The query expression with a further term.
fn with_union(alloc: Global, joined: Found<BoundQuery>, all: bool, term: TermResult) -> QueryResult
    requires joined { HaveTheirColumns joined.part }
    requires term { IfOk term (λ found. TermHasColumns found.part) }
    ensures finds { (left right : Binding NumberedQuery) (before : AnyCounts)
        → Finds query_seen left before (Ok joined) → Finds term_seen right joined.brought.next term
        → Finds query_seen (union_of all left right) before result }
    ensures columns { IfOk result (λ found. HaveTheirColumns found.part) }
{
    let term = with_common(alloc, joined.part.columns.as_slice(), term);
    match pair_parts(joined, term) {
        Ok(sides) => joined_sides(alloc, all, sides),
        Err(stop) => Err(stop),
    }
}

/// A term, and the columns to which it and a left side with these columns are brought.
fn with_common(
    alloc: Global,
    left: &[ResultColumn],
    term: TermResult,
) -> Result<Found<(BoundTerm, Items<ResultColumn>)>, Stop>
    requires { IfOk term (λ found. TermHasColumns found.part) }
    ensures finds { (right : Binding NumberedQuery) (before : AnyCounts) → Finds term_seen right before term
        → Finds (both_of term_seen (map column_of))
        (pairs right (λ y. spec.common_columns (map column_of left.now) (columns_of_query y))) before result }
    ensures columns { IfOk result (λ found. TermHasColumns found.part.0) }
{
    let term = term?;
    let columns = common_columns(alloc, left, columns_of(&term.part), term.brought.next);
    pair_parts(term, columns)
}

fn joined_sides(
    alloc: Global,
    all: bool,
    sides: Found<(BoundQuery, (BoundTerm, Items<ResultColumn>))>,
) -> QueryResult
    requires query { HaveTheirColumns sides.part.0 }
    requires term { TermHasColumns sides.part.1.0 }
    ensures { Joins all sides result }
{
    let Found { part, brought } = sides;
    let (query, (term, columns)) = part;
    match with_term(alloc, query, all, term, columns) {
        Ok(part) => Ok(Found { part, brought }),
        Err(_) => {
            drop(brought);
            Err(Stop::NoMemory)
        }
    }
}

/// The query with a further term, and these columns.
fn with_term(
    alloc: Global,
    query: BoundQuery,
    all: bool,
    term: BoundTerm,
    columns: Items<ResultColumn>,
) -> Result<BoundQuery, AllocError>
    requires query { HaveTheirColumns query }
    requires term { TermHasColumns term }
    ensures { IfOk result (λ more. (query_seen more
        ≡ NumberedQuery.joined all (query_seen query) (term_seen term) (map column_of columns))
        × HaveTheirColumns more) }
{
    let BoundQuery {
        first,
        rest,
        columns: left,
    } = query;
    drop(left);
    match union_term(alloc, rest, all, term, columns.as_slice()) {
        Ok(rest) => Ok(BoundQuery {
            first,
            rest,
            columns,
        }),
        Err(error) => {
            drop(first);
            drop(columns);
            Err(error)
        }
    }
}

/// The further terms of a query, and one more, with the columns to which both sides are brought.
fn union_term(
    alloc: Global,
    rest: Items<BoundUnion>,
    all: bool,
    term: BoundTerm,
    columns: &[ResultColumn],
) -> Result<Items<BoundUnion>, AllocError>
    ensures { IfOk result
        (λ more. more ≡ rest ++ (record { all = all; term = term; columns = columns.now }) ∷ []) }
{
    match Items::from_slice(alloc, columns) {
        Ok(columns) => push_item(rest, BoundUnion { all, term, columns }),
        Err(error) => {
            drop(rest);
            drop(term);
            Err(error)
        }
    }
}
