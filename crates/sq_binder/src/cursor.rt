//! Cursors (ISO/IEC 9075:1992, 13.1).

ghost use Rattle.std.specs.Prelude.{◌≡◌, IfOk, None, Ok, Some, map};
ghost use Rattle.std.specs.Option.{option_map};
ghost use Rattle.sq_lex.specs.declared.name.Name.{Name as AnyName};
ghost use Rattle.sq_meaning.specs.Spelled.{listed_if_any, query_of, query_term_of, select_of};
ghost use Rattle.sq_meaning.specs.WellFormedStatement as rules;
ghost use Rattle.sq_binding.specs.Cursor as spec;
ghost use Rattle.sq_binding.specs.Found.{Binding, outcome};
ghost use Rattle.sq_binding.specs.Order.{order_bound};
ghost use Rattle.sq_binding.specs.QueryExpression.{NumberedQuery};
ghost use Rattle.sq_binding.specs.Seen.{select_seen};
ghost use Rattle.sq_binder.specs.Binds.{Binds};
ghost use Rattle.sq_binder.specs.Found.{Finds, both_of, found_of};
ghost use Rattle.sq_binder.specs.Scope.{declared_of};
ghost use Rattle.sq_binder.specs.Surroundings.{surroundings};
ghost use Rattle.sq_binder.specs.declared.found.Counts.{Counts as AnyCounts};
ghost use Rattle.sq_binder.specs.Cursor.{IsOver, IsOverPart, cursor_at, in_order};
ghost use Rattle.sq_binder.specs.Names.{names_at, user_names};
ghost use Rattle.sq_binder.specs.Order.{names_seen};
ghost use Rattle.sq_binding.specs.SeenQuery.{BodyHasColumns, HaveTheirColumns, cursor_seen, query_seen, sort_seen, updatable_seen};

use crate::names::ChangeableTables;
use crate::order::order_by;
use crate::query::{QueryResult, bind_query, of_term};
use crate::updatable::{Over, bind_updatable};
use crate::whole::{at_first, take_permitted};
use crate::{
    Counts, Environment, Found, Stop, Surroundings, bind_select, bring_nothing, pair_parts,
};
use sq_bound::{
    BoundCursor, BoundQuery, BoundSpecification, BoundTerm, CursorBody, ParameterDesc,
    ResultColumn, SortColumn,
};
use sq_items::Items;
use sq_lex::Name;
use sq_tree::{CommaList, Cursor, Query, QuerySpecification, QueryTerm, SortSpecification};
use std::alloc::Global;

pub type CursorResult = Result<BoundCursor, Stop>;

/// A cursor of a module of this user, for the parameters of the procedure that opens it.
pub fn bind_cursor<T: ChangeableTables>(
    alloc: Global,
    cursor: &Cursor,
    tables: &T,
    user: Name,
    parameters: &[ParameterDesc],
) -> CursorResult
    ensures binds { Binds cursor_seen
        (spec.cursor_bound (user_names user (T.named tables.now) (T.changes tables.now))
        (map declared_of parameters.now) cursor.now) result }
    ensures under { IfOk result (λ cursor. IsOver (T.changes tables.now) cursor.table cursor.body) }
    ensures columns { IfOk result (λ cursor. BodyHasColumns cursor.body) }
{
    let environment = Environment::new(alloc, user, parameters);
    let at = Surroundings {
        tables,
        environment: &environment,
        functions_allowed: false,
    };
    cursor_of(cursor, &at)
}

fn cursor_of<T: ChangeableTables>(cursor: &Cursor, at: &Surroundings<'_, T>) -> CursorResult
    ensures binds { Binds cursor_seen
        (cursor_at (names_at T.named T.changes at.now) (surroundings T.named at.now) cursor.now) result }
    ensures under { IfOk result
        (λ cursor. IsOver (T.changes at.now.tables.now) cursor.table cursor.body) }
    ensures columns { IfOk result (λ cursor. BodyHasColumns cursor.body) }
{
    match plain_specification(cursor) {
        Some(query) => specification_cursor(cursor, query, at),
        None => query_cursor(cursor, at),
    }
}

/// The query specification of a cursor's query, if the cursor may be updatable. Then there is no UNION, and neither ORDER
/// BY nor SCROLL nor INSENSITIVE is written.
fn plain_specification(cursor: &Cursor) -> Option<&QuerySpecification>
    ensures { (own : AnyName) → option_map (λ q. select_of own q.now) result
        ≡ spec.plain_specification cursor.now (query_of own cursor.now.query) }
{
    if cursor.insensitive || cursor.scroll || cursor.order_by.is_some() {
        None
    } else {
        sole_specification(&cursor.query)
    }
}

/// The query specification that is the whole query expression, if there is no UNION.
#[cycle(sole)]
fn sole_specification(query: &Query) -> Option<&QuerySpecification>
    ensures { (own : AnyName) → option_map (λ q. select_of own q.now) result
        ≡ rules.only_specification (query_of own query.now) }
{
    if query.rest.is_empty() {
        sole_term(&query.first)
    } else {
        None
    }
}

#[cycle(sole)]
fn sole_term(term: &QueryTerm) -> Option<&QuerySpecification>
    ensures { (own : AnyName) → option_map (λ q. select_of own q.now) result
        ≡ rules.only_specification (query_term_of own term.now) }
{
    match term {
        QueryTerm::Specification(query) => Some(query),
        QueryTerm::Bracketed(query) => sole_specification(query.get()),
    }
}

/// A cursor of a query specification alone: it is updatable if the specification is.
fn specification_cursor<T: ChangeableTables>(
    cursor: &Cursor,
    query: &QuerySpecification,
    at: &Surroundings<'_, T>,
) -> CursorResult
    ensures binds { Binds cursor_seen (spec.cursor_of (names_at T.named T.changes at.now)
        (surroundings T.named at.now) cursor.now (query_of at.now.environment.now.user cursor.now.query)
        (Some (select_of at.now.environment.now.user query.now))) result }
    ensures under { IfOk result
        (λ cursor. IsOver (T.changes at.now.tables.now) cursor.table cursor.body) }
    ensures columns { IfOk result (λ cursor. BodyHasColumns cursor.body) }
{
    let found = bind_select(&query.table, query.quantifier, &query.list, at, at_first())?;
    select_cursor(cursor, query, at, found)
}

fn select_cursor<T: ChangeableTables>(
    cursor: &Cursor,
    query: &QuerySpecification,
    at: &Surroundings<'_, T>,
    found: Found<BoundSpecification>,
) -> CursorResult
    ensures binds { Binds cursor_seen (spec.select_cursor (names_at T.named T.changes at.now)
        (surroundings T.named at.now) cursor.now (select_of at.now.environment.now.user query.now)
        (found_of select_seen found)) result }
    ensures under { IfOk result
        (λ cursor. IsOver (T.changes at.now.tables.now) cursor.table cursor.body) }
    ensures columns { IfOk result (λ cursor. BodyHasColumns cursor.body) }
{
    let behind = found.brought.next.first();
    let part = take_permitted(found)?;
    match bind_updatable(query, &part, at, behind) {
        Ok(over) => cursor_over(at.environment.alloc, cursor, part, over),
        Err(stop) => {
            drop(part);
            Err(stop)
        }
    }
}

fn cursor_over(
    alloc: Global,
    cursor: &Cursor,
    query: BoundSpecification,
    over: Found<Option<Over>>,
) -> CursorResult
    ensures binds { Binds cursor_seen (Ok (spec.cursor_over cursor.now (select_seen query)
        (option_map updatable_seen over.part))) result }
    ensures body { IfOk result (λ cursor. IsOverPart over.part cursor.table cursor.body) }
    ensures columns { IfOk result (λ cursor. BodyHasColumns cursor.body) }
{
    let Found { part, brought } = over;
    drop(brought);
    match part {
        Some(over) => updatable_cursor(alloc, cursor, query, over),
        None => read_cursor(alloc, cursor, query),
    }
}

/// A cursor over rows of a base table.
fn updatable_cursor(
    alloc: Global,
    cursor: &Cursor,
    query: BoundSpecification,
    over: Over,
) -> CursorResult
    ensures binds { Binds cursor_seen
        (Ok (spec.updatable_cursor cursor.now (select_seen query) (updatable_seen over))) result }
    ensures body { IfOk result (λ cursor. IsOverPart (Some over) cursor.table cursor.body) }
    ensures columns { IfOk result (λ cursor. BodyHasColumns cursor.body) }
{
    let columns = Items::from_slice(alloc, query.columns.as_slice());
    drop(query);
    let (table, updatable) = over;
    match columns {
        Ok(columns) => Ok(BoundCursor {
            insensitive: cursor.insensitive,
            scroll: cursor.scroll,
            table: Some(table),
            columns,
            body: CursorBody::Updatable(updatable),
        }),
        Err(_) => {
            drop(updatable);
            Err(Stop::NoMemory)
        }
    }
}

/// A cursor of a query specification that is not updatable.
fn read_cursor(alloc: Global, cursor: &Cursor, query: BoundSpecification) -> CursorResult
    ensures binds { Binds cursor_seen
        (Ok (spec.cursor_over cursor.now (select_seen query) None)) result }
    ensures body { IfOk result (λ cursor. IsOverPart None cursor.table cursor.body) }
    ensures columns { IfOk result (λ cursor. BodyHasColumns cursor.body) }
{
    let query = of_term(alloc, BoundTerm::Specification(query))?;
    rows_cursor(alloc, cursor, query, Items::new(alloc))
}

/// A cursor of a query expression, which is not updatable.
fn query_cursor<T: ChangeableTables>(cursor: &Cursor, at: &Surroundings<'_, T>) -> CursorResult
    ensures binds { Binds cursor_seen (spec.cursor_of (names_at T.named T.changes at.now)
        (surroundings T.named at.now) cursor.now (query_of at.now.environment.now.user cursor.now.query)
        None) result }
    ensures body { IfOk result (λ cursor. IsOverPart None cursor.table cursor.body) }
    ensures columns { IfOk result (λ cursor. BodyHasColumns cursor.body) }
{
    let query = bind_query(&cursor.query, at, at_first());
    let sorted = sort_query(at.environment.alloc, query, &cursor.order_by)?;
    let (query, sorts) = take_permitted(sorted)?;
    rows_cursor(at.environment.alloc, cursor, query, sorts)
}

/// A query expression, and the columns by which its rows are sorted.
fn sort_query(
    alloc: Global,
    query: QueryResult,
    order: &Option<CommaList<SortSpecification>>,
) -> Result<Found<(BoundQuery, Items<SortColumn>)>, Stop>
    requires { IfOk query (λ found. HaveTheirColumns found.part) }
    ensures finds { (b : Binding NumberedQuery) (before : AnyCounts) → Finds query_seen b before query
        → Finds (both_of query_seen (map sort_seen)) (in_order b (listed_if_any order.now)) before result }
    ensures columns { IfOk result (λ found. HaveTheirColumns found.part.0) }
{
    let query = query?;
    let columns = query.part.columns.as_slice();
    let sorts = found_order(alloc, columns, order, query.brought.next);
    pair_parts(query, sorts)
}

fn found_order(
    alloc: Global,
    columns: &[ResultColumn],
    order: &Option<CommaList<SortSpecification>>,
    before: Counts,
) -> Result<Found<Items<SortColumn>>, Stop>
    ensures { Finds (map sort_seen)
        (outcome (order_bound (names_seen columns.now) (listed_if_any order.now))) before result }
{
    let sorts = order_by(alloc, columns, order)?;
    Ok(bring_nothing(alloc, sorts, before))
}

/// A cursor over the rows of a query, in the order of sort columns.
fn rows_cursor(
    alloc: Global,
    cursor: &Cursor,
    query: BoundQuery,
    sorts: Items<SortColumn>,
) -> CursorResult
    requires { HaveTheirColumns query }
    ensures binds { Binds cursor_seen
        (Ok (spec.sorted_cursor cursor.now (query_seen query) (map sort_seen sorts))) result }
    ensures body { IfOk result (λ cursor. IsOverPart None cursor.table cursor.body) }
    ensures columns { IfOk result (λ cursor. BodyHasColumns cursor.body) }
{
    match Items::from_slice(alloc, query.columns.as_slice()) {
        Ok(columns) => Ok(BoundCursor {
            insensitive: cursor.insensitive,
            scroll: cursor.scroll,
            table: None,
            columns,
            body: CursorBody::Rows(query, sorts),
        }),
        Err(_) => {
            drop(query);
            drop(sorts);
            Err(Stop::NoMemory)
        }
    }
}
