//! A query specification over one base table whose WHERE clause names a row by a key. The row is found first, and WHERE is evaluated on it
//! alone. So its subqueries may read the table, too.

ghost use Rattle.std.specs.Prelude.{◌≡◌, ◌≤◌, ◌+◌, ◌∷◌, Bool, List, [], false, map, None, Ok, Some, IfErr, IfOk, IfSome, IsSome};
ghost use Rattle.sq_value.specs.declared.domain.Kind.{Kind};
ghost use Rattle.sq_value.specs.declared.value.Value.{Value as AnyValue};
ghost use Rattle.sq_store.specs.Content.{table_at};
ghost use Rattle.sq_meaning.specs.Query as meaning;
ghost use Rattle.sq_meaning.specs.Status.{Outcome, and_then, kept};
ghost use Rattle.sq_meaning.specs.Tables.{rows_in};
ghost use Rattle.sq_meaning.specs.Target.{clause_has_subquery, has_subquery};
ghost use Rattle.sq_meaning.specs.WellFormed.{IsRowOf};
ghost use Rattle.sq_bound.specs.Condition.{clause_of, cond_of, select_of};
ghost use Rattle.sq_bound.specs.Expression.{PlacedExpr};
ghost use Rattle.sq_bound.specs.WellFormed.{IsSelect, TableKinds};
ghost use Rattle.sq_bound.specs.declared.condition.TablePlace.{TablePlace};
ghost use Rattle.sq_bound.specs.declared.condition.BoundSpecification.{out-BoundSpecification};
ghost use Rattle.sq_condition.specs.Specification.{HavingIsPlain, is_met, is_shown};
ghost use Rattle.sq_expression.specs.Fault.{HasRows, Meets, MeetsAs};
ghost use Rattle.sq_expression.specs.Group.{group_seen, groups_in};
ghost use Rattle.sq_expression.specs.Lines.{lines_in};
ghost use Rattle.sq_query.specs.Keyed.{IsKeyedSelect};
ghost use Rattle.sq_query.specs.MayRead.{MayRead};
ghost use Rattle.sq_query.specs.Needed.{FindsCond, clause_tables, inside_tables};
ghost use Rattle.sq_query.specs.Inner.{HasKeys};
ghost use Rattle.sq_query.specs.OnRow.{StandsOnRow};
ghost use Rattle.sq_query.specs.Row.{truth_on_row};
ghost use Rattle.sq_query.specs.Specification.{HasItsRows, IsReadable, IsStored};
ghost use Rattle.sq_query.specs.SingleRow.{HasPlainHaving, IsSingleRow, line_if, lines_left, lines_of_row, listed_by};

use crate::key::KnownKey;
use crate::named_keys::key_of_condition;
use crate::needed::Needed;
use crate::row::truth_with_tables;
use crate::specification::over_base;
use crate::target::is_true;
use sq_bound::{BoundCond, BoundExpr, BoundSpecification, Grouping, Names};
use sq_condition::{Memo, truth};
use sq_expression::{
    Context, Fault, Group, Lines, add_group_if, group_lines, row_of_line, shown_groups,
};
use sq_store::{Meter, Store};
use sq_value::Row;
use std::alloc::{AllocError, Global};

/// The only base table of a query specification, its WHERE clause, and the key by which that names a row.
#[derive(Drop)]
pub(crate) struct SingleRow<'q> {
    pub base: usize,
    pub condition: &'q BoundCond,
    pub key: KnownKey,
}

/// The row that a query specification is over, if its WHERE clause names one by a key. A HAVING clause with a subquery stays with
/// `tables_of_items`: its tables are read for all groups together.
pub(crate) fn single_row<'q, S: Store>(
    query: &'q BoundSpecification,
    store: &S,
    call: &Context<'_>,
) -> Result<Option<SingleRow<'q>>, Fault>
    requires there { IsStored query.now (S.content_now store.now) }
    ensures single { IfOk result (λ found. IfSome found (IsSingleRow query.now (S.content_now store.now)
        (S.key_columns store.now) call.now.parameters.now call.now.user)) }
    ensures found { IsKeyedSelect query.now (S.key_columns store.now) call.now.parameters.now call.now.user
        → IfOk result IsSome }
    ensures memory { (columns : TableKinds) (parameters : List Kind)
        → IsSelect columns parameters [] query.now
        → IsRowOf parameters call.now.parameters.now → IfErr result (λ fault. fault ≡ Fault.NoMemory) }
{
    let Some((base, condition)) = over_base(query) else {
        return Ok(None);
    };
    if has_query_in_having(call.alloc, query)? {
        return Ok(None);
    }
    match key_of_condition(base, condition, store, call) {
        Ok(Some(key)) => Ok(Some(SingleRow {
            base,
            condition,
            key,
        })),
        Ok(None) => Ok(None),
        Err(fault) => Err(fault),
    }
}

/// Whether the HAVING clause of a query specification has a subquery.
pub(crate) fn has_query_in_having(
    alloc: Global,
    query: &BoundSpecification,
) -> Result<bool, AllocError>
    ensures plain { IfOk result
        (λ has. has ≡ false → HasPlainHaving (out-BoundSpecification query.now).grouping) }
    ensures none { inside_tables (select_of query.now) ≡ [] → IfOk result (λ has. has ≡ false) }
{
    match &query.grouping {
        Some(grouping) => is_clause_with_subqueries(alloc, &grouping.having),
        None => Ok(false),
    }
}

/// Whether a clause reads a table.
fn is_clause_with_subqueries(
    alloc: Global,
    condition: &Option<BoundCond>,
) -> Result<bool, AllocError>
    ensures plain { IfOk result (λ has. has ≡ false → (functions : List PlacedExpr)
        → clause_has_subquery (clause_of functions condition.now) ≡ false) }
    ensures none { (functions : List PlacedExpr) → clause_tables (clause_of functions condition.now) ≡ []
        → IfOk result (λ has. has ≡ false) }
{
    let mut inside = Needed::new(alloc);
    inside.add_of_optional(condition)?;
    Ok(!inside.is_empty())
}

/// The rows of a query specification outside every query that is over a row that its WHERE clause names. On each other row of the table one
/// of the first tests is false, and decides before a later test can end with a status or reads a table.
pub(crate) fn rows_of_single<'a, N: Names, S: Store>(
    names: &N,
    query: &BoundSpecification,
    single: &SingleRow<'a>,
    store: &'a S,
    call: &Context<'a>,
    meter: &mut Meter,
) -> Result<Vec<Row>, Fault>
    requires readable { IsReadable (N.base_tables names.now) (N.column_kinds names.now)
        (S.content_now store.now) (S.key_columns store.now) query.now }
    requires single { IsSingleRow query.now (S.content_now store.now) (S.key_columns store.now)
        call.now.parameters.now call.now.user single.now }
    ensures rows { HasItsRows result (N.base_tables names.now) (N.view_queries names.now)
        (N.column_kinds names.now) (S.content_now store.now) call.now.user call.now.parameters.now query.now }
    ensures read { inside_tables (select_of query.now) ≡ [] → meter.new ≤ meter.old + 1 }
{
    let kept = row_of_single(names, query, single, store, call, meter)?;
    rows_of_kept(query, kept, call)
}

/// The row that is named, if WHERE is true of it.
fn row_of_single<'a, N: Names, S: Store>(
    names: &N,
    query: &BoundSpecification,
    single: &SingleRow<'_>,
    store: &'a S,
    call: &Context<'_>,
    meter: &mut Meter,
) -> Result<Option<&'a Row>, Fault>
    requires readable { IsReadable (N.base_tables names.now) (N.column_kinds names.now)
        (S.content_now store.now) (S.key_columns store.now) query.now }
    requires single { IsSingleRow query.now (S.content_now store.now) (S.key_columns store.now)
        call.now.parameters.now call.now.user single.now }
    ensures lines { (parameters : List Kind) (tables : TablePlace → Outcome (List (List AnyValue)))
        → MayRead (N.base_tables names.now) (N.view_queries names.now) (N.column_kinds names.now)
        (S.content_now store.now) call.now.user
        call.now.parameters.now parameters tables
        → IsSelect (N.column_kinds names.now) parameters [] query.now
        → MeetsAs lines_of_row result (lines_left tables single.now.condition.now call.now.parameters.now
        call.now.user (rows_in (table_at (S.content_now store.now) single.now.base))) }
    ensures read { inside_tables (select_of query.now) ≡ [] → meter.new ≤ meter.old + 1 }
{
    match store.find_key(single.base, single.key.key, &single.key.values, meter) {
        Some(found) => row_if_true(names, single.condition, found.1, store, call, meter),
        None => Ok(None),
    }
}

/// A row, if a condition is true of it.
fn row_if_true<'a, N: Names, S: Store>(
    names: &N,
    condition: &BoundCond,
    row: &'a Row,
    store: &S,
    call: &Context<'_>,
    meter: &mut Meter,
) -> Result<Option<&'a Row>, Fault>
    requires finds { FindsCond (N.base_tables names.now) (N.column_kinds names.now) condition.now }
    requires keys { HasKeys (N.base_tables names.now) (S.content_now store.now) (S.key_columns store.now) }
    ensures line { (parameters : List Kind) (tables : TablePlace → Outcome (List (List AnyValue)))
        → MayRead (N.base_tables names.now) (N.view_queries names.now) (N.column_kinds names.now)
        (S.content_now store.now) call.now.user
        call.now.parameters.now parameters tables
        → StandsOnRow (N.column_kinds names.now) parameters row.now condition.now
        → MeetsAs lines_of_row result (and_then (meaning.is_true
        (truth_on_row tables call.now.parameters.now call.now.user row.now condition.now))
        (line_if row.now)) }
    ensures read { has_subquery (cond_of [] condition.now) ≡ false → meter.new ≡ meter.old }
{
    let truth = truth_with_tables(names, condition, row, true, store, call, meter);
    if is_true(truth)? {
        Ok(Some(row))
    } else {
        Ok(None)
    }
}

// ---- the rows

/// The rows of a query specification for the row that WHERE leaves.
fn rows_of_kept(
    query: &BoundSpecification,
    kept: Option<&Row>,
    call: &Context<'_>,
) -> Result<Vec<Row>, Fault>
    requires { HasPlainHaving (out-BoundSpecification query.now).grouping }
    ensures { HasRows result (listed_by (out-BoundSpecification query.now).distinct
        (out-BoundSpecification query.now).list (out-BoundSpecification query.now).grouping call.now
        (lines_of_row kept.entry)) }
{
    let list = query.list.as_slice();
    match &query.grouping {
        None => row_listed(list, kept, call),
        Some(grouping) => {
            let lines = as_lines(kept, call)?;
            rows_of_groups(query.distinct, list, grouping, &lines, call)
        }
    }
}

/// The row of a select list for a row. DISTINCT leaves a single row.
fn row_listed(list: &[BoundExpr], kept: Option<&Row>, call: &Context<'_>) -> Result<Vec<Row>, Fault>
    ensures { (distinct : Bool)
        → HasRows result (listed_by distinct list.now None call.now (lines_of_row kept.entry)) }
{
    let mut rows = Vec::new(call.alloc);
    if let Some(row) = kept {
        rows.push(row_of_line(list, &[row], None, call)?)?;
    }
    Ok(rows)
}

/// A row as the only line, if there is one.
fn as_lines<'a>(kept: Option<&'a Row>, call: &Context<'_>) -> Result<Lines<'a>, Fault>
    ensures { MeetsAs lines_in result (Ok (lines_of_row kept.entry)) }
{
    match kept {
        Some(row) => only_line(row, call),
        None => Ok(Lines::new(call.alloc, 1)),
    }
}

fn only_line<'a>(row: &'a Row, call: &Context<'_>) -> Result<Lines<'a>, Fault>
    ensures { MeetsAs lines_in result (Ok ((row.now ∷ []) ∷ [])) }
{
    let mut lines = Lines::new(call.alloc, 1);
    lines.push_if(Ok(true), &[row])?;
    Ok(lines)
}

/// The rows of a grouped query specification for given lines.
fn rows_of_groups(
    is_distinct: bool,
    list: &[BoundExpr],
    grouping: &Grouping,
    lines: &Lines<'_>,
    call: &Context<'_>,
) -> Result<Vec<Row>, Fault>
    requires { HavingIsPlain grouping.now }
    ensures { HasRows result
        (listed_by is_distinct list.now (Some grouping.now) call.now (lines_in lines.now)) }
{
    let columns = grouping.columns.as_slice();
    let calls = grouping.set_functions.as_slice();
    let groups = group_lines(columns, calls, lines, None, call)?;
    let kept = kept_groups(grouping, groups, call)?;
    shown_groups(is_distinct, list, kept.as_slice(), None, call)
}

/// The groups for which HAVING is true.
fn kept_groups<'a>(
    grouping: &Grouping,
    groups: Vec<Group<'a>>,
    call: &Context<'_>,
) -> Result<Vec<Group<'a>>, Fault>
    requires { HavingIsPlain grouping.now }
    ensures { MeetsAs groups_in result
        (kept (is_shown grouping.now None call.now) (map group_seen groups.entry.items)) }
{
    match &grouping.having {
        Some(having) => groups_of_which(having, groups, call),
        None => Ok(groups),
    }
}

/// The groups for which a condition without subqueries is true.
fn groups_of_which<'a>(
    having: &BoundCond,
    groups: Vec<Group<'a>>,
    call: &Context<'_>,
) -> Result<Vec<Group<'a>>, Fault>
    requires { (functions : List PlacedExpr) → has_subquery (cond_of functions having.now) ≡ false }
    ensures { MeetsAs groups_in result
        (kept (is_met having.now None call.now) (map group_seen groups.entry.items)) }
{
    let mut kept = Vec::new(call.alloc);
    for group in groups {
        let is_met = is_met(having, &group, call);
        add_group_if(is_met, group, &mut kept)?;
    }
    Ok(kept)
}

/// Whether a condition without subqueries is true of a group.
fn is_met(having: &BoundCond, group: &Group<'_>, call: &Context<'_>) -> Result<bool, Fault>
    requires { (functions : List PlacedExpr) → has_subquery (cond_of functions having.now) ≡ false }
    ensures { Meets result (is_met having.now None call.now (group_seen group.now)) }
{
    let mut memo = Memo::new(call.alloc);
    let is_met = is_true(truth(having, &group.frame(None), call, &mut memo));
    drop(memo);
    is_met
}
