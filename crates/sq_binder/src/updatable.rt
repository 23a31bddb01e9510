//! Updatable query specifications (ISO/IEC 9075:1992, 7.9; own rule).

ghost use Rattle.std.specs.Prelude.{◌≡◌, IfOk, IfSome, Some, map, slice_get};
ghost use Rattle.std.specs.List.{list_all};
ghost use Rattle.std.specs.Option.{option_and_then, option_map};
ghost use Rattle.sq_lex.specs.declared.name.Name.{Name as AnyName};
ghost use Rattle.sq_meaning.specs.Spelled.{expr_of, list_of, listed, reference_of, select_of};
ghost use Rattle.sq_binding.specs.Changeable as spec;
ghost use Rattle.sq_binding.specs.Found.{Binding};
ghost use Rattle.sq_binding.specs.NumberedCondition.{NumberedClause};
ghost use Rattle.sq_binding.specs.Seen.{numbered_of, select_seen};
ghost use Rattle.sq_binder.specs.Found.{Finds};
ghost use Rattle.sq_binder.specs.Surroundings.{surroundings};
ghost use Rattle.sq_binder.specs.declared.found.Counts.{Counts as AnyCounts};
ghost use Rattle.sq_binder.specs.Changeable.{changed_of, table_name, target_made};
ghost use Rattle.sq_binder.specs.Names.{IsUnder, beneath_of, names_at, under_table, user_names};
ghost use Rattle.sq_binder.specs.Updatable.{updatable_if, updatable_made};
ghost use Rattle.sq_binding.specs.SeenQuery.{table_named, target_seen, updatable_seen};

use crate::changeable::ChangedTable;
use crate::names::ChangeableTables;
use crate::target::{TargetResult, bind_target};
use crate::under::UnderTable;
use crate::{Counts, Found, Stop, Surroundings, bring_nothing, correlation_of, name_of};
use sq_bound::{BoundExpr, BoundSpecification, Target, UpdatableQuery, are_distinct};
use sq_items::Items;
use sq_lex::Name;
use sq_tree::{CommaList, Expr, QuerySpecification, SelectList, TableReference};
use std::alloc::{AllocError, Global};

/// The owner and the name of the table that an updatable query is over, and the query over the base table.
pub type Over = ((Name, Name), UpdatableQuery);

pub type UpdatableResult = Result<Found<Option<Over>>, Stop>;

/// The updatable query that a bound query specification is, if it is one.
pub fn bind_updatable<T: ChangeableTables>(
    query: &QuerySpecification,
    bound: &BoundSpecification,
    at: &Surroundings<'_, T>,
    before: Counts,
) -> UpdatableResult
    ensures finds { Finds (option_map updatable_seen)
        (spec.updatable_bound (names_at T.named T.changes at.now)
        (surroundings T.named at.now) (select_of at.now.environment.now.user query.now)
        (select_seen bound.now)) before result }
    ensures under { IfOk result (λ found. IfSome found.part
        (λ over. IsUnder (T.changes at.now.tables.now) (table_named over.0) over.1.target.leaf)) }
{
    match only_table(query, bound, at.tables, at.environment.user) {
        Some(table) => updatable_over(&table, query, bound, at, before),
        None => Ok(bring_nothing(at.environment.alloc, None, before)),
    }
}

/// The only table of a query whose rows are rows of tables, if the table may be changed.
fn only_table<'a, T: ChangeableTables>(
    query: &QuerySpecification,
    bound: &BoundSpecification,
    tables: &'a T,
    own: Name,
) -> Option<ChangedTable<'a>>
    ensures table { option_map changed_of result ≡ spec.only_table
        (user_names own (T.named tables.now) (T.changes tables.now)) (select_of own query.now)
        (select_seen bound.now) }
    ensures under { IfSome result
        (λ t. IsUnder (T.changes tables.now) (table_name t) t.under.leaf.now) }
{
    if !has_plain_rows(bound) {
        return None;
    }
    match only_one(&query.table.from) {
        Some(reference) => may_be_changed(reference, tables, own),
        None => None,
    }
}

/// The only table of a FROM clause.
fn only_one(from: &CommaList<TableReference>) -> Option<&TableReference>
    ensures { (own : AnyName) → option_map (λ r. reference_of own r.now) result
        ≡ spec.only_one (map (reference_of own) (listed from.now)) }
{
    if from.rest.is_empty() {
        Some(&from.first)
    } else {
        None
    }
}

/// Whether each row is a row of the tables: there are no DISTINCT and no groups.
fn has_plain_rows(bound: &BoundSpecification) -> bool
    ensures { result ≡ spec.has_plain_rows (select_seen bound.now) }
{
    match &bound.grouping {
        None => !bound.distinct,
        Some(_) => false,
    }
}

/// The table of a reference, if it may be changed.
fn may_be_changed<'a, T: ChangeableTables>(
    reference: &TableReference,
    tables: &'a T,
    own: Name,
) -> Option<ChangedTable<'a>>
    ensures table { option_map changed_of result ≡ spec.may_be_changed
        (user_names own (T.named tables.now) (T.changes tables.now)) (reference_of own reference.now) }
    ensures under { IfSome result
        (λ t. IsUnder (T.changes tables.now) (table_name t) t.under.leaf.now) }
{
    let user = reference.table.schema.unwrap_or(own);
    let name = reference.table.table;
    let table = tables.table(user, name)?;
    let under = tables.beneath(user, name)?;
    Some(ChangedTable {
        user,
        name,
        correlation: correlation_of(reference),
        table,
        under,
    })
}

/// The updatable query over a table: its condition is bound once more, on rows of the base table.
fn updatable_over<T: ChangeableTables>(
    table: &ChangedTable<'_>,
    query: &QuerySpecification,
    bound: &BoundSpecification,
    at: &Surroundings<'_, T>,
    before: Counts,
) -> UpdatableResult
    ensures finds { Finds (option_map updatable_seen) (spec.updatable_over (surroundings T.named at.now)
        (select_of at.now.environment.now.user query.now) (select_seen bound.now)
        (Some (changed_of table.now))) before result }
    ensures leaf { IfOk result
        (λ found. IfSome found.part (λ over. (table_named over.0 ≡ table_name table.now)
        × (over.1.target.leaf ≡ table.now.under.leaf.now))) }
{
    let alloc = at.environment.alloc;
    let columns = columns_shown(alloc, &query.list, bound.list.as_slice(), &table.under)?;
    let target = bind_target(query.table.where_clause.as_ref(), table, at, before);
    make_updatable(table, columns, target)
}

/// An updatable query shows columns of the base table, and has no subquery in its condition.
fn make_updatable(
    table: &ChangedTable<'_>,
    columns: Option<Items<usize>>,
    target: TargetResult,
) -> UpdatableResult
    requires { IfOk target (λ found. found.part.leaf ≡ table.now.under.leaf.now) }
    ensures finds { (b : Binding NumberedClause) (before : AnyCounts)
        → Finds target_seen (target_made (changed_of table.now) b) before target
        → Finds (option_map updatable_seen) (updatable_made (changed_of table.now) columns b) before result }
    ensures leaf { IfOk result
        (λ found. IfSome found.part (λ over. (table_named over.0 ≡ table_name table.now)
        × (over.1.target.leaf ≡ table.now.under.leaf.now))) }
{
    match target {
        Ok(target) => Ok(updatable_where(table, columns, target)),
        Err(stop) => {
            drop(columns);
            Err(stop)
        }
    }
}

fn updatable_where(
    table: &ChangedTable<'_>,
    columns: Option<Items<usize>>,
    target: Found<Target>,
) -> Found<Option<Over>>
    ensures part { option_map updatable_seen result.part ≡ updatable_if (table_name table.now) columns
        target.brought.findings.has_subquery (target_seen target.part) }
    ensures brought { result.brought ≡ target.brought }
    ensures leaf { IfSome result.part (λ over. (table_named over.0 ≡ table_name table.now)
        × (over.1.target.leaf ≡ target.part.leaf)) }
{
    let Found { part, brought } = target;
    match (columns, brought.findings.has_subquery) {
        (Some(columns), false) => Found {
            part: Some((
                (table.user, table.name),
                UpdatableQuery {
                    target: part,
                    columns,
                },
            )),
            brought,
        },
        (columns, _) => {
            drop(columns);
            drop(part);
            Found {
                part: None,
                brought,
            }
        }
    }
}

/// The columns of the base table that a select list shows, if it has only columns, each once.
fn columns_shown(
    alloc: Global,
    list: &SelectList,
    exprs: &[BoundExpr],
    under: &UnderTable<'_>,
) -> Result<Option<Items<usize>>, AllocError>
    ensures { IfOk result (λ columns. columns ≡ spec.columns_shown (under_table (beneath_of under.now))
        (list_of list.now) (map numbered_of exprs.now)) }
{
    if !is_of_references(list) {
        return Ok(None);
    }
    let columns = leaf_columns(alloc, exprs, under)?;
    Ok(if_distinct(columns))
}

/// Whether a select list is column references, with nothing around them.
fn is_of_references(list: &SelectList) -> bool
    ensures { result ≡ spec.is_of_references (list_of list.now) }
{
    match list {
        SelectList::Star => true,
        SelectList::Items(list) => {
            is_reference(&list.first) && are_references(list.rest.as_slice())
        }
    }
}

fn are_references(exprs: &[Expr]) -> bool
    ensures { result ≡ list_all (λ expr. spec.is_reference (expr_of expr)) exprs.now }
{
    exprs.iter().all(|expr| is_reference(expr))
}

fn is_reference(expr: &Expr) -> bool
    ensures { result ≡ spec.is_reference (expr_of expr.now) }
{
    name_of(expr).is_some()
}

/// The columns of the base table that expressions are, if each is one.
fn leaf_columns(
    alloc: Global,
    exprs: &[BoundExpr],
    under: &UnderTable<'_>,
) -> Result<Option<Items<usize>>, AllocError>
    ensures { IfOk result (λ columns. columns ≡ spec.leaf_columns (under_table (beneath_of under.now))
        (map numbered_of exprs.now)) }
{
    let mut columns = Items::new(alloc);
    for expr in exprs {
        match leaf_column(expr, under) {
            Some(column) => columns.push(column)?,
            None => return Ok(None),
        }
    }
    Ok(Some(columns))
}

/// The column of the base table that an expression is, if it is one.
#[tactic(auto, using(crate::proofs::Expressions::Images::images))]
fn leaf_column(expr: &BoundExpr, under: &UnderTable<'_>) -> Option<usize>
    ensures { result ≡ spec.leaf_column (under_table (beneath_of under.now)) (numbered_of expr.now) }
{
    match expr {
        BoundExpr::Column(place) => column_beneath(under, place.column),
        BoundExpr::Operations(first, rest) => {
            if rest.is_empty() {
                leaf_column(first.get(), under)
            } else {
                None
            }
        }
        BoundExpr::Literal(_) => None,
        BoundExpr::Parameter(_) => None,
        BoundExpr::User => None,
        BoundExpr::SetFunction(_) => None,
        BoundExpr::Signed(..) => None,
    }
}

/// The column of the base table that is at a position of a table.
fn column_beneath(under: &UnderTable<'_>, position: usize) -> Option<usize>
    ensures { result ≡ slice_get (under_table (beneath_of under.now)).columns position }
{
    match under.columns.get(position) {
        Some(column) => Some(column.leaf_column),
        None => None,
    }
}

/// The columns, if none of them occurs twice.
fn if_distinct(columns: Option<Items<usize>>) -> Option<Items<usize>>
    ensures { result ≡ option_and_then spec.if_distinct columns }
{
    let columns = columns?;
    if are_distinct(columns.as_slice()) {
        Some(columns)
    } else {
        drop(columns);
        None
    }
}
