//! FROM clauses (ISO/IEC 9075:1992, 5.4, 6.3 and 7.4).

ghost use Rattle.std.specs.Prelude.{◌≡◌, IfOk, is_some, map};
ghost use Rattle.std.specs.List.{list_any};
ghost use Rattle.std.specs.Option.{option_map};
ghost use Rattle.sq_meaning.specs.Spelled.{listed, reference_of};
ghost use Rattle.sq_meaning.specs.Binding.{has_item_twice};
ghost use Rattle.sq_bound.specs.Noted.{may_fail};
ghost use Rattle.sq_binding.specs.Found.{each};
ghost use Rattle.sq_binding.specs.From as spec;
ghost use Rattle.sq_binder.specs.Found.{Finds, query_findings_of};
ghost use Rattle.sq_binder.specs.From.{clashes, clause_of, columns_over, exposed, from_split, item_over, named_item_of, reference_under};
ghost use Rattle.sq_binder.specs.Scope.{column_of};
ghost use Rattle.sq_binder.specs.Surroundings.{named_table_of};

use crate::column::ItemColumn;
use crate::findings::{Findings, MOST_ITEMS};
use crate::found::{Brought, Counts, Found, begin_list, with_next};
use crate::query_findings::QueryFindings;
use crate::scope::FromItem;
use crate::stop::Stop;
use crate::surroundings::{NamedTable, Surroundings, Tables};
use sq_bound::{BoundFrom, Column, TablePlace};
use sq_items::Items;
use sq_lex::Name;
use sq_meaning::BindingFault;
use sq_tree::{CommaList, TableReference};
use std::alloc::{AllocError, Global};

/// A FROM clause: its tables, and its items for column references.
#[derive(Drop)]
pub struct FromClause {
    pub tables: BoundFrom,
    pub items: Items<FromItem>,
}

pub type FromResult = Result<Found<FromClause>, Stop>;

/// The items of a FROM clause, each exposed by a name of its own.
pub fn from_clause<T: Tables>(
    list: &CommaList<TableReference>,
    at: &Surroundings<'_, T>,
    before: Counts,
) -> FromResult
    ensures { Finds clause_of (from_split (T.named at.now.tables.now)
        (map (reference_of at.now.environment.now.user) (listed list.now))) before result }
{
    if list.rest.len() >= MOST_ITEMS {
        return Err(Stop::broken(BindingFault::LimitExceeded));
    }
    let Found { part, brought } = items(list, at, before)?;
    if let Some(name) = exposed_twice(part.as_slice()) {
        drop(part);
        drop(brought);
        return Err(Stop::about(BindingFault::AmbiguousName, name));
    }
    match tables(at.environment.alloc, part.as_slice()) {
        Ok(tables) => Ok(Found {
            part: FromClause {
                tables: BoundFrom { tables },
                items: part,
            },
            brought,
        }),
        Err(_) => {
            drop(part);
            drop(brought);
            Err(Stop::NoMemory)
        }
    }
}

/// The places of the tables of the items.
fn tables(alloc: Global, items: &[FromItem]) -> Result<Items<TablePlace>, AllocError>
    ensures { IfOk result (λ tables. tables ≡ map (λ item. item.place) items.now) }
{
    let mut tables = Items::new(alloc);
    for item in items {
        tables.push(item.place)?;
    }
    Ok(tables)
}

/// The first name by which two of the items are exposed, if there is one.
fn exposed_twice(items: &[FromItem]) -> Option<Name>
    ensures { is_some result ≡ has_item_twice (map exposed items.now) }
{
    match items {
        [] => None,
        [item, others @ ..] => {
            if is_exposed(item, others) {
                Some(item.correlation.unwrap_or(item.name))
            } else {
                exposed_twice(others)
            }
        }
    }
}

/// Whether one of the others is exposed by the name of the item.
fn is_exposed(item: &FromItem, others: &[FromItem]) -> bool
    ensures { result ≡ list_any (λ other. clashes (exposed item.now) (exposed other)) others.now }
{
    others.iter().any(|other| clash(item, other))
}

/// Whether both items are exposed by one name.
fn clash(item: &FromItem, other: &FromItem) -> bool
    ensures { result ≡ clashes (exposed item.now) (exposed other.now) }
{
    match (item.correlation, other.correlation) {
        (Some(name), Some(other)) => name == other,
        (None, None) => item.user == other.user && item.name == other.name,
        (Some(_), None) | (None, Some(_)) => false,
    }
}

/// The items of a FROM clause.
fn items<T: Tables>(
    list: &CommaList<TableReference>,
    at: &Surroundings<'_, T>,
    before: Counts,
) -> Result<Found<Items<FromItem>>, Stop>
    ensures { Finds (map named_item_of) (each (spec.item_bound (T.named at.now.tables.now))
        (map (reference_of at.now.environment.now.user) (listed list.now))) before result }
{
    let first = item(&list.first, at, before);
    let mut items = begin_list(at.environment.alloc, first)?;
    for reference in list.rest.as_slice() {
        let next = item(reference, at, items.brought.next);
        match with_next(items, next) {
            Ok(more) => items = more,
            Err(stop) => return Err(stop),
        }
    }
    Ok(items)
}

/// An item of a FROM clause.
fn item<T: Tables>(
    reference: &TableReference,
    at: &Surroundings<'_, T>,
    before: Counts,
) -> Result<Found<FromItem>, Stop>
    ensures { Finds named_item_of (spec.item_bound (T.named at.now.tables.now)
        (reference_of at.now.environment.now.user reference.now)) before result }
{
    let user = reference.table.schema.unwrap_or(at.environment.user);
    match at.tables.table(user, reference.table.table) {
        Some(table) => item_over(at.environment.alloc, user, reference, &table, before),
        None => Err(Stop::about(BindingFault::UnknownTable, reference.table.table)),
    }
}

/// An item over a table of this user.
fn item_over(
    alloc: Global,
    user: Name,
    reference: &TableReference,
    table: &NamedTable<'_>,
    before: Counts,
) -> Result<Found<FromItem>, Stop>
    ensures { Finds named_item_of (item_over (reference_under user reference.now) (named_table_of table.now))
        before result }
{
    let columns = columns_over(alloc, table.columns)?;
    Ok(Found {
        part: FromItem {
            place: table.place,
            user,
            name: reference.table.table,
            correlation: correlation_of(reference),
            columns,
        },
        brought: Brought {
            calls: Items::new(alloc),
            calls_can_fail: false,
            findings: table_findings(table),
            next: before,
        },
    })
}

/// The correlation name of a table reference.
pub fn correlation_of(reference: &TableReference) -> Option<Name>
    ensures { result ≡ option_map (λ c. c.name) reference.now.correlation }
{
    match reference.correlation {
        Some(correlation) => Some(correlation.name),
        None => None,
    }
}

/// The findings in an item over a table.
fn table_findings(table: &NamedTable<'_>) -> QueryFindings
    ensures { query_findings_of result ≡ spec.table_findings (named_table_of table.now) }
{
    QueryFindings {
        values: Findings {
            can_fail: may_fail(table.place),
            ..Findings::NONE
        },
        has_subquery: false,
        lacks_privilege: !table.may_select,
        lacks_grant_option: !table.may_grant,
    }
}

/// Whether reading the rows of a table may answer a status: of a view it may.
fn may_fail(place: TablePlace) -> bool
    ensures { result ≡ may_fail place }
{
    matches!(place, TablePlace::View(_))
}

/// The columns of an item over a table with these columns.
pub fn columns_over(alloc: Global, columns: &[Column]) -> Result<Items<ItemColumn>, AllocError>
    ensures { IfOk result (λ items. map column_of items ≡ columns_over columns.now) }
{
    let mut items = Items::new(alloc);
    for (position, column) in columns.iter().enumerate() {
        items.push(ItemColumn {
            name: column.name,
            position,
            kind: column.kind,
        })?;
    }
    Ok(items)
}
