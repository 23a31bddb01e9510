//! The columns that ORDER BY names (ISO/IEC 9075:1992, 13.1).

ghost use Rattle.std.specs.Prelude.{◌≡◌, map};
ghost use Rattle.std.specs.Result.{result_ok};
ghost use Rattle.sq_meaning.specs.SortKeys as meaning;
ghost use Rattle.sq_meaning.specs.Spelled.{listed, listed_if_any, spelled_whole};
ghost use Rattle.sq_binding.specs.Order as spec;
ghost use Rattle.sq_binder.specs.Binds.{Binds};
ghost use Rattle.sq_binder.specs.Order.{names_seen};
ghost use Rattle.sq_binding.specs.SeenQuery.{sort_seen};

use crate::in_turn::grow_list;
use crate::{Stop, is_whole, number_value};
use sq_bound::{ResultColumn, SortColumn};
use sq_items::Items;
use sq_lex::{Name, Number};
use sq_meaning::BindingFault;
use sq_tree::{CommaList, SortDirection, SortKey, SortSpecification};
use std::alloc::Global;

pub type OrderResult = Result<Items<SortColumn>, Stop>;

/// The columns that ORDER BY names among these, if it is written.
pub fn order_by(
    alloc: Global,
    columns: &[ResultColumn],
    order: &Option<CommaList<SortSpecification>>,
) -> OrderResult
    ensures { Binds (map sort_seen) (spec.order_bound (names_seen columns.now) (listed_if_any order.now))
        result }
{
    match order {
        None => Ok(Items::new(alloc)),
        Some(list) => listed_order(alloc, columns, list),
    }
}

fn listed_order(
    alloc: Global,
    columns: &[ResultColumn],
    list: &CommaList<SortSpecification>,
) -> OrderResult
    ensures { Binds (map sort_seen) (spec.order_bound (names_seen columns.now) (listed list.now)) result }
{
    let first = sort_column(columns, &list.first);
    let mut sorts = grow_list(Items::new(alloc), first)?;
    for sort in list.rest.as_slice() {
        let next = sort_column(columns, sort);
        match grow_list(sorts, next) {
            Ok(more) => sorts = more,
            Err(stop) => return Err(stop),
        }
    }
    Ok(sorts)
}

/// The column that a sort specification names.
fn sort_column(columns: &[ResultColumn], sort: &SortSpecification) -> Result<SortColumn, Stop>
    ensures { Binds sort_seen (spec.sort_column_bound (names_seen columns.now) sort.now) result }
{
    match key_column(columns, sort.key) {
        Some(column) => Ok(SortColumn {
            column,
            descending: goes_down(sort.direction),
        }),
        None => Err(Stop::broken(BindingFault::BadSortKey)),
    }
}

fn goes_down(direction: Option<SortDirection>) -> bool
    ensures { result ≡ meaning.goes_down direction }
{
    matches!(direction, Some(SortDirection::Desc))
}

/// The column that a sort key is, if it is one.
fn key_column(columns: &[ResultColumn], key: SortKey) -> Option<usize>
    ensures { result ≡ result_ok (meaning.key_column (names_seen columns.now) key) }
{
    match key {
        SortKey::Column(name) => column_named(columns, name),
        SortKey::Position(number) => column_numbered(columns, number),
    }
}

/// The only column of a name, if there is one.
fn column_named(columns: &[ResultColumn], wanted: Name) -> Option<usize>
    ensures { result ≡ result_ok (meaning.only_of (meaning.columns_named wanted (names_seen columns.now))) }
{
    let mut found = None;
    for (position, column) in columns.iter().enumerate() {
        if is_named(column, wanted) {
            if found.is_some() {
                return None;
            }
            found = Some(position);
        }
    }
    found
}

fn is_named(column: &ResultColumn, wanted: Name) -> bool
    ensures { result ≡ meaning.is_named wanted column.now.name }
{
    match column.name {
        Some(name) => name == wanted,
        None => false,
    }
}

/// The column of a position that is written without a point, counted from 1.
fn column_numbered(columns: &[ResultColumn], number: Number) -> Option<usize>
    ensures { result ≡ result_ok (meaning.column_numbered (names_seen columns.now) (spelled_whole number)) }
{
    let position = read_whole(number)?;
    if position < 1 || position > columns.len() as u64 {
        None
    } else {
        Some((position - 1) as usize)
    }
}

/// A whole number that is written without a point.
fn read_whole(number: Number) -> Option<u64>
    ensures { result ≡ spelled_whole number }
{
    if is_whole(number) {
        Some(number_value(number).unscaled().unsigned_abs())
    } else {
        None
    }
}
