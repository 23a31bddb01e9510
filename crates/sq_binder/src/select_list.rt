//! Select lists (ISO/IEC 9075:1992, 7.9).

ghost use Rattle.std.specs.Prelude.{◌≡◌, IfOk, Ok, [], map};
ghost use Rattle.sq_meaning.specs.Spelled.{expr_of, list_of, listed};
ghost use Rattle.sq_meaning.specs.Syntax.{all_columns as all_columns_tree, expressions};
ghost use Rattle.sq_binding.specs.Select as spec;
ghost use Rattle.sq_binding.specs.Select.{Surroundings as AnySurroundings};
ghost use Rattle.sq_binder.specs.Found.{Finds};
ghost use Rattle.sq_binder.specs.Scope.{column_of, item_of};
ghost use Rattle.sq_binder.specs.SelectList.{BeginsList, Shows, behind, list_seen, list_split, shown_of, split, with_shown};
ghost use Rattle.sq_binder.specs.Surroundings.{surroundings};

use crate::column::ItemColumn;
use crate::found::{Counts, Found, bring_nothing, push_item};
use crate::item_name::name_of;
use crate::scope::FromItem;
use crate::stop::Stop;
use crate::surroundings::{Surroundings, Tables, value};
use crate::typed::Typed;
use sq_bound::{BoundExpr, Place, ResultColumn};
use sq_items::Items;
use sq_meaning::BindingFault;
use sq_tree::{CommaList, Expr, SelectList};
use std::alloc::{AllocError, Global};

/// The greatest number of columns of a select list (own rule).
const MOST_COLUMNS: usize = 64;

/// A select list that is bound: its trees and its columns.
#[derive(Drop)]
pub struct SelectedList {
    pub exprs: Items<BoundExpr>,
    pub columns: Items<ResultColumn>,
}

pub type ListResult = Result<Found<SelectedList>, Stop>;

/// A select list. `*` means all columns of all items.
pub fn select_list<T: Tables>(
    list: &SelectList,
    items: &[FromItem],
    at: &Surroundings<'_, T>,
    before: Counts,
) -> ListResult
    ensures { Finds list_seen (list_split (surroundings T.named at.now) (map item_of items.now)
        (list_of list.now)) before result }
{
    match list {
        SelectList::Star => bind_star(at.environment.alloc, items, before),
        SelectList::Items(list) => listed_columns(list, at, before),
    }
}

fn bind_star(alloc: Global, items: &[FromItem], before: Counts) -> ListResult
    ensures { (a : AnySurroundings) → Finds list_seen (list_split a (map item_of items.now) all_columns_tree)
        before result }
{
    let list = all_columns(alloc, items)?;
    if list.columns.len() > MOST_COLUMNS {
        drop(list);
        return Err(Stop::broken(BindingFault::LimitExceeded));
    }
    Ok(bring_nothing(alloc, list, before))
}

/// Whether it is `*`.
pub fn is_star(list: &SelectList) -> bool
    ensures { result ≡ spec.is_star (list_of list.now) }
{
    matches!(list, SelectList::Star)
}

/// All columns of all items.
fn all_columns(alloc: Global, items: &[FromItem]) -> Result<SelectedList, AllocError>
    ensures { IfOk result (λ list. list_seen list ≡ split (spec.columns_of_items (map item_of items.now))) }
{
    let mut list = SelectedList {
        exprs: Items::new(alloc),
        columns: Items::new(alloc),
    };
    for (number, item) in items.iter().enumerate() {
        match with_item(list, number, item.columns.as_slice()) {
            Ok(more) => list = more,
            Err(error) => return Err(error),
        }
    }
    Ok(list)
}

/// The list with all columns of an item after it.
fn with_item(
    list: SelectedList,
    number: usize,
    columns: &[ItemColumn],
) -> Result<SelectedList, AllocError>
    ensures { IfOk result (λ more. list_seen more ≡ behind (list_seen list)
        (map (spec.column_of_item number) (map column_of columns.now))) }
{
    let mut list = list;
    for column in columns {
        match with_column(list, column_of_item(number, column)) {
            Ok(more) => list = more,
            Err(error) => return Err(error),
        }
    }
    Ok(list)
}

/// A column of an item, by its place.
#[tactic(auto, using(crate::proofs::Expressions::Images::images))]
fn column_of_item(number: usize, column: &ItemColumn) -> (BoundExpr, ResultColumn)
    ensures { shown_of result ≡ spec.column_of_item number (column_of column.now) }
{
    let place = Place {
        depth: 0,
        item: number,
        column: column.position,
    };
    let shown = ResultColumn {
        name: Some(column.name),
        kind: column.kind,
    };
    (BoundExpr::Column(place), shown)
}

/// The list with a further column.
fn with_column(
    list: SelectedList,
    shown: (BoundExpr, ResultColumn),
) -> Result<SelectedList, AllocError>
    ensures { IfOk result (λ more. list_seen more ≡ with_shown (list_seen list) (shown_of shown)) }
{
    let SelectedList { exprs, columns } = list;
    let (expr, column) = shown;
    let exprs = match push_item(exprs, expr) {
        Ok(exprs) => exprs,
        Err(error) => {
            drop(columns);
            return Err(error);
        }
    };
    match push_item(columns, column) {
        Ok(columns) => Ok(SelectedList { exprs, columns }),
        Err(error) => {
            drop(exprs);
            Err(error)
        }
    }
}

/// The expressions of a select list, and their columns.
fn listed_columns<T: Tables>(
    list: &CommaList<Expr>,
    at: &Surroundings<'_, T>,
    before: Counts,
) -> ListResult
    ensures { Finds list_seen (list_split (surroundings T.named at.now) []
        (expressions (map expr_of (listed list.now)))) before result }
{
    if list.rest.len() >= MOST_COLUMNS {
        return Err(Stop::broken(BindingFault::LimitExceeded));
    }
    let first = shown_column(&list.first, at, before);
    let mut shown = first_shown(at.environment.alloc, first)?;
    for expr in list.rest.as_slice() {
        let next = shown_column(expr, at, shown.brought.next);
        match next_shown(shown, next) {
            Ok(more) => shown = more,
            Err(stop) => return Err(stop),
        }
    }
    Ok(shown)
}

/// A value of a select list, and its column.
fn shown_column<T: Tables>(
    expr: &Expr,
    at: &Surroundings<'_, T>,
    before: Counts,
) -> Result<Found<(BoundExpr, ResultColumn)>, Stop>
    ensures { Finds shown_of
        (spec.shown_column (surroundings T.named at.now) (expr_of expr.now)) before result }
{
    let name = name_of(expr);
    let Found { part, brought } = value(expr, at, before)?;
    let Typed { expr, kind } = part;
    Ok(Found {
        part: (expr, ResultColumn { name, kind }),
        brought,
    })
}

/// The first column of a select list.
fn first_shown(alloc: Global, first: Result<Found<(BoundExpr, ResultColumn)>, Stop>) -> ListResult
    ensures { BeginsList first result }
{
    let Found { part, brought } = first?;
    let none = SelectedList {
        exprs: Items::new(alloc),
        columns: Items::new(alloc),
    };
    match with_column(none, part) {
        Ok(part) => Ok(Found { part, brought }),
        Err(_) => {
            drop(brought);
            Err(Stop::NoMemory)
        }
    }
}

/// The columns that are bound so far, and the next one.
fn next_shown(
    list: Found<SelectedList>,
    next: Result<Found<(BoundExpr, ResultColumn)>, Stop>,
) -> ListResult
    ensures { Shows list next result }
{
    match next {
        Ok(next) => shown_behind(list, next),
        Err(stop) => {
            drop(list);
            Err(stop)
        }
    }
}

fn shown_behind(list: Found<SelectedList>, next: Found<(BoundExpr, ResultColumn)>) -> ListResult
    ensures { Shows list (Ok next) result }
{
    match (
        with_column(list.part, next.part),
        list.brought.and(next.brought),
    ) {
        (Ok(part), Ok(brought)) => Ok(Found { part, brought }),
        (part, brought) => {
            drop(part);
            drop(brought);
            Err(Stop::NoMemory)
        }
    }
}
