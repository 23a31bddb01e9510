//! The columns that get values (ISO/IEC 9075:1992, 13.8 to 13.10).

ghost use Rattle.std.specs.Prelude.{◌≡◌, ◌≤◌, ◌∷◌, IfOk, find, length, map, take};
ghost use Rattle.std.specs.List.{list_any};
ghost use Rattle.std.specs.Option.{option_map};
ghost use Rattle.sq_meaning.specs.Environment.{same_name};
ghost use Rattle.sq_meaning.specs.Spelled.{listed};
ghost use Rattle.sq_binding.specs.Change as spec;
ghost use Rattle.sq_binder.specs.Binds.{Binds};
ghost use Rattle.sq_binder.specs.Found.{Finds};
ghost use Rattle.sq_binder.specs.Changeable.{changed_of};
ghost use Rattle.sq_binder.specs.Receiver.{column_made, columns_made, named_once, once, receiver_at, receiver_seen};

use crate::{
    ChangedTable, Counts, Found, ItemColumn, Stop, begin_list, bring_nothing, item_at_leaf,
    with_next,
};
use sq_items::Items;
use sq_lex::Name;
use sq_meaning::BindingFault;
use sq_tree::CommaList;
use sq_value::Kind;
use std::alloc::{AllocError, Global};

/// A column that gets values: its name, the column of the base table that it is, and the kind of its values.
#[derive(Clone, Copy)]
pub struct Receiver {
    pub name: Name,
    pub column: usize,
    pub kind: Kind,
}

/// All columns of a table that may be changed.
pub fn receivers_of(alloc: Global, table: &ChangedTable<'_>) -> Result<Items<Receiver>, AllocError>
    ensures { IfOk result
        (λ receivers. map receiver_seen receivers ≡ spec.receivers_of (changed_of table.now)) }
{
    let item = item_at_leaf(alloc, table)?;
    let receivers = receivers_over(alloc, item.columns.as_slice());
    drop(item);
    receivers
}

/// The columns of an item over the base table.
fn receivers_over(alloc: Global, columns: &[ItemColumn]) -> Result<Items<Receiver>, AllocError>
    ensures { IfOk result (λ receivers. map receiver_seen receivers ≡ map receiver_at columns.now) }
{
    let mut receivers = Items::new(alloc);
    for column in columns {
        receivers.push(receiver_at(column))?;
    }
    Ok(receivers)
}

fn receiver_at(column: &ItemColumn) -> Receiver
    ensures { receiver_seen result ≡ receiver_at column.now }
{
    Receiver {
        name: column.name,
        column: column.position,
        kind: column.kind,
    }
}

/// The columns of an insert statement: the listed ones, or all.
pub fn insert_receivers(
    alloc: Global,
    table: &ChangedTable<'_>,
    columns: &Option<CommaList<Name>>,
    before: Counts,
) -> Result<Found<Items<Receiver>>, Stop>
    ensures { Finds (map receiver_seen) (spec.receivers_bound (changed_of table.now) columns.now)
        before result }
{
    let all = receivers_of(alloc, table)?;
    match columns {
        Some(list) => {
            let listed = listed_receivers(alloc, list, all.as_slice(), before);
            drop(all);
            listed
        }
        None => Ok(bring_nothing(alloc, all, before)),
    }
}

/// The columns of these names, each named once.
fn listed_receivers(
    alloc: Global,
    list: &CommaList<Name>,
    all: &[Receiver],
    before: Counts,
) -> Result<Found<Items<Receiver>>, Stop>
    ensures { Finds (map receiver_seen)
        (columns_made (map receiver_seen all.now) (λ name. name) spec.itself (listed list.now))
        before result }
{
    let first = receiver_by_name(alloc, list.first, false, all, before);
    let mut receivers = begin_list(alloc, first)?;
    for (number, name) in list.rest.as_slice().iter().enumerate() {
        let again = is_named(list, number, *name);
        let next = receiver_by_name(alloc, *name, again, all, receivers.brought.next);
        match with_next(receivers, next) {
            Ok(more) => receivers = more,
            Err(stop) => return Err(stop),
        }
    }
    Ok(receivers)
}

/// Whether the first name, or one of the `number` after it, is this name.
fn is_named(list: &CommaList<Name>, number: usize, name: Name) -> bool
    requires { number ≤ length list.now.rest }
    ensures { result ≡ list_any (λ other. same_name other name)
        (list.now.first ∷ take number list.now.rest) }
{
    list.first == name || is_among(&list.rest.as_slice()[..number], name)
}

fn is_among(names: &[Name], name: Name) -> bool
    ensures { result ≡ list_any (λ other. same_name other name) names.now }
{
    names.iter().any(|other| *other == name)
}

/// The column of a name, as a part by itself.
fn receiver_by_name(
    alloc: Global,
    name: Name,
    again: bool,
    all: &[Receiver],
    before: Counts,
) -> Result<Found<Receiver>, Stop>
    ensures { Finds receiver_seen
        (column_made (map receiver_seen all.now) name again (spec.itself name)) before result }
{
    let receiver = receiver_named(name, again, all)?;
    Ok(bring_nothing(alloc, receiver, before))
}

/// The column of a name that is not among the names before it.
pub fn receiver_named(name: Name, again: bool, all: &[Receiver]) -> Result<Receiver, Stop>
    ensures { Binds receiver_seen (named_once (map receiver_seen all.now) name again) result }
{
    match receiver_with(name, all) {
        Some(receiver) => check_once(receiver, again),
        None => Err(Stop::about(BindingFault::UnknownColumn, name)),
    }
}

/// The first of these columns that has the name.
fn receiver_with(name: Name, all: &[Receiver]) -> Option<Receiver>
    ensures { option_map receiver_seen result
        ≡ find (λ r. same_name r.name name) (map receiver_seen all.now) }
{
    for receiver in all {
        if receiver.name == name {
            return Some(*receiver);
        }
    }
    None
}

/// A column that is not named again.
fn check_once(receiver: Receiver, again: bool) -> Result<Receiver, Stop>
    ensures { Binds receiver_seen (once again (receiver_seen receiver)) result }
{
    if again {
        Err(Stop::about(BindingFault::ColumnTwice, receiver.name))
    } else {
        Ok(receiver)
    }
}
