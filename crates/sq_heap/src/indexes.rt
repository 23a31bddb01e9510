//! The indexes of a table, and how they get their entries.

ghost use Rattle.std.specs.Prelude.{◌≡◌, ◌<◌, ◌+◌, ◌++◌, ◌^◌, [], ℕ, List, length, slice_index_or, true, IfOk, IfSome, OnOk};
ghost use Rattle.std.specs.Option.{option_copied};
ghost use Rattle.sq_value.specs.declared.value.Value.{Value as SqlValue};
ghost use Rattle.sq_heap.specs.Entered.{change_holds, changes_hold, next_slot};
ghost use Rattle.sq_heap.specs.Index.{in_all, is_in, keys_of, slot_holds, slots_hold, undo_holds};

use crate::index::Index;
use crate::slots::Slots;
use crate::undo::Undo;
use sq_items::Items;
use sq_store::Change;
use sq_value::{Row, Value};
use std::alloc::{AllocError, Global};

/// An index without entries for each key, and behind them one for each lookup.
pub(crate) fn empty_indexes(
    alloc: Global,
    keys: &[Items<usize>],
    lookups: &[Items<usize>],
) -> Result<Vec<Index>, AllocError>
    ensures { IfOk result (λ indexes. keys_of indexes.items ≡ keys.now ++ lookups.now) }
{
    let mut indexes = Vec::new(alloc);
    push_indexes(alloc, &mut indexes, keys)?;
    push_indexes(alloc, &mut indexes, lookups)?;
    Ok(indexes)
}

/// Adds an index without entries for each list of columns.
fn push_indexes(
    alloc: Global,
    indexes: &mut Vec<Index>,
    lists: &[Items<usize>],
) -> Result<(), AllocError>
    ensures { OnOk result (keys_of indexes.new.items ≡ keys_of indexes.old.items ++ lists.now) }
{
    for columns in lists {
        let columns = Items::from_slice(alloc, columns.as_slice())?;
        indexes.push(Index::new(alloc, columns, 0)?)?;
    }
    Ok(())
}

/// Which of the indexes has these columns.
pub(crate) fn index_on(indexes: &[Index], columns: &[usize]) -> Option<usize>
    ensures { IfSome result
        (λ place. (place < length indexes.now)
        × (slice_index_or (keys_of indexes.now) place [] ≡ columns.now)) }
{
    for (place, index) in indexes.iter().enumerate() {
        if index.columns() == columns {
            return Some(place);
        }
    }
    None
}

/// An index with the entries of the rows in slots and of the rows that undoing brings back. It has room for twice as many,
/// and for a count of others.
pub(crate) fn index_of(
    alloc: Global,
    columns: Items<usize>,
    slots: &[Option<Row>],
    undo: &[Undo],
    others: usize,
) -> Result<Index, AllocError>
    requires { others < 2 ^ 63 }
    ensures columns { IfOk result (λ index. index.columns ≡ columns) }
    ensures slots { IfOk result (λ index. slots_hold (is_in index) 0 slots.now ≡ true) }
    ensures undo { IfOk result (λ index. undo_holds (is_in index) undo.now ≡ true) }
{
    let mut index = Index::new(alloc, columns, (slots.len() + undo.len()) * 2 + others)?;
    enter_slots(&mut index, slots)?;
    enter_undo(&mut index, undo)?;
    Ok(index)
}

/// Adds an entry for the row in a slot, if there is one.
#[tactic(auto, using(crate::proofs::Entries::in_keeps))]
fn enter_slot(index: &mut Index, slot: &Option<Row>, at: usize) -> Result<(), AllocError>
    ensures columns { index.new.columns ≡ index.old.columns }
    ensures keeps { (row : List SqlValue) (place : ℕ) → is_in index.old row place ≡ true
        → is_in index.new row place ≡ true }
    ensures entered { OnOk result (slot_holds (is_in index.new) at slot.now ≡ true) }
{
    match slot {
        Some(row) => index.enter(None, row.as_slice(), at),
        None => Ok(()),
    }
}

/// Adds entries for the rows in slots.
fn enter_slots(index: &mut Index, slots: &[Option<Row>]) -> Result<(), AllocError>
    ensures columns { index.new.columns ≡ index.old.columns }
    ensures entered { OnOk result (slots_hold (is_in index.new) 0 slots.now ≡ true) }
{
    for at in 0..slots.len() {
        enter_slot(index, &slots[at], at)?;
    }
    Ok(())
}

/// Adds entries for the rows that undoing brings back.
fn enter_undo(index: &mut Index, undo: &[Undo]) -> Result<(), AllocError>
    ensures columns { index.new.columns ≡ index.old.columns }
    ensures keeps { (row : List SqlValue) (place : ℕ) → is_in index.old row place ≡ true
        → is_in index.new row place ≡ true }
    ensures entered { OnOk result (undo_holds (is_in index.new) undo.now ≡ true) }
{
    for change in undo {
        enter_slot(index, &change.old, change.at)?;
    }
    Ok(())
}

/// Adds entries for a row to each index, also where another row was in its slot before.
fn enter_all(
    indexes: &mut Vec<Index>,
    before: Option<&Row>,
    row: &[Value],
    at: usize,
) -> Result<(), AllocError>
    requires { slot_holds (in_all indexes.old.items) at (option_copied before) ≡ true }
    ensures keys { keys_of indexes.new.items ≡ keys_of indexes.old.items }
    ensures keeps { (r : List SqlValue) (place : ℕ) → in_all indexes.old.items r place ≡ true
        → in_all indexes.new.items r place ≡ true }
    ensures entered { OnOk result (in_all indexes.new.items row.now at ≡ true) }
{
    for place in 0..indexes.len() {
        indexes[place].enter(before, row, at)?;
    }
    Ok(())
}

/// Adds the entries of the row that a change puts in, where a new row gets a slot. Says which slot the next new row gets.
fn enter_change(
    indexes: &mut Vec<Index>,
    slots: &Slots,
    change: &Change,
    next: usize,
) -> Result<usize, AllocError>
    requires next { next + 1 < 2 ^ 64 }
    requires entered { slots_hold (in_all indexes.old.items) 0 slots.now.list.items ≡ true }
    ensures keys { keys_of indexes.new.items ≡ keys_of indexes.old.items }
    ensures keeps { (r : List SqlValue) (place : ℕ) → in_all indexes.old.items r place ≡ true
        → in_all indexes.new.items r place ≡ true }
    ensures entered { OnOk result (change_holds (in_all indexes.new.items) next change.now ≡ true) }
    ensures next { IfOk result (λ n. n ≡ next_slot next change.now) }
{
    match change {
        Change::Insert(row) => {
            enter_all(indexes, None, row.as_slice(), next)?;
            Ok(next + 1)
        }
        Change::Replace(number, row) => {
            // No row has the number 0, and an entry for a row that isn't put in does no harm.
            let at = number.saturating_sub(1) as usize;
            enter_all(indexes, slots.get(at), row.as_slice(), at)?;
            Ok(next)
        }
        Change::Remove(_) => Ok(next),
    }
}

/// Adds the entries of the rows that changes of these slots put in.
pub(crate) fn enter_changes(
    indexes: &mut Vec<Index>,
    slots: &Slots,
    changes: &[Change],
) -> Result<(), AllocError>
    requires room { length slots.now.list.items + length changes.now < 2 ^ 64 }
    requires entered { slots_hold (in_all indexes.old.items) 0 slots.now.list.items ≡ true }
    ensures keys { keys_of indexes.new.items ≡ keys_of indexes.old.items }
    ensures keeps { (r : List SqlValue) (place : ℕ) → in_all indexes.old.items r place ≡ true
        → in_all indexes.new.items r place ≡ true }
    ensures entered { OnOk result
        (changes_hold (in_all indexes.new.items) (length slots.now.list.items) changes.now ≡ true) }
{
    let mut next = slots.len();
    for change in changes {
        next = enter_change(indexes, slots, change, next)?;
    }
    Ok(())
}
