//! Rows found by their keys, and whether they share them; whether a row has some values.

ghost use Rattle.std.specs.Prelude.{◌≡◌, find, false, true, is_some, Some, None, MatchOption};
ghost use Rattle.std.specs.Cmp.Lexicographic.{pointwise};
ghost use Rattle.std.specs.List.{list_all, list_any};
ghost use Rattle.std.specs.Option.{option_copied};
ghost use Rattle.sq_value.specs.Comparison.{is_same};
ghost use Rattle.sq_value.specs.Key.{in_columns};
ghost use Rattle.sq_store.specs.Keys.{are_distinct, has_columns, has_key};
ghost use Rattle.sq_heap.specs.Alone.{all_alone, is_alone, keeps_key, slot_alone, slots_have};
ghost use Rattle.sq_heap.specs.Index.{bucket_of, enters, is_in, keys_of, named, names_key, names_other, slots_hold};
ghost use Rattle.sq_heap.specs.Slots.{rows_from, slot_at};

use crate::hash::{hash_of_key, hash_of_row, have_same_key};
use crate::index::{Entry, Index};
use crate::slots::row_in;
use crate::undo::Undo;
use sq_store::are_same;
use sq_value::{Key, Row, Value};

/// The row with these values in the columns of an index, and its number.
#[tactic(auto, using(crate::proofs::Keyed::none_with, crate::proofs::Keyed::found_with))]
pub(crate) fn first_with<'a>(
    slots: &'a [Option<Row>],
    index: &Index,
    values: &Key,
) -> Option<(u64, &'a Row)>
    requires columns { slots_have index.now.columns slots.now ≡ true }
    requires entered { slots_hold (is_in index.now) 0 slots.now ≡ true }
    requires distinct { are_distinct index.now.columns (rows_from 1 slots.now) ≡ true }
    ensures { MatchOption result
        (find (has_key index.now.columns values.now) (rows_from 1 slots.now) ≡ None)
        (λ r. find (has_key index.now.columns values.now) (rows_from 1 slots.now)
        ≡ Some (record { number = r.0; row = r.1.now })) }
{
    let (at, row) = among(slots, index, values, hash_of_key(values))?;
    Some((at as u64 + 1, row))
}

/// Whether a row has these values in the columns of an index.
#[tactic(auto, using(crate::proofs::Keyed::none_with, crate::proofs::Keyed::some_with))]
pub(crate) fn has_row(slots: &[Option<Row>], index: &Index, values: &Key) -> bool
    requires columns { slots_have index.now.columns slots.now ≡ true }
    requires entered { slots_hold (is_in index.now) 0 slots.now ≡ true }
    ensures { result ≡ is_some (find (has_key index.now.columns values.now) (rows_from 1 slots.now)) }
{
    among(slots, index, values, hash_of_key(values)).is_some()
}

/// Whether a row has these values in these columns, where there is no index on them.
pub(crate) fn is_in_slots(slots: &[Option<Row>], columns: &[usize], values: &Key) -> bool
    requires { slots_have columns.now slots.now ≡ true }
    ensures { result ≡ is_some (find (has_key columns.now values.now) (rows_from 1 slots.now)) }
{
    for slot in slots {
        if let Some(held) = slot {
            if values.is_of(held.as_slice(), columns) {
                return true;
            }
        }
    }
    false
}

/// The row with these values that one of the entries under a hash names, and its slot.
#[tactic(auto, using(crate::proofs::Keyed::columns_of_named, crate::proofs::Keyed::slot_of_named))]
fn among<'a>(
    slots: &'a [Option<Row>],
    index: &Index,
    values: &Key,
    hash: u64,
) -> Option<(usize, &'a Row)>
    requires { slots_have index.now.columns slots.now ≡ true }
    ensures { MatchOption result
        (list_any (names_key index.now.columns values.now slots.now hash) (bucket_of index.now hash) ≡ false)
        (λ r. (slot_at slots.now r.0 ≡ Some r.1.now)
        × (pointwise is_same values.now (in_columns r.1.now index.now.columns) ≡ true)) }
{
    let columns = index.columns();
    let mut link = index.last(hash);
    while let Some(entry) = index.entry(link) {
        if let Some(row) = row_of(slots, entry, hash) {
            if values.is_of(row.as_slice(), columns) {
                return Some((entry.at, row));
            }
        }
        link = entry.next;
    }
    None
}

/// The row in the slot that an entry under a hash names.
pub(crate) fn row_of<'a>(slots: &'a [Option<Row>], entry: Entry, hash: u64) -> Option<&'a Row>
    ensures { option_copied result ≡ named slots.now hash entry }
{
    if entry.hash == hash {
        row_in(slots, entry.at)
    } else {
        None
    }
}

/// Whether no slot but one has a row with the key of this row.
#[tactic(auto, using(crate::proofs::Keyed::alone_in))]
fn is_alone(slots: &[Option<Row>], index: &Index, row: &[Value], at: usize) -> bool
    requires row { has_columns index.now.columns row.now ≡ true }
    requires slots { slots_have index.now.columns slots.now ≡ true }
    requires entered { slots_hold (is_in index.now) 0 slots.now ≡ true }
    ensures { result ≡ is_alone index.now.columns row.now at 0 slots.now }
{
    let hash = hash_of_row(row, index.columns());
    !has_other(slots, index, row, at, hash)
}

/// Whether one of the entries under a hash names another slot whose row has the key of this row.
#[tactic(auto, using(crate::proofs::Keyed::columns_of_named))]
fn has_other(slots: &[Option<Row>], index: &Index, row: &[Value], at: usize, hash: u64) -> bool
    requires row { has_columns index.now.columns row.now ≡ true }
    requires slots { slots_have index.now.columns slots.now ≡ true }
    ensures { result ≡ list_any
        (names_other index.now.columns (in_columns row.now index.now.columns) at slots.now hash)
        (bucket_of index.now hash) }
{
    let columns = index.columns();
    let mut link = index.last(hash);
    while let Some(entry) = index.entry(link) {
        if entry.at != at {
            if let Some(other) = row_of(slots, entry, hash) {
                if are_same(row, other.as_slice(), columns) {
                    return true;
                }
            }
        }
        link = entry.next;
    }
    false
}

/// Whether a changed row has the key of the row that was in its slot before.
fn keeps_key(old: &Option<Row>, row: &[Value], columns: &[usize]) -> bool
    ensures { result ≡ keeps_key columns.now old.now row.now }
{
    match old {
        Some(old) => have_same_key(row, old.as_slice(), columns),
        None => false,
    }
}

/// Whether the row in a changed slot shares the key of an index with no other row. If it has the key from before, it needn't
/// be looked for: no two rows had the same key then.
#[tactic(auto, using(crate::proofs::Columns::columns_of_slot))]
fn slot_alone(slots: &[Option<Row>], index: &Index, change: &Undo) -> bool
    requires columns { slots_have index.now.columns slots.now ≡ true }
    requires entered { slots_hold (is_in index.now) 0 slots.now ≡ true }
    ensures { result ≡ slot_alone index.now.columns slots.now change.now.at change.now.old
        (slot_at slots.now change.now.at) }
{
    match row_in(slots, change.at) {
        Some(row) => {
            keeps_key(&change.old, row.as_slice(), index.columns())
                || is_alone(slots, index, row.as_slice(), change.at)
        }
        None => true,
    }
}

/// Whether no changed row shares the key of an index with another row.
fn all_alone(slots: &[Option<Row>], index: &Index, changes: &[Undo]) -> bool
    requires columns { slots_have index.now.columns slots.now ≡ true }
    requires entered { slots_hold (is_in index.now) 0 slots.now ≡ true }
    ensures { result ≡ all_alone index.now.columns slots.now changes.now }
{
    for change in changes {
        if !slot_alone(slots, index, change) {
            return false;
        }
    }
    true
}

/// Whether no changed row shares the key of one of these indexes with another row.
pub(crate) fn are_alone(slots: &[Option<Row>], indexes: &[Index], changes: &[Undo]) -> bool
    requires columns { list_all (λ columns. slots_have columns slots.now) (keys_of indexes.now) ≡ true }
    requires entered { list_all (enters slots.now) indexes.now ≡ true }
    ensures { result ≡ list_all (λ columns. all_alone columns slots.now changes.now) (keys_of indexes.now) }
{
    for index in indexes {
        if !all_alone(slots, index, changes) {
            return false;
        }
    }
    true
}
