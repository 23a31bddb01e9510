//! A table as slots with indexes, and what undoes its changes.

ghost use Rattle.std.specs.Prelude.{◌≡◌, ◌<◌, ◌≤◌, ◌+◌, ◌-◌, ◌++◌, ◌^◌, [], ℕ, false, true, drop, is_some, length, slice_index_or, slice_set, take, vec_capacity, vec_len, IfOk, IfSome, MatchOption, None, Some, OnErr, OnOk};
ghost use Rattle.std.specs.List.{list_all};
ghost use Rattle.sq_store.specs.Content.{changed, changed_by, inserted, removed, replaced};
ghost use Rattle.sq_store.specs.Found.{numbered_in, with_one_of};
ghost use Rattle.sq_store.specs.Keys.{are_distinct, has_distinct_keys, have_keys, with_key};
ghost use Rattle.sq_heap.specs.Alone.{all_alone, slots_have};
ghost use Rattle.sq_heap.specs.Entered.{change_holds, changes_hold};
ghost use Rattle.sq_heap.specs.Index.{in_all, keys_of, slot_holds, slots_hold, undo_holds};
ghost use Rattle.sq_heap.specs.Room.{HasSlots, KeepsRoom, KeepsSlots};
ghost use Rattle.sq_heap.specs.Slots.{slot_at, table_of};
ghost use Rattle.sq_heap.specs.Table.{IsApplied, IsLeft, IsStart, MayApply};
ghost use Rattle.sq_heap.specs.Undo.{GoesBack, back, fits};

use crate::index::Index;
use crate::indexes::{empty_indexes, enter_changes, index_of, index_on};
use crate::keys::{are_alone, first_with, has_row, is_in_slots};
use crate::lookup::all_with;
use crate::slots::Slots;
use crate::undo::Undo;
use sq_items::Items;
use sq_store::{ApplyFault, Change};
use sq_value::{Key, Row};
use std::alloc::{AllocError, Global};

/// A table as slots with an index for each key, and behind them one for each lookup, and what undoes its changes since the
/// last commit, the latest change last.
///
/// Every row that is there, and every one that undoing brings back, has its entries in the indexes.
#[derive(Drop)]
pub(crate) struct HeapTable {
    slots: Slots,
    undo: Vec<Undo>,
    indexes: Vec<Index>,
    ghost undoable: { fits (length slots.list.items) undo.items ≡ true },
    ghost entered: { slots_hold (in_all indexes.items) 0 slots.list.items ≡ true },
    ghost undo_entered: { undo_holds (in_all indexes.items) undo.items ≡ true },
}

impl HeapTable {
    /// A table with these keys and lookups, and without rows.
    pub(crate) fn new(
        alloc: Global,
        keys: &[Items<usize>],
        lookups: &[Items<usize>],
    ) -> Result<HeapTable, AllocError>
        ensures slots { IfOk result (λ table. table.slots.list.items ≡ []) }
        ensures undo { IfOk result (λ table. table.undo.items ≡ []) }
        ensures keys { IfOk result (λ table. keys_of table.indexes.items ≡ keys.now ++ lookups.now) }
    {
        Ok(HeapTable {
            indexes: empty_indexes(alloc, keys, lookups)?,
            slots: Slots::new(alloc),
            undo: Vec::new(alloc),
        })
    }

    /// The slots.
    pub(crate) fn slots(&self) -> &Slots
        ensures { result.now ≡ self.now.slots }
    {
        &self.slots
    }

    /// Adds a row that has its entries, in a new slot.
    #[tactic(auto, using(crate::proofs::Rows::table_push, crate::proofs::Back::goes_back_new, crate::proofs::Back::fits_new))]
    fn push(&mut self, row: Row)
        requires slots { HasSlots self.old.slots 1 }
        requires undo { vec_len self.old.undo < vec_capacity self.old.undo }
        requires entered { in_all self.old.indexes.items row (length self.old.slots.list.items) ≡ true }
        ensures table { table_of self.new.slots.list.items
            ≡ inserted (table_of self.old.slots.list.items) row }
        ensures indexes { self.new.indexes ≡ self.old.indexes }
        ensures back { GoesBack self.old.slots.list.items self.old.undo.items self.new.slots.list.items
            self.new.undo.items }
        ensures slot_room { KeepsSlots self.old.slots self.new.slots }
        ensures undo_room { KeepsRoom self.old.undo self.new.undo }
    {
        let at = self.slots.len();
        self.slots.push(row);
        self.undo.push_reserved(Undo { at, old: None });
    }

    /// Puts a row that has its entries into a slot that has one, or empties it.
    #[tactic(auto, using(crate::proofs::Back::goes_back_set, crate::proofs::Back::fits_set))]
    fn set(&mut self, at: usize, slot: Option<Row>)
        requires there { is_some (slot_at self.old.slots.list.items at) ≡ true }
        requires undo { vec_len self.old.undo < vec_capacity self.old.undo }
        requires entered { slot_holds (in_all self.old.indexes.items) at slot ≡ true }
        ensures slots { self.new.slots.list.items ≡ slice_set self.old.slots.list.items at slot }
        ensures indexes { self.new.indexes ≡ self.old.indexes }
        ensures back { GoesBack self.old.slots.list.items self.old.undo.items self.new.slots.list.items
            self.new.undo.items }
        ensures slot_room { KeepsSlots self.old.slots self.new.slots }
        ensures undo_room { KeepsRoom self.old.undo self.new.undo }
    {
        let old = self.slots.put(at, slot);
        self.undo.push_reserved(Undo { at, old });
    }

    /// Puts another row that has its entries under a number, if it has one.
    #[tactic(auto, using(crate::proofs::Rows::table_replace, crate::proofs::Rows::table_replace_missing, crate::proofs::Back::goes_back_none))]
    fn replace(&mut self, number: u64, row: Row)
        requires undo { vec_len self.old.undo < vec_capacity self.old.undo }
        requires entered { in_all self.old.indexes.items row (number - 1) ≡ true }
        ensures table { table_of self.new.slots.list.items
            ≡ replaced (table_of self.old.slots.list.items) number row }
        ensures indexes { self.new.indexes ≡ self.old.indexes }
        ensures back { GoesBack self.old.slots.list.items self.old.undo.items self.new.slots.list.items
            self.new.undo.items }
        ensures slot_room { KeepsSlots self.old.slots self.new.slots }
        ensures undo_room { KeepsRoom self.old.undo self.new.undo }
    {
        match self.slots.place_of(number) {
            Some(at) => self.set(at, Some(row)),
            None => {}
        }
    }

    /// Takes out the row under a number, if it has one.
    #[tactic(auto, using(crate::proofs::Rows::table_remove, crate::proofs::Rows::table_remove_missing, crate::proofs::Back::goes_back_none))]
    fn remove(&mut self, number: u64)
        requires { vec_len self.old.undo < vec_capacity self.old.undo }
        ensures table { table_of self.new.slots.list.items
            ≡ removed (table_of self.old.slots.list.items) number }
        ensures indexes { self.new.indexes ≡ self.old.indexes }
        ensures back { GoesBack self.old.slots.list.items self.old.undo.items self.new.slots.list.items
            self.new.undo.items }
        ensures slot_room { KeepsSlots self.old.slots self.new.slots }
        ensures undo_room { KeepsRoom self.old.undo self.new.undo }
    {
        match self.slots.place_of(number) {
            Some(at) => self.set(at, None),
            None => {}
        }
    }

    /// Makes a change whose row has its entries. It can be undone.
    fn make(&mut self, change: Change)
        requires slots { HasSlots self.old.slots 1 }
        requires undo { vec_len self.old.undo < vec_capacity self.old.undo }
        requires entered { change_holds (in_all self.old.indexes.items)
            (length self.old.slots.list.items) change ≡ true }
        ensures table { table_of self.new.slots.list.items
            ≡ changed (table_of self.old.slots.list.items) change }
        ensures indexes { self.new.indexes ≡ self.old.indexes }
        ensures back { GoesBack self.old.slots.list.items self.old.undo.items self.new.slots.list.items
            self.new.undo.items }
        ensures slot_room { KeepsSlots self.old.slots self.new.slots }
        ensures undo_room { KeepsRoom self.old.undo self.new.undo }
    {
        match change {
            Change::Insert(row) => self.push(row),
            Change::Replace(number, row) => self.replace(number, row),
            Change::Remove(number) => self.remove(number),
        }
    }

    /// Makes all changes, whose rows have their entries. They can be undone.
    #[tactic(auto, using(crate::proofs::Back::goes_back_none))]
    fn make_all(&mut self, changes: Vec<Change>)
        requires slots { HasSlots self.old.slots (vec_len changes) }
        requires undo { vec_len self.old.undo + vec_len changes ≤ vec_capacity self.old.undo }
        requires entered { changes_hold (in_all self.old.indexes.items)
            (length self.old.slots.list.items) changes.items ≡ true }
        ensures table { table_of self.new.slots.list.items
            ≡ changed_by (table_of self.old.slots.list.items) changes.items }
        ensures indexes { self.new.indexes ≡ self.old.indexes }
        ensures back { GoesBack self.old.slots.list.items self.old.undo.items self.new.slots.list.items
            self.new.undo.items }
    {
        for change in changes {
            self.make(change);
        }
    }

    /// Makes all changes, or none if two rows would then have the same key; the first `keys` indexes are those of keys. Answers
    /// how many changes there were before.
    ///
    /// All memory is taken before the first change. An entry for a row that isn't put in does no harm.
    #[tactic(auto, using(crate::proofs::Back::goes_back_before, crate::proofs::Back::goes_back_committed, crate::proofs::Back::goes_back_take, sq_store::proofs::Sound::have_keys_changed_by))]
    pub(crate) fn apply(
        &mut self,
        alloc: Global,
        keys: usize,
        changes: Vec<Change>,
    ) -> Result<usize, ApplyFault>
        requires keys { keys ≤ length self.old.indexes.items }
        requires changes { MayApply (take keys (keys_of self.old.indexes.items))
            (table_of self.old.slots.list.items) changes.items }
        ensures ok { OnOk result (IsApplied (take keys (keys_of self.old.indexes.items))
            (table_of self.old.slots.list.items) changes.items (table_of self.new.slots.list.items)) }
        ensures from { IfOk result (IsStart self.old.slots.list.items self.old.undo.items
            self.new.slots.list.items self.new.undo.items) }
        ensures duplicate { result ≡ Err ApplyFault.Duplicate
            → has_distinct_keys (take keys (keys_of self.old.indexes.items))
            (changed_by (table_of self.old.slots.list.items) changes.items) ≡ false }
        ensures err { OnErr result (IsLeft self.old.slots.list.items self.old.undo.items
            self.new.slots.list.items self.new.undo.items) }
        ensures committed { back self.new.slots.list.items self.new.undo.items
            ≡ back self.old.slots.list.items self.old.undo.items }
        ensures keys { keys_of self.new.indexes.items ≡ keys_of self.old.indexes.items }
    {
        if let Err(refused) = self.prepare(alloc, changes.as_slice()) {
            drop(changes);
            return Err(refused.into());
        }
        let from = self.undo.len();
        self.make_all(changes);
        if self.has_distinct_keys(keys, from) {
            Ok(from)
        } else {
            self.undo_to(from);
            Err(ApplyFault::Duplicate)
        }
    }

    /// Makes room for changes, and adds the entries of the rows that they put in.
    fn prepare(&mut self, alloc: Global, changes: &[Change]) -> Result<(), AllocError>
        ensures slots { self.new.slots.list.items ≡ self.old.slots.list.items }
        ensures undo { self.new.undo.items ≡ self.old.undo.items }
        ensures keys { keys_of self.new.indexes.items ≡ keys_of self.old.indexes.items }
        ensures slot_room { OnOk result (HasSlots self.new.slots (length changes.now)) }
        ensures undo_room { OnOk result
            (vec_len self.new.undo + length changes.now ≤ vec_capacity self.new.undo) }
        ensures entered { OnOk result
            (changes_hold (in_all self.new.indexes.items) (length self.new.slots.list.items) changes.now
            ≡ true) }
    {
        self.slots.reserve(changes.len())?;
        self.undo.reserve(changes.len())?;
        self.renew_all(alloc, changes.len())?;
        self.enter(changes)
    }

    /// Adds the entries of the rows that changes put in.
    fn enter(&mut self, changes: &[Change]) -> Result<(), AllocError>
        requires { length self.old.slots.list.items + length changes.now < 2 ^ 64 }
        ensures slots { self.new.slots ≡ self.old.slots }
        ensures undo { self.new.undo ≡ self.old.undo }
        ensures keys { keys_of self.new.indexes.items ≡ keys_of self.old.indexes.items }
        ensures entered { OnOk result
            (changes_hold (in_all self.new.indexes.items) (length self.old.slots.list.items) changes.now
            ≡ true) }
    {
        enter_changes(&mut self.indexes, &self.slots, changes)
    }

    /// Rebuilds each index that `count` more entries would make slow.
    #[tactic(auto, using(crate::proofs::Entries::same_length))]
    fn renew_all(&mut self, alloc: Global, count: usize) -> Result<(), AllocError>
        requires { count < 2 ^ 63 }
        ensures slots { self.new.slots ≡ self.old.slots }
        ensures undo { self.new.undo ≡ self.old.undo }
        ensures keys { keys_of self.new.indexes.items ≡ keys_of self.old.indexes.items }
    {
        for key in 0..self.indexes.len() {
            if self.indexes[key].is_full(count) {
                self.renew(alloc, key, count)?;
            }
        }
        Ok(())
    }

    /// Makes an index anew, with the entries of the rows that are there or that undoing brings back, and room for more.
    fn renew(&mut self, alloc: Global, key: usize, count: usize) -> Result<(), AllocError>
        requires key { key < length self.old.indexes.items }
        requires count { count < 2 ^ 63 }
        ensures slots { self.new.slots ≡ self.old.slots }
        ensures undo { self.new.undo ≡ self.old.undo }
        ensures keys { keys_of self.new.indexes.items ≡ keys_of self.old.indexes.items }
    {
        let columns = Items::from_slice(alloc, self.indexes[key].columns())?;
        let slots = self.slots.as_slice();
        let index = index_of(alloc, columns, slots, self.undo.as_slice(), count)?;
        self.indexes[key] = index;
        Ok(())
    }

    /// Whether no two rows have the same key. The first `keys` indexes are those of keys, and no two rows had the same key
    /// before the changes from the place `from` on.
    fn has_distinct_keys(&self, keys: usize, from: usize) -> bool
        requires keys { keys ≤ length self.now.indexes.items }
        requires place { from ≤ length self.now.undo.items }
        requires columns { have_keys (take keys (keys_of self.now.indexes.items))
            (table_of self.now.slots.list.items).rows ≡ true }
        requires before { has_distinct_keys (take keys (keys_of self.now.indexes.items))
            (table_of (back self.now.slots.list.items (drop from self.now.undo.items))) ≡ true }
        ensures { result ≡ has_distinct_keys (take keys (keys_of self.now.indexes.items))
            (table_of self.now.slots.list.items) }
    {
        self.are_alone(keys, from)
    }

    /// Whether no row that was changed from a place on shares one of the keys with another row.
    #[tactic(auto, using(crate::proofs::Columns::slots_of_keys, crate::proofs::Keyed::each_holds))]
    fn are_alone(&self, keys: usize, from: usize) -> bool
        requires keys { keys ≤ length self.now.indexes.items }
        requires place { from ≤ length self.now.undo.items }
        requires columns { have_keys (take keys (keys_of self.now.indexes.items))
            (table_of self.now.slots.list.items).rows ≡ true }
        ensures { result ≡ list_all
            (λ columns. all_alone columns self.now.slots.list.items (drop from self.now.undo.items))
            (take keys (keys_of self.now.indexes.items)) }
    {
        are_alone(
            self.slots.as_slice(),
            &self.indexes[..keys],
            &self.undo[from..],
        )
    }

    /// The row with a key, and its number.
    #[tactic(auto, using(crate::proofs::Keyed::columns_at_index, crate::proofs::Entries::length_keys))]
    pub(crate) fn first_with(&self, key: usize, values: &Key) -> Option<(u64, &Row)>
        requires key { key < length (keys_of self.now.indexes.items) }
        requires columns { slots_have
            (slice_index_or (keys_of self.now.indexes.items) key []) self.now.slots.list.items ≡ true }
        requires distinct { are_distinct (slice_index_or (keys_of self.now.indexes.items) key [])
            (table_of self.now.slots.list.items).rows ≡ true }
        ensures { let found = with_key (table_of self.now.slots.list.items)
            (slice_index_or (keys_of self.now.indexes.items) key []) values.now in
            MatchOption result (found ≡ None) (λ r. found ≡ Some (record { number = r.0; row = r.1.now })) }
    {
        first_with(self.slots.as_slice(), &self.indexes[key], values)
    }

    /// Whether a row has these values in these columns.
    pub(crate) fn has_row(&self, columns: &[usize], values: &Key) -> bool
        requires { slots_have columns.now self.now.slots.list.items ≡ true }
        ensures { result ≡ is_some (with_key (table_of self.now.slots.list.items) columns.now values.now) }
    {
        let slots = self.slots.as_slice();
        match index_on(self.indexes.as_slice(), columns) {
            Some(place) => has_row(slots, &self.indexes[place], values),
            None => is_in_slots(slots, columns, values),
        }
    }

    /// The rows with one of several lists of values in these columns; `None` if there is no index on them.
    pub(crate) fn find_rows(
        &self,
        alloc: Global,
        columns: &[usize],
        several: &[Row],
    ) -> Result<Option<Vec<(u64, &Row)>>, AllocError>
        ensures { IfOk result (λ found. IfSome found (λ rows. numbered_in rows
            ≡ with_one_of (table_of self.now.slots.list.items) columns.now several.now)) }
    {
        let slots = self.slots.as_slice();
        match index_on(self.indexes.as_slice(), columns) {
            Some(place) => Ok(Some(all_with(alloc, slots, &self.indexes[place], several)?)),
            None => Ok(None),
        }
    }

    /// Undoes the last change.
    #[tactic(auto, using(crate::proofs::Back::fits_last, crate::proofs::Back::fits_pop, crate::proofs::Back::back_pop, crate::proofs::Back::take_pop))]
    fn undo_last(&mut self)
        requires { 0 < length self.old.undo.items }
        ensures len { length self.new.undo.items + 1 ≡ length self.old.undo.items }
        ensures back { (from : ℕ) → from < length self.old.undo.items
            → back self.new.slots.list.items (drop from self.new.undo.items)
            ≡ back self.old.slots.list.items (drop from self.old.undo.items) }
        ensures undo { (from : ℕ) → from < length self.old.undo.items
            → take from self.new.undo.items ≡ take from self.old.undo.items }
        ensures indexes { self.new.indexes ≡ self.old.indexes }
    {
        let Undo { at, old } = self.undo.pop().unwrap();
        match old {
            Some(row) => drop(self.slots.put(at, Some(row))),
            None => self.slots.pop(),
        }
    }

    /// Undoes all changes but the first ones.
    pub(crate) fn undo_to(&mut self, from: usize)
        ensures slots { self.new.slots.list.items
            ≡ back self.old.slots.list.items (drop from self.old.undo.items) }
        ensures undo { self.new.undo.items ≡ take from self.old.undo.items }
        ensures indexes { self.new.indexes ≡ self.old.indexes }
    {
        while self.undo.len() > from {
            self.undo_last();
        }
    }

    /// Forgets how to undo the changes.
    pub(crate) fn commit(&mut self)
        ensures slots { self.new.slots.list.items ≡ self.old.slots.list.items }
        ensures undo { self.new.undo.items ≡ [] }
        ensures indexes { self.new.indexes ≡ self.old.indexes }
    {
        self.undo.clear();
    }
}
