//! The slots of a table, and how many rows each block of them has.

ghost use Rattle.std.specs.Prelude.{◌≡◌, ◌<◌, ◌≤◌, ◌+◌, ◌-◌, ◌*◌, ◌++◌, ◌∷◌, [], ℕ, None, Some, is_some, true, length, slice_index_or, slice_set, take, vec_capacity, vec_len, IsTrue, MatchOption, OnOk};
ghost use Rattle.std.specs.Option.{option_copied};
ghost use Rattle.sq_store.specs.Content.{first_from, row_at};
ghost use Rattle.sq_heap.specs.Blocks.{rows_in, rows_of};
ghost use Rattle.sq_heap.specs.Slots.{slot_at, table_of};
ghost use Rattle.sq_heap.specs.declared.slots.TheConstants.{BLOCK};

use sq_value::Row;
use std::alloc::{AllocError, Global};
use std::mem;

/// How many slots make a block.
pub(crate) const BLOCK: usize = 1_024;

/// A list of slots, in blocks. The row under a number stands in the slot one below the number, and the slot of a row that
/// is gone is empty.
///
/// Whoever looks for a row passes a block without rows in one step. So it looks at no more than the slots of two blocks, and
/// at the counts of the blocks between.
#[derive(Drop)]
pub(crate) struct Slots {
    list: Vec<Option<Row>>,
    /// How many rows each block has. There may be counts of blocks that have no slots yet.
    counts: Vec<usize>,
    ghost covered: { length list.items ≤ BLOCK * length counts.items },
    ghost counted: { (block : ℕ) → slice_index_or counts.items block 0 ≡ rows_in block 0 list.items },
}

impl Slots {
    ghost use Rattle.sq_heap.specs.Room.{HasSlots, KeepsSlots};

    /// No slots.
    pub(crate) fn new(alloc: Global) -> Slots
        ensures { result.list.items ≡ [] }
    {
        Slots {
            list: Vec::new(alloc),
            counts: Vec::new(alloc),
        }
    }

    /// How many slots there are.
    pub(crate) fn len(&self) -> usize
        ensures { result ≡ length self.now.list.items }
    {
        self.list.len()
    }

    /// The slots.
    pub(crate) fn as_slice(&self) -> &[Option<Row>]
        ensures { result.now ≡ self.now.list.items }
    {
        self.list.as_slice()
    }

    /// The row in a slot.
    pub(crate) fn get(&self, at: usize) -> Option<&Row>
        ensures { option_copied result ≡ slot_at self.now.list.items at }
    {
        row_in(self.list.as_slice(), at)
    }

    /// The row under a number.
    #[tactic(auto, using(crate::proofs::Rows::row_there, crate::proofs::Rows::row_missing, crate::proofs::Rows::row_missing_low))]
    pub(crate) fn row_at(&self, number: u64) -> Option<&Row>
        ensures { MatchOption result
            (row_at (table_of self.now.list.items) number ≡ None)
            (λ r. row_at (table_of self.now.list.items) number
            ≡ Some (record { number = number; row = r.now })) }
    {
        let at = number.checked_sub(1)? as usize;
        let row = self.get(at)?;
        Some(row)
    }

    /// The slot of the row under a number.
    #[tactic(auto, using(crate::proofs::Rows::row_missing, crate::proofs::Rows::row_missing_low))]
    pub(crate) fn place_of(&self, number: u64) -> Option<usize>
        ensures { MatchOption result
            (row_at (table_of self.now.list.items) number ≡ None)
            (λ at. (number ≡ 1 + at) × (is_some (slot_at self.now.list.items at) ≡ true)) }
    {
        let at = number.checked_sub(1)? as usize;
        let _row = self.get(at)?;
        Some(at)
    }

    /// The first row at or after a number.
    #[tactic(auto, using(crate::proofs::Rows::first_start, crate::proofs::Rows::slot_is))]
    pub(crate) fn first_from(&self, number: u64) -> Option<(u64, &Row)>
        ensures { MatchOption result
            (first_from (table_of self.now.list.items) number ≡ None)
            (λ r. first_from (table_of self.now.list.items) number
            ≡ Some (record { number = r.0; row = r.1.now })) }
    {
        // Rows are numbered from 1 on; from 0 on the first one is the first, too.
        let mut at = number.saturating_sub(1) as usize;
        while at < self.list.len() {
            if self.is_gap(at) {
                at += BLOCK;
            } else if let Some(row) = &self.list[at] {
                return Some((at as u64 + 1, row));
            } else {
                at += 1;
            }
        }
        None
    }

    /// Whether a block without rows begins at a place.
    fn is_gap(&self, at: usize) -> bool
        requires { at < length self.now.list.items }
        ensures { IsTrue result → (place : ℕ) → at ≤ place → place < at + BLOCK
            → slot_at self.now.list.items place ≡ None }
    {
        at % BLOCK == 0 && self.counts[at / BLOCK] == 0
    }

    /// Makes room for `count` more slots.
    pub(crate) fn reserve(&mut self, count: usize) -> Result<(), AllocError>
        ensures list { self.new.list.items ≡ self.old.list.items }
        ensures room { OnOk result (HasSlots self.new count) }
    {
        self.list.reserve(count)?;
        let blocks = (self.list.len() + count) / BLOCK + 1;
        if blocks > self.counts.len() {
            self.counts.resize(blocks, 0)?;
        }
        Ok(())
    }

    /// Adds a slot with a row.
    pub(crate) fn push(&mut self, row: Row)
        requires { HasSlots self.old 1 }
        ensures list { self.new.list.items ≡ self.old.list.items ++ Some row ∷ [] }
        ensures room { KeepsSlots self.old self.new }
    {
        self.counts[self.list.len() / BLOCK] += 1;
        self.list.push_reserved(Some(row));
    }

    /// Takes away the last slot.
    pub(crate) fn pop(&mut self)
        requires { 0 < length self.old.list.items }
        ensures { self.new.list.items ≡ take (length self.old.list.items - 1) self.old.list.items }
    {
        let last = self.list.pop().unwrap();
        self.counts[self.list.len() / BLOCK] -= rows_of(&last);
    }

    /// Puts a row into a slot, or empties it. What was there comes back.
    pub(crate) fn put(&mut self, at: usize, slot: Option<Row>) -> Option<Row>
        requires { at < length self.old.list.items }
        ensures list { self.new.list.items ≡ slice_set self.old.list.items at slot }
        ensures room { KeepsSlots self.old self.new }
        ensures was { result ≡ slice_index_or self.old.list.items at result }
    {
        let come = rows_of(&slot);
        let old = mem::replace(&mut self.list[at], slot);
        self.counts[at / BLOCK] = self.counts[at / BLOCK] - rows_of(&old) + come;
        old
    }
}

/// The row in a slot.
#[tactic(auto, using(crate::proofs::Rows::slot_is, crate::proofs::Rows::slot_past))]
pub(crate) fn row_in(slots: &[Option<Row>], at: usize) -> Option<&Row>
    ensures { option_copied result ≡ slot_at slots.now at }
{
    if at < slots.len() {
        slots[at].as_ref()
    } else {
        None
    }
}

/// How many rows a slot has.
fn rows_of(slot: &Option<Row>) -> usize
    ensures { result ≡ rows_of slot.now }
{
    match slot {
        Some(_) => 1,
        None => 0,
    }
}
