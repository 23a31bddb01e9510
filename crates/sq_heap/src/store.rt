//! The store that keeps its tables as slots with indexes.

ghost use Rattle.std.specs.Prelude.{◌≡◌, ◌≤◌, ◌<◌, ◌+◌, [], ℕ, List, Option, false, true, Some, None, length, take, IfOk, OnErr};
ghost use Rattle.sq_store.specs.Content.{changed_by, no_rows, table_at};
ghost use Rattle.sq_store.specs.Keys.{has_distinct_keys, keys_at};
ghost use Rattle.sq_store.specs.Saved.{is_sound_if};
ghost use Rattle.sq_store.specs.Sound.{is_sound};
ghost use Rattle.sq_store.specs.declared.store.TheConstants.{MOST_ROW_NUMBERS};
ghost use Rattle.sq_heap.specs.declared.mark.Mark.{Mark};
ghost use Rattle.sq_heap.specs.Heap.{all_before, all_committed, all_keys, all_now, are_listed, are_within, first_keys, is_mark_of};
ghost use Rattle.sq_heap.specs.Store.{AreApplied, AreKept, AreLeft};
ghost use Rattle.sq_heap.specs.Table.{MayApply};

use crate::mark::Mark;
use crate::table::HeapTable;
use sq_items::Items;
use sq_store::{ApplyFault, Change, MOST_ROW_NUMBERS, Meter, Store, copy_keys};
use sq_value::{Key, Row};
use std::alloc::{AllocError, Global};

/// A store that keeps each table as slots by number, and what undoes the changes since the last commit.
///
/// `apply`, `take_back`, `commit` and `rollback` cost what changes, and `find_key`, `has_row` and `find_rows` look at the rows
/// with the hash of the values. If `new` was not given the columns, `has_row` looks at all rows and `find_rows` at none. An index that is full is made anew over the
/// whole table, which falls to each change as a part that doesn't grow with the table. `next_from` passes at most the slots
/// of two blocks, and the blocks between that have no rows.
#[derive(Drop)]
pub struct HeapStore {
    /// The columns of each key of each table.
    keys: Items<Items<Items<usize>>>,
    row_numbers: u64,
    tables: Vec<HeapTable>,
    /// The tables that were changed since the last commit.
    listed: Vec<usize>,
    last: Option<Mark>,
    ghost limited: { row_numbers ≤ MOST_ROW_NUMBERS },
    ghost sound: { is_sound row_numbers keys (all_now tables.items) ≡ true },
    ghost committed_sound: { is_sound row_numbers keys (all_committed tables.items) ≡ true },
    ghost before_sound: { is_sound_if row_numbers keys (all_before last tables.items) ≡ true },
    ghost marked: { is_mark_of last (length tables.items) ≡ true },
    ghost indexed: { first_keys keys (all_keys tables.items) ≡ keys },
    ghost listed_there: { are_within (length tables.items) listed.items ≡ true },
    ghost changes_listed: { are_listed listed.items 0 tables.items ≡ true },
}

impl Store for HeapStore {
    ghost use Rattle.sq_store.specs.laws.Sound.{keyed_of, rises_of};

    ghost content_now = { λ store. all_now store.tables.items };

    ghost committed = { λ store. all_committed store.tables.items };

    ghost before = { λ store. all_before store.last store.tables.items };

    ghost key_columns = { λ store. store.keys };

    ghost row_numbers = { λ store. store.row_numbers };

    ghost limited = { λ store. store.limited };

    ghost rises = { λ store. rises_of store.row_numbers store.keys (all_now store.tables.items) store.sound };

    ghost keyed = { λ store. keyed_of store.row_numbers store.keys (all_now store.tables.items) store.sound };

    #[tactic(auto, using(sq_store::proofs::Sound::sound_at_first))]
    fn new(
        alloc: Global,
        keys: &[Vec<Vec<usize>>],
        lookups: &[Vec<Vec<usize>>],
        greatest: u64,
    ) -> Result<HeapStore, AllocError> {
        let keys = copy_keys(alloc, keys)?;
        let lookups = copy_keys(alloc, lookups)?;
        let tables = empty_tables(alloc, keys.as_slice(), lookups.as_slice())?;
        Ok(HeapStore {
            keys,
            row_numbers: greatest,
            tables,
            listed: Vec::new(alloc),
            last: None,
        })
    }

    #[tactic(auto, using(crate::proofs::Heap::length_map))]
    fn table_count(&self) -> usize {
        self.tables.len()
    }

    #[tactic(auto, using(sq_store::proofs::Sound::sound_length))]
    fn keys(&self, table: usize) -> &[Items<usize>] {
        self.keys.as_slice()[table].as_slice()
    }

    fn next_from(&self, table: usize, number: u64, meter: &mut Meter) -> Option<(u64, &Row)> {
        let found = self.tables[table].slots().first_from(number)?;
        meter.hand_out();
        Some(found)
    }

    fn row(&self, table: usize, number: u64, meter: &mut Meter) -> Option<&Row> {
        let row = self.tables[table].slots().row_at(number)?;
        meter.hand_out();
        Some(row)
    }

    fn find_key(
        &self,
        table: usize,
        key: usize,
        values: &Key,
        meter: &mut Meter,
    ) -> Option<(u64, &Row)> {
        let found = self.tables[table].first_with(key, values)?;
        meter.hand_out();
        Some(found)
    }

    fn has_row(&self, table: usize, columns: &[usize], values: &Key) -> bool {
        self.tables[table].has_row(columns, values)
    }

    fn find_rows(
        &self,
        alloc: Global,
        table: usize,
        columns: &[usize],
        several: &[Row],
        meter: &mut Meter,
    ) -> Result<Option<Vec<(u64, &Row)>>, AllocError> {
        match self.tables[table].find_rows(alloc, columns, several)? {
            Some(rows) => {
                meter.hand_out_all(rows.len());
                Ok(Some(rows))
            }
            None => Ok(None),
        }
    }

    #[tactic(auto, using(crate::proofs::Heap::slots_within, crate::proofs::Heap::map_at))]
    fn next_number(&self, table: usize) -> u64 {
        self.tables[table].slots().len() as u64 + 1
    }

    #[tactic(auto, using(crate::proofs::Heap::slots_within, crate::proofs::Heap::map_at))]
    fn numbers_left(&self, table: usize) -> u64 {
        self.row_numbers - self.tables[table].slots().len() as u64
    }

    fn apply(
        &mut self,
        alloc: Global,
        table: usize,
        changes: Vec<Change>,
    ) -> Result<(), ApplyFault> {
        self.listed.reserve(1)?;
        let keys = self.keys(table).len();
        match apply_to(alloc, &mut self.tables, table, keys, changes) {
            Ok(from) => {
                self.listed.push(table).unwrap();
                self.last = Some(Mark { table, from });
                Ok(())
            }
            Err(fault) => Err(fault),
        }
    }

    fn take_back(&mut self) {
        match self.last.take() {
            Some(mark) => take_back_to(&mut self.tables, mark),
            None => unreachable!(),
        }
    }

    fn commit(&mut self) {
        self.last = None;
        commit_all(&mut self.tables, &mut self.listed);
    }

    fn rollback(&mut self) {
        self.last = None;
        rollback_all(&mut self.tables, &mut self.listed);
    }
}

/// A table without rows for each entry of `keys`, which has the columns of each key; `lookups` has lists of columns of as
/// many tables as it has entries.
fn empty_tables(
    alloc: Global,
    keys: &[Items<Items<usize>>],
    lookups: &[Items<Items<usize>>],
) -> Result<Vec<HeapTable>, AllocError>
    ensures now { IfOk result (λ tables. all_now tables.items ≡ no_rows (length keys.now)) }
    ensures committed { IfOk result (λ tables. all_committed tables.items ≡ no_rows (length keys.now)) }
    ensures listed { IfOk result (λ tables. are_listed [] 0 tables.items ≡ true) }
    ensures keys { IfOk result (λ tables. first_keys keys.now (all_keys tables.items) ≡ keys.now) }
{
    let mut tables = Vec::new(alloc);
    for table in 0..keys.len() {
        let lookups = lookups_at(lookups, table);
        tables.push(HeapTable::new(alloc, keys[table].as_slice(), lookups)?)?;
    }
    Ok(tables)
}

/// The lookups of a table, none where there is no entry for it.
fn lookups_at(lookups: &[Items<Items<usize>>], table: usize) -> &[Items<usize>] {
    if table < lookups.len() {
        lookups[table].as_slice()
    } else {
        &[]
    }
}

/// Makes all changes of a table, whose first indexes are those of keys, or none. Answers how many changes of it there were
/// before.
fn apply_to(
    alloc: Global,
    tables: &mut Vec<HeapTable>,
    table: usize,
    keys: usize,
    changes: Vec<Change>,
) -> Result<usize, ApplyFault>
    requires known { table < length tables.old.items }
    requires keys { keys ≤ length (keys_at (all_keys tables.old.items) table) }
    requires changes { MayApply (take keys (keys_at (all_keys tables.old.items) table))
        (table_at (all_now tables.old.items) table) changes.items }
    ensures ok { IfOk result
        (λ from. AreApplied (take keys (keys_at (all_keys tables.old.items) table)) changes.items
        (record { table = table; from = from }) tables.old.items tables.new.items) }
    ensures duplicate { result ≡ Err ApplyFault.Duplicate
        → has_distinct_keys (take keys (keys_at (all_keys tables.old.items) table))
        (changed_by (table_at (all_now tables.old.items) table) changes.items) ≡ false }
    ensures err { OnErr result (AreLeft tables.old.items tables.new.items) }
    ensures kept { AreKept tables.old.items tables.new.items }
{
    tables[table].apply(alloc, keys, changes)
}

/// Goes back to where the last changes of a table began.
fn take_back_to(tables: &mut Vec<HeapTable>, mark: Mark)
    requires { mark.table < length tables.old.items }
    ensures now { all_before (Some mark) tables.old.items ≡ Some (all_now tables.new.items) }
    ensures committed { all_committed tables.new.items ≡ all_committed tables.old.items }
    ensures listed { (listed : List ℕ) → are_listed listed 0 tables.old.items ≡ true
        → are_listed listed 0 tables.new.items ≡ true }
    ensures tables { length tables.new.items ≡ length tables.old.items }
    ensures keys { all_keys tables.new.items ≡ all_keys tables.old.items }
{
    tables[mark.table].undo_to(mark.from);
}

/// Commits the tables that were changed.
fn commit_all(tables: &mut Vec<HeapTable>, listed: &mut Vec<usize>)
    requires listed { are_listed listed.old.items 0 tables.old.items ≡ true }
    requires within { are_within (length tables.old.items) listed.old.items ≡ true }
    ensures now { all_now tables.new.items ≡ all_now tables.old.items }
    ensures committed { all_committed tables.new.items ≡ all_now tables.old.items }
    ensures listed { are_listed listed.new.items 0 tables.new.items ≡ true }
    ensures none { listed.new.items ≡ [] }
    ensures tables { length tables.new.items ≡ length tables.old.items }
    ensures keys { all_keys tables.new.items ≡ all_keys tables.old.items }
{
    while let Some(table) = listed.pop() {
        tables[table].commit();
    }
}

/// Undoes the changes of the tables that were changed.
fn rollback_all(tables: &mut Vec<HeapTable>, listed: &mut Vec<usize>)
    requires listed { are_listed listed.old.items 0 tables.old.items ≡ true }
    requires within { are_within (length tables.old.items) listed.old.items ≡ true }
    ensures now { all_now tables.new.items ≡ all_committed tables.old.items }
    ensures committed { all_committed tables.new.items ≡ all_committed tables.old.items }
    ensures listed { are_listed listed.new.items 0 tables.new.items ≡ true }
    ensures none { listed.new.items ≡ [] }
    ensures tables { length tables.new.items ≡ length tables.old.items }
    ensures keys { all_keys tables.new.items ≡ all_keys tables.old.items }
{
    while let Some(table) = listed.pop() {
        tables[table].undo_to(0);
    }
}
