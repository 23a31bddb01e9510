//! The store that keeps its tables as plain lists.

ghost use Rattle.std.specs.Prelude.{◌≡◌, ◌≤◌, ◌<◌, ◌+◌, true, Some, length, map, IfOk, OnErr, OnOk};
ghost use Rattle.sq_store.specs.Content.{no_rows, table_at};
ghost use Rattle.sq_store.specs.Keys.{keys_at, keys_of};
ghost use Rattle.sq_store.specs.Saved.{are_sound, before_of, committed_or};
ghost use Rattle.sq_store.specs.Sound.{is_sound};
ghost use Rattle.sq_store.specs.declared.store.TheConstants.{MOST_ROW_NUMBERS};

use crate::change::{ApplyFault, Change};
use crate::key::{all_with, first_with};
use crate::meter::Meter;
use crate::saved::Saved;
use crate::store::{MOST_ROW_NUMBERS, Store};
use crate::table::{Numbered, Table, copy_tables};
use sq_items::Items;
use sq_value::{Key, Row};
use std::alloc::{AllocError, Global};

/// A store that keeps its tables as lists, and a copy of all tables for each content that it may go back to.
#[derive(Drop)]
pub struct ListStore {
    /// The columns of each key of each table.
    keys: Items<Items<Items<usize>>>,
    row_numbers: u64,
    tables: Vec<Table>,
    /// None where the content now is what was committed.
    saved: Option<Saved>,
    ghost limited: { row_numbers ≤ MOST_ROW_NUMBERS },
    ghost sound: { is_sound row_numbers keys tables.items ≡ true },
    ghost saved_sound: { are_sound row_numbers keys saved ≡ true },
}

impl Store for ListStore {
    ghost use Rattle.sq_store.specs.laws.Sound.{keyed_of, rises_of};

    ghost content_now = { λ store. store.tables.items };

    ghost committed = { λ store. committed_or store.saved store.tables.items };

    ghost before = { λ store. before_of store.saved };

    ghost key_columns = { λ store. store.keys };

    ghost row_numbers = { λ store. store.row_numbers };

    ghost limited = { λ store. store.limited };

    ghost rises = { λ store. rises_of store.row_numbers store.keys store.tables.items store.sound };

    ghost keyed = { λ store. keyed_of store.row_numbers store.keys store.tables.items store.sound };

    #[tactic(auto, using(crate::proofs::Sound::sound_at_first))]
    fn new(
        alloc: Global,
        keys: &[Vec<Vec<usize>>],
        _lookups: &[Vec<Vec<usize>>],
        greatest: u64,
    ) -> Result<ListStore, AllocError> {
        Ok(ListStore {
            keys: copy_keys(alloc, keys)?,
            row_numbers: greatest,
            tables: empty_tables(alloc, keys.len())?,
            saved: None,
        })
    }

    fn table_count(&self) -> usize {
        self.tables.len()
    }

    #[tactic(auto, using(crate::proofs::Sound::sound_length))]
    fn keys(&self, table: usize) -> &[Items<usize>] {
        self.keys.as_slice()[table].as_slice()
    }

    #[tactic(auto, using(crate::proofs::Sound::rises_at))]
    fn next_from(&self, table: usize, number: u64, meter: &mut Meter) -> Option<(u64, &Row)> {
        let found = self.tables[table].first_from(number)?;
        meter.hand_out();
        Some((found.number, &found.row))
    }

    #[tactic(auto, using(crate::proofs::Sound::rises_at))]
    fn row(&self, table: usize, number: u64, meter: &mut Meter) -> Option<&Row> {
        let row = self.tables[table].row_at(number)?;
        meter.hand_out();
        Some(row)
    }

    fn find_key(
        &self,
        table: usize,
        key: usize,
        values: &Key,
        meter: &mut Meter,
    ) -> Option<(u64, &Row)> {
        let columns = self.keys(table)[key].as_slice();
        let found = first_with(self.rows_of(table), columns, values)?;
        meter.hand_out();
        Some((found.number, &found.row))
    }

    fn has_row(&self, table: usize, columns: &[usize], values: &Key) -> bool {
        first_with(self.rows_of(table), columns, values).is_some()
    }

    fn find_rows(
        &self,
        alloc: Global,
        table: usize,
        columns: &[usize],
        several: &[Row],
        meter: &mut Meter,
    ) -> Result<Option<Vec<(u64, &Row)>>, AllocError> {
        let rows = all_with(alloc, self.rows_of(table), columns, several)?;
        meter.hand_out_all(rows.len());
        Ok(Some(rows))
    }

    fn next_number(&self, table: usize) -> u64 {
        self.tables[table].next
    }

    #[tactic(auto, using(crate::proofs::Sound::next_at))]
    fn numbers_left(&self, table: usize) -> u64 {
        self.row_numbers + 1 - self.tables[table].next
    }

    #[tactic(auto, using(crate::proofs::Sound::sound_changed, crate::proofs::Sound::next_at, crate::proofs::Sound::rises_at, crate::proofs::Sound::columns_at))]
    fn apply(
        &mut self,
        alloc: Global,
        table: usize,
        changes: Vec<Change>,
    ) -> Result<(), ApplyFault> {
        let changed = self.tables[table].changed_with_keys(alloc, self.keys(table), changes)?;
        self.save(alloc)?;
        self.tables[table] = changed;
        Ok(())
    }

    fn take_back(&mut self) {
        match self.saved.take() {
            Some(Saved { committed, before }) => match before {
                Some(tables) => {
                    self.tables = tables.into_vec();
                    self.saved = Some(Saved {
                        committed,
                        before: None,
                    });
                }
                None => unreachable!(),
            },
            None => unreachable!(),
        }
    }

    fn commit(&mut self) {
        self.saved = None;
    }

    fn rollback(&mut self) {
        if let Some(Saved { committed, before }) = self.saved.take() {
            drop(before);
            self.tables = committed.into_vec();
        }
    }
}

impl ListStore {
    /// The rows of a table.
    fn rows_of(&self, table: usize) -> &[Numbered]
        requires { table < length self.now.tables.items }
        ensures { result.now ≡ (table_at self.now.tables.items table).rows }
    {
        self.tables[table].rows.as_slice()
    }

    /// Keeps a copy of the content now, and one of the committed content where there is none yet.
    fn save(&mut self, alloc: Global) -> Result<(), AllocError>
        ensures tables { self.new.tables ≡ self.old.tables }
        ensures keys { self.new.keys ≡ self.old.keys }
        ensures numbers { self.new.row_numbers ≡ self.old.row_numbers }
        ensures ok { OnOk result (self.new.saved
            ≡ Some (record {
              committed = committed_or self.old.saved self.old.tables.items;
              before
                  = Some self.old.tables.items;
            })) }
        ensures err { OnErr result (self.new.saved ≡ self.old.saved) }
    {
        let before = copy_tables(alloc, self.tables.as_slice())?;
        let committed = match self.saved.take() {
            Some(saved) => saved.into_committed(),
            None => copy_tables(alloc, self.tables.as_slice())?,
        };
        self.saved = Some(Saved {
            committed,
            before: Some(before),
        });
        Ok(())
    }
}

/// `count` tables without rows.
fn empty_tables(alloc: Global, count: usize) -> Result<Vec<Table>, AllocError>
    ensures { IfOk result (λ tables. tables.items ≡ no_rows count) }
{
    let mut tables = Vec::new(alloc);
    while tables.len() < count {
        tables.push(Table::new(alloc))?;
    }
    Ok(tables)
}

/// A copy of the columns of each key of each table.
pub fn copy_keys(
    alloc: Global,
    tables: &[Vec<Vec<usize>>],
) -> Result<Items<Items<Items<usize>>>, AllocError>
    ensures { IfOk result (λ keys. keys ≡ keys_of tables.now) }
{
    let mut copies = Items::new(alloc);
    for keys in tables {
        copies.push(copy_columns(alloc, keys.as_slice())?)?;
    }
    Ok(copies)
}

/// A copy of the columns of each key.
fn copy_columns(alloc: Global, keys: &[Vec<usize>]) -> Result<Items<Items<usize>>, AllocError>
    ensures { IfOk result (λ copies. copies ≡ map (λ columns. columns.items) keys.now) }
{
    let mut copies = Items::new(alloc);
    for columns in keys {
        copies.push(Items::from_slice(alloc, columns.as_slice())?)?;
    }
    Ok(copies)
}
