//! Tables of numbered rows.

ghost use Rattle.std.specs.Prelude.{◌≡◌, ◌<◌, ◌≤◌, ◌+◌, ◌^◌, if◌then◌else◌, false, true, vec_len, filter, map, nat_eq, not, slice_get, IfOk, MatchOption, None, OnOk, Some};
ghost use Rattle.std.specs.Option.{option_copied};
ghost use Rattle.std.specs.List.{list_all};
ghost use Rattle.sq_store.specs.Change.{rows_put};
ghost use Rattle.sq_store.specs.Keys.{has_distinct_keys, has_keys, have_keys};
ghost use Rattle.sq_store.specs.Content.{changed, changed_by, empty, first_among, first_from, row_at};
ghost use Rattle.sq_store.specs.Rising.{has_rising_rows, rising_between};

use crate::change::{ApplyFault, Change};
use crate::key::keys_are_distinct;
use sq_items::Items;
use sq_value::{Row, copy_row};
use std::alloc::{AllocError, Global};

/// A row under its number.
#[derive(Debug, Drop)]
pub struct Numbered {
    pub number: u64,
    pub row: Row,
}

/// Rows by rising numbers, and the number that the next new row takes.
#[derive(Debug, Drop)]
pub struct Table {
    pub rows: Items<Numbered>,
    pub next: u64,
}

impl Numbered {
    /// A copy of the row under the same number.
    pub(crate) fn copy(&self, alloc: Global) -> Result<Numbered, AllocError>
        ensures { IfOk result (λ copy. copy ≡ self.now) }
    {
        Ok(Numbered {
            number: self.number,
            row: copy_row(alloc, self.row.as_slice())?,
        })
    }
}

impl Table {
    /// A table without rows.
    pub(crate) fn new(alloc: Global) -> Table
        ensures { result ≡ empty }
    {
        Table {
            rows: Items::new(alloc),
            next: 1,
        }
    }

    /// A copy of all rows.
    pub(crate) fn copy(&self, alloc: Global) -> Result<Table, AllocError>
        ensures { IfOk result (λ copy. copy ≡ self.now) }
    {
        let mut rows = Items::new(alloc);
        for row in self.rows.as_slice() {
            rows.push(row.copy(alloc)?)?;
        }
        Ok(Table {
            rows,
            next: self.next,
        })
    }

    /// The first row at or after a number, by a binary search.
    pub(crate) fn first_from(&self, number: u64) -> Option<&Numbered>
        requires { has_rising_rows self.now ≡ true }
        ensures { option_copied result ≡ first_from self.now number }
    {
        let rows = self.rows.as_slice();
        rows.get(place_from(rows, number, self.next))
    }

    /// The row under a number.
    #[tactic(auto, using(crate::proofs::Search::row_is_first, crate::proofs::Search::same_row))]
    pub(crate) fn row_at(&self, number: u64) -> Option<&Row>
        requires { has_rising_rows self.now ≡ true }
        ensures { MatchOption result
            (row_at self.now number ≡ None)
            (λ r. row_at self.now number ≡ Some (record { number = number; row = r.now })) }
    {
        match self.first_from(number) {
            Some(found) if found.number == number => Some(&found.row),
            _ => None,
        }
    }

    /// A copy of the table after all changes, in which no two rows may have the same key.
    #[tactic(auto, using(crate::proofs::Sound::have_keys_changed_by))]
    pub(crate) fn changed_with_keys(
        &self,
        alloc: Global,
        keys: &[Items<usize>],
        changes: Vec<Change>,
    ) -> Result<Table, ApplyFault>
        requires rising { has_rising_rows self.now ≡ true }
        requires columns { have_keys keys.now self.now.rows ≡ true }
        requires new_columns { list_all (has_keys keys.now) (rows_put changes.items) ≡ true }
        requires fits { self.now.next < 2 ^ 32 }
        ensures ok { IfOk result (λ table. table ≡ changed_by self.now changes.items) }
        ensures distinct { OnOk result (has_distinct_keys keys.now (changed_by self.now changes.items)
            ≡ true) }
        ensures duplicate { result ≡ Err ApplyFault.Duplicate
            → has_distinct_keys keys.now (changed_by self.now changes.items) ≡ false }
    {
        let table = self.changed(alloc, changes)?;
        if keys_are_distinct(table.rows.as_slice(), keys) {
            Ok(table)
        } else {
            drop(table);
            Err(ApplyFault::Duplicate)
        }
    }

    /// A copy of the table after all changes.
    fn changed(&self, alloc: Global, changes: Vec<Change>) -> Result<Table, AllocError>
        requires rising { has_rising_rows self.now ≡ true }
        requires fits { self.now.next + vec_len changes < 2 ^ 64 }
        ensures { IfOk result (λ table. table ≡ changed_by self.now changes.items) }
    {
        let mut table = self.copy(alloc)?;
        for change in changes {
            table = table.change(alloc, change)?;
        }
        Ok(table)
    }

    /// The table after a change.
    #[tactic(auto, using(crate::proofs::Rises::rising_push))]
    fn change(self, alloc: Global, change: Change) -> Result<Table, AllocError>
        requires rising { has_rising_rows self ≡ true }
        requires fits { self.next + 1 < 2 ^ 64 }
        ensures changed { IfOk result (λ table. table ≡ changed self change) }
        ensures rising { IfOk result (λ table. has_rising_rows table ≡ true) }
        ensures next { IfOk result (λ table. table.next ≤ self.next + 1) }
    {
        let Table { rows, next } = self;
        let mut rows = rows.into_vec();
        match change {
            Change::Insert(row) => {
                rows.push(Numbered { number: next, row })?;
                Ok(Table {
                    rows: Items::from_vec(rows),
                    next: next + 1,
                })
            }
            Change::Replace(number, row) => {
                replace(&mut rows, number, row, next);
                Ok(Table {
                    rows: Items::from_vec(rows),
                    next,
                })
            }
            Change::Remove(number) => {
                remove(&mut rows, number);
                Ok(Table {
                    rows: Items::from_vec(rows),
                    next,
                })
            }
        }
    }
}

/// Where the first row at or after a number is.
#[tactic(auto, using(crate::proofs::Search::rising_partitioned, crate::proofs::Search::find_at_point))]
fn place_from(rows: &[Numbered], number: u64, next: u64) -> usize
    requires { rising_between 1 rows.now next ≡ true }
    ensures { slice_get rows.now result ≡ first_among rows.now number }
{
    rows.partition_point(|row| row.number < number)
}

/// Puts another row under a number, if it has one.
#[tactic(auto, using(crate::proofs::Search::put_at, crate::proofs::Search::put_past, crate::proofs::Search::put_nowhere))]
fn replace(rows: &mut Vec<Numbered>, number: u64, row: Row, next: u64)
    requires { rising_between 1 rows.old.items next ≡ true }
    ensures { rows.new.items
        ≡ map (λ r. if nat_eq r.number number then record { number = number; row = row } else r)
        rows.old.items }
{
    let place = place_from(rows.as_slice(), number, next);
    if place < rows.len() && rows[place].number == number {
        rows[place] = Numbered { number, row };
    }
}

/// Takes out the row under a number.
fn remove(rows: &mut Vec<Numbered>, number: u64)
    ensures { rows.new.items ≡ filter (λ r. not (nat_eq r.number number)) rows.old.items }
{
    rows.retain(|row| row.number != number);
}

/// A copy of all tables.
pub(crate) fn copy_tables(alloc: Global, tables: &[Table]) -> Result<Items<Table>, AllocError>
    ensures { IfOk result (λ copies. copies ≡ tables.now) }
{
    let mut copies = Items::new(alloc);
    for table in tables {
        copies.push(table.copy(alloc)?)?;
    }
    Ok(copies)
}
