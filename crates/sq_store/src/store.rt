//! What a store promises, whichever way it keeps its tables.

ghost use Rattle.std.specs.Prelude.{◌≡◌, ◌<◌, ◌≤◌, ◌+◌, ◌-◌, ℕ, List, Option, Some, None, true, false, length, is_some, if◌then◌else◌, IfOk, IfSome, IsSome, MatchOption, OnErr, OnOk};
ghost use Rattle.std.specs.List.{list_all};
ghost use Rattle.sq_store.specs.Change.{insert_count, rows_put};
ghost use Rattle.sq_store.specs.Content.{Content, changed_by, first_from, no_rows, row_at, table_at, with_table};
ghost use Rattle.sq_store.specs.Found.{counted_found, numbered_in, with_one_of};
ghost use Rattle.sq_store.specs.Keys.{Keys, are_keyed, has_columns, has_distinct_keys, has_keys, key_at, keys_at, keys_of, with_key};
ghost use Rattle.sq_store.specs.Meter.{counted};
ghost use Rattle.sq_store.specs.Rising.{all_rising};
ghost use Rattle.sq_store.specs.declared.store.TheConstants.{MOST_ROW_NUMBERS};

use crate::change::{ApplyFault, Change};
use crate::meter::Meter;
use sq_items::Items;
use sq_value::{Key, Row};
use std::alloc::{AllocError, Global};

/// The most row numbers that a store may have for each table.
pub const MOST_ROW_NUMBERS: u64 = 1_000_000_000;

/// Keeps tables of numbered rows, as they are now and as they were committed.
///
/// Its meaning is the content now, the content as it was committed, the content before the last `apply` as long as it can
/// be taken back, the keys of each table, and the greatest number that a row may have. Numbers begin at 1 in each table. A
/// table is named by its place, and so is a key of a table.
pub trait Store: Drop {
    ghost content_now: { Self → Content };

    ghost committed: { Self → Content };

    ghost before: { Self → Option Content };

    ghost key_columns: { Self → List Keys };

    ghost row_numbers: { Self → ℕ };

    /// An empty table for each entry of `keys`, which has the column positions of each key of that table. The entry of
    /// `lookups` at the same place, if there is one, has lists of columns for which `has_row` and `find_rows` will be asked of
    /// that table.
    fn new(
        alloc: Global,
        keys: &[Vec<Vec<usize>>],
        lookups: &[Vec<Vec<usize>>],
        greatest: u64,
    ) -> Result<Self, AllocError>
        requires { greatest ≤ MOST_ROW_NUMBERS }
        ensures content { IfOk result (λ store. content_now store ≡ no_rows (length keys.now)) }
        ensures committed { IfOk result (λ store. committed store ≡ no_rows (length keys.now)) }
        ensures before { IfOk result (λ store. before store ≡ None) }
        ensures keys { IfOk result (λ store. key_columns store ≡ keys_of keys.now) }
        ensures numbers { IfOk result (λ store. row_numbers store ≡ greatest) };

    /// How many tables there are.
    fn table_count(&self) -> usize
        ensures { result ≡ length (content_now self.now) };

    /// The columns of each key of a table.
    fn keys(&self, table: usize) -> &[Items<usize>]
        requires { table < length (content_now self.now) }
        ensures { result.now ≡ keys_at (key_columns self.now) table };

    /// The first row at or after a number.
    fn next_from(&self, table: usize, number: u64, meter: &mut Meter) -> Option<(u64, &Row)>
        requires { table < length (content_now self.now) }
        ensures row { MatchOption result
            (first_from (table_at (content_now self.now) table) number ≡ None)
            (λ r. first_from (table_at (content_now self.now) table) number
            ≡ Some (record { number = r.0; row = r.1.now })) }
        ensures metered { meter.new ≡ (if is_some result then counted meter.old else meter.old) };

    /// The row under a number.
    fn row(&self, table: usize, number: u64, meter: &mut Meter) -> Option<&Row>
        requires { table < length (content_now self.now) }
        ensures row { MatchOption result
            (row_at (table_at (content_now self.now) table) number ≡ None)
            (λ r. row_at (table_at (content_now self.now) table) number
            ≡ Some (record { number = number; row = r.now })) }
        ensures metered { meter.new ≡ (if is_some result then counted meter.old else meter.old) };

    /// The row with a key, and its number.
    fn find_key(
        &self,
        table: usize,
        key: usize,
        values: &Key,
        meter: &mut Meter,
    ) -> Option<(u64, &Row)>
        requires table { table < length (content_now self.now) }
        requires key { key < length (keys_at (key_columns self.now) table) }
        ensures row { let found = with_key (table_at (content_now self.now) table)
            (key_at (key_columns self.now) table key) values.now in
            MatchOption result (found ≡ None) (λ r. found ≡ Some (record { number = r.0; row = r.1.now })) }
        ensures metered { meter.new ≡ (if is_some result then counted meter.old else meter.old) };

    /// Whether a row has these values in these columns, where null is the same as null.
    fn has_row(&self, table: usize, columns: &[usize], values: &Key) -> bool
        requires table { table < length (content_now self.now) }
        requires columns { list_all
            (λ r. has_columns columns.now r.row) (table_at (content_now self.now) table).rows ≡ true }
        ensures { result ≡ is_some
            (with_key (table_at (content_now self.now) table) columns.now values.now) };

    /// The rows with one of several lists of values in these columns, in the order of their numbers; `None` if the store has no
    /// quick way to them. Null is the same as null, and a column that a row lacks is null.
    fn find_rows(
        &self,
        alloc: Global,
        table: usize,
        columns: &[usize],
        several: &[Row],
        meter: &mut Meter,
    ) -> Result<Option<Vec<(u64, &Row)>>, AllocError>
        requires { table < length (content_now self.now) }
        ensures rows { IfOk result (λ found. IfSome found (λ rows. numbered_in rows
            ≡ with_one_of (table_at (content_now self.now) table) columns.now several.now)) }
        ensures metered { meter.new ≡ counted_found result meter.old };

    /// The number of the next new row.
    fn next_number(&self, table: usize) -> u64
        requires { table < length (content_now self.now) }
        ensures { result ≡ (table_at (content_now self.now) table).next };

    /// How many numbers are left for new rows.
    fn numbers_left(&self, table: usize) -> u64
        requires { table < length (content_now self.now) }
        ensures { result ≡ row_numbers self.now + 1 - (table_at (content_now self.now) table).next };

    /// Makes all changes, one after the other, or none. Whether two rows have the same key is looked at after all changes.
    fn apply(&mut self, alloc: Global, table: usize, changes: Vec<Change>) -> Result<(), ApplyFault>
        requires known { table < length (content_now self.old) }
        requires columns { list_all (has_keys (keys_at (key_columns self.old) table))
            (rows_put changes.items) ≡ true }

        // The new rows fit in the numbers that are left.
        requires fits { insert_count changes.items ≤ row_numbers self.old + 1
            - (table_at (content_now self.old) table).next }

        ensures ok { OnOk result (content_now self.new
            ≡ with_table (content_now self.old) table
            (changed_by (table_at (content_now self.old) table) changes.items)) }
        ensures taken_back { OnOk result (before self.new ≡ Some (content_now self.old)) }

        ensures distinct { OnOk result
            (has_distinct_keys (keys_at (key_columns self.old) table)
            (changed_by (table_at (content_now self.old) table) changes.items) ≡ true) }
        ensures duplicate { result ≡ Err ApplyFault.Duplicate
            → has_distinct_keys (keys_at (key_columns self.old) table)
            (changed_by (table_at (content_now self.old) table) changes.items) ≡ false }

        ensures err { OnErr result (content_now self.new ≡ content_now self.old) }
        ensures err_before { OnErr result (before self.new ≡ before self.old) }

        ensures committed { committed self.new ≡ committed self.old }
        ensures keys { key_columns self.new ≡ key_columns self.old }
        ensures numbers { row_numbers self.new ≡ row_numbers self.old };

    /// Goes back to the content before the last `apply`.
    fn take_back(&mut self)
        requires { IsSome (before self.old) }
        ensures now { before self.old ≡ Some (content_now self.new) }
        ensures before { before self.new ≡ None }
        ensures committed { committed self.new ≡ committed self.old }
        ensures keys { key_columns self.new ≡ key_columns self.old }
        ensures numbers { row_numbers self.new ≡ row_numbers self.old };

    /// Commits the content now.
    fn commit(&mut self)
        ensures now { content_now self.new ≡ content_now self.old }
        ensures before { before self.new ≡ None }
        ensures committed { committed self.new ≡ content_now self.old }
        ensures keys { key_columns self.new ≡ key_columns self.old }
        ensures numbers { row_numbers self.new ≡ row_numbers self.old };

    /// Goes back to the content as it was committed.
    fn rollback(&mut self)
        ensures now { content_now self.new ≡ committed self.old }
        ensures before { before self.new ≡ None }
        ensures committed { committed self.new ≡ committed self.old }
        ensures keys { key_columns self.new ≡ key_columns self.old }
        ensures numbers { row_numbers self.new ≡ row_numbers self.old };

    ghost limited: { (store : Self) → row_numbers store ≤ MOST_ROW_NUMBERS };

    ghost rises: { (store : Self) → all_rising (row_numbers store) (content_now store) ≡ true };

    ghost keyed: { (store : Self) → are_keyed (key_columns store) (content_now store) ≡ true };
}
