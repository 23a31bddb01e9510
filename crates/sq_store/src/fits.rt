//! Whether a store may be given changes.

ghost use Rattle.std.specs.Prelude.{◌≡◌, ◌<◌, ◌≤◌, ◌+◌, ◌-◌, true, length, IsTrue};
ghost use Rattle.std.specs.List.{list_all};
ghost use Rattle.sq_store.specs.Change.{insert_count, rows_put};
ghost use Rattle.sq_store.specs.Content.{table_at};
ghost use Rattle.sq_store.specs.Keys.{has_columns, has_keys, keys_at};

use crate::change::Change;
use crate::store::Store;
use sq_items::Items;
use sq_value::Value;

/// Whether the store has the table, each row that is put in it has the columns of its keys, and the new rows fit in the
/// numbers that are left: what `Store::apply` asks for.
pub fn can_apply<S: Store>(store: &S, table: usize, changes: &[Change]) -> bool
    ensures known { IsTrue result → table < length (S.content_now store.now) }
    ensures columns { IsTrue result
        → list_all (has_keys (keys_at (S.key_columns store.now) table)) (rows_put changes.now) ≡ true }
    ensures fits { IsTrue result
        → insert_count changes.now ≤ S.row_numbers store.now + 1
        - (table_at (S.content_now store.now) table).next }

    ensures otherwise { table < length (S.content_now store.now)
        → list_all (has_keys (keys_at (S.key_columns store.now) table)) (rows_put changes.now) ≡ true
        → insert_count changes.now ≤ S.row_numbers store.now + 1
        - (table_at (S.content_now store.now) table).next
        → IsTrue result }
{
    table < store.table_count()
        && all_have_keys(store.keys(table), changes)
        && count_inserts(changes) <= store.numbers_left(table)
}

/// Whether each row that is put in a table has the columns of the keys.
fn all_have_keys(keys: &[Items<usize>], changes: &[Change]) -> bool
    ensures { result ≡ list_all (has_keys keys.now) (rows_put changes.now) }
{
    for change in changes {
        let fits = match change {
            Change::Insert(row) => has_all_keys(keys, row.as_slice()),
            Change::Replace(_, row) => has_all_keys(keys, row.as_slice()),
            Change::Remove(_) => true,
        };
        if !fits {
            return false;
        }
    }
    true
}

/// Whether a row has the columns of the keys.
fn has_all_keys(keys: &[Items<usize>], row: &[Value]) -> bool
    ensures { result ≡ has_keys keys.now row.now }
{
    for columns in keys {
        if !has_columns(row, columns.as_slice()) {
            return false;
        }
    }
    true
}

/// Whether a row has the columns of a key.
fn has_columns(row: &[Value], columns: &[usize]) -> bool
    ensures { result ≡ has_columns columns.now row.now }
{
    columns.iter().all(|column| *column < row.len())
}

/// How many new rows there are.
fn count_inserts(changes: &[Change]) -> u64
    ensures { result ≡ insert_count changes.now }
{
    let mut count: u64 = 0;
    for change in changes {
        if let Change::Insert(_) = change {
            count += 1;
        }
    }
    count
}
