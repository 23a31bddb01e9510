//! Rows that are changed, and the values in their columns.

ghost use Rattle.std.specs.Option.{MatchOption};
ghost use Rattle.std.specs.Prelude.{◌≡◌, ◌<◌, ◌∷◌, [], IfErr, IfOk, None, Some, length, true};
ghost use Rattle.sq_value.specs.Key.{in_columns};
ghost use Rattle.sq_value.specs.SetFunctions.{is_null};
ghost use Rattle.sq_store.specs.Change.{rows_put};
ghost use Rattle.sq_store.specs.Content.{table_at};
ghost use Rattle.sq_store.specs.Keys.{has_columns};
ghost use Rattle.sq_meaning.specs.Constraints.{has_null};
ghost use Rattle.sq_query.specs.MayRead.{MayEnd};
ghost use Rattle.sq_change.specs.Lost.{row_changed};
ghost use Rattle.sq_change.specs.Reference.{values_in};

use sq_expression::Fault;
use sq_store::{Change, Meter, Store};
use sq_value::{Key, Row, Value};
use std::alloc::Global;

/// The row that a change puts in its table.
pub fn row_put(change: &Change) -> Option<&Row>
    ensures { MatchOption result (rows_put (change.now ∷ []) ≡ [])
        (λ row. rows_put (change.now ∷ []) ≡ row.now ∷ []) }
{
    match change {
        Change::Insert(row) => Some(row),
        Change::Replace(_, row) => Some(row),
        Change::Remove(_) => None,
    }
}

/// The row of a table that a change takes out or replaces, if it exists.
pub(crate) fn row_changed<'a, S: Store>(
    store: &'a S,
    table: usize,
    change: &Change,
) -> Option<&'a Row>
    requires { table < length (S.content_now store.now) }
    ensures { MatchOption result (row_changed (table_at (S.content_now store.now) table) change.now ≡ None)
        (λ row. row_changed (table_at (S.content_now store.now) table) change.now ≡ Some row.now) }
{
    match change {
        Change::Insert(_) => None,
        Change::Replace(number, _) => store.row(table, *number, &mut Meter::new()),
        Change::Remove(number) => store.row(table, *number, &mut Meter::new()),
    }
}

/// A row's values in some columns, unless one is null.
#[tactic(auto, using(sq_store::proofs::Sound::HasColumns_test))]
pub fn values_in(alloc: Global, row: &Row, columns: &[usize]) -> Result<Option<Key>, Fault>
    requires { has_columns columns.now row.now ≡ true }
    ensures values { IfOk result (λ values. values ≡ values_in row.now columns.now) }
    ensures memory { IfErr result (λ fault. fault ≡ Fault.NoMemory) }
    ensures right { IfErr result MayEnd }
{
    let row = row.as_slice();
    if has_null(row, columns) {
        return Ok(None);
    }
    Ok(Some(Key::of_columns(alloc, row, columns)?))
}

/// Whether one of the columns is null.
pub(crate) fn has_null(row: &[Value], columns: &[usize]) -> bool
    requires { has_columns columns.now row.now ≡ true }
    ensures { result ≡ has_null (in_columns row.now columns.now) }
{
    for column in columns {
        if is_null(&row[*column]) {
            return true;
        }
    }
    false
}

/// Whether the value is null.
pub fn is_null(value: &Value) -> bool
    ensures { result ≡ is_null value.now }
{
    match value {
        Value::Null => true,
        _ => false,
    }
}
