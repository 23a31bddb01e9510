//! The rows that the changes of a statement put in a table, and those that they take away.

ghost use Rattle.std.specs.Prelude.{◌≡◌, ◌≢◌, IfOk, IfSome, List, None};
ghost use Rattle.std.specs.List.{list_any};
ghost use Rattle.sq_value.specs.declared.value.Value.{Value as AnyValue};
ghost use Rattle.sq_store.specs.Keys.{has_columns};
ghost use Rattle.sq_cause.specs.Breach.{IsPut, has_values, is_touched, key_in, puts, touches};

use crate::cause::RowPut;
use sq_change::values_in;
use sq_store::Change;
use sq_value::{Key, Row, Value};
use std::alloc::{AllocError, Global};

/// The row that the change at a place puts in, if it puts in one.
pub(crate) fn put_at(changes: &[Change], place: usize) -> Option<(RowPut, &Row)>
    ensures is { IfSome result (λ put. (put.0.place ≡ place) × IsPut changes.now put.0 put.1.now) }
    ensures none { (result ≡ None) → (put : RowPut) (row : List AnyValue) → IsPut changes.now put row
        → put.place ≢ place }
{
    match changes.get(place)? {
        Change::Insert(row) => Some((
            RowPut {
                place,
                number: None,
            },
            row,
        )),
        Change::Replace(number, row) => Some((
            RowPut {
                place,
                number: Some(*number),
            },
            row,
        )),
        Change::Remove(_) => None,
    }
}

/// Whether a change takes the row under a number away, or puts another in its place.
pub(crate) fn is_touched(changes: &[Change], number: u64) -> bool
    ensures { result ≡ is_touched changes.now number }
{
    changes.iter().any(|change| touches(number, change))
}

fn touches(number: u64, change: &Change) -> bool
    ensures { result ≡ touches number change.now }
{
    match change {
        Change::Insert(_) => false,
        Change::Replace(changed, _) => *changed == number,
        Change::Remove(removed) => *removed == number,
    }
}

/// Whether one of the changes puts in a row with these values in the columns.
pub(crate) fn any_puts(columns: &[usize], values: &Key, changes: &[Change]) -> bool
    ensures { result ≡ list_any (puts columns.now values.now) changes.now }
{
    changes.iter().any(|change| puts(columns, values, change))
}

/// Whether a change puts in a row with these values in the columns.
fn puts(columns: &[usize], values: &Key, change: &Change) -> bool
    ensures { result ≡ puts columns.now values.now change.now }
{
    match change {
        Change::Insert(row) => has_values(columns, values, row.as_slice()),
        Change::Replace(_, row) => has_values(columns, values, row.as_slice()),
        Change::Remove(_) => false,
    }
}

/// Whether a row has these values in the columns.
#[tactic(auto, using(sq_store::proofs::Sound::HasColumns_test))]
pub(crate) fn has_values(columns: &[usize], values: &Key, row: &[Value]) -> bool
    ensures { result ≡ has_values columns.now values.now row.now }
{
    has_columns(columns, row) && values.is_of(row, columns)
}

/// Whether a row has these columns.
fn has_columns(columns: &[usize], row: &[Value]) -> bool
    ensures { result ≡ has_columns columns.now row.now }
{
    columns.iter().all(|column| *column < row.len())
}

/// The values of a row in some columns, if it has these columns and none is null.
pub(crate) fn key_in(alloc: Global, row: &Row, columns: &[usize]) -> Result<Option<Key>, AllocError>
    ensures { IfOk result (λ values. values ≡ key_in row.now columns.now) }
{
    if !has_columns(columns, row.as_slice()) {
        return Ok(None);
    }
    match values_in(alloc, row, columns) {
        Ok(values) => Ok(values),
        Err(_) => Err(AllocError),
    }
}
