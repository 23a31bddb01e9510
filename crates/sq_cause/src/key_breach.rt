//! Keys of which two rows would have the same values (ISO/IEC 9075:1992, 11.7).

ghost use Rattle.std.specs.Prelude.{◌≡◌, ◌<◌, IfOk, IfSome, length};
ghost use Rattle.sq_store.specs.Keys.{keys_at};
ghost use Rattle.sq_cause.specs.Breach.{IsBetween, IsOtherPut, IsPut, StaysWithKey};

use crate::cause::{Breach, RowPut};
use crate::changing::Changing;
use crate::put::{has_values, is_touched, key_in, put_at};
use sq_store::{Change, Meter, Store};
use sq_value::{Key, Row};
use std::alloc::AllocError;

/// The first key of the table of which two rows would have the same values, with two such rows.
pub(crate) fn key_breach<S: Store>(changing: &Changing<'_, S>) -> Result<Option<Breach>, AllocError>
    ensures { IfOk result (λ found. IfSome found (IsBetween changing.now.bases.now changing.now.base.now
        (S.key_columns changing.now.store.now) (S.content_now changing.now.store.now)
        changing.now.changes.now)) }
{
    if changing.base.place >= changing.store.table_count() {
        return Ok(None);
    }
    for key in 0..changing.store.keys(changing.base.place).len() {
        if let Some(breach) = breach_of_key(changing, key)? {
            return Ok(Some(breach));
        }
    }
    Ok(None)
}

/// Two rows that would have the same values in a key.
fn breach_of_key<S: Store>(
    changing: &Changing<'_, S>,
    key: usize,
) -> Result<Option<Breach>, AllocError>
    requires there { changing.now.base.now.place < length (S.content_now changing.now.store.now) }
    requires key { key < length (keys_at (S.key_columns changing.now.store.now) changing.now.base.now.place) }
    ensures { IfOk result (λ found. IfSome found (IsBetween changing.now.bases.now changing.now.base.now
        (S.key_columns changing.now.store.now) (S.content_now changing.now.store.now)
        changing.now.changes.now)) }
{
    for place in 0..changing.changes.len() {
        if let Some((put, row)) = put_at(changing.changes, place) {
            if let Some(breach) = breach_of_put(changing, key, put, row)? {
                return Ok(Some(breach));
            }
        }
    }
    Ok(None)
}

/// Another row that would have the same values in a key as this one, which is put in.
fn breach_of_put<S: Store>(
    changing: &Changing<'_, S>,
    key: usize,
    put: RowPut,
    row: &Row,
) -> Result<Option<Breach>, AllocError>
    requires there { changing.now.base.now.place < length (S.content_now changing.now.store.now) }
    requires key { key < length (keys_at (S.key_columns changing.now.store.now) changing.now.base.now.place) }
    requires put { IsPut changing.now.changes.now put row.now }
    ensures { IfOk result (λ found. IfSome found (IsBetween changing.now.bases.now changing.now.base.now
        (S.key_columns changing.now.store.now) (S.content_now changing.now.store.now)
        changing.now.changes.now)) }
{
    let columns = changing.store.keys(changing.base.place)[key].as_slice();
    let Some(values) = key_in(changing.alloc, row, columns)? else {
        return Ok(None);
    };
    let stays = row_with_key(changing, key, &values);
    let other = other_put(changing.changes, put.place, columns, &values);
    drop(values);
    match (stays, other) {
        (Some(number), _) => Ok(Some(Breach::KeyOfRow(put, key, number))),
        (None, Some(other)) => Ok(Some(Breach::KeyOfPut(put, key, other))),
        (None, None) => Ok(None),
    }
}

/// The number of the row of the table with these values in a key, if it stays as it is.
fn row_with_key<S: Store>(changing: &Changing<'_, S>, key: usize, values: &Key) -> Option<u64>
    requires there { changing.now.base.now.place < length (S.content_now changing.now.store.now) }
    requires key { key < length (keys_at (S.key_columns changing.now.store.now) changing.now.base.now.place) }
    ensures { IfSome result (StaysWithKey (S.key_columns changing.now.store.now)
        (S.content_now changing.now.store.now) changing.now.base.now.place key
        values.now changing.now.changes.now) }
{
    let (number, _) = changing
        .store
        .find_key(changing.base.place, key, values, &mut Meter::new())?;
    if is_touched(changing.changes, number) {
        return None;
    }
    Some(number)
}

/// Another row that is put in with these values in the columns.
fn other_put(changes: &[Change], but: usize, columns: &[usize], values: &Key) -> Option<RowPut>
    ensures { IfSome result (IsOtherPut changes.now but columns.now values.now) }
{
    for place in 0..changes.len() {
        if let Some(other) = put_with(changes, place, but, columns, values) {
            return Some(other);
        }
    }
    None
}

/// The row that is put in at a place, if it has these values in the columns and the place is another.
fn put_with(
    changes: &[Change],
    place: usize,
    but: usize,
    columns: &[usize],
    values: &Key,
) -> Option<RowPut>
    ensures { IfSome result (IsOtherPut changes.now but columns.now values.now) }
{
    let (other, row) = put_at(changes, place)?;
    if other.place != but && has_values(columns, values, row.as_slice()) {
        Some(other)
    } else {
        None
    }
}
