//! References that would lead to no row (ISO/IEC 9075:1992, 11.8).

ghost use Rattle.std.specs.Prelude.{◌≡◌, ◌<◌, ◌&&◌, IfOk, IfSome, IsTrue, length, nat_eq, true};
ghost use Rattle.std.specs.List.{list_any};
ghost use Rattle.sq_store.specs.Content.{table_at};
ghost use Rattle.sq_store.specs.Keys.{key_at, keys_at, with_key};
ghost use Rattle.sq_cause.specs.Breach.{IsBetween, IsPut, IsReferring, LeadsNowhere, Refers, is_missing, puts, stays};

use crate::cause::{Breach, Referring, RowPut};
use crate::changing::Changing;
use crate::put::{any_puts, is_touched, key_in, put_at};
use sq_bound::{BaseTable, Reference, Shared};
use sq_session::TableRows;
use sq_store::{Meter, Store};
use sq_value::{Key, Row};
use std::alloc::AllocError;

/// The first row that is put in and would refer to no row.
pub(crate) fn from_breach<S: Store>(
    changing: &Changing<'_, S>,
) -> Result<Option<Breach>, AllocError>
    ensures { IfOk result (λ found. IfSome found (IsBetween changing.now.bases.now changing.now.base.now
        (S.key_columns changing.now.store.now) (S.content_now changing.now.store.now)
        changing.now.changes.now)) }
{
    for place in 0..changing.changes.len() {
        if let Some((put, row)) = put_at(changing.changes, place) {
            if let Some(breach) = breach_of_put(changing, put, row)? {
                return Ok(Some(breach));
            }
        }
    }
    Ok(None)
}

/// The first reference of a row that is put in that would lead to no row.
fn breach_of_put<S: Store>(
    changing: &Changing<'_, S>,
    put: RowPut,
    row: &Row,
) -> Result<Option<Breach>, AllocError>
    requires { IsPut changing.now.changes.now put row.now }
    ensures { IfOk result (λ found. IfSome found (IsBetween changing.now.bases.now changing.now.base.now
        (S.key_columns changing.now.store.now) (S.content_now changing.now.store.now)
        changing.now.changes.now)) }
{
    for place in 0..changing.base.references.len() {
        if let Some(reference) = changing.base.references.as_slice().get(place) {
            if leads_nowhere(changing, reference, row)? {
                return Ok(Some(Breach::RefersToNone(put, place)));
            }
        }
    }
    Ok(None)
}

/// Whether a row refers by a reference to no row, when the changes are made.
fn leads_nowhere<S: Store>(
    changing: &Changing<'_, S>,
    reference: &Reference,
    row: &Row,
) -> Result<bool, AllocError>
    ensures { IfOk result (λ nowhere. IsTrue nowhere
        → LeadsNowhere (S.key_columns changing.now.store.now) (S.content_now changing.now.store.now)
        changing.now.base.now.place changing.now.changes.now reference.now row.now) }
{
    match key_in(changing.alloc, row, reference.by_key.as_slice())? {
        None => Ok(false),
        Some(values) => {
            let missing = is_missing(changing, reference, &values);
            drop(values);
            Ok(missing)
        }
    }
}

/// Whether no row has these values in the key that is referred to, when the changes are made.
fn is_missing<S: Store>(changing: &Changing<'_, S>, reference: &Reference, values: &Key) -> bool
    ensures { IsTrue result → is_missing (S.key_columns changing.now.store.now) (S.content_now changing.now.store.now)
        changing.now.base.now.place changing.now.changes.now reference.now values.now ≡ true }
{
    if reference.table >= changing.store.table_count() {
        return false;
    }
    let keys = changing.store.keys(reference.table);
    if reference.key >= keys.len() {
        return false;
    }
    let columns = keys[reference.key].as_slice();
    !stays(changing, reference, values) && !is_put(changing, reference.table, columns, values)
}

/// Whether a row of the table that is referred to has these values in the key, and stays as it is.
fn stays<S: Store>(changing: &Changing<'_, S>, reference: &Reference, values: &Key) -> bool
    requires table { reference.now.table < length (S.content_now changing.now.store.now) }
    requires key { reference.now.key < length (keys_at (S.key_columns changing.now.store.now) reference.now.table) }
    ensures { result ≡ stays changing.now.base.now.place changing.now.changes.now reference.now.table
        (with_key (table_at (S.content_now changing.now.store.now) reference.now.table)
        (key_at (S.key_columns changing.now.store.now) reference.now.table reference.now.key) values.now) }
{
    let found = changing
        .store
        .find_key(reference.table, reference.key, values, &mut Meter::new());
    match found {
        None => false,
        Some((number, _)) => !(reference.table == changing.base.place
            && is_touched(changing.changes, number)),
    }
}

/// Whether the changes put in a row of this table with these values in the columns.
fn is_put<S: Store>(
    changing: &Changing<'_, S>,
    table: usize,
    columns: &[usize],
    values: &Key,
) -> bool
    ensures { result ≡ (nat_eq table changing.now.base.now.place
        && list_any (puts columns.now values.now) changing.now.changes.now) }
{
    table == changing.base.place && any_puts(columns, values, changing.changes)
}

/// The first row that would refer to a row that is gone.
pub(crate) fn to_breach<S: Store>(changing: &Changing<'_, S>) -> Result<Option<Breach>, AllocError>
    ensures { IfOk result (λ found. IfSome found (IsBetween changing.now.bases.now changing.now.base.now
        (S.key_columns changing.now.store.now) (S.content_now changing.now.store.now)
        changing.now.changes.now)) }
{
    for (place, base) in changing.bases.iter().enumerate() {
        if let Some(referring) = referring_in(changing, place, base)? {
            return Ok(Some(Breach::IsReferredTo(referring)));
        }
    }
    Ok(None)
}

/// The first row of a table that would refer to a row that is gone.
fn referring_in<S: Store>(
    changing: &Changing<'_, S>,
    table: usize,
    shared: &Shared<BaseTable>,
) -> Result<Option<Referring>, AllocError>
    ensures { IfOk result (λ found. IfSome found
        (λ referring. (referring.table ≡ table) × IsReferring shared.now (S.key_columns changing.now.store.now)
        (S.content_now changing.now.store.now) changing.now.base.now.place changing.now.changes.now referring)) }
{
    if table >= changing.store.table_count() {
        return Ok(None);
    }
    let base = shared.get();
    for place in 0..base.references.len() {
        if let Some(reference) = base.references.as_slice().get(place) {
            if let Some(number) = referring_by(changing, table, reference)? {
                return Ok(Some(Referring {
                    table,
                    reference: place,
                    number,
                }));
            }
        }
    }
    Ok(None)
}

/// The number of the first row that would refer by this reference to a row that is gone.
fn referring_by<S: Store>(
    changing: &Changing<'_, S>,
    table: usize,
    reference: &Reference,
) -> Result<Option<u64>, AllocError>
    requires { table < length (S.content_now changing.now.store.now) }
    ensures { IfOk result (λ found. IfSome found
        (Refers (S.key_columns changing.now.store.now) (S.content_now changing.now.store.now) changing.now.base.now.place
        changing.now.changes.now table reference.now)) }
{
    if reference.table != changing.base.place {
        return Ok(None);
    }
    for (number, _) in TableRows::of(changing.store, table) {
        if refers(changing, table, reference, number)? {
            return Ok(Some(number));
        }
    }
    Ok(None)
}

/// Whether the row under a number stays as it is, and would refer by this reference to a row that is gone.
fn refers<S: Store>(
    changing: &Changing<'_, S>,
    table: usize,
    reference: &Reference,
    number: u64,
) -> Result<bool, AllocError>
    requires { table < length (S.content_now changing.now.store.now) }
    ensures { IfOk result (λ refers. IsTrue refers
        → Refers (S.key_columns changing.now.store.now) (S.content_now changing.now.store.now) changing.now.base.now.place
        changing.now.changes.now table reference.now number) }
{
    if table == changing.base.place && is_touched(changing.changes, number) {
        return Ok(false);
    }
    match changing.store.row(table, number, &mut Meter::new()) {
        Some(row) => leads_nowhere(changing, reference, row),
        None => Ok(false),
    }
}
