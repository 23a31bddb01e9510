//! Values of keys that rows lose, and whether other rows refer to them (ISO/IEC 9075:1992, 11.8).

ghost use Rattle.std.specs.Prelude.{◌≡◌, ◌<◌, ◌++◌, true, is_some, length, nat_eq, nat_lt, IfErr, IfOk, OnOk};
ghost use Rattle.std.specs.List.{list_all};
ghost use Rattle.sq_store.specs.Content.{table_at};
ghost use Rattle.sq_store.specs.Keys.{has_columns, has_keys, key_at, with_key};
ghost use Rattle.sq_meaning.specs.declared.status.Status.TheVariants.{IntegrityConstraintViolation};
ghost use Rattle.sq_meaning.specs.Constraints.{demanded};
ghost use Rattle.sq_bound.specs.Fits.{IsBase, have_width, holds, keys_of_bases};
ghost use Rattle.sq_expression.specs.Fault.{Meets};
ghost use Rattle.sq_query.specs.MayRead.{MayEnd};
ghost use Rattle.sq_change.specs.Lost.{are_free, free_by, has_reference_to, is_free, is_referred, lost_by, lost_of, referred_keys};
ghost use Rattle.sq_change.specs.Reference.{refer_to_keys, refers_to_key};

use crate::row::{row_changed, values_in};
use crate::setting::Setting;
use sq_bound::{BaseTable, Names, Reference};
use sq_expression::{Failure, Fault};
use sq_store::{Change, Meter, Store};
use sq_value::{Key, Row};
use std::alloc::Global;

/// The values that a row had in a key of its table, none of them null.
#[derive(Drop)]
pub(crate) struct LostKey {
    key: usize,
    values: Key,
}

/// The values, in the keys of these to which a reference exists, of the rows that changes take out or replace.
pub(crate) fn lost_by<N: Names, S: Store>(
    setting: &Setting<'_, N, S>,
    table: &BaseTable,
    changes: &[Change],
    lost_keys: &[usize],
) -> Result<Vec<LostKey>, Fault>
    requires tables { holds (N.base_tables setting.now.names.now) (S.content_now setting.now.store.now)
        ≡ true }
    requires base { IsBase (N.base_tables setting.now.names.now) table.now }
    ensures list { IfOk result (λ lost. lost.items
        ≡ lost_by (table_at (S.content_now setting.now.store.now) table.now.place) table.now.keys
        (referred_keys (N.base_tables setting.now.names.now) table.now.place lost_keys.now) changes.now) }
    ensures memory { IfErr result (λ fault. fault ≡ Fault.NoMemory) }
    ensures right { IfErr result MayEnd }
{
    let keys = referred_keys(setting.alloc, setting.names, table.place, lost_keys)?;
    lost_in(setting, table, changes, keys.as_slice())
}

/// The lost keys of a table to which a reference exists.
fn referred_keys<N: Names>(
    alloc: Global,
    names: &N,
    table: usize,
    keys: &[usize],
) -> Result<Vec<usize>, Fault>
    ensures list { IfOk result
        (λ referred. referred.items ≡ referred_keys (N.base_tables names.now) table keys.now) }
    ensures memory { IfErr result (λ fault. fault ≡ Fault.NoMemory) }
    ensures right { IfErr result MayEnd }
{
    let mut referred = Vec::new(alloc);
    for key in keys {
        if is_referred(names, table, *key) {
            referred.push(*key)?;
        }
    }
    Ok(referred)
}

/// Whether a reference to a key of a table exists.
fn is_referred<N: Names>(names: &N, table: usize, key: usize) -> bool
    ensures { result ≡ is_referred (N.base_tables names.now) table key }
{
    for base in names.bases() {
        if has_reference_to(base.get(), table, key) {
            return true;
        }
    }
    false
}

/// Whether a base table refers to a key of a table.
fn has_reference_to(base: &BaseTable, table: usize, key: usize) -> bool
    ensures { result ≡ has_reference_to table key base.now }
{
    base.references.as_slice().iter().any(|reference| reference.table == table
        && reference.key == key)
}

/// The values in these keys of the rows that changes take out or put others in place of.
fn lost_in<N: Names, S: Store>(
    setting: &Setting<'_, N, S>,
    table: &BaseTable,
    changes: &[Change],
    keys: &[usize],
) -> Result<Vec<LostKey>, Fault>
    requires tables { holds (N.base_tables setting.now.names.now) (S.content_now setting.now.store.now)
        ≡ true }
    requires base { IsBase (N.base_tables setting.now.names.now) table.now }
    requires keys { list_all (λ key. nat_lt key (length table.now.keys)) keys.now ≡ true }
    ensures list { IfOk result (λ lost. lost.items
        ≡ lost_by (table_at (S.content_now setting.now.store.now) table.now.place) table.now.keys
        keys.now changes.now) }
    ensures memory { IfErr result (λ fault. fault ≡ Fault.NoMemory) }
    ensures right { IfErr result MayEnd }
{
    let mut lost = Vec::new(setting.alloc);
    for change in changes {
        if let Some(row) = row_changed(setting.store, table.place, change) {
            push_lost(setting.alloc, &mut lost, table, row, keys)?;
        }
    }
    Ok(lost)
}

/// Adds the values of a row in these keys, if none is null.
fn push_lost(
    alloc: Global,
    lost: &mut Vec<LostKey>,
    table: &BaseTable,
    row: &Row,
    keys: &[usize],
) -> Result<(), Fault>
    requires keys { list_all (λ key. nat_lt key (length table.now.keys)) keys.now ≡ true }
    requires columns { has_keys table.now.keys row.now ≡ true }
    ensures list { OnOk result (lost.new.items ≡ lost.old.items ++ lost_of table.now.keys keys.now row.now) }
    ensures memory { IfErr result (λ fault. fault ≡ Fault.NoMemory) }
    ensures right { IfErr result MayEnd }
{
    for key in keys {
        let columns = table.keys.as_slice()[*key].as_slice();
        if let Some(values) = values_in(alloc, row, columns)? {
            lost.push(LostKey { key: *key, values })?;
        }
    }
    Ok(())
}

/// Whether no row refers to one of these values of keys of a table, unless a row of it has them still.
pub(crate) fn all_free<N: Names, S: Store>(
    names: &N,
    store: &S,
    table: usize,
    lost: &[LostKey],
) -> Result<(), Fault>
    requires tables { holds (N.base_tables names.now) (S.content_now store.now) ≡ true }
    requires keys { S.key_columns store.now ≡ keys_of_bases (N.base_tables names.now) }
    ensures meant { Meets result
        (demanded (are_free (N.base_tables names.now) (S.content_now store.now) table lost.now)
        IntegrityConstraintViolation) }
    ensures right { IfErr result MayEnd }
{
    if lost.is_empty() {
        return Ok(());
    }
    for (place, base) in names.bases().iter().enumerate() {
        references_free(store, place, base.get(), table, lost)?;
    }
    Ok(())
}

/// Whether no row of the base table at a place refers to a lost value of another table's keys. A value that a row of that
/// table still has doesn't count.
fn references_free<S: Store>(
    store: &S,
    place: usize,
    base: &BaseTable,
    table: usize,
    lost: &[LostKey],
) -> Result<(), Fault>
    requires kept { place < length (S.content_now store.now) }
    requires wide { have_width (length base.now.columns) (table_at (S.content_now store.now) place).rows
        ≡ true }
    requires keys { refer_to_keys (S.key_columns store.now) base.now.references ≡ true }
    ensures meant { Meets result (demanded (list_all (free_by (S.key_columns store.now)
        (S.content_now store.now) table lost.now place) base.now.references) IntegrityConstraintViolation) }
    ensures right { IfErr result MayEnd }
{
    for reference in base.references.as_slice() {
        if is_to(reference, table) {
            reference_free(store, place, reference, lost)?;
        }
    }
    Ok(())
}

/// Whether a reference is to a table.
fn is_to(reference: &Reference, table: usize) -> bool
    ensures { result ≡ nat_eq reference.now.table table }
{
    reference.table == table
}

/// Whether by a reference no row of the table at a place refers to a lost value of a key. A value that a row still has
/// doesn't count.
fn reference_free<S: Store>(
    store: &S,
    place: usize,
    reference: &Reference,
    lost: &[LostKey],
) -> Result<(), Fault>
    requires kept { place < length (S.content_now store.now) }
    requires columns { list_all (λ r. has_columns reference.now.by_key r.row)
        (table_at (S.content_now store.now) place).rows ≡ true }
    requires key { refers_to_key (S.key_columns store.now) reference.now ≡ true }
    ensures meant { Meets result (demanded (list_all (is_free (S.key_columns store.now)
        (S.content_now store.now) place reference.now) lost.now) IntegrityConstraintViolation) }
    ensures right { IfErr result MayEnd }
{
    for lost_key in lost {
        is_free(store, place, reference, lost_key)?;
    }
    Ok(())
}

/// Whether values of this key are free of a reference: it is to another key, or no row at a place refers to them by it,
/// or a row still has them.
fn is_free<S: Store>(
    store: &S,
    place: usize,
    reference: &Reference,
    lost: &LostKey,
) -> Result<(), Fault>
    requires kept { place < length (S.content_now store.now) }
    requires columns { list_all (λ r. has_columns reference.now.by_key r.row)
        (table_at (S.content_now store.now) place).rows ≡ true }
    requires key { refers_to_key (S.key_columns store.now) reference.now ≡ true }
    ensures meant { Meets result (demanded (is_free (S.key_columns store.now)
        (S.content_now store.now) place reference.now lost.now) IntegrityConstraintViolation) }
    ensures right { IfErr result MayEnd }
{
    if lost.key != reference.key
        || !store.has_row(place, reference.by_key.as_slice(), &lost.values)
        || is_there_still(store, reference, &lost.values)
    {
        Ok(())
    } else {
        Err(Fault::Status(Failure::IntegrityConstraintViolation))
    }
}

/// Whether a row has these values in the key that a reference is to.
fn is_there_still<S: Store>(store: &S, reference: &Reference, values: &Key) -> bool
    requires { refers_to_key (S.key_columns store.now) reference.now ≡ true }
    ensures { result ≡ is_some (with_key (table_at (S.content_now store.now) reference.now.table)
        (key_at (S.key_columns store.now) reference.now.table reference.now.key) values.now) }
{
    store
        .find_key(reference.table, reference.key, values, &mut Meter::new())
        .is_some()
}
