//! References between tables after a change (ISO/IEC 9075:1992, 11.8).

ghost use Rattle.std.specs.Prelude.{◌≡◌, ◌&&◌, ◌++◌, true, length, flat_map, IfErr, IfOk, OnOk};
ghost use Rattle.sq_store.specs.Change.{rows_put};
ghost use Rattle.sq_store.specs.Content.{table_at};
ghost use Rattle.sq_meaning.specs.declared.status.Status.TheVariants.{IntegrityConstraintViolation};
ghost use Rattle.sq_meaning.specs.Constraints.{demanded};
ghost use Rattle.sq_bound.specs.Fits.{IsBase, holds, keys_of_bases};
ghost use Rattle.sq_expression.specs.Fault.{Meets};
ghost use Rattle.sq_query.specs.MayRead.{MayEnd};
ghost use Rattle.sq_change.specs.Changed.{are_wide};
ghost use Rattle.sq_change.specs.Lost.{DecidesReferences, are_free};
ghost use Rattle.sq_change.specs.Reference.{are_of_keys, are_rows_there, is_of_key, is_row_there, refer_to_keys, referred, referred_by};

use crate::lost::{LostKey, all_free, lost_by};
use crate::row::{row_put, values_in};
use crate::setting::Setting;
use sq_bound::{BaseTable, Names};
use sq_expression::{Failure, Fault};
use sq_store::{Change, Meter, Store};
use sq_value::{Key, Row};

/// A row that has to exist: the row with these values in a key of a table.
#[derive(Drop)]
pub(crate) struct Referenced {
    table: usize,
    key: usize,
    values: Key,
}

/// The rows and values that decide whether references hold after changes of a table. They are the rows to which the rows
/// put in it refer, and the values of keys that rows of it may have lost.
#[derive(Drop)]
pub(crate) struct Asked {
    referenced: Vec<Referenced>,
    lost: Vec<LostKey>,
}

/// The rows and values to ask for after changes of a table, by which rows may lose their values in these keys.
pub(crate) fn asked_by<N: Names, S: Store>(
    setting: &Setting<'_, N, S>,
    table: &BaseTable,
    changes: &[Change],
    lost_keys: &[usize],
) -> Result<Asked, Fault>
    requires tables { holds (N.base_tables setting.now.names.now) (S.content_now setting.now.store.now)
        ≡ true }
    requires base { IsBase (N.base_tables setting.now.names.now) table.now }
    requires keys { refer_to_keys (S.key_columns setting.now.store.now) table.now.references ≡ true }
    requires wide { are_wide (length table.now.columns) (rows_put changes.now) ≡ true }
    ensures decides { IfOk result (DecidesReferences (N.base_tables setting.now.names.now)
        (S.key_columns setting.now.store.now) table.now
        (table_at (S.content_now setting.now.store.now) table.now.place) changes.now lost_keys.now) }
    ensures memory { IfErr result (λ fault. fault ≡ Fault.NoMemory) }
    ensures right { IfErr result MayEnd }
{
    let referenced = referenced_by(setting, table, changes)?;
    match lost_by(setting, table, changes, lost_keys) {
        Ok(lost) => Ok(Asked { referenced, lost }),
        Err(fault) => {
            drop(referenced);
            Err(fault)
        }
    }
}

/// The rows that are referred to by the rows put in a table.
pub(crate) fn referenced_by<N: Names, S: Store>(
    setting: &Setting<'_, N, S>,
    table: &BaseTable,
    changes: &[Change],
) -> Result<Vec<Referenced>, Fault>
    requires keys { refer_to_keys (S.key_columns setting.now.store.now) table.now.references ≡ true }
    requires wide { are_wide (length table.now.columns) (rows_put changes.now) ≡ true }
    ensures known { IfOk result
        (λ referenced. are_of_keys (S.key_columns setting.now.store.now) referenced.items ≡ true) }
    ensures list { IfOk result
        (λ referenced. referenced.items ≡ referred_by table.now.references (rows_put changes.now)) }
    ensures memory { IfErr result (λ fault. fault ≡ Fault.NoMemory) }
    ensures right { IfErr result MayEnd }
{
    let mut referenced = Vec::new(setting.alloc);
    for change in changes {
        if let Some(row) = row_put(change) {
            push_referenced(setting, &mut referenced, table, row)?;
        }
    }
    Ok(referenced)
}

/// Adds the rows to which a row of a table refers.
fn push_referenced<N: Names, S: Store>(
    setting: &Setting<'_, N, S>,
    referenced: &mut Vec<Referenced>,
    table: &BaseTable,
    row: &Row,
) -> Result<(), Fault>
    requires keys { refer_to_keys (S.key_columns setting.now.store.now) table.now.references ≡ true }
    requires wide { length row.now ≡ length table.now.columns }
    requires known { are_of_keys (S.key_columns setting.now.store.now) referenced.old.items ≡ true }
    ensures known { OnOk result
        (are_of_keys (S.key_columns setting.now.store.now) referenced.new.items ≡ true) }
    ensures list { OnOk result
        (referenced.new.items ≡ referenced.old.items ++ flat_map (referred row.now) table.now.references) }
    ensures memory { IfErr result (λ fault. fault ≡ Fault.NoMemory) }
    ensures right { IfErr result MayEnd }
{
    for reference in table.references.as_slice() {
        if let Some(values) = values_in(setting.alloc, row, reference.by_key.as_slice())? {
            referenced.push(Referenced {
                table: reference.table,
                key: reference.key,
                values,
            })?;
        }
    }
    Ok(())
}

/// Whether references hold after changes of a table. It asks for the references of the rows that were put in it, and for
/// the references to its lost key values.
pub(crate) fn references_satisfied<N: Names, S: Store>(
    names: &N,
    store: &S,
    table: usize,
    asked: &Asked,
) -> Result<(), Fault>
    requires tables { holds (N.base_tables names.now) (S.content_now store.now) ≡ true }
    requires keys { S.key_columns store.now ≡ keys_of_bases (N.base_tables names.now) }
    requires known { are_of_keys (S.key_columns store.now) asked.now.referenced.items ≡ true }
    ensures meant { Meets result
        (demanded (are_rows_there (S.key_columns store.now) (S.content_now store.now)
        asked.now.referenced.items
        && are_free (N.base_tables names.now) (S.content_now store.now) table asked.now.lost.items)
        IntegrityConstraintViolation) }
    ensures right { IfErr result MayEnd }
{
    all_there(store, asked.referenced.as_slice())?;
    all_free(names, store, table, asked.lost.as_slice())
}

/// Whether all these rows exist.
fn all_there<S: Store>(store: &S, referenced: &[Referenced]) -> Result<(), Fault>
    requires { are_of_keys (S.key_columns store.now) referenced.now ≡ true }
    ensures meant { Meets result (demanded (are_rows_there (S.key_columns store.now)
        (S.content_now store.now) referenced.now) IntegrityConstraintViolation) }
    ensures right { IfErr result MayEnd }
{
    for row in referenced {
        is_there(store, row)?;
    }
    Ok(())
}

/// Whether such a row exists.
fn is_there<S: Store>(store: &S, referenced: &Referenced) -> Result<(), Fault>
    requires { is_of_key (S.key_columns store.now) referenced.now ≡ true }
    ensures meant { Meets result (demanded (is_row_there (S.key_columns store.now)
        (S.content_now store.now) referenced.now) IntegrityConstraintViolation) }
    ensures right { IfErr result MayEnd }
{
    let Referenced { table, key, values } = referenced;
    match store.find_key(*table, *key, values, &mut Meter::new()) {
        Some(_) => Ok(()),
        None => Err(Fault::Status(Failure::IntegrityConstraintViolation)),
    }
}
