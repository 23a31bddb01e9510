//! Values of set clauses that an UPDATE can't give its columns (ISO/IEC 9075:1992, 9.2, 13.9 and 13.10).

ghost use Rattle.std.specs.Prelude.{◌<◌, IfOk, IfSome, length, map};
ghost use Rattle.sq_bound.specs.Fits.{under};
ghost use Rattle.sq_catalog.specs.Catalog.{column_kinds};
ghost use Rattle.sq_change.specs.Made.{seen_by};
ghost use Rattle.sq_change.specs.Statement.{CanUpdate, KeepsTables};
ghost use Rattle.sq_store.specs.Content.{table_at};
ghost use Rattle.sq_cause.specs.SetValue.{IsFaultOfRows, IsFaultOnRow, IsFaultUnder, IsSetFault};

use crate::cause::{Given, ItemFault, ValueCause};
use crate::value::value_fault;
use sq_bound::{BoundAssignment, BoundUpdate};
use sq_catalog::Catalog;
use sq_change::{Setting, leaf_under, rows_changed};
use sq_expression::Fault;
use sq_store::{Meter, Store};
use sq_value::Row;
use std::alloc::AllocError;

/// The first value of a set clause that can't be given, row by row.
pub(crate) fn set_fault<S: Store>(
    setting: &Setting<'_, Catalog, S>,
    update: &BoundUpdate,
    on: Option<u64>,
) -> Result<Option<ValueCause>, AllocError>
    requires can { CanUpdate setting.now.names.now.bases setting.now.names.now.views
        (column_kinds setting.now.names.now) (S.content_now setting.now.store.now) setting.now.user
        setting.now.parameters.now update.now on }
    requires kept { KeepsTables setting.now.names.now.bases (S.content_now setting.now.store.now)
        (S.key_columns setting.now.store.now) }
    ensures { IfOk result (λ found. IfSome found (IsSetFault
        (seen_by setting.now.names.now.views (S.content_now setting.now.store.now) setting.now.user
        setting.now.parameters.now) update.now on)) }
{
    match rows_changed(setting, &update.target, on, &mut Meter::new()) {
        Ok(rows) => {
            let found = fault_of_rows(setting, update, rows.as_slice());
            drop(rows);
            found
        }
        Err(Fault::Status(_)) => Ok(None),
        Err(Fault::NoMemory) => Err(AllocError),
    }
}

/// The first value that can't be given, of these rows.
fn fault_of_rows<S: Store>(
    setting: &Setting<'_, Catalog, S>,
    update: &BoundUpdate,
    rows: &[(u64, &Row)],
) -> Result<Option<ValueCause>, AllocError>
    ensures { IfOk result (λ found. IfSome found (IsFaultOfRows
        (table_at (S.content_now setting.now.store.now) (under update.now.target).table.place) update.now
        setting.now.parameters.now setting.now.user (map (λ found. found.0) rows.now))) }
{
    let table = leaf_under(&update.target).table.get().place;
    if table >= setting.store.table_count() {
        return Ok(None);
    }
    for (number, _) in rows {
        if let Some(found) = fault_under(setting, update, table, *number)? {
            return Ok(Some(ValueCause {
                table,
                column: found.column,
                item: found.item,
                given: Given::InSet(*number),
                fault: found.fault,
            }));
        }
    }
    Ok(None)
}

/// The first value that can't be given to the row under a number.
fn fault_under<S: Store>(
    setting: &Setting<'_, Catalog, S>,
    update: &BoundUpdate,
    table: usize,
    number: u64,
) -> Result<Option<ItemFault>, AllocError>
    requires { table < length (S.content_now setting.now.store.now) }
    ensures { IfOk result (λ found. IfSome found (IsFaultUnder (table_at (S.content_now setting.now.store.now) table)
        number update.now.assignments setting.now.parameters.now setting.now.user)) }
{
    match setting.store.row(table, number, &mut Meter::new()) {
        Some(row) => fault_on_row(setting, update.assignments.as_slice(), row),
        None => Ok(None),
    }
}

/// The first value of set clauses that can't be given to a row.
fn fault_on_row<S: Store>(
    setting: &Setting<'_, Catalog, S>,
    assignments: &[BoundAssignment],
    row: &Row,
) -> Result<Option<ItemFault>, AllocError>
    ensures { IfOk result (λ found. IfSome found
        (IsFaultOnRow assignments.now row.now setting.now.parameters.now setting.now.user)) }
{
    for (item, assignment) in assignments.iter().enumerate() {
        let column = assignment.column;
        if let Some(fault) = value_fault(setting, column.domain, &assignment.value, Some(row))? {
            return Ok(Some(ItemFault {
                item,
                column: column.position,
                fault,
            }));
        }
    }
    Ok(None)
}
