//! Values of an insert statement's query that its columns can't store (ISO/IEC 9075:1992, 9.2 and 13.8).

ghost use Rattle.std.specs.Prelude.{IfOk, IfSome};
ghost use Rattle.sq_cause.specs.QueryValue.{IsFaultInRow, IsFaultInRows, IsFaultOfValue};

use crate::cause::{Given, ItemFault, ValueCause, ValueFault};
use crate::value::unfit_status;
use sq_bound::ObjectColumn;
use sq_value::{Row, Value};
use std::alloc::{AllocError, Global};

/// The first value of a query's rows that its column of the base table at a place can't store.
pub(crate) fn fault_in_rows(
    alloc: Global,
    table: usize,
    columns: &[ObjectColumn],
    rows: &[Row],
) -> Result<Option<ValueCause>, AllocError>
    ensures { IfOk result (λ found. IfSome found (IsFaultInRows table columns.now rows.now)) }
{
    for (place, row) in rows.iter().enumerate() {
        if let Some(found) = fault_in_row(alloc, columns, row.as_slice())? {
            return Ok(Some(ValueCause {
                table,
                column: found.column,
                item: found.item,
                given: Given::InQuery(place),
                fault: found.fault,
            }));
        }
    }
    Ok(None)
}

/// The first value of a row that its column can't store.
fn fault_in_row(
    alloc: Global,
    columns: &[ObjectColumn],
    row: &[Value],
) -> Result<Option<ItemFault>, AllocError>
    ensures { IfOk result (λ found. IfSome found (IsFaultInRow columns.now row.now)) }
{
    for (item, value) in row.iter().enumerate() {
        if let Some(found) = fault_of_value(alloc, columns, item, value)? {
            return Ok(Some(found));
        }
    }
    Ok(None)
}

/// What is wrong with a value for the column at its place.
fn fault_of_value(
    alloc: Global,
    columns: &[ObjectColumn],
    item: usize,
    value: &Value,
) -> Result<Option<ItemFault>, AllocError>
    ensures { IfOk result (λ found. IfSome found (IsFaultOfValue columns.now item value.now)) }
{
    if item >= columns.len() {
        return Ok(None);
    }
    let column = columns[item];
    match unfit_status(alloc, column.domain, value)? {
        Some(status) => Ok(Some(ItemFault {
            item,
            column: column.position,
            fault: ValueFault::Unfit(status),
        })),
        None => Ok(None),
    }
}
