//! What a call changed in a base table.

use sq_bound::{Column, TableDesc};
use sq_perform::write_value;
use sq_store::Numbered;
use sq_value::Value;
use std::alloc::{AllocError, Global};
use std::io::Write;

/// Adds the name of a table: its owner, a point, and its own.
pub(crate) fn push_table_name(table: &TableDesc, notes: &mut Vec<u8>) -> Result<(), AllocError> {
    notes.extend_from_slice(table.user.codes())?;
    notes.push(b'.')?;
    notes.extend_from_slice(table.name.codes())
}

/// Adds a line for each row that is gone, for each column of a row that has another value, and for each row that is new. Both lists are
/// by rising numbers.
pub(crate) fn push_changes(
    alloc: Global,
    table: &TableDesc,
    before: &[Numbered],
    now: &[Numbered],
    notes: &mut Vec<u8>,
) -> Result<(), AllocError> {
    for row in before {
        match row_under(now, row.number) {
            Some(new) => push_changed(alloc, table, row, new, notes)?,
            None => push_row(alloc, table, row, b" is gone:", notes)?,
        }
    }
    push_new_rows(alloc, table, before, now, notes)
}

/// Adds a line for each row whose number was not there before.
fn push_new_rows(
    alloc: Global,
    table: &TableDesc,
    before: &[Numbered],
    now: &[Numbered],
    notes: &mut Vec<u8>,
) -> Result<(), AllocError> {
    for row in now {
        if row_under(before, row.number).is_none() {
            push_row(alloc, table, row, b" is new:", notes)?;
        }
    }
    Ok(())
}

/// The row under a number, among rows by rising numbers.
pub(crate) fn row_under(rows: &[Numbered], number: u64) -> Option<&Numbered> {
    match rows.binary_search_by_key(&number, |row| row.number) {
        Ok(at) => rows.get(at),
        Err(_) => None,
    }
}

/// Adds the start of a line about a row.
fn push_start(table: &TableDesc, number: u64, notes: &mut Vec<u8>) -> Result<(), AllocError> {
    push_table_name(table, notes)?;
    write!(notes, " row {number}").map_err(|_| AllocError)
}

/// Adds a line about a row with all its values.
fn push_row(
    alloc: Global,
    table: &TableDesc,
    row: &Numbered,
    what: &[u8],
    notes: &mut Vec<u8>,
) -> Result<(), AllocError> {
    push_start(table, row.number, notes)?;
    notes.extend_from_slice(what)?;
    push_values(alloc, table.columns.as_slice(), row.row.as_slice(), notes)?;
    notes.extend_from_slice(b"\n")
}

/// Adds the values of a row, each behind its column's name.
fn push_values(
    alloc: Global,
    columns: &[Column],
    values: &[Value],
    notes: &mut Vec<u8>,
) -> Result<(), AllocError> {
    for (column, value) in columns.iter().zip(values) {
        notes.push(b' ')?;
        notes.extend_from_slice(column.name.codes())?;
        notes.push(b'=')?;
        write_value(alloc, value, notes)?;
    }
    Ok(())
}

/// Adds a line for each column of a row that has another value.
fn push_changed(
    alloc: Global,
    table: &TableDesc,
    old: &Numbered,
    new: &Numbered,
    notes: &mut Vec<u8>,
) -> Result<(), AllocError> {
    let pairs = old.row.as_slice().iter().zip(new.row.as_slice());
    for (place, (was, is)) in pairs.enumerate() {
        if are_equal(was, is) {
            continue;
        }
        if let Some(column) = table.columns.as_slice().get(place) {
            push_start(table, old.number, notes)?;
            push_change(alloc, column, was, is, notes)?;
        }
    }
    Ok(())
}

/// Adds the rest of a line about a column: its name, the value before, and the value now.
fn push_change(
    alloc: Global,
    column: &Column,
    was: &Value,
    is: &Value,
    notes: &mut Vec<u8>,
) -> Result<(), AllocError> {
    notes.extend_from_slice(b": ")?;
    notes.extend_from_slice(column.name.codes())?;
    notes.push(b' ')?;
    write_value(alloc, was, notes)?;
    notes.extend_from_slice(b" -> ")?;
    write_value(alloc, is, notes)?;
    notes.extend_from_slice(b"\n")
}

/// Whether two rows have the same values.
pub(crate) fn are_equal_rows(old: &[Value], new: &[Value]) -> bool {
    old.len() == new.len() && old.iter().zip(new).all(|(was, is)| are_equal(was, is))
}

/// Whether two values are written alike.
pub(crate) fn are_equal(old: &Value, new: &Value) -> bool {
    match (old, new) {
        (Value::Null, Value::Null) => true,
        (Value::Num(old), Value::Num(new)) => {
            old.unscaled() == new.unscaled() && old.scale() == new.scale()
        }
        (Value::Chars(old), Value::Chars(new)) => old.codes() == new.codes(),
        _ => false,
    }
}
