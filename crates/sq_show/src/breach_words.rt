//! A constraint that would not hold, in words.

use crate::value_words::write_value;
use sq_bound::{BaseTable, Names, TableBody, TableDesc, TablePlace};
use sq_cause::{Breach, Referring, RowPut};
use sq_session::Session;
use sq_store::{Meter, Store};
use sq_value::Row;
use std::alloc::{AllocError, Global};
use std::io::Write;

/// Adds the words of a constraint that would not hold of the table at a place.
pub(crate) fn write_breach<S: Store>(
    alloc: Global,
    session: &Session<S>,
    place: usize,
    breach: Breach,
    words: &mut Vec<u8>,
) -> Result<(), AllocError> {
    match session.catalog().at(TablePlace::Base(place)) {
        Some(table) => write_breach_of(alloc, session, place, table, breach, words),
        None => words.extend_from_slice(b"a constraint would not hold"),
    }
}

fn write_breach_of<S: Store>(
    alloc: Global,
    session: &Session<S>,
    place: usize,
    table: &TableDesc,
    breach: Breach,
    words: &mut Vec<u8>,
) -> Result<(), AllocError> {
    match breach {
        Breach::NotNull(put, column) => write_not_null(table, put, column, words),
        Breach::Check(put, check) => write_check(table, put, check, words),
        Breach::KeyOfRow(put, key, number) => {
            write_key_of_row(alloc, session, place, table, put, key, number, words)
        }
        Breach::KeyOfPut(put, key, other) => write_key_of_put(table, put, key, other, words),
        Breach::RefersToNone(put, reference) => {
            write_reference(session, table, reference, words)?;
            words.extend_from_slice(b": ")?;
            write_put(put, words)?;
            words.extend_from_slice(b" refers to no row")
        }
        Breach::IsReferredTo(referring) => write_referring(session, referring, words),
    }
}

/// `NOT NULL (A) of U1.T: new row 1 has null`
fn write_not_null(
    table: &TableDesc,
    put: RowPut,
    column: usize,
    words: &mut Vec<u8>,
) -> Result<(), AllocError> {
    words.extend_from_slice(b"NOT NULL (")?;
    write_column(table, column, words)?;
    words.extend_from_slice(b") of ")?;
    write_table(table, words)?;
    words.extend_from_slice(b": ")?;
    write_put(put, words)?;
    words.extend_from_slice(b" has null")
}

/// `CHECK 2 of U1.T: it is false of row 3`
fn write_check(
    table: &TableDesc,
    put: RowPut,
    check: usize,
    words: &mut Vec<u8>,
) -> Result<(), AllocError> {
    write!(words, "CHECK {} of ", after(check)).map_err(|_| AllocError)?;
    write_table(table, words)?;
    words.extend_from_slice(b": it is false of ")?;
    write_put(put, words)
}

/// `PRIMARY KEY (K) of U1.T: row 1 has K = 1 already`
fn write_key_of_row<S: Store>(
    alloc: Global,
    session: &Session<S>,
    place: usize,
    table: &TableDesc,
    put: RowPut,
    key: usize,
    number: u64,
    words: &mut Vec<u8>,
) -> Result<(), AllocError> {
    write_key(table, key, words)?;
    words.extend_from_slice(b": ")?;
    if let Some(changed) = put.number {
        write!(words, "row {changed} would be as row {number}, which").map_err(|_| AllocError)?;
    } else {
        write!(words, "row {number}").map_err(|_| AllocError)?;
    }
    write_values(alloc, session, place, table, key, number, words)?;
    words.extend_from_slice(b" already")
}

/// The values of a row of the table in a key.
fn write_values<S: Store>(
    alloc: Global,
    session: &Session<S>,
    place: usize,
    table: &TableDesc,
    key: usize,
    number: u64,
    words: &mut Vec<u8>,
) -> Result<(), AllocError> {
    let inside = session.inside();
    if place >= inside.store.table_count() {
        return Ok(());
    }
    match (
        inside.store.row(place, number, &mut Meter::new()),
        columns_of_key(table, key),
    ) {
        (Some(row), Some(columns)) => write_columns_of_row(alloc, table, row, columns, words),
        _ => words.extend_from_slice(b" has the same values"),
    }
}

fn write_columns_of_row(
    alloc: Global,
    table: &TableDesc,
    row: &Row,
    columns: &[usize],
    words: &mut Vec<u8>,
) -> Result<(), AllocError> {
    let mut between: &[u8] = b" has ";
    for column in columns {
        words.extend_from_slice(between)?;
        write_column(table, *column, words)?;
        words.extend_from_slice(b" = ")?;
        if let Some(value) = row.as_slice().get(*column) {
            write_value(alloc, value, words)?;
        }
        between = b", ";
    }
    Ok(())
}

/// `UNIQUE (A, B) of U1.T: new rows 1 and 2 have the same values`
fn write_key_of_put(
    table: &TableDesc,
    put: RowPut,
    key: usize,
    other: RowPut,
    words: &mut Vec<u8>,
) -> Result<(), AllocError> {
    write_key(table, key, words)?;
    words.extend_from_slice(b": ")?;
    write_put(put, words)?;
    words.extend_from_slice(b" and ")?;
    write_put(other, words)?;
    words.extend_from_slice(b" would have the same values")
}

/// `reference (D) of U1.E to U1.T: row 4 of U1.E would refer to no row`
fn write_referring<S: Store>(
    session: &Session<S>,
    referring: Referring,
    words: &mut Vec<u8>,
) -> Result<(), AllocError> {
    let Some(table) = session.catalog().at(TablePlace::Base(referring.table)) else {
        return words.extend_from_slice(b"a row would refer to no row");
    };
    write_reference(session, table, referring.reference, words)?;
    write!(words, ": row {} of ", referring.number).map_err(|_| AllocError)?;
    write_table(table, words)?;
    words.extend_from_slice(b" would refer to no row")
}

/// `PRIMARY KEY (K) of U1.T`
fn write_key(table: &TableDesc, key: usize, words: &mut Vec<u8>) -> Result<(), AllocError> {
    if is_primary(table, key) {
        words.extend_from_slice(b"PRIMARY KEY ")?;
    } else {
        words.extend_from_slice(b"UNIQUE ")?;
    }
    if let Some(columns) = columns_of_key(table, key) {
        write_columns(table, columns, words)?;
    }
    words.extend_from_slice(b" of ")?;
    write_table(table, words)
}

/// `reference (D) of U1.E to U1.T`
fn write_reference<S: Store>(
    session: &Session<S>,
    table: &TableDesc,
    reference: usize,
    words: &mut Vec<u8>,
) -> Result<(), AllocError> {
    let Some(base) = base_of(table) else {
        return Ok(());
    };
    let Some(reference) = base.references.as_slice().get(reference) else {
        return Ok(());
    };
    words.extend_from_slice(b"reference ")?;
    write_columns(table, reference.columns.as_slice(), words)?;
    words.extend_from_slice(b" of ")?;
    write_table(table, words)?;
    write_referenced(session, reference.table, words)
}

fn write_referenced<S: Store>(
    session: &Session<S>,
    place: usize,
    words: &mut Vec<u8>,
) -> Result<(), AllocError> {
    match session.catalog().at(TablePlace::Base(place)) {
        Some(table) => {
            words.extend_from_slice(b" to ")?;
            write_table(table, words)
        }
        None => Ok(()),
    }
}

fn base_of(table: &TableDesc) -> Option<&BaseTable> {
    match &table.body {
        TableBody::Base(base) => Some(base.get()),
        TableBody::View(_) => None,
    }
}

fn is_primary(table: &TableDesc, key: usize) -> bool {
    match base_of(table) {
        Some(base) => base.primary_key == Some(key),
        None => false,
    }
}

fn columns_of_key(table: &TableDesc, key: usize) -> Option<&[usize]> {
    let columns = base_of(table)?.keys.as_slice().get(key)?;
    Some(columns.as_slice())
}

/// `(A, B)`
fn write_columns(
    table: &TableDesc,
    columns: &[usize],
    words: &mut Vec<u8>,
) -> Result<(), AllocError> {
    let mut between: &[u8] = b"(";
    for column in columns {
        words.extend_from_slice(between)?;
        write_column(table, *column, words)?;
        between = b", ";
    }
    words.extend_from_slice(b")")
}

fn write_column(table: &TableDesc, column: usize, words: &mut Vec<u8>) -> Result<(), AllocError> {
    match table.columns.as_slice().get(column) {
        Some(column) => words.extend_from_slice(column.name.codes()),
        None => Ok(()),
    }
}

/// `A of U1.T`
pub(crate) fn write_column_of(
    table: &TableDesc,
    column: usize,
    words: &mut Vec<u8>,
) -> Result<(), AllocError> {
    write_column(table, column, words)?;
    words.extend_from_slice(b" of ")?;
    write_table(table, words)
}

/// `U1.T`
pub(crate) fn write_table(table: &TableDesc, words: &mut Vec<u8>) -> Result<(), AllocError> {
    words.extend_from_slice(table.user.codes())?;
    words.push(b'.')?;
    words.extend_from_slice(table.name.codes())
}

/// `row 3` or `new row 1`
pub(crate) fn write_put(put: RowPut, words: &mut Vec<u8>) -> Result<(), AllocError> {
    match put.number {
        Some(number) => write!(words, "row {number}").map_err(|_| AllocError),
        None => write!(words, "new row {}", after(put.place)).map_err(|_| AllocError),
    }
}

/// Places are counted from 0, and told from 1.
fn after(place: usize) -> usize {
    place.saturating_add(1)
}
