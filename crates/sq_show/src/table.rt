//! A table with a heading and columns that line up.

use crate::changes::push_table_name;
use sq_bound::{Column, TableDesc};
use sq_perform::write_value;
use sq_store::Numbered;
use sq_value::{Kind, Value};
use std::alloc::{AllocError, Global};
use std::io::Write;

/// The heading of the column of row numbers.
const ROW: &[u8] = b"row";

/// Adds a table's name, a heading, and its rows, each with its number.
pub(crate) fn push_table(
    alloc: Global,
    table: &TableDesc,
    rows: &[Numbered],
    notes: &mut Vec<u8>,
) -> Result<(), AllocError> {
    push_table_name(table, notes)?;
    notes.extend_from_slice(b"\n")?;
    let columns = table.columns.as_slice();
    let layout = Layout::of(alloc, columns, rows)?;
    let ended = push_rows(alloc, columns, &layout, rows, notes);
    drop(layout);
    ended
}

/// How wide the columns are.
#[derive(Drop)]
struct Layout {
    row: usize,
    columns: Vec<usize>,
}

impl Layout {
    fn of(alloc: Global, columns: &[Column], rows: &[Numbered]) -> Result<Layout, AllocError> {
        let row = width_of_numbers(alloc, rows)?;
        Ok(Layout {
            row,
            columns: widths_of(alloc, columns, rows)?,
        })
    }

    fn width(&self, place: usize) -> usize {
        self.columns.get(place).copied().unwrap_or(0)
    }
}

/// How wide the numbers of rows are, and their heading.
fn width_of_numbers(alloc: Global, rows: &[Numbered]) -> Result<usize, AllocError> {
    match rows.last() {
        Some(row) => {
            let number = number_cell(alloc, row.number)?;
            Ok(number.len().max(ROW.len()))
        }
        None => Ok(ROW.len()),
    }
}

fn widths_of(
    alloc: Global,
    columns: &[Column],
    rows: &[Numbered],
) -> Result<Vec<usize>, AllocError> {
    let mut widths = Vec::new(alloc);
    for (place, column) in columns.iter().enumerate() {
        let width = width_of(alloc, column, place, rows)?;
        widths.push(width)?;
    }
    Ok(widths)
}

/// How wide a column is: as the widest of its name and its values.
fn width_of(
    alloc: Global,
    column: &Column,
    place: usize,
    rows: &[Numbered],
) -> Result<usize, AllocError> {
    let mut width = column.name.codes().len();
    for row in rows {
        if let Some(value) = row.row.as_slice().get(place) {
            let cell = value_cell(alloc, value)?;
            width = width.max(cell.len());
        }
    }
    Ok(width)
}

pub(crate) fn number_cell(alloc: Global, number: u64) -> Result<Vec<u8>, AllocError> {
    let mut cell = Vec::new(alloc);
    match write!(cell, "{number}") {
        Ok(()) => Ok(cell),
        Err(_) => {
            drop(cell);
            Err(AllocError)
        }
    }
}

pub(crate) fn value_cell(alloc: Global, value: &Value) -> Result<Vec<u8>, AllocError> {
    let mut cell = Vec::new(alloc);
    match write_value(alloc, value, &mut cell) {
        Ok(()) => Ok(cell),
        Err(error) => {
            drop(cell);
            Err(error)
        }
    }
}

fn push_rows(
    alloc: Global,
    columns: &[Column],
    layout: &Layout,
    rows: &[Numbered],
    notes: &mut Vec<u8>,
) -> Result<(), AllocError> {
    push_heading(columns, layout, notes)?;
    for row in rows {
        push_number(alloc, row.number, layout.row, notes)?;
        push_values(alloc, columns, layout, row.row.as_slice(), notes)?;
        notes.extend_from_slice(b"\n")?;
    }
    Ok(())
}

fn push_heading(
    columns: &[Column],
    layout: &Layout,
    notes: &mut Vec<u8>,
) -> Result<(), AllocError> {
    push_right(ROW, layout.row, notes)?;
    for (place, column) in columns.iter().enumerate() {
        let is_last = columns.len().saturating_sub(place) == 1;
        push_cell(
            column,
            column.name.codes(),
            layout.width(place),
            is_last,
            notes,
        )?;
    }
    notes.extend_from_slice(b"\n")
}

fn push_number(
    alloc: Global,
    number: u64,
    width: usize,
    notes: &mut Vec<u8>,
) -> Result<(), AllocError> {
    let cell = number_cell(alloc, number)?;
    push_right(cell.as_slice(), width, notes)
}

/// Adds the values of a row, each in its column.
fn push_values(
    alloc: Global,
    columns: &[Column],
    layout: &Layout,
    values: &[Value],
    notes: &mut Vec<u8>,
) -> Result<(), AllocError> {
    for (place, (column, value)) in columns.iter().zip(values).enumerate() {
        let is_last = columns.len().saturating_sub(place) == 1;
        let cell = value_cell(alloc, value)?;
        push_cell(column, cell.as_slice(), layout.width(place), is_last, notes)?;
    }
    Ok(())
}

/// Adds a cell behind two blanks: numbers to the right of their column, texts to the left. No blanks stand behind the last one.
fn push_cell(
    column: &Column,
    cell: &[u8],
    width: usize,
    is_last: bool,
    notes: &mut Vec<u8>,
) -> Result<(), AllocError> {
    notes.extend_from_slice(b"  ")?;
    if is_number(column.kind) {
        return push_right(cell, width, notes);
    }
    notes.extend_from_slice(cell)?;
    if is_last {
        return Ok(());
    }
    push_blanks(width.saturating_sub(cell.len()), notes)
}

fn is_number(kind: Kind) -> bool {
    match kind {
        Kind::Num(_) => true,
        Kind::Chars(_) | Kind::Vary(_) => false,
    }
}

/// Adds a cell to the right of its column.
fn push_right(cell: &[u8], width: usize, notes: &mut Vec<u8>) -> Result<(), AllocError> {
    push_blanks(width.saturating_sub(cell.len()), notes)?;
    notes.extend_from_slice(cell)
}

fn push_blanks(count: usize, notes: &mut Vec<u8>) -> Result<(), AllocError> {
    for _ in 0..count {
        notes.push(b' ')?;
    }
    Ok(())
}
