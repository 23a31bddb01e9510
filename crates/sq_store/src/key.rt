//! Rows by their keys.

ghost use Rattle.std.specs.Prelude.{◌≡◌, ◌∷◌, ◌++◌, [], if◌then◌else◌, IfOk, OnOk, filter, find, slice_index_or, true};
ghost use Rattle.std.specs.List.{list_all, list_any};
ghost use Rattle.std.specs.Cmp.Lexicographic.{pointwise};
ghost use Rattle.std.specs.Option.{option_copied};
ghost use Rattle.sq_value.specs.Comparison.{is_same};
ghost use Rattle.sq_value.specs.Key.{in_columns};
ghost use Rattle.sq_value.specs.declared.value.Value.TheVariants.{Null};
ghost use Rattle.sq_store.specs.Found.{has_one_of, numbered_in};
ghost use Rattle.sq_store.specs.Keys.{are_distinct, has_columns, has_key, have_keys};

use crate::table::Numbered;
use sq_items::Items;
use sq_value::{Key, Row, Value};
use std::alloc::{AllocError, Global};

/// The first row with these values in the columns of a key.
pub(crate) fn first_with<'a>(
    rows: &'a [Numbered],
    columns: &[usize],
    values: &Key,
) -> Option<&'a Numbered>
    requires { list_all (λ r. has_columns columns.now r.row) rows.now ≡ true }
    ensures { option_copied result ≡ find (has_key columns.now values.now) rows.now }
{
    for row in rows {
        if values.is_of(row.row.as_slice(), columns) {
            return Some(row);
        }
    }
    None
}

/// The rows with one of several lists of values in these columns.
pub(crate) fn all_with<'a>(
    alloc: Global,
    rows: &'a [Numbered],
    columns: &[usize],
    several: &[Row],
) -> Result<Vec<(u64, &'a Row)>, AllocError>
    ensures { IfOk result
        (λ found. numbered_in found ≡ filter (has_one_of columns.now several.now) rows.now) }
{
    let mut found = Vec::new(alloc);
    for row in rows {
        push_if(
            has_one_of(row.row.as_slice(), columns, several),
            row,
            &mut found,
        )?;
    }
    Ok(found)
}

/// Adds a row with its number, if it is wanted.
fn push_if<'a>(
    wanted: bool,
    row: &'a Numbered,
    found: &mut Vec<(u64, &'a Row)>,
) -> Result<(), AllocError>
    ensures { OnOk result (numbered_in found.new
        ≡ (if wanted then numbered_in found.old ++ row.now ∷ [] else numbered_in found.old)) }
{
    if wanted {
        found.push((row.number, &row.row))?;
    }
    Ok(())
}

/// Whether a row has one of several lists of values in these columns.
fn has_one_of(row: &[Value], columns: &[usize], several: &[Row]) -> bool
    ensures { result
        ≡ list_any (λ values. pointwise is_same values (in_columns row.now columns.now)) several.now }
{
    several
        .iter()
        .any(|values| has_values(row, columns, values.as_slice()))
}

/// Whether a row has these values in these columns. Null is the same as null, and a column that the row lacks is null.
pub fn has_values(row: &[Value], columns: &[usize], values: &[Value]) -> bool
    ensures { result ≡ pointwise is_same values.now (in_columns row.now columns.now) }
{
    match (values.split_first(), columns.split_first()) {
        (None, None) => true,
        (Some((value, values)), Some((column, columns))) => {
            is_at(row, *column, value) && has_values(row, columns, values)
        }
        _ => false,
    }
}

/// Whether a row has a value in a column.
fn is_at(row: &[Value], column: usize, value: &Value) -> bool
    ensures { result ≡ is_same value.now (slice_index_or row.now column Null) }
{
    match row.get(column) {
        Some(own) => value.is_same(own),
        None => value.is_same(&Value::Null),
    }
}

/// Whether no two rows have the same values in the columns of a key.
fn rows_are_distinct(rows: &[Numbered], columns: &[usize]) -> bool
    requires { list_all (λ r. has_columns columns.now r.row) rows.now ≡ true }
    ensures { result ≡ are_distinct columns.now rows.now }
{
    for (place, row) in rows.iter().enumerate() {
        if is_among(row.row.as_slice(), &rows[place + 1..], columns) {
            return false;
        }
    }
    true
}

/// Whether no two rows have the same values in the columns of one of the keys.
pub(crate) fn keys_are_distinct(rows: &[Numbered], keys: &[Items<usize>]) -> bool
    requires { have_keys keys.now rows.now ≡ true }
    ensures { result ≡ list_all (λ columns. are_distinct columns rows.now) keys.now }
{
    for columns in keys {
        if !rows_are_distinct(rows, columns.as_slice()) {
            return false;
        }
    }
    true
}

/// Whether one of the rows has the same values in the columns of a key as this row.
fn is_among(row: &[Value], rows: &[Numbered], columns: &[usize]) -> bool
    requires row { has_columns columns.now row.now ≡ true }
    requires rows { list_all (λ r. has_columns columns.now r.row) rows.now ≡ true }
    ensures { result ≡ list_any (has_key columns.now (in_columns row.now columns.now)) rows.now }
{
    for other in rows {
        if are_same(row, other.row.as_slice(), columns) {
            return true;
        }
    }
    false
}

/// Whether two rows have the same values in the columns of a key.
pub fn are_same(row: &[Value], other: &[Value], columns: &[usize]) -> bool
    requires row { has_columns columns.now row.now ≡ true }
    requires other { has_columns columns.now other.now ≡ true }
    ensures { result ≡ pointwise is_same (in_columns row.now columns.now) (in_columns other.now columns.now) }
{
    for column in columns {
        if !row[*column].is_same(&other[*column]) {
            return false;
        }
    }
    true
}
