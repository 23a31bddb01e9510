//! The rows of a base table that have one of some values in a column, or null: by an index of the store if it has one, or in a walk over all
//! rows.

ghost use Rattle.std.specs.Prelude.{◌≡◌, ◌<◌, ◌∷◌, ◌++◌, [], if◌then◌else◌, IfOk, IfSome, OnOk, length, map};
ghost use Rattle.std.specs.List.{list_any};
ghost use Rattle.sq_value.specs.Comparison.{is_same};
ghost use Rattle.sq_value.specs.SetFunctions.{is_null};
ghost use Rattle.sq_value.specs.declared.value.Value.TheVariants.{Null};
ghost use Rattle.sq_expression.specs.Frame.{lent};
ghost use Rattle.sq_query.specs.Table.{numbered_in, numbered_row};
ghost use Rattle.sq_query.specs.Valued.{HasRowsWithOne, may_have_one, null_or_one, rows_with_one};

use crate::several::without_numbers;
use sq_expression::BaseRows;
use sq_store::{Meter, Store};
use sq_value::{Row, Value, copy_row};
use std::alloc::{AllocError, Global};
use std::slice::from_ref;

/// The rows of a base table that have one of some values in a column, or null.
pub(crate) fn rows_with_one<'a, S: Store>(
    alloc: Global,
    store: &'a S,
    base: usize,
    column: usize,
    values: &[Value],
    meter: &mut Meter,
) -> Result<BaseRows<'a>, AllocError>
    requires { base < length (S.content_now store.now) }
    ensures { IfOk result (HasRowsWithOne (S.content_now store.now) base column values.now) }
{
    match rows_by_index(alloc, store, base, column, values, meter)? {
        Some(found) => Ok(found),
        None => rows_by_walk(alloc, store, base, column, values, meter),
    }
}

/// Those rows, if the store has a quick way to them.
pub(crate) fn rows_by_index<'a, S: Store>(
    alloc: Global,
    store: &'a S,
    base: usize,
    column: usize,
    values: &[Value],
    meter: &mut Meter,
) -> Result<Option<BaseRows<'a>>, AllocError>
    requires { base < length (S.content_now store.now) }
    ensures { IfOk result (λ found. IfSome found
        (HasRowsWithOne (S.content_now store.now) base column values.now)) }
{
    match looked_up(alloc, store, base, column, values, meter)? {
        Some(found) => Ok(Some(base_rows(alloc, base, found.as_slice())?)),
        None => Ok(None),
    }
}

/// Those rows with their numbers, if the store has a quick way to them.
fn looked_up<'a, S: Store>(
    alloc: Global,
    store: &'a S,
    base: usize,
    column: usize,
    values: &[Value],
    meter: &mut Meter,
) -> Result<Option<Vec<(u64, &'a Row)>>, AllocError>
    requires { base < length (S.content_now store.now) }
    ensures { IfOk result (λ found. IfSome found (λ rows. map (λ r. r.row) (numbered_in rows)
        ≡ rows_with_one (S.content_now store.now) base column values.now)) }
{
    let several = null_or_one(alloc, values)?;
    let found = store.find_rows(alloc, base, from_ref(&column), several.as_slice(), meter);
    drop(several);
    found
}

/// Null and some values, each as a list of its own.
fn null_or_one(alloc: Global, values: &[Value]) -> Result<Vec<Row>, AllocError>
    ensures { IfOk result (λ several. several.items ≡ null_or_one values.now) }
{
    let mut several = each_alone(alloc, values)?;
    several.insert(0, copy_row(alloc, &[Value::Null])?)?;
    Ok(several)
}

/// Some values, each as a list of its own.
fn each_alone(alloc: Global, values: &[Value]) -> Result<Vec<Row>, AllocError>
    ensures { IfOk result (λ several. several.items ≡ map (λ v. v ∷ []) values.now) }
{
    let mut several = Vec::new(alloc);
    for value in values {
        several.push(copy_row(alloc, from_ref(value))?)?;
    }
    Ok(several)
}

/// Rows of a base table, without their numbers.
fn base_rows<'a>(
    alloc: Global,
    base: usize,
    found: &[(u64, &'a Row)],
) -> Result<BaseRows<'a>, AllocError>
    ensures place { IfOk result (λ own. own.place ≡ base) }
    ensures rows { IfOk result
        (λ own. lent own.rows.items ≡ map (λ r. r.row) (map numbered_row found.now)) }
{
    let rows = without_numbers(alloc, found)?;
    Ok(BaseRows { place: base, rows })
}

/// Those rows, in a walk over all rows.
pub(crate) fn rows_by_walk<'a, S: Store>(
    alloc: Global,
    store: &'a S,
    base: usize,
    column: usize,
    values: &[Value],
    meter: &mut Meter,
) -> Result<BaseRows<'a>, AllocError>
    requires { base < length (S.content_now store.now) }
    ensures { IfOk result (HasRowsWithOne (S.content_now store.now) base column values.now) }
{
    let mut rows = Vec::new(alloc);
    let mut number = 0;
    while let Some((found, row)) = store.next_from(base, number, meter) {
        push_if(may_have_one(row.as_slice(), column, values), row, &mut rows)?;
        number = found + 1;
    }
    Ok(BaseRows { place: base, rows })
}

/// Adds a row that isn't passed over.
fn push_if<'a>(stays: bool, row: &'a Row, rows: &mut Vec<&'a Row>) -> Result<(), AllocError>
    ensures { OnOk result
        (rows.new.items ≡ (if stays then rows.old.items ++ row.entry ∷ [] else rows.old.items)) }
{
    if stays {
        rows.push(row)?;
    }
    Ok(())
}

/// Whether a row has one of the values in the column, or null.
fn may_have_one(row: &[Value], column: usize, values: &[Value]) -> bool
    ensures { result ≡ may_have_one column values.now row.now }
{
    match row.get(column) {
        Some(own) => is_null(own) || is_one_of(own, values),
        None => true,
    }
}

/// Whether a value is the same as one of some.
fn is_one_of(own: &Value, values: &[Value]) -> bool
    ensures { result ≡ list_any (λ v. is_same v own.now) values.now }
{
    values.iter().any(|value| value.is_same(own))
}

fn is_null(value: &Value) -> bool
    ensures { result ≡ is_null value.now }
{
    match value {
        Value::Null => true,
        Value::Num(_) | Value::Chars(_) => false,
    }
}
