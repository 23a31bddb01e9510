//! What a store shows of its content.

use crate::action::{number, row_of};
use sq_store::{Meter, Store};
use sq_value::{Key, Row, Value};
use std::alloc::{AllocError, Global};
use std::io;

/// The greatest number that is asked for.
const MOST: u64 = 12;

/// The number in a column; 0 where it has none.
fn column(row: &Row, place: usize) -> i64 {
    match row.as_slice().get(place) {
        Some(Value::Num(number)) => number.unscaled(),
        _ => 0,
    }
}

/// For each row its number and two columns, and then how many numbers are left.
pub(crate) fn content_of<S: Store>(alloc: Global, store: &S) -> Result<Vec<i64>, AllocError> {
    let mut content = Vec::new(alloc);
    if store.table_count() == 0 {
        return Ok(content);
    }
    let mut meter = Meter::new();
    for at in 1..=MOST {
        if let Some(row) = store.row(0, at, &mut meter) {
            content.push(at as i64)?;
            content.push(column(row, 0))?;
            content.push(column(row, 1))?;
        }
    }
    content.push(store.numbers_left(0) as i64)?;
    Ok(content)
}

/// For each number, the number of the first row from there on, as far as there is one.
fn numbers_of<S: Store>(
    alloc: Global,
    store: &S,
    meter: &mut Meter,
) -> Result<Vec<u64>, AllocError> {
    let mut numbers = Vec::new(alloc);
    if store.table_count() == 0 {
        return Ok(numbers);
    }
    for at in 1..=MOST {
        if let Some((next, _)) = store.next_from(0, at, meter) {
            numbers.push(next)?;
        }
    }
    Ok(numbers)
}

/// The numbers of the rows with 10, 11 or 30 in the second column, as the store answers at once; 0 where it does not.
fn looked_up<S: Store>(
    alloc: Global,
    store: &S,
    meter: &mut Meter,
) -> Result<Vec<u64>, AllocError> {
    let mut numbers = Vec::new(alloc);
    if store.table_count() == 0 {
        return Ok(numbers);
    }
    let several = several(alloc)?;
    match store.find_rows(alloc, 0, &[1], several.as_slice(), meter)? {
        Some(rows) => {
            for (at, _) in rows {
                numbers.push(at)?;
            }
        }
        None => numbers.push(0)?,
    }
    Ok(numbers)
}

/// The lists of values that are looked up.
fn several(alloc: Global) -> Result<Vec<Row>, AllocError> {
    let mut several = Vec::new(alloc);
    for value in [10, 11, 30] {
        several.push(row_of(alloc, &[value])?)?;
    }
    Ok(several)
}

/// Which rows a store finds: the first number from each number on, the number under which the first key
/// finds each value, the one under which the second key finds each row, and the rows that are looked up.
pub(crate) fn found_in<S: Store>(alloc: Global, store: &S) -> Result<Vec<u64>, AllocError> {
    let mut meter = Meter::new();
    let mut numbers = numbers_of(alloc, store, &mut meter)?;
    for value in 1..=9 {
        numbers.push(found(alloc, store, value, &mut meter)?.unwrap_or(0))?;
    }
    for at in 1..=MOST {
        numbers.push(found_again(alloc, store, at, &mut meter)?)?;
    }
    numbers.extend_from_slice(looked_up(alloc, store, &mut meter)?.as_slice())?;
    Ok(numbers)
}

/// Prints the rows, the first number from each number on, where the first key finds each value, the rows that
/// are looked up, and how many rows were handed out for that.
pub(crate) fn show<S: Store>(rt: &impl Print, alloc: Global, store: &S) -> io::Result<()> {
    let mut meter = Meter::new();
    println!(rt; "  content {:?}", content_of(alloc, store)?)?;
    println!(rt; "  from {:?}", numbers_of(alloc, store, &mut meter)?)?;
    for value in 1..=9 {
        if let Some(at) = found(alloc, store, value, &mut meter)? {
            println!(rt; "  key {value}: {at}")?;
        }
    }
    println!(rt;
        "  with 10, 11 or 30 {:?}",
        looked_up(alloc, store, &mut meter)?
    )?;
    println!(rt; "  handed out {}", meter.count())
}

/// The number of the row whose first key is a number.
fn found<S: Store>(
    alloc: Global,
    store: &S,
    value: u32,
    meter: &mut Meter,
) -> Result<Option<u64>, AllocError> {
    let values = [number(value)];
    let key = Key::new(alloc, &values)?;
    if store.table_count() == 0 || store.keys(0).is_empty() {
        return Ok(None);
    }
    match store.find_key(0, 0, &key, meter) {
        Some((at, _)) => Ok(Some(at)),
        None => Ok(None),
    }
}

/// The number under which the second key finds a row again; 0 where it finds none.
fn found_again<S: Store>(
    alloc: Global,
    store: &S,
    at: u64,
    meter: &mut Meter,
) -> Result<u64, AllocError> {
    if store.table_count() == 0 || store.keys(0).len() < 2 {
        return Ok(0);
    }
    let Some(row) = store.row(0, at, meter) else {
        return Ok(0);
    };
    let key = Key::new(alloc, row.as_slice())?;
    match store.find_key(0, 1, &key, meter) {
        Some((again, _)) => Ok(again),
        None => Ok(0),
    }
}
