//! The rows of the benchmark's table.

use sq_value::{Decimal, Key, Row, Value};
use std::alloc::{AllocError, Global};

/// The columns of each key of the one table: `count` keys of one column each.
pub(crate) fn keys(alloc: Global, count: usize) -> Result<Vec<Vec<Vec<usize>>>, AllocError> {
    let mut keys = Vec::new(alloc);
    for column in 0..count.min(2) {
        keys.push(Vec::from_slice(alloc, &[column])?)?;
    }
    let mut tables = Vec::new(alloc);
    tables.push(keys)?;
    Ok(tables)
}

/// A number of scale 0.
fn number(value: u32) -> Value {
    Value::Num(Decimal::new(value as i64, 0))
}

/// A row of two columns with one number.
pub(crate) fn row(alloc: Global, value: u32) -> Result<Row, AllocError> {
    let mut values = Vec::with_capacity(alloc, 2)?;
    values.push(number(value))?;
    values.push(number(value))?;
    Ok(Row::from_vec(values))
}

/// The key of a row by its first column.
pub(crate) fn key(alloc: Global, value: u32) -> Result<Key, AllocError> {
    Key::new(alloc, &[number(value)])
}
