//! What is done to a store in a trial.

use sq_store::Change;
use sq_value::{Decimal, Row, Value};
use std::alloc::{AllocError, Global};

/// A change of a table of two INTEGER columns.
#[derive(Clone, Copy)]
pub(crate) enum Step {
    Nothing,
    Insert(u32, u32),
    Replace(u64, u32, u32),
    Remove(u64),
}

/// A call that changes a store.
#[derive(Clone, Copy)]
pub(crate) enum Action {
    Apply([Step; 3]),
    /// Makes changes and takes them back.
    Attempt([Step; 3]),
    Commit,
    Rollback,
}

/// A number of scale 0.
pub(crate) fn number(value: u32) -> Value {
    Value::Num(Decimal::new(value as i64, 0))
}

/// A row of numbers.
pub(crate) fn row_of(alloc: Global, values: &[u32]) -> Result<Row, AllocError> {
    let mut row = Row::new(alloc);
    for value in values {
        row.push(number(*value))?;
    }
    Ok(row)
}

/// The changes that the steps stand for.
pub(crate) fn changes_of(alloc: Global, steps: [Step; 3]) -> Result<Vec<Change>, AllocError> {
    let mut changes = Vec::new(alloc);
    for step in steps {
        match step {
            Step::Nothing => {}
            Step::Insert(first, second) => {
                changes.push(Change::Insert(row_of(alloc, &[first, second])?))?
            }
            Step::Replace(at, first, second) => {
                changes.push(Change::Replace(at, row_of(alloc, &[first, second])?))?
            }
            Step::Remove(at) => changes.push(Change::Remove(at))?,
        }
    }
    Ok(changes)
}
