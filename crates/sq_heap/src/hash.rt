//! The hashes of keys, and whether rows have the same key. Keys that are the same have one hash.

ghost use Rattle.std.specs.Prelude.{◌≡◌, slice_index_or, IfOk};
ghost use Rattle.sq_value.specs.Comparison.{is_same};
ghost use Rattle.sq_value.specs.Key.{in_columns};
ghost use Rattle.sq_value.specs.declared.value.Value.TheVariants.{Null};
ghost use Rattle.sq_heap.specs.Alone.{same_key};
ghost use Rattle.sq_heap.specs.Index.{hash_of};

use sq_value::{Key, Value, hash_columns};
use std::alloc::{AllocError, Global};
use std::hash::{FoldHasher, Hash, Hasher};

/// The hash of a row's values in these columns.
pub(crate) fn hash_of_row(row: &[Value], columns: &[usize]) -> u64
    ensures { result ≡ hash_of (in_columns row.now columns.now) }
{
    let mut hasher = FoldHasher::default();
    hash_columns(row, columns, &mut hasher);
    hasher.finish()
}

/// The hash of a key.
pub(crate) fn hash_of_key(key: &Key) -> u64
    ensures { result ≡ hash_of key.now }
{
    let mut hasher = FoldHasher::default();
    key.hash(&mut hasher);
    hasher.finish()
}

/// The hash of a key with these values.
pub(crate) fn hash_of_values(alloc: Global, values: &[Value]) -> Result<u64, AllocError>
    ensures { IfOk result (λ hash. hash ≡ hash_of values.now) }
{
    let key = Key::new(alloc, values)?;
    Ok(hash_of_key(&key))
}

/// Whether two rows have the same values in these columns. A column that a row lacks counts as null.
pub(crate) fn have_same_key(row: &[Value], other: &[Value], columns: &[usize]) -> bool
    ensures { result ≡ same_key columns.now row.now other.now }
{
    for column in columns {
        if !are_same_in(row, other, *column) {
            return false;
        }
    }
    true
}

/// Whether two rows have the same value in a column.
fn are_same_in(row: &[Value], other: &[Value], column: usize) -> bool
    ensures { result ≡ is_same (slice_index_or row.now column Null) (slice_index_or other.now column Null) }
{
    match (row.get(column), other.get(column)) {
        (Some(value), Some(other)) => value.is_same(other),
        (Some(value), None) => value.is_same(&Value::Null),
        (None, Some(other)) => Value::Null.is_same(other),
        (None, None) => true,
    }
}
