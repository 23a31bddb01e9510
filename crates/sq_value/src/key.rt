//! Keys: values by which rows are found.

ghost use Rattle.std.specs.Prelude.{◌≡◌, ◌<◌, length, slice_index_or, IfOk};
ghost use Rattle.sq_value.specs.declared.value.Value.TheVariants.{Null};
ghost use Rattle.std.specs.Cmp.{partial_equiv_from_equiv};
ghost use Rattle.std.specs.Cmp.Lexicographic.{pointwise, lists_equiv};
ghost use Rattle.std.specs.Hash as fed;
ghost use Rattle.sq_value.specs.Comparison.{is_same};
ghost use Rattle.sq_value.specs.Key.{in_columns, HasColumns, value_writes};

use crate::hashing::hash_value;
use crate::value::Value;
use smallvec::SmallVec;
use std::alloc::{AllocError, Global};
use std::hash::{Hash, Hasher};
use std::marker::Model;

/// The values of a key, two of them in place. Contracts see it as the list of its values.
///
/// Two keys are equal if they have one length and are the same in each place. Null is the same as null. Numbers of
/// one value are the same, whatever their scales, and so are texts that differ only in the blanks at their ends.
#[derive(Drop)]
pub struct Key {
    parts: SmallVec<Part, 2>,
}

impl Model for Key {
    ghost use Rattle.std.specs.Prelude.{List};
    ghost use Rattle.sq_value.specs.declared.value.Value.{Value as SqlValue};

    ghost Value = { List SqlValue };

    ghost view = { λ k. k.parts.items };
}

impl Key {
    /// A key of copies of these values.
    pub fn new(alloc: Global, values: &[Value]) -> Result<Key, AllocError>
        ensures { IfOk result (λ key. key ≡ values.now) }
    {
        let mut parts = SmallVec::new(alloc);
        for value in values {
            parts.push(Part::of(alloc, value)?)?;
        }
        Ok(Key { parts })
    }

    /// A key of copies of a row's values in these columns.
    pub fn of_columns(alloc: Global, row: &[Value], columns: &[usize]) -> Result<Key, AllocError>
        requires { HasColumns row.now columns.now }
        ensures { IfOk result (λ key. key ≡ in_columns row.now columns.now) }
    {
        let mut parts = SmallVec::new(alloc);
        for column in columns {
            parts.push(Part::of(alloc, &row[*column])?)?;
        }
        Ok(Key { parts })
    }

    /// Whether a row has this key in these columns.
    pub fn is_of(&self, row: &[Value], columns: &[usize]) -> bool
        requires { HasColumns row.now columns.now }
        ensures { result ≡ pointwise is_same self.now (in_columns row.now columns.now) }
    {
        are_in_columns(self.parts.as_slice(), row, columns)
    }
}

/// Whether the parts are, one by one, the same as a row's values in these columns.
fn are_in_columns(parts: &[Part], row: &[Value], columns: &[usize]) -> bool
    requires { HasColumns row.now columns.now }
    ensures { result ≡ pointwise is_same parts.now (in_columns row.now columns.now) }
{
    match (parts.split_first(), columns.split_first()) {
        (None, None) => true,
        (Some((part, parts)), Some((column, columns))) => {
            part.is_at(row, *column) && are_in_columns(parts, row, columns)
        }
        _ => false,
    }
}

impl PartialEq for Key {
    ghost use Rattle.sq_value.specs.laws.ValueOrder.{same_equiv};

    ghost eq = { pointwise is_same };

    ghost laws = { partial_equiv_from_equiv (lists_equiv same_equiv) };

    fn eq(&self, other: &Key) -> bool {
        self.parts.as_slice() == other.parts.as_slice()
    }
}

impl Eq for Key {
    ghost use Rattle.sq_value.specs.laws.ValueOrder.{same_equiv};

    ghost laws = { lists_equiv same_equiv };
}

impl Hash for Key {
    ghost use Rattle.sq_value.specs.laws.ValueOrder.{same_fed};
    ghost use Rattle.std.specs.Hash.{items_Alike};

    ghost hash_input = { λ key. fed.slice value_writes key };

    ghost respects_eq = { (items_Alike (record { fed = same_fed })).fed };

    fn hash<H: Hasher>(&self, state: &mut H) {
        self.parts.as_slice().hash(state);
    }
}

/// A value of a key.
#[derive(Drop)]
struct Part {
    value: Value,
}

impl Model for Part {
    ghost use Rattle.sq_value.specs.declared.value.Value.{Value as SqlValue};

    ghost Value = { SqlValue };

    ghost view = { λ p. p.value };
}

impl Part {
    fn of(alloc: Global, value: &Value) -> Result<Part, AllocError>
        ensures { IfOk result (λ part. part ≡ value.now) }
    {
        Ok(Part {
            value: value.copy(alloc)?,
        })
    }

    /// Whether it is the same as a row's value in a column.
    fn is_at(&self, row: &[Value], column: usize) -> bool
        requires { column < length row.now }
        ensures { result ≡ is_same self.now (slice_index_or row.now column Null) }
    {
        self.value.is_same(&row[column])
    }
}

/// The filler of places that hold no value yet.
impl Default for Part {
    fn default() -> Part {
        Part { value: Value::Null }
    }
}

impl PartialEq for Part {
    ghost use Rattle.sq_value.specs.laws.ValueOrder.{same_equiv};

    ghost eq = { is_same };

    ghost laws = { partial_equiv_from_equiv same_equiv };

    fn eq(&self, other: &Part) -> bool {
        self.value.is_same(&other.value)
    }
}

impl Eq for Part {
    ghost use Rattle.sq_value.specs.laws.ValueOrder.{same_equiv};

    ghost laws = { same_equiv };
}

impl Hash for Part {
    ghost use Rattle.sq_value.specs.laws.ValueOrder.{same_fed};

    ghost hash_input = { value_writes };

    ghost respects_eq = { same_fed };

    fn hash<H: Hasher>(&self, state: &mut H) {
        hash_value(&self.value, state);
    }
}
