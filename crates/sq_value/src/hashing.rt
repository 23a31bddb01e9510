//! Hashing values as the key of them is hashed.

ghost use Rattle.std.specs.Prelude.{◌≡◌};
ghost use Rattle.std.specs.Hash as fed;
ghost use Rattle.std.specs.List.{fold, flat_map};
ghost use Rattle.sq_value.specs.Key.{in_columns, value_writes};

use crate::value::Value;
use std::hash::{Hash, Hasher};

/// Feeds a hasher a row's values in these columns, just as `Key` feeds it a key of copies of them. A column that the row
/// lacks counts as null.
pub fn hash_columns<H: Hasher>(row: &[Value], columns: &[usize], state: &mut H)
    ensures { state.new ≡ fold H.write state.old (fed.slice value_writes (in_columns row.now columns.now)) }
{
    state.write_usize(columns.len());
    for column in columns {
        match row.get(*column) {
            Some(value) => hash_value(value, state),
            None => state.write_u8(0),
        }
    }
}

/// Feeds a hasher a value. Values that are the same are fed alike.
pub(crate) fn hash_value<H: Hasher>(value: &Value, state: &mut H)
    ensures { state.new ≡ fold H.write state.old (value_writes value.now) }
{
    match value {
        Value::Null => state.write_u8(0),
        Value::Num(number) => {
            state.write_u8(1);
            number.at_18().hash(state);
        }
        Value::Chars(text) => {
            state.write_u8(2);
            text.without_blanks().hash(state);
        }
    }
}
