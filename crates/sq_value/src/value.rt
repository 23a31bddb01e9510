//! Values and rows of them.

ghost use Rattle.std.specs.Prelude.{◌≡◌, IfOk, false};

use crate::decimal::Decimal;
use crate::text::Text;
use sq_items::Items;
use std::alloc::{AllocError, Global};

/// A value of a column, a parameter or an expression.
#[derive(Debug, Drop)]
pub enum Value {
    Null,
    Num(Decimal),
    Chars(Text),
}

/// The values of a row, in the order of its columns.
pub type Row = Items<Value>;

impl Value {
    ghost use Rattle.sq_value.specs.Memory.{takes_memory};

    /// A value equal to this one.
    pub fn copy(&self, alloc: Global) -> Result<Value, AllocError>
        ensures value { IfOk result (λ copy. copy ≡ self.now) }
        ensures memory { takes_memory self.now ≡ false → result ≡ Ok self.now }
    {
        match self {
            Value::Null => Ok(Value::Null),
            Value::Num(number) => Ok(Value::Num(*number)),
            Value::Chars(text) => Ok(Value::Chars(text.copy(alloc)?)),
        }
    }
}

/// A row of copies of these values.
pub fn copy_row(alloc: Global, row: &[Value]) -> Result<Row, AllocError>
    ensures { IfOk result (λ copy. copy ≡ row.now) }
{
    let mut copy = Items::from_vec(Vec::with_capacity(alloc, row.len())?);
    for value in row {
        copy.push(value.copy(alloc)?)?;
    }
    Ok(copy)
}
