//! Arithmetic: null if an operand is null (ISO/IEC 9075:1992, 6.12).

ghost use Rattle.std.specs.Prelude.{◌+◌, ◌-◌, max};
ghost use Rattle.sq_meaning.specs.Expression.{number_outcome, with_places, with_sign};
ghost use Rattle.sq_value.specs.Arithmetic as number;
ghost use Rattle.sq_value.specs.declared.value.Value.TheVariants.{Num};
ghost use Rattle.sq_expression.specs.Arithmetic.{operation};
ghost use Rattle.sq_expression.specs.Fault.{Meets};

use crate::fault::Fault;
use sq_bound::Operator;
use sq_tree::Sign;
use sq_value::{ArithmeticFault, Decimal, Value};

/// The greatest scale of a number.
pub const GREATEST_SCALE: u8 = 18;

/// The result of an operator between two values.
pub(crate) fn calculated(operator: Operator, left: &Value, right: &Value) -> Result<Value, Fault>
    ensures { Meets result (operation operator left.now right.now) }
{
    match (left, right) {
        (Value::Num(left), Value::Num(right)) => { number(operator, *left, *right) }
        (Value::Null, Value::Null | Value::Num(_)) | (Value::Num(_), Value::Null) => {
            Ok(Value::Null)
        }
        _ => Err(Fault::NOT_WELL_FORMED),
    }
}

fn number(operator: Operator, left: Decimal, right: Decimal) -> Result<Value, Fault>
    ensures { Meets result (operation operator (Num left) (Num right)) }
{
    match operator {
        Operator::Plus => number_value(left.add(right)),
        Operator::Minus => number_value(left.sub(right)),
        Operator::Times => product(left, right),
        Operator::Over => quotient(left, right),
    }
}

fn product(left: Decimal, right: Decimal) -> Result<Value, Fault>
    ensures { Meets result
        (with_places (left.scale + right.scale) (number_outcome (number.multiplied left right))) }
{
    if left.scale() + right.scale() > GREATEST_SCALE {
        return Err(Fault::NOT_WELL_FORMED);
    }
    number_value(left.mul(right))
}

fn quotient(left: Decimal, right: Decimal) -> Result<Value, Fault>
    ensures { Meets result (with_places (max left.scale right.scale + right.scale - left.scale)
        (number_outcome (number.divided left right))) }
{
    let scale = left.scale().max(right.scale());
    if scale + right.scale() - left.scale() > GREATEST_SCALE {
        return Err(Fault::NOT_WELL_FORMED);
    }
    number_value(left.div(right))
}

/// The number, or the status of its fault.
pub fn number_value(number: Result<Decimal, ArithmeticFault>) -> Result<Value, Fault>
    ensures { Meets result (number_outcome number) }
{
    match number {
        Ok(number) => Ok(Value::Num(number)),
        Err(fault) => Err(Fault::from(fault)),
    }
}

/// The value with a sign before it.
pub(crate) fn signed(sign: Sign, value: &Value) -> Result<Value, Fault>
    ensures { Meets result (with_sign sign value.now) }
{
    match (sign, value) {
        (_, Value::Null) => Ok(Value::Null),
        (Sign::Plus, Value::Num(number)) => Ok(Value::Num(*number)),
        (Sign::Minus, Value::Num(number)) => Ok(Value::Num(number.neg())),
        (_, Value::Chars(_)) => Err(Fault::NOT_WELL_FORMED),
    }
}
