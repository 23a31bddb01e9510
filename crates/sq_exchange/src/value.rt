//! Values that come out, and texts that are handed in.

ghost use Rattle.std.specs.Prelude.{◌≡◌, Ok, Err, IfErr, IfOk};
ghost use Rattle.sq_value.specs.Spelling.{written};
ghost use Rattle.sq_exchange.specs.Answer.{IsWhy};
ghost use Rattle.sq_exchange.specs.Value as spec;
ghost use Rattle.sq_exchange.specs.declared.answer.Answer.TheVariants.{NoMemory};

use crate::answer::Answer;
use sq_value::{Decimal, Text, Value};
use std::alloc::Global;

/// The text with these bytes.
pub fn text_value(alloc: Global, bytes: &[u8]) -> Result<Value, Answer>
    ensures value { IfOk result (spec.IsText bytes.now) }
    ensures refused { IfErr result (spec.IsNoText bytes.now) }
{
    if !Text::is_text(bytes) {
        return Err(Answer::BadValue);
    }
    match Text::new(alloc, bytes) {
        Ok(text) => Ok(Value::Chars(text)),
        Err(_) => Err(Answer::NoMemory),
    }
}

/// 0 for null, 1 for a number, 2 for a text.
pub fn kind_of(value: &Value) -> i32
    ensures { result ≡ spec.kind_of value.now }
{
    match value {
        Value::Null => 0,
        Value::Num(_) => 1,
        Value::Chars(_) => 2,
    }
}

/// A value that is a number.
pub fn number_of(value: &Value) -> Result<Decimal, Answer>
    ensures { result ≡ spec.number_of value.now }
{
    match value {
        Value::Null => Err(Answer::IsNull),
        Value::Num(number) => Ok(*number),
        Value::Chars(_) => Err(Answer::OtherKind),
    }
}

/// The digits of a value that is a number.
pub fn digits_of(alloc: Global, value: &Value) -> Result<Vec<u8>, Answer>
    ensures digits { IfOk result (λ digits. spec.digits_of value.now ≡ Ok digits.items) }
    ensures refused { IfErr result (spec.HasNoDigits value.now) }
    ensures why { IfErr result (IsWhy (spec.digits_of value.now)) }
{
    match value {
        Value::Null => Err(Answer::IsNull),
        Value::Num(number) => write_digits(alloc, *number),
        Value::Chars(_) => Err(Answer::OtherKind),
    }
}

fn write_digits(alloc: Global, number: Decimal) -> Result<Vec<u8>, Answer>
    ensures digits { IfOk result (λ digits. digits.items ≡ written number) }
    ensures refused { IfErr result (λ answer. answer ≡ NoMemory) }
{
    match number.write(alloc) {
        Ok(digits) => Ok(digits),
        Err(_) => Err(Answer::NoMemory),
    }
}

/// The codes of a value that is a text.
pub fn text_of(value: &Value) -> Result<&[u8], Answer>
    ensures codes { IfOk result (λ codes. spec.text_of value.now ≡ Ok codes.now) }
    ensures refused { IfErr result (λ answer. spec.text_of value.now ≡ Err answer) }
{
    match value {
        Value::Null => Err(Answer::IsNull),
        Value::Num(_) => Err(Answer::OtherKind),
        Value::Chars(text) => Ok(text.codes()),
    }
}
