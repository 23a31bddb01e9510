//! Numbers that are handed in.

ghost use Rattle.std.specs.Prelude.{◌≡◌};
ghost use Rattle.sq_exchange.specs.Number as spec;

use crate::answer::Answer;
use sq_value::{Decimal, Value};

/// The least that has more than 18 digits.
const NO_NUMBER: u64 = 1_000_000_000_000_000_000;

/// Makes the number with these digits, of which so many are after the point.
pub fn number_value(unscaled: i64, scale: u32) -> Result<Value, Answer>
    ensures { result ≡ spec.number_value unscaled scale }
{
    if NO_NUMBER <= unscaled.unsigned_abs() || 18 < scale {
        return Err(Answer::BadValue);
    }
    Ok(Value::Num(Decimal::new(unscaled, scale as u8)))
}

/// Reads the number that a text spells. It has a sign or none, and digits with at most one point. White space
/// around it is left out.
pub fn spelled_value(text: &[u8]) -> Result<Value, Answer>
    ensures { spec.IsSpelled text.now result }
{
    signed_value(text.trim_ascii())
}

fn signed_value(text: &[u8]) -> Result<Value, Answer>
    ensures { result ≡ spec.signed_value text.now }
{
    match text {
        [b'-', digits @ ..] => match Decimal::read(digits) {
            Ok(number) => Ok(Value::Num(number.neg())),
            Err(_) => Err(Answer::BadValue),
        },
        [b'+', digits @ ..] => unsigned_value(digits),
        _ => unsigned_value(text),
    }
}

fn unsigned_value(digits: &[u8]) -> Result<Value, Answer>
    ensures { result ≡ spec.unsigned_value digits.now }
{
    match Decimal::read(digits) {
        Ok(number) => Ok(Value::Num(number)),
        Err(_) => Err(Answer::BadValue),
    }
}
