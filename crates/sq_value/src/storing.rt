//! Storing a value in a domain.

ghost use Rattle.std.specs.Prelude.{◌≡◌, ◌≤◌, ◌≤ℤ◌, ◌<◌, ◌^◌, unsigned_abs, neg_ℤ, pos, IfOk, false};
ghost use Rattle.sq_value.specs.Domain.{IsDomain, FitsKind, IsInDomain, start_value};
ghost use Rattle.sq_value.specs.Memory.{takes_memory};
ghost use Rattle.sq_value.specs.Arithmetic.{truncated};
ghost use Rattle.sq_value.specs.Storing.{stored, fitted, kept_text, if_between, if_of_digits, IsStored};

use crate::decimal::Decimal;
use crate::domain::Domain;
use crate::fault::StoreFault;
use crate::text::Text;
use crate::value::Value;
use crate::wide::power_of_ten;
use std::alloc::{AllocError, Global};

/// The value as the domain holds it (ISO/IEC 9075:1992, 9.2, store assignment).
///
/// A number loses the digits past the domain's scale, and is out of range if it then has too many before its point. A
/// text that is too short for CHARACTER is padded with blanks; one that is too long is cut if only blanks go.
pub fn store(alloc: Global, value: &Value, domain: Domain) -> Result<Value, StoreFault>
    requires domain { IsDomain domain }
    requires kind { FitsKind domain value.now }
    ensures answer { IsStored result (stored domain value.now) }
    ensures in_domain { IfOk result (λ v. IsInDomain domain v) }
    ensures memory { takes_memory value.now ≡ false → result ≡ stored domain value.now }
{
    match value {
        Value::Null => Ok(Value::Null),
        Value::Num(number) => match fitted(*number, domain) {
            Some(number) => Ok(Value::Num(number)),
            None => Err(StoreFault::Range),
        },
        Value::Chars(text) => match kept(alloc, text, domain)? {
            Some(text) => Ok(Value::Chars(text)),
            None => Err(StoreFault::TooLong),
        },
    }
}

/// The value that a parameter of the domain gets if it is handed null: zero, blanks, or the empty text.
#[tactic(auto, using(crate::proofs::Powers::power_of_ten_ge))]
pub fn start_value(alloc: Global, domain: Domain) -> Result<Value, AllocError>
    requires { IsDomain domain }
    ensures value { IfOk result (λ v. v ≡ start_value domain) }
    ensures in_domain { IfOk result (λ v. IsInDomain domain v) }
    ensures memory { takes_memory (start_value domain) ≡ false → result ≡ Ok (start_value domain) }
{
    match domain {
        Domain::Small | Domain::Int => Ok(Value::Num(Decimal::new(0, 0))),
        Domain::Numeric(_, scale) => Ok(Value::Num(Decimal::new(0, scale))),
        Domain::Char(length) => Ok(Value::Chars(Text::blanks(alloc, length)?)),
        Domain::VarChar(_) => Ok(Value::Chars(Text::new(alloc, &[])?)),
    }
}

/// The number as a domain of numbers holds it, if it is in range.
pub(crate) fn fitted(number: Decimal, domain: Domain) -> Option<Decimal>
    requires { IsDomain domain }
    ensures { result ≡ fitted domain number }
{
    match domain {
        Domain::Small => if_between(number, -32768, 32767),
        Domain::Int => if_between(number, -2147483648, 2147483647),
        Domain::Numeric(precision, scale) => if_of_digits(number, precision, scale),
        _ => None,
    }
}

/// The number truncated to a whole one, if it is from `low` to `high`.
fn if_between(number: Decimal, low: i128, high: i128) -> Option<Decimal>
    requires low { unsigned_abs low < 10 ^ 18 }
    requires high { unsigned_abs high < 10 ^ 18 }
    ensures { result ≡ if_between low high (truncated 0 number) }
{
    let whole = number.truncated(0);
    if low <= whole && whole <= high {
        Some(Decimal::new(whole as i64, 0))
    } else {
        None
    }
}

/// The number truncated to a scale, if it then has at most `precision` digits.
fn if_of_digits(number: Decimal, precision: u8, scale: u8) -> Option<Decimal>
    requires precision { precision ≤ 18 }
    requires scale { scale ≤ 18 }
    ensures { result ≡ if_of_digits precision (truncated scale number) }
{
    let unscaled = number.truncated(scale);
    if unscaled.unsigned_abs() < power_of_ten(precision) as u128 {
        Some(Decimal::new(unscaled as i64, scale))
    } else {
        None
    }
}

/// The text as a domain of texts holds it, if only blanks are lost.
fn kept(alloc: Global, text: &Text, domain: Domain) -> Result<Option<Text>, AllocError>
    requires { IsDomain domain }
    ensures { IfOk result (λ t. t ≡ kept_text domain text.now) }
{
    match domain {
        Domain::Char(length) if text.has_only_blanks_past(length) => {
            Ok(Some(text.of_length(alloc, length)?))
        }
        Domain::VarChar(length) if text.has_only_blanks_past(length) => {
            Ok(Some(text.cut(alloc, length)?))
        }
        _ => Ok(None),
    }
}
