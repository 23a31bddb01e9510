//! Set functions over the values of one expression.

ghost use Rattle.std.specs.Prelude.{◌≡◌, ◌≤◌, ◌<◌, ◌^◌, length, unsigned_abs, IfSome, IfOk, false};
ghost use Rattle.std.specs.Option.{option_copied, unwrap_or};
ghost use Rattle.sq_value.specs.Memory.{takes_memory};
ghost use Rattle.sq_value.specs.SetFunctions.{AreOfOneKind, numbers, total, summed, averaged, extreme, surpasses, first_unsurpassed, without_nulls};
ghost use Rattle.sq_value.specs.private.SetFunctions.{first_scale, is_number, unscaled_of, kept_best};

use crate::fault::ArithmeticFault;
use crate::value::Value;
use crate::wide::in_digits;
use std::alloc::{AllocError, Global};
use std::cmp::Ordering;

/// SUM of the values that are not null, or null if all are (ISO/IEC 9075:1992, 6.5).
///
/// The values are of one kind: numbers of one scale, for texts have no sum and give null. Only the sum itself is tested,
/// and `Range` comes if it has more than 18 digits. It is kept in 128 bits: the sum of 2 to the 64 numbers of at most 18
/// digits is below 2 to the 124.
#[tactic(auto, using(crate::proofs::Totals::numbers_steps))]
pub fn sum(values: &[Value]) -> Result<Value, ArithmeticFault>
    requires { AreOfOneKind values.now }
    ensures { result ≡ summed values.now }
{
    match first_scale(values) {
        None => Ok(Value::Null),
        Some(scale) => Ok(Value::Num(in_digits(total(values), scale)?)),
    }
}

/// AVG of the values that are not null, truncated toward zero at their scale, or null if all are (ISO/IEC
/// 9075:1992, 6.5).
///
/// The values are of one kind, as in `sum`. Only the mean itself is tested.
#[tactic(auto, using(crate::proofs::Totals::numbers_steps))]
pub fn avg(values: &[Value]) -> Result<Value, ArithmeticFault>
    requires { AreOfOneKind values.now }
    ensures { result ≡ averaged values.now }
{
    match first_scale(values) {
        None => Ok(Value::Null),
        Some(scale) => {
            let mean = total(values) / count_numbers(values) as i128;
            Ok(Value::Num(in_digits(mean, scale)?))
        }
    }
}

/// MIN of the values that are not null: the first of equal ones, or null if all are null (ISO/IEC 9075:1992, 6.5).
pub fn least(alloc: Global, values: &[Value]) -> Result<Value, AllocError>
    ensures value { IfOk result (λ v. v ≡ extreme Extreme.Least values.now) }
    ensures memory { let v = extreme Extreme.Least values.now in takes_memory v ≡ false → result ≡ Ok v }
{
    copy_of(alloc, best_of(Extreme::Least, values))
}

/// MAX of the values that are not null: the first of equal ones, or null if all are null (ISO/IEC 9075:1992, 6.5).
pub fn greatest(alloc: Global, values: &[Value]) -> Result<Value, AllocError>
    ensures value { IfOk result (λ v. v ≡ extreme Extreme.Greatest values.now) }
    ensures memory { let v = extreme Extreme.Greatest values.now in takes_memory v ≡ false → result ≡ Ok v }
{
    copy_of(alloc, best_of(Extreme::Greatest, values))
}

/// Which end of an order.
#[derive(Clone, Copy)]
pub enum Extreme {
    Least,
    Greatest,
}

impl Extreme {
    /// Whether the first value goes before the second one.
    fn surpasses(self, value: &Value, other: &Value) -> bool
        ensures { result ≡ surpasses self value.now other.now }
    {
        match self {
            Extreme::Least => value.order(other) == Ordering::Less,
            Extreme::Greatest => other.order(value) == Ordering::Less,
        }
    }
}

/// A copy of the value, or null.
fn copy_of(alloc: Global, value: Option<&Value>) -> Result<Value, AllocError>
    ensures value { IfOk result (λ v. v ≡ unwrap_or (option_copied value.entry) Value.Null) }
    ensures memory { let v = unwrap_or (option_copied value.entry) Value.Null in takes_memory v ≡ false
        → result ≡ Ok v }
{
    match value {
        Some(value) => value.copy(alloc),
        None => Ok(Value::Null),
    }
}

/// The first value that is not null and that no other surpasses.
#[tactic(auto, using(crate::proofs::Extremes::extremes))]
fn best_of(extreme: Extreme, values: &[Value]) -> Option<&Value>
    ensures { option_copied result ≡ first_unsurpassed extreme (without_nulls values.now) }
{
    let mut best = None;
    for value in values {
        best = kept_best(extreme, best, value);
    }
    best
}

fn kept_best<'a>(extreme: Extreme, best: Option<&'a Value>, value: &'a Value) -> Option<&'a Value>
    ensures { option_copied result ≡ kept_best extreme (option_copied best.entry) value.now }
{
    if matches!(value, Value::Null) {
        return best;
    }
    match best {
        Some(best) if !extreme.surpasses(value, best) => Some(best),
        _ => Some(value),
    }
}

/// The sum of the unscaled values.
#[tactic(auto, using(crate::proofs::Totals::totals))]
fn total(values: &[Value]) -> i128
    ensures { result ≡ total (numbers values.now) }
{
    let mut total: i128 = 0;
    for value in values {
        total += unscaled_of(value) as i128;
    }
    total
}

fn unscaled_of(value: &Value) -> i64
    ensures value { result ≡ unscaled_of value.now }
    ensures digits { unsigned_abs result < 10 ^ 18 }
{
    match value {
        Value::Num(number) => number.unscaled(),
        _ => 0,
    }
}

#[tactic(auto, using(crate::proofs::Totals::numbers_steps))]
fn count_numbers(values: &[Value]) -> usize
    ensures { result ≡ length (numbers values.now) }
{
    values.iter().filter(|value| is_number(value)).count()
}

fn is_number(value: &Value) -> bool
    ensures { result ≡ is_number value.now }
{
    matches!(value, Value::Num(_))
}

/// The scale of the first number, if there is one.
#[tactic(auto, using(crate::proofs::Totals::numbers_steps))]
fn first_scale(values: &[Value]) -> Option<u8>
    ensures scale { result ≡ first_scale (numbers values.now) }
    ensures places { IfSome result (λ scale. scale ≤ 18) }
{
    for value in values {
        if let Value::Num(number) = value {
            return Some(number.scale());
        }
    }
    None
}
