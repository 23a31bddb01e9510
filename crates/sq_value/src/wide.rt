//! Numbers of 128 bits between the operands of an operation and its result.
//!
//! An unscaled value is below ten to the 18, and it is multiplied by at most that. So every product is below ten to the
//! 36, which is below two to the 120.

ghost use Rattle.std.specs.Prelude.{◌≡◌, ◌≤◌, ◌<◌, ◌^◌, ◌*ℤ◌, pos, int_div, unsigned_abs};
ghost use Rattle.sq_value.specs.Arithmetic.{in_range};
ghost use Rattle.sq_value.specs.Number.{Number};

use crate::decimal::Decimal;
use crate::fault::ArithmeticFault;

/// Ten to the power of `exponent`.
#[tactic(auto, using(crate::proofs::Powers::powers))]
pub fn power_of_ten(exponent: u8) -> u64
    requires { exponent ≤ 18 }
    ensures value { result ≡ 10 ^ exponent }
    ensures least { 1 ≤ result }
    ensures bound { result ≤ 10 ^ 18 }
{
    10u64.pow(exponent as u32)
}

/// The unscaled value times ten to the power of `exponent`.
pub fn raised(unscaled: i64, exponent: u8) -> i128
    requires digits { unsigned_abs unscaled < 10 ^ 18 }
    requires places { exponent ≤ 18 }
    ensures value { result ≡ unscaled *ℤ pos (10 ^ exponent) }
    ensures bound { unsigned_abs result < 10 ^ 36 }
{
    unscaled as i128 * power_of_ten(exponent) as i128
}

/// The quotient truncated toward zero.
pub fn quotient(dividend: i128, divisor: i128) -> i128
    requires dividend { unsigned_abs dividend < 10 ^ 36 }
    requires divisor { 1 ≤ unsigned_abs divisor }
    ensures { result ≡ int_div dividend divisor }
{
    dividend / divisor
}

/// The number of this unscaled value and scale, if it has at most 18 digits.
pub fn in_digits(unscaled: i128, scale: u8) -> Result<Decimal, ArithmeticFault>
    requires { scale ≤ 18 }
    ensures { result ≡ in_range scale unscaled }
{
    if unscaled.unsigned_abs() < 1_000_000_000_000_000_000 {
        Ok(Decimal::new(unscaled as i64, scale))
    } else {
        Err(ArithmeticFault::Range)
    }
}
