//! Exact numbers.

ghost use Rattle.std.specs.Prelude.{◌≡◌, ◌≤◌, ◌<◌, ◌^◌, ◌+◌, ◌-◌, max, unsigned_abs};
ghost use Rattle.sq_value.specs.Arithmetic.{added, subtracted, multiplied, divided, negated, numbers_compared, at_scale, truncated};

use crate::fault::ArithmeticFault;
use crate::wide::{in_digits, power_of_ten, quotient, raised};
use std::cmp::Ordering;
use std::marker::Model;

/// An exact number: `unscaled` divided by ten to the power of `scale`.
///
/// The unscaled value has at most 18 digits, and the scale is from 0 to 18. Contracts see it as the record of both.
#[derive(Clone, Copy, Debug)]
pub struct Decimal {
    unscaled: i64,
    scale: u8,
}

impl Model for Decimal {
    ghost use Rattle.sq_value.specs.Number.{Number, IsNumber};

    ghost Value = { Number };

    ghost view = { λ d. record { unscaled = d.unscaled; scale = d.scale } };

    ghost invariant = { λ d. IsNumber (record { unscaled = d.unscaled; scale = d.scale }) };

    ghost inverse = { λ n. record { unscaled = n.unscaled; scale = n.scale } };
}

#[tactic(auto, using(crate::proofs::Casts::casts))]
impl Decimal {
    /// The number of this unscaled value and scale.
    pub fn new(unscaled: i64, scale: u8) -> Decimal
        requires digits { unsigned_abs unscaled < 10 ^ 18 }
        requires places { scale ≤ 18 }
        ensures unscaled { result.unscaled ≡ unscaled }
        ensures scale { result.scale ≡ scale }
    {
        Decimal { unscaled, scale }
    }

    /// The value without its point.
    pub fn unscaled(self) -> i64
        ensures value { result ≡ self.unscaled }
        ensures digits { unsigned_abs result < 10 ^ 18 }
    {
        let Decimal { unscaled, .. } = self;
        unscaled
    }

    /// The number of digits after the point.
    pub fn scale(self) -> u8
        ensures value { result ≡ self.scale }
        ensures places { result ≤ 18 }
    {
        let Decimal { scale, .. } = self;
        scale
    }

    /// The sum (ISO/IEC 9075:1992, 6.12), whose scale is the greater one; `Range` if it has more than 18 digits.
    pub fn add(self, other: Decimal) -> Result<Decimal, ArithmeticFault>
        ensures { result ≡ added self other }
    {
        let scale = self.scale.max(other.scale);
        in_digits(self.at_scale(scale) + other.at_scale(scale), scale)
    }

    /// The difference (6.12), whose scale is the greater one; `Range` if it has more than 18 digits.
    pub fn sub(self, other: Decimal) -> Result<Decimal, ArithmeticFault>
        ensures { result ≡ subtracted self other }
    {
        let scale = self.scale.max(other.scale);
        in_digits(self.at_scale(scale) - other.at_scale(scale), scale)
    }

    /// The product (6.12), whose scale is the sum of both; `Range` if it has more than 18 digits.
    pub fn mul(self, other: Decimal) -> Result<Decimal, ArithmeticFault>
        requires { self.scale + other.scale ≤ 18 }
        ensures { result ≡ multiplied self other }
    {
        in_digits(
            self.unscaled as i128 * other.unscaled as i128,
            self.scale + other.scale,
        )
    }

    /// The quotient (6.12), truncated toward zero, whose scale is the greater one. It is `ZeroDivisor` if the divisor is
    /// zero, and else `Range` if the quotient has more than 18 digits.
    pub fn div(self, other: Decimal) -> Result<Decimal, ArithmeticFault>
        requires { max self.scale other.scale + other.scale - self.scale ≤ 18 }
        ensures { result ≡ divided self other }
    {
        if other.unscaled == 0 {
            return Err(ArithmeticFault::ZeroDivisor);
        }
        let scale = self.scale.max(other.scale);
        let dividend = raised(self.unscaled, scale + other.scale - self.scale);
        in_digits(quotient(dividend, other.unscaled as i128), scale)
    }

    /// The number with the other sign.
    pub fn neg(self) -> Decimal
        ensures { result ≡ negated self }
    {
        Decimal {
            unscaled: -self.unscaled,
            scale: self.scale,
        }
    }

    /// The order by value, whatever the scales. At the same scale it is the order of the unscaled values.
    #[tactic(auto, using(crate::specs::laws::NumberOrder::compared_alike))]
    pub fn cmp(self, other: Decimal) -> Ordering
        ensures { result ≡ numbers_compared self other }
    {
        if self.scale == other.scale {
            return self.unscaled.cmp(&other.unscaled);
        }
        raised(self.unscaled, other.scale).cmp(&raised(other.unscaled, self.scale))
    }

    /// The unscaled value at another scale, truncated toward zero. At its own scale it is unchanged.
    #[tactic(auto, using(crate::specs::laws::ValueOrder::truncated_alike))]
    pub(crate) fn truncated(self, scale: u8) -> i128
        requires { scale ≤ 18 }
        ensures { result ≡ (truncated scale self).unscaled }
    {
        if self.scale == scale {
            return self.unscaled as i128;
        }
        quotient(
            raised(self.unscaled, scale),
            power_of_ten(self.scale) as i128,
        )
    }

    /// The unscaled value at scale 18, which no number of this type is cut at.
    #[tactic(auto, using(crate::specs::laws::ValueOrder::at_18_is))]
    pub(crate) fn at_18(self) -> i128
        ensures { result ≡ (truncated 18 self).unscaled }
    {
        self.at_scale(18)
    }

    /// The unscaled value at a scale that is no smaller.
    fn at_scale(self, scale: u8) -> i128
        requires least { self.scale ≤ scale }
        requires places { scale ≤ 18 }
        ensures value { result ≡ at_scale scale self }
        ensures bound { unsigned_abs result < 10 ^ 36 }
    {
        raised(self.unscaled, scale - self.scale)
    }
}
