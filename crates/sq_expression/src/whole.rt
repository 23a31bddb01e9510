//! Whole numbers, the values of most expressions. Arithmetic on them takes fewer steps than on values.

ghost use Rattle.std.specs.Prelude.{◌≡◌, IfSome, Ok};
ghost use Rattle.sq_expression.specs.Arithmetic.{operation};
ghost use Rattle.sq_expression.specs.Whole.{whole};

use sq_bound::Operator;
use sq_value::{Decimal, Value};
use std::marker::Model;

/// The least number of 19 digits.
const NINETEEN_DIGITS: i64 = 1_000_000_000_000_000_000;

/// A number of at most 18 digits, with none after the point. Contracts see it as the number.
#[derive(Clone, Copy)]
pub(crate) struct Whole {
    number: i64,
}

impl Model for Whole {
    ghost use Rattle.std.specs.Prelude.{ℤ, ◌<◌, ◌^◌, unsigned_abs};

    ghost Value = { ℤ };

    ghost view = { λ w. w.number };

    ghost invariant = { λ w. unsigned_abs w.number < 10 ^ 18 };

    ghost inverse = { λ n. record { number = n } };
}

#[tactic(auto, using(sq_value::proofs::Casts::casts))]
impl Whole {
    /// The number, if it has at most 18 digits.
    fn of_digits(number: i64) -> Option<Whole>
        ensures { IfSome result (λ n. n ≡ number) }
    {
        if -NINETEEN_DIGITS < number && number < NINETEEN_DIGITS {
            Some(Whole { number })
        } else {
            None
        }
    }

    /// The whole number that a value is.
    pub(crate) fn of_value(value: &Value) -> Option<Whole>
        ensures { IfSome result (λ n. value.now ≡ whole n) }
    {
        match value {
            Value::Num(number) if number.scale() == 0 => Some(Whole {
                number: number.unscaled(),
            }),
            _ => None,
        }
    }

    /// A whole number as a value.
    pub(crate) fn value(self) -> Value
        ensures { result ≡ whole self }
    {
        Value::Num(Decimal::new(self.number, 0))
    }

    /// The result of an operator on this number and another one. The answer may be `None` for any operands.
    pub(crate) fn calculated(self, operator: Operator, other: Whole) -> Option<Whole>
        ensures { IfSome result (λ n. operation operator (whole self) (whole other) ≡ Ok (whole n)) }
    {
        match operator {
            Operator::Plus => self.sum(other),
            Operator::Minus => self.difference(other),
            Operator::Times => self.product(other),
            Operator::Over => self.quotient(other),
        }
    }

    fn sum(self, other: Whole) -> Option<Whole>
        ensures { IfSome result (λ n. operation Operator.Plus (whole self) (whole other) ≡ Ok (whole n)) }
    {
        Whole::of_digits(self.number + other.number)
    }

    fn difference(self, other: Whole) -> Option<Whole>
        ensures { IfSome result (λ n. operation Operator.Minus (whole self) (whole other) ≡ Ok (whole n)) }
    {
        Whole::of_digits(self.number - other.number)
    }

    fn product(self, other: Whole) -> Option<Whole>
        ensures { IfSome result (λ n. operation Operator.Times (whole self) (whole other) ≡ Ok (whole n)) }
    {
        Whole::of_digits(self.number.checked_mul(other.number)?)
    }

    fn quotient(self, other: Whole) -> Option<Whole>
        ensures { IfSome result (λ n. operation Operator.Over (whole self) (whole other) ≡ Ok (whole n)) }
    {
        if other.number == 0 {
            return None;
        }
        Whole::of_digits(self.number / other.number)
    }
}
