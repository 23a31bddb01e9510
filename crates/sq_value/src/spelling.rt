//! Reading and writing exact numbers.

ghost use Rattle.std.specs.Prelude.{◌≡◌, ◌≤◌, ◌<◌, ◌^◌, ◌+◌, ◌*◌, ◌++◌, IfOk, IfSome, OnOk, IsTrue, length};
ghost use Rattle.std.specs.List.{list_all, position, before_first, after_first};
ghost use Rattle.std.specs.Char.{is_ascii_digit};
ghost use Rattle.std.specs.Str.Parse.{digits_value_after};
ghost use Rattle.sq_value.specs.Spelling.{read, written, is_point, last_digits};

use crate::decimal::Decimal;
use crate::fault::ReadFault;
use crate::wide::power_of_ten;
use std::alloc::{AllocError, Global};

/// A spelling taken apart at its first point.
#[derive(Clone, Copy)]
struct Spelling<'a> {
    whole: &'a [u8],
    fraction: &'a [u8],
}

impl Decimal {
    /// The number that these bytes spell: digits, with at most one point before, between or after them.
    pub fn read(bytes: &[u8]) -> Result<Decimal, ReadFault>
        ensures { result ≡ read bytes.now }
    {
        let spelling = split_at_point(bytes);
        let count = spelling.whole.len() + spelling.fraction.len();
        if count == 0 || !all_digits(spelling.whole) || !all_digits(spelling.fraction) {
            return Err(ReadFault::NotANumber);
        }
        if count > 18 {
            return Err(ReadFault::Range);
        }
        let whole = append_digits(0, spelling.whole);
        let unscaled = append_digits(whole, spelling.fraction);
        Ok(Decimal::new(unscaled as i64, spelling.fraction.len() as u8))
    }

    /// The number's spelling, with exactly as many digits after the point as its scale says, and at least one before:
    /// `0.50`, `-3`.
    pub fn write(self, alloc: Global) -> Result<Vec<u8>, AllocError>
        ensures { IfOk result (λ bytes. bytes.items ≡ written self) }
    {
        let size = self.unscaled().unsigned_abs();
        let sign = if self.unscaled() < 0 { "-" } else { "" };
        let whole = size / power_of_ten(self.scale());
        let mut bytes = format!(in alloc; "{sign}{whole}")?.into_bytes();
        if self.scale() > 0 {
            bytes.push(b'.')?;
            push_last_digits(&mut bytes, self.scale(), size)?;
        }
        Ok(bytes)
    }
}

#[tactic(auto, using(crate::proofs::Points::places))]
fn split_at_point(bytes: &[u8]) -> Spelling<'_>
    ensures whole { result.whole.now ≡ before_first is_point bytes.now }
    ensures fraction { result.fraction.now ≡ after_first is_point bytes.now }
{
    match point_of(bytes) {
        Some(point) => Spelling {
            whole: &bytes[..point],
            fraction: &bytes[point + 1..],
        },
        None => Spelling {
            whole: bytes,
            fraction: &[],
        },
    }
}

fn point_of(bytes: &[u8]) -> Option<usize>
    ensures place { result ≡ position is_point bytes.now }
    ensures within { IfSome result (λ point. point < length bytes.now) }
{
    bytes.iter().position(|byte| *byte == b'.')
}

fn all_digits(bytes: &[u8]) -> bool
    ensures { result ≡ list_all is_ascii_digit bytes.now }
{
    bytes.iter().all(|byte| byte.is_ascii_digit())
}

/// The number that the digits write after the digits of `start`.
#[tactic(auto, using(crate::proofs::Digits::digit_steps))]
fn append_digits(start: u64, digits: &[u8]) -> u64
    requires digits { IsTrue (list_all is_ascii_digit digits.now) }
    requires room { (start + 1) * 10 ^ length digits.now ≤ 10 ^ 18 }
    ensures value { result ≡ digits_value_after 10 start digits.now }
    ensures bound { result + 1 ≤ (start + 1) * 10 ^ length digits.now }
{
    let mut number = start;
    for digit in digits {
        number = number * 10 + (*digit - b'0') as u64;
    }
    number
}

/// Adds exactly `places` digits, the last ones of the number.
fn push_last_digits(bytes: &mut Vec<u8>, places: u8, number: u64) -> Result<(), AllocError>
    ensures { OnOk result (bytes.new.items ≡ bytes.old.items ++ last_digits places number) }
{
    if places > 0 {
        push_last_digits(bytes, places - 1, number / 10)?;
        bytes.push(b'0' + (number % 10) as u8)?;
    }
    Ok(())
}
