//! Numbers in digits, and pictures of COBOL.
ghost use Rattle.std.specs.Prelude.{◌≡◌, ◌++◌, IfOk, OnOk};
ghost use Rattle.sq_bindings.specs.Picture as spec;

use crate::parameter::Kind;
use std::alloc::{AllocError, Global};

/// How the digits before and after the point of a picture begin.
const WHOLE: &[u8] = b"9(";

const FRACTION: &[u8] = b"V9(";

/// How many digits a number has, or characters a text.
pub(crate) fn size_of(kind: Kind) -> u8
    ensures { result ≡ spec.size_of kind }
{
    match kind {
        Kind::Small | Kind::Integer => 0,
        Kind::Numeric(digits, _) | Kind::Decimal(digits, _) => digits,
        Kind::Fixed(length) | Kind::Varying(length) => length,
    }
}

/// How many digits are after the point.
pub(crate) fn scale_of(kind: Kind) -> u8
    ensures { result ≡ spec.scale_of kind }
{
    match kind {
        Kind::Numeric(_, scale) | Kind::Decimal(_, scale) => scale,
        _ => 0,
    }
}

/// A number in digits.
#[tactic(auto, using(std::proofs::lemmas::Grind::common_steps))]
pub(crate) fn digits_of(alloc: Global, number: u8) -> Result<Vec<u8>, AllocError>
    ensures { IfOk result (λ text. text.items ≡ spec.digits_of number) }
{
    let mut text = Vec::new(alloc);
    if number >= 100 {
        text.push(b'0' + number / 100)?;
    }
    if number >= 10 {
        text.push(b'0' + number / 10 % 10)?;
    }
    text.push(b'0' + number % 10)?;
    Ok(text)
}

/// The picture of an exact number in COBOL, as `S9(5)V9(2)`.
#[tactic(auto, using(std::proofs::lemmas::Grind::common_steps))]
pub(crate) fn picture_of(alloc: Global, kind: Kind) -> Result<Vec<u8>, AllocError>
    ensures { IfOk result (λ text. text.items ≡ spec.picture_of kind) }
{
    let mut text = Vec::new(alloc);
    let scale = scale_of(kind);
    text.push(b'S')?;
    add_nines(alloc, &mut text, WHOLE, size_of(kind).saturating_sub(scale))?;
    add_nines(alloc, &mut text, FRACTION, scale)?;
    Ok(text)
}

/// Adds so many digits to a picture, if there are any.
#[tactic(auto, using(std::proofs::lemmas::Grind::common_steps))]
fn add_nines(alloc: Global, text: &mut Vec<u8>, start: &[u8], count: u8) -> Result<(), AllocError>
    ensures { OnOk result (text.new.items ≡ text.old.items ++ spec.nines start.now count) }
{
    if count > 0 {
        let digits = digits_of(alloc, count)?;
        text.extend_from_slice(start)?;
        text.extend_from_slice(digits.as_slice())?;
        text.push(b')')?;
    }
    Ok(())
}
