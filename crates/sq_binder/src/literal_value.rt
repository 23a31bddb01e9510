//! Literals as values (ISO/IEC 9075:1992, 5.3).

ghost use Rattle.std.specs.Prelude.{◌≡◌, IfOk, Ok, not};
ghost use Rattle.sq_meaning.specs.Spelled.{has_point, number_with_sign};
ghost use Rattle.sq_value.specs.Spelling.{read};
ghost use Rattle.sq_value.specs.declared.value.Value.TheVariants as value;

use sq_lex::{Characters, Number};
use sq_tree::{Sign, SignedNumber};
use sq_value::{Decimal, Text, Value};
use std::alloc::{AllocError, Global};

/// The number of an unsigned numeric literal (ISO/IEC 9075:1992, 5.3). Each spelling has a number.
#[tactic(auto, using(crate::proofs::Expressions::Literals::number_is_read))]
pub fn number_value(number: Number) -> Decimal
    ensures { read number ≡ Ok result }
{
    Decimal::read(number.codes()).unwrap()
}

/// The number of a numeric literal with or without a sign.
pub fn signed_value(signed: SignedNumber) -> Decimal
    ensures { result ≡ number_with_sign signed }
{
    let value = number_value(signed.number);
    match signed.sign {
        Some(Sign::Minus) => value.neg(),
        _ => value,
    }
}

/// The value of a text literal.
pub fn text_value(alloc: Global, characters: &Characters) -> Result<Value, AllocError>
    ensures { IfOk result (λ v. v ≡ value.Chars characters.now) }
{
    Ok(Value::Chars(Text::new(alloc, characters.codes())?))
}

/// Whether a number is written without a point.
pub fn is_whole(number: Number) -> bool
    ensures { result ≡ not (has_point number) }
{
    !number.codes().contains(&b'.')
}
