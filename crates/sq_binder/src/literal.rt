//! Literals (ISO/IEC 9075:1992, 5.3).

ghost use Rattle.std.specs.Prelude.{◌≡◌, IfOk, Ok};
ghost use Rattle.sq_meaning.specs.Spelled.{spelled_number};
ghost use Rattle.sq_value.specs.Spelling.{read};
ghost use Rattle.sq_value.specs.declared.value.Value.TheVariants as value;
ghost use Rattle.sq_binding.specs.Expression as spec;
ghost use Rattle.sq_binder.specs.Binds.{Binds};
ghost use Rattle.sq_binder.specs.Bound.{bound_of};

use crate::bound::{Bound, ExprResult};
use crate::findings::Findings;
use crate::literal_value::{number_value, text_value};
use sq_bound::BoundExpr;
use sq_lex::{Characters, Number};
use sq_value::{Decimal, Kind, Text, Value};
use std::alloc::{AllocError, Global};

/// The bound literal of a number.
#[tactic(auto, using(crate::proofs::Expressions::Images::images))]
pub fn number_literal(alloc: Global, number: Number) -> Bound
    ensures { spec.literal_bound (value.Num (spelled_number number)) ≡ Ok (bound_of result) }
{
    let value = number_value(number);
    Bound::plain(
        alloc,
        BoundExpr::Literal(Value::Num(value)),
        Kind::Num(value.scale()),
        Findings::NONE,
    )
}

/// The bound literal of a text.
#[tactic(auto, using(crate::proofs::Expressions::Images::images))]
pub fn text_literal(alloc: Global, characters: &Characters) -> ExprResult
    ensures { Binds bound_of (spec.literal_bound (value.Chars characters.now)) result }
{
    let value = text_value(alloc, characters)?;
    let kind = Kind::Chars(characters.codes().len() as u16);
    Ok(Bound::plain(alloc, BoundExpr::Literal(value), kind, Findings::NONE))
}
