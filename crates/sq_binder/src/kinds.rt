//! Kinds of results (ISO/IEC 9075:1992, 6.5 and 6.12).

ghost use Rattle.std.specs.Prelude.{◌≡◌};
ghost use Rattle.std.specs.Result.{result_ok};
ghost use Rattle.sq_value.specs.declared.domain.Kind.TheVariants.{Num};
ghost use Rattle.sq_meaning.specs.WellFormed.{is_comparable, is_text};
ghost use Rattle.sq_meaning.specs.declared.fault.BindingFault.TheVariants.{LimitExceeded};
ghost use Rattle.sq_binding.specs.Expression as spec;
ghost use Rattle.sq_binding.specs.Outcome.{or_fault};
ghost use Rattle.sq_binder.specs.Binds.{Binds};

use crate::stop::Stop;
use sq_bound::Operator;
use sq_meaning::BindingFault;
use sq_tree::SetFunction;
use sq_value::Kind;

/// Whether the values are texts.
pub fn is_text(kind: Kind) -> bool
    ensures { result ≡ is_text kind }
{
    matches!(kind, Kind::Chars(_) | Kind::Vary(_))
}

/// Whether values of the kinds can be compared: both are numbers, or both are texts.
pub fn are_comparable(left: Kind, right: Kind) -> bool
    ensures { result ≡ is_comparable left right }
{
    is_text(left) == is_text(right)
}

/// The kind of a sum, difference, product or quotient.
pub fn operation_kind(operator: Operator, left: Kind, right: Kind) -> Result<Kind, Stop>
    ensures { Binds (λ kind. kind) (spec.kind_operated operator left right) result }
{
    match (left, right) {
        (Kind::Num(left), Kind::Num(right)) => number_kind(operator, left, right),
        _ => Err(Stop::broken(BindingFault::KindMismatch)),
    }
}

/// The kind of an operation between numbers of these scales.
fn number_kind(operator: Operator, left: u8, right: u8) -> Result<Kind, Stop>
    ensures { Binds (λ kind. kind)
        (or_fault LimitExceeded (result_ok (spec.operated_kind operator (Num left) (Num right)))) result }
{
    let greater = left.max(right);
    match operator {
        Operator::Plus | Operator::Minus => Ok(Kind::Num(greater)),
        Operator::Times => match left.checked_add(right) {
            Some(scale) if scale <= 18 => Ok(Kind::Num(scale)),
            _ => Err(Stop::broken(BindingFault::LimitExceeded)),
        },
        Operator::Over if greater as u16 + right as u16 > 18 + left as u16 => {
            Err(Stop::broken(BindingFault::LimitExceeded))
        }
        Operator::Over => Ok(Kind::Num(greater)),
    }
}

/// The kind of a set function over values of a kind.
pub fn set_function_kind(function: SetFunction, operand: Kind) -> Result<Kind, Stop>
    ensures { Binds (λ kind. kind) (spec.kind_of_call function operand) result }
{
    match function {
        SetFunction::Count => Ok(Kind::Num(0)),
        SetFunction::Min | SetFunction::Max => Ok(operand),
        SetFunction::Sum | SetFunction::Avg => match operand {
            Kind::Num(_) => Ok(operand),
            Kind::Chars(_) | Kind::Vary(_) => Err(Stop::broken(BindingFault::KindMismatch)),
        },
    }
}
