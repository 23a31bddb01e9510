//! The parameters of a procedure, and how its statement uses them.
ghost use Rattle.std.specs.Prelude.{◌≡◌};
ghost use Rattle.std.specs.List.{list_any};
ghost use Rattle.sq_bindings.specs.Parameter as spec;

use crate::mention::mentions;
use sq_lex::{Name, Number};
use sq_tree::{CommaList, DataType, ExactWord, Parameter, Precision, Statement};

/// How a statement uses a parameter.
#[derive(Clone, Copy, Debug, PartialEq, Eq)]
pub(crate) enum Role {
    /// It reads it, or doesn't name it.
    Reads,
    /// It may set it, and doesn't read it: it is a target, or the indicator of one.
    Sets,
    /// It reads it, and may set it.
    Both,
}

/// The type of a parameter, with what a host declares of it.
#[derive(Clone, Copy, Debug, PartialEq, Eq)]
pub(crate) enum Kind {
    Small,
    Integer,
    /// The digits, and those after the point.
    Numeric(u8, u8),
    Decimal(u8, u8),
    /// The characters.
    Fixed(u8),
    Varying(u8),
}

/// The precision of NUMERIC and DECIMAL if it is left out.
const USUAL_DIGITS: u8 = 18;

/// The number that digits say, up to 255.
fn number_of(number: Number) -> u8
    ensures { result ≡ spec.number_of number }
{
    number.codes().iter().fold(
        0u8,
        |value, code| value
            .saturating_mul(10)
            .saturating_add(code.saturating_sub(b'0')),
    )
}

fn scale_of(precision: &Precision) -> u8
    ensures { result ≡ spec.scale_of precision.now }
{
    match precision.scale {
        Some(scale) => number_of(scale),
        None => 0,
    }
}

fn exact_kind(word: ExactWord, digits: u8, scale: u8) -> Kind
    ensures { result ≡ spec.exact word digits scale }
{
    match word {
        ExactWord::Numeric => Kind::Numeric(digits, scale),
        ExactWord::Decimal | ExactWord::Dec => Kind::Decimal(digits, scale),
    }
}

/// Finds how a host declares a data type.
pub(crate) fn kind_of(data_type: &DataType) -> Kind
    ensures { result ≡ spec.kind_of data_type.now }
{
    match data_type {
        DataType::Smallint => Kind::Small,
        DataType::Integer | DataType::Int => Kind::Integer,
        DataType::Exact(word, None) => exact_kind(*word, USUAL_DIGITS, 0),
        DataType::Exact(word, Some(precision)) => {
            exact_kind(*word, number_of(precision.precision), scale_of(precision))
        }
        DataType::Character(_, None) => Kind::Fixed(1),
        DataType::Character(_, Some(length)) => Kind::Fixed(number_of(*length)),
        DataType::Varying(_, length) => Kind::Varying(number_of(*length)),
    }
}

/// Whether a target or its indicator has this name.
fn names(target: &Parameter, name: Name) -> bool
    ensures { result ≡ spec.names name target.now }
{
    target.name == name
        || match target.indicator {
            Some(indicator) => indicator.name == name,
            None => false,
        }
}

fn is_target(targets: &CommaList<Parameter>, name: Name) -> bool
    ensures { result ≡ spec.is_target name targets.now }
{
    names(&targets.first, name) || has_name(targets.rest.as_slice(), name)
}

fn has_name(targets: &[Parameter], name: Name) -> bool
    ensures { result ≡ list_any (spec.names name) targets.now }
{
    targets.iter().any(|target| names(target, name))
}

/// How a statement uses a parameter that is read elsewhere or isn't, and set or isn't.
fn role_of(is_set: bool, is_read: bool) -> Role
    ensures { result ≡ spec.role_of is_set is_read }
{
    match (is_set, is_read) {
        (false, _) => Role::Reads,
        (true, false) => Role::Sets,
        (true, true) => Role::Both,
    }
}

/// How a statement uses the parameter of this name.
pub(crate) fn role_in(statement: &Statement, name: Name) -> Role
    ensures { result ≡ spec.role_in statement.now name }
{
    match statement {
        Statement::Fetch(fetch) => role_of(
            is_target(&fetch.targets, name),
            mentions(&fetch.from, name),
        ),
        Statement::Select(select) => role_of(
            is_target(&select.targets, name),
            mentions(&select.list, name) || mentions(&select.table, name),
        ),
        _ => Role::Reads,
    }
}
