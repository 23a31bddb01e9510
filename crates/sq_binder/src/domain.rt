//! Domains of the types that texts write.

ghost use Rattle.std.specs.Prelude.{◌≡◌, ◌≤◌, ℕ, IfSome};
ghost use Rattle.std.specs.Option.{option_map};
ghost use Rattle.sq_value.specs.Domain.{IsDomain};
ghost use Rattle.sq_value.specs.declared.domain.Domain.{Domain as AnyDomain};
ghost use Rattle.sq_meaning.specs.Spelled as meaning;

use crate::literal_value::{is_whole, number_value};
use sq_lex::Number;
use sq_tree::{DataType, Precision};
use sq_value::Domain;

/// The domain of a data type (ISO/IEC 9075:1992, 6.1). There is none if a precision, scale or length is out of
/// range, or no whole number written without a point.
pub fn domain_of(data_type: &DataType) -> Option<Domain>
    ensures meaning { result ≡ meaning.domain_of data_type.now }
    ensures domain { IfSome result IsDomain }
{
    match data_type {
        DataType::Smallint => Some(Domain::Small),
        DataType::Integer | DataType::Int => Some(Domain::Int),
        DataType::Exact(_, None) => Some(Domain::Numeric(18, 0)),
        DataType::Exact(_, Some(precision)) => read_exact(precision),
        DataType::Character(_, None) => Some(Domain::Char(1)),
        DataType::Character(_, Some(length)) => match length_of(*length) {
            Some(length) => Some(Domain::Char(length)),
            None => None,
        },
        DataType::Varying(_, length) => match length_of(*length) {
            Some(length) => Some(Domain::VarChar(length)),
            None => None,
        },
    }
}

fn read_exact(written: &Precision) -> Option<Domain>
    ensures { result ≡ meaning.exact_domain (meaning.spelled_whole written.now.precision)
        (meaning.scale_of written.now.scale) }
{
    let precision = read_whole(written.precision)?;
    let scale = match written.scale {
        Some(scale) => read_whole(scale)?,
        None => 0,
    };
    if precision == 0 || precision > 18 || scale > precision {
        return None;
    }
    Some(Domain::Numeric(precision as u8, scale as u8))
}

/// The length of a text, from 1 to 240.
fn length_of(number: Number) -> Option<u16>
    ensures meaning { (texts : ℕ → AnyDomain)
        → option_map texts result ≡ meaning.text_domain texts (meaning.spelled_whole number) }
    ensures within { IfSome result (λ length. (1 ≤ length) × (length ≤ 240)) }
{
    let length = read_whole(number)?;
    if length == 0 || length > 240 {
        return None;
    }
    Some(length as u16)
}

/// A whole number that is written without a point.
fn read_whole(number: Number) -> Option<u64>
    ensures { result ≡ meaning.spelled_whole number }
{
    if is_whole(number) {
        Some(number_value(number).unscaled().unsigned_abs())
    } else {
        None
    }
}
