//! Which values are of a kind that a domain stores (ISO/IEC 9075:1992, 9.2).

ghost use Rattle.std.specs.Prelude.{◌≡◌, ◌↔◌, IsTrue};
ghost use Rattle.sq_value.specs.Domain.{FitsKind, is_of_numbers};
ghost use Rattle.sq_bound.specs.Domain.{fits_kind};

use sq_value::{Domain, Value};

/// Whether the value is null, a number for a domain of numbers, or a text for one of texts.
pub fn fits_kind(domain: Domain, value: &Value) -> bool
    ensures known { result ≡ fits_kind domain value.now }
    ensures fits { IsTrue result ↔ FitsKind domain value.now }
{
    match value {
        Value::Null => true,
        Value::Num(_) => is_of_numbers(domain),
        Value::Chars(_) => !is_of_numbers(domain),
    }
}

/// Whether the domain is one of numbers.
fn is_of_numbers(domain: Domain) -> bool
    ensures { result ≡ is_of_numbers domain }
{
    match domain {
        Domain::Small | Domain::Int | Domain::Numeric(_, _) => true,
        Domain::Char(_) | Domain::VarChar(_) => false,
    }
}
