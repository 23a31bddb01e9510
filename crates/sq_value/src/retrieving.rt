//! Retrieving a value into a parameter.

ghost use Rattle.std.specs.Prelude.{◌≡◌, IfOk, false};
ghost use Rattle.sq_value.specs.Domain.{IsDomain, FitsKind, IsInDomain};
ghost use Rattle.sq_value.specs.Memory.{takes_memory};
ghost use Rattle.sq_value.specs.Retrieving.{retrieved, text_retrieved, uncut_length, IsRetrieved};

use crate::domain::Domain;
use crate::fault::RetrieveFault;
use crate::storing::fitted;
use crate::text::Text;
use crate::value::Value;
use std::alloc::{AllocError, Global};

/// A value as a parameter gets it.
#[derive(Debug, Drop)]
pub struct Retrieved {
    pub value: Value,
    /// The text's length before it was cut, blanks counted: warning 01004, and the indicator's value.
    pub uncut: Option<u16>,
}

/// The value as a parameter of this domain gets it (ISO/IEC 9075:1992, 9.1, retrieval assignment).
///
/// A number is as in `store`. A text that is longer is cut, whatever is lost, and one that is too short for CHARACTER
/// is padded with blanks.
pub fn retrieve(alloc: Global, value: &Value, domain: Domain) -> Result<Retrieved, RetrieveFault>
    requires domain { IsDomain domain }
    requires kind { FitsKind domain value.now }
    ensures answer { IsRetrieved result (retrieved domain value.now) }
    ensures in_domain { IfOk result (λ r. IsInDomain domain r.value) }
    ensures memory { takes_memory value.now ≡ false → result ≡ retrieved domain value.now }
{
    match value {
        Value::Null => Ok(Retrieved {
            value: Value::Null,
            uncut: None,
        }),
        Value::Num(number) => match fitted(*number, domain) {
            Some(number) => Ok(Retrieved {
                value: Value::Num(number),
                uncut: None,
            }),
            None => Err(RetrieveFault::Range),
        },
        Value::Chars(text) => Ok(Retrieved {
            value: Value::Chars(as_retrieved(alloc, text, domain)?),
            uncut: uncut_length(text, domain),
        }),
    }
}

/// The text as the parameter holds it.
fn as_retrieved(alloc: Global, text: &Text, domain: Domain) -> Result<Text, AllocError>
    requires { IsDomain domain }
    ensures { IfOk result (λ t. t ≡ text_retrieved domain text.now) }
{
    match domain {
        Domain::Char(length) => text.of_length(alloc, length),
        Domain::VarChar(length) => text.cut(alloc, length),
        _ => text.copy(alloc),
    }
}

/// The text's length, if it is longer than the parameter.
fn uncut_length(text: &Text, domain: Domain) -> Option<u16>
    ensures { result ≡ uncut_length domain text.now }
{
    let length = text.codes().len() as u16;
    if domain.length() < length {
        Some(length)
    } else {
        None
    }
}
