//! Why schema texts are refused.

ghost use Rattle.std.specs.Prelude.{◌≡◌, false, OnOk};
ghost use Rattle.sq_binding.specs.ElementOutcome.{refused_if};
ghost use Rattle.sq_catalog.specs.Fault.{Passes};

use sq_meaning::SchemaFault;
use std::alloc::AllocError;
use std::{error, fmt};
use thiserror::Error;

/// The fault of a schema definition or of one of its elements. If several hold, the first in the order of
/// `SchemaFault` is answered.
#[derive(Clone, Copy, Debug, PartialEq, Eq)]
pub struct RefusalName {
    pub fault: SchemaFault,
}

impl RefusalName {
    /// The name as it is printed.
    fn text(self) -> &'static str {
        match self.fault {
            SchemaFault::NameTwice => "NameTwice",
            SchemaFault::UnknownName => "UnknownName",
            SchemaFault::BadType => "BadType",
            SchemaFault::NullableKey => "NullableKey",
            SchemaFault::BadKey => "BadKey",
            SchemaFault::BadReference => "BadReference",
            SchemaFault::BadCheck => "BadCheck",
            SchemaFault::BadDefault => "BadDefault",
            SchemaFault::BadView => "BadView",
            SchemaFault::BadCheckOption => "BadCheckOption",
            SchemaFault::PrivilegeMissing => "PrivilegeMissing",
            SchemaFault::TooManyColumns => "TooManyColumns",
            SchemaFault::OtherSchema => "OtherSchema",
            SchemaFault::TooManyTables => "TooManyTables",
        }
    }
}

impl fmt::Display for RefusalName {
    fn fmt<W: fmt::Write>(&self, f: &mut fmt::Formatter<W>) -> fmt::Result {
        f.write_str(self.text())
    }
}

impl error::Error for RefusalName {}

/// Why an element is not defined.
#[derive(Clone, Copy, Debug, PartialEq, Eq)]
pub(crate) enum ElementFault {
    Refused(SchemaFault),
    NoMemory,
}

impl From<AllocError> for ElementFault {
    ghost use Rattle.sq_catalog.specs.declared.fault.ElementFault.TheVariants.{NoMemory};

    ghost from_gives = { λ _ fault. fault ≡ NoMemory };

    fn from(_error: AllocError) -> ElementFault {
        ElementFault::NoMemory
    }
}

/// The refusal, if something is wrong.
pub(crate) fn refused_if(is_wrong: bool, fault: SchemaFault) -> Result<(), ElementFault>
    ensures right { OnOk result (is_wrong ≡ false) }
    ensures exact { Passes (refused_if fault is_wrong) result }
{
    if is_wrong {
        Err(ElementFault::Refused(fault))
    } else {
        Ok(())
    }
}

/// The first refusal: its name, the text, the schema definition in the text, and the element in the definition (all from
/// 0); no element if the definition itself is a user's second.
#[derive(Clone, Copy, Debug, PartialEq, Eq)]
pub struct SchemaRefusal {
    pub name: RefusalName,
    pub text: usize,
    pub schema: usize,
    pub element: Option<usize>,
}

/// Why there is no catalog.
#[derive(Clone, Copy, Debug, PartialEq, Eq, Error)]
pub enum CatalogFault {
    #[error("a schema is refused")]
    Refused(SchemaRefusal),
    #[error("out of memory")]
    NoMemory,
}
