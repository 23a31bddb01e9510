//! Why module texts are refused (ISO/IEC 9075:1992, 12.1 to 12.3 and 13.1).

ghost use Rattle.std.specs.Prelude.{◌≡◌, IfErr, None, OnOk, Some};
ghost use Rattle.sq_meaning.specs.ModuleRefusal.{at_item};
ghost use Rattle.sq_module.specs.FirstRefusal.{IsFaultFor};
ghost use Rattle.sq_module.specs.Refusal.{IsOfModule};

use sq_meaning::ModuleFault;
use std::alloc::{AllocError, AllocFailed};
use thiserror::Error;

/// The first refusal of modules: the fault of a module, a cursor or a procedure. If several faults hold in one module, the
/// first in the order of `ModuleFault` is answered: each is looked for over the whole module before the next.
#[derive(Clone, Copy, Debug, PartialEq, Eq)]
pub struct ModuleRefusal {
    pub fault: ModuleFault,
    /// The number of the module among the texts.
    pub text: usize,
    /// The number of the cursor or procedure in it; `None` where the module itself is refused.
    pub item: Option<usize>,
}

/// Why there is no session.
#[derive(Clone, Copy, Debug, PartialEq, Eq, Error)]
pub enum SessionFault {
    #[error("a module is refused")]
    Refused(ModuleRefusal),
    #[error("out of memory")]
    NoMemory,
}

impl From<AllocError> for SessionFault {
    ghost use Rattle.sq_module.specs.declared.refusal.SessionFault.TheVariants.{NoMemory};

    ghost from_gives = { λ _ fault. fault ≡ NoMemory };

    fn from(_error: AllocError) -> SessionFault {
        SessionFault::NoMemory
    }
}

impl<T: Drop> From<AllocFailed<T>> for SessionFault {
    ghost use Rattle.sq_module.specs.declared.refusal.SessionFault.TheVariants.{NoMemory};

    ghost from_gives = { λ _ fault. fault ≡ NoMemory };

    fn from(_error: AllocFailed<T>) -> SessionFault {
        SessionFault::NoMemory
    }
}

/// A refusal of the item at a place, if there is one.
pub(crate) fn refused_at(
    why: ModuleFault,
    text: usize,
    place: Option<usize>,
) -> Result<(), SessionFault>
    ensures taken { OnOk result (place ≡ None) }
    ensures refused { IfErr result (IsOfModule text) }
    ensures first { IfErr result (IsFaultFor (at_item text why place)) }
{
    match place {
        None => Ok(()),
        Some(item) => Err(refusal_at(why, text, item)),
    }
}

/// A refusal of the item at a place.
pub(crate) fn refusal_at(why: ModuleFault, text: usize, item: usize) -> SessionFault
    ensures of { IsOfModule text result }
    ensures is { IsFaultFor (at_item text why (Some item)) result }
{
    SessionFault::Refused(ModuleRefusal {
        fault: why,
        text,
        item: Some(item),
    })
}
