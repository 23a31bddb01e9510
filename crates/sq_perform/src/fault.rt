//! Why a text, or an item of one, is not taken.
use std::alloc::{AllocError, AllocFailed};

/// Why a text, or an item of one, is not taken.
#[derive(Clone, Copy, Debug)]
pub(crate) enum Fault<R> {
    NoMemory,
    Refused(R),
}

impl<R> From<AllocError> for Fault<R> {
    ghost use Rattle.std.specs.Prelude.{◌≡◌};
    ghost use Rattle.sq_perform.specs.declared.fault.Fault.TheVariants.{NoMemory};

    ghost from_gives = { λ _ fault. fault ≡ NoMemory };

    fn from(_error: AllocError) -> Fault<R> {
        Fault::NoMemory
    }
}

impl<R, T: Drop> From<AllocFailed<T>> for Fault<R> {
    ghost use Rattle.std.specs.Prelude.{◌≡◌};
    ghost use Rattle.sq_perform.specs.declared.fault.Fault.TheVariants.{NoMemory};

    ghost from_gives = { λ _ fault. fault ≡ NoMemory };

    fn from(_error: AllocFailed<T>) -> Fault<R> {
        Fault::NoMemory
    }
}
