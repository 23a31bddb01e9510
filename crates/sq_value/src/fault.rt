//! Why operations on values have no result.

ghost use Rattle.std.specs.Prelude.{◌≡◌};

use std::alloc::AllocError;
use thiserror::Error;

/// Why a text is no number.
#[derive(Clone, Copy, Debug, PartialEq, Eq, Error)]
pub enum ReadFault {
    #[error("no number")]
    NotANumber,
    #[error("more than 18 digits")]
    Range,
}

/// Why an operation has no number as its result.
#[derive(Clone, Copy, Debug, PartialEq, Eq, Error)]
pub enum ArithmeticFault {
    /// More than 18 digits: SQLSTATE 22003.
    #[error("the result is out of range")]
    Range,
    /// SQLSTATE 22012.
    #[error("division by zero")]
    ZeroDivisor,
}

/// Why a value can't be stored in a domain.
#[derive(Clone, Copy, Debug, PartialEq, Eq, Error)]
pub enum StoreFault {
    /// Leading digits would be lost: SQLSTATE 22003.
    #[error("the number is out of range")]
    Range,
    /// Codes other than blanks would be lost: SQLSTATE 22001.
    #[error("the text is too long")]
    TooLong,
    #[error("out of memory")]
    NoMemory,
}

impl From<AllocError> for StoreFault {
    ghost use Rattle.sq_value.specs.declared.fault.StoreFault.TheVariants.{NoMemory};

    ghost from_gives = { λ _ fault. fault ≡ NoMemory };

    fn from(_error: AllocError) -> StoreFault {
        StoreFault::NoMemory
    }
}

/// Why a value can't be retrieved into a parameter.
#[derive(Clone, Copy, Debug, PartialEq, Eq, Error)]
pub enum RetrieveFault {
    /// Leading digits would be lost: SQLSTATE 22003.
    #[error("the number is out of range")]
    Range,
    #[error("out of memory")]
    NoMemory,
}

impl From<AllocError> for RetrieveFault {
    ghost use Rattle.sq_value.specs.declared.fault.RetrieveFault.TheVariants.{NoMemory};

    ghost from_gives = { λ _ fault. fault ≡ NoMemory };

    fn from(_error: AllocError) -> RetrieveFault {
        RetrieveFault::NoMemory
    }
}

/// Why LIKE has no truth.
#[derive(Clone, Copy, Debug, PartialEq, Eq, Error)]
pub enum LikeFault {
    /// The escape character is no text of one code: SQLSTATE 22019.
    #[error("the escape character is not of length one")]
    EscapeLength,
    /// The escape character comes before a character that needs no escape, or at the
    /// pattern's end: SQLSTATE 22025.
    #[error("the escape character escapes nothing")]
    EscapeSequence,
}
