//! Why a query, a condition or an expression has no answer.

ghost use Rattle.std.specs.Prelude.{◌≡◌};
ghost use Rattle.sq_expression.specs.Fault.{status_of};

use sq_meaning::Status;
use sq_value::{ArithmeticFault, LikeFault, RetrieveFault, StoreFault};
use std::alloc::{AllocError, AllocFailed};
use thiserror::Error;

/// The reason why there is no answer: a status, or that memory ran out.
#[derive(Clone, Copy, Debug, PartialEq, Eq, Error)]
pub enum Fault {
    #[error("it ends with a status")]
    Status(Failure),
    #[error("out of memory")]
    NoMemory,
}

/// How a statement ends that has no answer: no data, or an exception (ISO/IEC 9075:1992, 22.1), but neither success nor
/// a warning.
#[derive(Clone, Copy, Debug, PartialEq, Eq)]
pub enum Failure {
    NoData,
    CardinalityViolation,
    TextTooLong,
    NullWithoutIndicator,
    NumericValueOutOfRange,
    DivisionByZero,
    InvalidEscapeCharacter,
    InvalidEscapeSequence,
    IntegrityConstraintViolation,
    InvalidCursorState,
    SyntaxErrorOrAccessRuleViolation,
    CheckOptionViolation,
    NoRowNumberLeft,
}

impl Failure {
    /// The status of a failure.
    pub fn status(self) -> Status
        ensures { result ≡ status_of self }
    {
        match self {
            Failure::NoData => Status::NoData,
            Failure::CardinalityViolation => Status::CardinalityViolation,
            Failure::TextTooLong => Status::TextTooLong,
            Failure::NullWithoutIndicator => Status::NullWithoutIndicator,
            Failure::NumericValueOutOfRange => Status::NumericValueOutOfRange,
            Failure::DivisionByZero => Status::DivisionByZero,
            Failure::InvalidEscapeCharacter => Status::InvalidEscapeCharacter,
            Failure::InvalidEscapeSequence => Status::InvalidEscapeSequence,
            Failure::IntegrityConstraintViolation => Status::IntegrityConstraintViolation,
            Failure::InvalidCursorState => Status::InvalidCursorState,
            Failure::SyntaxErrorOrAccessRuleViolation => Status::SyntaxErrorOrAccessRuleViolation,
            Failure::CheckOptionViolation => Status::CheckOptionViolation,
            Failure::NoRowNumberLeft => Status::NoRowNumberLeft,
        }
    }
}

impl Fault {
    /// A rule of the language is broken: SQLSTATE 42000.
    pub const NOT_WELL_FORMED: Fault = Fault::Status(Failure::SyntaxErrorOrAccessRuleViolation);
}

impl From<AllocError> for Fault {
    ghost use Rattle.sq_expression.specs.declared.fault.Fault.TheVariants.{NoMemory};

    ghost from_gives = { λ _ fault. fault ≡ NoMemory };

    fn from(_error: AllocError) -> Fault {
        Fault::NoMemory
    }
}

impl<T: Drop> From<AllocFailed<T>> for Fault {
    ghost use Rattle.sq_expression.specs.declared.fault.Fault.TheVariants.{NoMemory};

    ghost from_gives = { λ _ fault. fault ≡ NoMemory };

    fn from(_error: AllocFailed<T>) -> Fault {
        Fault::NoMemory
    }
}

impl From<ArithmeticFault> for Fault {
    ghost use Rattle.sq_expression.specs.Fault.{fault_of_arithmetic};

    ghost from_gives = { λ fault answer. answer ≡ fault_of_arithmetic fault };

    fn from(fault: ArithmeticFault) -> Fault {
        match fault {
            ArithmeticFault::Range => Fault::Status(Failure::NumericValueOutOfRange),
            ArithmeticFault::ZeroDivisor => Fault::Status(Failure::DivisionByZero),
        }
    }
}

impl From<LikeFault> for Fault {
    ghost use Rattle.sq_expression.specs.Fault.{fault_of_like};

    ghost from_gives = { λ fault answer. answer ≡ fault_of_like fault };

    fn from(fault: LikeFault) -> Fault {
        match fault {
            LikeFault::EscapeLength => Fault::Status(Failure::InvalidEscapeCharacter),
            LikeFault::EscapeSequence => Fault::Status(Failure::InvalidEscapeSequence),
        }
    }
}

impl From<StoreFault> for Fault {
    ghost use Rattle.sq_expression.specs.Fault.{fault_of_storing};

    ghost from_gives = { λ fault answer. answer ≡ fault_of_storing fault };

    fn from(fault: StoreFault) -> Fault {
        match fault {
            StoreFault::Range => Fault::Status(Failure::NumericValueOutOfRange),
            StoreFault::TooLong => Fault::Status(Failure::TextTooLong),
            StoreFault::NoMemory => Fault::NoMemory,
        }
    }
}

impl From<RetrieveFault> for Fault {
    ghost use Rattle.sq_expression.specs.Fault.{fault_of_retrieving};

    ghost from_gives = { λ fault answer. answer ≡ fault_of_retrieving fault };

    fn from(fault: RetrieveFault) -> Fault {
        match fault {
            RetrieveFault::Range => Fault::Status(Failure::NumericValueOutOfRange),
            RetrieveFault::NoMemory => Fault::NoMemory,
        }
    }
}
