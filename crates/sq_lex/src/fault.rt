//! The faults of a text that has no reading.

ghost use Rattle.std.specs.Prelude.{◌≡◌};

use std::alloc::{AllocError, AllocFailed};
use thiserror::Error;

/// The kind of fault that keeps a text from being read.
#[derive(Clone, Copy, Debug, PartialEq, Eq)]
pub enum LexFaultKind {
    /// A byte that begins no token and is no white space, or that a comment or a literal may not have.
    BadByte,
    /// The line or the text ends before the closing quote. In a literal the first of these two takes precedence over
    /// `LongText`.
    OpenText,
    /// A word of more than 18 characters.
    LongName,
    /// A letter directly after a number of at most 18 digits.
    NumberThenLetter,
    /// A number of more than 18 digits, leading zeros counted, whatever follows it.
    LongNumber,
    /// A literal of more than 240 characters, a doubled quote counted once.
    LongText,
}

/// The first fault of a text and its position: the byte itself of a `BadByte`, else the first byte of the token.
#[derive(Clone, Copy, Debug, PartialEq, Eq)]
pub struct LexFault {
    pub kind: LexFaultKind,
    /// From 1. A line ends with LF.
    pub line: usize,
    /// From 1, in bytes.
    pub column: usize,
}

/// Why `lex` gave no tokens.
#[derive(Debug, Drop, Error)]
pub enum LexError {
    #[error("out of memory")]
    NoMemory,
    #[error("{}:{}: {:?}", .0.line, .0.column, .0.kind)]
    Fault(LexFault),
}

impl From<AllocError> for LexError {
    ghost use Rattle.sq_lex.specs.declared.fault.LexError.TheVariants.{NoMemory};

    ghost from_gives = { λ _ e. e ≡ NoMemory };

    fn from(_error: AllocError) -> LexError {
        LexError::NoMemory
    }
}

impl<T: Drop> From<AllocFailed<T>> for LexError {
    ghost use Rattle.sq_lex.specs.declared.fault.LexError.TheVariants.{NoMemory};

    ghost from_gives = { λ _ e. e ≡ NoMemory };

    fn from(_error: AllocFailed<T>) -> LexError {
        LexError::NoMemory
    }
}
