//! The advice beside a line of `check`.

use crate::spelled::{bytes_from, length_of_word};
use sq_lex::LexFaultKind;
use std::alloc::{AllocError, Global};
use thiserror::Error;

/// The words beside a line of `check`.
#[derive(Drop)]
pub struct Advice {
    /// The first byte of what it is about.
    pub start: usize,
    /// How many bytes it has.
    pub length: usize,
    /// The token or name there; empty if the line says it.
    pub found: Vec<u8>,
    /// The tokens that are possible there, if they are known.
    pub expected: Vec<&'static [u8]>,
    /// The hint; empty if there is none.
    pub hint: Vec<u8>,
}

impl Advice {
    /// An advice without words, about the word that begins at a byte of a text, or that byte alone.
    pub fn at(alloc: Global, text: &[u8], start: usize) -> Advice {
        Advice {
            start,
            length: length_of_word(bytes_from(text, start)).max(1),
            found: Vec::new(alloc),
            expected: Vec::new(alloc),
            hint: Vec::new(alloc),
        }
    }

    /// The advice; one without words says what the line means.
    pub fn explain(self, meaning: &[u8]) -> Result<Advice, AllocError> {
        let Advice {
            start,
            length,
            mut found,
            expected,
            hint,
        } = self;
        if found.is_empty() && hint.is_empty() {
            found.extend_from_slice(meaning)?;
        }
        Ok(Advice {
            start,
            length,
            found,
            expected,
            hint,
        })
    }
}

/// Why a text is refused for its tokens or its grammar.
#[derive(Clone, Copy, Debug, PartialEq, Eq, Error)]
pub enum What {
    #[error("{0:?}")]
    Lexical(LexFaultKind),
    #[error("Unexpected")]
    Unexpected,
    #[error("TooDeep")]
    TooDeep,
    #[error("EndOfText")]
    EndOfText,
}

/// A refusal of a text, and what is said beside it.
#[derive(Drop)]
pub struct Trouble {
    pub what: What,
    pub advice: Advice,
}
