//! Schema and module texts, of which elements with an error may be passed over.

use crate::advice::Trouble;
use crate::lexical::tokens_of;
use crate::text::Text;
use sq_lex::Token;
use std::alloc::{AllocError, Global};

/// A text and its tokens, and the rest of it after elements with an error are passed over.
#[derive(Drop)]
pub struct Source<'t> {
    pub file: &'t str,
    pub text: Text<'t>,
    left: &'t [u8],
    pub(crate) tokens: Vec<Token>,
}

impl<'t> Source<'t> {
    /// The text of a file, and what is left of it.
    pub fn new(
        alloc: Global,
        file: &'t str,
        bytes: &'t [u8],
        left: &'t [u8],
    ) -> Result<Source<'t>, AllocError> {
        let text = Text::new(alloc, bytes)?;
        let mut troubles = Vec::new(alloc);
        let tokens = read_all(alloc, bytes, &mut troubles);
        drop(troubles);
        match tokens {
            Ok(tokens) => Ok(Source {
                file,
                text,
                left,
                tokens,
            }),
            Err(error) => {
                drop(text);
                Err(error)
            }
        }
    }

    /// Whether the element that holds a byte is passed over.
    pub(crate) fn is_passed(&self, byte: usize) -> bool {
        self.text.bytes.get(byte) != self.left.get(byte)
    }

    /// Adds the place of a token in this text, as it is said in this or another file.
    pub(crate) fn add_place(
        &self,
        words: &mut Vec<u8>,
        alloc: Global,
        byte: usize,
        file: &str,
    ) -> Result<(), AllocError> {
        let place = self.text.place(byte);
        let says = format!(in alloc; "{}:{}", place.line, place.column)?;
        words.extend_from_slice(says.as_bytes())?;
        if self.file != file {
            words.extend_from_slice(b" of ")?;
            words.extend_from_slice(self.file.as_bytes())?;
        }
        Ok(())
    }
}

/// Reads the tokens of a text, in which each piece that is none counts as blanks.
fn read_all(
    alloc: Global,
    text: &[u8],
    troubles: &mut Vec<Trouble>,
) -> Result<Vec<Token>, AllocError> {
    match tokens_of(alloc, text, troubles)? {
        Some(tokens) => Ok(tokens),
        None => Ok(Vec::new(alloc)),
    }
}
