//! Words on the token at which a text is refused for its grammar.

use crate::hint::{Hint, Spot};
use crate::spelled::spelling_of;
use sq_lex::{Lexeme, Token};
use std::alloc::{AllocError, Global};

/// Describes the token at a spot; empty if its line says all.
pub(crate) fn describe_spot(
    alloc: Global,
    spot: &Spot<'_>,
    hint: Option<&Hint>,
) -> Result<Vec<u8>, AllocError> {
    let mut words = Vec::new(alloc);
    match spot.at {
        None => words.extend_from_slice(b"the text ends here")?,
        Some(token) => add_found(&mut words, spot, token, hint)?,
    }
    Ok(words)
}

/// Adds the feature that a hint says is missing. Without a hint, it adds that a word is reserved, if a name
/// may be there.
fn add_found(
    words: &mut Vec<u8>,
    spot: &Spot<'_>,
    token: &Token,
    hint: Option<&Hint>,
) -> Result<(), AllocError> {
    match hint {
        Some(hint) => words.extend_from_slice(hint.missing.as_bytes()),
        None => add_reserved(words, spot, token),
    }
}

/// Adds that a word is reserved, if a name may be there.
fn add_reserved(words: &mut Vec<u8>, spot: &Spot<'_>, token: &Token) -> Result<(), AllocError> {
    if !is_word(token) || !spot.takes_names() {
        return Ok(());
    }
    add_upper(words, spelling_of(spot.text, token))?;
    words.extend_from_slice(b" is a reserved word")
}

fn is_word(token: &Token) -> bool {
    matches!(token.lexeme, Lexeme::Word(_))
}

/// Adds a text in capitals.
fn add_upper(words: &mut Vec<u8>, text: &[u8]) -> Result<(), AllocError> {
    for byte in text {
        words.push(byte.to_ascii_uppercase())?;
    }
    Ok(())
}
