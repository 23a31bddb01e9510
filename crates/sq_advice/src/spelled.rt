//! Tokens as they are spelled in their text.

use sq_lex::{Lexeme, Symbol, Token};

/// The bytes of a token.
pub(crate) fn spelling_of<'t>(text: &'t [u8], token: &Token) -> &'t [u8] {
    let rest = bytes_from(text, token.start);
    &rest[..length_of(rest, &token.lexeme).min(rest.len())]
}

/// Gives the bytes from one on; past the text's end there are none.
pub(crate) fn bytes_from(text: &[u8], start: usize) -> &[u8] {
    if start <= text.len() {
        &text[start..]
    } else {
        b""
    }
}

/// How many bytes the token has with which a text begins.
fn length_of(text: &[u8], lexeme: &Lexeme) -> usize {
    match lexeme {
        Lexeme::Word(_) | Lexeme::Name(_) => length_of_word(text),
        Lexeme::Number(_) => text.iter().take_while(|byte| is_of_number(**byte)).count(),
        Lexeme::Text(_) => length_of_literal(text),
        Lexeme::Symbol(Symbol::NotEqual | Symbol::LessOrEqual | Symbol::GreaterOrEqual) => 2,
        Lexeme::Symbol(_) => 1,
    }
}

/// How many letters, digits and underscores a text begins with.
pub(crate) fn length_of_word(text: &[u8]) -> usize {
    text.iter().take_while(|byte| is_of_word(**byte)).count()
}

/// Whether a byte may be in a word: a letter, a digit or an underscore.
pub(crate) fn is_of_word(byte: u8) -> bool {
    byte.is_ascii_alphanumeric() || byte == b'_'
}

fn is_of_number(byte: u8) -> bool {
    byte.is_ascii_digit() || byte == b'.'
}

/// How many bytes the literal has with which a text begins: up to a quote that no other one follows.
pub(crate) fn length_of_literal(text: &[u8]) -> usize {
    let mut is_open = false;
    for (index, byte) in text.iter().enumerate() {
        if *byte == b'\'' {
            is_open = !is_open;
        } else if !is_open {
            return index;
        }
    }
    text.len()
}

/// Whether a token is of a pattern: a spelling, or `a name`, `a number` or `a text`.
pub(crate) fn is_of(pattern: &str, text: &[u8], token: &Token) -> bool {
    spelling_of(text, token).eq_ignore_ascii_case(pattern.as_bytes())
        || pattern == class_of(&token.lexeme)
}

fn class_of(lexeme: &Lexeme) -> &'static str {
    match lexeme {
        Lexeme::Name(_) => "a name",
        Lexeme::Number(_) => "a number",
        Lexeme::Text(_) => "a text",
        Lexeme::Word(_) | Lexeme::Symbol(_) => "",
    }
}
