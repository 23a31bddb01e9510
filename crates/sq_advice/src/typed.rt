//! Types and defaults of columns.

use crate::names::{index_after, is_symbol, is_word};
use crate::spelled::{length_of_literal, spelling_of};
use sq_lex::{Lexeme, Symbol, Token, Word};

/// Whether the type in a column's definition has a number that is out of range, or written with a point.
pub(crate) fn has_bad_type(text: &[u8], definition: &[Token]) -> bool {
    let Some(open) = length_open(definition) else {
        return false;
    };
    let first = number_at(text, definition, index_after(open));
    let second = if is_symbol(definition, open.saturating_add(2), Symbol::Comma) {
        number_at(text, definition, open.saturating_add(3))
    } else {
        Some(0)
    };
    match (first, second) {
        (Some(first), Some(second)) => {
            let most = if is_text(definition) { 240 } else { 18 };
            first == 0 || first > most || second > first
        }
        _ => true,
    }
}

/// Finds the bracket after a type.
fn length_open(definition: &[Token]) -> Option<usize> {
    let open = (1..definition.len().min(4)).find(|index| is_symbol(
        definition,
        *index,
        Symbol::Open,
    ))?;
    if is_word(definition, open.saturating_sub(1), Word::Check) {
        None
    } else {
        Some(open)
    }
}

fn is_text(definition: &[Token]) -> bool {
    is_word(definition, 1, Word::Char)
        || is_word(definition, 1, Word::Character)
        || is_word(definition, 1, Word::Varchar)
}

/// The number at a token, if it is a whole one without a point.
fn number_at(text: &[u8], tokens: &[Token], index: usize) -> Option<usize> {
    let mut value: usize = 0;
    for byte in spelling_of(text, tokens.get(index)?) {
        if !byte.is_ascii_digit() {
            return None;
        }
        value = value
            .saturating_mul(10)
            .saturating_add((*byte as usize).saturating_sub(48));
    }
    Some(value)
}

/// Whether the default of a column is of another kind than its type, or USER or a text that is too long for it.
pub(crate) fn has_bad_default(text: &[u8], definition: &[Token]) -> bool {
    let Some(at) = (0..definition.len()).find(|index| is_word(definition, *index, Word::Default))
    else {
        return false;
    };
    let Some(token) = definition.get(index_after(at)) else {
        return false;
    };
    match &token.lexeme {
        Lexeme::Word(Word::User) => !is_text(definition) || length_of(text, definition) < 18,
        Lexeme::Word(_) => false,
        Lexeme::Text(_) => {
            !is_text(definition) || length_of(text, definition) < letters(spelling_of(text, token))
        }
        _ => is_text(definition) || is_large(text, definition, index_after(at)),
    }
}

/// How many characters the text of a type has at most.
fn length_of(text: &[u8], definition: &[Token]) -> usize {
    match length_open(definition) {
        Some(open) => number_at(text, definition, index_after(open)).unwrap_or(0),
        None => 1,
    }
}

/// How many characters a literal has, without its quotes.
fn letters(literal: &[u8]) -> usize {
    let quotes = literal.iter().filter(|byte| **byte == b'\'').count();
    length_of_literal(literal)
        .saturating_sub(1)
        .saturating_sub(quotes / 2)
}

/// Whether the digits of a number before its point are more than a type has.
fn is_large(text: &[u8], definition: &[Token], at: usize) -> bool {
    let number = if is_symbol(definition, at, Symbol::Minus)
        || is_symbol(definition, at, Symbol::Plus)
    {
        index_after(at)
    } else {
        at
    };
    let Some(token) = definition.get(number) else {
        return false;
    };
    let digits = spelling_of(text, token)
        .iter()
        .skip_while(|byte| **byte == b'0')
        .take_while(|byte| byte.is_ascii_digit())
        .count();
    digits > digits_of(text, definition)
}

/// How many digits a type has before the point.
fn digits_of(text: &[u8], definition: &[Token]) -> usize {
    if is_word(definition, 1, Word::Smallint) {
        return 4;
    }
    let Some(open) = length_open(definition) else {
        return if is_word(definition, 1, Word::Integer) || is_word(definition, 1, Word::Int) {
            9
        } else {
            18
        };
    };
    let precision = number_at(text, definition, index_after(open)).unwrap_or(18);
    let scale = if is_symbol(definition, open.saturating_add(2), Symbol::Comma) {
        number_at(text, definition, open.saturating_add(3)).unwrap_or(0)
    } else {
        0
    };
    precision.saturating_sub(scale)
}
