//! The names that texts declare.

use sq_lex::{LexError, Lexeme, Name, Symbol, Token, Word, lex};
use std::alloc::{AllocError, Global};

/// The kind of thing that a name names.
#[derive(Clone, Copy, Debug, PartialEq, Eq)]
pub enum NameKind {
    Table,
    Column,
    Parameter,
    Cursor,
}

/// Reads the tokens of a text; none if it is refused.
pub(crate) fn read(alloc: Global, text: &[u8]) -> Result<Vec<Token>, AllocError> {
    match lex(alloc, text) {
        Ok(tokens) => Ok(tokens),
        Err(LexError::NoMemory) => Err(AllocError),
        Err(LexError::Fault(_)) => Ok(Vec::new(alloc)),
    }
}

/// The names of a kind that a text declares.
pub(crate) fn list_declared(
    alloc: Global,
    kind: NameKind,
    tokens: &[Token],
) -> Result<Vec<Name>, AllocError> {
    let mut names = Vec::new(alloc);
    add_declared(&mut names, kind, tokens)?;
    Ok(names)
}

/// Adds the names of a kind that these tokens declare.
pub(crate) fn add_declared(
    names: &mut Vec<Name>,
    kind: NameKind,
    tokens: &[Token],
) -> Result<(), AllocError> {
    for index in 0..tokens.len() {
        if let Some(name) = declared_name_at(kind, tokens, index) {
            names.push(name)?;
        }
    }
    Ok(())
}

/// The name of a kind that is declared at the token of this number, if one is.
fn declared_name_at(kind: NameKind, tokens: &[Token], index: usize) -> Option<Name> {
    let name = name_at(tokens, index)?;
    let stands = match kind {
        NameKind::Table => is_new_table(tokens, index),
        NameKind::Column => is_new_column(tokens, index),
        NameKind::Parameter => is_parameter(tokens, index) && is_type(tokens, index_after(index)),
        NameKind::Cursor => is_word(tokens, index_before(index), Word::Declare),
    };
    if stands { Some(name) } else { None }
}

/// Whether a name is after CREATE TABLE or CREATE VIEW, and perhaps a user.
fn is_new_table(tokens: &[Token], index: usize) -> bool {
    let first = if is_symbol(tokens, index_before(index), Symbol::Dot) {
        index.saturating_sub(2)
    } else {
        index
    };
    is_new(tokens, index_before(first)) && !is_symbol(tokens, index_after(index), Symbol::Dot)
}

/// Whether the token of this number is TABLE or VIEW after CREATE.
fn is_new(tokens: &[Token], index: usize) -> bool {
    (is_word(tokens, index, Word::Table) || is_word(tokens, index, Word::View))
        && is_word(tokens, index_before(index), Word::Create)
}

/// Whether a name is before a type, or alone in a list in brackets, in which schemas have columns.
fn is_new_column(tokens: &[Token], index: usize) -> bool {
    is_type(tokens, index_after(index)) || is_listed(tokens, index)
}

fn is_listed(tokens: &[Token], index: usize) -> bool {
    let begins = is_symbol(tokens, index_before(index), Symbol::Open)
        || is_symbol(tokens, index_before(index), Symbol::Comma);
    let ends = is_symbol(tokens, index_after(index), Symbol::Close)
        || is_symbol(tokens, index_after(index), Symbol::Comma);
    begins && ends
}

/// Whether the token of this number is after a colon.
pub(crate) fn is_parameter(tokens: &[Token], index: usize) -> bool {
    is_symbol(tokens, index_before(index), Symbol::Colon)
}

/// Whether a type begins at the token of this number.
pub(crate) fn is_type(tokens: &[Token], index: usize) -> bool {
    match tokens.get(index) {
        Some(token) => is_type_word(&token.lexeme),
        None => false,
    }
}

fn is_type_word(lexeme: &Lexeme) -> bool {
    matches!(
        lexeme,
        Lexeme::Word(
            Word::Smallint
                | Word::Integer
                | Word::Int
                | Word::Numeric
                | Word::Decimal
                | Word::Dec
                | Word::Character
                | Word::Char
                | Word::Varchar
        )
    )
}

/// The number before this one; before 0 there is none, and a number that no token has is answered.
pub(crate) fn index_before(index: usize) -> usize {
    index.wrapping_sub(1)
}

/// The number after this one.
pub(crate) fn index_after(index: usize) -> usize {
    index.saturating_add(1)
}

/// The name that is the token of this number, if it is one.
pub(crate) fn name_at(tokens: &[Token], index: usize) -> Option<Name> {
    match &tokens.get(index)?.lexeme {
        Lexeme::Name(name) => Some(*name),
        _ => None,
    }
}

/// Whether the token of this number is this name.
pub(crate) fn is_name(tokens: &[Token], index: usize, name: Name) -> bool {
    match name_at(tokens, index) {
        Some(other) => other == name,
        None => false,
    }
}

/// Whether the token of this number is this reserved word.
pub(crate) fn is_word(tokens: &[Token], index: usize, word: Word) -> bool {
    match tokens.get(index) {
        Some(token) => match &token.lexeme {
            Lexeme::Word(other) => other.is(word),
            _ => false,
        },
        None => false,
    }
}

/// Whether the token of this number is this symbol.
pub(crate) fn is_symbol(tokens: &[Token], index: usize, symbol: Symbol) -> bool {
    match tokens.get(index) {
        Some(token) => match &token.lexeme {
            Lexeme::Symbol(other) => other.is(symbol),
            _ => false,
        },
        None => false,
    }
}
