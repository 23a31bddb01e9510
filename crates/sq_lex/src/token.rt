//! Tokens: lexemes and their positions.

use crate::lexeme::Lexeme;

/// A lexeme and its position in the text, from which `Position::of` makes a line and a column.
#[derive(Debug, Drop)]
pub struct Token {
    pub lexeme: Lexeme,
    /// The token's first byte, from 0.
    pub start: usize,
}
