//! Lexemes: tokens without their positions.

use crate::name::Name;
use crate::number::Number;
use crate::symbol::Symbol;
use crate::text::Characters;
use crate::word::Word;
use sq_items::Boxed;

/// A lexeme: a token without its position.
#[derive(Debug, Drop)]
pub enum Lexeme {
    /// A reserved word.
    Word(Word),
    /// A word that is not reserved.
    Name(Name),
    /// An unsigned number as it is spelled.
    Number(Number),
    /// The characters of a text literal, each doubled quote once.
    Text(Boxed<Characters>),
    /// A symbol.
    Symbol(Symbol),
}
