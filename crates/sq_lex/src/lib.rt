//! The lexer: from the bytes of a text to its tokens.
#![tactic(auto)]

mod characters;
mod fault;
mod lexeme;
mod literal;
mod name;
mod number;
mod piece;
mod position;
mod reading;
mod reserved;
mod symbol;
mod text;
mod token;
mod word;

pub use fault::{LexError, LexFault, LexFaultKind};
pub use lexeme::Lexeme;
pub use name::Name;
pub use number::Number;
pub use position::Position;
pub use reading::lex;
pub use symbol::Symbol;
pub use text::Characters;
pub use token::Token;
pub use word::Word;
