//! Names that are handed in.

ghost use Rattle.std.specs.Prelude.{◌≡◌, Ok, IfErr, IfOk};
ghost use Rattle.sq_exchange.specs.Answer.{IsWhy};
ghost use Rattle.sq_exchange.specs.Name as spec;

use crate::answer::Answer;
use sq_lex::{LexError, Lexeme, Name, Token, lex};
use std::alloc::Global;

/// The name that a text spells, in upper or lower case.
pub fn name_of(alloc: Global, text: &[u8]) -> Result<Name, Answer>
    ensures named { IfOk result (λ name. spec.name_read text.now ≡ Ok name) }
    ensures refused { IfErr result (IsWhy (spec.name_read text.now)) }
{
    match lex(alloc, text) {
        Ok(tokens) => match only_name(tokens.as_slice()) {
            Some(name) => Ok(name),
            None => Err(Answer::Unknown),
        },
        Err(LexError::NoMemory) => Err(Answer::NoMemory),
        Err(LexError::Fault(_)) => Err(Answer::Unknown),
    }
}

/// The name that is the only token.
fn only_name(tokens: &[Token]) -> Option<Name>
    ensures { result ≡ spec.only_name tokens.now }
{
    match tokens {
        [token] => match &token.lexeme {
            Lexeme::Name(name) => Some(*name),
            _ => None,
        },
        _ => None,
    }
}
