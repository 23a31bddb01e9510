//! The reading of a whole text.

ghost use Rattle.std.specs.Prelude.{◌≡◌, ◌+◌, ◌<◌, ◌≤◌, length, drop, MatchResult, IfOk, IfErr, Ok};
ghost use Rattle.sq_lex.specs.Position as positions;
ghost use Rattle.sq_lex.specs.Row.{IsRow};
ghost use Rattle.sq_lex.specs.Reading as spec;
ghost use Rattle.sq_lex.specs.Reading.{reading, tokens_from, followed, IsCause};

use crate::fault::{LexError, LexFault, LexFaultKind};
use crate::piece::Piece;
use crate::position::Position;
use crate::token::Token;
use std::alloc::Global;

/// The tokens of a text with their first bytes, or its first fault (ISO/IEC 9075:1992, 5.2, tokens and separators, and 5.3,
/// literals). It takes time linear in the text.
///
/// Only white space and comments separate the tokens, and each token is the longest spelling at its position.
pub fn lex(alloc: Global, text: &[u8]) -> Result<Vec<Token>, LexError>
    ensures row { IfOk result (λ tokens. IsRow text.now (length text.now) tokens.items) }
    ensures value { MatchResult result
        (λ tokens. reading text.now ≡ Ok tokens.items) (IsCause (reading text.now)) }
{
    let mut tokens = Vec::new(alloc);
    let mut at = 0;
    while at < text.len() {
        let size = read_piece(alloc, &mut tokens, text, at)?;
        at += size;
    }
    Ok(tokens)
}

/// Reads the piece of a text at a byte, adds its token if it is one, and answers its size.
fn read_piece(
    alloc: Global,
    tokens: &mut Vec<Token>,
    text: &[u8],
    at: usize,
) -> Result<usize, LexError>
    requires { at < length text.now }
    ensures within { IfOk result (λ size. (0 < size) × (at + size ≤ length text.now)) }
    ensures read { IfOk result
        (λ size. followed tokens.new.items
        (tokens_from (positions.position text.now (at + size)) 0 (drop (at + size) text.now))
        ≡ followed tokens.old.items (tokens_from (positions.position text.now at) 0 (drop at text.now))) }
    ensures row { IfOk result
        (λ size. IsRow text.now at tokens.old.items → IsRow text.now (at + size) tokens.new.items) }
    ensures fault { IfErr result
        (IsCause (tokens_from (positions.position text.now at) 0 (drop at text.now))) }
{
    match Piece::first(alloc, &text[at..])? {
        Piece::Separator(size) => Ok(size),
        Piece::Token { size, lexeme } => {
            tokens.push(Token { lexeme, start: at })?;
            Ok(size)
        }
        Piece::Fault { at: before, kind } => Err(fault_at(text, at + before, kind)),
    }
}

/// A fault at a byte of a text.
fn fault_at(text: &[u8], at: usize, kind: LexFaultKind) -> LexError
    ensures { result ≡ LexError.Fault (spec.fault_at (positions.position text.now at) kind) }
{
    let Position { line, column, .. } = Position::of(text, at);
    LexError::Fault(LexFault { kind, line, column })
}
