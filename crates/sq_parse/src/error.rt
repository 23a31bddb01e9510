//! Why a text has no tree.

ghost use Rattle.std.specs.Prelude.{◌≡◌, ◌+◌, ◌≤◌, length, nat_eq};
ghost use Rattle.sq_lex.specs.Token.{lexemes};
ghost use Rattle.sq_grammar.specs.Brackets as spec;
ghost use Rattle.sq_parse.specs.Refusal as refusals;

use sq_grammar::{MAX_DEPTH, Reader, Stop};
use sq_lex::{Lexeme, Symbol, Token};
use thiserror::Error;

/// Why a text has no tree. A token is named by its index in the text's list of tokens, from 0.
#[derive(Clone, Copy, Debug, PartialEq, Eq, Error)]
pub enum ParseError {
    /// Memory ran out.
    #[error("out of memory")]
    NoMemory,
    /// The first token that cannot follow the tokens before it in any text of the grammar.
    #[error("token {0} is unexpected")]
    Unexpected(usize),
    /// An opening bracket before which as many round brackets are open as may be.
    #[error("token {0} opens too many brackets")]
    TooDeep(usize),
    /// The tokens end where no text of the grammar does.
    #[error("the text ends too early")]
    EndOfText,
}

/// How many brackets the tokens leave open.
fn open_brackets(tokens: &[Token]) -> usize
    ensures value { result ≡ spec.open_brackets (lexemes tokens.now) }
    ensures short { result ≤ length tokens.now }
{
    let mut open: usize = 0;
    for token in tokens {
        match &token.lexeme {
            Lexeme::Symbol(Symbol::Open) => open += 1,
            Lexeme::Symbol(Symbol::Close) => open = open.saturating_sub(1),
            _ => {}
        }
    }
    open
}

/// Whether the token of this index is an opening bracket, before which as many are open as may be.
fn is_too_deep(tokens: &[Token], index: usize) -> bool
    requires { index ≤ length tokens.now }
    ensures { result ≡ spec.is_too_deep (lexemes tokens.now) index }
{
    let opens = Reader::new(&tokens[index..]).sees(Symbol::Open);
    let open = open_brackets(&tokens[..index]);
    opens && open == MAX_DEPTH
}

/// The refusal at a stop.
pub fn refusal(tokens: &[Token], stop: Stop) -> ParseError
    ensures { result ≡ refusals.refusal (lexemes tokens.now) stop }
{
    let Stop::Unfit(left) = stop else {
        return ParseError::NoMemory;
    };
    let index = tokens.len().saturating_sub(left);
    if index == tokens.len() {
        return ParseError::EndOfText;
    }
    if is_too_deep(tokens, index) {
        ParseError::TooDeep(index)
    } else {
        ParseError::Unexpected(index)
    }
}
