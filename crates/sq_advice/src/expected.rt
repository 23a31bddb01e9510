//! The tokens that may follow others.

ghost use Rattle.std.specs.Prelude.{◌≡◌, ◌++◌, ◌∷◌, [], IfOk, OnOk};
ghost use Rattle.std.specs.List.{filter};
ghost use Rattle.sq_lex.specs.Token.{lexemes};
ghost use Rattle.sq_advice.specs.Expected as spec;

use crate::kind::{TextKind, refusal_of};
use sq_items::Boxed;
use sq_lex::{Characters, LexError, Lexeme, Token, lex};
use sq_parse::ParseError;
use std::alloc::{AllocError, Global};

/// The tokens that are tried: a name, a number, a text, each reserved word and each symbol. CALL is tried
/// too, which is a name if it begins no item of a script.
pub(crate) const TRIED: &[u8] = b"\
N 1 '' ABSOLUTE ALL AND ANY AS ASC AUTHORIZATION AVG BETWEEN BY CALL CHAR CHARACTER CHECK CLOSE COMMIT COUNT CREATE CURRENT CURSOR DEC \
DECIMAL DECLARE DEFAULT DELETE DESC DISTINCT ESCAPE EXISTS FETCH FIRST FOR FOREIGN FROM GRANT GROUP HAVING IN INDICATOR INSENSITIVE \
INSERT INT INTEGER INTO IS KEY LANGUAGE LAST LIKE MAX MIN MODULE NEXT NOT NULL NUMERIC OF ON OPEN OPTION OR ORDER PRIMARY PRIOR \
PRIVILEGES PROCEDURE PUBLIC REFERENCES RELATIVE ROLLBACK SCHEMA SCROLL SELECT SET SMALLINT SOME SQLCODE SQLSTATE SUM TABLE TO UNION \
UNIQUE UPDATE USER VALUES VARCHAR VARYING VIEW WHERE WITH WORK ( ) , ; . : * + - / = <> < > <= >=";

/// The tokens that are tried.
pub(crate) fn tokens_to_try(alloc: Global) -> Result<Vec<Token>, AllocError> {
    match lex(alloc, TRIED) {
        Ok(tokens) => Ok(tokens),
        Err(LexError::NoMemory) => Err(AllocError),
        Err(LexError::Fault(_)) => Ok(Vec::new(alloc)),
    }
}

/// The tokens, of these, that may follow others in a text of a kind.
#[tactic(auto, using(crate::proofs::Fit::fit_next))]
pub(crate) fn find_expected(
    alloc: Global,
    kind: TextKind,
    before: &mut Vec<Token>,
    tried: &[Token],
) -> Result<Vec<Token>, AllocError>
    ensures before { OnOk result (before.new.items ≡ before.old.items) }
    ensures fit { IfOk result (λ fit. lexemes fit.items
        ≡ filter (spec.may_follow kind (lexemes before.old.items)) (lexemes tried.now)) }
{
    let mut fit = Vec::new(alloc);
    for token in tried {
        add_if_fit(alloc, kind, before, token, &mut fit)?;
    }
    Ok(fit)
}

/// Adds a token, if it may follow others in a text of a kind.
fn add_if_fit(
    alloc: Global,
    kind: TextKind,
    before: &mut Vec<Token>,
    token: &Token,
    fit: &mut Vec<Token>,
) -> Result<(), AllocError>
    ensures before { OnOk result (before.new.items ≡ before.old.items) }
    ensures fit { OnOk result (lexemes fit.new.items ≡ lexemes fit.old.items
        ++ filter (spec.may_follow kind (lexemes before.old.items)) (token.now.lexeme ∷ [])) }
{
    if may_follow(alloc, kind, before, token)? {
        fit.push(copy_token(alloc, token)?)?;
    }
    Ok(())
}

/// Whether a token may follow others in a text of a kind.
fn may_follow(
    alloc: Global,
    kind: TextKind,
    before: &mut Vec<Token>,
    token: &Token,
) -> Result<bool, AllocError>
    ensures before { OnOk result (before.new.items ≡ before.old.items) }
    ensures follows { IfOk result
        (λ follows. follows ≡ spec.may_follow kind (lexemes before.old.items) token.now.lexeme) }
{
    before.push(copy_token(alloc, token)?)?;
    let goes = goes_on(alloc, kind, before.as_slice());
    if let Some(last) = before.pop() {
        drop(last);
    }
    goes
}

/// A copy of a token.
fn copy_token(alloc: Global, token: &Token) -> Result<Token, AllocError>
    ensures { IfOk result (λ copy. copy ≡ token.now) }
{
    Ok(Token {
        lexeme: copy_lexeme(alloc, &token.lexeme)?,
        start: token.start,
    })
}

fn copy_lexeme(alloc: Global, lexeme: &Lexeme) -> Result<Lexeme, AllocError>
    ensures { IfOk result (λ copy. copy ≡ lexeme.now) }
{
    match lexeme {
        Lexeme::Word(word) => Ok(Lexeme::Word(*word)),
        Lexeme::Name(name) => Ok(Lexeme::Name(*name)),
        Lexeme::Number(number) => Ok(Lexeme::Number(*number)),
        Lexeme::Symbol(symbol) => Ok(Lexeme::Symbol(*symbol)),
        Lexeme::Text(characters) => copy_text(alloc, characters.get()),
    }
}

fn copy_text(alloc: Global, characters: &Characters) -> Result<Lexeme, AllocError>
    ensures { IfOk result (λ copy. copy ≡ Lexeme.Text characters.now) }
{
    let copy = characters.copy(alloc)?;
    Ok(Lexeme::Text(Boxed::new(alloc, copy)?))
}

/// Whether a text of the kind may begin with these tokens.
fn goes_on(alloc: Global, kind: TextKind, tokens: &[Token]) -> Result<bool, AllocError>
    ensures { IfOk result (λ goes. goes ≡ spec.may_go_on (spec.refusal_of kind (lexemes tokens.now))) }
{
    match refusal_of(alloc, kind, tokens) {
        Ok(refusal) => Ok(may_go_on(refusal)),
        Err(error) => Err(error),
    }
}

/// Whether a text is taken, or refused only because it ends.
fn may_go_on(refusal: Option<ParseError>) -> bool
    ensures { result ≡ spec.may_go_on refusal }
{
    matches!(refusal, None | Some(ParseError::EndOfText))
}

/// Whether a token is a name.
pub(crate) fn is_name(token: &Token) -> bool {
    matches!(token.lexeme, Lexeme::Name(_))
}

/// Whether a token that was tried is taken as any name.
pub(crate) fn stands_for_names(token: &Token) -> bool {
    is_name(token) && token.start == 0
}

/// Describes a token that was tried, by its spelling or its kind.
pub(crate) fn describe(token: &Token) -> &'static [u8] {
    match &token.lexeme {
        Lexeme::Number(_) => b"a number",
        Lexeme::Text(_) => b"a text",
        Lexeme::Name(_) => name_or_call(token.start),
        Lexeme::Word(_) | Lexeme::Symbol(_) => up_to_blank(token.start),
    }
}

/// A name, or CALL.
fn name_or_call(start: usize) -> &'static [u8] {
    if start == 0 {
        b"a name"
    } else {
        up_to_blank(start)
    }
}

/// Gives the bytes of `TRIED` from one up to the next blank.
fn up_to_blank(start: usize) -> &'static [u8] {
    let tried = TRIED;
    if tried.len() < start {
        return b"";
    }
    let rest = &tried[start..];
    match rest.iter().position(|byte| *byte == b' ') {
        Some(end) => &rest[..end],
        None => rest,
    }
}
