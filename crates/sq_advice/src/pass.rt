//! The errors of a text, one after the other: after each, reading goes on at the next element.

ghost use Rattle.std.specs.Prelude.{◌≤◌, length};

use crate::advice::{Advice, Trouble, What};
use crate::element::{last_comma, last_start, next_comma, next_start, open_in_table};
use crate::expected::{describe, find_expected, is_name, stands_for_names, tokens_to_try};
use crate::hint::{Spot, hint_of};
use crate::kind::{TextKind, refusal_of};
use crate::lexical::{MOST, tokens_of};
use crate::meaning::place_of;
use crate::names::read;
use crate::stands::describe_spot;
use sq_lex::Token;
use sq_parse::ParseError;
use std::alloc::{AllocError, Global};

/// The tokens before a comma of a table.
const TABLE: &[u8] = b"CREATE SCHEMA AUTHORIZATION U CREATE TABLE T (A INTEGER";

/// Why a text is refused for its tokens and its grammar, and what more would be if each error were mended: first the pieces that
/// are no tokens, then at most one error in each element without such a piece. At most a hundred of each are told.
pub fn troubles_of(alloc: Global, kind: TextKind, text: &[u8]) -> Result<Vec<Trouble>, AllocError> {
    let mut troubles = Vec::new(alloc);
    let Some(mut rest) = tokens_of(alloc, text, &mut troubles)? else {
        return Ok(troubles);
    };
    let pieces = troubles.len();
    for _ in 0..MOST {
        match refusal_of(alloc, kind, rest.as_slice())? {
            Some(refusal) => rest = pass(alloc, kind, text, rest, refusal, pieces, &mut troubles)?,
            None => return Ok(troubles),
        }
    }
    Ok(troubles)
}

/// Adds a refusal, unless its element has one of the pieces that are no tokens, of which there are so many.
/// It gives the tokens of a text that goes on after it.
fn pass(
    alloc: Global,
    kind: TextKind,
    text: &[u8],
    tokens: Vec<Token>,
    refusal: ParseError,
    pieces: usize,
    troubles: &mut Vec<Trouble>,
) -> Result<Vec<Token>, AllocError> {
    let mut before = tokens;
    let index = index_of(refusal, before.len());
    let mut rest = before.split_off(index)?;
    let way = way_on(kind, before.as_slice(), rest.as_slice());
    let from = start_of_element(kind, before.as_slice());
    let to = match rest.get(way.next) {
        Some(token) => token.start,
        None => text.len(),
    };
    if !has_piece(troubles.as_slice(), pieces, from, to) {
        let trouble = trouble_at(alloc, kind, text, &mut before, rest.first(), refusal)?;
        troubles.push(trouble)?;
    }
    drop(before);
    let after = rest.split_off(way.next.min(rest.len()))?;
    drop(rest);
    prepend_head(alloc, way.head, after)
}

/// The way in which reading goes on after an error.
#[derive(Clone, Copy)]
struct Way {
    /// How many tokens are passed over.
    next: usize,
    /// The text in the place of all before.
    head: &'static [u8],
}

/// Finds the way on from the token that is refused, after those before it: to the next element of the same
/// table, or of the text.
fn way_on(kind: TextKind, before: &[Token], rest: &[Token]) -> Way {
    let comma = match kind {
        TextKind::Schema => next_comma(open_in_table(before), rest),
        _ => None,
    };
    match comma {
        Some(next) => Way { next, head: TABLE },
        None => Way {
            next: next_start(kind, rest),
            head: head_of(kind),
        },
    }
}

/// Gives the number of the token that is refused. If a text ends too early, it is after the last one.
fn index_of(refusal: ParseError, count: usize) -> usize
    ensures { result ≤ count }
{
    match refusal {
        ParseError::Unexpected(index) | ParseError::TooDeep(index) => index.min(count),
        ParseError::EndOfText | ParseError::NoMemory => count,
    }
}

fn what_of(refusal: ParseError) -> What {
    match refusal {
        ParseError::Unexpected(_) => What::Unexpected,
        ParseError::TooDeep(_) => What::TooDeep,
        ParseError::EndOfText | ParseError::NoMemory => What::EndOfText,
    }
}

/// Whether one of the first so many troubles is between two bytes.
fn has_piece(troubles: &[Trouble], pieces: usize, from: usize, to: usize) -> bool {
    troubles.iter().take(pieces).any(|trouble| from <= trouble.advice.start
        && trouble.advice.start < to)
}

/// The first byte of the element in which these tokens end: of a table's too.
fn start_of_element(kind: TextKind, tokens: &[Token]) -> usize {
    let comma = match kind {
        TextKind::Schema => last_comma(tokens),
        _ => None,
    };
    match tokens.get(comma.unwrap_or(last_start(kind, tokens))) {
        Some(token) => token.start,
        None => 0,
    }
}

/// Puts the tokens of a head before others.
fn prepend_head(alloc: Global, head: &[u8], tokens: Vec<Token>) -> Result<Vec<Token>, AllocError> {
    let mut all = read(alloc, head)?;
    for token in tokens {
        all.push(token)?;
    }
    Ok(all)
}

/// A head with which a text of a kind may begin.
fn head_of(kind: TextKind) -> &'static [u8] {
    match kind {
        TextKind::Schema => b"CREATE SCHEMA AUTHORIZATION U",
        TextKind::Module => b"MODULE M LANGUAGE C AUTHORIZATION U",
        TextKind::Script => b"",
    }
}

/// A refusal at a token, and what is said beside it.
fn trouble_at(
    alloc: Global,
    kind: TextKind,
    text: &[u8],
    before: &mut Vec<Token>,
    at: Option<&Token>,
    refusal: ParseError,
) -> Result<Trouble, AllocError> {
    let tried = tokens_to_try(alloc)?;
    let fit = find_expected(alloc, kind, before, tried.as_slice())?;
    drop(tried);
    let spot = Spot {
        kind,
        text,
        before: before.last(),
        at,
        expected: fit.as_slice(),
    };
    let advice = match refusal {
        ParseError::TooDeep(_) => advice_on_depth(alloc, &spot),
        _ => advice_at(alloc, &spot),
    };
    drop(fit);
    match advice {
        Ok(advice) => Ok(Trouble {
            what: what_of(refusal),
            advice,
        }),
        Err(error) => Err(error),
    }
}

/// Makes the advice on a token that is unexpected or missing.
fn advice_at(alloc: Global, spot: &Spot<'_>) -> Result<Advice, AllocError> {
    let hint = hint_of(spot);
    let found = describe_spot(alloc, spot, hint)?;
    let says = match hint {
        Some(hint) => Vec::from_slice(alloc, hint.says.as_bytes())?,
        None => Vec::new(alloc),
    };
    let expected = names_of(alloc, spot.expected)?;
    let (start, length) = place_of(spot.text, spot.at.or(spot.before));
    Ok(Advice {
        start,
        length,
        found,
        expected,
        hint: says,
    })
}

fn advice_on_depth(alloc: Global, spot: &Spot<'_>) -> Result<Advice, AllocError> {
    let (start, length) = place_of(spot.text, spot.at.or(spot.before));
    Ok(Advice {
        start,
        length,
        found: Vec::from_slice(alloc, b"32 round brackets are open already")?,
        expected: Vec::new(alloc),
        hint: Vec::new(alloc),
    })
}

/// Describes tokens, in their order; CALL is left out if any name may be there.
fn names_of(alloc: Global, tokens: &[Token]) -> Result<Vec<&'static [u8]>, AllocError> {
    let mut names = Vec::new(alloc);
    let has_name = tokens.iter().any(|token| stands_for_names(token));
    for token in tokens {
        if !has_name || stands_for_names(token) || !is_name(token) {
            names.push(describe(token))?;
        }
    }
    Ok(names)
}
