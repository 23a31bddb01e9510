//! Texts in which elements with an error are passed over.

ghost use Rattle.std.specs.Prelude.{◌≡◌, ◌++◌, IfOk, IfSome, OnOk, map};
ghost use Rattle.sq_advice.specs.Passed as spec;
ghost use Rattle.sq_advice.specs.Passed.{IsPieceOf};

use crate::element::begins_at;
use crate::kind::TextKind;
use crate::lexical::{is_in_comment, tokens_of};
use crate::line::first_line;
use crate::names::{index_after, is_word};
use crate::spelled::{bytes_from as bytes_behind, length_of_word, spelling_of};
use sq_lex::{Token, Word};
use std::alloc::{AllocError, Global};

/// The thing that is refused at a byte of a text.
#[derive(Clone, Copy, Debug, PartialEq, Eq)]
pub enum Why {
    /// The element that holds it.
    Element,
    /// The token that begins there, which cannot follow those before it.
    Token,
    /// A piece that is no token.
    NoToken,
}

/// A piece of a text, by its first byte and the byte after it.
#[derive(Clone, Copy, Debug, PartialEq, Eq)]
pub struct Piece {
    pub start: usize,
    pub end: usize,
}

/// Passes over the element that is refused at a byte of a text. In the head of a text, or of a schema, it
/// passes over the token or the piece alone. It answers nothing if the head can't be mended so.
#[tactic(auto, using(crate::proofs::Left::one_left))]
pub fn pass_over(
    alloc: Global,
    kind: TextKind,
    text: &[u8],
    at: usize,
    why: Why,
) -> Result<Option<Vec<u8>>, AllocError>
    ensures { IfOk result (λ answer. IfSome answer (λ left. spec.IsLeft text.now left.items)) }
{
    let piece = if why == Why::NoToken && is_in_comment(text, at) {
        rest_of_line(text, at)
    } else {
        piece_around(alloc, kind, text, at, why)?
    };
    match piece {
        Some(piece) => Ok(Some(blank_out(alloc, text, piece)?)),
        None => Ok(None),
    }
}

/// Finds the bytes from one on in its line.
fn rest_of_line(text: &[u8], at: usize) -> Option<Piece>
    ensures { IfSome result (IsPieceOf text.now) }
{
    piece_of(text, at, first_line(bytes_behind(text, at)).len())
}

/// Finds the piece of a text to be passed over for a refusal at a byte in no comment.
fn piece_around(
    alloc: Global,
    kind: TextKind,
    text: &[u8],
    at: usize,
    why: Why,
) -> Result<Option<Piece>, AllocError>
    ensures { IfOk result (λ answer. IfSome answer (IsPieceOf text.now)) }
{
    let mut troubles = Vec::new(alloc);
    let tokens = tokens_of(alloc, text, &mut troubles)?;
    drop(troubles);
    let piece = match &tokens {
        Some(tokens) => piece_at(kind, text, tokens.as_slice(), at, why),
        None => None,
    };
    drop(tokens);
    Ok(piece)
}

/// The piece of a text, by its tokens, to be passed over for what is refused at a byte.
fn piece_at(kind: TextKind, text: &[u8], tokens: &[Token], at: usize, why: Why) -> Option<Piece>
    ensures { IfSome result (IsPieceOf text.now) }
{
    match element_at(kind, tokens, at, why) {
        Some(index) if !is_word(tokens, index_after(index), Word::Schema) => element_from(
            kind, text, tokens, index,
        ),
        Some(index) if why == Why::Element => schema_from(text, tokens, index),
        _ => piece_of_head(kind, text, tokens, at, why),
    }
}

/// Finds the token with which the element begins that is refused at a byte. If a token is refused, it begins
/// before the byte.
fn element_at(kind: TextKind, tokens: &[Token], at: usize, why: Why) -> Option<usize> {
    (0..tokens.len()).rev().find(|index| begins_at(kind, tokens, *index)
        && is_up_to(tokens, *index, at, why))
}

/// Whether a token begins before a byte, or at it if no token is refused there.
fn is_up_to(tokens: &[Token], index: usize, at: usize, why: Why) -> bool {
    match tokens.get(index) {
        Some(token) => token.start < at || token.start == at && why != Why::Token,
        None => false,
    }
}

/// The element that begins at the token of a number.
fn element_from(kind: TextKind, text: &[u8], tokens: &[Token], first: usize) -> Option<Piece>
    ensures { IfSome result (IsPieceOf text.now) }
{
    let next = (index_after(first)..tokens.len()).find(|index| begins_at(kind, tokens, *index));
    piece_up_to(text, tokens, first, next)
}

/// The schema that begins at the token of a number.
fn schema_from(text: &[u8], tokens: &[Token], first: usize) -> Option<Piece>
    ensures { IfSome result (IsPieceOf text.now) }
{
    let next = (index_after(first)..tokens.len()).find(|index| begins_schema(tokens, *index));
    piece_up_to(text, tokens, first, next)
}

fn begins_schema(tokens: &[Token], index: usize) -> bool {
    is_word(tokens, index, Word::Create) && is_word(tokens, index_after(index), Word::Schema)
}

/// The piece of a text from one token up to another, or to the end.
fn piece_up_to(text: &[u8], tokens: &[Token], first: usize, next: Option<usize>) -> Option<Piece>
    ensures { IfSome result (IsPieceOf text.now) }
{
    let start = tokens.get(first)?.start;
    let end = match tokens.get(next.unwrap_or(tokens.len())) {
        Some(token) => token.start,
        None => text.len(),
    };
    piece_of(text, start, end.saturating_sub(start))
}

/// The token or the piece that is refused at a byte of a head, unless an element begins there.
fn piece_of_head(
    kind: TextKind,
    text: &[u8],
    tokens: &[Token],
    at: usize,
    why: Why,
) -> Option<Piece>
    ensures { IfSome result (IsPieceOf text.now) }
{
    match why {
        Why::Element => None,
        Why::NoToken => piece_of(text, at, length_of_word(bytes_behind(text, at)).max(1)),
        Why::Token => {
            let index = tokens.iter().position(|token| token.start == at)?;
            if begins_at(kind, tokens, index) {
                return None;
            }
            piece_of(text, at, spelling_of(text, tokens.get(index)?).len())
        }
    }
}

/// A piece of a text, if it has bytes there.
fn piece_of(text: &[u8], start: usize, length: usize) -> Option<Piece>
    ensures { IfSome result (IsPieceOf text.now) }
{
    let end = start.saturating_add(length).min(text.len());
    if start < end {
        Some(Piece { start, end })
    } else {
        None
    }
}

/// The text with blanks for a piece of it.
fn blank_out(alloc: Global, text: &[u8], piece: Piece) -> Result<Vec<u8>, AllocError>
    requires { IsPieceOf text.now piece }
    ensures { IfOk result (λ left. left.items ≡ spec.passed text.now piece) }
{
    let mut left = Vec::from_slice(alloc, &text[..piece.start])?;
    add_blanks(&mut left, &text[piece.start..piece.end])?;
    left.extend_from_slice(&text[piece.end..])?;
    Ok(left)
}

/// Adds a blank for each byte of a piece that ends no line.
fn add_blanks(left: &mut Vec<u8>, piece: &[u8]) -> Result<(), AllocError>
    ensures { OnOk result (left.new.items ≡ left.old.items ++ map spec.blank_for piece.now) }
{
    for byte in piece {
        left.push(blank_for(*byte))?;
    }
    Ok(())
}

fn blank_for(byte: u8) -> u8
    ensures { result ≡ spec.blank_for byte }
{
    if byte == b'\n' { b'\n' } else { b' ' }
}
