//! The piece at the front of a text: a separator, a token or a fault.

ghost use Rattle.std.specs.Prelude.{◌≡◌, ◌≢◌, ◌<◌, ◌≤◌, ◌^◌, true, length, map, slice_index, IfOk};
ghost use Rattle.std.specs.Char.{is_ascii_alphabetic, to_ascii_uppercase};
ghost use Rattle.std.specs.List.{All};
ghost use Rattle.sq_lex.specs.Characters.{IsPrintable};
ghost use Rattle.sq_lex.specs.declared.literal.Literal.TheVariants.{Closed};
ghost use Rattle.sq_lex.specs.Name.{IsWordSpelling};
ghost use Rattle.sq_lex.specs.Piece as spec;
ghost use Rattle.sq_lex.specs.Spelling.{IsSpelled};

use crate::characters::{Class, is_white};
use crate::fault::LexFaultKind;
use crate::lexeme::Lexeme;
use crate::literal::Literal;
use crate::name::Name;
use crate::number::Number;
use crate::reserved::reserved;
use crate::symbol::Symbol;
use crate::text::Characters;
use sq_items::{Boxed, Items};
use std::alloc::{AllocError, Global};

/// The piece at the front of a text.
#[derive(Debug, Drop)]
pub enum Piece {
    /// White space or a comment, with its length in bytes.
    Separator(usize),
    /// A token, with its length in bytes.
    Token { size: usize, lexeme: Lexeme },
    /// A fault, with the number of bytes before it.
    Fault { at: usize, kind: LexFaultKind },
}

impl Piece {
    /// The piece at the front of bytes that are not at their end. A separator is white space or a comment. A token's bytes
    /// are a spelling of its lexeme, and no more of the bytes are a spelling of any lexeme.
    #[tactic(auto, unfolding(crate::specs::Piece::first_piece), using(crate::proofs::Longest::piece_is_spelled))]
    pub fn first(alloc: Global, bytes: &[u8]) -> Result<Piece, AllocError>
        requires { 0 < length bytes.now }
        ensures value { IfOk result (λ piece. piece ≡ spec.first_piece bytes.now) }
        ensures within { IfOk result (spec.IsWithin (length bytes.now)) }
        ensures spelled { IsSpelled bytes.now (spec.first_piece bytes.now) }
    {
        let first = byte_at(bytes, 0);
        if is_white(first) {
            Ok(Piece::Separator(1))
        } else if begins_comment(bytes) {
            Ok(comment(bytes))
        } else if first.is_ascii_alphabetic() {
            Ok(word(bytes))
        } else if begins_number(bytes) {
            Ok(number(bytes))
        } else if first == b'\'' {
            text(alloc, bytes)
        } else {
            Ok(symbol(bytes))
        }
    }
}

/// The byte of this index, or 0 past the end, which no token has.
fn byte_at(bytes: &[u8], at: usize) -> u8
    ensures value { result ≡ slice_index bytes.now at }
    ensures within { result ≢ 0 → at < length bytes.now }
{
    if at < bytes.len() { bytes[at] } else { 0 }
}

fn begins_comment(bytes: &[u8]) -> bool
    ensures { result ≡ spec.begins_comment bytes.now }
{
    bytes.starts_with(b"--")
}

#[tactic(auto, unfolding(crate::specs::Piece::comment))]
fn comment(bytes: &[u8]) -> Piece
    requires { spec.begins_comment bytes.now ≡ true }
    ensures value { result ≡ spec.comment bytes.now }
    ensures within { spec.IsWithin (length bytes.now) result }
{
    let size = Class::Comment.run(bytes);
    if size == bytes.len() || bytes[size] == b'\n' {
        Piece::Separator(size)
    } else {
        Piece::Fault {
            at: size,
            kind: LexFaultKind::BadByte,
        }
    }
}

/// A name, folded to upper case.
fn folded(bytes: &[u8]) -> Name
    requires { IsWordSpelling bytes.now }
    ensures { result ≡ map to_ascii_uppercase bytes.now }
{
    let mut codes = [0; 18];
    for (at, byte) in bytes.iter().enumerate() {
        codes[at] = byte.to_ascii_uppercase();
    }
    Name::new(&codes[..bytes.len()])
}

#[tactic(auto, unfolding(crate::specs::Piece::word))]
fn word(bytes: &[u8]) -> Piece
    requires { is_ascii_alphabetic (slice_index bytes.now 0) ≡ true }
    ensures value { result ≡ spec.word bytes.now }
    ensures within { spec.IsWithin (length bytes.now) result }
{
    let size = Class::Word.run(bytes);
    if size > 18 {
        return Piece::Fault {
            at: 0,
            kind: LexFaultKind::LongName,
        };
    }
    let name = folded(&bytes[..size]);
    let lexeme = match reserved(name.codes()) {
        Some(word) => Lexeme::Word(word),
        None => Lexeme::Name(name),
    };
    Piece::Token { size, lexeme }
}

fn begins_number(bytes: &[u8]) -> bool
    ensures { result ≡ spec.begins_number bytes.now }
{
    let first = byte_at(bytes, 0);
    first.is_ascii_digit() || (first == b'.' && byte_at(bytes, 1).is_ascii_digit())
}

/// The size of a point and the digits after it, or 0 if there is no point.
fn fraction_size(bytes: &[u8]) -> usize
    ensures value { result ≡ spec.fraction_size bytes.now }
    ensures within { result ≤ length bytes.now }
    ensures begun { slice_index bytes.now 0 ≡ 46 → 0 < result }
{
    if byte_at(bytes, 0) == b'.' {
        1 + Class::Digit.run(&bytes[1..])
    } else {
        0
    }
}

#[tactic(auto, unfolding(crate::specs::Piece::number))]
fn number(bytes: &[u8]) -> Piece
    requires { spec.begins_number bytes.now ≡ true }
    ensures value { result ≡ spec.number bytes.now }
    ensures within { spec.IsWithin (length bytes.now) result }
{
    let whole = Class::Digit.run(bytes);
    let fraction = fraction_size(&bytes[whole..]);
    let size = whole + fraction;
    if whole + fraction.saturating_sub(1) > 18 {
        Piece::Fault {
            at: 0,
            kind: LexFaultKind::LongNumber,
        }
    } else if byte_at(bytes, size).is_ascii_alphabetic() {
        Piece::Fault {
            at: 0,
            kind: LexFaultKind::NumberThenLetter,
        }
    } else {
        Piece::Token {
            size,
            lexeme: Lexeme::Number(Number::new(&bytes[..size])),
        }
    }
}

/// The token of a literal of these characters, which takes `size` bytes after its opening quote.
fn closed(alloc: Global, characters: Items<u8>, size: usize) -> Result<Piece, AllocError>
    requires size { size < 2 ^ 63 }
    requires printable { All IsPrintable characters }
    ensures { IfOk result (λ piece. piece ≡ spec.piece_of_literal (Closed characters size)) }
{
    if characters.len() > 240 {
        return Ok(Piece::Fault {
            at: 0,
            kind: LexFaultKind::LongText,
        });
    }
    let characters = Characters::from_items(characters);
    Ok(Piece::Token {
        size: 1 + size,
        lexeme: Lexeme::Text(Boxed::new(alloc, characters)?),
    })
}

#[tactic(auto, unfolding(crate::specs::Piece::text), using(crate::proofs::LiteralLemmas::piece_of_kept))]
fn text(alloc: Global, bytes: &[u8]) -> Result<Piece, AllocError>
    requires { 0 < length bytes.now }
    ensures value { IfOk result (λ piece. piece ≡ spec.text bytes.now) }
    ensures within { IfOk result (spec.IsWithin (length bytes.now)) }
{
    match Literal::after_quote(alloc, &bytes[1..])? {
        Literal::Closed { characters, size } => closed(alloc, characters, size),
        Literal::Open => Ok(Piece::Fault {
            at: 0,
            kind: LexFaultKind::OpenText,
        }),
        Literal::BadByte(at) => Ok(Piece::Fault {
            at: 1 + at,
            kind: LexFaultKind::BadByte,
        }),
    }
}

#[tactic(auto, unfolding(crate::specs::Piece::symbol))]
fn symbol(bytes: &[u8]) -> Piece
    requires { 0 < length bytes.now }
    ensures value { result ≡ spec.symbol bytes.now }
    ensures within { spec.IsWithin (length bytes.now) result }
{
    if let Some(symbol) = Symbol::of_two(byte_at(bytes, 0), byte_at(bytes, 1)) {
        Piece::Token {
            size: 2,
            lexeme: Lexeme::Symbol(symbol),
        }
    } else if let Some(symbol) = Symbol::of_one(byte_at(bytes, 0)) {
        Piece::Token {
            size: 1,
            lexeme: Lexeme::Symbol(symbol),
        }
    } else {
        Piece::Fault {
            at: 0,
            kind: LexFaultKind::BadByte,
        }
    }
}
