//! The tokens of a text, and each piece of it that is none.

use crate::advice::{Advice, Trouble, What};
use crate::line::first_line;
use crate::offset::offset_of;
use crate::spelled::{bytes_from, is_of_word, length_of_literal, length_of_word};
use sq_lex::{LexError, LexFault, LexFaultKind, Token, lex};
use std::alloc::{AllocError, Global};

/// How many errors of a text are told, at most, of its tokens, and as many of its grammar.
pub(crate) const MOST: usize = 100;

/// How many characters a name has at most.
const LONGEST_NAME: usize = 18;

/// Reads the tokens of a text. Each piece that is none counts as blanks, and a trouble is added for it. It
/// answers nothing if these pieces are too many.
pub(crate) fn tokens_of(
    alloc: Global,
    text: &[u8],
    troubles: &mut Vec<Trouble>,
) -> Result<Option<Vec<Token>>, AllocError> {
    let mut mended = Vec::from_slice(alloc, text)?;
    for _ in 0..MOST {
        match lex(alloc, mended.as_slice()) {
            Ok(tokens) => return Ok(Some(tokens)),
            Err(LexError::NoMemory) => return Err(AllocError),
            Err(LexError::Fault(fault)) => pass_piece(alloc, &mut mended, fault, troubles)?,
        }
    }
    Ok(None)
}

/// Adds what is wrong with a piece of a text, and puts blanks in its place.
fn pass_piece(
    alloc: Global,
    text: &mut Vec<u8>,
    fault: LexFault,
    troubles: &mut Vec<Trouble>,
) -> Result<(), AllocError> {
    let start = offset_of(text.as_slice(), fault.line, fault.column);
    let length = length_of_piece(bytes_from(text.as_slice(), start), fault.kind);
    let advice = advice_on(
        alloc,
        bytes_from(text.as_slice(), start),
        fault.kind,
        start,
        length,
    )?;
    troubles.push(Trouble {
        what: What::Lexical(fault.kind),
        advice,
    })?;
    blank(text.as_mut_slice(), start, length);
    Ok(())
}

/// Whether a byte of a text is in a comment. No literal ends in another line than the one that it begins in.
pub(crate) fn is_in_comment(text: &[u8], at: usize) -> bool {
    let before = &text[..at.min(text.len())];
    let length = before
        .iter()
        .rev()
        .take_while(|byte| **byte != b'\n')
        .count();
    has_comment(&before[before.len() - length.min(before.len())..])
}

/// Whether a comment begins in a line.
fn has_comment(line: &[u8]) -> bool {
    let mut is_text = false;
    let mut last = b' ';
    for byte in line {
        if !is_text && last == b'-' && *byte == b'-' {
            return true;
        }
        is_text = is_text != (*byte == b'\'');
        last = *byte;
    }
    false
}

fn blank(text: &mut [u8], start: usize, length: usize) {
    for (index, byte) in text.iter_mut().enumerate() {
        if start <= index && index - start < length {
            *byte = b' ';
        }
    }
}

/// How many bytes belong to the piece that a text begins with.
fn length_of_piece(text: &[u8], kind: LexFaultKind) -> usize {
    match kind {
        LexFaultKind::BadByte => length_of_bad(text),
        LexFaultKind::OpenText => first_line(text).len(),
        LexFaultKind::LongName => length_of_word(text),
        LexFaultKind::NumberThenLetter | LexFaultKind::LongNumber => {
            text.iter().take_while(|byte| is_of_numeral(**byte)).count()
        }
        LexFaultKind::LongText => length_of_literal(text),
    }
}

fn is_of_numeral(byte: u8) -> bool {
    is_of_word(byte) || byte == b'.'
}

/// How many bytes belong to a byte that begins no token: a quoted name, bytes that are not ASCII, `||`, `!=`, or the byte alone.
fn length_of_bad(text: &[u8]) -> usize {
    match text {
        [quote @ (b'"' | b'`'), rest @ ..] => length_of_quoted(*quote, rest),
        [128..=255, ..] => text.iter().take_while(|byte| **byte >= 128).count(),
        [b'|', b'|', ..] | [b'!', b'=', ..] => 2,
        _ => 1,
    }
}

/// Counts the bytes of a quote with those after it up to the next one in its line, or of the quote alone.
fn length_of_quoted(quote: u8, rest: &[u8]) -> usize {
    match first_line(rest).iter().position(|byte| *byte == quote) {
        Some(end) => end.saturating_add(2),
        None => 1,
    }
}

/// Makes the advice on the piece that a text begins with.
fn advice_on(
    alloc: Global,
    text: &[u8],
    kind: LexFaultKind,
    start: usize,
    length: usize,
) -> Result<Advice, AllocError> {
    let piece = &text[..length.min(text.len())];
    let found = describe_piece(alloc, piece, kind)?;
    let hint = hint_of(alloc, piece, kind)?;
    Ok(Advice {
        start,
        length,
        found,
        expected: Vec::new(alloc),
        hint,
    })
}

/// Describes a piece.
fn describe_piece(alloc: Global, piece: &[u8], kind: LexFaultKind) -> Result<Vec<u8>, AllocError> {
    let mut words = Vec::new(alloc);
    match kind {
        LexFaultKind::BadByte => add_bad(&mut words, alloc, piece)?,
        LexFaultKind::OpenText => words.extend_from_slice(b"the text does not end in its line")?,
        LexFaultKind::LongName => add_long_name(&mut words, alloc, piece.len())?,
        LexFaultKind::NumberThenLetter => {
            words.extend_from_slice(b"a letter stands directly behind a number")?;
        }
        LexFaultKind::LongNumber => {
            words.extend_from_slice(b"the number has more than 18 digits")?;
        }
        LexFaultKind::LongText => {
            words.extend_from_slice(b"the text has more than 240 characters")?;
        }
    }
    Ok(words)
}

fn add_bad(words: &mut Vec<u8>, alloc: Global, piece: &[u8]) -> Result<(), AllocError> {
    match piece {
        [byte @ b'!'..=b'~', ..] => {
            words.push(*byte)?;
            words.extend_from_slice(b" begins no token")
        }
        [byte, ..] => {
            let says = format!(in alloc; "a byte of {byte} is no character of a text")?;
            words.extend_from_slice(says.as_bytes())
        }
        [] => Ok(()),
    }
}

fn add_long_name(words: &mut Vec<u8>, alloc: Global, length: usize) -> Result<(), AllocError> {
    let says = format!(in alloc; "the name has {length} characters, and 18 are the most")?;
    words.extend_from_slice(says.as_bytes())
}

/// Makes the hint on a piece.
fn hint_of(alloc: Global, piece: &[u8], kind: LexFaultKind) -> Result<Vec<u8>, AllocError> {
    let mut words = Vec::new(alloc);
    match kind {
        LexFaultKind::BadByte => words.extend_from_slice(hint_of_byte(piece))?,
        LexFaultKind::OpenText => words.extend_from_slice(b"a quote inside a text is doubled")?,
        LexFaultKind::LongName => add_short(&mut words, piece)?,
        LexFaultKind::NumberThenLetter => {
            words.extend_from_slice(
                b"there are no exponents; between a number and a word stands a blank",
            )?;
        }
        LexFaultKind::LongNumber | LexFaultKind::LongText => {}
    }
    Ok(words)
}

fn hint_of_byte(piece: &[u8]) -> &'static [u8] {
    match piece {
        [b'"' | b'`', ..] => b"names have no quotes, and a text stands in single quotes",
        [b'?', ..] => b"a parameter is a name behind a colon",
        [b'!', ..] => b"unequal is <>",
        [b'|', ..] => b"there are no operations on texts: no ||, SUBSTRING or UPPER",
        [b'%', ..] => b"there is no remainder: of whole numbers it is A - A / B * B",
        [b'_', ..] => b"a name begins with a letter",
        [b'@' | b'#' | b'$', ..] => b"a name has letters, digits and underscores alone",
        [b'[' | b']' | b'{' | b'}', ..] => b"there are round brackets alone",
        [128..=255, ..] => b"texts are ASCII, also in comments",
        _ => b"",
    }
}

/// Adds a short form of a name. It leaves out vowels inside its words, from the left, as many as needed, and
/// cuts the rest if that is not enough.
fn add_short(words: &mut Vec<u8>, name: &[u8]) -> Result<(), AllocError> {
    words.extend_from_slice(b"a short form is ")?;
    let start = words.len();
    let mut excess = name.len().saturating_sub(LONGEST_NAME);
    let mut is_inside = false;
    for byte in name {
        if excess > 0 && is_inside && is_vowel(*byte) {
            excess -= 1;
        } else {
            words.push(byte.to_ascii_uppercase())?;
        }
        is_inside = *byte != b'_';
    }
    words.truncate(start.saturating_add(LONGEST_NAME));
    Ok(())
}

fn is_vowel(byte: u8) -> bool {
    matches!(byte.to_ascii_uppercase(), b'A' | b'E' | b'I' | b'O' | b'U')
}
