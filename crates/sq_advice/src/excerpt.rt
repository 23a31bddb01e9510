//! A line of a text, and carets below a part of it.

use crate::line::line_around;
use crate::text::Text;
use std::alloc::{AllocError, Global};

/// Adds the line that holds a byte, with its number. Below it a caret marks each byte from there on, as many
/// as asked for and the line has, and at least one.
pub(crate) fn write_excerpt(
    out: &mut Vec<u8>,
    alloc: Global,
    text: &Text<'_>,
    start: usize,
    length: usize,
) -> Result<(), AllocError> {
    let place = text.place(start);
    let line = line_around(text.bytes, place.byte);
    let before = place.column.saturating_sub(1).min(line.len());
    let carets = length.min(line.len() - before).max(1);
    let number = format!(in alloc; "  {} | ", place.line)?;
    out.extend_from_slice(number.as_bytes())?;
    push_shown(out, line)?;
    out.push(b'\n')?;
    push_margin(out, number.len())?;
    push_blanks(out, &line[..before])?;
    push_carets(out, carets)
}

/// Adds blanks as wide as a line's number, and the bar after it.
fn push_margin(out: &mut Vec<u8>, length: usize) -> Result<(), AllocError> {
    for _ in 2..length {
        out.push(b' ')?;
    }
    out.extend_from_slice(b"| ")
}

/// Adds a line in printable characters and tabs; any other byte becomes `?`.
fn push_shown(out: &mut Vec<u8>, line: &[u8]) -> Result<(), AllocError> {
    for byte in line {
        out.push(show_byte(*byte))?;
    }
    Ok(())
}

fn show_byte(byte: u8) -> u8 {
    match byte {
        b' '..=b'~' | b'\t' => byte,
        b'\r' => b' ',
        _ => b'?',
    }
}

/// Adds what is as wide as the start of a line.
fn push_blanks(out: &mut Vec<u8>, start: &[u8]) -> Result<(), AllocError> {
    for byte in start {
        out.push(if *byte == b'\t' { b'\t' } else { b' ' })?;
    }
    Ok(())
}

fn push_carets(out: &mut Vec<u8>, count: usize) -> Result<(), AllocError> {
    for _ in 0..count {
        out.push(b'^')?;
    }
    out.push(b'\n')?;
    Ok(())
}
