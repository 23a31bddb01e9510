//! Items as objects of JSON (RFC 8259), each in a line.

use crate::advice::Advice;
use crate::item::{Item, Part, Weight, write_part};
use crate::text::Text;
use std::alloc::{AllocError, Global};

/// Adds an item as an object, with its place, its weight, its part, its message, and the words beside it.
pub(crate) fn write_object(
    out: &mut Vec<u8>,
    alloc: Global,
    item: &Item<'_, '_, '_, '_, '_>,
) -> Result<(), AllocError> {
    out.extend_from_slice(b"{\"file\":")?;
    write_text(out, item.file.as_bytes())?;
    let place = format!(in alloc;
        ",\"line\":{},\"column\":{},\"weight\":",
        item.line, item.column
    )?;
    out.extend_from_slice(place.as_bytes())?;
    write_text(out, name_of(item.weight))?;
    write_owner(out, item.part)?;
    out.extend_from_slice(b",\"says\":")?;
    write_text(out, item.says.as_bytes())?;
    if let Some(advice) = item.advice {
        write_advice(out, alloc, item.text, advice)?;
    }
    out.extend_from_slice(b"}\n")
}

fn name_of(weight: Weight) -> &'static [u8] {
    match weight {
        Weight::Refusal => b"refusal",
        Weight::Fault => b"fault",
        Weight::Warning => b"warning",
        Weight::Remark => b"remark",
    }
}

fn write_owner(out: &mut Vec<u8>, part: Option<Part>) -> Result<(), AllocError> {
    match part {
        Some(part) => {
            out.extend_from_slice(b",\"part\":\"")?;
            write_part(out, part)?;
            out.extend_from_slice(b"\"")
        }
        None => Ok(()),
    }
}

/// Adds the place of an advice, and its words.
fn write_advice(
    out: &mut Vec<u8>,
    alloc: Global,
    text: &Text<'_>,
    advice: &Advice,
) -> Result<(), AllocError> {
    let place = text.place(advice.start);
    let at = format!(in alloc;
        ",\"at\":{{\"line\":{},\"column\":{},\"length\":{}}}",
        place.line, place.column, advice.length
    )?;
    out.extend_from_slice(at.as_bytes())?;
    write_member(out, b",\"found\":", advice.found.as_slice())?;
    write_expected(out, advice.expected.as_slice())?;
    write_member(out, b",\"hint\":", advice.hint.as_slice())
}

/// Adds a member with a text, if there is one.
fn write_member(out: &mut Vec<u8>, name: &[u8], text: &[u8]) -> Result<(), AllocError> {
    if text.is_empty() {
        return Ok(());
    }
    out.extend_from_slice(name)?;
    write_text(out, text)
}

fn write_expected(out: &mut Vec<u8>, expected: &[&[u8]]) -> Result<(), AllocError> {
    for (index, name) in expected.iter().enumerate() {
        let start: &[u8] = if index == 0 { b",\"expected\":[" } else { b"," };
        out.extend_from_slice(start)?;
        write_text(out, name)?;
    }
    if !expected.is_empty() {
        out.push(b']')?;
    }
    Ok(())
}

/// Adds a text in quotes.
fn write_text(out: &mut Vec<u8>, text: &[u8]) -> Result<(), AllocError> {
    out.push(b'"')?;
    for byte in text {
        write_byte(out, *byte)?;
    }
    out.push(b'"')?;
    Ok(())
}

fn write_byte(out: &mut Vec<u8>, byte: u8) -> Result<(), AllocError> {
    match byte {
        b'"' | b'\\' => out.extend_from_slice(&[b'\\', byte]),
        0..=31 => out.extend_from_slice(&[
            b'\\',
            b'u',
            b'0',
            b'0',
            b'0' + byte / 16,
            digit(byte % 16),
        ]),
        _ => {
            out.push(byte)?;
            Ok(())
        }
    }
}

/// A digit of base 16.
fn digit(value: u8) -> u8 {
    if value < 10 {
        b'0' + value
    } else {
        b'a' + value.saturating_sub(10).min(5)
    }
}
