//! The lines of `check`, and the advice beside them.

use crate::advice::Advice;
use crate::excerpt::write_excerpt;
use crate::json::write_object;
use crate::text::Text;
use sq_lex::Name;
use std::alloc::{AllocError, Global};

/// How much an item weighs.
#[derive(Clone, Copy, Debug, PartialEq, Eq)]
pub enum Weight {
    /// The text is refused.
    Refusal,
    /// Each call of the procedure answers 42000.
    Fault,
    /// The text may mean something else than was meant.
    Warning,
    /// A cursor or a view is updatable, or is not.
    Remark,
}

/// How items are written.
#[derive(Clone, Copy, Debug, PartialEq, Eq)]
pub enum Form {
    /// Refusals and faults, in a line each.
    Quiet,
    /// Refusals, faults and remarks, in a line each.
    Lines,
    /// All, each with the line of its text and with words.
    Words,
    /// All, each as an object of JSON in a line.
    Json,
}

/// The module or user that a part of a text belongs to, and the part's name.
#[derive(Clone, Copy)]
pub struct Part {
    pub owner: Name,
    pub name: Name,
}

/// The words about a place in a text.
#[derive(Clone, Copy)]
pub struct Item<'f, 't, 'l, 's, 'd> {
    pub weight: Weight,
    /// The name of the text's file.
    pub file: &'f str,
    pub text: &'t Text<'l>,
    pub line: usize,
    pub column: usize,
    pub part: Option<Part>,
    pub says: &'s str,
    pub advice: Option<&'d Advice>,
}

/// Adds an item in a form.
pub fn write_item(
    out: &mut Vec<u8>,
    alloc: Global,
    item: &Item<'_, '_, '_, '_, '_>,
    form: Form,
) -> Result<(), AllocError> {
    match form {
        Form::Quiet => write_grave(out, alloc, item),
        Form::Lines => write_sure(out, alloc, item),
        Form::Words => write_with_words(out, alloc, item),
        Form::Json => write_object(out, alloc, item),
    }
}

/// Adds an item's line, if it is a refusal or a fault.
fn write_grave(
    out: &mut Vec<u8>,
    alloc: Global,
    item: &Item<'_, '_, '_, '_, '_>,
) -> Result<(), AllocError> {
    match item.weight {
        Weight::Refusal | Weight::Fault => write_line(out, alloc, item),
        Weight::Warning | Weight::Remark => Ok(()),
    }
}

/// Adds an item's line, if it is no warning.
fn write_sure(
    out: &mut Vec<u8>,
    alloc: Global,
    item: &Item<'_, '_, '_, '_, '_>,
) -> Result<(), AllocError> {
    match item.weight {
        Weight::Warning => Ok(()),
        _ => write_line(out, alloc, item),
    }
}

/// Adds an item's line and its advice.
fn write_with_words(
    out: &mut Vec<u8>,
    alloc: Global,
    item: &Item<'_, '_, '_, '_, '_>,
) -> Result<(), AllocError> {
    write_line(out, alloc, item)?;
    match item.advice {
        Some(advice) => write_advice(out, alloc, item.text, advice),
        None => Ok(()),
    }
}

/// Adds an item's line.
fn write_line(
    out: &mut Vec<u8>,
    alloc: Global,
    item: &Item<'_, '_, '_, '_, '_>,
) -> Result<(), AllocError> {
    if item.weight == Weight::Refusal {
        out.extend_from_slice(b"sqmod: ")?;
    }
    let place = format!(in alloc; "{}:{}:{}: ", item.file, item.line, item.column)?;
    out.extend_from_slice(place.as_bytes())?;
    if let Some(part) = item.part {
        write_part(out, part)?;
        out.extend_from_slice(b": ")?;
    }
    if item.weight == Weight::Warning {
        out.extend_from_slice(b"warning: ")?;
    }
    out.extend_from_slice(item.says.as_bytes())?;
    out.push(b'\n')?;
    Ok(())
}

/// Adds a part: the module or user that it belongs to, and its name.
pub(crate) fn write_part(out: &mut Vec<u8>, part: Part) -> Result<(), AllocError> {
    out.extend_from_slice(part.owner.codes())?;
    out.push(b'.')?;
    out.extend_from_slice(part.name.codes())
}

/// Adds the line of a text that an advice is about, with carets, and its words.
fn write_advice(
    out: &mut Vec<u8>,
    alloc: Global,
    text: &Text<'_>,
    advice: &Advice,
) -> Result<(), AllocError> {
    write_excerpt(out, alloc, text, advice.start, advice.length)?;
    write_words(out, b"  ", advice.found.as_slice())?;
    write_expected(out, advice.expected.as_slice())?;
    write_words(out, b"  hint: ", advice.hint.as_slice())
}

/// Adds a line of words after its start, if there are any.
fn write_words(out: &mut Vec<u8>, start: &[u8], words: &[u8]) -> Result<(), AllocError> {
    if words.is_empty() {
        return Ok(());
    }
    out.extend_from_slice(start)?;
    out.extend_from_slice(words)?;
    out.push(b'\n')?;
    Ok(())
}

/// Adds a line with the tokens that may be at a place, if they are known.
fn write_expected(out: &mut Vec<u8>, expected: &[&[u8]]) -> Result<(), AllocError> {
    for (index, name) in expected.iter().enumerate() {
        let start: &[u8] = if index == 0 { b"  expected: " } else { b" " };
        out.extend_from_slice(start)?;
        out.extend_from_slice(name)?;
    }
    if !expected.is_empty() {
        out.push(b'\n')?;
    }
    Ok(())
}
