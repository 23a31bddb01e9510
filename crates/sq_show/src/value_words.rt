//! A value, as it is spelled.

use sq_value::Value;
use std::alloc::{AllocError, Global};

/// Adds a value as it is spelled: digits, a quoted text or `NULL`.
pub(crate) fn write_value(
    alloc: Global,
    value: &Value,
    words: &mut Vec<u8>,
) -> Result<(), AllocError> {
    match value {
        Value::Null => words.extend_from_slice(b"NULL"),
        Value::Num(number) => words.extend_from_slice(number.write(alloc)?.as_slice()),
        Value::Chars(text) => write_text(text.codes(), words),
    }
}

/// Adds a text in quotes; those inside it are written twice.
fn write_text(text: &[u8], words: &mut Vec<u8>) -> Result<(), AllocError> {
    words.push(b'\'')?;
    for code in text {
        if *code == b'\'' {
            words.push(b'\'')?;
        }
        words.push(*code)?;
    }
    words.push(b'\'')?;
    Ok(())
}
