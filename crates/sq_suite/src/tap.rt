//! The words of TAP, the Test Anything Protocol, version 13.

use crate::bytes::{push_indented, push_named};
use std::alloc::{AllocError, Global};

/// Adds the version and how many results follow.
pub fn write_plan(out: &mut Vec<u8>, alloc: Global, count: usize) -> Result<(), AllocError> {
    let lines = format!(in alloc; "TAP version 13\n1..{count}\n")?;
    out.extend_from_slice(lines.as_bytes())
}

/// Adds the result of a case, and below it what is to be said, if anything is.
pub fn write_result(
    out: &mut Vec<u8>,
    alloc: Global,
    number: usize,
    name: &str,
    is_right: bool,
    says: &[u8],
) -> Result<(), AllocError> {
    let word = if is_right { "ok" } else { "not ok" };
    let start = format!(in alloc; "{word} {number} - ")?;
    out.extend_from_slice(start.as_bytes())?;
    push_named(out, name.as_bytes())?;
    out.push(b'\n')?;
    if says.is_empty() {
        return Ok(());
    }
    out.extend_from_slice(b"  ---\n")?;
    push_indented(out, says)?;
    out.extend_from_slice(b"  ...\n")
}

/// Adds how many cases there were and how many of them differ.
pub fn write_counts(
    out: &mut Vec<u8>,
    alloc: Global,
    cases: usize,
    differ: usize,
) -> Result<(), AllocError> {
    let line = format!(in alloc; "# {cases} cases, {differ} differ\n")?;
    out.extend_from_slice(line.as_bytes())
}
