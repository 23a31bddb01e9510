//! The lines of a text.
ghost use Rattle.std.specs.Prelude.{◌≡◌, ◌<◌, ◌≤◌, IfOk, length};
ghost use Rattle.sq_suite.specs.Lines.{joined};

use std::alloc::{AllocError, Global};

/// The lines of a text, each with its end; only the last may have none.
pub fn lines<'a>(alloc: Global, text: &'a [u8]) -> Result<Vec<&'a [u8]>, AllocError>
    ensures { IfOk result (λ lines. joined lines.items ≡ text.now) }
{
    let mut lines = Vec::new(alloc);
    let mut rest = text;
    while !rest.is_empty() {
        let (line, others) = rest.split_at(length_of_line(rest));
        lines.push(line)?;
        rest = others;
    }
    Ok(lines)
}

/// How many bytes the first line of a text has.
fn length_of_line(text: &[u8]) -> usize
    requires { 0 < length text.now }
    ensures { (0 < result) × (result ≤ length text.now) }
{
    match text.iter().position(|byte| *byte == b'\n') {
        Some(at) => at + 1,
        None => text.len(),
    }
}
