//! Texts and numbers as JSON has them, in a page.
ghost use Rattle.std.specs.Prelude.{◌≡◌, ◌++◌, OnOk, flat_map};
ghost use Rattle.sq_show.specs.Json as spec;

use std::alloc::AllocError;

/// Adds a text as JSON has it, between quotes; no `<` stands in it, so no part of it ends the data of a page.
pub(crate) fn push_text(page: &mut Vec<u8>, text: &[u8]) -> Result<(), AllocError>
    ensures { OnOk result (page.new.items ≡ page.old.items ++ spec.text text.now) }
{
    page.push(b'"')?;
    push_escaped(page, text)?;
    page.push(b'"')?;
    Ok(())
}

fn push_escaped(page: &mut Vec<u8>, text: &[u8]) -> Result<(), AllocError>
    ensures { OnOk result (page.new.items ≡ page.old.items ++ flat_map spec.escaped text.now) }
{
    for byte in text {
        push_byte(page, *byte)?;
    }
    Ok(())
}

fn push_byte(page: &mut Vec<u8>, byte: u8) -> Result<(), AllocError>
    ensures { OnOk result (page.new.items ≡ page.old.items ++ spec.escaped byte) }
{
    match byte {
        b'"' => page.extend_from_slice(b"\\\""),
        b'\\' => page.extend_from_slice(b"\\\\"),
        b'\n' => page.extend_from_slice(b"\\n"),
        b'<' => page.extend_from_slice(b"\\u003c"),
        _ => page.extend_from_slice(&[byte]),
    }
}

/// Adds what stands before an element of a list: a comma, unless it is the first.
pub(crate) fn push_comma(page: &mut Vec<u8>, place: usize) -> Result<(), AllocError>
    ensures { OnOk result (page.new.items ≡ page.old.items ++ spec.comma place) }
{
    if place > 0 {
        page.push(b',')?;
    }
    Ok(())
}
