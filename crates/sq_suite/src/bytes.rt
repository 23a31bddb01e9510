//! Bytes that are added to a text, some of them in other words.
ghost use Rattle.std.specs.Prelude.{◌≡◌, ◌++◌, ◌<◌, OnOk, flat_map, true};
ghost use Rattle.sq_suite.specs.Bytes as spec;

use std::alloc::AllocError;

/// Adds a text as XML has it.
pub(crate) fn push_escaped(out: &mut Vec<u8>, text: &[u8]) -> Result<(), AllocError>
    ensures { OnOk result (out.new.items ≡ out.old.items ++ flat_map spec.escaped text.now) }
{
    for byte in text {
        push_escaped_byte(out, *byte)?;
    }
    Ok(())
}

fn push_escaped_byte(out: &mut Vec<u8>, byte: u8) -> Result<(), AllocError>
    ensures { OnOk result (out.new.items ≡ out.old.items ++ spec.escaped byte) }
{
    match byte {
        b'&' => out.extend_from_slice(b"&amp;"),
        b'<' => out.extend_from_slice(b"&lt;"),
        b'>' => out.extend_from_slice(b"&gt;"),
        b'"' => out.extend_from_slice(b"&quot;"),
        _ => push(out, byte),
    }
}

/// Adds a line without its end, in printable bytes. A backslash is doubled, and any other byte becomes `\x`
/// with two digits.
pub(crate) fn push_shown(out: &mut Vec<u8>, line: &[u8]) -> Result<(), AllocError>
    ensures { OnOk result (out.new.items ≡ out.old.items ++ flat_map spec.shown line.now) }
{
    for byte in line {
        push_shown_byte(out, *byte)?;
    }
    Ok(())
}

fn push_shown_byte(out: &mut Vec<u8>, byte: u8) -> Result<(), AllocError>
    ensures { OnOk result (out.new.items ≡ out.old.items ++ spec.shown byte) }
{
    match byte {
        b'\\' => out.extend_from_slice(b"\\\\"),
        b' '..=b'~' => push(out, byte),
        _ => out.extend_from_slice(&[b'\\', b'x', digit(byte / 16), digit(byte % 16)]),
    }
}

/// A digit of base 16.
fn digit(value: u8) -> u8
    requires { value < 16 }
    ensures { result ≡ spec.digit value }
{
    if value < 10 {
        b'0' + value
    } else {
        b'A' + (value - 10)
    }
}

fn push(out: &mut Vec<u8>, byte: u8) -> Result<(), AllocError>
    ensures { OnOk result (out.new.items ≡ out.old.items ++ spec.one byte) }
{
    out.push(byte)?;
    Ok(())
}

/// Adds a name as TAP has it: with a backslash before `#` and the backslash, and a `?` in place of a control
/// character.
pub(crate) fn push_named(out: &mut Vec<u8>, name: &[u8]) -> Result<(), AllocError>
    ensures { OnOk result (out.new.items ≡ out.old.items ++ flat_map spec.named name.now) }
{
    for byte in name {
        push_named_byte(out, *byte)?;
    }
    Ok(())
}

fn push_named_byte(out: &mut Vec<u8>, byte: u8) -> Result<(), AllocError>
    ensures { OnOk result (out.new.items ≡ out.old.items ++ spec.named byte) }
{
    match byte {
        b'#' | b'\\' => out.extend_from_slice(&[b'\\', byte]),
        0..=31 | 127 => push(out, b'?'),
        _ => push(out, byte),
    }
}

/// Adds a text with two blanks before each of its lines.
pub(crate) fn push_indented(out: &mut Vec<u8>, text: &[u8]) -> Result<(), AllocError>
    ensures { OnOk result (out.new.items ≡ out.old.items ++ spec.indented true text.now) }
{
    let mut starts = true;
    for byte in text {
        if starts {
            out.extend_from_slice(b"  ")?;
        }
        out.push(*byte)?;
        starts = *byte == b'\n';
    }
    Ok(())
}
