//! The lines of a text.

ghost use Rattle.std.specs.Prelude.{◌≡◌, ◌≤◌, length};
ghost use Rattle.sq_advice.specs.Line as spec;

/// Finds the line of a text that holds a byte, without its end.
pub(crate) fn line_around(text: &[u8], byte: usize) -> &[u8]
    ensures { result.now ≡ spec.line_around text.now byte }
{
    let before = if byte < text.len() {
        &text[..byte]
    } else {
        text
    };
    first_line(&text[before.len() - last_length(before)..])
}

/// How many bytes the last line has.
fn last_length(text: &[u8]) -> usize
    ensures value { result ≡ spec.last_length text.now }
    ensures within { result ≤ length text.now }
{
    text.iter()
        .rev()
        .take_while(|byte| is_of_line(**byte))
        .count()
}

/// The first line, without its end.
pub(crate) fn first_line(text: &[u8]) -> &[u8]
    ensures { result.now ≡ spec.first_line text.now }
{
    let end = line_length(text);
    if end < text.len() { &text[..end] } else { text }
}

/// How many bytes the first line has, without its end.
fn line_length(text: &[u8]) -> usize
    ensures { result ≡ spec.line_length text.now }
{
    text.iter().take_while(|byte| is_of_line(**byte)).count()
}

fn is_of_line(byte: u8) -> bool
    ensures { result ≡ spec.is_of_line byte }
{
    byte != b'\n'
}
