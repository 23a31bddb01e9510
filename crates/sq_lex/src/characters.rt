//! Kinds of characters, and runs of them.

ghost use Rattle.std.specs.Prelude.{◌≡◌, ◌<◌, ◌≤◌, true, length, slice_index};
ghost use Rattle.std.specs.List.{prefix_len};
ghost use Rattle.sq_lex.specs.Characters as spec;

/// A kind of character whose runs are read.
#[derive(Clone, Copy, Debug)]
pub enum Class {
    /// Letters, digits and `_`.
    Word,
    Digit,
    /// A character of a comment.
    Comment,
}

impl Class {
    fn has(self, byte: u8) -> bool
        ensures { result ≡ spec.has self byte }
    {
        match self {
            Class::Word => byte.is_ascii_alphabetic() || byte.is_ascii_digit() || byte == b'_',
            Class::Digit => byte.is_ascii_digit(),
            Class::Comment => is_printable(byte) || byte == b'\t' || byte == b'\r',
        }
    }

    /// The number of characters of this kind at the front.
    pub fn run(self, bytes: &[u8]) -> usize
        ensures value { result ≡ prefix_len (spec.has self) bytes.now }
        ensures within { result ≤ length bytes.now }
        ensures begun { spec.has self (slice_index bytes.now 0) ≡ true → 0 < length bytes.now → 0 < result }
    {
        let mut size = 0;
        while size < bytes.len() && self.has(bytes[size]) {
            size += 1;
        }
        size
    }
}

/// Whether the byte is white space: a blank, a tab, a carriage return or a line feed.
pub fn is_white(byte: u8) -> bool
    ensures { result ≡ spec.is_white byte }
{
    byte == b' ' || byte == b'\t' || byte == b'\r' || byte == b'\n'
}

/// Whether the byte ends a line: a carriage return or a line feed.
pub fn is_line_end(byte: u8) -> bool
    ensures { result ≡ spec.is_line_end byte }
{
    byte == b'\r' || byte == b'\n'
}

/// Whether the byte is a printable character of ASCII, from the blank to the tilde.
pub fn is_printable(byte: u8) -> bool
    ensures { result ≡ spec.is_printable byte }
{
    32 <= byte && byte <= 126
}
