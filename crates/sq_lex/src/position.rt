//! Positions in a text.

ghost use Rattle.std.specs.Prelude.{◌≡◌, ◌+◌, ◌<◌, ◌≤◌, ◌^◌, length};
ghost use Rattle.sq_lex.specs.Position as spec;

/// The place of a byte in a text.
#[derive(Clone, Copy, Debug)]
pub struct Position {
    /// From 0.
    pub byte: usize,
    /// From 1. A line ends with LF.
    pub line: usize,
    /// From 1, in bytes.
    pub column: usize,
}

impl Position {
    /// The position of a byte of a text. Past the text's end it is the position of the end.
    pub fn of(text: &[u8], byte: usize) -> Position
        ensures { result ≡ spec.position text.now byte }
    {
        let before = if byte < text.len() {
            &text[..byte]
        } else {
            text
        };
        Position::start().past(before)
    }

    /// The first byte's position.
    pub(crate) fn start() -> Position
        ensures { result ≡ spec.start }
    {
        Position {
            byte: 0,
            line: 1,
            column: 1,
        }
    }

    /// The position after these bytes.
    pub(crate) fn past(self, bytes: &[u8]) -> Position
        requires byte { self.byte + length bytes.now < 2 ^ 64 }
        requires line { self.line + length bytes.now < 2 ^ 64 }
        requires column { self.column + length bytes.now < 2 ^ 64 }
        ensures value { result ≡ spec.past self bytes.now }
        ensures byte { result.byte ≡ self.byte + length bytes.now }
        ensures line { result.line ≤ self.line + length bytes.now }
        ensures column { result.column ≤ self.column + length bytes.now }
    {
        let mut position = self;
        for byte in bytes {
            position = position.next(*byte);
        }
        position
    }

    /// The position after one that has this byte.
    fn next(self, byte: u8) -> Position
        requires byte { self.byte + 1 < 2 ^ 64 }
        requires line { self.line + 1 < 2 ^ 64 }
        requires column { self.column + 1 < 2 ^ 64 }
        ensures { result ≡ spec.next self byte }
    {
        if byte == b'\n' {
            Position {
                byte: self.byte + 1,
                line: self.line + 1,
                column: 1,
            }
        } else {
            Position {
                byte: self.byte + 1,
                line: self.line,
                column: self.column + 1,
            }
        }
    }
}
