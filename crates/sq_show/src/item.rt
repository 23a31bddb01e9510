//! Where an item of a script ends in a line.
ghost use Rattle.std.specs.Prelude.{◌≡◌, ◌<◌, ◌≤◌, length, IfSome};
ghost use Rattle.sq_show.specs.Item as spec;

/// Where a byte of a line stands.
#[derive(Clone, Copy)]
enum Inside {
    /// Outside of text literals and comments.
    Neither,
    /// There, behind one minus sign.
    Minus,
    Text,
    Comment,
}

impl Inside {
    /// Where the byte behind this one stands.
    fn after(self, byte: u8) -> Inside
        ensures { result ≡ spec.after self byte }
    {
        match self {
            Inside::Neither => begun_by(byte),
            Inside::Minus if byte == b'-' => Inside::Comment,
            Inside::Minus => begun_by(byte),
            Inside::Text if byte == b'\'' || byte == b'\r' || byte == b'\n' => Inside::Neither,
            Inside::Text => Inside::Text,
            Inside::Comment if byte == b'\n' => Inside::Neither,
            Inside::Comment => Inside::Comment,
        }
    }

    /// Whether a byte that stands here ends an item.
    fn ends(self, byte: u8) -> bool
        ensures { result ≡ spec.ends self byte }
    {
        byte == b';' && matches!(self, Inside::Neither | Inside::Minus)
    }
}

/// What a byte begins outside of text literals and comments.
fn begun_by(byte: u8) -> Inside
    ensures { result ≡ spec.begun_by byte }
{
    match byte {
        b'\'' => Inside::Text,
        b'-' => Inside::Minus,
        _ => Inside::Neither,
    }
}

/// How many bytes of a line there are up to the first semicolon outside of text literals and comments, with it. Neither goes on
/// in the next line (5.2, 5.3), so each line is looked at by itself.
pub fn item_size(line: &[u8]) -> Option<usize>
    ensures value { result ≡ spec.item_size line.now }
    ensures within { IfSome result (λ size. (0 < size) × (size ≤ length line.now)) }
{
    let mut inside = Inside::Neither;
    for (at, byte) in line.iter().enumerate() {
        if inside.ends(*byte) {
            return Some(at + 1);
        }
        inside = inside.after(*byte);
    }
    None
}
