//! Symbols.

ghost use Rattle.std.specs.Prelude.{◌≡◌, ◌↔◌, IsTrue};
ghost use Rattle.sq_lex.specs.Symbol as spec;

/// A symbol of one or two characters.
#[derive(Clone, Copy, Debug, PartialEq, Eq)]
pub enum Symbol {
    /// `(`
    Open,
    /// `)`
    Close,
    /// `,`
    Comma,
    /// `;`
    Semicolon,
    /// `.`
    Dot,
    /// `:`
    Colon,
    /// `*`
    Star,
    /// `+`
    Plus,
    /// `-`
    Minus,
    /// `/`
    Slash,
    /// `=`
    Equal,
    /// `<>`
    NotEqual,
    /// `<`
    Less,
    /// `>`
    Greater,
    /// `<=`
    LessOrEqual,
    /// `>=`
    GreaterOrEqual,
}

impl Symbol {
    /// The symbol's rank among the symbols, from 0.
    pub fn rank(self) -> u8
        ensures { result ≡ spec.symbol_rank self }
    {
        self as u8
    }

    /// Whether two symbols are the same.
    pub fn is(self, other: Symbol) -> bool
        ensures value { result ≡ spec.same_symbol self other }
        ensures same { IsTrue result ↔ (self ≡ other) }
    {
        self.rank() == other.rank()
    }

    /// The symbol of these two characters, if there is one.
    pub(crate) fn of_two(first: u8, second: u8) -> Option<Symbol>
        ensures { result ≡ spec.symbol_of_two first second }
    {
        match (first, second) {
            (b'<', b'>') => Some(Symbol::NotEqual),
            (b'<', b'=') => Some(Symbol::LessOrEqual),
            (b'>', b'=') => Some(Symbol::GreaterOrEqual),
            _ => None,
        }
    }

    /// The symbol of this character alone, if there is one.
    pub(crate) fn of_one(character: u8) -> Option<Symbol>
        ensures { result ≡ spec.symbol_of_one character }
    {
        match character {
            b'(' => Some(Symbol::Open),
            b')' => Some(Symbol::Close),
            b',' => Some(Symbol::Comma),
            b';' => Some(Symbol::Semicolon),
            b'.' => Some(Symbol::Dot),
            b':' => Some(Symbol::Colon),
            b'*' => Some(Symbol::Star),
            b'+' => Some(Symbol::Plus),
            b'-' => Some(Symbol::Minus),
            b'/' => Some(Symbol::Slash),
            b'=' => Some(Symbol::Equal),
            b'<' => Some(Symbol::Less),
            b'>' => Some(Symbol::Greater),
            _ => None,
        }
    }
}
