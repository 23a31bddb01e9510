//! Truths of conditions.

ghost use Rattle.std.specs.Prelude.{◌≡◌};
ghost use Rattle.sq_value.specs.Truth.{both, either, negation, known};

/// The truth of a condition (ISO/IEC 9075:1992, 8.12).
#[derive(Clone, Copy, Debug, PartialEq, Eq)]
pub enum Truth {
    False,
    Unknown,
    True,
}

impl Truth {
    /// AND: false if one is false, else unknown if one is unknown.
    pub fn and(self, other: Truth) -> Truth
        ensures { result ≡ both self other }
    {
        match (self, other) {
            (Truth::False, _) | (_, Truth::False) => Truth::False,
            (Truth::True, Truth::True) => Truth::True,
            _ => Truth::Unknown,
        }
    }

    /// OR: true if one is true, else unknown if one is unknown.
    pub fn or(self, other: Truth) -> Truth
        ensures { result ≡ either self other }
    {
        match (self, other) {
            (Truth::True, _) | (_, Truth::True) => Truth::True,
            (Truth::False, Truth::False) => Truth::False,
            _ => Truth::Unknown,
        }
    }

    /// NOT: unknown stays unknown.
    pub fn not(self) -> Truth
        ensures { result ≡ negation self }
    {
        match self {
            Truth::False => Truth::True,
            Truth::Unknown => Truth::Unknown,
            Truth::True => Truth::False,
        }
    }
}

impl From<bool> for Truth {
    ghost from_gives = { λ holds truth. truth ≡ known holds };

    fn from(holds: bool) -> Truth {
        if holds { Truth::True } else { Truth::False }
    }
}
