//! Domains of columns and parameters, and kinds of values.

ghost use Rattle.std.specs.Prelude.{◌≡◌};
ghost use Rattle.sq_value.specs.Domain.{domain_length, kind_of};

/// The values that a column or a parameter may hold besides null.
#[derive(Clone, Copy, Debug, PartialEq, Eq)]
pub enum Domain {
    /// SMALLINT.
    Small,
    /// INTEGER.
    Int,
    /// NUMERIC and DECIMAL of a precision and a scale.
    Numeric(u8, u8),
    /// CHARACTER of a length.
    Char(u16),
    /// CHARACTER VARYING of a greatest length.
    VarChar(u16),
}

/// The kind of an expression's values, known before it is evaluated.
#[derive(Clone, Copy, Debug, PartialEq, Eq)]
pub enum Kind {
    /// Numbers of a scale.
    Num(u8),
    /// Texts of a length.
    Chars(u16),
    /// Texts of at most a length.
    Vary(u16),
}

impl Domain {
    /// The kind of the domain's values.
    pub fn kind(self) -> Kind
        ensures { result ≡ kind_of self }
    {
        match self {
            Domain::Small | Domain::Int => Kind::Num(0),
            Domain::Numeric(_, scale) => Kind::Num(scale),
            Domain::Char(length) => Kind::Chars(length),
            Domain::VarChar(length) => Kind::Vary(length),
        }
    }

    /// The length of its texts, and 0 for a domain of numbers.
    pub(crate) fn length(self) -> u16
        ensures { result ≡ domain_length self }
    {
        match self {
            Domain::Char(length) | Domain::VarChar(length) => length,
            _ => 0,
        }
    }
}
