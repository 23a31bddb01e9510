//! Statuses.

ghost use Rattle.std.specs.Prelude.{◌≡◌};
ghost use Rattle.sq_meaning.specs.Status as spec;

/// The status that a call ends with (ISO/IEC 9075:1992, 22.1).
#[derive(Clone, Copy, Debug, PartialEq, Eq)]
pub enum Status {
    SuccessfulCompletion,
    /// A warning: a text was cut to the length of its parameter.
    TextTruncated,
    NoData,
    /// A subquery or a SELECT INTO has more than one row.
    CardinalityViolation,
    /// Characters other than blanks would be lost.
    TextTooLong,
    /// A null is to be retrieved into a parameter without an indicator.
    NullWithoutIndicator,
    NumericValueOutOfRange,
    DivisionByZero,
    /// The escape character of LIKE is not of length one.
    InvalidEscapeCharacter,
    /// The escape character of LIKE escapes nothing.
    InvalidEscapeSequence,
    IntegrityConstraintViolation,
    InvalidCursorState,
    SyntaxErrorOrAccessRuleViolation,
    CheckOptionViolation,
    /// No row number is left in the table: an implementation limit.
    NoRowNumberLeft,
}

impl Status {
    /// SQLSTATE: its class and its subclass.
    pub fn sqlstate(self) -> [u8; 5]
        ensures { result ≡ spec.sqlstate self }
    {
        match self {
            Status::SuccessfulCompletion => *b"00000",
            Status::TextTruncated => *b"01004",
            Status::NoData => *b"02000",
            Status::CardinalityViolation => *b"21000",
            Status::TextTooLong => *b"22001",
            Status::NullWithoutIndicator => *b"22002",
            Status::NumericValueOutOfRange => *b"22003",
            Status::DivisionByZero => *b"22012",
            Status::InvalidEscapeCharacter => *b"22019",
            Status::InvalidEscapeSequence => *b"22025",
            Status::IntegrityConstraintViolation => *b"23000",
            Status::InvalidCursorState => *b"24000",
            Status::SyntaxErrorOrAccessRuleViolation => *b"42000",
            Status::CheckOptionViolation => *b"44000",
            Status::NoRowNumberLeft => *b"S1L00",
        }
    }

    /// SQLCODE: 0 on success and on a warning, 100 if there is no data, below 0 otherwise.
    pub fn sqlcode(self) -> i32
        ensures { result ≡ spec.sqlcode self }
    {
        match self {
            Status::SuccessfulCompletion | Status::TextTruncated => 0,
            Status::NoData => 100,
            Status::CardinalityViolation => -2100,
            Status::TextTooLong => -2201,
            Status::NullWithoutIndicator => -2202,
            Status::NumericValueOutOfRange => -2203,
            Status::DivisionByZero => -2212,
            Status::InvalidEscapeCharacter => -2219,
            Status::InvalidEscapeSequence => -2225,
            Status::IntegrityConstraintViolation => -2300,
            Status::InvalidCursorState => -2400,
            Status::SyntaxErrorOrAccessRuleViolation => -4200,
            Status::CheckOptionViolation => -4400,
            Status::NoRowNumberLeft => -9001,
        }
    }
}
