//! Answers of calls.

ghost use Rattle.std.specs.Prelude.{◌≡◌};
ghost use Rattle.sq_exchange.specs.Answer as spec;

/// The answer of a call. C reads it as its code; `host/sqmod.h` has the same numbers.
#[derive(Clone, Copy, Debug, PartialEq, Eq)]
pub enum Answer {
    Done,
    /// The handle leads to nothing, or no session is open.
    NotOpen,
    /// The handle leads to a host already, or its session is open.
    AlreadyOpen,
    /// A text is refused.
    Refused,
    NoMemory,
    /// No procedure or table has this name, or no value this place; or nothing was called before.
    Unknown,
    /// No value: a number of more than 18 digits or places, or a text that is too long or has other
    /// characters. Also a number of rows that is out of bounds.
    BadValue,
    /// No procedure has this number, or the values don't fit its parameters.
    BadArguments,
    /// The value is of another kind.
    OtherKind,
    /// A pointer is null. C finds that, so nothing here answers it.
    NullPointer,
    /// The room is too small for a text and the zero after it.
    NoRoom,
    /// The value is null.
    IsNull,
    /// No row is left.
    NoRow,
}

impl Answer {
    /// Gives the answer's code.
    pub fn code(self) -> i32
        ensures { result ≡ spec.code self }
    {
        match self {
            Answer::Done => 0,
            Answer::NotOpen => 1,
            Answer::AlreadyOpen => 2,
            Answer::Refused => 3,
            Answer::NoMemory => 4,
            Answer::Unknown => 5,
            Answer::BadValue => 6,
            Answer::BadArguments => 7,
            Answer::OtherKind => 8,
            Answer::NullPointer => 9,
            Answer::NoRoom => 10,
            Answer::IsNull => 11,
            Answer::NoRow => 12,
        }
    }

    /// Says what the answer means.
    fn text(self) -> &'static [u8]
        ensures { result.now ≡ spec.meaning self }
    {
        match self {
            Answer::Done => b"done",
            Answer::NotOpen => b"no session is open",
            Answer::AlreadyOpen => b"the session is open already",
            Answer::Refused => b"a text is refused",
            Answer::NoMemory => b"memory ran out",
            Answer::Unknown => b"no such procedure, table or output, or nothing was called",
            Answer::BadValue => b"no value, or a number of rows out of bounds",
            Answer::BadArguments => b"no such procedure, or the values don't fit its parameters",
            Answer::OtherKind => b"the value is of another kind",
            Answer::NullPointer => b"a pointer is null",
            Answer::NoRoom => b"the room is too small",
            Answer::IsNull => b"the value is null",
            Answer::NoRow => b"no row is left",
        }
    }
}

/// Finds the answer of a code, if it is one.
fn answer_of(code: i32) -> Option<Answer>
    ensures { result ≡ spec.answer_of code }
{
    match code {
        0 => Some(Answer::Done),
        1 => Some(Answer::NotOpen),
        2 => Some(Answer::AlreadyOpen),
        3 => Some(Answer::Refused),
        4 => Some(Answer::NoMemory),
        5 => Some(Answer::Unknown),
        6 => Some(Answer::BadValue),
        7 => Some(Answer::BadArguments),
        8 => Some(Answer::OtherKind),
        9 => Some(Answer::NullPointer),
        10 => Some(Answer::NoRoom),
        11 => Some(Answer::IsNull),
        12 => Some(Answer::NoRow),
        _ => None,
    }
}

/// Says what a code means.
pub fn answer_text(code: i32) -> &'static [u8]
    ensures { result.now ≡ spec.answer_text code }
{
    match answer_of(code) {
        Some(answer) => answer.text(),
        None => b"no code of sqmod",
    }
}
