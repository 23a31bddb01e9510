//! The reserved words.

ghost use Rattle.std.specs.Prelude.{◌≡◌, ◌↔◌, IsTrue};
ghost use Rattle.sq_lex.specs.Word as spec;

/// A reserved word.
#[derive(Clone, Copy, Debug, PartialEq, Eq)]
pub enum Word {
    Absolute,
    All,
    And,
    Any,
    As,
    Asc,
    Authorization,
    Avg,
    Between,
    By,
    Char,
    Character,
    Check,
    Close,
    Commit,
    Count,
    Create,
    Current,
    Cursor,
    Dec,
    Decimal,
    Declare,
    Default,
    Delete,
    Desc,
    Distinct,
    Escape,
    Exists,
    Fetch,
    First,
    For,
    Foreign,
    From,
    Grant,
    Group,
    Having,
    In,
    Indicator,
    Insensitive,
    Insert,
    Int,
    Integer,
    Into,
    Is,
    Key,
    Language,
    Last,
    Like,
    Max,
    Min,
    Module,
    Next,
    Not,
    Null,
    Numeric,
    Of,
    On,
    Open,
    Option,
    Or,
    Order,
    Primary,
    Prior,
    Privileges,
    Procedure,
    Public,
    References,
    Relative,
    Rollback,
    Schema,
    Scroll,
    Select,
    Set,
    Smallint,
    Some,
    Sqlcode,
    Sqlstate,
    Sum,
    Table,
    To,
    Union,
    Unique,
    Update,
    User,
    Values,
    Varchar,
    Varying,
    View,
    Where,
    With,
    Work,
}

impl Word {
    /// The word's rank in the alphabetical table of reserved words, from 0.
    pub fn rank(self) -> u8
        ensures { result ≡ spec.rank self }
    {
        self as u8
    }

    /// Whether two words are the same.
    pub fn is(self, other: Word) -> bool
        ensures value { result ≡ spec.same_word self other }
        ensures same { IsTrue result ↔ (self ≡ other) }
    {
        self.rank() == other.rank()
    }
}
