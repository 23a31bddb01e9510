//! Data types (ISO/IEC 9075:1992, 6.1).

use sq_lex::Number;

/// A data type, as it is spelled.
#[derive(Clone, Copy)]
pub enum DataType {
    Smallint,
    Integer,
    Int,
    /// `word [ "(" precision [ "," scale ] ")" ]`.
    Exact(ExactWord, Option<Precision>),
    /// `word [ "(" length ")" ]`.
    Character(CharacterWord, Option<Number>),
    /// `word "(" length ")"`.
    Varying(VaryingWord, Number),
}

/// The word of an exact number type with a precision.
#[derive(Clone, Copy, Debug, PartialEq, Eq)]
pub enum ExactWord {
    Numeric,
    Decimal,
    Dec,
}

/// The word of a fixed character type.
#[derive(Clone, Copy, Debug, PartialEq, Eq)]
pub enum CharacterWord {
    Character,
    Char,
}

/// The words of a varying character type.
#[derive(Clone, Copy, Debug, PartialEq, Eq)]
pub enum VaryingWord {
    CharacterVarying,
    CharVarying,
    Varchar,
}

/// A precision, and a scale if one is written.
#[derive(Clone, Copy)]
pub struct Precision {
    pub precision: Number,
    pub scale: Option<Number>,
}
