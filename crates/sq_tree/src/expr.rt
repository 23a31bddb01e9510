//! Value expressions, signed numbers and set functions (ISO/IEC 9075:1992, 5.3, 6.2, 6.5 and 6.11 to 6.13).

use crate::names::{ColumnReference, Parameter};
use sq_items::{Boxed, Items};
use sq_lex::{Characters, Number};

/// `+` or `-`.
#[derive(Clone, Copy, Debug, PartialEq, Eq)]
pub enum Sign {
    Plus,
    Minus,
}

/// `*` or `/`.
#[derive(Clone, Copy, Debug, PartialEq, Eq)]
pub enum TimesSign {
    Times,
    Over,
}

/// A number with or without a sign.
#[derive(Clone, Copy)]
pub struct SignedNumber {
    pub sign: Option<Sign>,
    pub number: Number,
}

/// A set quantifier.
#[derive(Clone, Copy, Debug, PartialEq, Eq)]
pub enum SetQuantifier {
    All,
    Distinct,
}

/// The word of a set function.
#[derive(Clone, Copy, Debug, PartialEq, Eq)]
pub enum SetFunction {
    Count,
    Sum,
    Avg,
    Min,
    Max,
}

/// A value expression: terms, with a sign before each but the first.
#[cycle(expr)]
#[derive(Drop)]
pub struct Expr {
    pub first: Term,
    pub rest: Items<Added>,
}

/// A sign and the term after it.
#[cycle(expr)]
#[derive(Drop)]
pub struct Added {
    pub sign: Sign,
    pub term: Term,
}

/// A term: factors, with `*` or `/` before each but the first.
#[cycle(expr)]
#[derive(Drop)]
pub struct Term {
    pub first: Factor,
    pub rest: Items<Scaled>,
}

/// `*` or `/`, and the factor after it.
#[cycle(expr)]
#[derive(Drop)]
pub struct Scaled {
    pub sign: TimesSign,
    pub factor: Factor,
}

/// A factor: a primary with or without a sign.
#[cycle(expr)]
#[derive(Drop)]
pub struct Factor {
    pub sign: Option<Sign>,
    pub primary: Primary,
}

/// A value expression primary.
#[cycle(expr)]
#[derive(Drop)]
pub enum Primary {
    Number(Number),
    /// The characters of a text literal.
    Text(Characters),
    Parameter(Parameter),
    User,
    Column(ColumnReference),
    /// `COUNT "(" "*" ")"`.
    CountRows,
    /// `function "(" [ ALL | DISTINCT ] expr ")"`.
    SetFunction(SetFunction, Option<SetQuantifier>, Boxed<Expr>),
    /// `"(" expr ")"`.
    Bracketed(Boxed<Expr>),
}
