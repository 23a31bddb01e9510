//! Search conditions and query specifications (ISO/IEC 9075:1992, 6.3, 7.3 to 7.9, 7.11 and 8).

use crate::expr::{Expr, SetQuantifier};
use crate::list::CommaList;
use crate::names::{ColumnReference, TableName};
use sq_items::{Boxed, Items};
use sq_lex::Name;

/// A comparison operator.
#[derive(Clone, Copy, Debug, PartialEq, Eq)]
pub enum Comparison {
    Equal,
    NotEqual,
    Less,
    Greater,
    LessOrEqual,
    GreaterOrEqual,
}

/// The word between a comparison operator and its subquery.
#[derive(Clone, Copy, Debug, PartialEq, Eq)]
pub enum Quantifier {
    All,
    Any,
    Some,
}

/// A correlation name: `[ AS ] name`.
#[derive(Clone, Copy)]
pub struct Correlation {
    /// Whether the word AS is written.
    pub as_word: bool,
    pub name: Name,
}

/// A table reference: `table [ [ AS ] name ]`.
#[derive(Clone, Copy)]
pub struct TableReference {
    pub table: TableName,
    pub correlation: Option<Correlation>,
}

/// A select list.
#[derive(Drop)]
pub enum SelectList {
    /// `*`.
    Star,
    Items(CommaList<Expr>),
}

/// A search condition: boolean terms, with OR between each two.
#[cycle(cond)]
#[derive(Drop)]
pub struct Cond {
    pub first: Conj,
    pub rest: Items<Conj>,
}

/// A boolean term: boolean factors, with AND between each two.
#[cycle(cond)]
#[derive(Drop)]
pub struct Conj {
    pub first: Test,
    pub rest: Items<Test>,
}

/// A boolean factor: `[ NOT ] body`.
#[cycle(cond)]
#[derive(Drop)]
pub struct Test {
    /// Whether NOT is written.
    pub negated: bool,
    pub body: Body,
}

/// A boolean primary: a predicate, or a search condition in brackets.
#[cycle(cond)]
#[derive(Drop)]
pub enum Body {
    /// A predicate that begins with an expression, and the part after that expression.
    Predicate(Expr, Tail),
    /// `EXISTS "(" specification ")"`.
    Exists(Boxed<QuerySpecification>),
    /// `"(" condition ")"`.
    Bracketed(Boxed<Cond>),
}

/// The part of a predicate after its left expression. A `bool` says whether NOT is written.
#[cycle(cond)]
#[derive(Drop)]
pub enum Tail {
    /// `op expr`.
    Compare(Comparison, Expr),
    /// `op [ ALL | ANY | SOME ] "(" specification ")"`.
    CompareQuery(Comparison, Option<Quantifier>, Boxed<QuerySpecification>),
    /// `[ NOT ] BETWEEN expr AND expr`.
    Between(bool, Expr, Boxed<Expr>),
    /// `[ NOT ] IN "(" specification ")"`.
    InQuery(bool, Boxed<QuerySpecification>),
    /// `[ NOT ] IN "(" expr { "," expr } ")"`.
    InList(bool, CommaList<Expr>),
    /// `[ NOT ] LIKE expr [ ESCAPE expr ]`.
    Like(bool, Expr, Option<Boxed<Expr>>),
    /// `IS [ NOT ] NULL`.
    Null(bool),
}

/// A table expression: `FROM .. [ WHERE .. ] [ GROUP BY .. ] [ HAVING .. ]`.
#[cycle(cond)]
#[derive(Drop)]
pub struct TableExpression {
    pub from: CommaList<TableReference>,
    pub where_clause: Option<Cond>,
    pub group_by: Option<CommaList<ColumnReference>>,
    pub having: Option<Cond>,
}

/// A query specification: `SELECT [ ALL | DISTINCT ] list table`.
#[cycle(cond)]
#[derive(Drop)]
pub struct QuerySpecification {
    pub quantifier: Option<SetQuantifier>,
    pub list: SelectList,
    pub table: TableExpression,
}
