//! Search conditions and query specifications with their columns as places.

ghost use Rattle.std.specs.Prelude.{◌≡◌, length, nat_lt, true};
ghost use Rattle.sq_bound.specs.Names.{is_bounded};

use crate::expression::{BoundExpr, Place, SetFunctionCall};
use sq_items::{Boxed, Items};
use sq_lex::Name;
use sq_tree::Comparison;
use sq_value::Kind;

/// A table: the place of a base table among the base tables, or of a view among the views.
#[derive(Clone, Copy, Debug, PartialEq, Eq, Hash)]
pub enum TablePlace {
    Base(usize),
    View(usize),
}

/// A search condition (ISO/IEC 9075:1992, 8.12): true if one of its terms is.
#[cycle(bound_cond)]
#[derive(Drop)]
pub struct BoundCond {
    pub terms: Items<BoundConj>,
}

/// A boolean term: true if all its tests are.
#[cycle(bound_cond)]
#[derive(Drop)]
pub struct BoundConj {
    pub tests: Items<BoundTest>,
}

/// A boolean factor.
#[cycle(bound_cond)]
#[derive(Drop)]
pub struct BoundTest {
    /// Whether NOT is written.
    pub negated: bool,
    pub predicate: Predicate,
    /// How many items of the FROM clause, from the left, hold all columns that the test reads.
    pub items: usize,
    /// Whether it may answer a status instead of a truth.
    pub can_fail: bool,
}

/// The values of a subquery that a comparison operator compares with.
#[derive(Clone, Copy, Debug, PartialEq, Eq)]
pub enum Compared {
    /// The subquery's one value, or null.
    Scalar,
    /// Each of its values.
    All,
    /// Some of its values.
    Any,
}

/// A predicate (8.2 to 8.8), or a search condition in brackets. A `bool` says whether NOT is written.
#[cycle(bound_cond)]
#[derive(Drop)]
pub enum Predicate {
    Compare(Comparison, BoundExpr, BoundExpr),
    CompareQuery(Comparison, Compared, BoundExpr, Boxed<BoundSpecification>),
    Between(bool, BoundExpr, BoundExpr, BoundExpr),
    InQuery(bool, BoundExpr, Boxed<BoundSpecification>),
    InList(bool, BoundExpr, Items<BoundExpr>),
    /// The text, the pattern, and the escape character if one is written.
    Like(bool, BoundExpr, BoundExpr, Option<BoundExpr>),
    Null(bool, BoundExpr),
    Exists(Boxed<BoundSpecification>),
    Bracketed(Boxed<BoundCond>),
}

/// A query specification (7.9).
#[cycle(bound_cond)]
#[derive(Drop)]
pub struct BoundSpecification {
    pub distinct: bool,
    pub list: Items<BoundExpr>,
    pub from: BoundFrom,
    pub condition: Option<BoundCond>,
    /// For a grouped query, its groups.
    pub grouping: Option<Grouping>,
    pub columns: Items<ResultColumn>,
    /// Whether evaluating it may answer a status instead of rows.
    pub can_fail: bool,
    /// The number of a subquery that reads no column of a query around it, which is evaluated at most once a statement. No other
    /// subquery of the statement has it.
    pub number: Option<usize>,
}

/// The tables of a FROM clause (7.4), one at least.
#[derive(Drop)]
pub struct BoundFrom {
    pub tables: Items<TablePlace>,
    pub ghost some: { nat_lt 0 (length tables) ≡ true },
}

/// The groups of a grouped query (7.7, 7.8).
#[cycle(bound_cond)]
#[derive(Drop)]
pub struct Grouping {
    /// The grouping columns, none without GROUP BY.
    pub columns: Items<Place>,
    /// The set functions of the query, in the order of the text.
    pub set_functions: Items<SetFunctionCall>,
    pub having: Option<BoundCond>,
}

/// A result column: the kind of its values, and its name if it has one.
#[derive(Clone, Copy)]
pub struct ResultColumn {
    pub name: Option<Name>,
    pub kind: Kind,
    pub ghost bounded: { is_bounded kind ≡ true },
}
