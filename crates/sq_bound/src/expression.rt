//! Value expressions with their columns as places.

use sq_items::{Boxed, Items};
use sq_tree::{SetFunction, Sign};
use sq_value::Value;

/// The place of a column's value: the number of queries further out, the item of that query's FROM clause, and the column
/// of that item. All count from 0.
#[derive(Clone, Copy, Debug, PartialEq, Eq)]
pub struct Place {
    pub depth: usize,
    pub item: usize,
    pub column: usize,
}

/// The place of a parameter whose value is read, and of its indicator parameter, which makes it null if it is negative.
#[derive(Clone, Copy, Debug, PartialEq, Eq)]
pub struct Input {
    pub parameter: usize,
    pub indicator: Option<usize>,
}

/// An operator between two numbers.
#[derive(Clone, Copy, Debug, PartialEq, Eq)]
pub enum Operator {
    Plus,
    Minus,
    Times,
    Over,
}

/// A value expression (ISO/IEC 9075:1992, 6.11).
#[cycle(bound_expr)]
#[derive(Drop)]
pub enum BoundExpr {
    /// A literal, or NULL as a value to be stored.
    Literal(Value),
    Parameter(Input),
    User,
    Column(Place),
    /// The value of the group's set function with this number.
    SetFunction(usize),
    Signed(Sign, Boxed<BoundExpr>),
    /// An operand, and further ones, each with the operator before it; performed from left to right.
    Operations(Boxed<BoundExpr>, Items<Operation>),
}

/// An operator and its right operand.
#[cycle(bound_expr)]
#[derive(Drop)]
pub struct Operation {
    pub operator: Operator,
    pub operand: BoundExpr,
}

/// A set function of a grouped query (6.5).
#[derive(Drop)]
pub enum SetFunctionCall {
    /// `COUNT(*)`.
    CountRows,
    Over(Aggregate),
}

/// A set function over the values of an expression.
#[derive(Drop)]
pub struct Aggregate {
    pub function: SetFunction,
    pub distinct: bool,
    pub operand: BoundExpr,
}
