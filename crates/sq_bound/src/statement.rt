//! Statements with their names as places.

ghost use Rattle.std.specs.Prelude.{◌≡◌};

use crate::condition::BoundSpecification;
use crate::expression::BoundExpr;
use crate::names::{Leaf, ObjectColumn};
use crate::query::Target;
use crate::shared::Shared;
use sq_items::Items;

/// A statement of a procedure.
#[derive(Drop)]
pub enum BoundStatement {
    /// The cursor's number.
    Open(usize),
    Fetch(BoundFetch),
    Close(usize),
    Select(BoundSelect),
    Insert(BoundInsert),
    Update(BoundUpdate),
    Delete(ChangeTarget),
    Commit,
    Rollback,
}

/// A target: the place of the parameter that gets a column's value, and of its indicator parameter.
#[derive(Clone, Copy, Debug, PartialEq, Eq)]
pub struct Output {
    pub parameter: usize,
    pub indicator: Option<usize>,
}

/// A fetch statement (ISO/IEC 9075:1992, 13.3).
#[derive(Drop)]
pub struct BoundFetch {
    pub cursor: usize,
    pub orientation: FetchOrientation,
    pub outputs: Items<Output>,
}

/// A fetch orientation.
#[derive(Clone, Copy)]
pub enum FetchOrientation {
    Next,
    Prior,
    First,
    Last,
    Absolute(Distance),
    Relative(Distance),
}

/// The number of an ABSOLUTE or RELATIVE fetch orientation.
#[derive(Clone, Copy)]
pub enum Distance {
    Number(i64),
    /// The place of a parameter.
    Parameter(usize),
}

/// A select statement of one row (13.5).
#[derive(Drop)]
pub struct BoundSelect {
    pub query: BoundSpecification,
    pub outputs: Items<Output>,
}

/// An insert statement (13.8).
#[derive(Drop)]
pub struct BoundInsert {
    /// The place of the base table that gets the rows.
    pub base: usize,
    /// The leaf under the named table.
    pub leaf: Shared<Leaf>,
    /// The columns of the base table that get the values, in the order of the values.
    pub columns: Items<ObjectColumn>,
    pub source: InsertedRows,
    ghost is_under: { base ≡ leaf.table.place },
}

/// The source of inserted values.
#[derive(Drop)]
pub enum InsertedRows {
    Values(Items<BoundExpr>),
    Query(BoundSpecification),
}

/// The rows that an update or delete statement changes.
#[derive(Drop)]
pub enum ChangeTarget {
    Searched(Target),
    Positioned(PositionedTarget),
}

/// The row that a cursor is on.
#[derive(Drop)]
pub struct PositionedTarget {
    pub cursor: usize,
    /// The place of the base table.
    pub base: usize,
    /// The leaf under the named table.
    pub leaf: Shared<Leaf>,
    ghost is_under: { base ≡ leaf.table.place },
}

/// An update statement (13.9, 13.10).
#[derive(Drop)]
pub struct BoundUpdate {
    pub target: ChangeTarget,
    pub assignments: Items<BoundAssignment>,
}

/// A set clause: a column of the base table, and its value.
#[derive(Drop)]
pub struct BoundAssignment {
    pub column: ObjectColumn,
    pub value: BoundExpr,
}
