//! Where a query specification ends with a status.

use sq_meaning::Status;

/// The clause in which a query specification ends. Items, set functions and the items of FROM have numbers in the order of the text, from
/// 0 on.
#[derive(Clone, Copy, Debug, PartialEq, Eq)]
pub enum Clause {
    /// An item of FROM: the query of a view.
    From(usize),
    Where,
    /// Without groups an item of the select list, on a line.
    Item(usize),
    /// With groups the operand of a set function, on a line.
    Operand(usize),
    /// With groups a set function itself, of a group.
    SetFunction(usize),
    /// HAVING, of a group.
    Having,
    /// With groups an item of the select list, of a group.
    GroupItem(usize),
}

/// A clause, and the status that it ends with.
#[derive(Clone, Copy)]
pub struct ClauseEnd {
    pub clause: Clause,
    pub status: Status,
}

/// Where a query specification ends: in which clause, and on which line of the product of its tables. A group is told by its first line.
#[derive(Drop)]
pub struct QueryEnd {
    pub end: ClauseEnd,
    /// Of each item of FROM the place of its row among the rows of the item, from 0 on; empty where FROM itself ends, and of a group
    /// of no line.
    pub line: Vec<usize>,
}
