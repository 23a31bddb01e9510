//! The statements of a procedure (ISO/IEC 9075:1992, 13.2 to 13.10, 14.3 and 14.4).

use crate::cond::{Cond, QuerySpecification, SelectList, TableExpression};
use crate::expr::{Expr, SetQuantifier, SignedNumber};
use crate::list::CommaList;
use crate::names::{Parameter, TableName};
use sq_lex::Name;

/// A statement of a procedure.
#[derive(Drop)]
pub enum Statement {
    /// `OPEN cursor`.
    Open(Name),
    Fetch(Fetch),
    /// `CLOSE cursor`.
    Close(Name),
    Select(Select),
    Insert(Insert),
    Update(Update),
    Delete(Delete),
    /// `COMMIT [ WORK ]`: whether WORK is written.
    Commit(bool),
    /// `ROLLBACK [ WORK ]`: whether WORK is written.
    Rollback(bool),
}

/// A fetch statement: `FETCH [ [ orientation ] FROM ] cursor INTO targets`.
#[derive(Drop)]
pub struct Fetch {
    pub from: Option<FetchFrom>,
    pub cursor: Name,
    pub targets: CommaList<Parameter>,
}

/// The word FROM, with the fetch orientation before it.
#[derive(Clone, Copy)]
pub struct FetchFrom {
    pub orientation: Option<Orientation>,
}

/// A fetch orientation.
#[derive(Clone, Copy)]
pub enum Orientation {
    Next,
    Prior,
    First,
    Last,
    Absolute(Position),
    Relative(Position),
}

/// The number of an ABSOLUTE or RELATIVE fetch orientation.
#[derive(Clone, Copy)]
pub enum Position {
    Number(SignedNumber),
    /// `":" name`.
    Parameter(Name),
}

/// A select statement of one row: `SELECT [ ALL | DISTINCT ] list INTO targets table`.
#[derive(Drop)]
pub struct Select {
    pub quantifier: Option<SetQuantifier>,
    pub list: SelectList,
    pub targets: CommaList<Parameter>,
    pub table: TableExpression,
}

/// An insert statement: `INSERT INTO table [ "(" columns ")" ] source`.
#[derive(Drop)]
pub struct Insert {
    pub table: TableName,
    pub columns: Option<CommaList<Name>>,
    pub source: InsertSource,
}

/// The source of the rows that an insert statement inserts.
#[derive(Drop)]
pub enum InsertSource {
    /// `VALUES "(" value { "," value } ")"`.
    Values(CommaList<NewValue>),
    Query(QuerySpecification),
}

/// A value that is to be stored.
#[derive(Drop)]
pub enum NewValue {
    Expr(Expr),
    Null,
}

/// An update statement: `UPDATE table SET assignments [ where ]`.
#[derive(Drop)]
pub struct Update {
    pub table: TableName,
    pub assignments: CommaList<Assignment>,
    pub target: Option<Where>,
}

/// A set clause: `column "=" value`.
#[derive(Drop)]
pub struct Assignment {
    pub column: Name,
    pub value: NewValue,
}

/// A delete statement: `DELETE FROM table [ where ]`.
#[derive(Drop)]
pub struct Delete {
    pub table: TableName,
    pub target: Option<Where>,
}

/// Which rows an update or delete statement changes.
#[derive(Drop)]
pub enum Where {
    /// `WHERE cond`.
    Condition(Cond),
    /// `WHERE CURRENT OF cursor`.
    CurrentOf(Name),
}
