//! What is to be said of a call that did not end with 00000.

ghost use Rattle.std.specs.Prelude.{◌≡◌};
ghost use Rattle.sq_cause.specs.Cause.{status_of};
ghost use Rattle.sq_cause.specs.Select.{status_of_select};
ghost use Rattle.sq_cause.specs.Target.{status_of_target};
ghost use Rattle.sq_cause.specs.ValueFault.{status_of_value};

use sq_bound::TablePlace;
use sq_ending::InnerEnd;
use sq_lex::Name;
use sq_meaning::Status;
use sq_session::Fault;

/// The cause why a call did not end with 00000. It names tables, columns, keys and cursors by their places.
#[derive(Drop)]
pub enum Cause {
    /// The statement has this fault, and each call of it ends with 42000.
    Fault(Fault),
    /// The statement can't use its cursor.
    Cursor(CursorCause),
    /// A constraint would not hold of the base table at this place.
    Breach(usize, Breach),
    /// A row that the statement would put in the base table at this place would not be one of the view.
    CheckOption(usize, OptionBreach),
    /// A value that the statement would give a column.
    Value(ValueCause),
    /// A target that can't take its value, or takes only a part of it.
    Target(TargetCause),
    /// A SELECT INTO sets no target, or only a part of one.
    Select(SelectCause),
    /// The statement comes to no row.
    NoRow(NoRowCause),
    /// Too few row numbers are left for the new rows of the base table at this place.
    NoNumber(usize),
    /// A condition ends with a status on a row.
    Clause(ClauseCause),
    /// A check option or a CHECK ends with a status on a row that the statement would put in.
    RowEnd(RowEnd),
    /// A query of the statement ends with a status.
    Query(QueryCause),
    /// The status alone.
    General(Status),
}

/// A row that a statement would put in its table.
#[derive(Clone, Copy)]
pub struct RowPut {
    /// The place of its change among the statement's changes, from 0.
    pub place: usize,
    /// The number of the row that it would take the place of; a new row has none.
    pub number: Option<u64>,
}

/// A constraint that would not hold of the table that a statement changes.
#[derive(Clone, Copy)]
pub enum Breach {
    /// A row would be null in this column, which is NOT NULL.
    NotNull(RowPut, usize),
    /// This CHECK would be false of a row.
    Check(RowPut, usize),
    /// A row would have the same values in this key as the row of the table under this number.
    KeyOfRow(RowPut, usize, u64),
    /// A row would have the same values in this key as another row that the statement puts in.
    KeyOfPut(RowPut, usize, RowPut),
    /// A row would refer by this reference to no row.
    RefersToNone(RowPut, usize),
    /// A row would be gone to which another refers.
    IsReferredTo(Referring),
}

/// A row that would not meet a check option: the condition of the view at this level, counted from 0 and from inside out.
#[derive(Clone, Copy)]
pub struct OptionBreach {
    pub put: RowPut,
    pub level: usize,
}

/// A value that a statement would give a column, by the place of its column in the base table.
#[derive(Clone, Copy)]
pub struct ValueCause {
    /// The place of the base table.
    pub table: usize,
    pub column: usize,
    /// The place of the value, from 0: among those of VALUES, among the set clauses, or in the row of the query.
    pub item: usize,
    pub given: Given,
    pub fault: ValueFault,
}

/// By what a value is given.
#[derive(Clone, Copy)]
pub enum Given {
    /// VALUES of an insert statement.
    InValues,
    /// A set clause, for the row of the base table under this number.
    InSet(u64),
    /// The query of an insert statement: its row at this place, from 0.
    InQuery(usize),
}

/// A faulty value among others, and its column.
#[derive(Clone, Copy)]
pub struct ItemFault {
    pub item: usize,
    pub column: usize,
    pub fault: ValueFault,
}

/// The fault of a value.
#[derive(Clone, Copy)]
pub enum ValueFault {
    /// Its expression ends with this status.
    Ends(Status),
    /// The column can't store it: this status.
    Unfit(Status),
}

impl ValueFault {
    /// The status with which the call ended.
    pub fn status(&self) -> Status
        ensures { result ≡ status_of_value self.now }
    {
        match self {
            ValueFault::Ends(status) => *status,
            ValueFault::Unfit(status) => *status,
        }
    }
}

/// A target that can't take its value, or takes only a part of it, by the name of its parameter.
#[derive(Clone, Copy)]
pub struct TargetCause {
    pub parameter: Name,
    pub fault: TargetFault,
}

/// The fault of a target and its value.
#[derive(Clone, Copy)]
pub enum TargetFault {
    /// Null, and the target has no indicator.
    NullWithoutIndicator,
    /// The parameter can't hold the number.
    OutOfRange,
    /// The text is cut; it has this length.
    Cut(u16),
}

impl TargetFault {
    /// The status with which the call ended.
    pub fn status(&self) -> Status
        ensures { result ≡ status_of_target self.now }
    {
        match self {
            TargetFault::NullWithoutIndicator => Status::NullWithoutIndicator,
            TargetFault::OutOfRange => Status::NumericValueOutOfRange,
            TargetFault::Cut(_) => Status::TextTruncated,
        }
    }
}

/// Why a SELECT INTO sets no target, or only a part of one.
#[derive(Clone, Copy)]
pub enum SelectCause {
    /// Its query has no row.
    NoRow,
    /// Its query has more than one row.
    SeveralRows,
    /// A target can't take its value of the only row, or takes only a part of it.
    Target(TargetCause),
}

impl SelectCause {
    /// The status with which the call ended.
    pub fn status(&self) -> Status
        ensures { result ≡ status_of_select self.now }
    {
        match self {
            SelectCause::NoRow => Status::NoData,
            SelectCause::SeveralRows => Status::CardinalityViolation,
            SelectCause::Target(target) => target.fault.status(),
        }
    }
}

/// A row that refers to another: its table, which of the table's references, and the number of the row.
#[derive(Clone, Copy)]
pub struct Referring {
    pub table: usize,
    pub reference: usize,
    pub number: u64,
}

/// Why a statement can't use the cursor with this number.
#[derive(Clone, Copy)]
pub enum CursorCause {
    /// OPEN of a cursor that is open.
    IsOpen(usize),
    /// FETCH or CLOSE of a cursor that is closed, or a positioned statement on it.
    IsClosed(usize),
    /// A positioned statement on a cursor that is on no row.
    IsOnNoRow(usize),
    /// A positioned statement on a cursor whose row is gone: the row of this number.
    RowIsGone(usize, u64),
}

/// Which statement comes to no row.
#[derive(Clone, Copy)]
pub enum NoRowCause {
    /// FETCH: the cursor with this number is on none of its rows.
    Fetched(usize),
    /// UPDATE or DELETE: no row of the base table at this place meets the condition.
    Chosen(usize),
    /// INSERT: its query has no row.
    Given,
}

/// A condition that ends with a status on a row of a base table.
#[derive(Clone, Copy)]
pub struct ClauseCause {
    /// The place of the base table.
    pub table: usize,
    /// The number of the row.
    pub number: u64,
    pub clause: Clause,
    pub status: Status,
}

/// A condition on rows.
#[derive(Clone, Copy)]
pub enum Clause {
    /// The condition of the view at this level over the base table, counted from 0 and from inside out.
    View(usize),
    /// WHERE of the statement or of the cursor's query.
    Where,
}

/// A check option or a CHECK that ends with a status on a row that a statement would put in.
#[derive(Clone, Copy)]
pub struct RowEnd {
    /// The place of the base table.
    pub table: usize,
    pub put: RowPut,
    pub demand: Demand,
    pub status: Status,
}

/// A condition that a row which is put in has to meet.
#[derive(Clone, Copy)]
pub enum Demand {
    /// A check option: the condition of the view at this level over the base table, counted from 0 and from inside out.
    View(usize),
    /// The CHECK at this place in the definition of the base table, from 0.
    Check(usize),
}

/// The place at which a query of SELECT INTO, of INSERT or of a cursor that is not updatable ends with a status.
#[derive(Drop)]
pub struct QueryCause {
    /// The number of the query specification, from 0 on, if UNION joins more than one.
    pub term: Option<usize>,
    /// The views whose queries are gone into, the clause, and the line.
    pub end: InnerEnd,
    /// The items of FROM of the query that ends in that clause.
    pub tables: Vec<TablePlace>,
}

impl Cause {
    /// The status with which the call ended.
    pub fn status(&self) -> Status
        ensures { result ≡ status_of self.now }
    {
        match self {
            Cause::Fault(_) => Status::SyntaxErrorOrAccessRuleViolation,
            Cause::Cursor(_) => Status::InvalidCursorState,
            Cause::Breach(..) => Status::IntegrityConstraintViolation,
            Cause::CheckOption(..) => Status::CheckOptionViolation,
            Cause::Value(value) => value.fault.status(),
            Cause::Target(target) => target.fault.status(),
            Cause::Select(select) => select.status(),
            Cause::NoRow(_) => Status::NoData,
            Cause::NoNumber(_) => Status::NoRowNumberLeft,
            Cause::Clause(clause) => clause.status,
            Cause::RowEnd(end) => end.status,
            Cause::Query(query) => query.end.end.end.status,
            Cause::General(status) => *status,
        }
    }
}
