//! Faults of statements, view queries and conditions of CHECK.

/// A syntax or access rule that a statement, a view's query or the condition of a CHECK breaks (SQLSTATE 42000).
#[derive(Clone, Copy, Debug, PartialEq, Eq)]
pub enum BindingFault {
    /// No table or view has this name.
    UnknownTable,
    /// No column has this name.
    UnknownColumn,
    /// Two items of one FROM clause fit a column reference, have one correlation name, or are one table without
    /// correlation names.
    AmbiguousName,
    /// A number in the place of a text, or the reverse.
    KindMismatch,
    /// A scale above 18, more than 64 columns, or more than 16 items in a FROM clause.
    LimitExceeded,
    /// A set function outside a select list or HAVING, inside another, or over an outer reference or a subquery.
    MisplacedSetFunction,
    /// A column of a grouped query that is no grouping column.
    UngroupedColumn,
    /// Two counts of columns, values or targets differ.
    CountMismatch,
    /// A sort key that is no result column's position, and not the name of exactly one.
    BadSortKey,
    /// No parameter has this name, or no parameter may occur here.
    UnknownParameter,
    /// An indicator parameter that can't hold every length and -1.
    BadIndicator,
    /// A parameter twice among targets and their indicators.
    TargetTwice,
    /// The target isn't updatable, or a cursor isn't over this table.
    NotUpdatable,
    /// A column twice in an insert column list or among set clauses.
    ColumnTwice,
    /// The module has no cursor of this name, or the cursor's query has a fault.
    UnknownCursor,
    /// A fetch orientation that the cursor doesn't have, or whose number is no whole number.
    BadOrientation,
    /// The user lacks a privilege.
    PrivilegeMissing,
}
