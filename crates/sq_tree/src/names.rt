//! Names of tables and columns, and parameters (ISO/IEC 9075:1992, 5.4, 6.2 and 6.4).

use sq_lex::Name;

/// A table name: `[ schema "." ] table`.
#[derive(Clone, Copy)]
pub struct TableName {
    pub schema: Option<Name>,
    pub table: Name,
}

/// A column reference: `[ qualifier "." ] column`. A qualifier without a schema is a table's name or a correlation name.
#[derive(Clone, Copy)]
pub struct ColumnReference {
    pub qualifier: Option<TableName>,
    pub column: Name,
}

/// A parameter, with its indicator parameter if it has one: `":" name [ [ INDICATOR ] ":" name ]`.
#[derive(Clone, Copy)]
pub struct Parameter {
    pub name: Name,
    pub indicator: Option<Indicator>,
}

/// An indicator parameter: `[ INDICATOR ] ":" name`.
#[derive(Clone, Copy)]
pub struct Indicator {
    /// Whether the word INDICATOR is written.
    pub word: bool,
    pub name: Name,
}
