//! Why texts are refused before anything runs.

/// Why a schema definition or a schema element is refused.
#[derive(Clone, Copy, Debug, PartialEq, Eq)]
pub enum SchemaFault {
    /// A user's second schema, a table's name used again, or a column's name used again in one table or view.
    NameTwice,
    /// A key, a reference or a grant names a table or a column that isn't there.
    UnknownName,
    /// A precision, a scale or a length out of range, or written with a point.
    BadType,
    /// A column of a key isn't declared NOT NULL.
    NullableKey,
    /// Two primary keys, a column twice in a key or a reference, or more than 6 columns.
    BadKey,
    /// The referenced columns are no key of a base table, or do not pair with the referencing ones.
    BadReference,
    /// The condition of a CHECK has a fault, a subquery, a set function or USER.
    BadCheck,
    /// A default that its column can't store.
    BadDefault,
    /// The query of a view has a fault, or its column names do not fit.
    BadView,
    /// WITH CHECK OPTION on a view that isn't updatable.
    BadCheckOption,
    /// The user lacks a privilege, or may not grant it.
    PrivilegeMissing,
    /// More than 64 columns in a table.
    TooManyColumns,
    /// A table or a view under another user's name, or a column twice in a grant.
    OtherSchema,
    /// More than 1000 tables and views.
    TooManyTables,
}

/// Why a module, a cursor or a procedure is refused.
#[derive(Clone, Copy, Debug, PartialEq, Eq)]
pub enum ModuleFault {
    /// An earlier module has the name.
    TwoModules,
    /// An earlier procedure of the module has the name.
    TwoProcedures,
    /// An earlier cursor of the module has the name.
    TwoCursors,
    /// Not exactly one procedure opens the cursor.
    OpenCount,
    /// No status parameter, or one twice.
    StatusParameter,
    /// A parameter declared twice or of a bad type, or more than 64 of them.
    BadParameter,
}

/// Why a script item is refused.
#[derive(Clone, Copy, Debug, PartialEq, Eq)]
pub enum ScriptFault {
    UnknownProcedure,
    /// No base table has the name.
    UnknownTable,
    /// The arguments aren't as many as the named parameters, or one can't be stored in its parameter.
    BadArguments,
}
