//! Schema texts: tables, views and grants (ISO/IEC 9075:1992, 10.3, 11.1, 11.3 to 11.9, 11.19 and 11.36).

use crate::cond::{Cond, QuerySpecification};
use crate::data_type::DataType;
use crate::expr::SignedNumber;
use crate::list::CommaList;
use crate::names::TableName;
use sq_items::Items;
use sq_lex::{Characters, Name};

/// A schema text: one schema definition or more.
#[derive(Drop)]
pub struct SchemaText {
    pub first: SchemaDefinition,
    pub rest: Items<SchemaDefinition>,
}

/// A schema definition: `CREATE SCHEMA AUTHORIZATION name { element } [ ";" ]`.
#[derive(Drop)]
pub struct SchemaDefinition {
    pub authorization: Name,
    pub elements: Items<SchemaElement>,
    /// Whether a semicolon is written after the definition.
    pub semicolon: bool,
}

/// A schema element.
#[derive(Drop)]
pub enum SchemaElement {
    Table(TableDefinition),
    View(ViewDefinition),
    Grant(GrantStatement),
}

/// A table definition: `CREATE TABLE name "(" element { "," element } ")"`.
#[derive(Drop)]
pub struct TableDefinition {
    pub name: TableName,
    pub elements: CommaList<TableElement>,
}

/// A table element: a column definition or a table constraint.
#[derive(Drop)]
pub enum TableElement {
    Column(ColumnDefinition),
    /// `UNIQUE "(" columns ")"`.
    Unique(CommaList<Name>),
    /// `PRIMARY KEY "(" columns ")"`.
    PrimaryKey(CommaList<Name>),
    ForeignKey(ForeignKey),
    /// `CHECK "(" condition ")"`.
    Check(Cond),
}

/// A referential constraint definition: `FOREIGN KEY "(" columns ")" references`.
#[derive(Drop)]
pub struct ForeignKey {
    pub columns: CommaList<Name>,
    pub references: References,
}

/// A references specification: `REFERENCES table [ "(" columns ")" ]`.
#[derive(Drop)]
pub struct References {
    pub table: TableName,
    pub columns: Option<CommaList<Name>>,
}

/// A column definition: `name type [ DEFAULT default ] { constraint }`.
#[derive(Drop)]
pub struct ColumnDefinition {
    pub name: Name,
    pub data_type: DataType,
    pub default: Option<DefaultValue>,
    pub constraints: Items<ColumnConstraint>,
}

/// The value that a default clause gives.
#[derive(Drop)]
pub enum DefaultValue {
    Number(SignedNumber),
    /// The characters of a text literal.
    Text(Characters),
    User,
    Null,
}

/// A column constraint.
#[derive(Drop)]
pub enum ColumnConstraint {
    NotNull,
    Unique,
    PrimaryKey,
    References(References),
    /// `CHECK "(" condition ")"`.
    Check(Cond),
}

/// A view definition: `CREATE VIEW name [ "(" columns ")" ] AS query [ WITH CHECK OPTION ]`.
#[derive(Drop)]
pub struct ViewDefinition {
    pub name: TableName,
    pub columns: Option<CommaList<Name>>,
    pub query: QuerySpecification,
    /// Whether WITH CHECK OPTION is written.
    pub check_option: bool,
}

/// A grant statement: `GRANT privileges ON [ TABLE ] table TO grantees [ WITH GRANT OPTION ]`.
#[derive(Drop)]
pub struct GrantStatement {
    pub privileges: Privileges,
    /// Whether the word TABLE is written.
    pub table_word: bool,
    pub table: TableName,
    pub grantees: CommaList<Grantee>,
    /// Whether WITH GRANT OPTION is written.
    pub grant_option: bool,
}

/// The privileges that a grant statement grants.
#[derive(Drop)]
pub enum Privileges {
    /// `ALL PRIVILEGES`.
    All,
    Actions(CommaList<Action>),
}

/// An action on a table. UPDATE and REFERENCES may have a list of columns in brackets.
#[derive(Drop)]
pub enum Action {
    Select,
    Insert,
    Delete,
    Update(Option<CommaList<Name>>),
    References(Option<CommaList<Name>>),
}

/// A grantee.
#[derive(Clone, Copy)]
pub enum Grantee {
    Public,
    User(Name),
}
