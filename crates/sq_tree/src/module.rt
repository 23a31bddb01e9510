//! Module texts: cursors and procedures (ISO/IEC 9075:1992, 12.1, 12.3 and 13.1).

use crate::data_type::DataType;
use crate::list::CommaList;
use crate::query::Query;
use crate::statement::Statement;
use sq_items::Items;
use sq_lex::{Name, Number};

/// A module text: `MODULE name LANGUAGE language AUTHORIZATION authorization { item }`.
#[derive(Drop)]
pub struct ModuleText {
    pub name: Name,
    pub language: Name,
    pub authorization: Name,
    pub items: Items<ModuleItem>,
}

/// A cursor or a procedure.
#[derive(Drop)]
pub enum ModuleItem {
    Cursor(Cursor),
    Procedure(Procedure),
}

/// A cursor: `DECLARE name [ INSENSITIVE ] [ SCROLL ] CURSOR FOR query [ ORDER BY sort { "," sort } ] [ ";" ]`.
#[derive(Drop)]
pub struct Cursor {
    pub name: Name,
    pub insensitive: bool,
    pub scroll: bool,
    pub query: Query,
    pub order_by: Option<CommaList<SortSpecification>>,
    /// Whether a semicolon is written after the cursor.
    pub semicolon: bool,
}

/// A sort specification: `key [ ASC | DESC ]`.
#[derive(Clone, Copy)]
pub struct SortSpecification {
    pub key: SortKey,
    pub direction: Option<SortDirection>,
}

/// A sort key: a result column by its name or its position.
#[derive(Clone, Copy)]
pub enum SortKey {
    Column(Name),
    Position(Number),
}

/// ASC or DESC.
#[derive(Clone, Copy, Debug, PartialEq, Eq)]
pub enum SortDirection {
    Asc,
    Desc,
}

/// A procedure: `PROCEDURE name declarations ";" statement ";"`.
#[derive(Drop)]
pub struct Procedure {
    pub name: Name,
    pub declarations: Declarations,
    pub statement: Statement,
}

/// The parameter declarations of a procedure.
#[derive(Drop)]
pub enum Declarations {
    /// `"(" declaration { "," declaration } ")"`.
    Bracketed(CommaList<Declaration>),
    /// `declaration { [ "," ] declaration }`.
    Bare(Declaration, Items<BareDeclaration>),
}

/// `[ "," ] declaration`.
#[derive(Clone, Copy)]
pub struct BareDeclaration {
    /// Whether the comma is written.
    pub comma: bool,
    pub declaration: Declaration,
}

/// A parameter declaration.
#[derive(Clone, Copy)]
pub enum Declaration {
    /// `":" name type`.
    Parameter(Name, DataType),
    Sqlcode,
    Sqlstate,
}
