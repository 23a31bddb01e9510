//! Script texts: calls, and tables to be shown (own rule).

use crate::expr::SignedNumber;
use crate::list::CommaList;
use sq_items::Items;
use sq_lex::{Characters, Name};

/// A script text: items, each with a semicolon after it.
#[derive(Drop)]
pub struct ScriptText {
    pub items: Items<ScriptItem>,
}

/// A script item.
#[derive(Drop)]
pub enum ScriptItem {
    /// `CALL module "." procedure arguments`.
    Call {
        module: Name,
        procedure: Name,
        arguments: Arguments,
    },
    /// `TABLE schema "." table`.
    Table {
        schema: Name,
        table: Name,
    },
}

/// The arguments of a call.
#[derive(Drop)]
pub enum Arguments {
    /// No brackets are written.
    Unwritten,
    /// `"(" ")"`.
    Empty,
    /// `"(" argument { "," argument } ")"`.
    Listed(CommaList<Argument>),
}

/// An argument of a call.
#[derive(Drop)]
pub enum Argument {
    Number(SignedNumber),
    /// The characters of a text literal.
    Text(Characters),
    /// `*`: null.
    Null,
}
