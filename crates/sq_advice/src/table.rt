//! The tables and views that schemas declare.

use crate::names::{index_after, index_before, is_name, is_symbol, is_type, is_word, name_at};
use sq_lex::{Lexeme, Name, Symbol, Token, Word};
use std::alloc::AllocError;

/// A table or a view that a schema declares.
#[derive(Clone, Copy)]
pub(crate) struct Table {
    pub(crate) owner: Name,
    pub(crate) name: Name,
    /// The schema text that declares it, by its number.
    pub(crate) text: usize,
    /// The number of the token with which it begins there.
    pub(crate) first: usize,
}

/// The name of a table as it is written.
#[derive(Clone, Copy)]
pub(crate) struct TableName {
    pub(crate) owner: Option<Name>,
    pub(crate) name: Name,
    /// The number of the token after it.
    pub(crate) end: usize,
}

/// The name of a table that begins at the token of a number.
pub(crate) fn table_name_at(tokens: &[Token], index: usize) -> Option<TableName> {
    let first = name_at(tokens, index)?;
    if !is_symbol(tokens, index_after(index), Symbol::Dot) {
        return Some(TableName {
            owner: None,
            name: first,
            end: index_after(index),
        });
    }
    let name = name_at(tokens, index.saturating_add(2))?;
    Some(TableName {
        owner: Some(first),
        name,
        end: index.saturating_add(3),
    })
}

/// Adds the tables and views that a schema text declares.
pub(crate) fn add_tables(
    tables: &mut Vec<Table>,
    text: usize,
    tokens: &[Token],
) -> Result<(), AllocError> {
    let mut user = None;
    for index in 0..tokens.len() {
        note_user(&mut user, tokens, index);
        add_table(tables, text, tokens, index, user)?;
    }
    Ok(())
}

/// Adds the table or view whose declaration begins at the token of a number, if one does.
fn add_table(
    tables: &mut Vec<Table>,
    text: usize,
    tokens: &[Token],
    index: usize,
    user: Option<Name>,
) -> Result<(), AllocError> {
    if let Some(table) = table_at(tokens, index, user, text) {
        tables.push(table)?;
    }
    Ok(())
}

/// Puts the user whose schema begins at the token of a number in place of the one before, if one begins there.
fn note_user(user: &mut Option<Name>, tokens: &[Token], index: usize) {
    if let Some(name) = user_at(tokens, index) {
        *user = Some(name);
    }
}

/// The user whose schema or module begins at the token of a number.
fn user_at(tokens: &[Token], index: usize) -> Option<Name> {
    if is_word(tokens, index, Word::Authorization) {
        name_at(tokens, index_after(index))
    } else {
        None
    }
}

/// The user of the last schema or module that begins before the token of a number.
pub(crate) fn user_before(tokens: &[Token], index: usize) -> Option<Name> {
    (0..index.min(tokens.len()))
        .rev()
        .find_map(|at| user_at(tokens, at))
}

/// The table or view whose declaration begins at the token of a number.
fn table_at(tokens: &[Token], index: usize, user: Option<Name>, text: usize) -> Option<Table> {
    let is_new = is_word(tokens, index_after(index), Word::Table)
        || is_word(tokens, index_after(index), Word::View);
    if !is_new || !is_word(tokens, index, Word::Create) {
        return None;
    }
    let written = table_name_at(tokens, index.saturating_add(2))?;
    Some(Table {
        owner: written.owner.or(user)?,
        name: written.name,
        text,
        first: index,
    })
}

/// The name of the column of a table that is declared at the token of a number.
pub(crate) fn column_at(tokens: &[Token], index: usize) -> Option<Name> {
    if is_type(tokens, index_after(index)) {
        name_at(tokens, index)
    } else {
        None
    }
}

/// The number of the token at which a table declares a column.
pub(crate) fn column_named(table: &[Token], name: Name) -> Option<usize> {
    (0..table.len()).find(|index| is_name(table, *index, name)
        && is_type(table, index_after(*index)))
}

/// Whether a table or a view may have a column of this name: a view if its text has the name, or selects all
/// columns.
pub(crate) fn may_have(table: &[Token], name: Name) -> bool {
    if is_word(table, 1, Word::Table) {
        return column_named(table, name).is_some();
    }
    (0..table.len()).any(|index| is_name(table, index, name)
        || is_symbol(table, index, Symbol::Star))
}

/// Gives the tokens from one on that belong to a column's definition: up to the comma or the bracket after
/// it.
pub(crate) fn definition_at(table: &[Token], index: usize) -> &[Token] {
    let rest = &table[index.min(table.len())..];
    let mut open: usize = 0;
    for (length, token) in rest.iter().enumerate() {
        if open == 0 && ends_definition(token) {
            return &rest[..length.min(rest.len())];
        }
        open = depth_behind(open, token);
    }
    rest
}

fn ends_definition(token: &Token) -> bool {
    matches!(token.lexeme, Lexeme::Symbol(Symbol::Comma | Symbol::Close))
}

fn depth_behind(open: usize, token: &Token) -> usize {
    match token.lexeme {
        Lexeme::Symbol(Symbol::Open) => open.saturating_add(1),
        Lexeme::Symbol(Symbol::Close) => open.saturating_sub(1),
        _ => open,
    }
}

/// Whether a column's definition says NOT NULL.
pub(crate) fn is_not_null(definition: &[Token]) -> bool {
    (0..definition.len()).any(|index| is_word(definition, index, Word::Not)
        && is_word(definition, index_after(index), Word::Null)
        && !is_word(definition, index_before(index), Word::Is))
}

/// Finds the bracket that opens the list of names that holds the token of a number.
pub(crate) fn list_of(tokens: &[Token], index: usize) -> Option<usize> {
    let count = tokens
        .iter()
        .take(index)
        .rev()
        .take_while(|token| is_of_list(token))
        .count();
    let open = index_before(index.saturating_sub(count));
    if is_symbol(tokens, open, Symbol::Open) {
        Some(open)
    } else {
        None
    }
}

fn is_of_list(token: &Token) -> bool {
    matches!(
        token.lexeme,
        Lexeme::Name(_) | Lexeme::Symbol(Symbol::Comma)
    )
}
