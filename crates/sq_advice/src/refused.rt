//! The name that a refusal of a schema's element is about.

use crate::names::{index_after, index_before, is_name, is_symbol, is_type, is_word, name_at};
use crate::need::need_at;
use crate::schemas::Schemas;
use crate::table::{
    Table, column_at, column_named, definition_at, is_not_null, list_of, may_have, table_name_at,
};
use crate::typed::{has_bad_default, has_bad_type};
use sq_lex::{Name, Symbol, Token, Word};
use sq_meaning::SchemaFault;

/// An element of a schema, and its user.
#[derive(Clone, Copy)]
pub(crate) struct Element<'t> {
    pub(crate) tokens: &'t [Token],
    pub(crate) text: &'t [u8],
    pub(crate) user: Name,
    /// Its schema text, by its number, and the number of its first token there.
    pub(crate) place: (usize, usize),
}

/// Finds the token of an element that a refusal is about, if one is found.
pub(crate) fn token_of_refusal(
    schemas: &Schemas<'_>,
    element: &Element<'_>,
    fault: SchemaFault,
) -> Option<usize> {
    let tokens = element.tokens;
    match fault {
        SchemaFault::NameTwice => repeated_name(schemas, element),
        SchemaFault::UnknownName => {
            (0..tokens.len()).find(|index| is_unknown(schemas, element, *index))
        }
        SchemaFault::BadType => (0..tokens.len()).find(|index| column_at(tokens, *index).is_some()
            && has_bad_type(element.text, definition_at(tokens, *index))),
        SchemaFault::NullableKey => (0..tokens.len()).find(|index| is_nullable(tokens, *index)),
        SchemaFault::BadKey => bad_key(tokens),
        SchemaFault::BadReference => bad_reference(schemas, element),
        SchemaFault::BadCheck => (0..tokens.len()).find(|index| is_bad_in_check(tokens, *index)),
        SchemaFault::BadDefault => (0..tokens.len()).find(|index| column_at(
            tokens, *index,
        ).is_some()
            && has_bad_default(element.text, definition_at(tokens, *index))),
        SchemaFault::BadView => bad_in_view(schemas, element),
        SchemaFault::BadCheckOption => Some(2),
        SchemaFault::TooManyColumns => nth_column(tokens, 64),
        SchemaFault::OtherSchema => other_schema(tokens),
        SchemaFault::PrivilegeMissing | SchemaFault::TooManyTables => Some(2),
    }
}

/// Finds the name of a user's second schema, of a table that exists, or of a column that occurs twice.
fn repeated_name(schemas: &Schemas<'_>, element: &Element<'_>) -> Option<usize> {
    let tokens = element.tokens;
    if is_word(tokens, 1, Word::Schema) {
        return Some(3);
    }
    match find_earlier(schemas, element) {
        Some(_) => Some(2),
        None => (0..tokens.len()).find(|index| is_column_twice(tokens, *index)),
    }
}

/// An earlier table or view with the name of an element's table or view.
pub(crate) fn find_earlier<'s>(
    schemas: &'s Schemas<'_>,
    element: &Element<'_>,
) -> Option<&'s Table> {
    let written = table_name_at(element.tokens, 2)?;
    let table = schemas.table(written.owner.unwrap_or(element.user), written.name)?;
    if (table.text, table.first) == element.place {
        None
    } else {
        Some(table)
    }
}

/// Whether a column at the token of a number has occurred before, in a table, or in a view's list or select
/// list.
fn is_column_twice(tokens: &[Token], index: usize) -> bool {
    match name_at(tokens, index) {
        Some(name) => {
            is_new_column(tokens, index)
                && (3..index).any(|at| is_name(tokens, at, name) && is_new_column(tokens, at))
        }
        None => false,
    }
}

/// Whether a column is declared at the token of a number, in a table, or in a view's list or select list.
fn is_new_column(tokens: &[Token], index: usize) -> bool {
    if is_word(tokens, 1, Word::Table) {
        return column_at(tokens, index).is_some();
    }
    let ends = is_symbol(tokens, index_after(index), Symbol::Comma)
        || is_symbol(tokens, index_after(index), Symbol::Close)
        || is_word(tokens, index_after(index), Word::From);
    index > 2 && ends
}

/// Whether a key, a reference or a grant names an unknown table or column at the token of a number.
fn is_unknown(schemas: &Schemas<'_>, element: &Element<'_>, index: usize) -> bool {
    let tokens = element.tokens;
    if is_table_named(tokens, index) {
        return is_missing(schemas, written_table(schemas, element, index));
    }
    match (name_at(tokens, index), list_of(tokens, index)) {
        (Some(name), Some(open)) => !is_listed_column(schemas, element, open, name),
        _ => false,
    }
}

/// Whether there is no table, or it is passed over.
fn is_missing(schemas: &Schemas<'_>, table: Option<&Table>) -> bool {
    match table {
        Some(table) => schemas.is_passed(table),
        None => true,
    }
}

/// Whether a reference or a grant names a table at the token of a number.
pub(crate) fn is_table_named(tokens: &[Token], index: usize) -> bool {
    let last = index_before(index);
    name_at(tokens, index).is_some()
        && (is_word(tokens, last, Word::References)
            || is_word(tokens, last, Word::On)
            || is_word(tokens, last, Word::Table) && is_word(tokens, index_before(last), Word::On))
}

/// The table whose name begins at the token of a number of an element.
fn written_table<'s>(
    schemas: &'s Schemas<'_>,
    element: &Element<'_>,
    index: usize,
) -> Option<&'s Table> {
    let written = table_name_at(element.tokens, index)?;
    schemas.table(written.owner.unwrap_or(element.user), written.name)
}

/// Whether a list that a bracket opens is none of columns, or its table may have a column of this name.
fn is_listed_column(schemas: &Schemas<'_>, element: &Element<'_>, open: usize, name: Name) -> bool {
    let tokens = element.tokens;
    let last = index_before(open);
    if is_word(tokens, last, Word::Key) || is_word(tokens, last, Word::Unique) {
        return column_named(tokens, name).is_some();
    }
    match table_of_list(schemas, element, open) {
        Some(table) => may_have(schemas.declaration(table), name),
        None => true,
    }
}

/// Finds the table whose columns a list has: the one after REFERENCES, or a grant's.
fn table_of_list<'s>(
    schemas: &'s Schemas<'_>,
    element: &Element<'_>,
    open: usize,
) -> Option<&'s Table> {
    let tokens = element.tokens;
    if is_word(tokens, 0, Word::Grant) {
        let at = (0..tokens.len()).find(|index| is_table_named(tokens, *index))?;
        return written_table(schemas, element, at);
    }
    let from = open.saturating_sub(3);
    let at = (from..open).find(|index| is_table_named(tokens, *index))?;
    written_table(schemas, element, at)
}

/// Whether a column of a key is at the token of a number, and is not declared NOT NULL.
fn is_nullable(tokens: &[Token], index: usize) -> bool {
    if column_at(tokens, index).is_some() {
        let definition = definition_at(tokens, index);
        return is_key(definition) && !is_not_null(definition);
    }
    match (name_at(tokens, index), list_of(tokens, index)) {
        (Some(name), Some(open)) => is_of_key(tokens, open) && !is_filled(tokens, name),
        _ => false,
    }
}

fn is_key(definition: &[Token]) -> bool {
    (0..definition.len()).any(|index| is_word(definition, index, Word::Unique)
        || is_word(definition, index, Word::Primary))
}

/// Whether a bracket opens the list of a key.
fn is_of_key(tokens: &[Token], open: usize) -> bool {
    let last = index_before(open);
    is_word(tokens, last, Word::Unique)
        || is_word(tokens, last, Word::Key) && is_word(tokens, index_before(last), Word::Primary)
}

/// Whether a column is declared NOT NULL.
fn is_filled(tokens: &[Token], name: Name) -> bool {
    match column_named(tokens, name) {
        Some(index) => is_not_null(definition_at(tokens, index)),
        None => true,
    }
}

/// A second PRIMARY KEY, a column twice in a list, or the seventh of one.
fn bad_key(tokens: &[Token]) -> Option<usize> {
    let primary = (0..tokens.len())
        .filter(|index| is_word(tokens, *index, Word::Primary))
        .nth(1);
    primary.or((0..tokens.len()).find(|index| is_bad_in_list(tokens, *index)))
}

fn is_bad_in_list(tokens: &[Token], index: usize) -> bool {
    match (name_at(tokens, index), list_of(tokens, index)) {
        (Some(name), Some(open)) => {
            is_of_columns(tokens, open)
                && ((open..index).any(|at| is_name(tokens, at, name))
                    || index.saturating_sub(open) > 12)
        }
        _ => false,
    }
}

/// Whether a bracket opens the list of a key or a reference.
fn is_of_columns(tokens: &[Token], open: usize) -> bool {
    let last = index_before(open);
    is_word(tokens, last, Word::Unique)
        || is_word(tokens, last, Word::Key)
        || (open.saturating_sub(3)..open).any(|index| is_table_named(tokens, index))
}

/// Finds the name of the table of a reference that fits no key of it; of the first reference if all seem to
/// fit.
fn bad_reference(schemas: &Schemas<'_>, element: &Element<'_>) -> Option<usize> {
    let tokens = element.tokens;
    let bad = (0..tokens.len()).find(|index| is_table_named(tokens, *index)
        && !fits_key(schemas, element, *index));
    bad.or((0..tokens.len()).find(|index| is_table_named(tokens, *index)))
}

/// Whether the reference to the table that is named at a token has the columns of a key of that table.
fn fits_key(schemas: &Schemas<'_>, element: &Element<'_>, index: usize) -> bool {
    match (
        written_table(schemas, element, index),
        table_name_at(element.tokens, index),
    ) {
        (Some(table), Some(written)) => {
            let columns = names_from(element.tokens, written.end);
            has_key(schemas.declaration(table), columns)
        }
        _ => true,
    }
}

/// Gives the tokens in the brackets that open at the token of a number; none if no bracket opens there.
fn names_from(tokens: &[Token], open: usize) -> &[Token] {
    if is_symbol(tokens, open, Symbol::Open) {
        let rest = &tokens[index_after(open).min(tokens.len())..];
        let count = (0..rest.len()).find(|index| is_symbol(rest, *index, Symbol::Close));
        &rest[..count.unwrap_or(rest.len()).min(rest.len())]
    } else {
        &[]
    }
}

/// Whether a table has a key of these columns; a primary one if there are none.
fn has_key(table: &[Token], columns: &[Token]) -> bool {
    (0..table.len()).any(|index| is_key_of(table, index, columns))
}

/// Whether a key of these columns begins at the token of a number.
fn is_key_of(table: &[Token], index: usize, columns: &[Token]) -> bool {
    let is_primary = is_word(table, index, Word::Primary);
    if !is_primary && !is_word(table, index, Word::Unique) {
        return false;
    }
    if columns.is_empty() {
        return is_primary;
    }
    let open = if is_primary {
        index.saturating_add(2)
    } else {
        index_after(index)
    };
    if is_symbol(table, open, Symbol::Open) {
        return are_same(names_from(table, open), columns);
    }
    columns.len() == 1 && is_of_column(table, index, columns)
}

fn are_same(key: &[Token], columns: &[Token]) -> bool {
    key.len() == columns.len()
        && (0..columns.len()).all(|index| match name_at(columns, index) {
            Some(name) => (0..key.len()).any(|at| is_name(key, at, name)),
            None => true,
        })
}

/// Whether the last column that is declared before the token of a number is the first of these.
fn is_of_column(table: &[Token], index: usize, columns: &[Token]) -> bool {
    let declared = (0..index).rev().find(|at| name_at(table, *at).is_some()
        && is_type(table, index_after(*at)));
    match (declared, name_at(columns, 0)) {
        (Some(at), Some(name)) => is_name(table, at, name),
        _ => false,
    }
}

/// Whether a CHECK may not have the token of a number: a name that is no column of the table, a subquery, a
/// set function or USER.
fn is_bad_in_check(tokens: &[Token], index: usize) -> bool {
    let is_wrong = match name_at(tokens, index) {
        Some(name) => {
            column_named(tokens, name).is_none()
                && !is_symbol(tokens, index_after(index), Symbol::Dot)
        }
        None => is_no_check(tokens, index),
    };
    is_wrong && is_in_check(tokens, index)
}

fn is_no_check(tokens: &[Token], index: usize) -> bool {
    is_word(tokens, index, Word::Select)
        || is_word(tokens, index, Word::User)
        || is_word(tokens, index, Word::Count)
        || is_word(tokens, index, Word::Sum)
        || is_word(tokens, index, Word::Avg)
        || is_word(tokens, index, Word::Min)
        || is_word(tokens, index, Word::Max)
}

/// Whether the token of a number is in the brackets of a CHECK.
fn is_in_check(tokens: &[Token], index: usize) -> bool {
    (0..index).rev().any(|check| is_word(tokens, check, Word::Check)
        && is_inside(tokens, index_after(check), index))
}

/// Whether a bracket is open from one token to another.
fn is_inside(tokens: &[Token], from: usize, to: usize) -> bool {
    let mut open: usize = 0;
    for index in from..to.min(tokens.len()) {
        if is_symbol(tokens, index, Symbol::Open) {
            open = open.saturating_add(1);
        } else if is_symbol(tokens, index, Symbol::Close) {
            open = open.saturating_sub(1);
        }
        if open == 0 {
            return false;
        }
    }
    open > 0
}

/// A table in the FROM of a view that is not there.
fn bad_in_view(schemas: &Schemas<'_>, element: &Element<'_>) -> Option<usize> {
    let tokens = element.tokens;
    (0..tokens.len()).find(|index| is_unknown_source(schemas, element, *index))
}

/// Whether an item of a FROM clause begins at the token of a number whose table is not there.
fn is_unknown_source(schemas: &Schemas<'_>, element: &Element<'_>, index: usize) -> bool {
    match need_at(element.tokens, index, element.user) {
        Some(need) => is_missing(schemas, schemas.table(need.owner, need.table)),
        None => false,
    }
}

/// Finds the token with which the column after so many others begins.
fn nth_column(tokens: &[Token], count: usize) -> Option<usize> {
    (0..tokens.len())
        .filter(|index| column_at(tokens, *index).is_some())
        .nth(count)
}

/// Another user's name before a table's, or a column twice in a grant.
fn other_schema(tokens: &[Token]) -> Option<usize> {
    if is_word(tokens, 0, Word::Grant) {
        (0..tokens.len()).find(|index| is_bad_in_list(tokens, *index)
            || is_twice_granted(tokens, *index))
    } else {
        Some(2)
    }
}

fn is_twice_granted(tokens: &[Token], index: usize) -> bool {
    match (name_at(tokens, index), list_of(tokens, index)) {
        (Some(name), Some(open)) => (open..index).any(|at| is_name(tokens, at, name)),
        _ => false,
    }
}
