//! The privilege that a user lacks for a statement, or for an element of a schema.

use crate::element::{begins_at, element_of};
use crate::kind::TextKind;
use crate::need::{Grant, Need, Use, need_for};
use crate::schemas::Schemas;
use crate::source::Source;
use crate::table::user_before;
use sq_lex::{Name, Token, Word};
use std::alloc::{AllocError, Global};

/// A privilege that is needed and that no grant gives: on a table, on a column that is set, or to read what is changed.
pub(crate) fn find_lacking(schemas: &Schemas<'_>, part: &[Token], user: Name) -> Option<Need> {
    find_lacking_for(schemas, part, user, Use::Table)
        .or(find_lacking_for(schemas, part, user, Use::Column))
        .or(find_lacking_for(schemas, part, user, Use::Reading))
}

fn find_lacking_for(schemas: &Schemas<'_>, part: &[Token], user: Name, how: Use) -> Option<Need> {
    for index in 0..part.len() {
        if let Some(need) = need_for(part, index, user, how) {
            if need.owner != user && !is_granted(schemas, &need, user) {
                return Some(need);
            }
        }
    }
    None
}

/// Whether a grant of the schemas that is not passed over gives a privilege.
fn is_granted(schemas: &Schemas<'_>, need: &Need, user: Name) -> bool {
    schemas
        .texts
        .iter()
        .any(|source| grants(source, need, user))
}

/// Whether a schema text has a grant of a privilege that is not passed over.
fn grants(source: &Source<'_>, need: &Need, user: Name) -> bool {
    (0..source.tokens.len()).any(|index| is_grant(source, index, need, user))
}

/// Whether a grant of a privilege begins at the token of a number, and is not passed over.
fn is_grant(source: &Source<'_>, index: usize, need: &Need, user: Name) -> bool {
    let tokens = source.tokens.as_slice();
    if !begins_at(TextKind::Schema, tokens, index) || is_passed(source, index) {
        return false;
    }
    match (
        Grant::new(element_of(TextKind::Schema, tokens, index)),
        user_before(tokens, index),
    ) {
        (Some(grant), Some(grantor)) => grant.gives(grantor, need, user),
        _ => false,
    }
}

/// Whether the element that begins at the token of a number is passed over.
fn is_passed(source: &Source<'_>, index: usize) -> bool {
    match source.tokens.get(index) {
        Some(token) => source.is_passed(token.start),
        None => false,
    }
}

/// Adds a privilege, its column and its table, with the table's owner.
pub(crate) fn add_need(words: &mut Vec<u8>, need: &Need) -> Result<(), AllocError> {
    words.extend_from_slice(action_text(need.action))?;
    if let Some(column) = need.column {
        words.extend_from_slice(b" (")?;
        words.extend_from_slice(column.codes())?;
        words.extend_from_slice(b")")?;
    }
    words.extend_from_slice(b" on ")?;
    words.extend_from_slice(need.owner.codes())?;
    words.push(b'.')?;
    words.extend_from_slice(need.table.codes())
}

fn action_text(action: Word) -> &'static [u8] {
    match action {
        Word::Insert => b"INSERT",
        Word::Update => b"UPDATE",
        Word::Delete => b"DELETE",
        Word::References => b"REFERENCES",
        _ => b"SELECT",
    }
}
