//! The advice beside a refusal of a schema for its meaning: which name it is about.

ghost use Rattle.std.specs.Prelude.{◌≡◌, IfSome};
ghost use Rattle.sq_advice.specs.Named as spec;

use crate::advice::Advice;
use crate::element::{element_of, start_of, token_at};
use crate::kind::TextKind;
use crate::names::{index_before, is_word, name_at};
use crate::need::{Grant, Need};
use crate::privilege::{add_need, find_lacking};
use crate::refused::{Element, find_earlier, is_table_named, token_of_refusal};
use crate::schemas::Schemas;
use crate::source::Source;
use crate::spelled::spelling_of;
use crate::table::{table_name_at, user_before};
use sq_lex::{Name, Token, Word};
use sq_meaning::SchemaFault;
use std::alloc::{AllocError, Global};

/// Makes the advice on a refused element, which begins at a line and column of the schema text of a number.
pub fn advice_on_schema(
    alloc: Global,
    schemas: &Schemas<'_>,
    text: usize,
    line: usize,
    column: usize,
    fault: SchemaFault,
) -> Result<Option<Advice>, AllocError> {
    let Some(source) = schemas.texts.get(text) else {
        return Ok(None);
    };
    let tokens = source.tokens.as_slice();
    let first = token_at(tokens, source.text.byte_at(line, column)).unwrap_or(tokens.len());
    let Some(user) = user_of(tokens, first) else {
        return Ok(None);
    };
    let element = Element {
        tokens: element_of(TextKind::Schema, tokens, first),
        text: source.text.bytes,
        user,
        place: (text, first),
    };
    advice_on(alloc, schemas, source, &element, fault)
}

/// Finds the user of the schema that begins at a token, or that holds it.
fn user_of(tokens: &[Token], first: usize) -> Option<Name> {
    user_before(tokens, first).or(name_at(tokens, first.saturating_add(3)))
}

fn advice_on(
    alloc: Global,
    schemas: &Schemas<'_>,
    source: &Source<'_>,
    element: &Element<'_>,
    fault: SchemaFault,
) -> Result<Option<Advice>, AllocError> {
    if fault == SchemaFault::PrivilegeMissing {
        return missing_privilege(alloc, schemas, source, element);
    }
    let Some(index) = token_of_refusal(schemas, element, fault) else {
        return Ok(None);
    };
    let found = words_on(alloc, schemas, source, element, fault, index)?;
    Ok(at_name(alloc, source, element.tokens, index, found))
}

/// An advice at the token of a number, with the user that is written before a table.
fn at_name(
    alloc: Global,
    source: &Source<'_>,
    tokens: &[Token],
    index: usize,
    found: Vec<u8>,
) -> Option<Advice>
    ensures { IfSome result (λ advice. advice.start ≡ spec.start_of tokens.now index) }
{
    match tokens.get(index) {
        Some(_) => Some(Advice {
            start: start_of(tokens, index),
            length: length_of_written(source.text.bytes, tokens, index),
            found,
            expected: Vec::new(alloc),
            hint: Vec::new(alloc),
        }),
        None => {
            drop(found);
            None
        }
    }
}

/// How many bytes the name has that begins at the token of a number: of a table, with its user; else the token.
pub(crate) fn length_of_written(text: &[u8], tokens: &[Token], index: usize) -> usize {
    let last = match table_name_at(tokens, index) {
        Some(written) => index_before(written.end),
        None => index,
    };
    match (tokens.get(index), tokens.get(last)) {
        (Some(first), Some(last)) => {
            let end = last.start.saturating_add(spelling_of(text, last).len());
            end.saturating_sub(first.start)
        }
        _ => 1,
    }
}

/// Says what is wrong with the name at the token of a number.
fn words_on(
    alloc: Global,
    schemas: &Schemas<'_>,
    source: &Source<'_>,
    element: &Element<'_>,
    fault: SchemaFault,
    index: usize,
) -> Result<Vec<u8>, AllocError> {
    let mut words = Vec::new(alloc);
    if fault == SchemaFault::NameTwice && index == 2 {
        if let Some(table) = find_earlier(schemas, element) {
            schemas.add_declared(&mut words, alloc, table, source.file)?;
        }
        return Ok(words);
    }
    let is_table = is_table_named(element.tokens, index) || fault == SchemaFault::BadView;
    if is_table && add_passed(&mut words, alloc, schemas, source, element, index)? {
        return Ok(words);
    }
    add_written(&mut words, source, element.tokens, index)?;
    words.extend_from_slice(says_of(fault, is_table, element.tokens, index))?;
    Ok(words)
}

/// Adds that a table is declared with an error, if it is, and says whether it is.
fn add_passed(
    words: &mut Vec<u8>,
    alloc: Global,
    schemas: &Schemas<'_>,
    source: &Source<'_>,
    element: &Element<'_>,
    index: usize,
) -> Result<bool, AllocError> {
    let Some(written) = table_name_at(element.tokens, index) else {
        return Ok(false);
    };
    match schemas.table(written.owner.unwrap_or(element.user), written.name) {
        Some(table) if schemas.is_passed(table) => {
            schemas.add_declared(words, alloc, table, source.file)?;
            Ok(true)
        }
        _ => Ok(false),
    }
}

/// Adds a name as it is written, a table's with its user.
pub(crate) fn add_written(
    words: &mut Vec<u8>,
    source: &Source<'_>,
    tokens: &[Token],
    index: usize,
) -> Result<(), AllocError> {
    if let Some(written) = table_name_at(tokens, index) {
        if let Some(owner) = written.owner {
            words.extend_from_slice(owner.codes())?;
            words.push(b'.')?;
        }
        return words.extend_from_slice(written.name.codes());
    }
    match tokens.get(index) {
        Some(token) => words.extend_from_slice(spelling_of(source.text.bytes, token)),
        None => Ok(()),
    }
}

/// Says what a refusal finds wrong with the name that it is about.
fn says_of(fault: SchemaFault, is_table: bool, tokens: &[Token], index: usize) -> &'static [u8] {
    match fault {
        SchemaFault::NameTwice if is_word(tokens, 1, Word::Schema) => b" has a schema already",
        SchemaFault::NameTwice => b" stands twice",
        SchemaFault::UnknownName | SchemaFault::BadView if is_table => b" is no table",
        SchemaFault::UnknownName => b" is no column there",
        SchemaFault::BadType => b" has a type whose length, precision or scale is out of range",
        SchemaFault::NullableKey => b" is not declared NOT NULL",
        SchemaFault::BadKey if is_word(tokens, index, Word::Primary) => b" KEY stands twice",
        SchemaFault::BadKey => b" is one too many for the key",
        SchemaFault::BadReference => b" has no key of these columns, or they are of other kinds",
        SchemaFault::BadCheck => b" cannot stand in a CHECK here",
        SchemaFault::BadDefault => b" cannot have this default",
        SchemaFault::BadView => b" is wrong",
        SchemaFault::BadCheckOption => b" is not updatable",
        SchemaFault::PrivilegeMissing => b" is not granted",
        SchemaFault::TooManyColumns => b" is the 65th column",
        SchemaFault::OtherSchema if is_word(tokens, 0, Word::Grant) => b" stands twice",
        SchemaFault::OtherSchema => b" is not the schema's own",
        SchemaFault::TooManyTables => b" is the 1001st table",
    }
}

/// Makes the advice on the privilege that an element's user lacks.
fn missing_privilege(
    alloc: Global,
    schemas: &Schemas<'_>,
    source: &Source<'_>,
    element: &Element<'_>,
) -> Result<Option<Advice>, AllocError> {
    let mut words = Vec::new(alloc);
    if let Some(grant) = Grant::new(element.tokens) {
        words.extend_from_slice(element.user.codes())?;
        words.extend_from_slice(b" may not grant all of this on ")?;
        add_written(&mut words, source, element.tokens, grant.table())?;
        return Ok(at_name(alloc, source, element.tokens, grant.table(), words));
    }
    match find_lacking(schemas, element.tokens, element.user) {
        Some(need) => {
            add_lacking(&mut words, element.user, &need)?;
            Ok(at_name(alloc, source, element.tokens, need.at, words))
        }
        None => {
            drop(words);
            Ok(None)
        }
    }
}

/// Adds who lacks which privilege.
pub(crate) fn add_lacking(words: &mut Vec<u8>, user: Name, need: &Need) -> Result<(), AllocError> {
    words.extend_from_slice(user.codes())?;
    words.extend_from_slice(b" lacks ")?;
    add_need(words, need)
}
