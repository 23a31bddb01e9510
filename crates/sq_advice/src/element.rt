//! The elements of a text: the elements of a schema, the cursors and procedures of a module, and the items of
//! a script.

ghost use Rattle.std.specs.Prelude.{◌≡◌, ◌≤◌, length};
ghost use Rattle.sq_advice.specs.Named as spec;

use crate::kind::TextKind;
use crate::names::{index_after, index_before, is_symbol, is_word};
use sq_lex::{Symbol, Token, Word};

/// Whether an element of a text begins at the token of this number.
pub(crate) fn begins_at(kind: TextKind, tokens: &[Token], index: usize) -> bool {
    match kind {
        TextKind::Schema => is_word(tokens, index, Word::Create) || is_grant(tokens, index),
        TextKind::Module => {
            is_word(tokens, index, Word::Declare) || is_word(tokens, index, Word::Procedure)
        }
        TextKind::Script => false,
    }
}

/// Whether a grant begins at the token of this number; none does at the second word of WITH GRANT OPTION.
fn is_grant(tokens: &[Token], index: usize) -> bool {
    is_word(tokens, index, Word::Grant) && !is_word(tokens, index_after(index), Word::Option)
}

/// Counts the tokens before the next element.
pub(crate) fn next_start(kind: TextKind, tokens: &[Token]) -> usize
    ensures { result ≤ length tokens.now }
{
    let found = match kind {
        TextKind::Script => {
            (0..tokens.len()).find(|index| is_symbol(
                tokens,
                index_before(*index),
                Symbol::Semicolon,
            ))
        }
        _ => (0..tokens.len()).find(|index| begins_at(kind, tokens, *index)),
    };
    match found {
        Some(index) => index.min(tokens.len()),
        None => tokens.len(),
    }
}

/// Finds the number of the token with which the last element begins among these; of the first token if none
/// does.
pub(crate) fn last_start(kind: TextKind, tokens: &[Token]) -> usize {
    let found = match kind {
        TextKind::Script => {
            (0..tokens.len()).rev().find(|index| is_symbol(
                tokens,
                index_before(*index),
                Symbol::Semicolon,
            ))
        }
        _ => {
            (0..tokens.len())
                .rev()
                .find(|index| begins_at(kind, tokens, *index))
        }
    };
    found.unwrap_or(0)
}

/// Counts the brackets of these tokens that are open after them.
fn open_behind(tokens: &[Token]) -> usize {
    let mut open: usize = 0;
    for index in 0..tokens.len() {
        open = depth_behind(open, tokens, index);
    }
    open
}

/// Counts the brackets that are open after the token of this number, if so many are before it.
fn depth_behind(open: usize, tokens: &[Token], index: usize) -> usize {
    if is_symbol(tokens, index, Symbol::Open) {
        open.saturating_add(1)
    } else if is_symbol(tokens, index, Symbol::Close) {
        open.saturating_sub(1)
    } else {
        open
    }
}

/// Counts the brackets of a table's definition that are open after these tokens; 0 if they end in no such
/// definition.
pub(crate) fn open_in_table(tokens: &[Token]) -> usize {
    let start = last_start(TextKind::Schema, tokens);
    if is_word(tokens, index_after(start), Word::Table) {
        open_behind(&tokens[start.min(tokens.len())..])
    } else {
        0
    }
}

/// Finds the next comma between elements of a table, if so many brackets are open before these tokens.
pub(crate) fn next_comma(open: usize, tokens: &[Token]) -> Option<usize> {
    let mut open = open;
    for index in 0..tokens.len() {
        if open == 1 && is_symbol(tokens, index, Symbol::Comma) {
            return Some(index);
        }
        open = depth_behind(open, tokens, index);
        if open == 0 || begins_at(TextKind::Schema, tokens, index) {
            return None;
        }
    }
    None
}

/// The number of the last comma between elements of the table in whose definition these tokens end.
pub(crate) fn last_comma(tokens: &[Token]) -> Option<usize> {
    let mut open = open_in_table(tokens);
    for index in (0..tokens.len()).rev() {
        if open == 1 && is_symbol(tokens, index, Symbol::Comma) {
            return Some(index);
        }
        open = depth_before(open, tokens, index);
        if open == 0 {
            return None;
        }
    }
    None
}

/// Counts the brackets that are open before the token of this number, if so many are after it.
fn depth_before(open: usize, tokens: &[Token], index: usize) -> usize {
    if is_symbol(tokens, index, Symbol::Open) {
        open.saturating_sub(1)
    } else if is_symbol(tokens, index, Symbol::Close) {
        open.saturating_add(1)
    } else {
        open
    }
}

/// The tokens of the element that begins at the token of a number, up to the next element.
pub(crate) fn element_of(kind: TextKind, tokens: &[Token], first: usize) -> &[Token] {
    let rest = &tokens[first.min(tokens.len())..];
    match (1..rest.len()).find(|index| begins_at(kind, rest, *index)) {
        Some(next) => &rest[..next.min(rest.len())],
        None => rest,
    }
}

/// The number of the token that begins at a byte.
pub(crate) fn token_at(tokens: &[Token], byte: usize) -> Option<usize> {
    let index = tokens.partition_point(|token| token.start < byte);
    if tokens.get(index)?.start == byte {
        Some(index)
    } else {
        None
    }
}

/// Finds the first byte of the token of a number, or 0 if there is no such token.
pub(crate) fn start_of(tokens: &[Token], index: usize) -> usize
    ensures { result ≡ spec.start_of tokens.now index }
{
    match tokens.get(index) {
        Some(token) => token.start,
        None => 0,
    }
}
