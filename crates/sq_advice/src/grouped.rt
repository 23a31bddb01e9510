//! The column of a grouped query that is no grouping column.

use crate::names::{index_after, index_before, is_name, is_symbol, is_word, name_at};
use sq_lex::{Lexeme, Name, Symbol, Token, Word};

/// The number of a token that is a column, or `*`, of a grouped query and no grouping column of it.
pub(crate) fn find_ungrouped(part: &[Token]) -> Option<usize> {
    (0..part.len()).find(|index| is_ungrouped(part, *index))
}

/// Whether an ungrouped column is at the token of a number: in the list or the HAVING of a query that groups.
fn is_ungrouped(part: &[Token], index: usize) -> bool {
    match query_of(part, index) {
        Some(query) => {
            is_column(part, index)
                && groups(part, query)
                && is_of_group(part, query, index)
                && !is_grouping(part, query, index)
        }
        None => false,
    }
}

/// Whether a column ends at the token of a number, or it is the `*` of a list.
fn is_column(part: &[Token], index: usize) -> bool {
    let is_star = is_symbol(part, index, Symbol::Star)
        && (is_word(part, index_before(index), Word::Select)
            || is_word(part, index_before(index), Word::All)
            || is_word(part, index_before(index), Word::Distinct));
    let is_name = name_at(part, index).is_some()
        && !is_symbol(part, index_after(index), Symbol::Dot)
        && !is_parameter_name(part, index);
    is_star || is_name
}

/// Whether the name at the token of a number is one of a parameter, or of its indicator.
fn is_parameter_name(part: &[Token], index: usize) -> bool {
    is_symbol(part, index_before(index), Symbol::Colon)
}

/// Counts how many more brackets are closed than opened, from one token to another; nothing if more are
/// opened in between.
fn count_closed(part: &[Token], from: usize, to: usize) -> Option<usize> {
    let mut open: usize = 0;
    for index in from..to.min(part.len()) {
        if is_symbol(part, index, Symbol::Open) {
            open = open.saturating_add(1);
        } else if is_symbol(part, index, Symbol::Close) {
            open = open.checked_sub(1)?;
        }
    }
    Some(open)
}

/// Finds the SELECT of the innermost query that holds the token of a number.
fn query_of(part: &[Token], index: usize) -> Option<usize> {
    (0..index).rev().find(|select| is_word(part, *select, Word::Select)
        && count_closed(part, *select, index).is_some())
}

/// Whether a token of a query, and of none inside it, is this word.
fn word_of(part: &[Token], query: usize, word: Word) -> Option<usize> {
    (index_after(query)..part.len()).find(|index| is_word(part, *index, word)
        && count_closed(part, query, *index) == Some(0)
        && is_same_query(part, query, *index))
}

/// Whether no UNION is between the SELECT of a query and a token.
fn is_same_query(part: &[Token], query: usize, index: usize) -> bool {
    !(query..index).any(|at| is_word(part, at, Word::Union)
        && count_closed(part, query, at) == Some(0))
}

/// Whether a query groups: it has GROUP BY or HAVING, or a set function in its list.
fn groups(part: &[Token], query: usize) -> bool {
    word_of(part, query, Word::Group).is_some()
        || word_of(part, query, Word::Having).is_some()
        || has_set_function(part, query)
}

fn has_set_function(part: &[Token], query: usize) -> bool {
    let end = word_of(part, query, Word::From).unwrap_or(part.len());
    (index_after(query)..end).any(|index| is_set_function(part, index))
}

fn is_set_function(part: &[Token], index: usize) -> bool {
    match part.get(index) {
        Some(token) => matches!(
            token.lexeme,
            Lexeme::Word(Word::Count | Word::Sum | Word::Avg | Word::Min | Word::Max)
        ),
        None => false,
    }
}

/// Whether a token is in the list of a query or after its HAVING, and not in the brackets of a set function.
fn is_of_group(part: &[Token], query: usize, index: usize) -> bool {
    let list = word_of(part, query, Word::Into)
        .or(word_of(part, query, Word::From))
        .unwrap_or(part.len());
    let is_listed = index < list;
    let is_had = match word_of(part, query, Word::Having) {
        Some(having) => having < index && !is_sorted(part, query, index),
        None => false,
    };
    (is_listed || is_had) && !is_summed(part, query, index)
}

/// Whether a token is after the ORDER BY of a query.
fn is_sorted(part: &[Token], query: usize, index: usize) -> bool {
    match word_of(part, query, Word::Order) {
        Some(order) => order < index,
        None => false,
    }
}

/// Whether a token is in the brackets of a set function.
fn is_summed(part: &[Token], query: usize, index: usize) -> bool {
    (query..index).any(|at| is_set_function(part, at)
        && matches!(count_closed(part, index_after(at), index), Some(open) if open > 0))
}

/// Whether the name at the token of a number is one of the grouping columns of a query.
fn is_grouping(part: &[Token], query: usize, index: usize) -> bool {
    match (word_of(part, query, Word::Group), name_at(part, index)) {
        (Some(group), Some(name)) => lists(part, group, name),
        _ => false,
    }
}

/// Whether a name is the last one of a column in a GROUP BY.
fn lists(part: &[Token], group: usize, name: Name) -> bool {
    let count = part
        .iter()
        .skip(group.saturating_add(2))
        .take_while(|token| is_of_columns(token))
        .count();
    let first = group.saturating_add(2);
    (first..first.saturating_add(count)).any(|index| is_name(part, index, name)
        && !is_symbol(part, index_after(index), Symbol::Dot))
}

fn is_of_columns(token: &Token) -> bool {
    matches!(
        token.lexeme,
        Lexeme::Name(_) | Lexeme::Symbol(Symbol::Comma | Symbol::Dot)
    )
}
