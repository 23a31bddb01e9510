//! Targets without an indicator into which a null may come.

use crate::meaning::Module;
use crate::names::{index_after, index_before, is_symbol, is_word, name_at};
use crate::need::need_at;
use crate::schemas::Schemas;
use crate::table::{column_named, definition_at, is_not_null};
use sq_lex::{Lexeme, Name, Symbol, Token, Word};

/// A query, by its tokens, and the user whose tables it names.
#[derive(Clone, Copy)]
struct Query<'m> {
    tokens: &'m [Token],
    user: Name,
}

/// Finds the numbers of the tokens of a procedure between which its targets are, from its INTO on.
pub(crate) fn targets_of(part: &[Token]) -> (usize, usize) {
    let into = (0..part.len()).find(|index| is_word(part, *index, Word::Into)
        && !is_word(part, index_before(*index), Word::Insert));
    let start = into.unwrap_or(part.len());
    let rest = part.iter().skip(index_after(start));
    let count = rest.take_while(|token| is_of_targets(token)).count();
    (start, index_after(start).saturating_add(count))
}

fn is_of_targets(token: &Token) -> bool {
    matches!(
        token.lexeme,
        Lexeme::Name(_)
            | Lexeme::Symbol(Symbol::Comma | Symbol::Colon)
            | Lexeme::Word(Word::Indicator)
    )
}

/// Whether the token of a number is a target without an indicator, after the INTO of a procedure, and may get
/// a null.
pub(crate) fn lacks_indicator(
    module: &Module<'_, '_>,
    part: &[Token],
    into: usize,
    index: usize,
) -> bool {
    if !is_target(part, index) || has_indicator(part, index) {
        return false;
    }
    match query_of(module, part, into) {
        Some(query) => {
            let place = commas_between(part, into, index);
            may_be_null(module.schemas, &query, nth_item(query.tokens, place))
        }
        None => false,
    }
}

/// Whether a target's name is the token of a number: it is after a colon that begins a target.
fn is_target(part: &[Token], index: usize) -> bool {
    let colon = index_before(index);
    let begins = is_word(part, index_before(colon), Word::Into)
        || is_symbol(part, index_before(colon), Symbol::Comma);
    name_at(part, index).is_some() && is_symbol(part, colon, Symbol::Colon) && begins
}

fn has_indicator(part: &[Token], index: usize) -> bool {
    is_word(part, index_after(index), Word::Indicator)
        || is_symbol(part, index_after(index), Symbol::Colon)
}

/// Counts the commas between two tokens.
fn commas_between(part: &[Token], from: usize, to: usize) -> usize {
    (from..to)
        .filter(|index| is_symbol(part, *index, Symbol::Comma))
        .count()
}

/// Finds the query whose row comes into the targets after an INTO: the procedure's, or the cursor's that it
/// fetches from.
fn query_of<'m>(module: &'m Module<'_, '_>, part: &'m [Token], into: usize) -> Option<Query<'m>> {
    let user = module.user?;
    match name_at(part, index_before(into)) {
        Some(cursor) if is_fetch(part, index_before(into)) => Some(Query {
            tokens: from_select(module.declaration_of(cursor)),
            user,
        }),
        _ => Some(Query {
            tokens: from_select(part),
            user,
        }),
    }
}

/// Whether a FETCH names its cursor at the token of a number.
fn is_fetch(part: &[Token], index: usize) -> bool {
    is_word(part, index_before(index), Word::From)
        || is_word(part, index_before(index), Word::Fetch)
}

/// The tokens from the first SELECT on.
fn from_select(tokens: &[Token]) -> &[Token] {
    let start = (0..tokens.len()).find(|index| is_word(tokens, *index, Word::Select));
    &tokens[start.unwrap_or(tokens.len()).min(tokens.len())..]
}

/// Finds the item after so many others in the list of a query that begins with SELECT.
fn nth_item(query: &[Token], place: usize) -> &[Token] {
    let list = &query[list_start(query).min(query.len())..];
    let mut rest = list;
    for _ in 0..place {
        rest = tail_after_item(rest);
    }
    &rest[..item_length(rest).min(rest.len())]
}

/// The number of the token with which a list begins.
fn list_start(query: &[Token]) -> usize {
    if is_word(query, 1, Word::All) || is_word(query, 1, Word::Distinct) {
        2
    } else {
        1
    }
}

/// Gives the tokens after the first item and its comma.
fn tail_after_item(list: &[Token]) -> &[Token] {
    &list[index_after(item_length(list)).min(list.len())..]
}

/// How many tokens the first item of a list has.
fn item_length(list: &[Token]) -> usize {
    let mut open: usize = 0;
    for (index, token) in list.iter().enumerate() {
        if open == 0 && ends_item(token) {
            return index;
        }
        open = open_behind(open, token);
    }
    list.len()
}

fn ends_item(token: &Token) -> bool {
    matches!(
        token.lexeme,
        Lexeme::Symbol(Symbol::Comma) | Lexeme::Word(Word::From | Word::Into)
    )
}

fn open_behind(open: usize, token: &Token) -> usize {
    match token.lexeme {
        Lexeme::Symbol(Symbol::Open) => open.saturating_add(1),
        Lexeme::Symbol(Symbol::Close) => open.saturating_sub(1),
        _ => open,
    }
}

/// Whether an item of a query may be null: a column that is not declared NOT NULL, or a set function without
/// a value if there is no row.
fn may_be_null(schemas: &Schemas<'_>, query: &Query<'_>, item: &[Token]) -> bool {
    if is_of_no_rows(item) && is_symbol(item, index_before(item.len()), Symbol::Close) {
        return !has_groups(query.tokens);
    }
    let is_column = item.len() == 1 || item.len() == 3 && is_symbol(item, 1, Symbol::Dot);
    match name_at(item, index_before(item.len())) {
        Some(column) if is_column => (0..query.tokens.len()).any(|index| is_nullable_in(
            schemas, query, index, column,
        )),
        _ => false,
    }
}

/// Whether a set function that is null if there is no row begins an item.
fn is_of_no_rows(item: &[Token]) -> bool {
    match item.first() {
        Some(token) => matches!(
            token.lexeme,
            Lexeme::Word(Word::Sum | Word::Avg | Word::Min | Word::Max)
        ),
        None => false,
    }
}

fn has_groups(query: &[Token]) -> bool {
    (0..query.len()).any(|index| is_word(query, index, Word::Group))
}

/// Whether a base table of the FROM clause, named at the token of a number, has a column of this name that may be null.
fn is_nullable_in(schemas: &Schemas<'_>, query: &Query<'_>, index: usize, column: Name) -> bool {
    let Some(need) = need_at(query.tokens, index, query.user) else {
        return false;
    };
    match schemas.table(need.owner, need.table) {
        Some(table) => may_hold_null(schemas.declaration(table), column),
        None => false,
    }
}

/// Whether a base table has a column of this name that is not declared NOT NULL.
fn may_hold_null(table: &[Token], column: Name) -> bool {
    match column_named(table, column) {
        Some(index) => !is_not_null(definition_at(table, index)),
        None => false,
    }
}
