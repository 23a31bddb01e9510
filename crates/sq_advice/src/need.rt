//! Which privileges a statement or an element of a schema needs.

use crate::names::{index_after, index_before, is_name, is_symbol, is_word, name_at};
use crate::table::{TableName, table_name_at};
use sq_lex::{Lexeme, Name, Symbol, Token, Word};

/// A privilege on a table, or on one of its columns, that is needed.
#[derive(Clone, Copy)]
pub(crate) struct Need {
    pub(crate) action: Word,
    pub(crate) owner: Name,
    pub(crate) table: Name,
    pub(crate) column: Option<Name>,
    /// The number of the token with which the table's name begins.
    pub(crate) at: usize,
}

/// The use for which a privilege is needed.
#[derive(Clone, Copy)]
pub(crate) enum Use {
    /// To do to a table what a statement does.
    Table,
    /// To set a column.
    Column,
    /// To read a table that is changed.
    Reading,
}

/// The privilege that is needed at the token of a number for a use.
pub(crate) fn need_for(tokens: &[Token], index: usize, user: Name, how: Use) -> Option<Need> {
    match how {
        Use::Table => need_at(tokens, index, user),
        Use::Column => need_of_set(tokens, index, user),
        Use::Reading => need_to_read(tokens, index, user),
    }
}

/// Finds the privilege that is needed for the table whose name begins at the token of a number. The table is
/// this user's if no other user is written.
pub(crate) fn need_at(tokens: &[Token], index: usize, user: Name) -> Option<Need> {
    let action = action_at(tokens, index)?;
    let written = table_name_at(tokens, index)?;
    Some(need_of(action, &written, index, user, None))
}

fn need_of(action: Word, written: &TableName, at: usize, user: Name, column: Option<Name>) -> Need {
    Need {
        action,
        owner: written.owner.unwrap_or(user),
        table: written.name,
        column,
        at,
    }
}

/// Finds what a statement does to the table whose name begins at the token of a number.
fn action_at(tokens: &[Token], index: usize) -> Option<Word> {
    let last = index_before(index);
    if is_word(tokens, last, Word::Into) && is_word(tokens, index_before(last), Word::Insert) {
        Some(Word::Insert)
    } else if is_word(tokens, last, Word::Update) {
        Some(Word::Update)
    } else if is_word(tokens, last, Word::From)
        && is_word(tokens, index_before(last), Word::Delete)
    {
        Some(Word::Delete)
    } else if is_word(tokens, last, Word::References) {
        Some(Word::References)
    } else if is_source(tokens, index) {
        Some(Word::Select)
    } else {
        None
    }
}

/// Whether an item of a FROM clause begins at the token of a number.
fn is_source(tokens: &[Token], index: usize) -> bool {
    let count = tokens
        .iter()
        .take(index)
        .rev()
        .take_while(|token| is_of_sources(token))
        .count();
    let is_first = count == 0 || is_symbol(tokens, index_before(index), Symbol::Comma);
    is_first
        && is_word(
            tokens,
            index_before(index.saturating_sub(count)),
            Word::From,
        )
        && !is_word(tokens, index_after(index), Word::Into)
}

/// Whether a token may be among the tables of a FROM clause.
fn is_of_sources(token: &Token) -> bool {
    matches!(
        token.lexeme,
        Lexeme::Name(_) | Lexeme::Symbol(Symbol::Comma | Symbol::Dot) | Lexeme::Word(Word::As)
    )
}

/// The privilege that is needed for the column that an UPDATE sets at the token of a number.
fn need_of_set(tokens: &[Token], index: usize, user: Name) -> Option<Need> {
    let column = name_at(tokens, index)?;
    let is_first = is_word(tokens, index_before(index), Word::Set)
        || is_symbol(tokens, index_before(index), Symbol::Comma);
    if !is_first || !is_symbol(tokens, index_after(index), Symbol::Equal) {
        return None;
    }
    let update = (0..index)
        .rev()
        .find(|at| is_word(tokens, *at, Word::Update))?;
    let written = table_name_at(tokens, index_after(update))?;
    Some(need_of(
        Word::Update,
        &written,
        index_after(update),
        user,
        Some(column),
    ))
}

/// Finds the privilege that is needed if an UPDATE or a DELETE reads the table whose name begins at the token
/// of a number.
fn need_to_read(tokens: &[Token], index: usize, user: Name) -> Option<Need> {
    match action_at(tokens, index)? {
        Word::Update | Word::Delete => {
            let written = table_name_at(tokens, index)?;
            Some(need_of(Word::Select, &written, index, user, None))
        }
        _ => None,
    }
}

/// A grant by its tokens: the privileges on a table, and who gets them.
#[derive(Clone, Copy)]
pub(crate) struct Grant<'t> {
    pub(crate) tokens: &'t [Token],
    /// The number of the token ON.
    on: usize,
    /// The number of the token TO.
    to: usize,
}

impl<'t> Grant<'t> {
    /// The grant of these tokens, if they are one.
    pub(crate) fn new(tokens: &'t [Token]) -> Option<Grant<'t>> {
        if !is_word(tokens, 0, Word::Grant) {
            return None;
        }
        let on = (0..tokens.len()).find(|index| is_word(tokens, *index, Word::On))?;
        let to = (0..tokens.len()).find(|index| is_word(tokens, *index, Word::To))?;
        Some(Grant { tokens, on, to })
    }

    /// The number of the token with which the table's name begins.
    pub(crate) fn table(&self) -> usize {
        if is_word(self.tokens, index_after(self.on), Word::Table) {
            self.on.saturating_add(2)
        } else {
            index_after(self.on)
        }
    }

    /// Whether this grant of a user gives a privilege to another one.
    pub(crate) fn gives(&self, grantor: Name, need: &Need, user: Name) -> bool {
        match table_name_at(self.tokens, self.table()) {
            Some(written) => {
                written.name == need.table
                    && written.owner.unwrap_or(grantor) == need.owner
                    && self.is_to(user)
                    && self.has(need)
            }
            None => false,
        }
    }

    fn is_to(&self, user: Name) -> bool {
        (self.to..self.tokens.len()).any(|index| is_name(self.tokens, index, user)
            || is_word(self.tokens, index, Word::Public))
    }

    fn has(&self, need: &Need) -> bool {
        (0..self.on).any(|index| is_word(self.tokens, index, Word::All)
            || is_word(self.tokens, index, need.action) && self.has_column(index, need.column))
    }

    /// Whether the privilege at the token of a number is one on a column, or on all.
    fn has_column(&self, index: usize, column: Option<Name>) -> bool {
        if !is_symbol(self.tokens, index_after(index), Symbol::Open) {
            return true;
        }
        match column {
            Some(column) => self.lists(index_after(index), column),
            None => true,
        }
    }

    /// Whether a name is in the list that a bracket opens.
    fn lists(&self, open: usize, name: Name) -> bool {
        let rest = self.tokens.iter().skip(index_after(open));
        rest.take_while(|token| !is_close(token))
            .any(|token| is_this(token, name))
    }
}

fn is_close(token: &Token) -> bool {
    matches!(token.lexeme, Lexeme::Symbol(Symbol::Close))
}

fn is_this(token: &Token, name: Name) -> bool {
    match &token.lexeme {
        Lexeme::Name(other) => *other == name,
        _ => false,
    }
}
