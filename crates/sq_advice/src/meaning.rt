//! The place of the name that a fault of meaning is about, and the declared name nearest to it.

ghost use Rattle.std.specs.Prelude.{◌≡◌};
ghost use Rattle.sq_advice.specs.Named as spec;

use crate::advice::Advice;
use crate::blame::{add_lacking, add_written, length_of_written};
use crate::element::{begins_at, element_of, start_of, token_at};
use crate::grouped::find_ungrouped;
use crate::kind::TextKind;
use crate::names::{
    NameKind, index_after, index_before, is_name, is_parameter, is_symbol, is_type, is_word,
    list_declared, name_at,
};
use crate::near::find_nearest;
use crate::privilege::find_lacking;
use crate::schemas::Schemas;
use crate::source::Source;
use crate::spelled::spelling_of;
use crate::table::{Table, table_name_at, user_before};
use indexmap::IndexMap;
use sq_lex::{Name, Symbol, Token, Word};
use sq_meaning::BindingFault;
use std::alloc::{AllocError, Global};

/// A name that a fault is about.
#[derive(Clone, Copy)]
pub(crate) struct Subject {
    kind: NameKind,
    name: Name,
    /// Whether no such name is declared.
    is_unknown: bool,
    /// Whether it occurs twice though only one is allowed.
    is_twice: bool,
}

/// A module's text over the schemas' texts.
#[derive(Drop)]
pub struct Module<'t, 's> {
    pub source: Source<'t>,
    pub(crate) schemas: &'s Schemas<'t>,
    pub(crate) user: Option<Name>,
    /// Its cursors, each with the number of the token at which it is declared.
    cursors: IndexMap<Name, usize>,
}

impl<'t, 's> Module<'t, 's> {
    /// Puts a module's text over the texts of schemas.
    pub fn new(
        alloc: Global,
        schemas: &'s Schemas<'t>,
        source: Source<'t>,
    ) -> Result<Module<'t, 's>, AllocError> {
        let cursors = cursors_of(alloc, source.tokens.as_slice())?;
        let user = user_before(source.tokens.as_slice(), 8);
        Ok(Module {
            source,
            schemas,
            user,
            cursors,
        })
    }

    /// Finds the tokens of the declaration of a cursor; none if it is not declared.
    pub(crate) fn declaration_of(&self, cursor: Name) -> &[Token] {
        match self.cursors.get(&cursor) {
            Some(first) => element_of(TextKind::Module, self.source.tokens.as_slice(), *first),
            None => &[],
        }
    }

    /// Makes the advice on a part with a fault. The part begins at a line and column, and the fault is about
    /// a name.
    pub fn advice(
        &self,
        alloc: Global,
        line: usize,
        column: usize,
        rule: BindingFault,
        about: Option<Name>,
    ) -> Result<Advice, AllocError> {
        let tokens = self.source.tokens.as_slice();
        let part = match token_at(tokens, self.source.text.byte_at(line, column)) {
            Some(first) => element_of(TextKind::Module, tokens, first),
            None => &[],
        };
        match (rule, about) {
            (BindingFault::PrivilegeMissing, _) => self.advice_on_privilege(alloc, part),
            (BindingFault::UngroupedColumn, _) => self.advice_on_group(alloc, part),
            (_, Some(name)) => self.advice_about(alloc, part, &subject_of(rule, name)),
            (_, None) => Ok(self.at_token(alloc, part, 0, Vec::new(alloc), Vec::new(alloc))),
        }
    }

    /// Makes the advice on the privilege that the module's user lacks for a part.
    fn advice_on_privilege(&self, alloc: Global, part: &[Token]) -> Result<Advice, AllocError> {
        let mut words = Vec::new(alloc);
        let mut at = 0;
        if let Some(user) = self.user {
            if let Some(need) = find_lacking(self.schemas, part, user) {
                add_lacking(&mut words, user, &need)?;
                at = need.at;
            }
        }
        let mut advice = self.at_token(alloc, part, at, words, Vec::new(alloc));
        advice.length = length_of_written(self.source.text.bytes, part, at);
        Ok(advice)
    }

    /// Makes the advice on the column of a part that is not grouped.
    fn advice_on_group(&self, alloc: Global, part: &[Token]) -> Result<Advice, AllocError> {
        let mut words = Vec::new(alloc);
        let Some(at) = find_ungrouped(part) else {
            return Ok(self.at_token(alloc, part, 0, words, Vec::new(alloc)));
        };
        add_written(&mut words, &self.source, part, start_of_name(part, at))?;
        words.extend_from_slice(b" is no grouping column, and in no set function")?;
        Ok(self.at_token(alloc, part, at, words, Vec::new(alloc)))
    }

    /// Makes the advice on a name in a part.
    fn advice_about(
        &self,
        alloc: Global,
        part: &[Token],
        subject: &Subject,
    ) -> Result<Advice, AllocError> {
        let at = place_in(part, subject);
        let mut found = Vec::new(alloc);
        self.add_declared(&mut found, alloc, part, at, subject)?;
        let hint = if subject.is_unknown && found.is_empty() {
            self.nearest_name(alloc, part, subject)?
        } else {
            Vec::new(alloc)
        };
        if found.is_empty() && subject.kind == NameKind::Table {
            self.add_user(&mut found, part, at)?;
        }
        Ok(self.at_token(alloc, part, at, found, hint))
    }

    /// Adds that an unknown cursor or table is declared with a fault or an error, if it is.
    fn add_declared(
        &self,
        words: &mut Vec<u8>,
        alloc: Global,
        part: &[Token],
        at: usize,
        subject: &Subject,
    ) -> Result<(), AllocError> {
        match subject.kind {
            _ if !subject.is_unknown => Ok(()),
            NameKind::Cursor => self.add_cursor(words, alloc, subject.name),
            NameKind::Table => self.add_table(words, alloc, part, at),
            NameKind::Column | NameKind::Parameter => Ok(()),
        }
    }

    /// Adds the place at which a cursor is declared, if it is, and what is wrong with it.
    fn add_cursor(&self, words: &mut Vec<u8>, alloc: Global, name: Name) -> Result<(), AllocError> {
        let Some(index) = self.cursors.get(&name) else {
            return Ok(());
        };
        let Some(token) = self.source.tokens.get(*index) else {
            return Ok(());
        };
        words.extend_from_slice(name.codes())?;
        words.extend_from_slice(b" is declared at ")?;
        self.source
            .add_place(words, alloc, token.start, self.source.file)?;
        if self.source.is_passed(token.start) {
            words.extend_from_slice(b", with an error")
        } else {
            words.extend_from_slice(b", with a fault")
        }
    }

    /// Adds the place at which the table at a token is declared, if that is so with an error.
    fn add_table(
        &self,
        words: &mut Vec<u8>,
        alloc: Global,
        part: &[Token],
        at: usize,
    ) -> Result<(), AllocError> {
        match self.table_at(part, start_of_name(part, at)) {
            Some(table) if self.schemas.is_passed(table) => {
                self.schemas
                    .add_declared(words, alloc, table, self.source.file)
            }
            _ => Ok(()),
        }
    }

    /// Adds the name of a table with its user, if that is written.
    fn add_user(&self, words: &mut Vec<u8>, part: &[Token], at: usize) -> Result<(), AllocError> {
        let start = start_of_name(part, at);
        if start < at {
            words.extend_from_slice(b"the table is ")?;
            add_written(words, &self.source, part, start)?;
        }
        Ok(())
    }

    /// The table whose name begins at the token of a number of a part.
    fn table_at(&self, part: &[Token], at: usize) -> Option<&Table> {
        let written = table_name_at(part, at)?;
        self.schemas
            .table(written.owner.or(self.user)?, written.name)
    }

    /// The declared name nearest to one that is not.
    fn nearest_name(
        &self,
        alloc: Global,
        part: &[Token],
        subject: &Subject,
    ) -> Result<Vec<u8>, AllocError> {
        let mut words = Vec::new(alloc);
        if subject.kind == NameKind::Column && declares(part, subject.name) {
            words.extend_from_slice(b"the parameter is :")?;
            words.extend_from_slice(subject.name.codes())?;
            return Ok(words);
        }
        let near = match subject.kind {
            NameKind::Table => self.schemas.nearest_table(subject.name),
            NameKind::Column => self.schemas.nearest_column(subject.name),
            NameKind::Cursor => nearest_declared(
                alloc,
                NameKind::Cursor,
                self.source.tokens.as_slice(),
                subject.name,
            )?,
            NameKind::Parameter => nearest_declared(
                alloc,
                NameKind::Parameter,
                part,
                subject.name,
            )?,
        };
        if let Some(near) = near {
            words.extend_from_slice(b"the nearest name is ")?;
            words.extend_from_slice(near.codes())?;
        }
        Ok(words)
    }

    /// Makes an advice at the token of a number, with the token there and a hint.
    fn at_token(
        &self,
        alloc: Global,
        part: &[Token],
        at: usize,
        found: Vec<u8>,
        hint: Vec<u8>,
    ) -> Advice
        ensures { result.start ≡ spec.start_of part.now at }
    {
        Advice {
            start: start_of(part, at),
            length: place_of(self.source.text.bytes, part.get(at)).1,
            found,
            expected: Vec::new(alloc),
            hint,
        }
    }
}

/// The cursors that a module declares, each with the number of the token at which it is first declared.
fn cursors_of(alloc: Global, tokens: &[Token]) -> Result<IndexMap<Name, usize>, AllocError> {
    let mut cursors = IndexMap::new(alloc);
    for index in 0..tokens.len() {
        add_cursor(&mut cursors, tokens, index)?;
    }
    Ok(cursors)
}

/// Adds the cursor whose declaration begins at the token of a number.
fn add_cursor(
    cursors: &mut IndexMap<Name, usize>,
    tokens: &[Token],
    index: usize,
) -> Result<(), AllocError> {
    if !begins_at(TextKind::Module, tokens, index) || !is_word(tokens, index, Word::Declare) {
        return Ok(());
    }
    let Some(name) = name_at(tokens, index_after(index)) else {
        return Ok(());
    };
    if cursors.get(&name).is_none() {
        cursors.insert(name, index)?;
    }
    Ok(())
}

/// Finds the name that a fault is about.
fn subject_of(rule: BindingFault, name: Name) -> Subject {
    Subject {
        kind: kind_of(rule),
        name,
        is_unknown: matches!(
            rule,
            BindingFault::UnknownTable
                | BindingFault::UnknownColumn
                | BindingFault::UnknownParameter
                | BindingFault::UnknownCursor
        ),
        is_twice: matches!(rule, BindingFault::TargetTwice | BindingFault::ColumnTwice),
    }
}

fn kind_of(rule: BindingFault) -> NameKind {
    match rule {
        BindingFault::UnknownTable | BindingFault::NotUpdatable => NameKind::Table,
        BindingFault::UnknownParameter | BindingFault::BadIndicator | BindingFault::TargetTwice =>
            NameKind::Parameter,
        BindingFault::UnknownCursor => NameKind::Cursor,
        _ => NameKind::Column,
    }
}

/// The number of the token with which a name begins, the name before its dot included.
fn start_of_name(part: &[Token], at: usize) -> usize {
    if is_symbol(part, index_before(at), Symbol::Dot) {
        at.saturating_sub(2)
    } else {
        at
    }
}

/// Whether a part declares a parameter of this name.
fn declares(part: &[Token], name: Name) -> bool {
    (0..part.len()).any(|index| {
        is_name(part, index, name) && is_parameter(part, index) && is_type(part, index_after(index))
    })
}

/// The name of a kind that tokens declare which is nearest to one that they do not.
fn nearest_declared(
    alloc: Global,
    kind: NameKind,
    tokens: &[Token],
    name: Name,
) -> Result<Option<Name>, AllocError> {
    let names = list_declared(alloc, kind, tokens)?;
    let near = find_nearest(names.as_slice(), name);
    drop(names);
    Ok(near)
}

/// Finds the token of a part that a fault is about: the first use of the name there, or the last if the name
/// occurs twice. If there is none, it answers the part's first token.
fn place_in(part: &[Token], subject: &Subject) -> usize {
    let found = if subject.is_twice {
        (0..part.len())
            .rev()
            .find(|index| is_use(part, *index, subject))
    } else {
        (0..part.len()).find(|index| is_use(part, *index, subject))
    };
    found.or(table_after_user(part, subject)).unwrap_or(0)
}

/// Whether a name is used, and not declared, at the token of this number of a part.
fn is_use(part: &[Token], index: usize, subject: &Subject) -> bool {
    let is_here = is_name(part, index, subject.name) && index > 1;
    match subject.kind {
        NameKind::Parameter => {
            is_here && is_parameter(part, index) && !is_type(part, index_after(index))
        }
        NameKind::Column => {
            is_here
                && !is_parameter(part, index)
                && !is_symbol(part, index_after(index), Symbol::Dot)
        }
        _ => is_here
            && !is_parameter(part, index)
            && !is_symbol(part, index_before(index), Symbol::Dot),
    }
}

/// Finds the first token of a part that is the name of a table after its user's.
fn table_after_user(part: &[Token], subject: &Subject) -> Option<usize> {
    if subject.kind == NameKind::Table {
        (0..part.len()).find(|index| is_name(part, *index, subject.name))
    } else {
        None
    }
}

/// Gives the first byte and the length of a token, or of the text's first byte if there is none.
pub(crate) fn place_of(text: &[u8], token: Option<&Token>) -> (usize, usize) {
    match token {
        Some(token) => (token.start, spelling_of(text, token).len()),
        None => (0, 1),
    }
}
