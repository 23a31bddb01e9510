//! The advice beside a refusal of a module for its meaning: which name it is about.

use crate::advice::Advice;
use crate::element::{begins_at, element_of, token_at};
use crate::kind::TextKind;
use crate::meaning::Module;
use crate::names::{index_after, index_before, is_name, is_parameter, is_type, is_word, name_at};
use crate::spelled::spelling_of;
use crate::table::definition_at;
use crate::typed::has_bad_type;
use sq_lex::{Name, Token, Word};
use sq_meaning::ModuleFault;
use std::alloc::{AllocError, Global};

impl Module<'_, '_> {
    /// Makes the advice on the refused part of a module, which begins at a line and column.
    pub fn advice_on_refusal(
        &self,
        alloc: Global,
        line: usize,
        column: usize,
        fault: ModuleFault,
    ) -> Result<Option<Advice>, AllocError> {
        let tokens = self.source.tokens.as_slice();
        let Some(first) = token_at(tokens, self.source.text.byte_at(line, column)) else {
            return Ok(None);
        };
        let part = element_of(TextKind::Module, tokens, first);
        let Some(token) = part.get(place_in(self.source.text.bytes, part, fault)) else {
            return Ok(None);
        };
        let mut found = Vec::new(alloc);
        self.add_words(&mut found, alloc, part, first, token, fault)?;
        Ok(Some(Advice {
            start: token.start,
            length: spelling_of(self.source.text.bytes, token).len(),
            found,
            expected: Vec::new(alloc),
            hint: Vec::new(alloc),
        }))
    }

    /// Adds what is said of the token that a refusal is about.
    fn add_words(
        &self,
        words: &mut Vec<u8>,
        alloc: Global,
        part: &[Token],
        first: usize,
        token: &Token,
        fault: ModuleFault,
    ) -> Result<(), AllocError> {
        match fault {
            ModuleFault::OpenCount => return self.add_openings(words, alloc, part),
            ModuleFault::TwoProcedures | ModuleFault::TwoCursors => {
                return self.add_earlier(words, alloc, part, first);
            }
            _ => {}
        }
        words.extend_from_slice(spelling_of(self.source.text.bytes, token))?;
        words.extend_from_slice(says_of(self.source.text.bytes, part, fault))
    }

    /// Adds the place at which the earlier part with the name of this one is declared.
    fn add_earlier(
        &self,
        words: &mut Vec<u8>,
        alloc: Global,
        part: &[Token],
        first: usize,
    ) -> Result<(), AllocError> {
        let tokens = self.source.tokens.as_slice();
        let Some(name) = name_at(part, 1) else {
            return Ok(());
        };
        let earlier = (0..first.min(tokens.len())).find(|index| is_same(
            tokens, *index, part, name,
        ));
        if let Some(token) = tokens.get(earlier.unwrap_or(tokens.len())) {
            words.extend_from_slice(name.codes())?;
            words.extend_from_slice(b" is declared at ")?;
            self.source
                .add_place(words, alloc, token.start, self.source.file)?;
        }
        Ok(())
    }

    /// Adds the places at which a cursor is opened, or that it never is.
    fn add_openings(
        &self,
        words: &mut Vec<u8>,
        alloc: Global,
        part: &[Token],
    ) -> Result<(), AllocError> {
        let Some(name) = name_at(part, 1) else {
            return Ok(());
        };
        words.extend_from_slice(name.codes())?;
        let start = words.len();
        for (index, token) in self.source.tokens.iter().enumerate() {
            if is_opening(self.source.tokens.as_slice(), index, name) {
                self.add_opening(words, alloc, token, start)?;
            }
        }
        if words.len() == start {
            words.extend_from_slice(b" is never opened")?;
        }
        Ok(())
    }

    /// Adds a place at which a cursor is opened, after the places before.
    fn add_opening(
        &self,
        words: &mut Vec<u8>,
        alloc: Global,
        token: &Token,
        start: usize,
    ) -> Result<(), AllocError> {
        let says: &[u8] = if words.len() == start {
            b" is opened at "
        } else {
            b" and at "
        };
        words.extend_from_slice(says)?;
        self.source
            .add_place(words, alloc, token.start, self.source.file)?;
        if self.source.is_passed(token.start) {
            words.extend_from_slice(b", in a procedure with an error")?;
        }
        Ok(())
    }
}

/// Says what a refusal finds wrong with the name that it is about.
fn says_of(text: &[u8], part: &[Token], fault: ModuleFault) -> &'static [u8] {
    match fault {
        ModuleFault::TwoModules => b" is an earlier module's name",
        ModuleFault::StatusParameter if second_status(part).is_some() => b" stands twice",
        ModuleFault::StatusParameter => b" has neither SQLCODE nor SQLSTATE",
        _ if find_repeated(part).is_some() => b" stands twice",
        _ if find_ill_typed(text, part).is_some() => {
            b" has a type whose length, precision or scale is out of range"
        }
        _ => b" is the 65th parameter",
    }
}

/// Whether the part that begins at the token of a number is of the kind of another part, and has its name.
fn is_same(tokens: &[Token], index: usize, part: &[Token], name: Name) -> bool {
    begins_at(TextKind::Module, tokens, index)
        && is_word(tokens, index, Word::Declare) == is_word(part, 0, Word::Declare)
        && is_name(tokens, index_after(index), name)
}

/// Whether a cursor is opened at the token of a number.
fn is_opening(tokens: &[Token], index: usize, name: Name) -> bool {
    is_name(tokens, index, name) && is_word(tokens, index_before(index), Word::Open)
}

/// The number of the token of a part that a refusal is about.
fn place_in(text: &[u8], part: &[Token], fault: ModuleFault) -> usize {
    match fault {
        ModuleFault::StatusParameter => second_status(part).unwrap_or(1),
        ModuleFault::BadParameter => bad_parameter(text, part).unwrap_or(1),
        _ => 1,
    }
}

/// The second SQLCODE, or the second SQLSTATE.
fn second_status(part: &[Token]) -> Option<usize> {
    find_second(part, Word::Sqlcode).or(find_second(part, Word::Sqlstate))
}

fn find_second(part: &[Token], word: Word) -> Option<usize> {
    (0..part.len())
        .filter(|index| is_word(part, *index, word))
        .nth(1)
}

/// A parameter that is declared before, or of a bad type, or the 65th.
fn bad_parameter(text: &[u8], part: &[Token]) -> Option<usize> {
    find_repeated(part).or(find_ill_typed(text, part)).or(
        (0..part.len())
            .filter(|index| is_declared(part, *index))
            .nth(64),
    )
}

/// A parameter that is declared before.
fn find_repeated(part: &[Token]) -> Option<usize> {
    (0..part.len()).find(|index| is_declared(part, *index) && is_earlier(part, *index))
}

/// A parameter of a bad type.
fn find_ill_typed(text: &[u8], part: &[Token]) -> Option<usize> {
    (0..part.len()).find(|index| is_declared(part, *index)
        && has_bad_type(text, definition_at(part, *index)))
}

/// Whether a parameter is declared at the token of a number.
fn is_declared(part: &[Token], index: usize) -> bool {
    is_parameter(part, index) && is_type(part, index_after(index))
}

/// Whether a parameter is declared before, too.
fn is_earlier(part: &[Token], index: usize) -> bool {
    match name_at(part, index) {
        Some(name) => { (0..index).any(|at| is_name(part, at, name) && is_declared(part, at)) }
        None => false,
    }
}
