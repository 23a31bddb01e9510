//! The three sinks: a list of the tokens, their number, and how deep round brackets nest in them.

use crate::sink::Sink;
use sq_items::{Boxed, Items};
use sq_lex::{Characters, Lexeme, Symbol};
use std::alloc::{AllocError, Global};
use std::convert::Infallible;

/// The tokens so far, and the allocator of memory for the next ones.
#[derive(Drop)]
pub struct Writer {
    pub alloc: Global,
    pub lexemes: Items<Lexeme>,
}

impl Sink for Writer {
    ghost use Rattle.sq_spell.specs.Sinks.{written};

    type Stop = AllocError;

    ghost after = { written };

    fn take(&mut self, token: Lexeme) -> Result<(), AllocError> {
        self.lexemes.push(token)
    }

    fn text(&mut self, characters: &Characters) -> Result<(), AllocError> {
        let text = characters.copy(self.alloc)?;
        self.lexemes
            .push(Lexeme::Text(Boxed::new(self.alloc, text)?))
    }
}

/// The number of tokens, up to `usize::MAX`.
#[derive(Clone, Copy)]
pub struct Counter {
    pub tokens: usize,
}

impl Sink for Counter {
    ghost use Rattle.sq_spell.specs.Sinks.{counted};

    type Stop = Infallible;

    ghost after = { counted };

    fn take(&mut self, _token: Lexeme) -> Result<(), Infallible> {
        self.tokens = self.tokens.saturating_add(1);
        Ok(())
    }

    fn text(&mut self, _characters: &Characters) -> Result<(), Infallible> {
        self.tokens = self.tokens.saturating_add(1);
        Ok(())
    }
}

/// How many round brackets are open, and the most that were open at once, each up to `usize::MAX`.
#[derive(Clone, Copy)]
pub struct Depth {
    pub now: usize,
    pub most: usize,
}

impl Sink for Depth {
    ghost use Rattle.sq_spell.specs.Sinks.{nested};

    type Stop = Infallible;

    ghost after = { nested };

    fn take(&mut self, token: Lexeme) -> Result<(), Infallible> {
        self.now = match token {
            Lexeme::Symbol(Symbol::Open) => self.now.saturating_add(1),
            Lexeme::Symbol(Symbol::Close) => self.now.saturating_sub(1),
            _ => self.now,
        };
        self.most = self.most.max(self.now);
        Ok(())
    }

    fn text(&mut self, _characters: &Characters) -> Result<(), Infallible> {
        self.most = self.most.max(self.now);
        Ok(())
    }
}
