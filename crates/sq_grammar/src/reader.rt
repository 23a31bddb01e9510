//! The tokens that are still to be read, and the steps that every rule is made of.

ghost use Rattle.std.specs.Prelude.{◌≡◌, ◌<◌, ◌≤◌, ◌+◌, Option, length, nat_eq, IsTrue, IfOk, IfSome, OnOk, OnSome};
ghost use Rattle.std.specs.Option.{option_map};
ghost use Rattle.sq_lex.specs.declared.lexeme.Lexeme.TheVariants as lexeme;
ghost use Rattle.sq_grammar.specs.Reading as spec;
ghost use Rattle.sq_grammar.specs.Reads.{Reads};
ghost use Rattle.sq_lex.specs.Token.{lexemes};

use crate::stop::Stop;
use sq_lex::{Characters, Lexeme, Name, Number, Symbol, Token, Word};
use std::alloc::Global;
use std::marker::Model;

/// The tokens that are still to be read. Contracts see their lexemes.
#[derive(Drop)]
pub struct Reader<'a> {
    tokens: &'a [Token],
}

impl<'a> Model for Reader<'a> {
    ghost use Rattle.sq_grammar.specs.Reading.{Tokens};
    ghost use Rattle.sq_lex.specs.Token.{lexemes};

    ghost Value = { Tokens };

    ghost view = { λ reader. lexemes reader.tokens.now };
}

impl<'a> Reader<'a> {
    /// All of these tokens are still to be read.
    pub fn new(tokens: &'a [Token]) -> Reader<'a>
        ensures { result ≡ lexemes tokens.now }
    {
        Reader { tokens }
    }

    /// The stop at the next token.
    pub fn stop(&self) -> Stop
        ensures { result ≡ Stop.Unfit (length self.now) }
    {
        Stop::Unfit(self.tokens.len())
    }

    /// The next token's lexeme.
    pub fn first(&self) -> Option<&'a Lexeme>
        ensures { option_map (λ lexeme. lexeme.now) result ≡ spec.first_of Some self.now }
    {
        match self.tokens.first() {
            Some(token) => Some(&token.lexeme),
            None => None,
        }
    }

    /// Whether this symbol comes next.
    pub fn sees(&self, symbol: Symbol) -> bool
        ensures { result ≡ spec.sees (lexeme.Symbol symbol) self.now }
    {
        match self.tokens.first() {
            Some(token) => is_symbol(&token.lexeme, symbol),
            None => false,
        }
    }

    /// Whether this word comes next.
    pub fn sees_word(&self, word: Word) -> bool
        ensures { result ≡ spec.sees (lexeme.Word word) self.now }
    {
        match self.tokens.first() {
            Some(token) => is_word(&token.lexeme, word),
            None => false,
        }
    }

    /// Whether this word comes after the next token.
    pub fn sees_word_after(&self, word: Word) -> bool
        ensures { result ≡ spec.sees (lexeme.Word word) (spec.rest self.now) }
    {
        match self.tokens.split_first() {
            Some((_, rest)) => Reader { tokens: rest }.sees_word(word),
            None => false,
        }
    }

    /// Leaves the next token, if there is one.
    pub fn skip(&mut self)
        ensures { self.new ≡ spec.rest self.old }
    {
        if let Some((_, rest)) = self.tokens.split_first() {
            self.tokens = rest;
        }
    }

    /// Takes the symbol if it comes next, and says whether it did.
    #[tactic(auto, unfolding(crate::specs::Reading::eat))]
    pub fn eat(&mut self, symbol: Symbol) -> bool
        ensures value { spec.eat_symbol symbol self.old ≡ Ok (result, self.new) }
        ensures shorter { IsTrue result → length self.new < length self.old }
        ensures no_longer { length self.new ≤ length self.old }
    {
        let found = self.sees(symbol);
        if found {
            self.skip();
        }
        found
    }

    /// Takes the word if it comes next, and says whether it did.
    #[tactic(auto, unfolding(crate::specs::Reading::eat))]
    pub fn eat_word(&mut self, word: Word) -> bool
        ensures value { spec.eat_word word self.old ≡ Ok (result, self.new) }
        ensures shorter { IsTrue result → length self.new < length self.old }
        ensures no_longer { length self.new ≤ length self.old }
    {
        let found = self.sees_word(word);
        if found {
            self.skip();
        }
        found
    }

    /// Takes the symbol, which has to come next.
    #[tactic(auto, unfolding(crate::specs::Reading::expect))]
    pub fn expect(&mut self, symbol: Symbol) -> Result<(), Stop>
        ensures value { Reads (spec.expect_symbol symbol self.old) result self.new }
        ensures shorter { OnOk result (length self.new < length self.old) }
    {
        if !self.sees(symbol) {
            return Err(self.stop());
        }
        self.skip();
        Ok(())
    }

    /// Takes the word, which has to come next.
    #[tactic(auto, unfolding(crate::specs::Reading::expect))]
    pub fn expect_word(&mut self, word: Word) -> Result<(), Stop>
        ensures value { Reads (spec.expect_word word self.old) result self.new }
        ensures shorter { OnOk result (length self.new < length self.old) }
    {
        if !self.sees_word(word) {
            return Err(self.stop());
        }
        self.skip();
        Ok(())
    }

    /// Takes an opening bracket, unless `left`, the number that may still be opened, is 0.
    #[tactic(auto, unfolding(crate::specs::Reading::opening_bracket))]
    pub fn open(&mut self, left: usize) -> Result<(), Stop>
        ensures value { Reads (spec.opening_bracket left self.old) result self.new }
        ensures shorter { OnOk result (length self.new < length self.old) }
        ensures allowed { OnOk result (0 < left) }
    {
        if left == 0 {
            return Err(self.stop());
        }
        self.expect(Symbol::Open)
    }

    /// Takes a name if one comes next.
    #[tactic(auto, unfolding(crate::specs::Reading::one_if_any))]
    pub fn name_if_any(&mut self) -> Option<Name>
        ensures value { spec.one_if_any spec.name_of self.old ≡ Ok (result, self.new) }
        ensures shorter { OnSome result (length self.new < length self.old) }
        ensures no_longer { length self.new ≤ length self.old }
    {
        let (token, rest) = self.tokens.split_first()?;
        match &token.lexeme {
            Lexeme::Name(name) => {
                self.tokens = rest;
                Some(*name)
            }
            _ => None,
        }
    }

    /// Takes a name, which has to come next.
    #[tactic(auto, unfolding(crate::specs::Reading::one_of, crate::specs::Reading::one_if_any))]
    pub fn name(&mut self) -> Result<Name, Stop>
        ensures value { Reads (spec.name self.old) result self.new }
        ensures shorter { OnOk result (length self.new < length self.old) }
    {
        match self.name_if_any() {
            Some(name) => Ok(name),
            None => Err(self.stop()),
        }
    }

    /// Takes a number if one comes next.
    #[tactic(auto, unfolding(crate::specs::Reading::one_if_any))]
    pub fn number_if_any(&mut self) -> Option<Number>
        ensures value { spec.one_if_any spec.number_of self.old ≡ Ok (result, self.new) }
        ensures shorter { OnSome result (length self.new < length self.old) }
        ensures no_longer { length self.new ≤ length self.old }
    {
        let (token, rest) = self.tokens.split_first()?;
        match &token.lexeme {
            Lexeme::Number(number) => {
                self.tokens = rest;
                Some(*number)
            }
            _ => None,
        }
    }

    /// Takes a number, which has to come next.
    #[tactic(auto, unfolding(crate::specs::Reading::one_of, crate::specs::Reading::one_if_any))]
    pub fn number(&mut self) -> Result<Number, Stop>
        ensures value { Reads (spec.number self.old) result self.new }
        ensures shorter { OnOk result (length self.new < length self.old) }
    {
        match self.number_if_any() {
            Some(number) => Ok(number),
            None => Err(self.stop()),
        }
    }

    /// Takes a text literal if one comes next, and copies its characters.
    #[tactic(auto, unfolding(crate::specs::Reading::one_if_any))]
    pub fn text_if_any(&mut self, alloc: Global) -> Result<Option<Characters>, Stop>
        ensures value { Reads (spec.one_if_any spec.text_of self.old) result self.new }
        ensures shorter { IfOk result (λ found. OnSome found (length self.new < length self.old)) }
        ensures no_longer { OnOk result (length self.new ≤ length self.old) }
    {
        let Some((token, rest)) = self.tokens.split_first() else {
            return Ok(None);
        };
        match &token.lexeme {
            Lexeme::Text(characters) => {
                self.tokens = rest;
                Ok(Some(characters.get().copy(alloc)?))
            }
            _ => Ok(None),
        }
    }

    /// Nothing may come next.
    pub fn end<T: Drop>(&self, tree: T) -> Result<T, Stop>
        ensures { Reads (spec.end_of tree self.now) result self.now }
    {
        if self.tokens.is_empty() {
            Ok(tree)
        } else {
            Err(self.stop())
        }
    }
}

fn is_symbol(lexeme: &Lexeme, symbol: Symbol) -> bool
    ensures { result ≡ spec.is_symbol symbol lexeme.now }
{
    match lexeme {
        Lexeme::Symbol(first) => first.is(symbol),
        _ => false,
    }
}

fn is_word(lexeme: &Lexeme, word: Word) -> bool
    ensures { result ≡ spec.is_word word lexeme.now }
{
    match lexeme {
        Lexeme::Word(first) => first.is(word),
        _ => false,
    }
}
