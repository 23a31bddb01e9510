//! The spelling of tokens, and of parts in a row: a tuple is spelled as its parts are, one after the other.

ghost use Rattle.std.specs.Prelude.{◌∷◌, [], ◌++◌};
ghost use Rattle.sq_lex.specs.declared.lexeme.Lexeme.TheVariants as lexeme;
ghost use Rattle.sq_tree.specs.Tree.{if_written, optional};

use crate::sink::Sink;
use crate::tree::Tree;
use sq_lex::{Lexeme, Number, Symbol, Word};

impl Tree for Word {
    ghost tokens = { λ word. lexeme.Word word ∷ [] };

    fn walk<S: Sink>(&self, sink: &mut S) -> Result<(), S::Stop> {
        sink.take(Lexeme::Word(*self))
    }
}

impl Tree for Symbol {
    ghost tokens = { λ symbol. lexeme.Symbol symbol ∷ [] };

    fn walk<S: Sink>(&self, sink: &mut S) -> Result<(), S::Stop> {
        sink.take(Lexeme::Symbol(*self))
    }
}

impl Tree for Number {
    ghost tokens = { λ number. lexeme.Number number ∷ [] };

    fn walk<S: Sink>(&self, sink: &mut S) -> Result<(), S::Stop> {
        sink.take(Lexeme::Number(*self))
    }
}

impl<T: Tree> Tree for &T {
    ghost tokens = { λ part. T.tokens part.now };

    fn walk<S: Sink>(&self, sink: &mut S) -> Result<(), S::Stop> {
        T::walk(self, sink)
    }
}

impl<A: Tree, B: Tree> Tree for (A, B) {
    ghost tokens = { λ parts. A.tokens parts.0 ++ B.tokens parts.1 };

    #[tactic(auto, using(std::proofs::lemmas::Grind::common_steps))]
    fn walk<S: Sink>(&self, sink: &mut S) -> Result<(), S::Stop> {
        self.0.walk(sink)?;
        self.1.walk(sink)
    }
}

impl<A: Tree, B: Tree, C: Tree> Tree for (A, B, C) {
    ghost tokens = { λ parts. A.tokens parts.0 ++ B.tokens parts.1 ++ C.tokens parts.2 };

    #[tactic(auto, using(std::proofs::lemmas::Grind::common_steps))]
    fn walk<S: Sink>(&self, sink: &mut S) -> Result<(), S::Stop> {
        self.0.walk(sink)?;
        self.1.walk(sink)?;
        self.2.walk(sink)
    }
}

impl<A: Tree, B: Tree, C: Tree, D: Tree> Tree for (A, B, C, D) {
    ghost tokens = { λ parts. A.tokens parts.0 ++ B.tokens parts.1 ++ C.tokens parts.2 ++ D.tokens parts.3 };

    #[tactic(auto, using(std::proofs::lemmas::Grind::common_steps))]
    fn walk<S: Sink>(&self, sink: &mut S) -> Result<(), S::Stop> {
        self.0.walk(sink)?;
        self.1.walk(sink)?;
        self.2.walk(sink)?;
        self.3.walk(sink)
    }
}

/// A part that occurs if it is written.
#[derive(Clone, Copy)]
pub struct IfWritten<T>(pub bool, pub T);

impl<T: Tree> Tree for IfWritten<T> {
    ghost tokens = { λ part. if_written part.0 (T.tokens part.1) };

    fn walk<S: Sink>(&self, sink: &mut S) -> Result<(), S::Stop> {
        if self.0 { self.1.walk(sink) } else { Ok(()) }
    }
}

/// An optional part; if it exists, the first one comes before it.
#[derive(Clone, Copy)]
pub struct Behind<A, B>(pub A, pub B);

impl<A: Tree, B: Tree> Tree for Behind<A, &Option<B>> {
    ghost tokens = { λ parts. optional (λ part. A.tokens parts.0 ++ B.tokens part) parts.1.now };

    #[tactic(auto, using(std::proofs::lemmas::Grind::common_steps))]
    fn walk<S: Sink>(&self, sink: &mut S) -> Result<(), S::Stop> {
        match self.1 {
            Some(part) => {
                self.0.walk(sink)?;
                part.walk(sink)
            }
            None => Ok(()),
        }
    }
}
