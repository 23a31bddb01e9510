//! The spelling of lists with commas, of lists without, of parts that a text may lack, and of parts in boxes.

ghost use Rattle.sq_tree.specs.List as spec;

use crate::sink::Sink;
use crate::tree::Tree;
use sq_items::{Boxed, Items};
use sq_lex::Symbol;
use sq_tree::CommaList;

impl<T: Tree> Tree for CommaList<T> {
    ghost tokens = { spec.comma_tokens T.tokens };

    #[tactic(auto, using(std::proofs::lemmas::Grind::common_steps))]
    fn walk<S: Sink>(&self, sink: &mut S) -> Result<(), S::Stop> {
        self.first.walk(sink)?;
        for item in self.rest.as_slice() {
            (Symbol::Comma, item).walk(sink)?;
        }
        Ok(())
    }
}

impl<T: Tree> Tree for &[T] {
    ghost tokens = { λ parts. spec.row_tokens T.tokens parts.now };

    #[tactic(auto, using(std::proofs::lemmas::Grind::common_steps))]
    fn walk<S: Sink>(&self, sink: &mut S) -> Result<(), S::Stop> {
        for part in *self {
            part.walk(sink)?;
        }
        Ok(())
    }
}

impl<T: Tree> Tree for Items<T> {
    ghost tokens = { spec.row_tokens T.tokens };

    fn walk<S: Sink>(&self, sink: &mut S) -> Result<(), S::Stop> {
        self.as_slice().walk(sink)
    }
}

impl<T: Tree> Tree for Boxed<T> {
    ghost tokens = { T.tokens };

    fn walk<S: Sink>(&self, sink: &mut S) -> Result<(), S::Stop> {
        self.get().walk(sink)
    }
}

impl<T: Tree> Tree for Option<T> {
    ghost use Rattle.sq_tree.specs.Tree.{optional};

    ghost tokens = { optional T.tokens };

    fn walk<S: Sink>(&self, sink: &mut S) -> Result<(), S::Stop> {
        match self {
            Some(part) => part.walk(sink),
            None => Ok(()),
        }
    }
}
