//! Trees hand their tokens to a sink, which gives the list of them, their number, or how deep brackets nest.

ghost use Rattle.std.specs.Prelude.{◌≡◌, fold, min, length, IfOk, OnOk};
ghost use Rattle.sq_tree.specs.Brackets.{deepest};

use crate::sink::Sink;
use crate::sinks::{Counter, Depth, Writer};
use sq_items::Items;
use sq_lex::Lexeme;
use std::alloc::{AllocError, Global};

/// A tree or a part of one, which is spelled by one list of tokens.
pub trait Tree {
    ghost use Rattle.sq_tree.specs.Tree.{Tokens};

    /// The list of tokens.
    ghost tokens: { Self → Tokens };

    /// Hands the tokens to the sink, in order.
    fn walk<S: Sink>(&self, sink: &mut S) -> Result<(), S::Stop>
        ensures { OnOk result (sink.new ≡ fold S.after sink.old (tokens self.now)) };
}

/// The tokens of a tree, in order.
#[tactic(auto, using(crate::proofs::Folded::fold_written))]
pub fn write_tokens<T: Tree>(alloc: Global, tree: &T) -> Result<Vec<Lexeme>, AllocError>
    ensures { IfOk result (λ lexemes. lexemes.items ≡ T.tokens tree.now) }
{
    let mut writer = Writer {
        alloc,
        lexemes: Items::new(alloc),
    };
    tree.walk(&mut writer)?;
    Ok(writer.lexemes.into_vec())
}

/// How many tokens a tree has, up to `usize::MAX`.
#[tactic(auto, using(crate::proofs::Folded::fold_counted))]
pub fn token_count<T: Tree>(tree: &T) -> usize
    ensures { result ≡ min (length (T.tokens tree.now)) usize.MAX }
{
    let mut counter = Counter { tokens: 0 };
    let Ok(()) = tree.walk(&mut counter);
    counter.tokens
}

/// The greatest number of round brackets of a tree that are open at once, up to `usize::MAX`.
#[tactic(auto, using(crate::proofs::Folded::greatest_nested))]
pub fn depth<T: Tree>(tree: &T) -> usize
    ensures { result ≡ min (deepest (T.tokens tree.now)) usize.MAX }
{
    let mut depth = Depth { now: 0, most: 0 };
    let Ok(()) = tree.walk(&mut depth);
    depth.most
}
