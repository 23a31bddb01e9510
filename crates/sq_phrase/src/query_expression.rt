//! Query expressions, over a parser of the text after a bracket.

ghost use Rattle.std.specs.Prelude.{◌≡◌, ◌<◌, ◌≤◌, length, OnOk};
ghost use Rattle.sq_lex.specs.declared.lexeme.Lexeme.TheVariants as lexeme;
ghost use Rattle.sq_lex.specs.declared.word.Word.TheVariants as word;
ghost use Rattle.sq_phrase.specs.Nests.{Nests};
ghost use Rattle.sq_grammar.specs.declared.brackets.TheConstants.{MAX_DEPTH};
ghost use Rattle.sq_grammar.specs.Query as spec;
ghost use Rattle.sq_grammar.specs.Reading.{all, behind};
ghost use Rattle.sq_grammar.specs.Reads.{Reads};

use crate::select::query_specification;
use sq_grammar::{Reader, Stop};
use sq_items::{Boxed, Items};
use sq_lex::{Symbol, Word};
use sq_tree::{Query, QueryTerm, UnionTerm};
use std::alloc::Global;

/// The rules of query expressions.
#[derive(Clone, Copy)]
struct Grammar<F> {
    alloc: Global,
    /// How many brackets may still be opened.
    left: usize,
    /// Reads a query expression after a bracket, which is one of these.
    inner: F,
}

impl<F: Fn(Global, &mut Reader<'_>, usize) -> Result<Query, Stop>> Grammar<F> {
    /// A query expression after a bracket.
    fn inner_query(&self, tokens: &mut Reader<'_>) -> Result<Query, Stop>
        requires nests { Nests spec.inside self.now.left (F.pre self.now.inner) (F.post self.now.inner) }
        requires some { 0 < self.now.left }
        ensures value { Reads (spec.inside self.now.left tokens.old) result tokens.new }
        ensures shorter { OnOk result (length tokens.new < length tokens.old) }
    {
        (self.inner)(self.alloc, tokens, self.left)
    }

    #[tactic(auto, unfolding(sq_grammar::specs::Query::bracketed))]
    fn bracketed(&self, tokens: &mut Reader<'_>) -> Result<Query, Stop>
        requires { Nests spec.inside self.now.left (F.pre self.now.inner) (F.post self.now.inner) }
        ensures value { Reads
            (spec.bracketed self.now.left (spec.inside self.now.left) tokens.old) result tokens.new }
        ensures shorter { OnOk result (length tokens.new < length tokens.old) }
    {
        tokens.open(self.left)?;
        let query = self.inner_query(tokens)?;
        match tokens.expect(Symbol::Close) {
            Ok(()) => Ok(query),
            Err(stop) => {
                drop(query);
                Err(stop)
            }
        }
    }

    #[tactic(auto, unfolding(sq_grammar::specs::Query::bracketed_term))]
    fn bracketed_term(&self, tokens: &mut Reader<'_>) -> Result<QueryTerm, Stop>
        requires { Nests spec.inside self.now.left (F.pre self.now.inner) (F.post self.now.inner) }
        ensures value { Reads
            (spec.bracketed_term self.now.left (spec.inside self.now.left) tokens.old) result tokens.new }
        ensures shorter { OnOk result (length tokens.new < length tokens.old) }
    {
        let query = self.bracketed(tokens)?;
        let query = Boxed::new(self.alloc, query)?;
        Ok(QueryTerm::Bracketed(query))
    }

    #[tactic(auto, unfolding(sq_grammar::specs::Query::query_term))]
    fn query_term(&self, tokens: &mut Reader<'_>) -> Result<QueryTerm, Stop>
        requires nests { Nests spec.inside self.now.left (F.pre self.now.inner) (F.post self.now.inner) }
        requires small { self.now.left ≤ MAX_DEPTH }
        ensures value { Reads
            (spec.query_term self.now.left (spec.inside self.now.left) tokens.old) result tokens.new }
        ensures shorter { OnOk result (length tokens.new < length tokens.old) }
    {
        if tokens.sees(Symbol::Open) {
            return self.bracketed_term(tokens);
        }
        let query = query_specification(self.alloc, tokens, self.left)?;
        Ok(QueryTerm::Specification(query))
    }

    #[tactic(auto, unfolding(sq_grammar::specs::Query::union_term))]
    fn union_term(&self, tokens: &mut Reader<'_>) -> Result<UnionTerm, Stop>
        requires nests { Nests spec.inside self.now.left (F.pre self.now.inner) (F.post self.now.inner) }
        requires small { self.now.left ≤ MAX_DEPTH }
        ensures value { Reads
            (spec.union_term self.now.left (spec.inside self.now.left) tokens.old) result tokens.new }
        ensures shorter { OnOk result (length tokens.new < length tokens.old) }
    {
        let all = tokens.eat_word(Word::All);
        let term = self.query_term(tokens)?;
        Ok(UnionTerm { all, term })
    }

    /// The query terms after the first, each after a UNION.
    #[tactic(auto, using(sq_grammar::proofs::Reading::Many::loops))]
    fn more_terms(&self, tokens: &mut Reader<'_>) -> Result<Items<UnionTerm>, Stop>
        requires nests { Nests spec.inside self.now.left (F.pre self.now.inner) (F.post self.now.inner) }
        requires small { self.now.left ≤ MAX_DEPTH }
        ensures value { Reads
            (all (behind (lexeme.Word word.Union)
            (spec.union_term self.now.left (spec.inside self.now.left))) tokens.old) result tokens.new }
        ensures no_longer { OnOk result (length tokens.new ≤ length tokens.old) }
    {
        let mut items = Items::new(self.alloc);
        while tokens.eat_word(Word::Union) {
            let term = self.union_term(tokens)?;
            items.push(term)?;
        }
        Ok(items)
    }

    #[tactic(auto, unfolding(sq_grammar::specs::Query::level))]
    fn query(&self, tokens: &mut Reader<'_>) -> Result<Query, Stop>
        requires nests { Nests spec.inside self.now.left (F.pre self.now.inner) (F.post self.now.inner) }
        requires small { self.now.left ≤ MAX_DEPTH }
        ensures value { Reads
            (spec.level self.now.left (spec.inside self.now.left) tokens.old) result tokens.new }
        ensures shorter { OnOk result (length tokens.new < length tokens.old) }
    {
        let first = self.query_term(tokens)?;
        match self.more_terms(tokens) {
            Ok(rest) => Ok(Query { first, rest }),
            Err(stop) => {
                drop(first);
                Err(stop)
            }
        }
    }
}

/// A query expression after a bracket, which is one of the `left` that could be opened before it.
fn inner(alloc: Global, tokens: &mut Reader<'_>, left: usize) -> Result<Query, Stop>
    requires some { 0 < left }
    requires small { left ≤ MAX_DEPTH }
    ensures value { Reads (spec.inside left tokens.old) result tokens.new }
    ensures shorter { OnOk result (length tokens.new < length tokens.old) }
{
    Grammar {
        alloc,
        left: left - 1,
        inner,
    }
    .query(tokens)
}

/// A query expression in which `left` brackets may be open at once (ISO/IEC 9075:1992, 7.10).
pub fn query(alloc: Global, tokens: &mut Reader<'_>, left: usize) -> Result<Query, Stop>
    requires { left ≤ MAX_DEPTH }
    ensures value { Reads (spec.query left tokens.old) result tokens.new }
    ensures shorter { OnOk result (length tokens.new < length tokens.old) }
{
    Grammar { alloc, left, inner }.query(tokens)
}
