//! Search conditions, over a parser of the text after a bracket, so that each rule is proved by itself.

ghost use Rattle.std.specs.Prelude.{◌≡◌, ◌<◌, ◌≤◌, length, IfOk, OnOk, OnSome};
ghost use Rattle.sq_lex.specs.declared.lexeme.Lexeme.TheVariants as lexeme;
ghost use Rattle.sq_lex.specs.declared.word.Word.TheVariants as word;
ghost use Rattle.sq_grammar.specs.Cond as spec;
ghost use Rattle.sq_phrase.specs.Nests.{Nests};
ghost use Rattle.sq_grammar.specs.Reading.{all, behind};
ghost use Rattle.sq_grammar.specs.Reads.{Reads};

use crate::expression::{expr, expr_from};
use sq_grammar::{CondOrExpr, Reader, Stop};
use sq_items::{Boxed, Items};
use sq_lex::{Symbol, Word};
use sq_tree::{Body, Cond, Conj, Expr, Primary, Test};
use std::alloc::Global;

/// The rules of conditions.
#[derive(Clone, Copy)]
pub struct Grammar<F> {
    pub alloc: Global,
    /// How many brackets may still be opened.
    pub left: usize,
    /// Reads a condition or an expression after a bracket, which is one of these.
    pub inner: F,
}

impl<F: Fn(Global, &mut Reader<'_>, usize) -> Result<CondOrExpr<Cond>, Stop>> Grammar<F> {
    /// A condition after a bracket.
    pub fn inner_cond(&self, tokens: &mut Reader<'_>) -> Result<Cond, Stop>
        requires nests { Nests spec.inside self.now.left (F.pre self.now.inner) (F.post self.now.inner) }
        requires some { 0 < self.now.left }
        ensures value { Reads (spec.must_be_cond (spec.inside self.now.left) tokens.old) result tokens.new }
        ensures shorter { OnOk result (length tokens.new < length tokens.old) }
    {
        match (self.inner)(self.alloc, tokens, self.left)? {
            CondOrExpr::Cond(cond) => Ok(cond),
            CondOrExpr::Expr(bare) => {
                drop(bare);
                Err(tokens.stop())
            }
        }
    }

    /// A predicate whose first expression is read already, or that expression alone.
    #[tactic(auto, unfolding(sq_grammar::specs::Cond::predicate_from))]
    fn predicate_from(&self, tokens: &mut Reader<'_>, left: Expr) -> Result<CondOrExpr<Body>, Stop>
        requires { Nests spec.inside self.now.left (F.pre self.now.inner) (F.post self.now.inner) }
        ensures value { Reads
            (spec.predicate_from self.now.left (spec.inside self.now.left) left tokens.old) result
            tokens.new }
        ensures no_longer { OnOk result (length tokens.new ≤ length tokens.old) }
    {
        match self.tail(tokens) {
            Ok(Some(tail)) => Ok(CondOrExpr::Cond(Body::Predicate(left, tail))),
            Ok(None) => Ok(CondOrExpr::Expr(left)),
            Err(stop) => {
                drop(left);
                Err(stop)
            }
        }
    }

    #[tactic(auto, unfolding(sq_grammar::specs::Cond::bracket))]
    fn bracket(&self, tokens: &mut Reader<'_>) -> Result<CondOrExpr<Body>, Stop>
        requires { Nests spec.inside self.now.left (F.pre self.now.inner) (F.post self.now.inner) }
        ensures value { Reads
            (spec.bracket self.now.left (spec.inside self.now.left) tokens.old) result tokens.new }
        ensures shorter { OnOk result (length tokens.new < length tokens.old) }
    {
        tokens.open(self.left)?;
        let inner = (self.inner)(self.alloc, tokens, self.left)?;
        if let Err(stop) = tokens.expect(Symbol::Close) {
            drop(inner);
            return Err(stop);
        }
        match inner {
            CondOrExpr::Cond(cond) => {
                let cond = Boxed::new(self.alloc, cond)?;
                Ok(CondOrExpr::Cond(Body::Bracketed(cond)))
            }
            CondOrExpr::Expr(bare) => {
                let first = Primary::Bracketed(Boxed::new(self.alloc, bare)?);
                let left = expr_from(self.alloc, tokens, self.left, first)?;
                self.predicate_from(tokens, left)
            }
        }
    }

    #[tactic(auto, unfolding(sq_grammar::specs::Cond::body))]
    fn body(&self, tokens: &mut Reader<'_>) -> Result<CondOrExpr<Body>, Stop>
        requires { Nests spec.inside self.now.left (F.pre self.now.inner) (F.post self.now.inner) }
        ensures value { Reads
            (spec.body self.now.left (spec.inside self.now.left) tokens.old) result tokens.new }
        ensures shorter { OnOk result (length tokens.new < length tokens.old) }
    {
        if tokens.eat_word(Word::Exists) {
            let query = self.subquery(tokens)?;
            let query = Boxed::new(self.alloc, query)?;
            return Ok(CondOrExpr::Cond(Body::Exists(query)));
        }
        if tokens.sees(Symbol::Open) {
            return self.bracket(tokens);
        }
        let left = expr(self.alloc, tokens, self.left)?;
        self.predicate_from(tokens, left)
    }

    #[tactic(auto, unfolding(sq_grammar::specs::Cond::test_at))]
    fn test(&self, tokens: &mut Reader<'_>) -> Result<CondOrExpr<Test>, Stop>
        requires { Nests spec.inside self.now.left (F.pre self.now.inner) (F.post self.now.inner) }
        ensures value { Reads
            (spec.test_at self.now.left (spec.inside self.now.left) tokens.old) result tokens.new }
        ensures shorter { OnOk result (length tokens.new < length tokens.old) }
    {
        let negated = tokens.eat_word(Word::Not);
        match self.body(tokens)? {
            CondOrExpr::Cond(body) => Ok(CondOrExpr::Cond(Test { negated, body })),
            CondOrExpr::Expr(bare) => {
                if negated {
                    drop(bare);
                    return Err(tokens.stop());
                }
                Ok(CondOrExpr::Expr(bare))
            }
        }
    }

    #[tactic(auto, unfolding(sq_grammar::specs::Cond::must_be_test))]
    fn must_be_test(&self, tokens: &mut Reader<'_>) -> Result<Test, Stop>
        requires { Nests spec.inside self.now.left (F.pre self.now.inner) (F.post self.now.inner) }
        ensures value { Reads
            (spec.must_be_test self.now.left (spec.inside self.now.left) tokens.old) result tokens.new }
        ensures shorter { OnOk result (length tokens.new < length tokens.old) }
    {
        match self.test(tokens)? {
            CondOrExpr::Cond(test) => Ok(test),
            CondOrExpr::Expr(bare) => {
                drop(bare);
                Err(tokens.stop())
            }
        }
    }

    /// The tests after the first, each after an AND.
    #[tactic(auto, using(sq_grammar::proofs::Reading::Many::loops))]
    fn more_tests(&self, tokens: &mut Reader<'_>) -> Result<Items<Test>, Stop>
        requires { Nests spec.inside self.now.left (F.pre self.now.inner) (F.post self.now.inner) }
        ensures value { Reads
            (all (behind (lexeme.Word word.And)
            (spec.must_be_test self.now.left (spec.inside self.now.left))) tokens.old) result tokens.new }
        ensures no_longer { OnOk result (length tokens.new ≤ length tokens.old) }
    {
        let mut items = Items::new(self.alloc);
        while tokens.eat_word(Word::And) {
            let test = self.must_be_test(tokens)?;
            items.push(test)?;
        }
        Ok(items)
    }

    #[tactic(auto, unfolding(sq_grammar::specs::Cond::conj))]
    fn conj(&self, tokens: &mut Reader<'_>) -> Result<CondOrExpr<Conj>, Stop>
        requires { Nests spec.inside self.now.left (F.pre self.now.inner) (F.post self.now.inner) }
        ensures value { Reads
            (spec.conj self.now.left (spec.inside self.now.left) tokens.old) result tokens.new }
        ensures shorter { OnOk result (length tokens.new < length tokens.old) }
    {
        match self.test(tokens)? {
            CondOrExpr::Cond(first) => {
                match self.more_tests(tokens) {
                    Ok(rest) => Ok(CondOrExpr::Cond(Conj { first, rest })),
                    Err(stop) => {
                        drop(first);
                        Err(stop)
                    }
                }
            }
            CondOrExpr::Expr(bare) => Ok(CondOrExpr::Expr(bare)),
        }
    }

    #[tactic(auto, unfolding(sq_grammar::specs::Cond::must_be_conj))]
    fn must_be_conj(&self, tokens: &mut Reader<'_>) -> Result<Conj, Stop>
        requires { Nests spec.inside self.now.left (F.pre self.now.inner) (F.post self.now.inner) }
        ensures value { Reads
            (spec.must_be_conj self.now.left (spec.inside self.now.left) tokens.old) result tokens.new }
        ensures shorter { OnOk result (length tokens.new < length tokens.old) }
    {
        match self.conj(tokens)? {
            CondOrExpr::Cond(conj) => Ok(conj),
            CondOrExpr::Expr(bare) => {
                drop(bare);
                Err(tokens.stop())
            }
        }
    }

    /// The AND lists after the first, each after an OR.
    #[tactic(auto, using(sq_grammar::proofs::Reading::Many::loops))]
    fn more_conjs(&self, tokens: &mut Reader<'_>) -> Result<Items<Conj>, Stop>
        requires { Nests spec.inside self.now.left (F.pre self.now.inner) (F.post self.now.inner) }
        ensures value { Reads
            (all (behind (lexeme.Word word.Or)
            (spec.must_be_conj self.now.left (spec.inside self.now.left))) tokens.old) result tokens.new }
        ensures no_longer { OnOk result (length tokens.new ≤ length tokens.old) }
    {
        let mut items = Items::new(self.alloc);
        while tokens.eat_word(Word::Or) {
            let conj = self.must_be_conj(tokens)?;
            items.push(conj)?;
        }
        Ok(items)
    }

    /// A condition, or an expression alone.
    #[tactic(auto, unfolding(sq_grammar::specs::Cond::level))]
    fn cond_or_expr(&self, tokens: &mut Reader<'_>) -> Result<CondOrExpr<Cond>, Stop>
        requires { Nests spec.inside self.now.left (F.pre self.now.inner) (F.post self.now.inner) }
        ensures value { Reads
            (spec.level self.now.left (spec.inside self.now.left) tokens.old) result tokens.new }
        ensures shorter { OnOk result (length tokens.new < length tokens.old) }
    {
        match self.conj(tokens)? {
            CondOrExpr::Cond(first) => {
                match self.more_conjs(tokens) {
                    Ok(rest) => Ok(CondOrExpr::Cond(Cond { first, rest })),
                    Err(stop) => {
                        drop(first);
                        Err(stop)
                    }
                }
            }
            CondOrExpr::Expr(bare) => Ok(CondOrExpr::Expr(bare)),
        }
    }
}

/// A condition or an expression after a bracket, which is one of the `left` that could be opened before it.
pub fn inner(alloc: Global, tokens: &mut Reader<'_>, left: usize) -> Result<CondOrExpr<Cond>, Stop>
    requires { 0 < left }
    ensures value { Reads (spec.inside left tokens.old) result tokens.new }
    ensures shorter { OnOk result (length tokens.new < length tokens.old) }
{
    Grammar {
        alloc,
        left: left - 1,
        inner,
    }
    .cond_or_expr(tokens)
}

/// A search condition in which `left` brackets may be open at once (ISO/IEC 9075:1992, 8.12).
#[tactic(auto, unfolding(sq_grammar::specs::Cond::cond))]
pub fn cond(alloc: Global, tokens: &mut Reader<'_>, left: usize) -> Result<Cond, Stop>
    ensures value { Reads (spec.cond left tokens.old) result tokens.new }
    ensures shorter { OnOk result (length tokens.new < length tokens.old) }
{
    match (Grammar { alloc, left, inner }).cond_or_expr(tokens)? {
        CondOrExpr::Cond(cond) => Ok(cond),
        CondOrExpr::Expr(bare) => {
            drop(bare);
            Err(tokens.stop())
        }
    }
}

/// A condition after a bracket, which is one of the `left` that could be opened before it.
pub fn inner_cond(alloc: Global, tokens: &mut Reader<'_>, left: usize) -> Result<Cond, Stop>
    requires { 0 < left }
    ensures value { Reads (spec.must_be_cond (spec.inside left) tokens.old) result tokens.new }
    ensures shorter { OnOk result (length tokens.new < length tokens.old) }
{
    Grammar { alloc, left, inner }.inner_cond(tokens)
}
