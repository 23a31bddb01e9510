//! The part of a predicate after its first expression.

ghost use Rattle.std.specs.Prelude.{◌≡◌, ◌<◌, ◌≤◌, length, IfOk, OnOk, OnSome};
ghost use Rattle.sq_lex.specs.declared.lexeme.Lexeme.TheVariants as lexeme;
ghost use Rattle.sq_lex.specs.declared.word.Word.TheVariants as word;
ghost use Rattle.sq_grammar.specs.Cond as spec;
ghost use Rattle.sq_grammar.specs.Expr as expressions;
ghost use Rattle.sq_phrase.specs.Nests.{Nests};
ghost use Rattle.sq_grammar.specs.Reading.{behind, one_if_any};
ghost use Rattle.sq_grammar.specs.Reads.{Reads};

use crate::condition::Grammar;
use crate::expression::expr;
use sq_grammar::{CondOrExpr, Reader, Stop};
use sq_items::Boxed;
use sq_lex::{Lexeme, Symbol, Word};
use sq_tree::{Comparison, Cond, Expr, Quantifier, Tail};
use std::alloc::Global;

fn comparison_of(lexeme: &Lexeme) -> Option<Comparison>
    ensures { result ≡ spec.comparison_of lexeme.now }
{
    match lexeme {
        Lexeme::Symbol(Symbol::Equal) => Some(Comparison::Equal),
        Lexeme::Symbol(Symbol::NotEqual) => Some(Comparison::NotEqual),
        Lexeme::Symbol(Symbol::Less) => Some(Comparison::Less),
        Lexeme::Symbol(Symbol::Greater) => Some(Comparison::Greater),
        Lexeme::Symbol(Symbol::LessOrEqual) => Some(Comparison::LessOrEqual),
        Lexeme::Symbol(Symbol::GreaterOrEqual) => Some(Comparison::GreaterOrEqual),
        _ => None,
    }
}

#[tactic(auto, unfolding(sq_grammar::specs::Reading::one_if_any))]
fn comparison_if_any(tokens: &mut Reader<'_>) -> Option<Comparison>
    ensures value { one_if_any spec.comparison_of tokens.old ≡ Ok (result, tokens.new) }
    ensures shorter { OnSome result (length tokens.new < length tokens.old) }
    ensures no_longer { length tokens.new ≤ length tokens.old }
{
    let comparison = comparison_of(tokens.first()?)?;
    tokens.skip();
    Some(comparison)
}

fn compared_if_any(tokens: &mut Reader<'_>) -> Option<Quantifier>
    ensures value { spec.compared_if_any tokens.old ≡ Ok (result, tokens.new) }
    ensures no_longer { length tokens.new ≤ length tokens.old }
{
    if tokens.eat_word(Word::All) {
        return Some(Quantifier::All);
    }
    if tokens.eat_word(Word::Any) {
        return Some(Quantifier::Any);
    }
    if tokens.eat_word(Word::Some) {
        return Some(Quantifier::Some);
    }
    None
}

/// Whether a bracket and SELECT come next.
fn sees_query(tokens: &Reader<'_>) -> bool
    ensures { result ≡ spec.sees_query tokens.now }
{
    tokens.sees(Symbol::Open) && tokens.sees_word_after(Word::Select)
}

/// `IS [ NOT ] NULL`, whose IS is read already.
#[tactic(auto, unfolding(sq_grammar::specs::Cond::null_tail))]
fn null_tail(tokens: &mut Reader<'_>) -> Result<Tail, Stop>
    ensures value { Reads (spec.null_tail tokens.old) result tokens.new }
    ensures no_longer { OnOk result (length tokens.new ≤ length tokens.old) }
{
    let negated = tokens.eat_word(Word::Not);
    tokens.expect_word(Word::Null)?;
    Ok(Tail::Null(negated))
}

/// An expression, on the heap: the second one that only some predicates have.
fn boxed_expr(alloc: Global, tokens: &mut Reader<'_>, left: usize) -> Result<Boxed<Expr>, Stop>
    ensures value { Reads (expressions.expr left tokens.old) result tokens.new }
    ensures shorter { OnOk result (length tokens.new < length tokens.old) }
{
    let value = expr(alloc, tokens, left)?;
    Ok(Boxed::new(alloc, value)?)
}

/// `[ ESCAPE expr ]`.
fn escape(alloc: Global, tokens: &mut Reader<'_>, left: usize) -> Result<Option<Boxed<Expr>>, Stop>
    ensures value { Reads
        (behind (lexeme.Word word.Escape) (expressions.expr left) tokens.old) result tokens.new }
    ensures no_longer { OnOk result (length tokens.new ≤ length tokens.old) }
{
    if !tokens.eat_word(Word::Escape) {
        return Ok(None);
    }
    let escape = boxed_expr(alloc, tokens, left)?;
    Ok(Some(escape))
}

impl<F: Fn(Global, &mut Reader<'_>, usize) -> Result<CondOrExpr<Cond>, Stop>> Grammar<F> {
    /// The part after a comparison operator.
    #[tactic(auto, unfolding(sq_grammar::specs::Cond::comparison_tail))]
    fn comparison_tail(&self, tokens: &mut Reader<'_>, comparison: Comparison) -> Result<Tail, Stop>
        requires { Nests spec.inside self.now.left (F.pre self.now.inner) (F.post self.now.inner) }
        ensures value { Reads
            (spec.comparison_tail self.now.left (spec.inside self.now.left) comparison tokens.old) result
            tokens.new }
        ensures no_longer { OnOk result (length tokens.new ≤ length tokens.old) }
    {
        let compared = compared_if_any(tokens);
        if compared.is_some() || sees_query(tokens) {
            let query = self.subquery(tokens)?;
            let query = Boxed::new(self.alloc, query)?;
            return Ok(Tail::CompareQuery(comparison, compared, query));
        }
        let right = expr(self.alloc, tokens, self.left)?;
        Ok(Tail::Compare(comparison, right))
    }

    /// `BETWEEN expr AND expr`, whose first word is read already.
    #[tactic(auto, unfolding(sq_grammar::specs::Cond::between_tail))]
    fn between_tail(&self, tokens: &mut Reader<'_>, negated: bool) -> Result<Tail, Stop>
        ensures value { Reads
            (spec.between_tail self.now.left (spec.inside self.now.left) negated tokens.old) result
            tokens.new }
        ensures no_longer { OnOk result (length tokens.new ≤ length tokens.old) }
    {
        let low = expr(self.alloc, tokens, self.left)?;
        if let Err(stop) = tokens.expect_word(Word::And) {
            drop(low);
            return Err(stop);
        }
        match boxed_expr(self.alloc, tokens, self.left) {
            Ok(high) => Ok(Tail::Between(negated, low, high)),
            Err(stop) => {
                drop(low);
                Err(stop)
            }
        }
    }

    /// The part after IN.
    #[tactic(auto, unfolding(sq_grammar::specs::Cond::in_tail))]
    fn in_tail(&self, tokens: &mut Reader<'_>, negated: bool) -> Result<Tail, Stop>
        requires { Nests spec.inside self.now.left (F.pre self.now.inner) (F.post self.now.inner) }
        ensures value { Reads
            (spec.in_tail self.now.left (spec.inside self.now.left) negated tokens.old) result tokens.new }
        ensures no_longer { OnOk result (length tokens.new ≤ length tokens.old) }
    {
        tokens.open(self.left)?;
        if tokens.sees_word(Word::Select) {
            let query = self.inner_query(tokens)?;
            if let Err(stop) = tokens.expect(Symbol::Close) {
                drop(query);
                return Err(stop);
            }
            let query = Boxed::new(self.alloc, query)?;
            return Ok(Tail::InQuery(negated, query));
        }
        let values = self.inner_exprs(tokens)?;
        match tokens.expect(Symbol::Close) {
            Ok(()) => Ok(Tail::InList(negated, values)),
            Err(stop) => {
                drop(values);
                Err(stop)
            }
        }
    }

    /// `LIKE expr [ ESCAPE expr ]`, whose first word is read already.
    #[tactic(auto, unfolding(sq_grammar::specs::Cond::like_tail))]
    fn like_tail(&self, tokens: &mut Reader<'_>, negated: bool) -> Result<Tail, Stop>
        ensures value { Reads
            (spec.like_tail self.now.left (spec.inside self.now.left) negated tokens.old) result tokens.new }
        ensures no_longer { OnOk result (length tokens.new ≤ length tokens.old) }
    {
        let pattern = expr(self.alloc, tokens, self.left)?;
        match escape(self.alloc, tokens, self.left) {
            Ok(escape) => Ok(Tail::Like(negated, pattern, escape)),
            Err(stop) => {
                drop(pattern);
                Err(stop)
            }
        }
    }

    /// The part with BETWEEN, IN or LIKE, if it comes, and NOT before it if it is written.
    #[tactic(auto, unfolding(sq_grammar::specs::Cond::negatable_tail))]
    fn negatable_tail(&self, tokens: &mut Reader<'_>) -> Result<Option<Tail>, Stop>
        requires { Nests spec.inside self.now.left (F.pre self.now.inner) (F.post self.now.inner) }
        ensures value { Reads
            (spec.negatable_tail self.now.left (spec.inside self.now.left) tokens.old) result tokens.new }
        ensures no_longer { OnOk result (length tokens.new ≤ length tokens.old) }
    {
        let negated = tokens.eat_word(Word::Not);
        if tokens.eat_word(Word::Between) {
            let tail = self.between_tail(tokens, negated)?;
            return Ok(Some(tail));
        }
        if tokens.eat_word(Word::In) {
            let tail = self.in_tail(tokens, negated)?;
            return Ok(Some(tail));
        }
        if tokens.eat_word(Word::Like) {
            let tail = self.like_tail(tokens, negated)?;
            return Ok(Some(tail));
        }
        if negated {
            return Err(tokens.stop());
        }
        Ok(None)
    }

    /// The part of a predicate after its first expression, if it comes.
    #[tactic(auto, unfolding(sq_grammar::specs::Cond::tail))]
    pub fn tail(&self, tokens: &mut Reader<'_>) -> Result<Option<Tail>, Stop>
        requires { Nests spec.inside self.now.left (F.pre self.now.inner) (F.post self.now.inner) }
        ensures value { Reads
            (spec.tail self.now.left (spec.inside self.now.left) tokens.old) result tokens.new }
        ensures no_longer { OnOk result (length tokens.new ≤ length tokens.old) }
    {
        if let Some(comparison) = comparison_if_any(tokens) {
            let tail = self.comparison_tail(tokens, comparison)?;
            return Ok(Some(tail));
        }
        if tokens.eat_word(Word::Is) {
            let tail = null_tail(tokens)?;
            return Ok(Some(tail));
        }
        self.negatable_tail(tokens)
    }
}
