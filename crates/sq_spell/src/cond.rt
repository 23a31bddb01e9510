//! The spelling of search conditions and query specifications.

ghost use Rattle.std.specs.Prelude.{◌≡◌, ◌∷◌, [], fold, OnOk};
ghost use Rattle.sq_lex.specs.declared.lexeme.Lexeme.TheVariants as lexeme;
ghost use Rattle.sq_lex.specs.declared.word.Word.TheVariants as word;
ghost use Rattle.sq_tree.specs.Tree.{bracketed, optional};
ghost use Rattle.sq_tree.specs.Cond as spec;

use crate::row::{Behind, IfWritten};
use crate::sink::Sink;
use crate::tree::Tree;
use sq_lex::{Symbol, Word};
use sq_tree::{
    Body, Comparison, Cond, Conj, Correlation, Quantifier, QuerySpecification, SelectList,
    TableExpression, TableReference, Tail, Test,
};

impl Tree for Comparison {
    ghost tokens = { λ part. spec.comparison_token part ∷ [] };

    fn walk<S: Sink>(&self, sink: &mut S) -> Result<(), S::Stop> {
        let symbol = match self {
            Comparison::Equal => Symbol::Equal,
            Comparison::NotEqual => Symbol::NotEqual,
            Comparison::Less => Symbol::Less,
            Comparison::Greater => Symbol::Greater,
            Comparison::LessOrEqual => Symbol::LessOrEqual,
            Comparison::GreaterOrEqual => Symbol::GreaterOrEqual,
        };
        symbol.walk(sink)
    }
}

impl Tree for Quantifier {
    ghost tokens = { λ part. spec.compared_token part ∷ [] };

    fn walk<S: Sink>(&self, sink: &mut S) -> Result<(), S::Stop> {
        let word = match self {
            Quantifier::All => Word::All,
            Quantifier::Any => Word::Any,
            Quantifier::Some => Word::Some,
        };
        word.walk(sink)
    }
}

impl Tree for Correlation {
    ghost tokens = { spec.correlation_tokens };

    fn walk<S: Sink>(&self, sink: &mut S) -> Result<(), S::Stop> {
        (IfWritten(self.as_word, Word::As), self.name).walk(sink)
    }
}

impl Tree for TableReference {
    ghost tokens = { spec.table_reference_tokens };

    fn walk<S: Sink>(&self, sink: &mut S) -> Result<(), S::Stop> {
        (&self.table, &self.correlation).walk(sink)
    }
}

impl Tree for SelectList {
    ghost tokens = { spec.select_list_tokens };

    fn walk<S: Sink>(&self, sink: &mut S) -> Result<(), S::Stop> {
        match self {
            SelectList::Star => Symbol::Star.walk(sink),
            SelectList::Items(items) => items.walk(sink),
        }
    }
}

impl Tree for Cond {
    ghost tokens = { spec.cond_tokens };

    #[cycle(walk_cond)]
    #[tactic(auto, using(sq_tree::proofs::CondLaws::cond_tokens_levels, std::proofs::lemmas::Grind::common_steps))]
    fn walk<S: Sink>(&self, sink: &mut S) -> Result<(), S::Stop> {
        self.first.walk(sink)?;
        for conj in self.rest.as_slice() {
            Word::Or.walk(sink)?;
            conj.walk(sink)?;
        }
        Ok(())
    }
}

impl Tree for Conj {
    ghost tokens = { spec.conj_tokens };

    #[cycle(walk_cond)]
    #[tactic(auto, using(sq_tree::proofs::CondLaws::cond_tokens_levels, std::proofs::lemmas::Grind::common_steps))]
    fn walk<S: Sink>(&self, sink: &mut S) -> Result<(), S::Stop> {
        self.first.walk(sink)?;
        for test in self.rest.as_slice() {
            Word::And.walk(sink)?;
            test.walk(sink)?;
        }
        Ok(())
    }
}

impl Tree for Test {
    ghost tokens = { spec.test_tokens };

    #[cycle(walk_cond)]
    #[tactic(auto, using(sq_tree::proofs::CondLaws::cond_tokens_levels, std::proofs::lemmas::Grind::common_steps))]
    fn walk<S: Sink>(&self, sink: &mut S) -> Result<(), S::Stop> {
        IfWritten(self.negated, Word::Not).walk(sink)?;
        self.body.walk(sink)
    }
}

impl Tree for Body {
    ghost tokens = { spec.body_tokens };

    #[cycle(walk_cond)]
    #[tactic(auto, using(sq_tree::proofs::CondLaws::cond_tokens_levels, std::proofs::lemmas::Grind::common_steps))]
    fn walk<S: Sink>(&self, sink: &mut S) -> Result<(), S::Stop> {
        match self {
            Body::Predicate(left, tail) => {
                left.walk(sink)?;
                tail.walk(sink)
            }
            Body::Exists(query) => {
                Word::Exists.walk(sink)?;
                walk_subquery(query.get(), sink)
            }
            Body::Bracketed(cond) => {
                Symbol::Open.walk(sink)?;
                cond.get().walk(sink)?;
                Symbol::Close.walk(sink)
            }
        }
    }
}

impl Tree for Tail {
    ghost tokens = { spec.tail_tokens };

    #[cycle(walk_cond)]
    #[tactic(auto, using(sq_tree::proofs::CondLaws::cond_tokens_levels, std::proofs::lemmas::Grind::common_steps))]
    fn walk<S: Sink>(&self, sink: &mut S) -> Result<(), S::Stop> {
        match self {
            Tail::Compare(operator, right) => (operator, right).walk(sink),
            Tail::CompareQuery(operator, quantifier, query) => {
                (operator, quantifier).walk(sink)?;
                walk_subquery(query.get(), sink)
            }
            Tail::Between(negated, low, high) => {
                (
                    IfWritten(*negated, Word::Not),
                    Word::Between,
                    low,
                    (Word::And, high),
                )
                    .walk(sink)
            }
            Tail::InQuery(negated, query) => {
                (IfWritten(*negated, Word::Not), Word::In).walk(sink)?;
                walk_subquery(query.get(), sink)
            }
            Tail::InList(negated, values) => {
                (
                    IfWritten(*negated, Word::Not),
                    Word::In,
                    (Symbol::Open, values, Symbol::Close),
                )
                    .walk(sink)
            }
            Tail::Like(negated, pattern, escape) => {
                (
                    IfWritten(*negated, Word::Not),
                    Word::Like,
                    pattern,
                    Behind(Word::Escape, escape),
                )
                    .walk(sink)
            }
            Tail::Null(negated) => (Word::Is, IfWritten(*negated, Word::Not), Word::Null).walk(
                sink,
            ),
        }
    }
}

impl Tree for TableExpression {
    ghost tokens = { spec.table_expression_tokens };

    #[cycle(walk_cond)]
    #[tactic(auto, using(sq_tree::proofs::CondLaws::cond_tokens_levels, std::proofs::lemmas::Grind::common_steps))]
    fn walk<S: Sink>(&self, sink: &mut S) -> Result<(), S::Stop> {
        (Word::From, &self.from).walk(sink)?;
        walk_clause(Word::Where, &self.where_clause, sink)?;
        Behind((Word::Group, Word::By), &self.group_by).walk(sink)?;
        walk_clause(Word::Having, &self.having, sink)
    }
}

impl Tree for QuerySpecification {
    ghost tokens = { spec.query_specification_tokens };

    #[cycle(walk_cond)]
    #[tactic(auto, using(sq_tree::proofs::CondLaws::cond_tokens_levels, std::proofs::lemmas::Grind::common_steps))]
    fn walk<S: Sink>(&self, sink: &mut S) -> Result<(), S::Stop> {
        (Word::Select, &self.quantifier, &self.list).walk(sink)?;
        self.table.walk(sink)
    }
}

/// Writes a query specification in brackets.
#[cycle(walk_cond)]
#[tactic(auto, using(sq_tree::proofs::CondLaws::cond_tokens_levels, std::proofs::lemmas::Grind::common_steps))]
fn walk_subquery<S: Sink>(query: &QuerySpecification, sink: &mut S) -> Result<(), S::Stop>
    ensures { OnOk result (sink.new
        ≡ fold S.after sink.old (bracketed (spec.query_specification_tokens query.now))) }
{
    Symbol::Open.walk(sink)?;
    query.walk(sink)?;
    Symbol::Close.walk(sink)
}

/// Writes a word and the condition after it, if there is one.
#[cycle(walk_cond)]
#[tactic(auto, using(sq_tree::proofs::CondLaws::cond_tokens_levels, std::proofs::lemmas::Grind::common_steps))]
fn walk_clause<S: Sink>(word: Word, cond: &Option<Cond>, sink: &mut S) -> Result<(), S::Stop>
    ensures { OnOk result (sink.new
        ≡ fold S.after sink.old (optional (λ c. lexeme.Word word ∷ spec.cond_tokens c) cond.now)) }
{
    match cond {
        Some(cond) => {
            word.walk(sink)?;
            cond.walk(sink)
        }
        None => Ok(()),
    }
}
