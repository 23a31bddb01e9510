//! The spelling of query expressions.

ghost use Rattle.sq_tree.specs.Query as spec;

use crate::row::IfWritten;
use crate::sink::Sink;
use crate::tree::Tree;
use sq_lex::{Symbol, Word};
use sq_tree::{Query, QueryTerm, UnionTerm};

impl Tree for Query {
    ghost tokens = { spec.query_tokens };

    #[cycle(walk_query)]
    #[tactic(auto, using(sq_tree::proofs::QueryLaws::query_tokens_levels, std::proofs::lemmas::Grind::common_steps))]
    fn walk<S: Sink>(&self, sink: &mut S) -> Result<(), S::Stop> {
        self.first.walk(sink)?;
        for union in self.rest.as_slice() {
            union.walk(sink)?;
        }
        Ok(())
    }
}

impl Tree for UnionTerm {
    ghost tokens = { spec.union_term_tokens };

    #[cycle(walk_query)]
    #[tactic(auto, using(sq_tree::proofs::QueryLaws::query_tokens_levels, std::proofs::lemmas::Grind::common_steps))]
    fn walk<S: Sink>(&self, sink: &mut S) -> Result<(), S::Stop> {
        (Word::Union, IfWritten(self.all, Word::All)).walk(sink)?;
        self.term.walk(sink)
    }
}

impl Tree for QueryTerm {
    ghost tokens = { spec.query_term_tokens };

    #[cycle(walk_query)]
    #[tactic(auto, using(sq_tree::proofs::QueryLaws::query_tokens_levels, std::proofs::lemmas::Grind::common_steps))]
    fn walk<S: Sink>(&self, sink: &mut S) -> Result<(), S::Stop> {
        match self {
            QueryTerm::Specification(specification) => specification.walk(sink),
            QueryTerm::Bracketed(query) => {
                Symbol::Open.walk(sink)?;
                query.get().walk(sink)?;
                Symbol::Close.walk(sink)
            }
        }
    }
}
