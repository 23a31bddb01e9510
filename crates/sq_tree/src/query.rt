//! Query expressions (ISO/IEC 9075:1992, 7.10).

use crate::cond::QuerySpecification;
use sq_items::{Boxed, Items};

/// A query expression: query terms, with UNION or UNION ALL between each two.
#[cycle(query)]
#[derive(Drop)]
pub struct Query {
    pub first: QueryTerm,
    pub rest: Items<UnionTerm>,
}

/// `UNION [ ALL ]` and the query term after it.
#[cycle(query)]
#[derive(Drop)]
pub struct UnionTerm {
    /// Whether ALL is written.
    pub all: bool,
    pub term: QueryTerm,
}

/// A query term.
#[cycle(query)]
#[derive(Drop)]
pub enum QueryTerm {
    Specification(QuerySpecification),
    /// `"(" query ")"`.
    Bracketed(Boxed<Query>),
}
