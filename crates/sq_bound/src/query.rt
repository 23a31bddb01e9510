//! Query expressions and cursors with their names as places.

ghost use Rattle.std.specs.Prelude.{◌≡◌, ◌&&◌, true};
ghost use Rattle.sq_bound.specs.Keyed.{is_named_by, is_shortest_of};
ghost use Rattle.sq_bound.specs.Names.{option_all};
ghost use Rattle.sq_bound.specs.Quiet.{are_quiet_conds, is_quiet_cond};

use crate::condition::{BoundCond, BoundSpecification, ResultColumn, TablePlace};
use crate::names::Leaf;
use crate::shared::Shared;
use sq_items::{Boxed, Items};
use sq_lex::Name;

/// A query expression (ISO/IEC 9075:1992, 7.10): a term, and further ones that are joined to it from left to right.
#[cycle(bound_query)]
#[derive(Drop)]
pub struct BoundQuery {
    pub first: BoundTerm,
    pub rest: Items<BoundUnion>,
    pub columns: Items<ResultColumn>,
}

/// UNION or UNION ALL, the term after it, and the columns to which both sides are brought.
#[cycle(bound_query)]
#[derive(Drop)]
pub struct BoundUnion {
    pub all: bool,
    pub term: BoundTerm,
    pub columns: Items<ResultColumn>,
}

/// A query term.
#[cycle(bound_query)]
#[derive(Drop)]
pub enum BoundTerm {
    Specification(BoundSpecification),
    Bracketed(Boxed<BoundQuery>),
}

/// A sort key (13.1): a result column, counted from 0, and its direction.
#[derive(Clone, Copy, Debug, PartialEq, Eq)]
pub struct SortColumn {
    pub column: usize,
    pub descending: bool,
}

/// The rows of a base table that a statement or cursor may change. They meet the conditions of the views in between, and
/// then its own.
#[derive(Drop)]
pub struct Target {
    /// The table or view that is named.
    pub table: TablePlace,
    /// The place of the base table under it.
    pub base: usize,
    pub leaf: Shared<Leaf>,
    /// The condition on a row of the base table.
    pub condition: Option<BoundCond>,
    /// The key of the base table whose columns the condition's first tests compare, each with a literal or a parameter. It
    /// has the fewest columns, if there are several. The condition is one term, and no view is in between.
    pub key: Option<usize>,
    /// Whether the truth of no condition, the views' included, is ever a fault.
    pub is_quiet: bool,
    ghost is_under: { base ≡ leaf.table.place },
    ghost keyed: { option_all (is_named_by leaf condition) key ≡ true },
    ghost shortest: { option_all (is_shortest_of leaf condition) key ≡ true },
    ghost quiet: { is_quiet ≡ (are_quiet_conds leaf.conditions && option_all is_quiet_cond condition) },
}

/// The target of an updatable query, and the columns of the base table that its select list names.
#[derive(Drop)]
pub struct UpdatableQuery {
    pub target: Target,
    pub columns: Items<usize>,
}

/// A cursor (13.1).
#[derive(Drop)]
pub struct BoundCursor {
    pub insensitive: bool,
    pub scroll: bool,
    /// The owner and the name of the table that an updatable cursor is over.
    pub table: Option<(Name, Name)>,
    pub columns: Items<ResultColumn>,
    pub body: CursorBody,
}

/// The rows that a cursor goes over.
#[derive(Drop)]
pub enum CursorBody {
    /// The rows of a query, in the order of the sort keys.
    Rows(BoundQuery, Items<SortColumn>),
    /// The rows of a base table.
    Updatable(UpdatableQuery),
}
