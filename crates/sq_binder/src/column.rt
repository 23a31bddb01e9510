//! Columns of FROM items.

ghost use Rattle.std.specs.Prelude.{◌≡◌, true};
ghost use Rattle.sq_bound.specs.Names.{is_bounded};

use sq_lex::Name;
use sq_value::Kind;

/// A column of a FROM item: its name, its position in the rows that are read, and its kind.
#[derive(Clone, Copy)]
pub struct ItemColumn {
    pub name: Name,
    pub position: usize,
    pub kind: Kind,
    pub ghost bounded: { is_bounded kind ≡ true },
}

/// A column that a reference means.
#[derive(Clone, Copy)]
pub struct FoundColumn {
    /// The number of queries further out in which its item is.
    pub depth: usize,
    /// The number of its item there.
    pub item: usize,
    pub column: ItemColumn,
    /// Whether it is a grouping column, or need not be one.
    pub is_grouped: bool,
    /// Whether no query is around its own.
    pub is_outermost: bool,
}
