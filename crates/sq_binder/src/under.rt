//! The rows and columns under a table that may be changed.

ghost use Rattle.std.specs.Prelude.{◌≡◌, ◌||◌, length, nat_eq, nat_lt, not, true};
ghost use Rattle.std.specs.List.{list_all};

use sq_bound::{Column, Leaf, Shared};

/// A table that may be changed: the rows of a base table under it, and its columns. Each column comes with the column of
/// the base table that it is.
#[derive(Clone, Copy)]
pub struct UnderTable<'a> {
    pub leaf: &'a Shared<Leaf>,
    pub columns: &'a [Column],
    /// Whether the table is the base table itself, with no view in between.
    pub is_base: bool,
    pub ghost plain: { (not is_base || nat_eq (length leaf.now.conditions) 0) ≡ true },
    pub ghost placed: { list_all (λ c. nat_lt c.leaf_column (length leaf.now.table.columns)) columns.now
        ≡ true },
}
