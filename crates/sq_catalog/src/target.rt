//! The tables that a reference is between (ISO/IEC 9075:1992, 11.8).

ghost use Rattle.std.specs.Prelude.{◌≡◌, nat_lt, true, length};
ghost use Rattle.std.specs.List.{list_all};
ghost use Rattle.sq_bound.specs.Names.{are_positions, option_all};

use crate::key::Keys;
use sq_bound::{BaseTable, Column, Shared};
use sq_items::Items;

/// A base table that is referenced.
#[derive(Clone, Copy)]
pub(crate) struct Target<'a> {
    pub place: usize,
    pub columns: &'a [Column],
    pub keys: &'a [Items<usize>],
    pub primary: Option<usize>,
    ghost primary_there: { option_all (λ key. nat_lt key (length keys.now)) primary ≡ true },
    ghost keyed: { list_all (are_positions (length columns.now)) keys.now ≡ true },
}

/// The table that is being defined behind others, when its columns and keys are known.
#[derive(Clone, Copy)]
pub(crate) struct OwnKeys<'a> {
    pub before: &'a [Shared<BaseTable>],
    pub columns: &'a [Column],
    pub keys: &'a Keys,
    ghost keyed: { list_all (are_positions (length columns.now)) keys.now.columns ≡ true },
}
