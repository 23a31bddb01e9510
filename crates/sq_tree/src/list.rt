//! Lists with commas.

use sq_items::Items;

/// One item or more, with a comma between each two.
#[derive(Drop)]
pub struct CommaList<T> {
    pub first: T,
    pub rest: Items<T>,
}
