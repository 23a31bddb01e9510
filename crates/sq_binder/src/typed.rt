//! Value expressions of known kinds.

ghost use Rattle.std.specs.Prelude.{◌≡◌, true};
ghost use Rattle.sq_bound.specs.Names.{is_bounded};

use sq_bound::BoundExpr;
use sq_value::Kind;

/// A value expression, and the kind of its values.
#[derive(Drop)]
pub struct Typed {
    pub expr: BoundExpr,
    pub kind: Kind,
    pub ghost bounded: { is_bounded kind ≡ true },
}
