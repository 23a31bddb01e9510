//! Value expressions that are bound.

ghost use Rattle.std.specs.Prelude.{◌≡◌, true};
ghost use Rattle.sq_bound.specs.Names.{is_bounded};

use crate::findings::Findings;
use crate::stop::Stop;
use sq_bound::{BoundExpr, SetFunctionCall};
use sq_items::Items;
use sq_value::Kind;
use std::alloc::Global;

pub type ExprResult = Result<Bound, Stop>;

/// A bound value expression, the kind of its values, and its additions to the query.
#[derive(Drop)]
pub struct Bound {
    pub expr: BoundExpr,
    pub kind: Kind,
    /// The set functions that it adds to its query, in the order of the text.
    pub calls: Items<SetFunctionCall>,
    /// Whether computing one of these set functions may answer a status.
    pub calls_can_fail: bool,
    pub findings: Findings,
    pub ghost bounded: { is_bounded kind ≡ true },
}

impl Bound {
    ghost use Rattle.sq_binding.specs.Expression.{plain};
    ghost use Rattle.sq_binding.specs.Seen.{numbered_of};
    ghost use Rattle.sq_binder.specs.Bound.{bound_of, findings_of};

    /// A part without set functions.
    pub fn plain(alloc: Global, expr: BoundExpr, kind: Kind, findings: Findings) -> Bound
        requires { is_bounded kind ≡ true }
        ensures { bound_of result ≡ plain (numbered_of expr) kind (findings_of findings) }
    {
        Bound {
            expr,
            kind,
            calls: Items::new(alloc),
            calls_can_fail: false,
            findings,
        }
    }
}
