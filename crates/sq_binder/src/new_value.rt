//! Values that are stored (ISO/IEC 9075:1992, 9.2 and 13.8 to 13.10).

ghost use Rattle.std.specs.Prelude.{IfOk};
ghost use Rattle.sq_binding.specs.Change.{new_value_bound};
ghost use Rattle.sq_binding.specs.Seen.{numbered_of};
ghost use Rattle.sq_binder.specs.Found.{Finds};
ghost use Rattle.sq_binder.specs.Surroundings.{surroundings};
ghost use Rattle.sq_binding.specs.There.{IsPlain};

use crate::{Counts, Surroundings, Tables, TreeResult, bind_agreeing, bring_nothing};
use sq_bound::BoundExpr;
use sq_tree::NewValue;
use sq_value::{Kind, Value};

/// A value of the kind of its column. NULL is of every kind.
pub fn bind_new_value<T: Tables>(
    value: &NewValue,
    kind: Kind,
    at: &Surroundings<'_, T>,
    before: Counts,
) -> TreeResult
    ensures finds { Finds numbered_of
        (new_value_bound (surroundings T.named at.now) kind value.now) before result }
    ensures plain { IfOk result (λ found. IsPlain found.part) }
{
    match value {
        NewValue::Expr(expr) => bind_agreeing(expr, kind, at, before),
        NewValue::Null => Ok(bring_nothing(
            at.environment.alloc,
            BoundExpr::Literal(Value::Null),
            before,
        )),
    }
}
