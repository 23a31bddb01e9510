//! Lists whose elements are bound in turn.

ghost use Rattle.sq_binder.specs.InTurn.{Grows};

use crate::{Stop, push_item};
use sq_items::Items;

/// The elements of a list so far, and the next one.
pub fn grow_list<T: Drop>(list: Items<T>, next: Result<T, Stop>) -> Result<Items<T>, Stop>
    ensures { Grows list next result }
{
    match next {
        Ok(next) => Ok(push_item(list, next)?),
        Err(stop) => {
            drop(list);
            Err(stop)
        }
    }
}
