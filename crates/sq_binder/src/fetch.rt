//! FETCH (ISO/IEC 9075:1992, 13.3).

ghost use Rattle.std.specs.Prelude.{map};
ghost use Rattle.sq_binding.specs.Statement.{fetch_bound};
ghost use Rattle.sq_binder.specs.Binds.{Binds};
ghost use Rattle.sq_binder.specs.Scope.{declared_of};
ghost use Rattle.sq_binding.specs.SeenQuery.{fetch_seen};

use crate::Stop;
use crate::cursors::{Cursors, cursor_named};
use crate::into::targets_of;
use crate::orientation::bind_orientation;
use sq_bound::{BoundFetch, ParameterDesc};
use sq_tree::Fetch;
use std::alloc::Global;

/// Binds a FETCH (ISO/IEC 9075:1992, 13.3). It answers the first fault of the cursor's name, the
/// orientation and the targets, in this order.
pub fn bind_fetch<C: Cursors>(
    alloc: Global,
    fetch: &Fetch,
    parameters: &[ParameterDesc],
    cursors: &C,
) -> Result<BoundFetch, Stop>
    ensures { Binds fetch_seen
        (fetch_bound (map declared_of parameters.now) (C.named cursors.now) fetch.now) result }
{
    let known = cursor_named(cursors, fetch.cursor)?;
    let orientation = bind_orientation(fetch, known.cursor.scroll, parameters)?;
    let columns = known.cursor.columns.as_slice();
    let outputs = targets_of(alloc, &fetch.targets, columns, parameters)?;
    Ok(BoundFetch {
        cursor: known.number,
        orientation,
        outputs,
    })
}
