//! SELECT INTO (ISO/IEC 9075:1992, 13.5).

ghost use Rattle.std.specs.Prelude.{◌≡◌};
ghost use Rattle.sq_binder.specs.Found.{Finds};
ghost use Rattle.sq_binder.specs.Surroundings.{surroundings};
ghost use Rattle.sq_binding.specs.SeenQuery.{row_seen};
ghost use Rattle.sq_binder.specs.Row.{row_in, with_outputs};

use crate::into::targets_of;
use crate::{Counts, Found, Stop, Surroundings, Tables, bind_select};
use sq_bound::{BoundSelect, BoundSpecification, Output};
use sq_items::Items;
use sq_tree::Select;

pub type RowResult = Result<Found<BoundSelect>, Stop>;

/// Binds a select statement of one row (ISO/IEC 9075:1992, 13.5). It answers the first fault of its
/// query specification, or else of its targets.
pub fn bind_row<T: Tables>(select: &Select, at: &Surroundings<'_, T>, before: Counts) -> RowResult
    ensures { Finds row_seen (row_in at.now.environment.now.user (surroundings T.named at.now) select.now)
        before result }
{
    let environment = at.environment;
    let query = bind_select(&select.table, select.quantifier, &select.list, at, before)?;
    let outputs = targets_of(
        environment.alloc,
        &select.targets,
        query.part.columns.as_slice(),
        environment.parameters,
    );
    with_outputs(query, outputs)
}

fn with_outputs(query: Found<BoundSpecification>, outputs: Result<Items<Output>, Stop>) -> RowResult
    ensures { result ≡ with_outputs query outputs }
{
    match outputs {
        Ok(outputs) => Ok(Found {
            part: BoundSelect {
                query: query.part,
                outputs,
            },
            brought: query.brought,
        }),
        Err(stop) => {
            drop(query);
            Err(stop)
        }
    }
}
