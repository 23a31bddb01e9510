//! The rows of a query that stands in no other, found again.

ghost use Rattle.std.specs.Prelude.{[], IfOk, IfSome, Ok};
ghost use Rattle.sq_bound.specs.WellFormed.{IsSelect};
ghost use Rattle.sq_catalog.specs.Catalog.{column_kinds};
ghost use Rattle.sq_session.specs.Called.{HasValues, IsWholeFor, parameter_kinds};
ghost use Rattle.sq_session.specs.Schemas.{schemas_of};
ghost use Rattle.sq_session.specs.State.{state_of};
ghost use Rattle.sq_cause.specs.Query.{HasRows};

use sq_bound::BoundSpecification;
use sq_expression::Fault;
use sq_query::specification_rows;
use sq_session::{Called, Inside};
use sq_store::{Meter, Store};
use sq_value::Row;
use std::alloc::AllocError;

/// The rows of a query; nothing where it ends with a status.
pub(crate) fn rows_of_query<S: Store>(
    called: &Called<'_>,
    inside: &Inside<'_, S>,
    query: &BoundSpecification,
) -> Result<Option<Vec<Row>>, AllocError>
    requires well { IsSelect (column_kinds called.now.catalog.now) (parameter_kinds called.now) [] query.now }
    requires given { HasValues called.now }
    requires whole { IsWholeFor called.now
        (state_of (S.content_now inside.now.store.now) (S.committed inside.now.store.now)
        (S.key_columns inside.now.store.now) (S.row_numbers inside.now.store.now) inside.now.cursors.now) }
    ensures { IfOk result (λ found. IfSome found (λ rows. HasRows (schemas_of called.now.catalog.now)
        called.now.procedure.now.user called.now.values.now (S.content_now inside.now.store.now) query.now
        (Ok rows.items))) }
{
    let found = specification_rows(
        called.alloc,
        called.catalog,
        query,
        inside.store,
        called.inputs(),
        &mut Meter::new(),
    );
    match found {
        Ok(rows) => Ok(Some(rows)),
        Err(Fault::Status(_)) => Ok(None),
        Err(Fault::NoMemory) => Err(AllocError),
    }
}
