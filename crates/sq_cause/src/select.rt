//! Why a SELECT INTO sets no target, or only a part of one (ISO/IEC 9075:1992, 13.5).

ghost use Rattle.std.specs.Prelude.{IfOk, IfSome};
ghost use Rattle.sq_bound.specs.declared.statement.BoundStatement.TheVariants.{Select};
ghost use Rattle.sq_session.specs.Called.{IsWholeFor, MayPerform, kind_for, selecting_for};
ghost use Rattle.sq_session.specs.Schemas.{schemas_of};
ghost use Rattle.sq_session.specs.State.{state_of};
ghost use Rattle.sq_cause.specs.Select.{IsOfQuery, IsOfRows, IsSelectCause};

use crate::cause::SelectCause;
use crate::query_rows::rows_of_query;
use crate::target::{Shown, row_fault};
use sq_bound::{BoundSelect, BoundStatement};
use sq_session::{Called, Inside};
use sq_store::Store;
use sq_value::Row;
use std::alloc::AllocError;

/// Why a SELECT INTO sets no target, or only a part of one.
pub(crate) fn select_cause<S: Store>(
    called: &Called<'_>,
    inside: &Inside<'_, S>,
    statement: &BoundStatement,
) -> Result<Option<SelectCause>, AllocError>
    requires may { MayPerform called.now statement.now }
    requires whole { IsWholeFor called.now
        (state_of (S.content_now inside.now.store.now) (S.committed inside.now.store.now)
        (S.key_columns inside.now.store.now) (S.row_numbers inside.now.store.now) inside.now.cursors.now) }
    ensures { IfOk result (λ found. IfSome found (IsSelectCause (schemas_of called.now.catalog.now)
        (kind_for called.now statement.now) called.now.values.now (S.content_now inside.now.store.now))) }
{
    match statement {
        BoundStatement::Select(select) => cause_of_query(called, inside, select),
        _ => Ok(None),
    }
}

/// The cause of a select statement.
fn cause_of_query<S: Store>(
    called: &Called<'_>,
    inside: &Inside<'_, S>,
    select: &BoundSelect,
) -> Result<Option<SelectCause>, AllocError>
    requires may { MayPerform called.now (Select select.now) }
    requires whole { IsWholeFor called.now
        (state_of (S.content_now inside.now.store.now) (S.committed inside.now.store.now)
        (S.key_columns inside.now.store.now) (S.row_numbers inside.now.store.now) inside.now.cursors.now) }
    ensures { IfOk result (λ found. IfSome found (IsOfQuery (schemas_of called.now.catalog.now)
        (selecting_for called.now select.now) called.now.values.now (S.content_now inside.now.store.now))) }
{
    match rows_of_query(called, inside, &select.query)? {
        None => Ok(None),
        Some(rows) => {
            let found = cause_of_rows(called, select, rows.as_slice());
            drop(rows);
            found
        }
    }
}

/// What is to be said of the rows of its query.
fn cause_of_rows(
    called: &Called<'_>,
    select: &BoundSelect,
    rows: &[Row],
) -> Result<Option<SelectCause>, AllocError>
    ensures { IfOk result (λ found. IfSome found (IsOfRows (selecting_for called.now select.now) rows.now)) }
{
    match rows {
        [] => Ok(Some(SelectCause::NoRow)),
        [row] => {
            let shown = Shown {
                row: row.as_slice(),
                whole: true,
                columns: &[],
            };
            match row_fault(
                called.alloc,
                called.procedure.parameters.as_slice(),
                select.outputs.as_slice(),
                shown,
            )? {
                Some(target) => Ok(Some(SelectCause::Target(target))),
                None => Ok(None),
            }
        }
        _ => Ok(Some(SelectCause::SeveralRows)),
    }
}
