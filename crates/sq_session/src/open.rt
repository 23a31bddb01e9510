//! OPEN (ISO/IEC 9075:1992, 13.2).

ghost use Rattle.std.specs.Prelude.{◌≡◌, ◌<◌, ⊤, length, IfErr, IfOk, IfSome, OnErr};
ghost use Rattle.sq_bound.specs.Fits.{IsBase};
ghost use Rattle.sq_bound.specs.WellFormed.{IsQuery, IsTarget, kinds_of_query};
ghost use Rattle.sq_bound.specs.declared.statement.BoundStatement.TheVariants.{Open};
ghost use Rattle.sq_catalog.specs.Catalog.{column_kinds};
ghost use Rattle.sq_change.specs.Statement.{KeepsTables};
ghost use Rattle.sq_query.specs.MayRead.{MayEnd};
ghost use Rattle.sq_session.specs.Called.{HasValues, HaveKeptFor, IsWholeFor, MayOpenCursor, MayPerform, opening_for, parameter_kinds};
ghost use Rattle.sq_session.specs.Cursors.{HasKept, HasListed};
ghost use Rattle.sq_session.specs.Kind.{Over, over_at, over_of, over_target};
ghost use Rattle.sq_session.specs.Metered.{OpenReads};
ghost use Rattle.sq_session.specs.Open.{HasOpened, IsMeant, NumbersAreMeant, RowsAreMeant, TargetIsMeant};
ghost use Rattle.sq_session.specs.Schemas.{schemas_of};
ghost use Rattle.sq_session.specs.State.{state_of};
ghost use Rattle.sq_session.specs.Step.{EndsRight, MayOpenClosed, ending};

use crate::called::Called;
use crate::cursor::{CursorState, NumbersCursor, RowsCursor};
use crate::reply::Done;
use crate::walk::started_walk;
use sq_bound::{BoundCursor, BoundQuery, CursorBody, SortColumn, Target};
use sq_expression::Fault;
use sq_items::Items;
use sq_query::{numbers_of, ordered_rows};
use sq_store::{Meter, Store};

/// OPEN of the cursor with this number, which is closed.
#[tactic(auto, using(crate::proofs::Calls::Ending::done_right, crate::proofs::OpenCursors::Over::as_many))]
pub(crate) fn open_closed<S: Store>(
    called: &Called<'_>,
    number: usize,
    cursors: &mut [CursorState],
    store: &S,
    meter: &mut Meter,
) -> Result<Done, Fault>
    requires may { MayPerform called.now (Open number) }
    requires whole { IsWholeFor called.now (state_of (S.content_now store.now) (S.committed store.now)
        (S.key_columns store.now) (S.row_numbers store.now) cursors.old) }
    requires meter { meter.old ≡ 0 }
    ensures kept { HaveKeptFor called.now cursors.new }
    ensures step { IfSome (ending result) (λ d. MayOpenClosed (schemas_of called.now.catalog.now)
        (opening_for called.now number) called.now.values.now
        (state_of (S.content_now store.now) (S.committed store.now)
        (S.key_columns store.now) (S.row_numbers store.now) cursors.old) d
        (state_of (S.content_now store.now) (S.committed store.now)
        (S.key_columns store.now) (S.row_numbers store.now) cursors.new)) }
    ensures err { OnErr result (cursors.new ≡ cursors.old) }
    ensures right { IfSome (ending result) EndsRight }
    ensures read { OpenReads (over_at called.now.cursors.now number) meter.new }
{
    let declared = &called.cursors[number];
    match make_open(called, &declared.cursor, store, meter) {
        Ok(cursor) => {
            cursors[number] = cursor;
            Ok(Done::successful(called.alloc))
        }
        Err(fault) => Err(fault),
    }
}

/// An open cursor, before its first row.
fn make_open<S: Store>(
    called: &Called<'_>,
    cursor: &BoundCursor,
    store: &S,
    meter: &mut Meter,
) -> Result<CursorState, Fault>
    requires cursor { MayOpenCursor called.now cursor.now }
    requires tables { KeepsTables called.now.catalog.now.bases (S.content_now store.now)
        (S.key_columns store.now) }
    requires meter { meter.old ≡ 0 }
    ensures opened { HasOpened (over_of cursor.now.body)
        (IsMeant (schemas_of called.now.catalog.now) cursor.now.body
        called.now.procedure.now.user called.now.procedure.now.parameters called.now.values.now
        (S.content_now store.now))
        called.now.values.now (S.content_now store.now) result }
    ensures kept { IfOk result (HasKept (column_kinds called.now.catalog.now) cursor.now) }
    ensures right { IfErr result MayEnd }
    ensures read { OpenReads (over_of cursor.now.body) meter.new }
{
    match &cursor.body {
        CursorBody::Rows(query, order) => {
            opened_over_rows(called, query, order.as_slice(), store, meter)
        }
        CursorBody::Updatable(updatable) => opened_over(called, &updatable.target, store, meter),
    }
}

/// A cursor over the rows of a query.
fn opened_over_rows<S: Store>(
    called: &Called<'_>,
    query: &BoundQuery,
    order: &[SortColumn],
    store: &S,
    meter: &mut Meter,
) -> Result<CursorState, Fault>
    requires asked { IsQuery (column_kinds called.now.catalog.now) (parameter_kinds called.now) query.now }
    requires given { HasValues called.now }
    requires tables { KeepsTables called.now.catalog.now.bases (S.content_now store.now)
        (S.key_columns store.now) }
    ensures opened { HasOpened Over.rows
        (RowsAreMeant (schemas_of called.now.catalog.now) query.now order.now called.now.procedure.now.user
        called.now.procedure.now.parameters called.now.values.now
        (S.content_now store.now)) called.now.values.now
        (S.content_now store.now) result }
    ensures rows { IfOk result (HasListed (kinds_of_query query.now)) }
    ensures right { IfErr result MayEnd }
{
    let found = ordered_rows(
        called.alloc,
        called.catalog,
        query,
        order,
        store,
        called.inputs(),
        meter,
    );
    match found {
        Ok(rows) => Ok(CursorState::Rows(RowsCursor {
            rows: Items::from_vec(rows),
            place: 0,
        })),
        Err(fault) => Err(fault),
    }
}

/// An updatable cursor: a walk where its conditions are quiet, else the numbers of its rows.
#[tactic(auto, using(crate::proofs::OpenCursors::Opened::target_walked, crate::proofs::OpenCursors::Opened::target_listed, crate::proofs::Calls::Metering::walk_opened, crate::proofs::Calls::Metering::numbers_found))]
fn opened_over<S: Store>(
    called: &Called<'_>,
    target: &Target,
    store: &S,
    meter: &mut Meter,
) -> Result<CursorState, Fault>
    requires tables { KeepsTables called.now.catalog.now.bases (S.content_now store.now)
        (S.key_columns store.now) }
    requires base { IsBase called.now.catalog.now.bases target.now.leaf.table }
    requires asked { IsTarget (column_kinds called.now.catalog.now)
        (parameter_kinds called.now) target.now }
    requires given { HasValues called.now }
    requires meter { meter.old ≡ 0 }
    ensures opened { HasOpened (over_target target.now)
        (TargetIsMeant (schemas_of called.now.catalog.now) target.now
        called.now.procedure.now.user called.now.values.now (S.content_now store.now)) called.now.values.now
        (S.content_now store.now) result }
    ensures right { IfErr result MayEnd }
    ensures read { OpenReads (over_target target.now) meter.new }
{
    if target.is_quiet {
        opened_walk(called, target.base, store)
    } else {
        opened_over_numbers(called, target, store, meter)
    }
}

/// A walk of a base table.
#[tactic(auto, using(crate::proofs::OpenCursors::Opened::over_walk))]
fn opened_walk<S: Store>(called: &Called<'_>, table: usize, store: &S) -> Result<CursorState, Fault>
    requires { table < length (S.content_now store.now) }
    ensures opened { HasOpened (Over.walk table) (λ opened. ⊤) called.now.values.now
        (S.content_now store.now) result }
    ensures right { IfErr result MayEnd }
{
    match started_walk(called, table, store) {
        Ok(walk) => Ok(CursorState::Walking(walk)),
        Err(_) => Err(Fault::NoMemory),
    }
}

/// A cursor over the numbers of a target's rows.
fn opened_over_numbers<S: Store>(
    called: &Called<'_>,
    target: &Target,
    store: &S,
    meter: &mut Meter,
) -> Result<CursorState, Fault>
    requires tables { KeepsTables called.now.catalog.now.bases (S.content_now store.now)
        (S.key_columns store.now) }
    requires base { IsBase called.now.catalog.now.bases target.now.leaf.table }
    requires asked { IsTarget (column_kinds called.now.catalog.now)
        (parameter_kinds called.now) target.now }
    requires given { HasValues called.now }
    ensures opened { HasOpened (Over.numbers target.now.base)
        (NumbersAreMeant (schemas_of called.now.catalog.now) target.now
        called.now.procedure.now.user called.now.values.now (S.content_now store.now)) called.now.values.now
        (S.content_now store.now) result }
    ensures right { IfErr result MayEnd }
{
    let found = numbers_of(
        called.alloc,
        called.catalog,
        target,
        store,
        called.inputs(),
        meter,
    );
    match found {
        Ok(numbers) => Ok(CursorState::Numbers(NumbersCursor {
            table: target.base,
            numbers: Items::from_vec(numbers),
            passed: 0,
            on: None,
        })),
        Err(fault) => Err(fault),
    }
}
