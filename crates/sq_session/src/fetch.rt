//! FETCH (ISO/IEC 9075:1992, 13.3).

ghost use Rattle.std.specs.Prelude.{◌≡◌, length, true, IfSome, OnErr};
ghost use Rattle.sq_value.specs.Key.{in_columns};
ghost use Rattle.sq_bound.specs.Fits.{are_parameters};
ghost use Rattle.sq_bound.specs.Names.{are_positions};
ghost use Rattle.sq_bound.specs.declared.statement.BoundStatement.TheVariants.{Fetch};
ghost use Rattle.sq_change.specs.Statement.{KeepsTables};
ghost use Rattle.sq_expression.specs.Fault.{Meets};
ghost use Rattle.sq_session.specs.Called.{FindsCursor, IsWholeFor, MayPerform, fetching_for};
ghost use Rattle.sq_session.specs.Cursors.{is_updatable};
ghost use Rattle.sq_session.specs.Fetch.{HasCome, HasFetched, MeansPlace, come_to_number, come_to_row, come_to_walk};
ghost use Rattle.sq_session.specs.Kind.{IsDeclaredAt, over_at};
ghost use Rattle.sq_session.specs.Metered.{FetchReads, FetchReadsFrom};
ghost use Rattle.sq_session.specs.State.{state_of};
ghost use Rattle.sq_session.specs.Step.{EndsRight, MayFetch, ending};
ghost use Rattle.sq_session.specs.Target.{MayTake, MayTakeRows, row_reply};

use crate::called::Called;
use crate::cursor::{CursorState, NumbersCursor, RowsCursor, next_there, place_reached, row_at};
use crate::reply::Done;
use crate::retrieved::RetrievedRow;
use crate::target::row_retrieved;
use crate::walk::{WalkingCursor, next_of_walk};
use sq_bound::{BoundFetch, CursorBody, UpdatableQuery};
use sq_expression::{Failure, Fault};
use sq_meaning::Status;
use sq_store::{Meter, Store};
use sq_value::Row;

/// FETCH of the cursor with this number. Where retrieving ends with a status, the cursor stays on the row that it
/// reached.
#[tactic(auto, using(crate::proofs::OpenCursors::Put::put_same, crate::proofs::OpenCursors::Over::as_many))]
pub(crate) fn fetch_at<S: Store>(
    called: &Called<'_>,
    fetch: &BoundFetch,
    cursors: &mut [CursorState],
    store: &S,
    meter: &mut Meter,
) -> Result<Done, Fault>
    requires may { MayPerform called.now (Fetch fetch.now) }
    requires whole { IsWholeFor called.now (state_of (S.content_now store.now) (S.committed store.now)
        (S.key_columns store.now) (S.row_numbers store.now) cursors.old) }
    requires meter { meter.old ≡ 0 }
    ensures step { IfSome (ending result) (λ d. MayFetch
        (fetching_for called.now fetch.now) called.now.values.now
        (state_of (S.content_now store.now) (S.committed store.now)
        (S.key_columns store.now) (S.row_numbers store.now) cursors.old) d
        (state_of (S.content_now store.now) (S.committed store.now)
        (S.key_columns store.now) (S.row_numbers store.now) cursors.new)) }
    ensures err { OnErr result (cursors.new ≡ cursors.old) }
    ensures right { IfSome (ending result) EndsRight }
    ensures read { IfSome (ending result) (λ d. FetchReads
        (fetching_for called.now fetch.now)
        (state_of (S.content_now store.now) (S.committed store.now)
        (S.key_columns store.now) (S.row_numbers store.now) cursors.old) meter.new) }
{
    fetch_cursor(called, fetch, &mut cursors[fetch.cursor], store, meter)
}

/// FETCH of a cursor.
fn fetch_cursor<S: Store>(
    called: &Called<'_>,
    fetch: &BoundFetch,
    cursor: &mut CursorState,
    store: &S,
    meter: &mut Meter,
) -> Result<Done, Fault>
    requires may { MayPerform called.now (Fetch fetch.now) }
    requires tables { KeepsTables called.now.catalog.now.bases (S.content_now store.now)
        (S.key_columns store.now) }
    requires finds { FindsCursor called.now fetch.now (S.content_now store.now) cursor.old }
    requires meter { meter.old ≡ 0 }
    ensures fetched { HasFetched
        (fetching_for called.now fetch.now) called.now.values.now (S.content_now store.now)
        cursor.old result cursor.new }
    ensures err { OnErr result (cursor.new ≡ cursor.old) }
    ensures right { IfSome (ending result) EndsRight }
    ensures read { IfSome (ending result)
        (λ d. FetchReadsFrom cursor.old (fetching_for called.now fetch.now) (S.content_now store.now)
        meter.new) }
{
    match cursor {
        CursorState::Closed => Err(Fault::Status(Failure::InvalidCursorState)),
        CursorState::Numbers(numbers) => fetch_number(called, fetch, numbers, store, meter),
        CursorState::Walking(walk) => fetch_walk(called, fetch, walk, store, meter),
        CursorState::Rows(rows) => fetch_row(called, fetch, rows),
    }
}

/// FETCH of a cursor over rows.
#[tactic(auto, using(crate::proofs::Calls::Ending::no_row_right, crate::proofs::Fetching::Coming::row_taken))]
fn fetch_row(
    called: &Called<'_>,
    fetch: &BoundFetch,
    cursor: &mut RowsCursor,
) -> Result<Done, Fault>
    requires targets { are_parameters (length called.now.procedure.now.parameters) fetch.now.outputs ≡ true }
    requires place { MeansPlace called.now.values.now fetch.now.orientation }
    requires taken { MayTakeRows called.now.procedure.now.parameters fetch.now.outputs cursor.old.rows }
    ensures comes { HasCome result cursor.new
        (come_to_row (fetching_for called.now fetch.now) called.now.values.now cursor.old) }
    ensures err { OnErr result (cursor.new ≡ cursor.old) }
    ensures right { IfSome (ending result) EndsRight }
{
    let rows = cursor.rows.as_slice();
    let place = place_reached(fetch.orientation, called.values, rows.len(), cursor.place);
    let done = match row_at(rows, place) {
        None => Done::without_outputs(called.alloc, Status::NoData),
        Some(row) => {
            let row = RetrievedRow::whole(row.as_slice());
            row_retrieved(called, fetch.outputs.as_slice(), &row)?
        }
    };
    cursor.place = place;
    Ok(done)
}

/// FETCH of an updatable cursor: the next number under which there is a row now, and that row as it is now.
#[tactic(auto, using(crate::proofs::Calls::Ending::no_row_right, crate::proofs::OpenCursors::Over::numbers_updatable, crate::proofs::OpenCursors::Over::numbers_there))]
fn fetch_number<S: Store>(
    called: &Called<'_>,
    fetch: &BoundFetch,
    cursor: &mut NumbersCursor,
    store: &S,
    meter: &mut Meter,
) -> Result<Done, Fault>
    requires may { MayPerform called.now (Fetch fetch.now) }
    requires tables { KeepsTables called.now.catalog.now.bases (S.content_now store.now)
        (S.key_columns store.now) }
    requires finds { FindsCursor called.now fetch.now (S.content_now store.now)
        (CursorState.Numbers cursor.old) }
    requires meter { meter.old ≡ 0 }
    ensures comes { HasCome result cursor.new
        (come_to_number (fetching_for called.now fetch.now) (S.content_now store.now) cursor.old) }
    ensures err { OnErr result (cursor.new ≡ cursor.old) }
    ensures right { IfSome (ending result) EndsRight }
    ensures read { IfSome (ending result)
        (λ d. FetchReadsFrom (CursorState.Numbers cursor.old) (fetching_for called.now fetch.now)
        (S.content_now store.now) meter.new) }
{
    let query = updatable_query(called, fetch.cursor);
    let Some(reached) = next_there(store, cursor, meter) else {
        cursor.passed = cursor.numbers.len();
        cursor.on = None;
        return Ok(Done::without_outputs(called.alloc, Status::NoData));
    };
    match shown_row_retrieved(called, fetch, query, reached.row) {
        Ok(done) => {
            cursor.passed = reached.passed;
            cursor.on = Some(reached.number);
            Ok(done)
        }
        Err(fault) => Err(fault),
    }
}

/// FETCH of a cursor that walks.
#[tactic(auto, using(crate::proofs::Calls::Ending::no_row_right, crate::proofs::OpenCursors::Over::walk_updatable))]
fn fetch_walk<S: Store>(
    called: &Called<'_>,
    fetch: &BoundFetch,
    walk: &mut WalkingCursor,
    store: &S,
    meter: &mut Meter,
) -> Result<Done, Fault>
    requires may { MayPerform called.now (Fetch fetch.now) }
    requires tables { KeepsTables called.now.catalog.now.bases (S.content_now store.now)
        (S.key_columns store.now) }
    requires finds { FindsCursor called.now fetch.now (S.content_now store.now)
        (CursorState.Walking walk.old) }
    requires meter { meter.old ≡ 0 }
    ensures comes { HasCome result walk.new
        (come_to_walk (fetching_for called.now fetch.now) (S.content_now store.now) walk.old) }
    ensures err { OnErr result (walk.new ≡ walk.old) }
    ensures right { IfSome (ending result) EndsRight }
    ensures read { IfSome (ending result)
        (λ d. FetchReadsFrom (CursorState.Walking walk.old) (fetching_for called.now fetch.now)
        (S.content_now store.now) meter.new) }
{
    let query = updatable_query(called, fetch.cursor);
    let Some((number, row)) = next_of_walk(called, &query.target, store, walk, meter)? else {
        walk.next = walk.mark;
        walk.on = None;
        return Ok(Done::without_outputs(called.alloc, Status::NoData));
    };
    match shown_row_retrieved(called, fetch, query, row) {
        Ok(done) => {
            walk.next = number + 1;
            walk.on = Some(number);
            Ok(done)
        }
        Err(fault) => Err(fault),
    }
}

/// The query of an updatable cursor.
fn updatable_query<'a>(called: &Called<'a>, cursor: usize) -> &'a UpdatableQuery
    requires { is_updatable (over_at called.now.cursors.now cursor) ≡ true }
    ensures { IsDeclaredAt called.now.cursors.now cursor result.now }
{
    match called.cursors.get(cursor) {
        Some(declared) => match &declared.cursor.body {
            CursorBody::Updatable(query) => query,
            CursorBody::Rows(..) => unreachable!(),
        },
        None => unreachable!(),
    }
}

/// Sets the targets from a row of the base table, as a query shows it.
fn shown_row_retrieved(
    called: &Called<'_>,
    fetch: &BoundFetch,
    query: &UpdatableQuery,
    row: &Row,
) -> Result<Done, Fault>
    requires targets { are_parameters (length called.now.procedure.now.parameters) fetch.now.outputs ≡ true }
    requires columns { are_positions (length row.now) query.now.columns ≡ true }
    requires taken { MayTake called.now.procedure.now.parameters fetch.now.outputs
        (in_columns row.now query.now.columns) }
    ensures reply { Meets result
        (row_reply called.now.procedure.now.parameters fetch.now.outputs
        (in_columns row.now query.now.columns)) }
    ensures right { IfSome (ending result) EndsRight }
{
    let row = RetrievedRow::in_columns(row.as_slice(), query.columns.as_slice());
    row_retrieved(called, fetch.outputs.as_slice(), &row)
}
