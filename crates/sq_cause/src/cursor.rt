//! Why a statement can't use its cursor (ISO/IEC 9075:1992, 13.2 to 13.4, 13.6 and 13.9).

ghost use Rattle.std.specs.Prelude.{◌≡◌, IfSome, IsSome, false, true};
ghost use Rattle.sq_session.specs.Called.{kind_for};
ghost use Rattle.sq_session.specs.State.{is_open};
ghost use Rattle.sq_cause.specs.Cursor.{IsClosedCause, IsCursorCause, IsGone, IsOpenCause, IsPositionCause, IsTargetCause, is_open_at};

use crate::cause::CursorCause;
use sq_bound::{BoundStatement, ChangeTarget, PositionedTarget};
use sq_session::{Called, CursorState, number_on};
use sq_store::{Meter, Store};

/// Why a statement can't use its cursor, if that is so.
pub(crate) fn cursor_cause<S: Store>(
    called: &Called<'_>,
    statement: &BoundStatement,
    cursors: &[CursorState],
    store: &S,
) -> Option<CursorCause>
    ensures is { IfSome result
        (IsCursorCause (kind_for called.now statement.now) cursors.now (S.content_now store.now)) }
    ensures found { (cause : CursorCause)
        → IsCursorCause (kind_for called.now statement.now) cursors.now (S.content_now store.now) cause
        → IsSome result }
{
    match statement {
        BoundStatement::Open(cursor) => open_cause(*cursor, cursors),
        BoundStatement::Fetch(fetch) => closed_cause(fetch.cursor, cursors),
        BoundStatement::Close(cursor) => closed_cause(*cursor, cursors),
        BoundStatement::Update(update) => target_cause(&update.target, cursors, store),
        BoundStatement::Delete(target) => target_cause(target, cursors, store),
        BoundStatement::Select(_)
        | BoundStatement::Insert(_)
        | BoundStatement::Commit
        | BoundStatement::Rollback => None,
    }
}

/// OPEN of a cursor that is open.
#[tactic(auto, using(crate::proofs::CursorFound::open_one))]
fn open_cause(cursor: usize, cursors: &[CursorState]) -> Option<CursorCause>
    ensures is { IfSome result (IsOpenCause cursor cursors.now) }
    ensures found { (cause : CursorCause) → IsOpenCause cursor cursors.now cause → IsSome result }
{
    if is_open_at(cursors, cursor) {
        Some(CursorCause::IsOpen(cursor))
    } else {
        None
    }
}

/// FETCH or CLOSE of a cursor that is closed.
#[tactic(auto, using(crate::proofs::CursorFound::closed_one))]
fn closed_cause(cursor: usize, cursors: &[CursorState]) -> Option<CursorCause>
    ensures is { IfSome result (IsClosedCause cursor cursors.now) }
    ensures found { (cause : CursorCause) → IsClosedCause cursor cursors.now cause → IsSome result }
{
    if is_open_at(cursors, cursor) {
        None
    } else {
        Some(CursorCause::IsClosed(cursor))
    }
}

/// Whether the cursor with this number is open.
fn is_open_at(cursors: &[CursorState], cursor: usize) -> bool
    ensures { result ≡ is_open_at cursors.now cursor }
{
    match cursors.get(cursor) {
        Some(state) => is_open(state),
        None => false,
    }
}

fn is_open(cursor: &CursorState) -> bool
    ensures { result ≡ is_open cursor.now }
{
    match cursor {
        CursorState::Closed => false,
        CursorState::Numbers(_) | CursorState::Walking(_) | CursorState::Rows(_) => true,
    }
}

fn target_cause<S: Store>(
    target: &ChangeTarget,
    cursors: &[CursorState],
    store: &S,
) -> Option<CursorCause>
    ensures is { IfSome result (IsTargetCause target.now cursors.now (S.content_now store.now)) }
    ensures found { (cause : CursorCause) → IsTargetCause target.now cursors.now (S.content_now store.now) cause
        → IsSome result }
{
    match target {
        ChangeTarget::Searched(_) => None,
        ChangeTarget::Positioned(positioned) => position_cause(positioned, cursors, store),
    }
}

/// A positioned statement needs a cursor that is on a row that is there.
fn position_cause<S: Store>(
    positioned: &PositionedTarget,
    cursors: &[CursorState],
    store: &S,
) -> Option<CursorCause>
    ensures is { IfSome result (IsPositionCause positioned.now cursors.now (S.content_now store.now)) }
    ensures found { (cause : CursorCause)
        → IsPositionCause positioned.now cursors.now (S.content_now store.now) cause → IsSome result }
{
    let cursor = positioned.cursor;
    let Some(state) = cursors.get(cursor) else {
        return Some(CursorCause::IsClosed(cursor));
    };
    if !is_open(state) {
        return Some(CursorCause::IsClosed(cursor));
    }
    match number_on(state) {
        None => Some(CursorCause::IsOnNoRow(cursor)),
        Some(number) => gone_cause(positioned, number, store),
    }
}

/// The row that the cursor is on, if it is gone.
fn gone_cause<S: Store>(
    positioned: &PositionedTarget,
    number: u64,
    store: &S,
) -> Option<CursorCause>
    ensures is { IfSome result
        (λ cause. (cause ≡ CursorCause.RowIsGone positioned.now.cursor number)
        × IsGone (S.content_now store.now) positioned.now.base number) }
    ensures found { IsGone (S.content_now store.now) positioned.now.base number → IsSome result }
{
    if positioned.base >= store.table_count() {
        return None;
    }
    match store.row(positioned.base, number, &mut Meter::new()) {
        Some(_) => None,
        None => Some(CursorCause::RowIsGone(positioned.cursor, number)),
    }
}
