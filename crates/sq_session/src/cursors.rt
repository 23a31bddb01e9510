//! The cursors of a session, by their numbers.

ghost use Rattle.std.specs.Prelude.{◌≡◌, ◌<◌, length, replicate, slice_index_or, slice_set, IfOk};
ghost use Rattle.sq_session.specs.Cursors.{AreThere, put_all};
ghost use Rattle.sq_session.specs.State.{all_closed, off_row};

use crate::cursor::CursorState;
use crate::walk_list::ListedCursor;
use std::alloc::{AllocError, Global};

/// `count` closed cursors.
pub(crate) fn closed_cursors(alloc: Global, count: usize) -> Result<Vec<CursorState>, AllocError>
    ensures { IfOk result (λ cursors. cursors.items ≡ replicate count CursorState.Closed) }
{
    let mut cursors = Vec::new(alloc);
    for _ in 0..count {
        cursors.push(CursorState::Closed)?;
    }
    Ok(cursors)
}

/// Closes all cursors.
#[tactic(auto, using(crate::proofs::OpenCursors::Closed::closed_none, crate::proofs::OpenCursors::Closed::closed_next, crate::proofs::OpenCursors::Closed::closed_whole))]
pub(crate) fn close_all(cursors: &mut [CursorState])
    ensures { cursors.new ≡ all_closed cursors.old }
{
    for cursor in cursors.iter_mut() {
        *cursor = CursorState::Closed;
    }
}

/// Takes a cursor off its row.
pub(crate) fn leave_row(cursors: &mut [CursorState], number: usize)
    requires { number < length cursors.old }
    ensures { cursors.new
        ≡ slice_set cursors.old number (off_row (slice_index_or cursors.old number CursorState.Closed)) }
{
    off_row(&mut cursors[number]);
}

fn off_row(cursor: &mut CursorState)
    ensures { cursor.new ≡ off_row cursor.old }
{
    match cursor {
        CursorState::Numbers(numbers) => numbers.on = None,
        CursorState::Walking(walk) => walk.on = None,
        CursorState::Closed | CursorState::Rows(_) => {}
    }
}

/// Puts each list in place of the walking cursor with its number.
pub(crate) fn put_lists(cursors: &mut [CursorState], lists: Vec<ListedCursor>)
    requires { AreThere (length cursors.old) lists.items }
    ensures { cursors.new ≡ put_all cursors.old lists.items }
{
    for list in lists {
        cursors[list.number] = CursorState::Numbers(list.cursor);
    }
}
