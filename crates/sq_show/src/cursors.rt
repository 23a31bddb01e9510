//! Where cursors stand.

use crate::changes::push_table_name;
use sq_bound::{Names, TablePlace};
use sq_lex::Name;
use sq_session::{CursorState, Session};
use sq_store::Store;
use std::alloc::{AllocError, Global};
use std::io::Write;

/// Where a cursor stands.
#[derive(Clone, Copy, PartialEq, Eq)]
pub(crate) enum Stand {
    Closed,
    /// It is open, and no FETCH has reached a row.
    First,
    /// It is on the row of this number of the base table at this place.
    Row(usize, u64),
    /// It is on no row: there is none left, or its row is gone.
    NoRow,
    /// It is on a row: its place, and how many rows there are.
    Place(usize, usize),
    /// It is after the last of its rows.
    Behind,
}

/// Where cursors stand.
pub(crate) fn stands_of(alloc: Global, cursors: &[CursorState]) -> Result<Vec<Stand>, AllocError> {
    let mut stands = Vec::new(alloc);
    for cursor in cursors {
        stands.push(stand_of(cursor))?;
    }
    Ok(stands)
}

pub(crate) fn stand_of(cursor: &CursorState) -> Stand {
    match cursor {
        CursorState::Closed => Stand::Closed,
        CursorState::Numbers(numbers) => {
            stand_on(numbers.table, numbers.on, numbers.passed == 0)
        }
        CursorState::Walking(walk) => stand_on(walk.table, walk.on, walk.next == 0),
        CursorState::Rows(rows) => stand_at(rows.place, rows.rows.len()),
    }
}

/// Where a cursor over a base table stands, which is on this row, if on any.
fn stand_on(table: usize, on: Option<u64>, is_fresh: bool) -> Stand {
    match on {
        Some(number) => Stand::Row(table, number),
        None if is_fresh => Stand::First,
        None => Stand::NoRow,
    }
}

/// Where a cursor over rows of its own stands.
fn stand_at(place: usize, count: usize) -> Stand {
    if place == 0 {
        Stand::First
    } else if place > count {
        Stand::Behind
    } else {
        Stand::Place(place, count)
    }
}

/// Adds a line for each cursor that stands elsewhere than before. One of another module than `module` has its module's name.
pub(crate) fn push_moves<S: Store>(
    alloc: Global,
    session: &Session<S>,
    before: &[Stand],
    module: Name,
    notes: &mut Vec<u8>,
) -> Result<(), AllocError> {
    let now = stands_of(alloc, session.cursors())?;
    let ended = push_differences(session, before, now.as_slice(), module, notes);
    drop(now);
    ended
}

fn push_differences<S: Store>(
    session: &Session<S>,
    before: &[Stand],
    now: &[Stand],
    module: Name,
    notes: &mut Vec<u8>,
) -> Result<(), AllocError> {
    for (number, (old, new)) in before.iter().zip(now).enumerate() {
        if old != new {
            push_stand(session, number, *new, module, notes)?;
        }
    }
    Ok(())
}

/// Adds a line that says where a cursor stands.
fn push_stand<S: Store>(
    session: &Session<S>,
    number: usize,
    stand: Stand,
    module: Name,
    notes: &mut Vec<u8>,
) -> Result<(), AllocError> {
    let Some(declared) = session.program().cursors.get(number) else {
        return Ok(());
    };
    if declared.module != module {
        notes.extend_from_slice(declared.module.codes())?;
        notes.push(b'.')?;
    }
    notes.extend_from_slice(declared.name.codes())?;
    push_stand_words(session, stand, notes)?;
    notes.extend_from_slice(b"\n")
}

pub(crate) fn push_stand_words<S: Store>(
    session: &Session<S>,
    stand: Stand,
    notes: &mut Vec<u8>,
) -> Result<(), AllocError> {
    match stand {
        Stand::Closed => notes.extend_from_slice(b" is closed"),
        Stand::First => notes.extend_from_slice(b" is open, before its first row"),
        Stand::NoRow => notes.extend_from_slice(b" is on no row"),
        Stand::Behind => notes.extend_from_slice(b" is behind its last row"),
        Stand::Place(place, count) => {
            write!(notes, " is on row {place} of its {count}").map_err(|_| AllocError)
        }
        Stand::Row(table, number) => push_row_words(session, table, number, notes),
    }
}

fn push_row_words<S: Store>(
    session: &Session<S>,
    table: usize,
    number: u64,
    notes: &mut Vec<u8>,
) -> Result<(), AllocError> {
    write!(notes, " is on row {number} of ").map_err(|_| AllocError)?;
    match session.catalog().at(TablePlace::Base(table)) {
        Some(table) => push_table_name(table, notes),
        None => Ok(()),
    }
}
