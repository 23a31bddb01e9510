//! What a session has before a call: what the call may change, and where its cursors stand.

use crate::cursors::{Stand, stands_of};
use crate::touched::{Touched, touched_by};
use sq_bound::TableDesc;
use sq_perform::CallAction;
use sq_session::Session;
use sq_store::{Numbered, Store};
use sq_value::copy_row;
use std::alloc::{AllocError, Global};

/// What a call may change, and where the cursors stand.
#[derive(Drop)]
pub(crate) struct Look {
    pub(crate) touched: Touched,
    pub(crate) cursors: Vec<Stand>,
}

impl Look {
    /// What a session has now, before a call.
    pub(crate) fn at<S: Store>(
        alloc: Global,
        session: &Session<S>,
        call: &CallAction,
    ) -> Result<Look, AllocError> {
        let cursors = stands_of(alloc, session.cursors())?;
        match touched_by(alloc, session, call.procedure, call.values.as_slice()) {
            Ok(touched) => Ok(Look { touched, cursors }),
            Err(error) => {
                drop(cursors);
                Err(error)
            }
        }
    }
}

/// A copy of the rows of a base table.
pub(crate) fn rows_of<S: Store>(
    alloc: Global,
    session: &Session<S>,
    table: &TableDesc,
) -> Result<Vec<Numbered>, AllocError> {
    let mut copies = Vec::new(alloc);
    let Some(rows) = session.rows(table.user, table.name) else {
        return Ok(copies);
    };
    for (number, row) in rows {
        let row = copy_row(alloc, row.as_slice())?;
        copies.push(Numbered { number, row })?;
    }
    Ok(copies)
}
