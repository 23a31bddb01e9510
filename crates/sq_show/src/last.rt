//! The call that was made last.

ghost use Rattle.std.specs.Prelude.{OnOk};
ghost use Rattle.sq_show.specs.Last.{TellsWhy};

use crate::words::write_cause;
use sq_cause::why;
use sq_session::{Reply, Session};
use sq_store::Store;
use sq_value::Row;
use std::alloc::{AllocError, Global};

/// A call that was made, and its answer.
#[derive(Drop)]
pub struct LastCall {
    /// The number of its procedure.
    pub procedure: usize,
    pub values: Row,
    pub reply: Reply,
}

impl LastCall {
    /// Adds why the call did not end with 00000, in the words of a trace: one line without its end. If it ended with 00000,
    /// nothing is added. It is asked before the session makes another call.
    pub fn write_why<S: Store>(
        &self,
        alloc: Global,
        session: &Session<S>,
        line: &mut Vec<u8>,
    ) -> Result<(), AllocError>
        ensures { OnOk result (TellsWhy session.now self.now line.old.items line.new.items) }
    {
        let values = self.values.as_slice();
        match why(alloc, session, self.procedure, values, &self.reply)? {
            Some(cause) => {
                let written = write_cause(alloc, session, &cause, line);
                drop(cause);
                written
            }
            None => Ok(()),
        }
    }
}
