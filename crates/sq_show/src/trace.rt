//! A run that is shown, action by action.

ghost use Rattle.std.specs.Prelude.{◌≡◌, [], false, All, IfErr, IfOk, OnOk};
ghost use Rattle.sq_perform.specs.Steps.{IsPrepared};
ghost use Rattle.sq_show.specs.Traced.{IsTraceStop, Told, Traced, TracedUpTo, fails};

use crate::look::Look;
use crate::mark::push_marked;
use crate::notes::notes_of;
use sq_meaning::Status;
use sq_out::{Out, write_whole};
use sq_perform::{Action, CallAction, write_call, write_table};
use sq_session::Session;
use sq_store::Store;
use std::alloc::{AllocError, Global};

/// The options of a trace: which lines it shows beside the report, and at which call it ends.
#[derive(Clone, Copy, Debug, PartialEq, Eq)]
pub struct TraceOptions {
    /// Each table that a call changed is shown whole.
    pub tables: bool,
    /// The trace ends after the first call that fails.
    pub stop: bool,
}

/// Why a trace ends before its end.
#[derive(Clone, Copy, Debug, PartialEq, Eq)]
pub enum TraceFault {
    /// Memory ran out. The lines of this many actions were written, and no others.
    NoMemory(usize),
    /// The output failed.
    Output,
}

/// Performs actions one after the other, and writes the lines of each, with lines that say what it did. If it stops at
/// a call that fails, it answers how many actions were performed then.
pub fn trace_all<S: Store, W: Out>(
    alloc: Global,
    session: &mut Session<S>,
    actions: &[Action],
    options: TraceOptions,
    out: &mut W,
) -> Result<Option<usize>, TraceFault>
    requires prepared { All (IsPrepared session.old) actions.now }
    requires open_out { W.failed out.old ≡ false }

    // Without the notes that is the report of the actions up to there.
    ensures traced { IfOk result (λ stopped.
        TracedUpTo stopped actions.now session.old (W.taken out.old) (W.taken out.new)) }
    ensures whole { options.stop ≡ false → IfOk result (λ stopped. stopped ≡ None) }

    // After running out of memory only lines of complete actions were written.
    ensures stopped { IfErr result (IsTraceStop actions.now session.old (W.taken out.old) (W.taken out.new)) }
{
    let mut lines = Vec::new(alloc);
    for (done, action) in actions.iter().enumerate() {
        let Ok(fails) = trace_action(alloc, session, action, options, &mut lines) else {
            return Err(TraceFault::NoMemory(done));
        };
        if let Err(_) = write_whole(out, lines.as_slice()) {
            return Err(TraceFault::Output);
        }
        if fails && options.stop {
            return Ok(Some(done + 1));
        }
    }
    Ok(None)
}

/// Performs an action, and writes its lines in the place of those before, with those that say what it did. It answers
/// whether it is a call that failed.
pub fn trace_action<S: Store>(
    alloc: Global,
    session: &mut Session<S>,
    action: &Action,
    options: TraceOptions,
    lines: &mut Vec<u8>,
) -> Result<bool, AllocError>
    requires { IsPrepared session.old action.now }
    ensures told { IfOk result (Told action.now session.old lines.new.items session.new) }
    ensures procedures { session.new.procedures ≡ session.old.procedures }
    ensures tables { session.new.tables ≡ session.old.tables }
{
    lines.clear();
    match action {
        Action::Call(call) => trace_call(alloc, session, call, options, lines),
        Action::Show(shown) => {
            write_table(alloc, session, shown, lines)?;
            Ok(false)
        }
    }
}

/// Makes a call, and adds its line and what is to be said of it.
fn trace_call<S: Store>(
    alloc: Global,
    session: &mut Session<S>,
    call: &CallAction,
    options: TraceOptions,
    lines: &mut Vec<u8>,
) -> Result<bool, AllocError>
    requires prepared { IsPrepared session.old (Action.Call call.now) }
    requires none { lines.old.items ≡ [] }
    ensures told { IfOk result (Told (Action.Call call.now) session.old lines.new.items session.new) }
    ensures procedures { session.new.procedures ≡ session.old.procedures }
    ensures tables { session.new.tables ≡ session.old.tables }
{
    let before = Look::at(alloc, session, call)?;
    let ended = called(alloc, session, call, &before, options, lines);
    drop(before);
    ended
}

fn called<S: Store>(
    alloc: Global,
    session: &mut Session<S>,
    call: &CallAction,
    before: &Look,
    options: TraceOptions,
    lines: &mut Vec<u8>,
) -> Result<bool, AllocError>
    requires prepared { IsPrepared session.old (Action.Call call.now) }
    requires none { lines.old.items ≡ [] }
    ensures told { IfOk result (Told (Action.Call call.now) session.old lines.new.items session.new) }
    ensures procedures { session.new.procedures ≡ session.old.procedures }
    ensures tables { session.new.tables ≡ session.old.tables }
{
    let reply = session.call(alloc, call.procedure, call.values.as_slice())?;
    write_call(alloc, session, call, &reply, lines)?;
    let notes = notes_of(alloc, session, call, before, &reply, options)?;
    push_marked(lines, notes.as_slice())?;
    Ok(fails(reply.status))
}

/// Whether a call with this status failed.
fn fails(status: Status) -> bool
    ensures { result ≡ fails status }
{
    match status {
        Status::SuccessfulCompletion | Status::TextTruncated | Status::NoData => false,
        _ => true,
    }
}
