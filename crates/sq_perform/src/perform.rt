//! A run: what the script asks for is performed item by item, and the lines of each item are written.

ghost use Rattle.std.specs.Prelude.{◌≡◌, ◌≤◌, false, All, IfErr, IfOk, OnOk};
ghost use Rattle.sq_perform.specs.Refused.{RefusedText};
ghost use Rattle.sq_perform.specs.Texts.{texts};
ghost use Rattle.sq_perform.specs.Steps.{IsPrepared, Reported, Step};
ghost use Rattle.sq_perform.specs.Performed.{IsScriptStop, Performed};
ghost use Rattle.sq_perform.specs.Stop.{StoppedAt, Wrote, WroteAll, is_write};

use crate::action::Action;
use crate::limits::Limits;
use crate::prepare::{open_session, read_script};
use crate::refusal::RunFault;
use crate::report::{write_call, write_table};
use sq_out::{Out, write_whole};
use sq_session::Session;
use sq_store::{MOST_ROW_NUMBERS, Store};
use std::alloc::{AllocError, Global};

/// Reads schema, module and script texts, makes the script's calls in memory, and writes the report.
///
/// Schemas come first, then modules, then the script, and all texts of a kind are parsed before any is checked for what it
/// means. The first refusal is answered, and nothing is written before all are accepted.
pub fn run<S: Store, W: Out>(
    alloc: Global,
    schemas: &[Vec<u8>],
    modules: &[Vec<u8>],
    script: &[u8],
    limits: Limits,
    out: &mut W,
) -> Result<(), RunFault>
    requires numbers { limits.row_numbers ≤ MOST_ROW_NUMBERS }
    requires open_out { W.failed out.old ≡ false }

    // All is written: the report of a run of the trees that the texts spell.
    ensures report { OnOk result
        (WroteAll limits.row_numbers (texts schemas.now) (texts modules.now) script.now
        (W.taken out.old) (W.taken out.new)) }

    // After a refusal nothing was written; after running out of memory, only complete items; after an output fault, a
    // prefix of the report. The output has failed exactly where there is an output fault.
    ensures stopped { IfErr result
        (Wrote limits.row_numbers (texts schemas.now) (texts modules.now) script.now (W.taken out.old)
        (W.taken out.new)) }
    ensures still { OnOk result (W.failed out.new ≡ false) }
    ensures failed { IfErr result (λ fault. W.failed out.new ≡ is_write fault) }

    // A text is refused for its tokens with the first fault of its reading, for its grammar only where no tree spells it,
    // and for its depth only where each tree that spells it is deeper than `MAX_DEPTH` brackets; those of its kind before
    // it spell trees. For its meaning a schema or a module is refused where the definitions refuse it first, for the fault that
    // they find, and the script at its first item that the session does not take. A module is refused only where the schemas
    // declare a catalog, the script only where all open a session.
    ensures refused { IfErr result
        (RefusedText limits.row_numbers (texts schemas.now) (texts modules.now) script.now) }
{
    match open_session::<S>(alloc, schemas, modules, limits) {
        Ok(mut session) => run_script(alloc, &mut session, script, out),
        Err(fault) => Err(fault),
    }
}

/// Does what a script asks a session for, and writes the report.
#[tactic(auto, using(crate::proofs::Wrote::refused_stop, crate::proofs::Wrote::script_writes_none))]
fn run_script<S: Store, W: Out>(
    alloc: Global,
    session: &mut Session<S>,
    script: &[u8],
    out: &mut W,
) -> Result<(), RunFault>
    requires open_out { W.failed out.old ≡ false }
    ensures report { OnOk result (Performed script.now session.old (W.taken out.old) (W.taken out.new)) }
    ensures stopped { IfErr result (IsScriptStop script.now session.old (W.taken out.old) (W.taken out.new)) }
    ensures still { OnOk result (W.failed out.new ≡ false) }
    ensures failed { IfErr result (λ fault. W.failed out.new ≡ is_write fault) }
{
    match read_script(alloc, session, script) {
        Ok(actions) => perform_all(alloc, session, actions.as_slice(), out),
        Err(fault) => Err(fault),
    }
}

/// Performs items one after the other, and writes the lines of each.
fn perform_all<S: Store, W: Out>(
    alloc: Global,
    session: &mut Session<S>,
    actions: &[Action],
    out: &mut W,
) -> Result<(), RunFault>
    requires prepared { All (IsPrepared session.old) actions.now }
    requires open_out { W.failed out.old ≡ false }
    ensures report { OnOk result (Reported actions.now session.old (W.taken out.old) (W.taken out.new)) }
    ensures stopped { IfErr result (StoppedAt actions.now session.old (W.taken out.old) (W.taken out.new)) }
    ensures still { OnOk result (W.failed out.new ≡ false) }
    ensures failed { IfErr result (λ fault. W.failed out.new ≡ is_write fault) }
{
    let mut written = 0u128;
    let mut lines = Vec::new(alloc);
    for (done, action) in actions.iter().enumerate() {
        let Ok(()) = perform(alloc, session, action, &mut lines) else {
            return Err(RunFault::NoMemory(done));
        };
        if let Err(taken) = write_whole(out, lines.as_slice()) {
            return Err(RunFault::Write(written + taken as u128));
        }
        written += lines.len() as u128;
    }
    Ok(())
}

/// Performs an item, and writes its lines in the place of those before.
pub fn perform<S: Store>(
    alloc: Global,
    session: &mut Session<S>,
    action: &Action,
    lines: &mut Vec<u8>,
) -> Result<(), AllocError>
    requires { IsPrepared session.old action.now }
    ensures step { OnOk result (Step action.now session.old lines.new.items session.new) }
    ensures procedures { session.new.procedures ≡ session.old.procedures }
    ensures tables { session.new.tables ≡ session.old.tables }
{
    lines.clear();
    match action {
        Action::Call(call) => {
            let reply = session.call(alloc, call.procedure, call.values.as_slice())?;
            write_call(alloc, session, call, &reply, lines)
        }
        Action::Show(shown) => write_table(alloc, session, shown, lines),
    }
}
