//! A session to which one item after the other is given.
ghost use Rattle.std.specs.Prelude.{◌≡◌, ◌≤◌, ◌++◌, [], true, All, IfErr, IfOk, OnOk};
ghost use Rattle.sq_session.specs.Kind.{fits_at};
ghost use Rattle.sq_perform.specs.Fault.{IsOpeningFault, IsScriptFault};
ghost use Rattle.sq_perform.specs.Opened.{Opened};
ghost use Rattle.sq_perform.specs.Steps.{IsPrepared, Step};
ghost use Rattle.sq_perform.specs.Texts.{texts};
ghost use Rattle.sq_show.specs.Mark.{AddsNotes};
ghost use Rattle.sq_show.specs.Taken.{Adds, Takes, is_refusal};

use crate::last::LastCall;
use crate::look::Look;
use crate::mark::push_marked;
use crate::notes::notes_of;
use crate::trace::TraceOptions;
use sq_perform::{
    Action, CallAction, Limits, RunFault, open_session, read_script, write_call, write_table,
};
use sq_session::Session;
use sq_store::{MOST_ROW_NUMBERS, Store};
use sq_value::copy_row;
use std::alloc::{AllocError, Global};

/// A session, and the script of the items that it has taken.
#[derive(Drop)]
pub struct Shell<S: Store> {
    pub session: Session<S>,
    /// The texts of these items, one after the other.
    pub script: Vec<u8>,
    /// The call that was made last, if one was made.
    pub last: Option<LastCall>,
    /// What is noted of each call, if anything is.
    pub trace: Option<TraceOptions>,
}

impl<S: Store> Shell<S> {
    /// The session that the schema and module texts open. No item is taken yet.
    pub fn open(
        alloc: Global,
        schemas: &[Vec<u8>],
        modules: &[Vec<u8>],
        limits: Limits,
    ) -> Result<Shell<S>, RunFault>
        requires { limits.row_numbers ≤ MOST_ROW_NUMBERS }
        ensures opened { IfOk result
            (λ shell. Opened limits.row_numbers (texts schemas.now) (texts modules.now) shell.session) }
        ensures empty { IfOk result (λ shell. shell.script.items ≡ []) }
        ensures refused { IfErr result (IsOpeningFault (texts schemas.now) (texts modules.now)) }
    {
        match open_session::<S>(alloc, schemas, modules, limits) {
            Ok(session) => Ok(Shell {
                session,
                script: Vec::new(alloc),
                last: None,
                trace: None,
            }),
            Err(fault) => Err(fault),
        }
    }

    /// Performs the items of a text. It adds their lines to a report, and notes on the calls to notes. A text that is refused
    /// changes nothing. If memory runs out, some of its items may have been performed.
    #[tactic(auto, using(crate::proofs::Adding::takes))]
    pub fn take(
        &mut self,
        alloc: Global,
        text: &[u8],
        report: &mut Vec<u8>,
        notes: &mut Vec<u8>,
    ) -> Result<(), RunFault>
        ensures taken { OnOk result
            (Takes text.now self.old.session report.old.items report.new.items self.new.session) }
        ensures script { OnOk result (self.new.script.items ≡ self.old.script.items ++ text.now) }
        ensures notes { OnOk result (AddsNotes notes.old.items notes.new.items) }
        ensures refused { IfErr result (IsScriptFault self.old.session text.now) }
        ensures unchanged { IfErr result
            (λ fault. is_refusal fault ≡ true → (self.new ≡ self.old) × (report.new ≡ report.old)) }
    {
        match read_script(alloc, &self.session, text) {
            Ok(actions) => {
                let done = self.perform_all(alloc, actions.as_slice(), report, notes);
                drop(actions);
                match done {
                    Ok(()) => keep(&mut self.script, text),
                    Err(_) => Err(RunFault::NoMemory(0)),
                }
            }
            Err(fault) => Err(fault),
        }
    }

    /// Performs items one after the other, and adds the lines of each.
    fn perform_all(
        &mut self,
        alloc: Global,
        actions: &[Action],
        report: &mut Vec<u8>,
        notes: &mut Vec<u8>,
    ) -> Result<(), AllocError>
        requires { All (IsPrepared self.old.session) actions.now }
        ensures added { OnOk result
            (Adds actions.now self.old.session report.old.items report.new.items self.new.session) }
        ensures script { OnOk result (self.new.script ≡ self.old.script) }
        ensures notes { OnOk result (AddsNotes notes.old.items notes.new.items) }
    {
        let mut lines = Vec::new(alloc);
        for action in actions {
            self.perform(alloc, action, &mut lines, notes)?;
            report.extend_from_slice(lines.as_slice())?;
        }
        Ok(())
    }

    /// Performs an item, and writes its lines in the place of those before.
    #[tactic(auto, using(crate::proofs::Noting::notes_none))]
    fn perform(
        &mut self,
        alloc: Global,
        action: &Action,
        lines: &mut Vec<u8>,
        notes: &mut Vec<u8>,
    ) -> Result<(), AllocError>
        requires { IsPrepared self.old.session action.now }
        ensures step { OnOk result
            (Step action.now self.old.session lines.new.items self.new.session) }
        ensures procedures { self.new.session.procedures ≡ self.old.session.procedures }
        ensures tables { self.new.session.tables ≡ self.old.session.tables }
        ensures script { self.new.script ≡ self.old.script }
        ensures notes { OnOk result (AddsNotes notes.old.items notes.new.items) }
    {
        lines.clear();
        match action {
            Action::Call(call) => self.make_noted(alloc, call, lines, notes),
            Action::Show(shown) => write_table(alloc, &self.session, shown, lines),
        }
    }

    /// Makes a call, and adds its line, and what is noted of it.
    #[tactic(auto, using(crate::proofs::Noting::notes_none))]
    fn make_noted(
        &mut self,
        alloc: Global,
        call: &CallAction,
        lines: &mut Vec<u8>,
        notes: &mut Vec<u8>,
    ) -> Result<(), AllocError>
        requires prepared { IsPrepared self.old.session (Action.Call call.now) }
        requires none { lines.old.items ≡ [] }
        ensures step { OnOk result
            (Step (Action.Call call.now) self.old.session lines.new.items self.new.session) }
        ensures procedures { self.new.session.procedures ≡ self.old.session.procedures }
        ensures tables { self.new.session.tables ≡ self.old.session.tables }
        ensures script { self.new.script ≡ self.old.script }
        ensures notes { OnOk result (AddsNotes notes.old.items notes.new.items) }
    {
        let Some(options) = self.trace else {
            return self.make(alloc, call, lines);
        };
        let before = Look::at(alloc, &self.session, call)?;
        let done = match self.make(alloc, call, lines) {
            Ok(()) => self.note(alloc, call, &before, options, notes),
            Err(error) => Err(error),
        };
        drop(before);
        done
    }

    /// Makes a call, keeps it, and adds its line.
    fn make(
        &mut self,
        alloc: Global,
        call: &CallAction,
        lines: &mut Vec<u8>,
    ) -> Result<(), AllocError>
        requires prepared { IsPrepared self.old.session (Action.Call call.now) }
        requires none { lines.old.items ≡ [] }
        ensures step { OnOk result
            (Step (Action.Call call.now) self.old.session lines.new.items self.new.session) }
        ensures procedures { self.new.session.procedures ≡ self.old.session.procedures }
        ensures tables { self.new.session.tables ≡ self.old.session.tables }
        ensures script { self.new.script ≡ self.old.script }
    {
        let values = copy_row(alloc, call.values.as_slice())?;
        let reply = self
            .session
            .call(alloc, call.procedure, call.values.as_slice())?;
        write_call(alloc, &self.session, call, &reply, lines)?;
        self.last = Some(LastCall {
            procedure: call.procedure,
            values,
            reply,
        });
        Ok(())
    }

    /// Adds what is noted of the call that was made last.
    #[tactic(auto, using(crate::proofs::Noting::notes_none, crate::proofs::Noting::notes_one))]
    fn note(
        &self,
        alloc: Global,
        call: &CallAction,
        before: &Look,
        options: TraceOptions,
        notes: &mut Vec<u8>,
    ) -> Result<(), AllocError>
        requires { fits_at self.now.session.procedures call.now.procedure call.now.values ≡ true }
        ensures { OnOk result (AddsNotes notes.old.items notes.new.items) }
    {
        let Some(last) = &self.last else {
            return Ok(());
        };
        let text = notes_of(alloc, &self.session, call, before, &last.reply, options)?;
        push_marked(notes, text.as_slice())
    }
}

/// Adds the text of items that were done.
fn keep(script: &mut Vec<u8>, text: &[u8]) -> Result<(), RunFault>
    ensures kept { OnOk result (script.new.items ≡ script.old.items ++ text.now) }
    ensures memory { IfErr result (λ fault. fault ≡ RunFault.NoMemory 0) }
{
    match script.extend_from_slice(text) {
        Ok(()) => Ok(()),
        Err(_) => Err(RunFault::NoMemory(0)),
    }
}
