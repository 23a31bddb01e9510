//! A shell while it runs.
ghost use Rattle.std.specs.Prelude.{◌≤◌};
ghost use Rattle.sq_store.specs.declared.store.TheConstants.{MOST_ROW_NUMBERS as MOST};

use crate::fault::Fault;
use crate::request::fault_of;
use crate::texts::Sources;
use sq_heap::HeapStore;
use sq_lex::{LexError, lex};
use sq_run::{Limits, RunFault};
use sq_show::{Place, Shell, TraceOptions, item_size, place_in};
use sq_store::MOST_ROW_NUMBERS;
use std::alloc::{AllocError, Global};
use std::fmt::Display;

/// The texts of a session, the session with the items that it has taken, and the start of the next item.
#[derive(Drop)]
pub(crate) struct Talk {
    pub(crate) texts: Sources,
    pub(crate) shell: Shell<HeapStore>,
    /// The text of the next item so far; empty if it has not begun.
    pub(crate) item: Vec<u8>,
    /// The place at which the item begins.
    pub(crate) start: Place,
    /// How many items were taken.
    pub(crate) taken: usize,
    /// Whether something was refused.
    pub(crate) refused: bool,
    pub(crate) limits: Limits,
    ghost limited: { limits.row_numbers ≤ MOST },
}

impl Talk {
    /// Makes a shell before its first item.
    pub(crate) fn new(
        alloc: Global,
        texts: Sources,
        limits: Limits,
        shell: Shell<HeapStore>,
    ) -> Talk
        requires { limits.row_numbers ≤ MOST_ROW_NUMBERS }
    {
        Talk {
            texts,
            shell,
            item: Vec::new(alloc),
            start: Place { line: 1, column: 1 },
            taken: 0,
            refused: false,
            limits,
        }
    }

    /// Whether a line is the shell's own: it begins with a dot, and no item has begun.
    pub(crate) fn is_own(&self, line: &[u8]) -> bool {
        self.item.is_empty() && line.starts_with(b".")
    }

    /// Takes a line of a text, and performs the items that end in it.
    pub(crate) fn take_line<R: Print + Eprint + AllocGlobal>(
        &mut self,
        rt: &R,
        file: &str,
        number: usize,
        line: &[u8],
    ) -> Result<(), Fault> {
        let mut rest = line;
        while let Some(size) = item_size(rest) {
            let column = line.len().saturating_sub(rest.len()).saturating_add(1);
            self.add(&rest[..size], number, column)?;
            self.perform(rt, file)?;
            rest = &rest[size..];
        }
        self.take_rest(rt, file, number, line, rest)
    }

    /// Takes the text after the last semicolon of a line. White space and comments alone begin no item. A
    /// text with bytes that are no tokens is refused at once, since it ends nowhere.
    fn take_rest<R: Print + Eprint + AllocGlobal>(
        &mut self,
        rt: &R,
        file: &str,
        number: usize,
        line: &[u8],
        rest: &[u8],
    ) -> Result<(), Fault> {
        let column = line.len().saturating_sub(rest.len()).saturating_add(1);
        match kind_of(rt.alloc(), rest) {
            Kind::Blank if self.item.is_empty() => Ok(()),
            Kind::Blank | Kind::Tokens => self.add(rest, number, column),
            Kind::Fault => {
                self.add(rest, number, column)?;
                self.perform(rt, file)
            }
        }
    }

    /// Ends a text: an item that has begun is refused.
    pub(crate) fn end_text<R: Print + Eprint + AllocGlobal>(
        &mut self,
        rt: &R,
        file: &str,
    ) -> Result<(), Fault> {
        if self.item.is_empty() {
            return Ok(());
        }
        self.perform(rt, file)
    }

    /// Adds a part of a line to the item.
    fn add(&mut self, part: &[u8], line: usize, column: usize) -> Result<(), Fault> {
        if self.item.is_empty() {
            self.start = Place { line, column };
        }
        match self.item.extend_from_slice(part) {
            Ok(()) => Ok(()),
            Err(_) => Err(Fault::NoMemory(self.taken)),
        }
    }

    /// Performs the item, and writes its lines, or says why it is refused. The next one has not begun then.
    fn perform<R: Print + Eprint + AllocGlobal>(
        &mut self,
        rt: &R,
        file: &str,
    ) -> Result<(), Fault> {
        let mut report = Vec::new(rt.alloc());
        let mut notes = Vec::new(rt.alloc());
        let item = self.item.as_slice();
        let done = self.shell.take(rt.alloc(), item, &mut report, &mut notes);
        self.item.clear();
        match done {
            Ok(()) => {
                self.taken = self.taken.saturating_add(1);
                write_noted(rt, report.as_slice(), notes.as_slice())
            }
            Err(RunFault::ScriptRefused(refusal)) => {
                let inside = Place {
                    line: refusal.line,
                    column: refusal.column,
                };
                self.refuse(rt, file, place_in(self.start, inside), refusal.what);
                Ok(())
            }
            Err(fault) => Err(self.fault_of_stop(fault)),
        }
    }

    /// Turns notes on each call on or off.
    pub(crate) fn trace(&mut self, is_on: bool) {
        let options = TraceOptions {
            tables: false,
            stop: false,
        };
        self.shell.trace = if is_on { Some(options) } else { None };
    }

    /// Makes the fault that ends the shell, if a run stopped for another cause than the typed text.
    fn fault_of_stop(&self, fault: RunFault) -> Fault {
        match fault {
            RunFault::NoMemory(_) => Fault::NoMemory(self.taken),
            _ => fault_of(fault),
        }
    }

    /// Refuses a text, and says at which place.
    pub(crate) fn refuse<R: Eprint, D: Display + Drop>(
        &mut self,
        rt: &R,
        file: &str,
        place: Place,
        what: D,
    ) {
        self.refused = true;
        complain(rt, file, place, what);
    }

    /// Opens the session of the texts, before the first item.
    fn open_shell(&self, alloc: Global) -> Result<Shell<HeapStore>, RunFault> {
        let schemas = self.texts.schemas.as_slice();
        let modules = self.texts.modules.as_slice();
        Shell::open(alloc, schemas, modules, self.limits)
    }

    /// Goes back to the first state.
    pub(crate) fn restart<R: Eprint + AllocGlobal>(&mut self, rt: &R) -> Result<(), Fault> {
        match self.open_shell(rt.alloc()) {
            Ok(mut shell) => {
                shell.trace = self.shell.trace;
                self.shell = shell;
                self.taken = 0;
                let _ = eprintln!(rt; "the session is as it was before the first call");
                Ok(())
            }
            Err(fault) => Err(self.fault_of_stop(fault)),
        }
    }

    /// Opens the session anew with the text of a further module, and makes the calls so far again. A module that is refused is left out.
    pub(crate) fn add_module<R: Eprint + AllocGlobal>(
        &mut self,
        rt: &R,
        name: &str,
        text: Vec<u8>,
    ) -> Result<(), Fault> {
        if self.texts.modules.push(text).is_err() {
            return Err(Fault::NoMemory(self.taken));
        }
        match self.open_shell(rt.alloc()) {
            Ok(shell) => self.make_again(rt, name, shell),
            Err(RunFault::ModuleRefused(refusal)) => {
                let _ = self.texts.modules.pop();
                let place = Place {
                    line: refusal.line,
                    column: refusal.column,
                };
                self.refuse(rt, name, place, refusal.what);
                Ok(())
            }
            Err(fault) => Err(self.fault_of_stop(fault)),
        }
    }

    /// Makes the calls so far in a new session, which takes the place of the one before.
    fn make_again<R: Eprint + AllocGlobal>(
        &mut self,
        rt: &R,
        name: &str,
        mut shell: Shell<HeapStore>,
    ) -> Result<(), Fault> {
        let mut report = Vec::new(rt.alloc());
        let mut notes = Vec::new(rt.alloc());
        let script = self.shell.script.as_slice();
        match shell.take(rt.alloc(), script, &mut report, &mut notes) {
            Ok(()) => {
                shell.trace = self.shell.trace;
                self.shell = shell;
                let taken = self.taken;
                let _ = eprintln!(rt;
                    "the session is opened anew with {name}, and its {taken} items so far are done again"
                );
                Ok(())
            }
            Err(fault) => {
                drop(shell);
                Err(self.fault_of_stop(fault))
            }
        }
    }
}

/// Writes the lines of an item, and the notes on it.
fn write_noted<R: Print>(rt: &R, report: &[u8], notes: &[u8]) -> Result<(), Fault> {
    if rt.write_all(report).is_err() || rt.write_all(notes).is_err() {
        return Err(Fault::Output);
    }
    Ok(())
}

/// The content of a part of a line.
#[derive(Clone, Copy)]
enum Kind {
    /// White space and comments.
    Blank,
    Tokens,
    /// A fault of its tokens.
    Fault,
}

fn kind_of(alloc: Global, part: &[u8]) -> Kind {
    match lex(alloc, part) {
        Ok(tokens) if tokens.is_empty() => Kind::Blank,
        Ok(_) | Err(LexError::NoMemory) => Kind::Tokens,
        Err(LexError::Fault(_)) => Kind::Fault,
    }
}

/// Says what is refused, and at which place of a file or of the typed text.
pub(crate) fn complain<R: Eprint, D: Display + Drop>(rt: &R, file: &str, place: Place, what: D) {
    let line = place.line;
    let column = place.column;
    let _ = if file.is_empty() {
        eprintln!(rt; "sqmod: {line}:{column}: {what}")
    } else {
        eprintln!(rt; "sqmod: {file}:{line}:{column}: {what}")
    };
}
