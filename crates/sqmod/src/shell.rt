//! `sqmod shell`: items of a script that are typed. Each is performed when its semicolon has come, and its lines are written at once.
ghost use Rattle.std.specs.Prelude.{◌≤◌, IfErr, length};
ghost use Rattle.sqmod.specs.Request.{NamesCheckedFile, NamesOneOf};

mod command;
mod talk;

use crate::fault::{Fault, REFUSED};
use crate::request::fault_of;
use crate::texts::{Sources, read_sources};
use crate::{report_checked, report_of_file};
use command::{Command, HELP, Listing, command_of};
use sq_heap::HeapStore;
use sq_lex::{Lexeme, Name, Symbol, Token, lex};
use sq_run::Limits;
use sq_show::{
    Place, Shell, write_cursors, write_procedures, write_procedures_of, write_tables, write_view,
};
use sq_store::MOST_ROW_NUMBERS;
use sq_words::{ShellRequest, Source};
use std::alloc::{AllocError, Global};
use std::fs;
use std::io::{self, BufRead, BufReader, IsTerminal};
use std::rt::{Files, LibcRuntime};
use talk::Talk;

/// The name of standard input in messages.
const STANDARD_INPUT: &str = "standard input";

/// Whether someone types what is read.
pub(crate) trait Typed {
    fn is_typed(&self) -> bool;
}

impl Typed for LibcRuntime {
    fn is_typed(&self) -> bool {
        self.stdin().is_terminal()
    }
}

/// Opens a session of the schemas and modules, performs what is read from standard input, and gives the status to end with.
pub(crate) fn status_of_shell<R: Files + Print + Eprint + Input + Typed + AllocGlobal>(
    rt: &R,
    request: &ShellRequest<'_>,
) -> u8
    requires { request.now.row_numbers ≤ MOST_ROW_NUMBERS }
{
    match open_talk(rt, request) {
        Ok(talk) => status_of_talk(rt, talk),
        Err(fault) => report_checked(rt, &request.texts, fault),
    }
}

/// Opens the shell of a request, before the first item.
fn open_talk<R: Files + AllocGlobal>(rt: &R, request: &ShellRequest<'_>) -> Result<Talk, Fault>
    requires { request.now.row_numbers ≤ MOST_ROW_NUMBERS }
    ensures { IfErr result (NamesCheckedFile request.now.texts) }
{
    let texts = &request.texts;
    let sources = read_sources(rt, texts.schemas.as_slice(), texts.modules.as_slice())?;
    let limits = Limits {
        row_numbers: request.row_numbers,
    };
    match open_shell(rt.alloc(), &sources, limits) {
        Ok(shell) => Ok(Talk::new(rt.alloc(), sources, limits, shell)),
        Err(fault) => {
            drop(sources);
            Err(fault)
        }
    }
}

#[tactic(auto, using(crate::proofs::Named::checked_one))]
fn open_shell(alloc: Global, sources: &Sources, limits: Limits) -> Result<Shell<HeapStore>, Fault>
    requires { limits.row_numbers ≤ MOST_ROW_NUMBERS }
    ensures { IfErr result
        (NamesOneOf (length sources.now.schemas.items) (length sources.now.modules.items)) }
{
    let schemas = sources.schemas.as_slice();
    let modules = sources.modules.as_slice();
    match Shell::open(alloc, schemas, modules, limits) {
        Ok(shell) => Ok(shell),
        Err(fault) => Err(fault_of(fault)),
    }
}

fn status_of_talk<R: Files + Print + Eprint + Input + Typed + AllocGlobal>(
    rt: &R,
    mut talk: Talk,
) -> u8 {
    let Ok(mut input) = BufReader::new(rt.alloc(), rt.reader()) else {
        drop(talk);
        return report_of_file(rt, "", Fault::NoMemory(0));
    };
    let is_typed = rt.is_typed();
    let ended = converse(rt, &mut talk, &mut input, is_typed);
    let refused = talk.refused;
    drop(talk);
    match ended {
        Ok(()) if refused && !is_typed => REFUSED,
        Ok(()) => 0,
        Err(fault) => report_of_file(rt, STANDARD_INPUT, fault),
    }
}

/// Reads line by line, up to the end or `.quit`.
fn converse<R: Files + Print + Eprint + AllocGlobal, B: BufRead>(
    rt: &R,
    talk: &mut Talk,
    input: &mut B,
    is_typed: bool,
) -> Result<(), Fault> {
    let mut line = Vec::new(rt.alloc());
    for number in 1..usize::MAX {
        if is_typed {
            prompt(rt, talk);
        }
        line.clear();
        match input.read_until(b'\n', &mut line) {
            Ok(0) => break,
            Ok(_) => {}
            Err(_) => return Err(Fault::Unread(Source::Script)),
        }
        if !take_typed(rt, talk, number, line.as_slice())? {
            return Ok(());
        }
    }
    if is_typed {
        let _ = eprintln!(rt; "");
    }
    talk.end_text(rt, "")
}

/// Asks for an item, or for more of one.
fn prompt<R: Eprint>(rt: &R, talk: &Talk) {
    let _ = if talk.item.is_empty() {
        eprint!(rt; "sqmod> ")
    } else {
        eprint!(rt; "  ...> ")
    };
}

/// Takes a line of standard input. The answer is whether to go on.
fn take_typed<R: Files + Print + Eprint + AllocGlobal>(
    rt: &R,
    talk: &mut Talk,
    number: usize,
    line: &[u8],
) -> Result<bool, Fault> {
    if !talk.is_own(line) {
        talk.take_line(rt, "", number, line)?;
        return Ok(true);
    }
    match command_of(line) {
        Command::Quit => Ok(false),
        Command::Read(file) => {
            read_file(rt, talk, number, file)?;
            Ok(true)
        }
        command => {
            obey(rt, talk, "", number, command)?;
            Ok(true)
        }
    }
}

/// Takes the lines of a file in the place of what is typed.
fn read_file<R: Files + Print + Eprint + AllocGlobal>(
    rt: &R,
    talk: &mut Talk,
    number: usize,
    file: &str,
) -> Result<(), Fault> {
    let Ok(text) = fs::read(rt, file) else {
        let place = Place {
            line: number,
            column: 1,
        };
        talk.refuse(rt, "", place, "the file cannot be read");
        return Ok(());
    };
    let ended = take_lines(rt, talk, file, text.as_slice());
    drop(text);
    ended
}

fn take_lines<R: Files + Print + Eprint + AllocGlobal>(
    rt: &R,
    talk: &mut Talk,
    file: &str,
    text: &[u8],
) -> Result<(), Fault> {
    for (before, line) in text.split_inclusive(|byte| *byte == b'\n').enumerate() {
        let number = before.saturating_add(1);
        if !talk.is_own(line) {
            talk.take_line(rt, file, number, line)?;
        } else if let Command::Quit = command_of(line) {
            break;
        } else {
            obey(rt, talk, file, number, command_of(line))?;
        }
    }
    talk.end_text(rt, file)
}

/// Does what a line of the shell's own asks for.
fn obey<R: Files + Print + Eprint + AllocGlobal>(
    rt: &R,
    talk: &mut Talk,
    file: &str,
    line: usize,
    command: Command<'_>,
) -> Result<(), Fault> {
    let place = Place { line, column: 1 };
    match command {
        Command::Help => check_written(rt.print(HELP)),
        Command::List(listing) => list(rt, talk, file, place, listing),
        Command::Why => tell_why(rt, talk, file, place),
        Command::Trace(is_on) => {
            talk.trace(is_on);
            Ok(())
        }
        Command::Restart => talk.restart(rt),
        Command::LoadModule(name) => load_module(rt, talk, file, place, name),
        Command::Read(_) => {
            talk.refuse(
                rt,
                file,
                place,
                "a file that is read can't read another one",
            );
            Ok(())
        }
        Command::Unknown => {
            talk.refuse(
                rt,
                file,
                place,
                "no line of the shell's own; .help lists them",
            );
            Ok(())
        }
        Command::Quit => Ok(()),
    }
}

/// Prints what the session has, or says that it has nothing of the kind.
fn list<R: Print + Eprint + AllocGlobal>(
    rt: &R,
    talk: &mut Talk,
    file: &str,
    place: Place,
    listing: Listing<'_>,
) -> Result<(), Fault> {
    let mut lines = Vec::new(rt.alloc());
    if write_listing(rt.alloc(), talk, listing, &mut lines).is_err() {
        return Err(Fault::NoMemory(talk.taken));
    }
    if lines.is_empty() {
        talk.refuse(rt, file, place, "there is none");
        return Ok(());
    }
    check_written(rt.write_all(lines.as_slice()))
}

fn write_listing(
    alloc: Global,
    talk: &Talk,
    listing: Listing<'_>,
    lines: &mut Vec<u8>,
) -> Result<(), AllocError> {
    let session = &talk.shell.session;
    match listing {
        Listing::Tables => write_tables(session, lines),
        Listing::Procedures => write_procedures(session, lines),
        Listing::ProceduresOf(module) => match name_of(alloc, module) {
            Some(module) => write_procedures_of(session, module, lines),
            None => Ok(()),
        },
        Listing::Cursors => write_cursors(session, lines),
        Listing::View(view) => match full_name_of(alloc, view) {
            Some((user, name)) => write_view(alloc, session, user, name, lines),
            None => Ok(()),
        },
    }
}

/// Prints why the last call did not end with 00000, or says that there is nothing to tell.
fn tell_why<R: Print + Eprint + AllocGlobal>(
    rt: &R,
    talk: &mut Talk,
    file: &str,
    place: Place,
) -> Result<(), Fault> {
    let mut line = Vec::new(rt.alloc());
    let told = match &talk.shell.last {
        Some(last) => last.write_why(rt.alloc(), &talk.shell.session, &mut line),
        None => {
            talk.refuse(rt, file, place, "no call was made");
            return Ok(());
        }
    };
    if told.is_err() {
        return Err(Fault::NoMemory(talk.taken));
    }
    if line.is_empty() {
        return check_written(rt.print("the last call ended with 00000\n"));
    }
    if line.push(b'\n').is_err() {
        return Err(Fault::NoMemory(talk.taken));
    }
    check_written(rt.write_all(line.as_slice()))
}

/// The name that a text is.
fn name_of(alloc: Global, text: &str) -> Option<Name> {
    let Ok(tokens) = lex(alloc, text.as_bytes()) else {
        return None;
    };
    match tokens.as_slice() {
        [token] => name_in(token),
        _ => None,
    }
}

/// The two names that a text has with a period between them.
fn full_name_of(alloc: Global, text: &str) -> Option<(Name, Name)> {
    let Ok(tokens) = lex(alloc, text.as_bytes()) else {
        return None;
    };
    match tokens.as_slice() {
        [user, period, name] if is_period(period) => match (name_in(user), name_in(name)) {
            (Some(user), Some(name)) => Some((user, name)),
            _ => None,
        },
        _ => None,
    }
}

fn name_in(token: &Token) -> Option<Name> {
    match &token.lexeme {
        Lexeme::Name(name) => Some(*name),
        _ => None,
    }
}

fn is_period(token: &Token) -> bool {
    match &token.lexeme {
        Lexeme::Symbol(Symbol::Dot) => true,
        _ => false,
    }
}

/// Opens the session anew with a further module, and makes the calls so far again.
fn load_module<R: Files + Print + Eprint + AllocGlobal>(
    rt: &R,
    talk: &mut Talk,
    file: &str,
    place: Place,
    name: &str,
) -> Result<(), Fault> {
    let Ok(text) = fs::read(rt, name) else {
        talk.refuse(rt, file, place, "the file cannot be read");
        return Ok(());
    };
    talk.add_module(rt, name, text)
}

/// Turns an output that failed into a fault.
fn check_written(done: io::Result<()>) -> Result<(), Fault> {
    match done {
        Ok(()) => Ok(()),
        Err(_) => Err(Fault::Output),
    }
}
