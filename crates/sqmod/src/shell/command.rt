//! Lines that begin with a dot, which are the shell's own.
use std::str;

/// The command in such a line.
#[derive(Clone, Copy)]
pub(crate) enum Command<'a> {
    Help,
    Quit,
    /// The lines of a file in the place of those that are typed.
    Read(&'a str),
    List(Listing<'a>),
    /// Why the last call did not end with 00000.
    Why,
    /// Whether notes are written of each call from now on.
    Trace(bool),
    /// The first state.
    Restart,
    /// A further module, from a file.
    LoadModule(&'a str),
    Unknown,
}

/// A part of a session, to be listed.
#[derive(Clone, Copy)]
pub(crate) enum Listing<'a> {
    Tables,
    /// The procedures of all modules.
    Procedures,
    /// The procedures of one module.
    ProceduresOf(&'a str),
    Cursors,
    /// The rows of the view of this owner and name, with a period between them.
    View(&'a str),
}

/// The text that `.help` prints.
pub(crate) const HELP: &str = "\
CALL M.P (1, 'A', NULL, *);  calls a procedure
TABLE U.T;                   shows a base table
.help                        these lines
.tables                      the base tables with their columns and how many rows they have, and the views
.procedures [M]              the procedures, of all modules or of M, with their parameters
.cursors                     where each cursor stands
.show U.V                    the rows of a view, as its owner sees them
.why                         why the last call did not end with 00000
.trace on, .trace off        notes on each call, as sqmod trace writes them
.read FILE                   takes what a file has, as if it were typed
.restart                     goes back to the first state
.load-module FILE            opens the session anew with a further module, and makes the calls so far again
.quit                        ends, as the end of what is typed does
";

/// Reads the command of a line.
pub(crate) fn command_of(line: &[u8]) -> Command<'_> {
    match str::from_utf8(line) {
        Ok(text) => command_in(text.trim()),
        Err(_) => Command::Unknown,
    }
}

fn command_in(text: &str) -> Command<'_> {
    match text.split_once(' ') {
        Some((word, rest)) => command_with_word(word, rest.trim_start()),
        None => command_of_word(text),
    }
}

/// Reads a command of one word.
fn command_of_word(word: &str) -> Command<'_> {
    match word {
        ".help" => Command::Help,
        ".quit" => Command::Quit,
        ".restart" => Command::Restart,
        ".tables" => Command::List(Listing::Tables),
        ".procedures" => Command::List(Listing::Procedures),
        ".cursors" => Command::List(Listing::Cursors),
        ".why" => Command::Why,
        _ => Command::Unknown,
    }
}

/// Reads a command with a word after it.
fn command_with_word<'a>(word: &str, rest: &'a str) -> Command<'a> {
    match word {
        ".read" => Command::Read(rest),
        ".load-module" => Command::LoadModule(rest),
        ".procedures" => Command::List(Listing::ProceduresOf(rest)),
        ".show" => Command::List(Listing::View(rest)),
        ".trace" => command_of_switch(rest),
        _ => Command::Unknown,
    }
}

/// Reads a command that turns notes on or off.
fn command_of_switch(word: &str) -> Command<'_> {
    match word {
        "on" => Command::Trace(true),
        "off" => Command::Trace(false),
        _ => Command::Unknown,
    }
}
