//! A cause in words, one line without its end.

ghost use Rattle.std.specs.Prelude.{◌≡◌, ◌++◌, IfSome, OnOk, codes};
ghost use Rattle.sq_show.specs.CauseWords.{fault_words, meaning, target_words, unless_end, without_ends, words_of};
ghost use Rattle.sq_show.specs.Words.{IsContinued};

use crate::breach_words::write_breach;
use crate::clause_words::{
    write_clause, write_no_number, write_no_row, write_row_end, write_value_cause,
};
use crate::option_words::write_option;
use crate::query_words::write_query_cause;
use sq_cause::{Cause, CursorCause, SelectCause, TargetCause, TargetFault};
use sq_lex::Name;
use sq_meaning::Status;
use sq_session::{Fault, Session};
use sq_store::Store;
use std::alloc::{AllocError, Global};
use std::io::Write;

/// Appends the words of a cause, one line without its end.
pub fn write_cause<S: Store>(
    alloc: Global,
    session: &Session<S>,
    cause: &Cause,
    line: &mut Vec<u8>,
) -> Result<(), AllocError>
    ensures line { OnOk result (IsContinued line.old.items line.new.items) }
    ensures words { OnOk result (IfSome (words_of cause.now)
        (λ words. line.new.items ≡ line.old.items ++ without_ends words)) }
{
    let mut words = Vec::new(alloc);
    let told = write_words(alloc, session, cause, &mut words);
    let added = match told {
        Ok(()) => add_to_line(words.as_slice(), line),
        Err(error) => Err(error),
    };
    drop(words);
    added
}

/// Appends what is no line end.
#[tactic(auto, using(crate::proofs::Continued::without_all))]
fn add_to_line(words: &[u8], line: &mut Vec<u8>) -> Result<(), AllocError>
    ensures line { OnOk result (IsContinued line.old.items line.new.items) }
    ensures words { OnOk result (line.new.items ≡ line.old.items ++ without_ends words.now) }
{
    for code in words {
        add_code(*code, line)?;
    }
    Ok(())
}

/// Appends a character unless it is a line end.
fn add_code(code: u8, line: &mut Vec<u8>) -> Result<(), AllocError>
    ensures { OnOk result (line.new.items ≡ line.old.items ++ unless_end code) }
{
    if code == b'\n' {
        return Ok(());
    }
    line.push(code)?;
    Ok(())
}

fn write_words<S: Store>(
    alloc: Global,
    session: &Session<S>,
    cause: &Cause,
    words: &mut Vec<u8>,
) -> Result<(), AllocError>
    ensures { OnOk result (IfSome (words_of cause.now) (λ known. words.new.items ≡ words.old.items ++ known)) }
{
    match cause {
        Cause::Fault(fault) => write_fault(*fault, words),
        Cause::Cursor(cause) => write_cursor_cause(session, *cause, words),
        Cause::Breach(table, breach) => write_breach(alloc, session, *table, *breach, words),
        Cause::CheckOption(table, breach) => write_option(session, *table, *breach, words),
        Cause::Value(cause) => write_value_cause(session, *cause, words),
        Cause::Target(cause) => write_target_cause(*cause, words),
        Cause::Select(cause) => write_select_cause(*cause, words),
        Cause::NoRow(cause) => write_no_row(session, *cause, words),
        Cause::NoNumber(table) => write_no_number(session, *table, words),
        Cause::Clause(cause) => write_clause(session, *cause, words),
        Cause::RowEnd(end) => write_row_end(session, *end, words),
        Cause::Query(cause) => write_query_cause(session, cause, words),
        Cause::General(status) => words.extend_from_slice(meaning(*status)),
    }
}

/// The fault, and the name that it is about.
fn write_fault(fault: Fault, words: &mut Vec<u8>) -> Result<(), AllocError> {
    write!(words, "the statement has the fault {:?}", fault.rule).map_err(|_| AllocError)?;
    match fault.about {
        Some(name) => write_behind(b" of ", name, words),
        None => Ok(()),
    }
}

fn write_behind(before: &[u8], name: Name, words: &mut Vec<u8>) -> Result<(), AllocError> {
    words.extend_from_slice(before)?;
    words.extend_from_slice(name.codes())
}

fn write_cursor_cause<S: Store>(
    session: &Session<S>,
    cause: CursorCause,
    words: &mut Vec<u8>,
) -> Result<(), AllocError> {
    match cause {
        CursorCause::IsOpen(cursor) => write_cursor(session, cursor, b" is open already", words),
        CursorCause::IsClosed(cursor) => write_cursor(session, cursor, b" is closed", words),
        CursorCause::IsOnNoRow(cursor) => write_cursor(session, cursor, b" is on no row", words),
        CursorCause::RowIsGone(cursor, number) => {
            write_cursor(session, cursor, b" was on row ", words)?;
            write!(words, "{number}, which is gone").map_err(|_| AllocError)
        }
    }
}

/// The name of a cursor, and what is to be said of it.
pub(crate) fn write_cursor<S: Store>(
    session: &Session<S>,
    cursor: usize,
    rest: &[u8],
    words: &mut Vec<u8>,
) -> Result<(), AllocError> {
    match session.program().cursors.get(cursor) {
        Some(declared) => words.extend_from_slice(declared.name.codes())?,
        None => words.extend_from_slice(b"the cursor")?,
    }
    words.extend_from_slice(rest)
}

fn write_select_cause(cause: SelectCause, words: &mut Vec<u8>) -> Result<(), AllocError>
    ensures { OnOk result (IfSome (words_of (Cause.Select cause))
        (λ known. words.new.items ≡ words.old.items ++ known)) }
{
    match cause {
        SelectCause::Target(cause) => write_target_cause(cause, words),
        SelectCause::NoRow => words.extend_from_slice(b"the query has no row"),
        SelectCause::SeveralRows => words.extend_from_slice(b"the query has more than one row"),
    }
}

/// The parameter, and why it can't take its value.
#[tactic(auto, using(crate::proofs::Worded::behind))]
fn write_target_cause(cause: TargetCause, words: &mut Vec<u8>) -> Result<(), AllocError>
    ensures { OnOk result (IfSome (target_words cause) (λ known. words.new.items ≡ words.old.items ++ known)) }
{
    write_parameter(cause.parameter, words)?;
    write_target_fault(cause.fault, words)
}

fn write_parameter(name: Name, words: &mut Vec<u8>) -> Result<(), AllocError>
    ensures { OnOk result (words.new.items ≡ (words.old.items ++ codes "parameter ") ++ name) }
{
    words.extend_from_slice(b"parameter ")?;
    words.extend_from_slice(name.codes())
}

/// Why a parameter can't take its value.
fn write_target_fault(fault: TargetFault, words: &mut Vec<u8>) -> Result<(), AllocError>
    ensures { OnOk result (IfSome (fault_words fault) (λ known. words.new.items ≡ words.old.items ++ known)) }
{
    match fault {
        TargetFault::NullWithoutIndicator => {
            words.extend_from_slice(b": null, and it has no indicator")
        }
        TargetFault::OutOfRange => words.extend_from_slice(b": the number is out of its range"),
        TargetFault::Cut(length) => {
            write!(words, ": a text of {length} characters was cut").map_err(|_| AllocError)
        }
    }
}

/// What a status means.
pub(crate) fn meaning(status: Status) -> &'static [u8]
    ensures { result.now ≡ meaning status }
{
    match status {
        Status::SuccessfulCompletion => b"done",
        Status::TextTruncated => b"a text was cut to the length of its parameter",
        Status::NoData => b"no row",
        Status::CardinalityViolation => b"more than one row",
        Status::TextTooLong => b"a text is too long for its column",
        Status::NullWithoutIndicator => b"null for a parameter without an indicator",
        Status::NumericValueOutOfRange => b"a number is out of range",
        Status::DivisionByZero => b"a division by zero",
        Status::InvalidEscapeCharacter => b"the escape character of a LIKE is not one character",
        Status::InvalidEscapeSequence => b"the escape character of a LIKE escapes nothing",
        Status::IntegrityConstraintViolation => b"a constraint would not hold",
        Status::InvalidCursorState => b"the cursor is not in the state that the statement wants",
        Status::SyntaxErrorOrAccessRuleViolation => b"the statement has a fault",
        Status::CheckOptionViolation => b"a row would not be one of its view",
        Status::NoRowNumberLeft => b"no row number is left in the table",
    }
}
