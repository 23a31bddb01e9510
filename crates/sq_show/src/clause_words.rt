//! Rows that are missing, conditions and values that end with a status, in words.

ghost use Rattle.std.specs.Prelude.{◌≡◌, ◌++◌, IfSome, OnOk};
ghost use Rattle.sq_show.specs.CauseWords.{words_of};

use crate::breach_words::{write_column_of, write_put, write_table};
use crate::cursors::{Stand, stand_of};
use crate::option_words::only_view;
use crate::words::{meaning, write_cursor};
use sq_bound::{Names, TablePlace};
use sq_cause::{Cause, Clause, ClauseCause, Demand, Given, NoRowCause, RowEnd, ValueCause};
use sq_session::Session;
use sq_store::Store;
use std::alloc::AllocError;
use std::io::Write;

/// `CA has no row left`, `no row of U1.T meets the condition`, `the query has no row`
pub(crate) fn write_no_row<S: Store>(
    session: &Session<S>,
    cause: NoRowCause,
    words: &mut Vec<u8>,
) -> Result<(), AllocError>
    ensures { OnOk result (IfSome (words_of (Cause.NoRow cause))
        (λ known. words.new.items ≡ words.old.items ++ known)) }
{
    match cause {
        NoRowCause::Fetched(cursor) => {
            write_cursor(session, cursor, without_row(session, cursor), words)
        }
        NoRowCause::Chosen(table) => {
            words.extend_from_slice(b"no row of ")?;
            write_table_at(session, table, words)?;
            words.extend_from_slice(b" meets the condition")
        }
        NoRowCause::Given => words.extend_from_slice(b"the query has no row"),
    }
}

/// What is to be said of a cursor that has come to no row.
fn without_row<S: Store>(session: &Session<S>, cursor: usize) -> &'static [u8] {
    match session.cursors().get(cursor) {
        Some(state) => match stand_of(state) {
            Stand::First => b" has no row before its first",
            Stand::Behind => b" has no further row",
            _ => b" has no row left",
        },
        None => b" has no row left",
    }
}

/// `too few row numbers are left in U1.T`
pub(crate) fn write_no_number<S: Store>(
    session: &Session<S>,
    table: usize,
    words: &mut Vec<u8>,
) -> Result<(), AllocError> {
    words.extend_from_slice(b"too few row numbers are left in ")?;
    write_table_at(session, table, words)
}

/// The name of the base table at a place.
fn write_table_at<S: Store>(
    session: &Session<S>,
    table: usize,
    words: &mut Vec<u8>,
) -> Result<(), AllocError> {
    match session.catalog().at(TablePlace::Base(table)) {
        Some(table) => write_table(table, words),
        None => words.extend_from_slice(b"its table"),
    }
}

/// `WHERE, on row 3 of U1.T: a division by zero`
pub(crate) fn write_clause<S: Store>(
    session: &Session<S>,
    cause: ClauseCause,
    words: &mut Vec<u8>,
) -> Result<(), AllocError> {
    match cause.clause {
        Clause::Where => words.extend_from_slice(b"WHERE")?,
        Clause::View(level) => write_where_of_view(session, cause.table, level, words)?,
    }
    write!(words, ", on row {} of ", cause.number).map_err(|_| AllocError)?;
    write_table_at(session, cause.table, words)?;
    words.extend_from_slice(b": ")?;
    words.extend_from_slice(meaning(cause.status))
}

/// `WHERE of view U1.V`
fn write_where_of_view<S: Store>(
    session: &Session<S>,
    table: usize,
    level: usize,
    words: &mut Vec<u8>,
) -> Result<(), AllocError> {
    match only_view(session.catalog(), table, level) {
        Some(view) => {
            words.extend_from_slice(b"WHERE of view ")?;
            write_table(view, words)
        }
        None => words.extend_from_slice(b"WHERE of a view"),
    }
}

/// `CHECK 2 of U1.T, on new row 1: a division by zero`
pub(crate) fn write_row_end<S: Store>(
    session: &Session<S>,
    end: RowEnd,
    words: &mut Vec<u8>,
) -> Result<(), AllocError> {
    write_demand(session, end.table, end.demand, words)?;
    words.extend_from_slice(b", on ")?;
    write_put(end.put, words)?;
    words.extend_from_slice(b": ")?;
    words.extend_from_slice(meaning(end.status))
}

/// `CHECK 2 of U1.T`, or `check option, WHERE of view U1.V`
fn write_demand<S: Store>(
    session: &Session<S>,
    table: usize,
    demand: Demand,
    words: &mut Vec<u8>,
) -> Result<(), AllocError> {
    match demand {
        Demand::Check(check) => {
            write!(words, "CHECK {} of ", check.saturating_add(1)).map_err(|_| AllocError)?;
            write_table_at(session, table, words)
        }
        Demand::View(level) => {
            words.extend_from_slice(b"check option, ")?;
            write_where_of_view(session, table, level, words)
        }
    }
}

/// `value 2, for A of U1.T: a text is too long for its column`
pub(crate) fn write_value_cause<S: Store>(
    session: &Session<S>,
    cause: ValueCause,
    words: &mut Vec<u8>,
) -> Result<(), AllocError> {
    write_given(cause, words)?;
    words.extend_from_slice(b", for ")?;
    match session.catalog().at(TablePlace::Base(cause.table)) {
        Some(table) => write_column_of(table, cause.column, words)?,
        None => words.extend_from_slice(b"its column")?,
    }
    if let Given::InSet(number) = cause.given {
        write!(words, ", on row {number}").map_err(|_| AllocError)?;
    }
    words.extend_from_slice(b": ")?;
    words.extend_from_slice(meaning(cause.fault.status()))
}

/// Which value: of VALUES, of SET, or of a row of the query.
fn write_given(cause: ValueCause, words: &mut Vec<u8>) -> Result<(), AllocError> {
    let item = cause.item.saturating_add(1);
    let written = match cause.given {
        Given::InValues => write!(words, "value {item}"),
        Given::InSet(_) => write!(words, "SET, value {item}"),
        Given::InQuery(place) => {
            write!(
                words,
                "row {} of the query, value {item}",
                place.saturating_add(1)
            )
        }
    };
    written.map_err(|_| AllocError)
}
