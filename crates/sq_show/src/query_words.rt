//! Where a query ends with a status, in words.

use crate::breach_words::write_table;
use crate::words::meaning;
use sq_bound::{Names, TablePlace};
use sq_cause::QueryCause;
use sq_ending::{Clause, row_number};
use sq_session::Session;
use sq_store::Store;
use std::alloc::AllocError;
use std::io::Write;

/// `query of view U1.V: WHERE, on row 3 of U1.T and row 1 of U1.S: a division by zero`
pub(crate) fn write_query_cause<S: Store>(
    session: &Session<S>,
    cause: &QueryCause,
    words: &mut Vec<u8>,
) -> Result<(), AllocError> {
    if let Some(term) = cause.term {
        write!(words, "SELECT {} of the query: ", term.saturating_add(1)).map_err(|_| AllocError)?;
    }
    for view in cause.end.views.as_slice() {
        write_view_query(session, TablePlace::View(*view), words)?;
        words.extend_from_slice(b": ")?;
    }
    write_clause(session, cause, words)?;
    words.extend_from_slice(b": ")?;
    words.extend_from_slice(meaning(cause.end.end.end.status))
}

/// `query of view U1.V`
fn write_view_query<S: Store>(
    session: &Session<S>,
    view: TablePlace,
    words: &mut Vec<u8>,
) -> Result<(), AllocError> {
    words.extend_from_slice(b"query of ")?;
    write_item(session, view, words)
}

/// `WHERE, on row 3 of U1.T`, `HAVING, for the group of row 3 of U1.T`, or `query of view U1.V`
fn write_clause<S: Store>(
    session: &Session<S>,
    cause: &QueryCause,
    words: &mut Vec<u8>,
) -> Result<(), AllocError> {
    let clause = cause.end.end.end.clause;
    if let Clause::From(item) = clause {
        return match cause.tables.as_slice().get(item) {
            Some(table) => write_view_query(session, *table, words),
            None => words.extend_from_slice(b"FROM"),
        };
    }
    write_name(clause, words)?;
    let line = cause.end.end.line.as_slice();
    if is_of_group(clause) {
        words.extend_from_slice(b", for the group of ")?;
        if line.is_empty() {
            return words.extend_from_slice(b"no row");
        }
    } else {
        words.extend_from_slice(b", on ")?;
    }
    write_line(session, cause.tables.as_slice(), line, words)
}

/// `WHERE`, `item 2 of the select list`, `operand of set function 1`, `set function 1` or `HAVING`
fn write_name(clause: Clause, words: &mut Vec<u8>) -> Result<(), AllocError> {
    match clause {
        Clause::From(_) => words.extend_from_slice(b"FROM"),
        Clause::Where => words.extend_from_slice(b"WHERE"),
        Clause::Item(number) | Clause::GroupItem(number) => {
            write_numbered(b"item ", number, b" of the select list", words)
        }
        Clause::Operand(number) => {
            write_numbered(b"operand of set function ", number, b"", words)
        }
        Clause::SetFunction(number) => write_numbered(b"set function ", number, b"", words),
        Clause::Having => words.extend_from_slice(b"HAVING"),
    }
}

/// Words with a number, counted from 1, between them.
fn write_numbered(
    before: &[u8],
    number: usize,
    behind: &[u8],
    words: &mut Vec<u8>,
) -> Result<(), AllocError> {
    words.extend_from_slice(before)?;
    write!(words, "{}", number.saturating_add(1)).map_err(|_| AllocError)?;
    words.extend_from_slice(behind)
}

/// Whether a clause is evaluated for groups, and not on lines.
fn is_of_group(clause: Clause) -> bool {
    match clause {
        Clause::SetFunction(_) | Clause::Having | Clause::GroupItem(_) => true,
        Clause::From(_) | Clause::Where | Clause::Item(_) | Clause::Operand(_) => false,
    }
}

/// `row 3 of U1.T and row 1 of view U1.V`
fn write_line<S: Store>(
    session: &Session<S>,
    tables: &[TablePlace],
    places: &[usize],
    words: &mut Vec<u8>,
) -> Result<(), AllocError> {
    let mut before: &[u8] = b"row ";
    for (table, place) in tables.iter().zip(places) {
        words.extend_from_slice(before)?;
        write!(words, "{} of ", number_of(session, *table, *place)).map_err(|_| AllocError)?;
        write_item(session, *table, words)?;
        before = b" and row ";
    }
    Ok(())
}

/// The number of a row at a place: of a base table its own, of a view the place itself, counted from 1.
fn number_of<S: Store>(session: &Session<S>, table: TablePlace, place: usize) -> u64 {
    match table {
        TablePlace::Base(base) => match number_in(session.inside().store, base, place) {
            Some(number) => number,
            None => 0,
        },
        TablePlace::View(_) => (place as u64).saturating_add(1),
    }
}

/// The number of the row of a base table at a place.
fn number_in<S: Store>(store: &S, base: usize, place: usize) -> Option<u64> {
    if base < store.table_count() {
        row_number(store, base, place)
    } else {
        None
    }
}

/// `U1.T` or `view U1.V`
fn write_item<S: Store>(
    session: &Session<S>,
    item: TablePlace,
    words: &mut Vec<u8>,
) -> Result<(), AllocError> {
    if let TablePlace::View(_) = item {
        words.extend_from_slice(b"view ")?;
    }
    match session.catalog().at(item) {
        Some(table) => write_table(table, words),
        None => words.extend_from_slice(b"its table"),
    }
}
