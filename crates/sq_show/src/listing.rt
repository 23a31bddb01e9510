//! What a session has: its tables and views, its procedures and its cursors, a line for each.
use sq_bound::{Names, ParameterDesc, TableDesc, TablePlace};
use sq_lex::Name;
use sq_session::{CursorState, Session};
use sq_store::Store;
use sq_value::Domain;
use std::alloc::AllocError;
use std::io::Write;

/// The greatest number of tables and views.
const MOST_TABLES: usize = 1000;

/// Adds a line for each base table, with its columns and how many rows it has, and for each view.
pub fn write_tables<S: Store>(session: &Session<S>, lines: &mut Vec<u8>) -> Result<(), AllocError> {
    for place in 0..session.catalog().bases().len() {
        if let Some(table) = session.catalog().at(TablePlace::Base(place)) {
            write_columns(table, lines)?;
            write_count(session, table, lines)?;
        }
    }
    write_views(session, lines)
}

/// Adds how many rows a base table has.
fn write_count<S: Store>(
    session: &Session<S>,
    table: &TableDesc,
    lines: &mut Vec<u8>,
) -> Result<(), AllocError> {
    let count = match session.rows(table.user, table.name) {
        Some(rows) => rows.len(),
        None => 0,
    };
    let rows = if count == 1 { "row" } else { "rows" };
    writeln!(lines, ": {count} {rows}").map_err(|_| AllocError)
}

fn write_views<S: Store>(session: &Session<S>, lines: &mut Vec<u8>) -> Result<(), AllocError> {
    for place in 0..MOST_TABLES {
        match session.catalog().at(TablePlace::View(place)) {
            Some(view) => {
                write_columns(view, lines)?;
                lines.extend_from_slice(b": a view\n")?;
            }
            None => break,
        }
    }
    Ok(())
}

/// Adds the name of a table or a view, and the names of its columns.
pub(crate) fn write_columns(table: &TableDesc, lines: &mut Vec<u8>) -> Result<(), AllocError> {
    write_names(table.user, table.name, lines)?;
    let mut before: &[u8] = b" (";
    for column in table.columns.as_slice() {
        lines.extend_from_slice(before)?;
        lines.extend_from_slice(column.name.codes())?;
        before = b", ";
    }
    lines.push(b')')?;
    Ok(())
}

/// Adds two names with a period between them.
fn write_names(first: Name, second: Name, lines: &mut Vec<u8>) -> Result<(), AllocError> {
    lines.extend_from_slice(first.codes())?;
    lines.push(b'.')?;
    lines.extend_from_slice(second.codes())
}

/// Adds a line for each procedure of all modules.
pub fn write_procedures<S: Store>(
    session: &Session<S>,
    lines: &mut Vec<u8>,
) -> Result<(), AllocError> {
    for (name, procedure) in session.program().procedures.iter() {
        let parameters = procedure.parameters.as_slice();
        write_procedure(
            name.module,
            name.name,
            parameters,
            procedure.statement.is_err(),
            lines,
        )?;
    }
    Ok(())
}

/// Adds a line for each procedure of a module.
pub fn write_procedures_of<S: Store>(
    session: &Session<S>,
    module: Name,
    lines: &mut Vec<u8>,
) -> Result<(), AllocError> {
    for (name, procedure) in session.program().procedures.iter() {
        if name.module == module {
            let parameters = procedure.parameters.as_slice();
            write_procedure(
                module,
                name.name,
                parameters,
                procedure.statement.is_err(),
                lines,
            )?;
        }
    }
    Ok(())
}

/// Adds the line of a procedure: its named parameters with their types, for which a call has values.
fn write_procedure(
    module: Name,
    name: Name,
    parameters: &[ParameterDesc],
    is_faulty: bool,
    lines: &mut Vec<u8>,
) -> Result<(), AllocError> {
    write_names(module, name, lines)?;
    write_parameters(parameters, lines)?;
    lines.extend_from_slice(end_of(is_faulty))
}

/// How the line of a procedure ends.
fn end_of(is_faulty: bool) -> &'static [u8] {
    if is_faulty {
        b": each call answers 42000\n"
    } else {
        b"\n"
    }
}

fn write_parameters(parameters: &[ParameterDesc], lines: &mut Vec<u8>) -> Result<(), AllocError> {
    let mut before: &[u8] = b" (";
    for parameter in parameters {
        lines.extend_from_slice(before)?;
        lines.extend_from_slice(parameter.name.codes())?;
        write_domain(parameter.domain, lines)?;
        before = b", ";
    }
    if !parameters.is_empty() {
        lines.push(b')')?;
    }
    Ok(())
}

/// Adds a type behind a blank.
fn write_domain(domain: Domain, lines: &mut Vec<u8>) -> Result<(), AllocError> {
    match domain {
        Domain::Small => lines.extend_from_slice(b" SMALLINT"),
        Domain::Int => lines.extend_from_slice(b" INTEGER"),
        Domain::Numeric(precision, scale) => {
            write!(lines, " NUMERIC({precision},{scale})").map_err(|_| AllocError)
        }
        Domain::Char(length) => write!(lines, " CHAR({length})").map_err(|_| AllocError),
        Domain::VarChar(length) => write!(lines, " VARCHAR({length})").map_err(|_| AllocError),
    }
}

/// Adds a line for each cursor: whether it is closed, or on which row it is.
pub fn write_cursors<S: Store>(
    session: &Session<S>,
    lines: &mut Vec<u8>,
) -> Result<(), AllocError> {
    let declared = session.program().cursors.as_slice();
    for (cursor, state) in declared.iter().zip(session.cursors()) {
        write_names(cursor.module, cursor.name, lines)?;
        write_state(session, state, lines)?;
        lines.push(b'\n')?;
    }
    Ok(())
}

fn write_state<S: Store>(
    session: &Session<S>,
    state: &CursorState,
    lines: &mut Vec<u8>,
) -> Result<(), AllocError> {
    match state {
        CursorState::Closed => lines.extend_from_slice(b" is closed"),
        CursorState::Numbers(numbers) => {
            write_row(
                session,
                numbers.table,
                numbers.on,
                numbers.passed == 0,
                lines,
            )
        }
        CursorState::Walking(walk) => {
            write_row(session, walk.table, walk.on, walk.next == 0, lines)
        }
        CursorState::Rows(rows) => write_place(rows.place, rows.rows.len(), lines),
    }
}

/// Adds on which row of a base table a cursor stands, if on any.
fn write_row<S: Store>(
    session: &Session<S>,
    table: usize,
    on: Option<u64>,
    is_first: bool,
    lines: &mut Vec<u8>,
) -> Result<(), AllocError> {
    match on {
        Some(number) => {
            write!(lines, " is on row {number} of ").map_err(|_| AllocError)?;
            write_table(session, table, lines)
        }
        None if is_first => lines.extend_from_slice(b" is open, before its first row"),
        None => lines.extend_from_slice(b" is on no row"),
    }
}

/// Adds the name of the base table at a place.
fn write_table<S: Store>(
    session: &Session<S>,
    table: usize,
    lines: &mut Vec<u8>,
) -> Result<(), AllocError> {
    match session.catalog().at(TablePlace::Base(table)) {
        Some(table) => write_names(table.user, table.name, lines),
        None => Ok(()),
    }
}

/// Adds where a cursor stands among rows of its own.
fn write_place(place: usize, count: usize, lines: &mut Vec<u8>) -> Result<(), AllocError> {
    if place == 0 {
        lines.extend_from_slice(b" is open, before its first row")
    } else if place > count {
        lines.extend_from_slice(b" is behind its last row")
    } else {
        write!(lines, " is on row {place} of its {count}").map_err(|_| AllocError)
    }
}
