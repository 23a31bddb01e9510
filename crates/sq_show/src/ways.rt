//! How the rows of each table that a procedure reads are found: a line for each.

ghost use Rattle.sq_catalog.specs.Catalog.{column_kinds};
ghost use Rattle.sq_show.specs.Ways.{FindCursors, FindsSource, FindsStatement};

use sq_bound::{
    BoundCursor, BoundStatement, BoundUpdate, ChangeTarget, CursorBody, InsertedRows, Names,
    TableBody, TableDesc, TablePlace, Target,
};
use sq_lex::Name;
use sq_query::{
    ColumnPlace, How, KeyPlace, Way, way_of_walk, ways_of_query, ways_of_specification,
    ways_of_target,
};
use sq_session::{Inside, Session};
use sq_store::Store;
use std::alloc::{AllocError, Global};

/// Adds a line for each table that a procedure reads at a call, in the order of the text: how its rows are found. A cursor is read by its OPEN
/// or, row by row, by its FETCH.
pub fn write_ways<S: Store>(
    alloc: Global,
    session: &Session<S>,
    module: Name,
    name: Name,
    lines: &mut Vec<u8>,
) -> Result<(), AllocError> {
    let Some(number) = session.procedure(module, name) else {
        return Ok(());
    };
    let inside = session.inside();
    match inside.program.procedures.get_index(number) {
        Some((_, procedure)) => match &procedure.statement {
            Ok(statement) => write_of_statement(alloc, &inside, statement, lines),
            Err(_) => Ok(()),
        },
        None => Ok(()),
    }
}

fn write_of_statement<S: Store>(
    alloc: Global,
    inside: &Inside<'_, S>,
    statement: &BoundStatement,
    lines: &mut Vec<u8>,
) -> Result<(), AllocError>
    requires finds { FindsStatement inside.now.catalog.now.bases (column_kinds inside.now.catalog.now)
        statement.now }
    requires cursors { FindCursors inside.now.catalog.now.bases (column_kinds inside.now.catalog.now)
        inside.now.program.now.cursors.items }
{
    match statement {
        BoundStatement::Open(cursor) => write_of_open(alloc, inside, *cursor, lines),
        BoundStatement::Fetch(fetch) => write_of_fetch(alloc, inside, fetch.cursor, lines),
        BoundStatement::Select(select) => {
            let ways = ways_of_specification(alloc, inside.catalog, &select.query)?;
            write_all(inside, ways, lines)
        }
        BoundStatement::Insert(insert) => write_of_source(alloc, inside, &insert.source, lines),
        BoundStatement::Update(update) => write_of_update(alloc, inside, update, lines),
        BoundStatement::Delete(target) => write_of_change(alloc, inside, target, lines),
        BoundStatement::Close(_) | BoundStatement::Commit | BoundStatement::Rollback => Ok(()),
    }
}

// ---- cursors

/// Adds how the rows of a cursor are found by its OPEN. A cursor that walks reads none then.
fn write_of_open<S: Store>(
    alloc: Global,
    inside: &Inside<'_, S>,
    number: usize,
    lines: &mut Vec<u8>,
) -> Result<(), AllocError>
    requires { FindCursors inside.now.catalog.now.bases (column_kinds inside.now.catalog.now)
        inside.now.program.now.cursors.items }
{
    match inside.program.cursors.get(number) {
        Some(declared) => match &declared.cursor.body {
            CursorBody::Rows(query, _) => {
                let ways = ways_of_query(alloc, inside.catalog, query)?;
                write_all(inside, ways, lines)
            }
            CursorBody::Updatable(updatable) => {
                if updatable.target.is_quiet {
                    Ok(())
                } else {
                    write_of_target(alloc, inside, &updatable.target, lines)
                }
            }
        },
        None => Ok(()),
    }
}

/// Adds how the next row of a cursor that walks is found.
fn write_of_fetch<S: Store>(
    alloc: Global,
    inside: &Inside<'_, S>,
    number: usize,
    lines: &mut Vec<u8>,
) -> Result<(), AllocError> {
    match walked(inside, number) {
        Some(target) => write_way(inside, way_of_walk(alloc, target)?, b" row by row", lines),
        None => Ok(()),
    }
}

/// The target of a cursor that walks.
fn walked<'a, S: Store>(inside: &Inside<'a, S>, number: usize) -> Option<&'a Target> {
    let declared = inside.program.cursors.get(number)?;
    walked_by(&declared.cursor)
}

fn walked_by(cursor: &BoundCursor) -> Option<&Target> {
    match &cursor.body {
        CursorBody::Updatable(updatable) => {
            if updatable.target.is_quiet {
                Some(&updatable.target)
            } else {
                None
            }
        }
        CursorBody::Rows(..) => None,
    }
}

// ---- changes

fn write_of_source<S: Store>(
    alloc: Global,
    inside: &Inside<'_, S>,
    source: &InsertedRows,
    lines: &mut Vec<u8>,
) -> Result<(), AllocError>
    requires { FindsSource inside.now.catalog.now.bases (column_kinds inside.now.catalog.now) source.now }
{
    match source {
        InsertedRows::Query(query) => {
            let ways = ways_of_specification(alloc, inside.catalog, query)?;
            write_all(inside, ways, lines)
        }
        InsertedRows::Values(_) => Ok(()),
    }
}

fn write_of_update<S: Store>(
    alloc: Global,
    inside: &Inside<'_, S>,
    update: &BoundUpdate,
    lines: &mut Vec<u8>,
) -> Result<(), AllocError> {
    write_of_change(alloc, inside, &update.target, lines)
}

/// Adds how the rows that a searched change means are found. The row of a positioned one is known.
fn write_of_change<S: Store>(
    alloc: Global,
    inside: &Inside<'_, S>,
    target: &ChangeTarget,
    lines: &mut Vec<u8>,
) -> Result<(), AllocError> {
    match target {
        ChangeTarget::Searched(target) => write_of_target(alloc, inside, target, lines),
        ChangeTarget::Positioned(_) => Ok(()),
    }
}

fn write_of_target<S: Store>(
    alloc: Global,
    inside: &Inside<'_, S>,
    target: &Target,
    lines: &mut Vec<u8>,
) -> Result<(), AllocError> {
    let ways = ways_of_target(alloc, inside.catalog, target)?;
    write_all(inside, ways, lines)
}

// ---- lines

fn write_all<S: Store>(
    inside: &Inside<'_, S>,
    ways: Vec<Way>,
    lines: &mut Vec<u8>,
) -> Result<(), AllocError> {
    for way in ways.as_slice() {
        write_way(inside, *way, b" whole", lines)?;
    }
    Ok(())
}

/// Adds the line of a way; one that looks at all rows ends with these words.
fn write_way<S: Store>(
    inside: &Inside<'_, S>,
    way: Way,
    whole: &[u8],
    lines: &mut Vec<u8>,
) -> Result<(), AllocError> {
    write_name(inside, way.table, lines)?;
    match way.how {
        How::Key(place) => write_key(inside, b" by ", place, lines)?,
        How::Several(place) => write_key(inside, b" by values of ", place, lines)?,
        How::Value(place) => write_reference(inside, place, lines)?,
        How::Whole => lines.extend_from_slice(whole)?,
    }
    write_base(inside, way, lines)?;
    lines.push(b'\n')?;
    Ok(())
}

/// Adds the base table under a view of which a key or a column is used.
fn write_base<S: Store>(
    inside: &Inside<'_, S>,
    way: Way,
    lines: &mut Vec<u8>,
) -> Result<(), AllocError> {
    match (way.table, base_of(way.how)) {
        (TablePlace::View(_), Some(base)) => {
            lines.extend_from_slice(b" of ")?;
            write_name(inside, TablePlace::Base(base), lines)
        }
        _ => Ok(()),
    }
}

fn base_of(how: How) -> Option<usize> {
    match how {
        How::Key(place) | How::Several(place) => Some(place.base),
        How::Value(place) => Some(place.base),
        How::Whole => None,
    }
}

/// Adds the owner and the name of a table.
fn write_name<S: Store>(
    inside: &Inside<'_, S>,
    place: TablePlace,
    lines: &mut Vec<u8>,
) -> Result<(), AllocError> {
    match inside.catalog.at(place) {
        Some(table) => {
            lines.extend_from_slice(table.user.codes())?;
            lines.push(b'.')?;
            lines.extend_from_slice(table.name.codes())
        }
        None => Ok(()),
    }
}

/// Adds a key as its table declares it.
fn write_key<S: Store>(
    inside: &Inside<'_, S>,
    by: &[u8],
    place: KeyPlace,
    lines: &mut Vec<u8>,
) -> Result<(), AllocError> {
    lines.extend_from_slice(by)?;
    match inside.catalog.at(TablePlace::Base(place.base)) {
        Some(table) => write_declared(table, place.key, lines),
        None => Ok(()),
    }
}

fn write_declared(table: &TableDesc, key: usize, lines: &mut Vec<u8>) -> Result<(), AllocError> {
    let TableBody::Base(base) = &table.body else {
        return Ok(());
    };
    lines.extend_from_slice(word_of(base.get().primary_key == Some(key)))?;
    match base.get().keys.as_slice().get(key) {
        Some(columns) => write_columns(table, columns.as_slice(), lines),
        None => Ok(()),
    }
}

fn word_of(is_primary: bool) -> &'static [u8] {
    if is_primary {
        b"PRIMARY KEY"
    } else {
        b"UNIQUE"
    }
}

/// Adds the column that refers to another table.
fn write_reference<S: Store>(
    inside: &Inside<'_, S>,
    place: ColumnPlace,
    lines: &mut Vec<u8>,
) -> Result<(), AllocError> {
    lines.extend_from_slice(b" by FOREIGN KEY")?;
    match inside.catalog.at(TablePlace::Base(place.base)) {
        Some(table) => write_columns(table, &[place.column], lines),
        None => Ok(()),
    }
}

/// Adds the names of columns in brackets.
fn write_columns(
    table: &TableDesc,
    columns: &[usize],
    lines: &mut Vec<u8>,
) -> Result<(), AllocError> {
    let mut before: &[u8] = b" (";
    for column in columns {
        lines.extend_from_slice(before)?;
        if let Some(named) = table.columns.as_slice().get(*column) {
            lines.extend_from_slice(named.name.codes())?;
        }
        before = b", ";
    }
    lines.push(b')')?;
    Ok(())
}
