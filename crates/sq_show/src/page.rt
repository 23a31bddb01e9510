//! A page that steps through a run: its data, and what it is made of besides.

ghost use Rattle.std.specs.Prelude.{◌≡◌, [], All, IfOk, OnOk};
ghost use Rattle.sq_perform.specs.Steps.{IsPrepared};
ghost use Rattle.sq_show.specs.Page.{HasItem, HasItems, IsPage};

use crate::changes::push_table_name;
use crate::cursors::{push_stand_words, stand_of};
use crate::json::{push_comma, push_text};
use crate::look::rows_of;
use crate::table::{number_cell, value_cell};
use crate::template::{END, START};
use crate::trace::{TraceOptions, trace_action};
use sq_bound::{Names, TableDesc, TablePlace};
use sq_perform::Action;
use sq_session::{CursorState, Session};
use sq_store::{Numbered, Store};
use std::alloc::{AllocError, Global};

/// Performs actions one after the other, and makes a page of what each did, up to the first call that fails if it is to stop
/// there. The page needs nothing else. The lines of its steps, without their notes, are the report of the actions.
pub fn trace_page<S: Store>(
    alloc: Global,
    session: &mut Session<S>,
    actions: &[Action],
    options: TraceOptions,
) -> Result<Vec<u8>, AllocError>
    requires { All (IsPrepared session.old) actions.now }
    ensures { IfOk result
        (λ page. IsPage options.stop actions.now session.old page.items session.new) }
{
    let mut page = Vec::new(alloc);
    match push_page(alloc, session, actions, options, &mut page) {
        Ok(()) => Ok(page),
        Err(error) => {
            drop(page);
            Err(error)
        }
    }
}

fn push_page<S: Store>(
    alloc: Global,
    session: &mut Session<S>,
    actions: &[Action],
    options: TraceOptions,
    page: &mut Vec<u8>,
) -> Result<(), AllocError>
    requires { All (IsPrepared session.old) actions.now }
    ensures { OnOk result (IsPage options.stop actions.now session.old page.new.items session.new) }
{
    page.extend_from_slice(START.as_bytes())?;
    push_names(session, page)?;
    push_items(alloc, session, actions, options, page)?;
    page.extend_from_slice(END.as_bytes())
}

/// Adds the tables with their columns, and the cursors.
fn push_names<S: Store>(session: &Session<S>, page: &mut Vec<u8>) -> Result<(), AllocError> {
    page.extend_from_slice(b"{\"tables\":[")?;
    for place in 0..session.catalog().bases().len() {
        push_comma(page, place)?;
        if let Some(table) = session.catalog().at(TablePlace::Base(place)) {
            push_table(page, table)?;
        }
    }
    page.extend_from_slice(b"],\"cursors\":[")?;
    push_cursor_names(session, page)?;
    page.extend_from_slice(b"],\"items\":[\n")
}

fn push_table(page: &mut Vec<u8>, table: &TableDesc) -> Result<(), AllocError> {
    page.extend_from_slice(b"{\"name\":\"")?;
    push_table_name(table, page)?;
    page.extend_from_slice(b"\",\"columns\":[")?;
    push_columns(page, table)?;
    page.extend_from_slice(b"]}")
}

fn push_columns(page: &mut Vec<u8>, table: &TableDesc) -> Result<(), AllocError> {
    for (place, column) in table.columns.as_slice().iter().enumerate() {
        push_comma(page, place)?;
        push_text(page, column.name.codes())?;
    }
    Ok(())
}

fn push_cursor_names<S: Store>(session: &Session<S>, page: &mut Vec<u8>) -> Result<(), AllocError> {
    for (place, cursor) in session.program().cursors.as_slice().iter().enumerate() {
        push_comma(page, place)?;
        page.push(b'"')?;
        page.extend_from_slice(cursor.module.codes())?;
        page.push(b'.')?;
        page.extend_from_slice(cursor.name.codes())?;
        page.push(b'"')?;
    }
    Ok(())
}

/// Performs actions, and adds what there is to each.
fn push_items<S: Store>(
    alloc: Global,
    session: &mut Session<S>,
    actions: &[Action],
    options: TraceOptions,
    page: &mut Vec<u8>,
) -> Result<(), AllocError>
    requires { All (IsPrepared session.old) actions.now }
    ensures { OnOk result
        (HasItems options.stop actions.now session.old page.old.items page.new.items session.new) }
{
    let mut lines = Vec::new(alloc);
    for (place, action) in actions.iter().enumerate() {
        let fails = trace_action(alloc, session, action, options, &mut lines)?;
        push_comma(page, place)?;
        push_item(alloc, session, lines.as_slice(), page)?;
        if fails && options.stop {
            return Ok(());
        }
    }
    Ok(())
}

/// Adds the lines of an action, and what the session has behind it.
fn push_item<S: Store>(
    alloc: Global,
    session: &Session<S>,
    lines: &[u8],
    page: &mut Vec<u8>,
) -> Result<(), AllocError>
    ensures { OnOk result (HasItem lines.now page.old.items page.new.items) }
{
    let mut state = Vec::new(alloc);
    push_state(alloc, session, &mut state)?;
    page.extend_from_slice(b"{\"lines\":")?;
    push_text(page, lines)?;
    page.extend_from_slice(state.as_slice())
}

/// Adds what a session has: the rows of its tables, and where its cursors stand.
fn push_state<S: Store>(
    alloc: Global,
    session: &Session<S>,
    page: &mut Vec<u8>,
) -> Result<(), AllocError> {
    page.extend_from_slice(b",\"tables\":[")?;
    push_tables(alloc, session, page)?;
    page.extend_from_slice(b"],\"cursors\":[")?;
    push_stands(alloc, session, page)?;
    page.extend_from_slice(b"]}\n")
}

fn push_tables<S: Store>(
    alloc: Global,
    session: &Session<S>,
    page: &mut Vec<u8>,
) -> Result<(), AllocError> {
    for place in 0..session.catalog().bases().len() {
        push_comma(page, place)?;
        push_rows_at(alloc, session, place, page)?;
    }
    Ok(())
}

fn push_rows_at<S: Store>(
    alloc: Global,
    session: &Session<S>,
    place: usize,
    page: &mut Vec<u8>,
) -> Result<(), AllocError> {
    let Some(table) = session.catalog().at(TablePlace::Base(place)) else {
        return page.extend_from_slice(b"[]");
    };
    let rows = rows_of(alloc, session, table)?;
    let ended = push_rows(alloc, rows.as_slice(), page);
    drop(rows);
    ended
}

/// Adds the rows of a table, each as a list: its number, and its values as they are written.
fn push_rows(alloc: Global, rows: &[Numbered], page: &mut Vec<u8>) -> Result<(), AllocError> {
    page.push(b'[')?;
    for (place, row) in rows.iter().enumerate() {
        push_comma(page, place)?;
        push_row(alloc, row, page)?;
    }
    page.push(b']')?;
    Ok(())
}

fn push_row(alloc: Global, row: &Numbered, page: &mut Vec<u8>) -> Result<(), AllocError> {
    page.push(b'[')?;
    push_number(alloc, row.number, page)?;
    for value in row.row.as_slice() {
        page.push(b',')?;
        let cell = value_cell(alloc, value)?;
        push_text(page, cell.as_slice())?;
    }
    page.push(b']')?;
    Ok(())
}

fn push_number(alloc: Global, number: u64, page: &mut Vec<u8>) -> Result<(), AllocError> {
    let cell = number_cell(alloc, number)?;
    page.extend_from_slice(cell.as_slice())
}

fn push_stands<S: Store>(
    alloc: Global,
    session: &Session<S>,
    page: &mut Vec<u8>,
) -> Result<(), AllocError> {
    for (place, cursor) in session.cursors().iter().enumerate() {
        push_comma(page, place)?;
        push_stand(alloc, session, cursor, page)?;
    }
    Ok(())
}

/// Adds where a cursor stands, in the words of the notes.
fn push_stand<S: Store>(
    alloc: Global,
    session: &Session<S>,
    cursor: &CursorState,
    page: &mut Vec<u8>,
) -> Result<(), AllocError> {
    let mut words = Vec::new(alloc);
    push_stand_words(session, stand_of(cursor), &mut words)?;
    push_text(page, words.as_slice())
}
