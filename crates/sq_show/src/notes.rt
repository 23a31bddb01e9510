//! What is to be said of a call.

ghost use Rattle.std.specs.Prelude.{◌≡◌, [], true, IfOk, OnOk};
ghost use Rattle.sq_session.specs.Kind.{fits_at};
ghost use Rattle.sq_show.specs.Notes.{AddsCause, Notes};

use crate::call_words::push_call;
use crate::changes::{are_equal_rows, push_changes};
use crate::cursors::push_moves;
use crate::look::{Look, rows_of};
use crate::table::push_table;
use crate::touched::{Touched, rows_since, rows_under};
use crate::trace::TraceOptions;
use crate::words::write_cause;
use sq_bound::{Names, TableDesc, TablePlace};
use sq_cause::why;
use sq_lex::Name;
use sq_perform::CallAction;
use sq_session::{Reply, Session};
use sq_store::{Numbered, Store};
use std::alloc::{AllocError, Global};

/// What is to be said of a call that was made: how it was written, why it did not end with 00000, what it changed, and which
/// cursors it moved.
pub(crate) fn notes_of<S: Store>(
    alloc: Global,
    session: &Session<S>,
    call: &CallAction,
    before: &Look,
    reply: &Reply,
    options: TraceOptions,
) -> Result<Vec<u8>, AllocError>
    requires { fits_at session.now.procedures call.now.procedure call.now.values ≡ true }
    ensures { IfOk result (λ notes. Notes call.now session.now reply.now.status notes.items) }
{
    let mut notes = Vec::new(alloc);
    match push_notes(alloc, session, call, before, reply, options, &mut notes) {
        Ok(()) => Ok(notes),
        Err(error) => {
            drop(notes);
            Err(error)
        }
    }
}

/// Adds the call, its cause, and behind them what it changed.
fn push_notes<S: Store>(
    alloc: Global,
    session: &Session<S>,
    call: &CallAction,
    before: &Look,
    reply: &Reply,
    options: TraceOptions,
    notes: &mut Vec<u8>,
) -> Result<(), AllocError>
    requires fits { fits_at session.now.procedures call.now.procedure call.now.values ≡ true }
    requires none { notes.old.items ≡ [] }
    ensures { OnOk result (Notes call.now session.now reply.now.status notes.new.items) }
{
    let name = call.name(session);
    let module = name.module;
    push_call(alloc, name, call.values.as_slice(), notes)?;
    notes.extend_from_slice(b"\n")?;
    push_cause(alloc, session, call, reply, notes)?;
    let effects = effects_of(alloc, session, module, before, options)?;
    let ended = notes.extend_from_slice(effects.as_slice());
    drop(effects);
    ended
}

/// What a call of a procedure of this module changed, and which cursors it moved.
fn effects_of<S: Store>(
    alloc: Global,
    session: &Session<S>,
    module: Name,
    before: &Look,
    options: TraceOptions,
) -> Result<Vec<u8>, AllocError> {
    let mut effects = Vec::new(alloc);
    match push_effects(alloc, session, module, before, options, &mut effects) {
        Ok(()) => Ok(effects),
        Err(error) => {
            drop(effects);
            Err(error)
        }
    }
}

fn push_effects<S: Store>(
    alloc: Global,
    session: &Session<S>,
    module: Name,
    before: &Look,
    options: TraceOptions,
    effects: &mut Vec<u8>,
) -> Result<(), AllocError> {
    push_touched(alloc, session, &before.touched, options, effects)?;
    let cursors = before.cursors.as_slice();
    push_moves(alloc, session, cursors, module, effects)
}

/// Adds a line with the cause of a call's status, unless it is 00000.
fn push_cause<S: Store>(
    alloc: Global,
    session: &Session<S>,
    call: &CallAction,
    reply: &Reply,
    notes: &mut Vec<u8>,
) -> Result<(), AllocError>
    ensures { OnOk result (AddsCause call.now session.now reply.now.status notes.old.items notes.new.items) }
{
    let values = call.values.as_slice();
    match why(alloc, session, call.procedure, values, reply)? {
        Some(cause) => {
            write_cause(alloc, session, &cause, notes)?;
            notes.push(b'\n')?;
            Ok(())
        }
        None => Ok(()),
    }
}

/// Adds what a call changed in the rows that it may have touched.
fn push_touched<S: Store>(
    alloc: Global,
    session: &Session<S>,
    touched: &Touched,
    options: TraceOptions,
    notes: &mut Vec<u8>,
) -> Result<(), AllocError> {
    match touched {
        Touched::Nothing => Ok(()),
        Touched::Rising(place, number) => {
            let now = rows_since(alloc, session.inside().store, *place, *number);
            push_table_notes(alloc, session, *place, &[], now, options, notes)
        }
        Touched::Rows(place, before) => {
            let now = rows_under(alloc, session.inside().store, *place, before.as_slice());
            push_table_notes(
                alloc,
                session,
                *place,
                before.as_slice(),
                now,
                options,
                notes,
            )
        }
        Touched::Tables(tables) => push_tables(alloc, session, tables.as_slice(), options, notes),
    }
}

/// Adds what a call changed in all tables, which had these rows before.
fn push_tables<S: Store>(
    alloc: Global,
    session: &Session<S>,
    tables: &[Vec<Numbered>],
    options: TraceOptions,
    notes: &mut Vec<u8>,
) -> Result<(), AllocError> {
    for (place, before) in tables.iter().enumerate() {
        let now = rows_since(alloc, session.inside().store, place, 0);
        push_table_notes(
            alloc,
            session,
            place,
            before.as_slice(),
            now,
            options,
            notes,
        )?;
    }
    Ok(())
}

/// Adds what is to be said of the base table at a place, where these rows were before, and are now.
fn push_table_notes<S: Store>(
    alloc: Global,
    session: &Session<S>,
    place: usize,
    before: &[Numbered],
    now: Result<Vec<Numbered>, AllocError>,
    options: TraceOptions,
    notes: &mut Vec<u8>,
) -> Result<(), AllocError> {
    let now = now?;
    let ended = push_differences(
        alloc,
        session,
        place,
        before,
        now.as_slice(),
        options,
        notes,
    );
    drop(now);
    ended
}

fn push_differences<S: Store>(
    alloc: Global,
    session: &Session<S>,
    place: usize,
    before: &[Numbered],
    now: &[Numbered],
    options: TraceOptions,
    notes: &mut Vec<u8>,
) -> Result<(), AllocError> {
    if are_equal_tables(before, now) {
        return Ok(());
    }
    let Some(table) = session.catalog().at(TablePlace::Base(place)) else {
        return Ok(());
    };
    push_changes(alloc, table, before, now, notes)?;
    if options.tables {
        push_whole(alloc, session, table, notes)?;
    }
    Ok(())
}

/// Adds a table with all its rows.
fn push_whole<S: Store>(
    alloc: Global,
    session: &Session<S>,
    table: &TableDesc,
    notes: &mut Vec<u8>,
) -> Result<(), AllocError> {
    let rows = rows_of(alloc, session, table)?;
    let ended = push_table(alloc, table, rows.as_slice(), notes);
    drop(rows);
    ended
}

/// Whether two lists have the same rows under the same numbers.
fn are_equal_tables(before: &[Numbered], now: &[Numbered]) -> bool {
    before.len() == now.len()
        && before.iter().zip(now).all(|(old, new)| {
            old.number == new.number && are_equal_rows(old.row.as_slice(), new.row.as_slice())
        })
}
