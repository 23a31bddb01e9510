//! What a call may change, looked at before it: so a trace pays for the rows that a call touches, and not for all that there are.

ghost use Rattle.std.specs.Prelude.{◌≡◌, map, true};
ghost use Rattle.sq_bound.specs.Fits.{IsBase, under};
ghost use Rattle.sq_catalog.specs.Catalog.{column_kinds};
ghost use Rattle.sq_change.specs.Given.{MayChoose};
ghost use Rattle.sq_change.specs.Statement.{KeepsTables};
ghost use Rattle.sq_meaning.specs.Script.{fit};
ghost use Rattle.sq_session.specs.Asked.{IsAsked};
ghost use Rattle.sq_session.specs.Called.{IsWholeFor, MayPerform};
ghost use Rattle.sq_session.specs.Cursors.{IsWhole};
ghost use Rattle.sq_session.specs.Parameter.{declared};
ghost use Rattle.sq_session.specs.State.{state_of};

use sq_bound::{BoundInsert, BoundStatement, ChangeTarget};
use sq_catalog::Catalog;
use sq_cause::number_meant;
use sq_change::{Setting, leaf_under, rows_changed};
use sq_expression::Fault;
use sq_module::BoundProcedure;
use sq_session::{Called, CursorState, Inside, Session, started_values};
use sq_store::{Meter, Numbered, Store};
use sq_value::{Row, Value, copy_row};
use std::alloc::{AllocError, Global};

/// What a call may change.
#[derive(Drop)]
pub(crate) enum Touched {
    /// No table.
    Nothing,
    /// The base table at a place, which gets rows from this number on.
    Rising(usize, u64),
    /// These rows of the base table at a place.
    Rows(usize, Vec<Numbered>),
    /// Each base table, which has these rows.
    Tables(Vec<Vec<Numbered>>),
}

/// What a call of a procedure with these values may change.
pub(crate) fn touched_by<S: Store>(
    alloc: Global,
    session: &Session<S>,
    procedure: usize,
    values: &[Value],
) -> Result<Touched, AllocError> {
    if !session.fits(procedure, values) {
        return Ok(Touched::Nothing);
    }
    let inside = session.inside();
    let Some((_, called)) = inside.program.procedures.get_index(procedure) else {
        return Ok(Touched::Nothing);
    };
    match &called.statement {
        Err(_) => Ok(Touched::Nothing),
        Ok(statement) => by_statement(alloc, &inside, called, statement, values),
    }
}

/// What a statement may change.
fn by_statement<S: Store>(
    alloc: Global,
    inside: &Inside<'_, S>,
    procedure: &BoundProcedure,
    statement: &BoundStatement,
    values: &[Value],
) -> Result<Touched, AllocError>
    requires asked { IsAsked (column_kinds inside.now.catalog.now) inside.now.catalog.now.bases
        inside.now.program.now.cursors.items procedure.now.parameters statement.now }
    requires values_fit { fit (map declared procedure.now.parameters) values.now ≡ true }
    requires whole { IsWhole (column_kinds inside.now.catalog.now) inside.now.catalog.now.bases
        inside.now.program.now.cursors.items
        (state_of (S.content_now inside.now.store.now) (S.committed inside.now.store.now)
        (S.key_columns inside.now.store.now) (S.row_numbers inside.now.store.now) inside.now.cursors.now) }
{
    let values = started_values(alloc, procedure.parameters.as_slice(), values)?;
    let called = Called {
        alloc,
        catalog: inside.catalog,
        cursors: inside.program.cursors.as_slice(),
        procedure,
        values: values.as_slice(),
    };
    let touched = with_values(&called, inside, statement);
    drop(values);
    touched
}

/// What a statement may change, with the values at which its parameters start.
fn with_values<S: Store>(
    called: &Called<'_>,
    inside: &Inside<'_, S>,
    statement: &BoundStatement,
) -> Result<Touched, AllocError>
    requires may { MayPerform called.now statement.now }
    requires whole { IsWholeFor called.now
        (state_of (S.content_now inside.now.store.now) (S.committed inside.now.store.now)
        (S.key_columns inside.now.store.now) (S.row_numbers inside.now.store.now) inside.now.cursors.now) }
{
    let setting = Setting::new(
        called.alloc,
        called.catalog,
        inside.store,
        called.procedure.user,
        called.values,
    );
    match statement {
        BoundStatement::Insert(insert) => Ok(by_insert(inside.store, insert)),
        BoundStatement::Update(update) => by_target(&setting, &update.target, inside.cursors),
        BoundStatement::Delete(target) => by_target(&setting, target, inside.cursors),
        BoundStatement::Rollback => Ok(Touched::Tables(all_rows(called.alloc, inside.store)?)),
        _ => Ok(Touched::Nothing),
    }
}

/// An insert statement puts rows behind those that are there.
fn by_insert<S: Store>(store: &S, insert: &BoundInsert) -> Touched {
    if insert.base >= store.table_count() {
        return Touched::Nothing;
    }
    Touched::Rising(insert.base, store.next_number(insert.base))
}

/// The rows that an update or delete statement changes, as they are now.
fn by_target<S: Store>(
    setting: &Setting<'_, Catalog, S>,
    target: &ChangeTarget,
    cursors: &[CursorState],
) -> Result<Touched, AllocError>
    requires base { IsBase setting.now.names.now.bases (under target.now).table }
    requires may { MayChoose setting.now.names.now.bases setting.now.names.now.views
        (column_kinds setting.now.names.now) (S.content_now setting.now.store.now) setting.now.user
        setting.now.parameters.now target.now }
    requires kept { KeepsTables setting.now.names.now.bases (S.content_now setting.now.store.now)
        (S.key_columns setting.now.store.now) }
{
    let Some(on) = number_meant(target, cursors, setting.store) else {
        return Ok(Touched::Nothing);
    };
    match rows_changed(setting, target, on, &mut Meter::new()) {
        Ok(rows) => {
            let copies = copies_of(setting.alloc, rows.as_slice());
            drop(rows);
            Ok(Touched::Rows(leaf_under(target).table.get().place, copies?))
        }
        Err(Fault::Status(_)) => Ok(Touched::Nothing),
        Err(Fault::NoMemory) => Err(AllocError),
    }
}

/// Copies of rows.
fn copies_of(alloc: Global, rows: &[(u64, &Row)]) -> Result<Vec<Numbered>, AllocError> {
    let mut copies = Vec::new(alloc);
    for (number, row) in rows {
        let row = copy_row(alloc, row.as_slice())?;
        copies.push(Numbered {
            number: *number,
            row,
        })?;
    }
    Ok(copies)
}

/// Copies of the rows of each base table.
fn all_rows<S: Store>(alloc: Global, store: &S) -> Result<Vec<Vec<Numbered>>, AllocError> {
    let mut tables = Vec::new(alloc);
    for place in 0..store.table_count() {
        let rows = rows_since(alloc, store, place, 0)?;
        tables.push(rows)?;
    }
    Ok(tables)
}

/// Copies of the rows of the base table at a place from a number on.
pub(crate) fn rows_since<S: Store>(
    alloc: Global,
    store: &S,
    place: usize,
    number: u64,
) -> Result<Vec<Numbered>, AllocError> {
    let mut copies = Vec::new(alloc);
    if place >= store.table_count() {
        return Ok(copies);
    }
    for number in number..store.next_number(place) {
        if let Some(row) = store.row(place, number, &mut Meter::new()) {
            let row = copy_row(alloc, row.as_slice())?;
            copies.push(Numbered { number, row })?;
        }
    }
    Ok(copies)
}

/// Copies of the rows that are under the numbers of these now.
pub(crate) fn rows_under<S: Store>(
    alloc: Global,
    store: &S,
    place: usize,
    before: &[Numbered],
) -> Result<Vec<Numbered>, AllocError> {
    let mut copies = Vec::new(alloc);
    if place >= store.table_count() {
        return Ok(copies);
    }
    for old in before {
        if let Some(row) = store.row(place, old.number, &mut Meter::new()) {
            let row = copy_row(alloc, row.as_slice())?;
            copies.push(Numbered {
                number: old.number,
                row,
            })?;
        }
    }
    Ok(copies)
}
