//! The rows of a view.

ghost use Rattle.std.specs.Prelude.{◌≡◌, ◌++◌, [], List, OnOk, Some, flat_map, slice_get};
ghost use Rattle.sq_value.specs.declared.value.Value.{Value as AnyValue};
ghost use Rattle.sq_meaning.specs.Report.{blank_value};
ghost use Rattle.sq_meaning.specs.Status.{Outcome};
ghost use Rattle.sq_bound.specs.WellFormed.{IsSelect, before_view};
ghost use Rattle.sq_bound.specs.declared.condition.TablePlace.{TablePlace};
ghost use Rattle.sq_bound.specs.declared.condition.TablePlace.TheVariants.{View as AtView};
ghost use Rattle.sq_catalog.specs.Catalog.{column_kinds};
ghost use Rattle.sq_expression.specs.Fault.{HasRows};
ghost use Rattle.sq_query.specs.Table.{AreMeant};
ghost use Rattle.sq_session.specs.Cursors.{IsWhole};
ghost use Rattle.sq_session.specs.Schemas.{schemas_of};
ghost use Rattle.sq_session.specs.State.{state_of};
ghost use Rattle.sq_show.specs.View.{AreAdded, IsViewShown, ShowsRead, view_line};

use crate::listing::write_columns;
use sq_bound::{Names, TableBody, TableDesc, View};
use sq_expression::Fault;
use sq_lex::Name;
use sq_meaning::Status;
use sq_perform::write_value;
use sq_query::{Inputs, specification_rows};
use sq_session::{Inside, Session};
use sq_store::{Meter, Store};
use sq_value::{Row, Value};
use std::alloc::{AllocError, Global};
use std::io::Write;

/// Adds the view of this owner and name: its columns and how many rows it has, and a line for each row, as its owner sees it. If there is
/// no such view, nothing is added.
pub fn write_view<S: Store>(
    alloc: Global,
    session: &Session<S>,
    user: Name,
    name: Name,
    lines: &mut Vec<u8>,
) -> Result<(), AllocError>
    ensures { OnOk result (IsViewShown session.now user name lines.old.items lines.new.items) }
{
    let inside = session.inside();
    match inside.catalog.table(user, name) {
        Some(table) => match &table.body {
            TableBody::View(view) => write_found(alloc, &inside, table, view, lines),
            TableBody::Base(_) => Ok(()),
        },
        None => Ok(()),
    }
}

/// Adds a view.
fn write_found<S: Store>(
    alloc: Global,
    inside: &Inside<'_, S>,
    table: &TableDesc,
    view: &View,
    lines: &mut Vec<u8>,
) -> Result<(), AllocError>
    requires whole { IsWhole (column_kinds inside.now.catalog.now) inside.now.catalog.now.bases
        inside.now.program.now.cursors.items
        (state_of (S.content_now inside.now.store.now) (S.committed inside.now.store.now)
        (S.key_columns inside.now.store.now) (S.row_numbers inside.now.store.now) inside.now.cursors.now) }
    requires among { slice_get inside.now.catalog.now.views view.now.place ≡ Some view.now.query }
    requires well_formed { IsSelect (before_view view.now.place (column_kinds inside.now.catalog.now)) [] []
        view.now.query }
    ensures { OnOk result (ShowsRead (schemas_of inside.now.catalog.now) (S.content_now inside.now.store.now)
        table.now.user view.now.place lines.old.items lines.new.items) }
{
    match view_rows(alloc, inside, table.user, view) {
        Ok(rows) => {
            let done = write_all(alloc, table, rows.as_slice(), lines);
            drop(rows);
            done
        }
        Err(Fault::Status(failure)) => write_ended(alloc, table, failure.status(), lines),
        Err(Fault::NoMemory) => Err(AllocError),
    }
}

/// The rows of a view, as this user sees it, or the status with which its query ends.
fn view_rows<S: Store>(
    alloc: Global,
    inside: &Inside<'_, S>,
    user: Name,
    view: &View,
) -> Result<Vec<Row>, Fault>
    requires whole { IsWhole (column_kinds inside.now.catalog.now) inside.now.catalog.now.bases
        inside.now.program.now.cursors.items
        (state_of (S.content_now inside.now.store.now) (S.committed inside.now.store.now)
        (S.key_columns inside.now.store.now) (S.row_numbers inside.now.store.now) inside.now.cursors.now) }
    requires among { slice_get inside.now.catalog.now.views view.now.place ≡ Some view.now.query }
    requires well_formed { IsSelect (before_view view.now.place (column_kinds inside.now.catalog.now)) [] []
        view.now.query }
    ensures { (tables : TablePlace → Outcome (List (List AnyValue)))
        → AreMeant inside.now.catalog.now.views (S.content_now inside.now.store.now) user tables
        → HasRows result (tables (AtView view.now.place)) }
{
    let inputs = Inputs {
        user,
        parameters: &[],
    };
    specification_rows(
        alloc,
        inside.catalog,
        &view.query,
        inside.store,
        inputs,
        &mut Meter::new(),
    )
}

/// Adds the columns of a view, how many rows it has, and the rows.
fn write_all(
    alloc: Global,
    table: &TableDesc,
    rows: &[Row],
    lines: &mut Vec<u8>,
) -> Result<(), AllocError>
    ensures { OnOk result (AreAdded rows.now lines.old.items lines.new.items) }
{
    let mut heading = Vec::new(alloc);
    write_heading(table, rows.len(), &mut heading)?;
    lines.extend_from_slice(heading.as_slice())?;
    write_rows(alloc, rows, lines)
}

fn write_heading(table: &TableDesc, count: usize, heading: &mut Vec<u8>) -> Result<(), AllocError> {
    write_columns(table, heading)?;
    let word = if count == 1 { "row" } else { "rows" };
    writeln!(heading, ": {count} {word}").map_err(|_| AllocError)
}

/// Adds the columns of a view, and the status with which its query ends.
fn write_ended(
    alloc: Global,
    table: &TableDesc,
    status: Status,
    lines: &mut Vec<u8>,
) -> Result<(), AllocError>
    ensures { OnOk result (AreAdded [] lines.old.items lines.new.items) }
{
    let mut heading = Vec::new(alloc);
    write_columns(table, &mut heading)?;
    heading.extend_from_slice(b": its query ends with ")?;
    heading.extend_from_slice(&status.sqlstate())?;
    heading.push(b'\n')?;
    lines.extend_from_slice(heading.as_slice())
}

/// Adds a line for each row: its values behind two blanks.
fn write_rows(alloc: Global, rows: &[Row], lines: &mut Vec<u8>) -> Result<(), AllocError>
    ensures { OnOk result (lines.new.items ≡ lines.old.items ++ flat_map view_line rows.now) }
{
    for row in rows {
        lines.push(b' ')?;
        write_row(alloc, row.as_slice(), lines)?;
        lines.push(b'\n')?;
    }
    Ok(())
}

/// Adds the values of a row, each behind a blank.
fn write_row(alloc: Global, row: &[Value], lines: &mut Vec<u8>) -> Result<(), AllocError>
    ensures { OnOk result (lines.new.items ≡ lines.old.items ++ flat_map blank_value row.now) }
{
    for value in row {
        lines.push(b' ')?;
        write_value(alloc, value, lines)?;
    }
    Ok(())
}
