//! The lines of the report.
ghost use Rattle.std.specs.Prelude.{◌≡◌, ◌++◌, codes, decimal, map, true, OnOk};
ghost use Rattle.std.specs.List.{flat_map};
ghost use Rattle.sq_value.specs.Spelling.{written};
ghost use Rattle.sq_store.specs.Content.{table_at};
ghost use Rattle.sq_meaning.specs.Report as report;
ghost use Rattle.sq_session.specs.Kind.{fits_at};
ghost use Rattle.sq_perform.specs.Action.{call_of, table_of};
ghost use Rattle.sq_perform.specs.Steps.{IsPrepared, told, told_output};
ghost use Rattle.sq_perform.specs.declared.action.Action.TheVariants.{Show};

use crate::action::{CallAction, ShowAction};
use sq_lex::Name;
use sq_meaning::Status;
use sq_session::{Output, Reply, Session, TableRows};
use sq_store::Store;
use sq_value::{Decimal, Value};
use std::alloc::{AllocError, Global};
use std::io::Write;

/// Adds SQLSTATE and SQLCODE.
fn write_status(alloc: Global, status: Status, line: &mut Vec<u8>) -> Result<(), AllocError>
    ensures { OnOk result (line.new.items ≡ line.old.items ++ report.status_codes status) }
{
    let code = Decimal::new(status.sqlcode() as i64, 0);
    line.extend_from_slice(&status.sqlstate())?;
    line.push(b' ')?;
    write_number(alloc, code, line)
}

/// Adds a number as it is spelled. A whole one takes no memory of its own.
#[tactic(auto, using(crate::proofs::Written::whole_is))]
fn write_number(alloc: Global, number: Decimal, line: &mut Vec<u8>) -> Result<(), AllocError>
    ensures { OnOk result (line.new.items ≡ line.old.items ++ written number) }
{
    if number.scale() == 0 {
        write!(line, "{}", number.unscaled()).map_err(|_| AllocError)
    } else {
        line.extend_from_slice(number.write(alloc)?.as_slice())
    }
}

/// Adds a value as it is spelled: digits, a quoted text or `NULL`.
pub fn write_value(alloc: Global, value: &Value, line: &mut Vec<u8>) -> Result<(), AllocError>
    ensures { OnOk result (line.new.items ≡ line.old.items ++ report.value_codes value.now) }
{
    match value {
        Value::Null => line.extend_from_slice(b"NULL"),
        Value::Num(number) => write_number(alloc, *number, line),
        Value::Chars(text) => write_text(text.codes(), line),
    }
}

/// Adds a text in quotes; those inside it are written twice.
fn write_text(text: &[u8], line: &mut Vec<u8>) -> Result<(), AllocError>
    ensures { OnOk result (line.new.items ≡ line.old.items ++ report.quoted text.now) }
{
    line.push(b'\'')?;
    for code in text {
        if *code == b'\'' {
            line.push(b'\'')?;
        }
        line.push(*code)?;
    }
    line.push(b'\'')?;
    Ok(())
}

/// Adds two names with a period between them and a blank behind.
fn write_names(first: Name, second: Name, line: &mut Vec<u8>) -> Result<(), AllocError>
    ensures { OnOk result (line.new.items ≡ line.old.items ++ first ++ codes "." ++ second ++ codes " ") }
{
    line.extend_from_slice(first.codes())?;
    line.push(b'.')?;
    line.extend_from_slice(second.codes())?;
    line.push(b' ')?;
    Ok(())
}

/// Adds the line of a call.
pub fn write_call<S: Store>(
    alloc: Global,
    session: &Session<S>,
    call: &CallAction,
    reply: &Reply,
    line: &mut Vec<u8>,
) -> Result<(), AllocError>
    requires { fits_at session.now.procedures call.now.procedure call.now.values ≡ true }
    ensures { OnOk result (line.new.items ≡ line.old.items
        ++ report.call_line (call_of session.now.procedures call.now) (told reply.now)) }
{
    let name = call.name(session);
    write_names(name.module, name.name, line)?;
    write_status(alloc, reply.status, line)?;
    write_outputs(alloc, reply.outputs.as_slice(), line)?;
    line.push(b'\n')?;
    Ok(())
}

fn write_outputs(alloc: Global, outputs: &[Output], line: &mut Vec<u8>) -> Result<(), AllocError>
    ensures { OnOk result
        (line.new.items ≡ line.old.items ++ flat_map report.output_codes (map told_output outputs.now)) }
{
    for output in outputs {
        line.push(b' ')?;
        line.extend_from_slice(output.name.codes())?;
        line.push(b'=')?;
        write_value(alloc, &output.value, line)?;
    }
    Ok(())
}

/// Adds the lines of a table: its names, how many rows it has, and the rows.
pub fn write_table<S: Store>(
    alloc: Global,
    session: &Session<S>,
    shown: &ShowAction,
    lines: &mut Vec<u8>,
) -> Result<(), AllocError>
    requires { IsPrepared session.now (Show shown.now) }
    ensures { OnOk result (lines.new.items ≡ lines.old.items
        ++ report.table_lines (table_of session.now.tables shown.now)
        (table_at session.now.state.tables shown.now.table)) }
{
    let name = shown.name(session);
    let rows = rows_shown(session, shown);
    write_heading(name.user, name.name, rows.len(), lines)?;
    write_rows(alloc, rows, lines)
}

/// The rows of the base table that is shown.
fn rows_shown<'s, S: Store>(session: &'s Session<S>, shown: &ShowAction) -> TableRows<'s, S>
    requires { IsPrepared session.now (Show shown.now) }
    ensures { result ≡ (table_at session.now.state.tables shown.now.table).rows }
{
    let name = shown.name(session);
    match session.rows(name.user, name.name) {
        Some(rows) => rows,
        None => unreachable!(),
    }
}

/// Adds the line before a table's rows.
fn write_heading(user: Name, table: Name, rows: usize, line: &mut Vec<u8>) -> Result<(), AllocError>
    ensures { OnOk result (line.new.items ≡ line.old.items
        ++ codes "TABLE " ++ user ++ codes "." ++ table ++ codes " " ++ decimal rows ++ codes "\n") }
{
    line.extend_from_slice(b"TABLE ")?;
    write_names(user, table, line)?;
    writeln!(line, "{rows}").map_err(|_| AllocError)
}

fn write_rows<S: Store>(
    alloc: Global,
    mut rows: TableRows<'_, S>,
    lines: &mut Vec<u8>,
) -> Result<(), AllocError>
    ensures { OnOk result (lines.new.items ≡ lines.old.items ++ flat_map report.row_line rows.entry) }
{
    while let Some((_, row)) = rows.next() {
        lines.push(b' ')?;
        write_row(alloc, row.as_slice(), lines)?;
        lines.push(b'\n')?;
    }
    Ok(())
}

/// Adds the values of a row, each behind a blank.
fn write_row(alloc: Global, row: &[Value], line: &mut Vec<u8>) -> Result<(), AllocError>
    ensures { OnOk result (line.new.items ≡ line.old.items ++ flat_map report.blank_value row.now) }
{
    for value in row {
        line.push(b' ')?;
        write_value(alloc, value, line)?;
    }
    Ok(())
}
