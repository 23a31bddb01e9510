//! NOT NULL and CHECK, of the rows that a statement would put in a table (ISO/IEC 9075:1992, 11.4, 11.9).

ghost use Rattle.std.specs.Prelude.{◌≡◌, ◌+◌, IfOk, IfSome, IsTrue, None, true};
ghost use Rattle.sq_catalog.specs.Catalog.{column_kinds};
ghost use Rattle.sq_change.specs.Made.{seen_by};
ghost use Rattle.sq_query.specs.Needed.{FindsCond, FindsConds};
ghost use Rattle.sq_session.specs.Schemas.{schemas_of};
ghost use Rattle.sq_value.specs.declared.truth.Truth.TheVariants.{False};
ghost use Rattle.sq_cause.specs.Breach.{IsPut, LackNoneBefore, LacksNone, LacksNoneBefore, lacks_value};
ghost use Rattle.sq_cause.specs.Broken.{HasTruth, IsFalseOf, IsRowBreach};

use crate::cause::{Breach, RowPut};
use crate::put::put_at;
use sq_bound::{BaseTable, BoundCond};
use sq_catalog::Catalog;
use sq_change::{Setting, is_null};
use sq_expression::Fault;
use sq_store::{Change, Store};
use sq_value::{Row, Truth, Value};
use std::alloc::AllocError;

/// The first row that is put in and does not meet NOT NULL or a CHECK.
pub(crate) fn row_breach<S: Store>(
    setting: &Setting<'_, Catalog, S>,
    table: &BaseTable,
    changes: &[Change],
) -> Result<Option<Breach>, AllocError>
    requires { FindsConds setting.now.names.now.bases (column_kinds setting.now.names.now) table.now.checks }
    ensures { IfOk result (λ found. IfSome found (IsRowBreach (schemas_of setting.now.names.now)
        (seen_by setting.now.names.now.views (S.content_now setting.now.store.now) setting.now.user
        setting.now.parameters.now) table.now changes.now)) }
{
    for place in 0..changes.len() {
        if let Some(breach) = breach_at(setting, table, changes, place)? {
            return Ok(Some(breach));
        }
    }
    Ok(None)
}

/// What the row that the change at a place puts in does not meet.
#[tactic(auto, using(crate::proofs::NullsBefore::before_at, crate::proofs::NullsBefore::if_more, crate::proofs::NullsBefore::without_row))]
fn breach_at<S: Store>(
    setting: &Setting<'_, Catalog, S>,
    table: &BaseTable,
    changes: &[Change],
    place: usize,
) -> Result<Option<Breach>, AllocError>
    requires finds { FindsConds setting.now.names.now.bases (column_kinds setting.now.names.now) table.now.checks }
    requires before { LackNoneBefore table.now changes.now place }
    ensures more { IfOk result (λ found. (found ≡ None) → LackNoneBefore table.now changes.now (place + 1)) }
    ensures is { IfOk result (λ found. IfSome found (IsRowBreach (schemas_of setting.now.names.now)
        (seen_by setting.now.names.now.views (S.content_now setting.now.store.now) setting.now.user
        setting.now.parameters.now) table.now changes.now)) }
{
    match put_at(changes, place) {
        Some((put, row)) => breach_of_row(setting, table, changes, put, row),
        None => Ok(None),
    }
}

/// NOT NULL, and then each CHECK in the order of the text.
fn breach_of_row<S: Store>(
    setting: &Setting<'_, Catalog, S>,
    table: &BaseTable,
    changes: &[Change],
    put: RowPut,
    row: &Row,
) -> Result<Option<Breach>, AllocError>
    requires finds { FindsConds setting.now.names.now.bases (column_kinds setting.now.names.now) table.now.checks }
    requires put { IsPut changes.now put row.now }
    requires before { LackNoneBefore table.now changes.now put.place }
    ensures lacks { IfOk result (λ found. (found ≡ None) → LacksNone table.now row.now) }
    ensures is { IfOk result (λ found. IfSome found (IsRowBreach (schemas_of setting.now.names.now)
        (seen_by setting.now.names.now.views (S.content_now setting.now.store.now) setting.now.user
        setting.now.parameters.now) table.now changes.now)) }
{
    if let Some(column) = column_lacking(table, row.as_slice()) {
        return Ok(Some(Breach::NotNull(put, column)));
    }
    match false_check(setting, table, row)? {
        Some(check) => Ok(Some(Breach::Check(put, check))),
        None => Ok(None),
    }
}

/// The first CHECK that is false of a row.
fn false_check<S: Store>(
    setting: &Setting<'_, Catalog, S>,
    table: &BaseTable,
    row: &Row,
) -> Result<Option<usize>, AllocError>
    requires { FindsConds setting.now.names.now.bases (column_kinds setting.now.names.now) table.now.checks }
    ensures { IfOk result (λ found. IfSome found (IsFalseOf (schemas_of setting.now.names.now)
        (seen_by setting.now.names.now.views (S.content_now setting.now.store.now) setting.now.user
        setting.now.parameters.now) table.now row.now)) }
{
    for (place, check) in table.checks.as_slice().iter().enumerate() {
        if is_false(setting, check, row)? {
            return Ok(Some(place));
        }
    }
    Ok(None)
}

/// Whether a condition is false of a row.
fn is_false<S: Store>(
    setting: &Setting<'_, Catalog, S>,
    condition: &BoundCond,
    row: &Row,
) -> Result<bool, AllocError>
    requires { FindsCond setting.now.names.now.bases (column_kinds setting.now.names.now) condition.now }
    ensures { IfOk result (λ is. IsTrue is → HasTruth (schemas_of setting.now.names.now)
        (seen_by setting.now.names.now.views (S.content_now setting.now.store.now) setting.now.user
        setting.now.parameters.now) row.now condition.now False) }
{
    match setting.truth(condition, row) {
        Ok(Truth::False) => Ok(true),
        Ok(Truth::Unknown | Truth::True) => Ok(false),
        Err(Fault::Status(_)) => Ok(false),
        Err(Fault::NoMemory) => Err(AllocError),
    }
}

/// The first column that is null in a row and may not be.
pub(crate) fn column_lacking(table: &BaseTable, row: &[Value]) -> Option<usize>
    ensures is { IfSome result (λ column. lacks_value table.now row.now column ≡ true) }
    ensures first { IfSome result (LacksNoneBefore table.now row.now) }
    ensures none { (result ≡ None) → LacksNone table.now row.now }
{
    for column in 0..table.columns.len() {
        if lacks_value(table, row, column) {
            return Some(column);
        }
    }
    None
}

/// Whether a column is null in a row, and may not be.
fn lacks_value(table: &BaseTable, row: &[Value], column: usize) -> bool
    ensures { result ≡ lacks_value table.now row.now column }
{
    match (table.columns.as_slice().get(column), row.get(column)) {
        (Some(column), Some(value)) => column.not_null && is_null(value),
        _ => false,
    }
}
