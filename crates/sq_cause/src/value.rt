//! Values that a statement would give columns, and that it can't (ISO/IEC 9075:1992, 9.2 and 13.8 to 13.10).

ghost use Rattle.std.specs.Prelude.{◌≡◌, Err, IfOk, IfSome};
ghost use Rattle.std.specs.Option.{option_copied};
ghost use Rattle.sq_meaning.specs.Assignment as spec;
ghost use Rattle.sq_query.specs.Row.{line_of};
ghost use Rattle.sq_value.specs.Domain.{IsDomain};
ghost use Rattle.sq_session.specs.Called.{IsWholeFor, MayPerform, kind_for};
ghost use Rattle.sq_session.specs.Schemas.{schemas_of};
ghost use Rattle.sq_session.specs.State.{state_of};
ghost use Rattle.sq_cause.specs.QueryValue.{IsQueriedFault};
ghost use Rattle.sq_cause.specs.Value.{IsInsertedFault, IsItemFault, IsValueCause};
ghost use Rattle.sq_cause.specs.ValueFault.{IsValueFault};

use crate::cause::{Given, ItemFault, ValueCause, ValueFault};
use crate::made::number_meant;
use crate::query_rows::rows_of_query;
use crate::query_value::fault_in_rows;
use crate::set_value::set_fault;
use sq_bound::{BoundExpr, BoundInsert, BoundStatement, InsertedRows, ObjectColumn, fits_kind};
use sq_catalog::Catalog;
use sq_change::{Setting, assign_value};
use sq_expression::Fault;
use sq_meaning::Status;
use sq_session::{Called, Inside};
use sq_store::Store;
use sq_value::{Domain, Row, Value};
use std::alloc::{AllocError, Global};

/// The first value of a statement that it can't give its column.
#[tactic(auto, using(crate::proofs::OfTargets::value_updated))]
pub(crate) fn value_cause<S: Store>(
    called: &Called<'_>,
    inside: &Inside<'_, S>,
    statement: &BoundStatement,
) -> Result<Option<ValueCause>, AllocError>
    requires may { MayPerform called.now statement.now }
    requires whole { IsWholeFor called.now
        (state_of (S.content_now inside.now.store.now) (S.committed inside.now.store.now)
        (S.key_columns inside.now.store.now) (S.row_numbers inside.now.store.now) inside.now.cursors.now) }
    ensures { IfOk result (λ found. IfSome found (IsValueCause (schemas_of called.now.catalog.now)
        (kind_for called.now statement.now) called.now.values.now
        (state_of (S.content_now inside.now.store.now) (S.committed inside.now.store.now)
        (S.key_columns inside.now.store.now) (S.row_numbers inside.now.store.now) inside.now.cursors.now))) }
{
    let setting = Setting::new(
        called.alloc,
        called.catalog,
        inside.store,
        called.procedure.user,
        called.values,
    );
    match statement {
        BoundStatement::Insert(insert) => match inserted_fault(&setting, insert)? {
            Some(found) => Ok(Some(found)),
            None => queried_fault(called, inside, insert),
        },
        BoundStatement::Update(update) => {
            match number_meant(&update.target, inside.cursors, inside.store) {
                Some(on) => set_fault(&setting, update, on),
                None => Ok(None),
            }
        }
        _ => Ok(None),
    }
}

/// The first value of the rows of an insert statement's query that its column can't store.
fn queried_fault<S: Store>(
    called: &Called<'_>,
    inside: &Inside<'_, S>,
    insert: &BoundInsert,
) -> Result<Option<ValueCause>, AllocError>
    requires may { MayPerform called.now (BoundStatement.Insert insert.now) }
    requires whole { IsWholeFor called.now
        (state_of (S.content_now inside.now.store.now) (S.committed inside.now.store.now)
        (S.key_columns inside.now.store.now) (S.row_numbers inside.now.store.now) inside.now.cursors.now) }
    ensures { IfOk result (λ found. IfSome found (IsQueriedFault (schemas_of called.now.catalog.now)
        insert.now called.now.values.now called.now.procedure.now.user
        (S.content_now inside.now.store.now))) }
{
    match &insert.source {
        InsertedRows::Query(query) => match rows_of_query(called, inside, query)? {
            Some(rows) => {
                let columns = insert.columns.as_slice();
                let found = fault_in_rows(called.alloc, insert.base, columns, rows.as_slice());
                drop(rows);
                found
            }
            None => Ok(None),
        },
        InsertedRows::Values(_) => Ok(None),
    }
}

/// The first value of VALUES that is faulty.
fn inserted_fault<S: Store>(
    setting: &Setting<'_, Catalog, S>,
    insert: &BoundInsert,
) -> Result<Option<ValueCause>, AllocError>
    ensures { IfOk result (λ found. IfSome found
        (IsInsertedFault insert.now setting.now.parameters.now setting.now.user)) }
{
    match &insert.source {
        InsertedRows::Values(values) => {
            match item_fault(setting, insert.columns.as_slice(), values.as_slice())? {
                Some(found) => Ok(Some(ValueCause {
                    table: insert.base,
                    column: found.column,
                    item: found.item,
                    given: Given::InValues,
                    fault: found.fault,
                })),
                None => Ok(None),
            }
        }
        InsertedRows::Query(_) => Ok(None),
    }
}

fn item_fault<S: Store>(
    setting: &Setting<'_, Catalog, S>,
    columns: &[ObjectColumn],
    values: &[BoundExpr],
) -> Result<Option<ItemFault>, AllocError>
    ensures { IfOk result (λ found. IfSome found
        (IsItemFault columns.now values.now setting.now.parameters.now setting.now.user)) }
{
    for item in 0..values.len() {
        if let Some(found) = fault_at(setting, columns, values, item)? {
            return Ok(Some(found));
        }
    }
    Ok(None)
}

/// What is wrong with the value at a place.
fn fault_at<S: Store>(
    setting: &Setting<'_, Catalog, S>,
    columns: &[ObjectColumn],
    values: &[BoundExpr],
    item: usize,
) -> Result<Option<ItemFault>, AllocError>
    ensures { IfOk result (λ found. IfSome found
        (IsItemFault columns.now values.now setting.now.parameters.now setting.now.user)) }
{
    if item >= columns.len() || item >= values.len() {
        return Ok(None);
    }
    let column = columns[item];
    match value_fault(setting, column.domain, &values[item], None)? {
        Some(fault) => Ok(Some(ItemFault {
            item,
            column: column.position,
            fault,
        })),
        None => Ok(None),
    }
}

/// What is wrong with the value of an expression, which may read a row, for a column of the domain.
pub(crate) fn value_fault<S: Store>(
    setting: &Setting<'_, Catalog, S>,
    domain: Domain,
    expr: &BoundExpr,
    row: Option<&Row>,
) -> Result<Option<ValueFault>, AllocError>
    requires { IsDomain domain }
    ensures { IfOk result (λ found. IfSome found
        (IsValueFault domain expr.now (line_of (option_copied row.entry)) setting.now.parameters.now
        setting.now.user)) }
{
    match setting.value(expr, row) {
        Ok(value) => {
            let unfit = unfit_status(setting.alloc, domain, &value);
            drop(value);
            match unfit? {
                Some(status) => Ok(Some(ValueFault::Unfit(status))),
                None => Ok(None),
            }
        }
        Err(Fault::Status(failure)) => Ok(Some(ValueFault::Ends(failure.status()))),
        Err(Fault::NoMemory) => Err(AllocError),
    }
}

/// The status for which a column of the domain can't store a value.
pub(crate) fn unfit_status(
    alloc: Global,
    domain: Domain,
    value: &Value,
) -> Result<Option<Status>, AllocError>
    requires { IsDomain domain }
    ensures { IfOk result (λ found. IfSome found (λ st. spec.assigned domain value.now ≡ Err st)) }
{
    if !fits_kind(domain, value) {
        return Ok(None);
    }
    match assign_value(alloc, domain, value) {
        Ok(stored) => {
            drop(stored);
            Ok(None)
        }
        Err(Fault::Status(failure)) => Ok(Some(failure.status())),
        Err(Fault::NoMemory) => Err(AllocError),
    }
}
