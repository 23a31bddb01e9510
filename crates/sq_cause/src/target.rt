//! Targets that can't take a value of a row, or take only a part of it (ISO/IEC 9075:1992, 9.1 and 13.3).

ghost use Rattle.std.specs.Prelude.{◌≡◌, IfOk, IfSome};
ghost use Rattle.sq_session.specs.Called.{fetching_for, kind_for};
ghost use Rattle.sq_session.specs.Kind.{columns_at};
ghost use Rattle.sq_value.specs.Domain.{IsDomain};
ghost use Rattle.sq_cause.specs.Target.{IsFetchFault, IsNumbered, IsRetrievalFault, IsRowFault, IsShownBy, IsTargetCause, IsTargetFault, value_shown};

use crate::cause::{TargetCause, TargetFault};
use sq_bound::{BoundFetch, BoundStatement, CursorBody, Output, ParameterDesc, fits_kind};
use sq_module::DeclaredCursor;
use sq_session::{Called, CursorState, row_at};
use sq_store::{Meter, Store};
use sq_value::{Domain, RetrieveFault, Value, retrieve};
use std::alloc::{AllocError, Global};

/// A row, and the columns of it that are shown, if not all.
#[derive(Clone, Copy)]
pub(crate) struct Shown<'a> {
    pub(crate) row: &'a [Value],
    pub(crate) whole: bool,
    pub(crate) columns: &'a [usize],
}

/// The first target that can't take its value, or only a part of it.
pub(crate) fn target_cause<S: Store>(
    called: &Called<'_>,
    cursors: &[CursorState],
    store: &S,
    statement: &BoundStatement,
) -> Result<Option<TargetCause>, AllocError>
    ensures { IfOk result (λ found. IfSome found (IsTargetCause (kind_for called.now statement.now) cursors.now
        (S.content_now store.now))) }
{
    match statement {
        BoundStatement::Fetch(fetch) => fetch_fault(called, cursors, store, fetch),
        _ => Ok(None),
    }
}

/// The first target of a FETCH that can't take its value, or only a part of it.
fn fetch_fault<S: Store>(
    called: &Called<'_>,
    cursors: &[CursorState],
    store: &S,
    fetch: &BoundFetch,
) -> Result<Option<TargetCause>, AllocError>
    ensures { IfOk result (λ found. IfSome found (IsFetchFault (fetching_for called.now fetch.now) cursors.now
        (S.content_now store.now))) }
{
    let Some(cursor) = cursors.get(fetch.cursor) else {
        return Ok(None);
    };
    let Some(shown) = shown_by(cursor, columns_at(called.cursors, fetch.cursor), store) else {
        return Ok(None);
    };
    row_fault(
        called.alloc,
        called.procedure.parameters.as_slice(),
        fetch.outputs.as_slice(),
        shown,
    )
}

/// The columns of the base table that a declared cursor shows.
fn columns_at(cursors: &[DeclaredCursor], number: usize) -> &[usize]
    ensures { result.now ≡ columns_at cursors.now number }
{
    match cursors.get(number) {
        Some(declared) => match &declared.cursor.body {
            CursorBody::Updatable(query) => query.columns.as_slice(),
            CursorBody::Rows(..) => &[],
        },
        None => &[],
    }
}

/// The row that a cursor is on, and what it shows of it.
fn shown_by<'a, S: Store>(
    cursor: &'a CursorState,
    columns: &'a [usize],
    store: &'a S,
) -> Option<Shown<'a>>
    ensures { IfSome result
        (λ s. IsShownBy cursor.now (S.content_now store.now) columns.now s.row.now s.whole s.columns.now) }
{
    match cursor {
        CursorState::Closed => None,
        CursorState::Rows(rows) => match row_at(rows.rows.as_slice(), rows.place) {
            Some(row) => Some(Shown {
                row: row.as_slice(),
                whole: true,
                columns,
            }),
            None => None,
        },
        CursorState::Numbers(numbers) => numbered(numbers.table, numbers.on, columns, store),
        CursorState::Walking(walk) => numbered(walk.table, walk.on, columns, store),
    }
}

/// The row under a number, in these columns.
fn numbered<'a, S: Store>(
    table: usize,
    on: Option<u64>,
    columns: &'a [usize],
    store: &'a S,
) -> Option<Shown<'a>>
    ensures { IfSome result
        (λ s. IsNumbered (S.content_now store.now) table on columns.now s.row.now s.whole s.columns.now) }
{
    if table >= store.table_count() {
        return None;
    }
    match on {
        None => None,
        Some(number) => match store.row(table, number, &mut Meter::new()) {
            Some(row) => Some(Shown {
                row: row.as_slice(),
                whole: false,
                columns,
            }),
            None => None,
        },
    }
}

/// The first target that can't take its value of a row.
pub(crate) fn row_fault(
    alloc: Global,
    parameters: &[ParameterDesc],
    targets: &[Output],
    shown: Shown<'_>,
) -> Result<Option<TargetCause>, AllocError>
    ensures { IfOk result (λ found. IfSome found
        (IsRowFault parameters.now targets.now shown.entry.row.now shown.entry.whole shown.entry.columns.now)) }
{
    for place in 0..targets.len() {
        if let Some(found) = fault_at(alloc, parameters, targets, shown, place)? {
            return Ok(Some(found));
        }
    }
    Ok(None)
}

/// What is wrong with the target at a place.
fn fault_at(
    alloc: Global,
    parameters: &[ParameterDesc],
    targets: &[Output],
    shown: Shown<'_>,
    place: usize,
) -> Result<Option<TargetCause>, AllocError>
    ensures { IfOk result (λ found. IfSome found
        (IsRowFault parameters.now targets.now shown.entry.row.now shown.entry.whole shown.entry.columns.now)) }
{
    let Some(target) = targets.get(place) else {
        return Ok(None);
    };
    let Some(value) = value_shown(shown.row, shown.whole, shown.columns, place) else {
        return Ok(None);
    };
    target_fault(alloc, parameters, *target, value)
}

/// The value at a place of a row.
fn value_shown<'a>(
    row: &'a [Value],
    whole: bool,
    columns: &[usize],
    place: usize,
) -> Option<&'a Value>
    ensures { IfSome result (λ v. value_shown row.now whole columns.now place ≡ Some v.now) }
{
    if whole {
        row.get(place)
    } else {
        match columns.get(place) {
            Some(column) => row.get(*column),
            None => None,
        }
    }
}

/// What is wrong with a target for a value.
fn target_fault(
    alloc: Global,
    parameters: &[ParameterDesc],
    target: Output,
    value: &Value,
) -> Result<Option<TargetCause>, AllocError>
    ensures { IfOk result (λ found. IfSome found (IsTargetFault parameters.now target value.now)) }
{
    if target.parameter >= parameters.len() {
        return Ok(None);
    }
    let parameter = parameters[target.parameter];
    match retrieval_fault(alloc, parameter.domain, target, value)? {
        Some(fault) => Ok(Some(TargetCause {
            parameter: parameter.name,
            fault,
        })),
        None => Ok(None),
    }
}

/// What is wrong with retrieving a value into a parameter of the domain.
fn retrieval_fault(
    alloc: Global,
    domain: Domain,
    target: Output,
    value: &Value,
) -> Result<Option<TargetFault>, AllocError>
    requires { IsDomain domain }
    ensures { IfOk result (λ found. IfSome found (IsRetrievalFault domain target value.now)) }
{
    match value {
        Value::Null => match target.indicator {
            Some(_) => Ok(None),
            None => Ok(Some(TargetFault::NullWithoutIndicator)),
        },
        _ => value_fault(alloc, domain, target, value),
    }
}

/// What is wrong with retrieving a value that is not null.
fn value_fault(
    alloc: Global,
    domain: Domain,
    target: Output,
    value: &Value,
) -> Result<Option<TargetFault>, AllocError>
    requires { IsDomain domain }
    ensures { IfOk result (λ found. IfSome found (IsRetrievalFault domain target value.now)) }
{
    let _ = target;
    if !fits_kind(domain, value) {
        return Ok(None);
    }
    match retrieve(alloc, value, domain) {
        Ok(retrieved) => {
            let uncut = retrieved.uncut;
            drop(retrieved);
            match uncut {
                Some(length) => Ok(Some(TargetFault::Cut(length))),
                None => Ok(None),
            }
        }
        Err(RetrieveFault::Range) => Ok(Some(TargetFault::OutOfRange)),
        Err(RetrieveFault::NoMemory) => Err(AllocError),
    }
}
