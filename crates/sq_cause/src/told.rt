//! Why a call did not end with 00000.

ghost use Rattle.std.specs.Prelude.{◌≡◌, ◌⊎◌, IfOk, IfSome, Some, is_some, map, not, true};
ghost use Rattle.std.specs.Option.{option_map};
ghost use Rattle.sq_catalog.specs.Catalog.{column_kinds};
ghost use Rattle.sq_meaning.specs.Script.{fit};
ghost use Rattle.sq_session.specs.Asked.{IsAsked};
ghost use Rattle.sq_session.specs.Called.{IsWholeFor, MayPerform, kind_for};
ghost use Rattle.sq_session.specs.Cursors.{IsWhole};
ghost use Rattle.sq_session.specs.Kind.{fits_at, kind_of};
ghost use Rattle.sq_session.specs.Parameter.{declared, started_values};
ghost use Rattle.sq_session.specs.Schemas.{schemas_of};
ghost use Rattle.sq_session.specs.State.{state_of};
ghost use Rattle.sq_session.specs.Step.{is_success};
ghost use Rattle.sq_cause.specs.Cause.{IsCause, IsStatementCause, status_of};
ghost use Rattle.sq_cause.specs.Left.{IsFound, IsFoundOf, IsLeft, IsSpecific};

use crate::breach::breach_of;
use crate::cause::{Cause, CursorCause};
use crate::clause::clause_cause;
use crate::cursor::cursor_cause;
use crate::no_row::{no_number_cause, no_row_cause};
use crate::query_cause::query_cause;
use crate::select::select_cause;
use crate::target::target_cause;
use crate::value::value_cause;
use sq_bound::BoundStatement;
use sq_meaning::Status;
use sq_module::BoundProcedure;
use sq_session::{Called, Inside, Reply, Session, started_values};
use sq_store::Store;
use sq_value::Value;
use std::alloc::{AllocError, Global};

/// Why a call that was answered with `reply` did not end with 00000; `None` if it did. It is asked right after the call, with the same
/// procedure and values.
///
/// The cause is true of the session as it is, and has the status of the reply. If no cause can be told, it is the general one, which
/// says no more than the status. If values fit the procedure, the general one is answered only if no fault of the statement and no
/// cause of its cursor holds that has the status.
#[tactic(auto, using(crate::proofs::Causes::kept_cause, crate::proofs::AlwaysFound::left_of))]
pub fn why<S: Store>(
    alloc: Global,
    session: &Session<S>,
    procedure: usize,
    values: &[Value],
    reply: &Reply,
) -> Result<Option<Cause>, AllocError>
    ensures has { IfOk result (λ cause. is_some cause ≡ not (is_success reply.now.status)) }
    ensures status { IfOk result (λ found. IfSome found (λ cause. status_of cause ≡ reply.now.status)) }
    ensures is { IfOk result (λ found. IfSome found (IsCause session.now procedure values.now)) }
    ensures left { fits_at session.now.procedures procedure values.now ≡ true
        → IfOk result (λ found. IfSome found (IsLeft session.now procedure values.now)) }
{
    match reply.status {
        Status::SuccessfulCompletion => Ok(None),
        status => {
            let found = told(alloc, session, procedure, values, status)?;
            Ok(Some(with_status(found, status)))
        }
    }
}

/// The cause, if its status is this one; else the general cause.
fn with_status(found: Option<Cause>, status: Status) -> Cause
    ensures status { status_of result ≡ status }
    ensures same { (result ≡ Cause.General status) ⊎ (Some result ≡ found) }
    ensures specific { IsSpecific status found → IsSpecific status (Some result) }
{
    match found {
        Some(cause) => {
            if cause.status() == status {
                cause
            } else {
                drop(cause);
                Cause::General(status)
            }
        }
        None => Cause::General(status),
    }
}

/// What is to be told of a call that ended with a status.
fn told<S: Store>(
    alloc: Global,
    session: &Session<S>,
    procedure: usize,
    values: &[Value],
    status: Status,
) -> Result<Option<Cause>, AllocError>
    ensures is { IfOk result (λ found. IfSome found (IsCause session.now procedure values.now)) }
    ensures finds { fits_at session.now.procedures procedure values.now ≡ true
        → IfOk result (IsFound session.now procedure values.now status) }
{
    if !session.fits(procedure, values) {
        return Ok(None);
    }
    let inside = session.inside();
    let Some((_, called)) = inside.program.procedures.get_index(procedure) else {
        return Ok(None);
    };
    match &called.statement {
        Err(fault) => Ok(Some(Cause::Fault(*fault))),
        Ok(statement) => { of_statement(alloc, &inside, called, statement, values, status) }
    }
}

/// What is to be told of a statement without a fault.
fn of_statement<S: Store>(
    alloc: Global,
    inside: &Inside<'_, S>,
    procedure: &BoundProcedure,
    statement: &BoundStatement,
    values: &[Value],
    status: Status,
) -> Result<Option<Cause>, AllocError>
    requires asked { IsAsked (column_kinds inside.now.catalog.now) inside.now.catalog.now.bases
        inside.now.program.now.cursors.items procedure.now.parameters statement.now }
    requires values_fit { fit (map declared procedure.now.parameters) values.now ≡ true }
    requires whole { IsWhole (column_kinds inside.now.catalog.now) inside.now.catalog.now.bases
        inside.now.program.now.cursors.items
        (state_of (S.content_now inside.now.store.now) (S.committed inside.now.store.now)
        (S.key_columns inside.now.store.now) (S.row_numbers inside.now.store.now) inside.now.cursors.now) }
    ensures is { IfOk result (λ found. IfSome found (IsStatementCause (schemas_of inside.now.catalog.now)
        (kind_of inside.now.program.now.cursors.items procedure.now.user procedure.now.parameters statement.now)
        (started_values procedure.now.parameters values.now)
        (state_of (S.content_now inside.now.store.now) (S.committed inside.now.store.now)
        (S.key_columns inside.now.store.now) (S.row_numbers inside.now.store.now) inside.now.cursors.now))) }
    ensures finds { IfOk result (IsFoundOf (schemas_of inside.now.catalog.now)
        (kind_of inside.now.program.now.cursors.items procedure.now.user procedure.now.parameters statement.now)
        (started_values procedure.now.parameters values.now)
        (state_of (S.content_now inside.now.store.now) (S.committed inside.now.store.now)
        (S.key_columns inside.now.store.now) (S.row_numbers inside.now.store.now) inside.now.cursors.now) status) }
{
    let values = started_values(alloc, procedure.parameters.as_slice(), values)?;
    let called = Called {
        alloc,
        catalog: inside.catalog,
        cursors: inside.program.cursors.as_slice(),
        procedure,
        values: values.as_slice(),
    };
    let found = with_values(&called, inside, statement, status);
    drop(values);
    found
}

/// What is to be told of a statement, with the values at which its parameters start.
#[tactic(auto, using(crate::proofs::AlwaysFound::cursor_told, crate::proofs::AlwaysFound::cursor_of_statement, crate::proofs::AlwaysFound::other_found))]
fn with_values<S: Store>(
    called: &Called<'_>,
    inside: &Inside<'_, S>,
    statement: &BoundStatement,
    status: Status,
) -> Result<Option<Cause>, AllocError>
    requires may { MayPerform called.now statement.now }
    requires whole { IsWholeFor called.now
        (state_of (S.content_now inside.now.store.now) (S.committed inside.now.store.now)
        (S.key_columns inside.now.store.now) (S.row_numbers inside.now.store.now) inside.now.cursors.now) }
    ensures is { IfOk result (λ found. IfSome found (IsStatementCause (schemas_of called.now.catalog.now)
        (kind_for called.now statement.now) called.now.values.now
        (state_of (S.content_now inside.now.store.now) (S.committed inside.now.store.now)
        (S.key_columns inside.now.store.now) (S.row_numbers inside.now.store.now) inside.now.cursors.now))) }
    ensures finds { IfOk result (IsFoundOf (schemas_of called.now.catalog.now)
        (kind_for called.now statement.now) called.now.values.now
        (state_of (S.content_now inside.now.store.now) (S.committed inside.now.store.now)
        (S.key_columns inside.now.store.now) (S.row_numbers inside.now.store.now) inside.now.cursors.now) status) }
{
    if status == Status::InvalidCursorState {
        return Ok(as_cause(cursor_cause(called, statement, inside.cursors, inside.store)));
    }
    by_status(called, inside, statement, status)
}

/// What is wrong with a cursor, as a cause.
fn as_cause(found: Option<CursorCause>) -> Option<Cause>
    ensures { result ≡ option_map (λ cause. Cause.Cursor cause) found }
{
    match found {
        Some(cause) => Some(Cause::Cursor(cause)),
        None => None,
    }
}

/// What is to be told of a statement that ended with a status other than that of its cursor.
fn by_status<S: Store>(
    called: &Called<'_>,
    inside: &Inside<'_, S>,
    statement: &BoundStatement,
    status: Status,
) -> Result<Option<Cause>, AllocError>
    requires may { MayPerform called.now statement.now }
    requires whole { IsWholeFor called.now
        (state_of (S.content_now inside.now.store.now) (S.committed inside.now.store.now)
        (S.key_columns inside.now.store.now) (S.row_numbers inside.now.store.now) inside.now.cursors.now) }
    ensures { IfOk result (λ found. IfSome found (IsStatementCause (schemas_of called.now.catalog.now)
        (kind_for called.now statement.now) called.now.values.now
        (state_of (S.content_now inside.now.store.now) (S.committed inside.now.store.now)
        (S.key_columns inside.now.store.now) (S.row_numbers inside.now.store.now) inside.now.cursors.now))) }
{
    match status {
        Status::IntegrityConstraintViolation | Status::CheckOptionViolation => {
            breach_of(called, inside, statement, status)
        }
        Status::NoData => no_data(called, inside, statement),
        Status::NoRowNumberLeft => match no_number_cause(called, inside, statement)? {
            Some(table) => Ok(Some(Cause::NoNumber(table))),
            None => Ok(None),
        },
        _ => of_values(called, inside, statement, status),
    }
}

/// A statement that comes to no row, or a SELECT INTO whose query has none.
fn no_data<S: Store>(
    called: &Called<'_>,
    inside: &Inside<'_, S>,
    statement: &BoundStatement,
) -> Result<Option<Cause>, AllocError>
    requires may { MayPerform called.now statement.now }
    requires whole { IsWholeFor called.now
        (state_of (S.content_now inside.now.store.now) (S.committed inside.now.store.now)
        (S.key_columns inside.now.store.now) (S.row_numbers inside.now.store.now) inside.now.cursors.now) }
    ensures { IfOk result (λ found. IfSome found (IsStatementCause (schemas_of called.now.catalog.now)
        (kind_for called.now statement.now) called.now.values.now
        (state_of (S.content_now inside.now.store.now) (S.committed inside.now.store.now)
        (S.key_columns inside.now.store.now) (S.row_numbers inside.now.store.now) inside.now.cursors.now))) }
{
    if let Some(cause) = no_row_cause(called, inside, statement)? {
        return Ok(Some(Cause::NoRow(cause)));
    }
    match select_cause(called, inside, statement)? {
        Some(cause) => Ok(Some(Cause::Select(cause))),
        None => Ok(None),
    }
}

/// A condition that ends with a status, or what is wrong with a value.
fn of_values<S: Store>(
    called: &Called<'_>,
    inside: &Inside<'_, S>,
    statement: &BoundStatement,
    status: Status,
) -> Result<Option<Cause>, AllocError>
    requires may { MayPerform called.now statement.now }
    requires whole { IsWholeFor called.now
        (state_of (S.content_now inside.now.store.now) (S.committed inside.now.store.now)
        (S.key_columns inside.now.store.now) (S.row_numbers inside.now.store.now) inside.now.cursors.now) }
    ensures { IfOk result (λ found. IfSome found (IsStatementCause (schemas_of called.now.catalog.now)
        (kind_for called.now statement.now) called.now.values.now
        (state_of (S.content_now inside.now.store.now) (S.committed inside.now.store.now)
        (S.key_columns inside.now.store.now) (S.row_numbers inside.now.store.now) inside.now.cursors.now))) }
{
    match clause_cause(called, inside, statement)? {
        Some(cause) => Ok(Some(Cause::Clause(cause))),
        None => value_or_target(called, inside, statement, status),
    }
}

/// A value that the statement can't give its column, a target that can't take its value, no only row for the targets, or a condition
/// that ends with the status on a row that the statement would put in.
fn value_or_target<S: Store>(
    called: &Called<'_>,
    inside: &Inside<'_, S>,
    statement: &BoundStatement,
    status: Status,
) -> Result<Option<Cause>, AllocError>
    requires may { MayPerform called.now statement.now }
    requires whole { IsWholeFor called.now
        (state_of (S.content_now inside.now.store.now) (S.committed inside.now.store.now)
        (S.key_columns inside.now.store.now) (S.row_numbers inside.now.store.now) inside.now.cursors.now) }
    ensures { IfOk result (λ found. IfSome found (IsStatementCause (schemas_of called.now.catalog.now)
        (kind_for called.now statement.now) called.now.values.now
        (state_of (S.content_now inside.now.store.now) (S.committed inside.now.store.now)
        (S.key_columns inside.now.store.now) (S.row_numbers inside.now.store.now) inside.now.cursors.now))) }
{
    if let Some(cause) = value_cause(called, inside, statement)? {
        return Ok(Some(Cause::Value(cause)));
    }
    if let Some(cause) = target_cause(called, inside.cursors, inside.store, statement)? {
        return Ok(Some(Cause::Target(cause)));
    }
    match select_cause(called, inside, statement)? {
        Some(cause) => Ok(Some(Cause::Select(cause))),
        None => row_or_query(called, inside, statement, status),
    }
}

/// A condition that ends with the status on a row that the statement would put in, or a query of the statement that ends.
fn row_or_query<S: Store>(
    called: &Called<'_>,
    inside: &Inside<'_, S>,
    statement: &BoundStatement,
    status: Status,
) -> Result<Option<Cause>, AllocError>
    requires may { MayPerform called.now statement.now }
    requires whole { IsWholeFor called.now
        (state_of (S.content_now inside.now.store.now) (S.committed inside.now.store.now)
        (S.key_columns inside.now.store.now) (S.row_numbers inside.now.store.now) inside.now.cursors.now) }
    ensures { IfOk result (λ found. IfSome found (IsStatementCause (schemas_of called.now.catalog.now)
        (kind_for called.now statement.now) called.now.values.now
        (state_of (S.content_now inside.now.store.now) (S.committed inside.now.store.now)
        (S.key_columns inside.now.store.now) (S.row_numbers inside.now.store.now) inside.now.cursors.now))) }
{
    match breach_of(called, inside, statement, status)? {
        Some(cause) => Ok(Some(cause)),
        None => of_query(called, inside, statement),
    }
}

/// A query of the statement that ends with a status.
fn of_query<S: Store>(
    called: &Called<'_>,
    inside: &Inside<'_, S>,
    statement: &BoundStatement,
) -> Result<Option<Cause>, AllocError>
    requires may { MayPerform called.now statement.now }
    requires whole { IsWholeFor called.now
        (state_of (S.content_now inside.now.store.now) (S.committed inside.now.store.now)
        (S.key_columns inside.now.store.now) (S.row_numbers inside.now.store.now) inside.now.cursors.now) }
    ensures { IfOk result (λ found. IfSome found (IsStatementCause (schemas_of called.now.catalog.now)
        (kind_for called.now statement.now) called.now.values.now
        (state_of (S.content_now inside.now.store.now) (S.committed inside.now.store.now)
        (S.key_columns inside.now.store.now) (S.row_numbers inside.now.store.now) inside.now.cursors.now))) }
{
    match query_cause(called, inside, statement)? {
        Some(cause) => Ok(Some(Cause::Query(cause))),
        None => Ok(None),
    }
}
