//! Statements that come to no row (ISO/IEC 9075:1992, 13.3, 13.7, 13.8 and 13.10), and inserts for which too few row numbers are left.

ghost use Rattle.std.specs.Prelude.{◌≡◌, IfOk, IfSome, IsTrue, None};
ghost use Rattle.sq_bound.specs.Fits.{IsBase, under};
ghost use Rattle.sq_catalog.specs.Catalog.{column_kinds};
ghost use Rattle.sq_change.specs.Given.{MayChoose};
ghost use Rattle.sq_change.specs.Made.{seen_by};
ghost use Rattle.sq_change.specs.Statement.{CanChoose, CanInsert, KeepsTables};
ghost use Rattle.sq_session.specs.Called.{IsWholeFor, MayPerform, kind_for};
ghost use Rattle.sq_session.specs.Schemas.{schemas_of};
ghost use Rattle.sq_session.specs.State.{state_of};
ghost use Rattle.sq_cause.specs.NoRow.{ChoosesNone, HasNoNumber, IsGivenNone, IsNoNumberCause, IsNoRowCause, IsNoneOfTarget, IsOnNone, is_on_none};

use crate::cause::NoRowCause;
use crate::query_rows::rows_of_query;
use sq_bound::{BoundInsert, BoundStatement, ChangeTarget, InsertedRows};
use sq_catalog::Catalog;
use sq_change::{Changed, Setting, find_inserted, rows_changed};
use sq_expression::{Failure, Fault};
use sq_session::{Called, CursorState, Inside, row_at};
use sq_store::{Meter, Store};
use std::alloc::AllocError;

/// Whether a statement comes to no row, and how.
#[tactic(auto, using(crate::proofs::OfTargets::none_updated, crate::proofs::OfTargets::none_deleted))]
pub(crate) fn no_row_cause<S: Store>(
    called: &Called<'_>,
    inside: &Inside<'_, S>,
    statement: &BoundStatement,
) -> Result<Option<NoRowCause>, AllocError>
    requires may { MayPerform called.now statement.now }
    requires whole { IsWholeFor called.now
        (state_of (S.content_now inside.now.store.now) (S.committed inside.now.store.now)
        (S.key_columns inside.now.store.now) (S.row_numbers inside.now.store.now) inside.now.cursors.now) }
    ensures { IfOk result (λ found. IfSome found (IsNoRowCause (schemas_of called.now.catalog.now)
        (kind_for called.now statement.now) called.now.values.now
        (state_of (S.content_now inside.now.store.now) (S.committed inside.now.store.now)
        (S.key_columns inside.now.store.now) (S.row_numbers inside.now.store.now) inside.now.cursors.now))) }
{
    let setting = Setting::new(
        called.alloc,
        called.catalog,
        inside.store,
        called.procedure.user,
        called.values,
    );
    match statement {
        BoundStatement::Fetch(fetch) => Ok(fetched_none(fetch.cursor, inside.cursors)),
        BoundStatement::Insert(insert) => given_none(called, inside, insert),
        BoundStatement::Update(update) => chosen_none(&setting, &update.target),
        BoundStatement::Delete(target) => chosen_none(&setting, target),
        _ => Ok(None),
    }
}

/// FETCH that has come to no row.
fn fetched_none(cursor: usize, cursors: &[CursorState]) -> Option<NoRowCause>
    ensures { IfSome result (λ cause. (cause ≡ NoRowCause.Fetched cursor) × IsOnNone cursors.now cursor) }
{
    let state = cursors.get(cursor)?;
    if is_on_none(state) {
        Some(NoRowCause::Fetched(cursor))
    } else {
        None
    }
}

/// Whether a cursor is open and on none of its rows.
fn is_on_none(cursor: &CursorState) -> bool
    ensures { result ≡ is_on_none cursor.now }
{
    match cursor {
        CursorState::Closed => false,
        CursorState::Rows(rows) => row_at(rows.rows.as_slice(), rows.place).is_none(),
        CursorState::Numbers(numbers) => numbers.on.is_none(),
        CursorState::Walking(walk) => walk.on.is_none(),
    }
}

/// INSERT whose query has no row.
fn given_none<S: Store>(
    called: &Called<'_>,
    inside: &Inside<'_, S>,
    insert: &BoundInsert,
) -> Result<Option<NoRowCause>, AllocError>
    requires may { MayPerform called.now (BoundStatement.Insert insert.now) }
    requires whole { IsWholeFor called.now
        (state_of (S.content_now inside.now.store.now) (S.committed inside.now.store.now)
        (S.key_columns inside.now.store.now) (S.row_numbers inside.now.store.now) inside.now.cursors.now) }
    ensures { IfOk result (λ found. IfSome found (λ cause. (cause ≡ NoRowCause.Given)
        × IsGivenNone (schemas_of called.now.catalog.now) called.now.procedure.now.user called.now.values.now
        (S.content_now inside.now.store.now) insert.now)) }
{
    match &insert.source {
        InsertedRows::Values(_) => Ok(None),
        InsertedRows::Query(query) => match rows_of_query(called, inside, query)? {
            Some(rows) => {
                let is_none = rows.is_empty();
                drop(rows);
                Ok(if is_none {
                    Some(NoRowCause::Given)
                } else {
                    None
                })
            }
            None => Ok(None),
        },
    }
}

/// A searched UPDATE or DELETE that chooses no row.
#[tactic(auto, using(crate::proofs::OfTargets::searched_none))]
fn chosen_none<S: Store>(
    setting: &Setting<'_, Catalog, S>,
    target: &ChangeTarget,
) -> Result<Option<NoRowCause>, AllocError>
    requires base { IsBase setting.now.names.now.bases (under target.now).table }
    requires may { MayChoose setting.now.names.now.bases setting.now.names.now.views
        (column_kinds setting.now.names.now) (S.content_now setting.now.store.now) setting.now.user
        setting.now.parameters.now target.now }
    requires kept { KeepsTables setting.now.names.now.bases (S.content_now setting.now.store.now)
        (S.key_columns setting.now.store.now) }
    ensures { IfOk result (λ found. IfSome found (IsNoneOfTarget
        (seen_by setting.now.names.now.views (S.content_now setting.now.store.now) setting.now.user
        setting.now.parameters.now) target.now)) }
{
    match target {
        ChangeTarget::Searched(searched) => {
            if chooses_none(setting, target)? {
                Ok(Some(NoRowCause::Chosen(searched.base)))
            } else {
                Ok(None)
            }
        }
        ChangeTarget::Positioned(_) => Ok(None),
    }
}

/// Whether a searched statement chooses no row.
fn chooses_none<S: Store>(
    setting: &Setting<'_, Catalog, S>,
    target: &ChangeTarget,
) -> Result<bool, AllocError>
    requires can { CanChoose setting.now.names.now.bases setting.now.names.now.views
        (column_kinds setting.now.names.now) (S.content_now setting.now.store.now) setting.now.user
        setting.now.parameters.now target.now None }
    requires kept { KeepsTables setting.now.names.now.bases (S.content_now setting.now.store.now)
        (S.key_columns setting.now.store.now) }
    ensures { IfOk result (λ is. IsTrue is → ChoosesNone
        (seen_by setting.now.names.now.views (S.content_now setting.now.store.now) setting.now.user
        setting.now.parameters.now) target.now) }
{
    match rows_changed(setting, target, None, &mut Meter::new()) {
        Ok(rows) => {
            drop(rows);
            Ok(false)
        }
        Err(Fault::Status(Failure::NoData)) => Ok(true),
        Err(Fault::Status(_)) => Ok(false),
        Err(Fault::NoMemory) => Err(AllocError),
    }
}

/// The place of the base table for whose new rows too few numbers are left.
pub(crate) fn no_number_cause<S: Store>(
    called: &Called<'_>,
    inside: &Inside<'_, S>,
    statement: &BoundStatement,
) -> Result<Option<usize>, AllocError>
    requires may { MayPerform called.now statement.now }
    requires whole { IsWholeFor called.now
        (state_of (S.content_now inside.now.store.now) (S.committed inside.now.store.now)
        (S.key_columns inside.now.store.now) (S.row_numbers inside.now.store.now) inside.now.cursors.now) }
    ensures { IfOk result (λ found. IfSome found (IsNoNumberCause (schemas_of called.now.catalog.now)
        (kind_for called.now statement.now) called.now.values.now
        (state_of (S.content_now inside.now.store.now) (S.committed inside.now.store.now)
        (S.key_columns inside.now.store.now) (S.row_numbers inside.now.store.now) inside.now.cursors.now))) }
{
    let setting = Setting::new(
        called.alloc,
        called.catalog,
        inside.store,
        called.procedure.user,
        called.values,
    );
    match statement {
        BoundStatement::Insert(insert) => unnumbered(&setting, insert),
        _ => Ok(None),
    }
}

/// An insert statement for which too few row numbers are left.
fn unnumbered<S: Store>(
    setting: &Setting<'_, Catalog, S>,
    insert: &BoundInsert,
) -> Result<Option<usize>, AllocError>
    requires can { CanInsert setting.now.names.now.bases setting.now.names.now.views
        (column_kinds setting.now.names.now) (S.content_now setting.now.store.now) setting.now.user
        setting.now.parameters.now insert.now }
    requires kept { KeepsTables setting.now.names.now.bases (S.content_now setting.now.store.now)
        (S.key_columns setting.now.store.now) }
    ensures { IfOk result (λ found. IfSome found (HasNoNumber
        (seen_by setting.now.names.now.views (S.content_now setting.now.store.now) setting.now.user
        setting.now.parameters.now) (S.row_numbers setting.now.store.now) insert.now)) }
{
    match find_inserted(setting, insert, &mut Meter::new()) {
        Ok(Changed { changes, lost_keys }) => {
            drop(lost_keys);
            drop(changes);
            Ok(None)
        }
        Err(Fault::Status(Failure::NoRowNumberLeft)) => Ok(Some(insert.base)),
        Err(Fault::Status(_)) => Ok(None),
        Err(Fault::NoMemory) => Err(AllocError),
    }
}
