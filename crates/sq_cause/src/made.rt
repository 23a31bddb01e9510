//! The changes that a statement would make, worked out again.

ghost use Rattle.std.specs.Prelude.{◌≡◌, IfOk, IfSome, IsSome, Some, slice_index_or};
ghost use Rattle.sq_bound.specs.Fits.{under};
ghost use Rattle.sq_catalog.specs.Catalog.{column_kinds};
ghost use Rattle.sq_change.specs.Changed.{Removals, Replacements};
ghost use Rattle.sq_change.specs.Made.{seen_by};
ghost use Rattle.sq_change.specs.Statement.{CanChoose, CanInsert, CanUpdate, IsGiven, KeepsTables};
ghost use Rattle.sq_session.specs.Called.{IsWholeFor, MayPerform, kind_for};
ghost use Rattle.sq_session.specs.Schemas.{schemas_of};
ghost use Rattle.sq_session.specs.State.{number_on, state_of};
ghost use Rattle.sq_session.specs.Step.{number_meant};
ghost use Rattle.sq_store.specs.Content.{row_at, table_at};
ghost use Rattle.sq_cause.specs.Made.{Insertions, IsMade};

use sq_bound::{BoundInsert, BoundStatement, BoundUpdate, ChangeTarget, PositionedTarget};
use sq_catalog::Catalog;
use sq_change::{Changed, Setting, find_deleted, find_inserted, find_updated};
use sq_expression::Fault;
use sq_session::{Called, CursorState, Inside, number_on};
use sq_store::{Change, Meter, Store};
use std::alloc::AllocError;

/// The changes that a statement would make, where it comes to make any.
pub(crate) fn changes_of<S: Store>(
    called: &Called<'_>,
    inside: &Inside<'_, S>,
    statement: &BoundStatement,
) -> Result<Option<Vec<Change>>, AllocError>
    requires may { MayPerform called.now statement.now }
    requires whole { IsWholeFor called.now
        (state_of (S.content_now inside.now.store.now) (S.committed inside.now.store.now)
        (S.key_columns inside.now.store.now) (S.row_numbers inside.now.store.now) inside.now.cursors.now) }
    ensures { IfOk result (λ found. IfSome found (λ changes. IsMade (schemas_of called.now.catalog.now)
        (kind_for called.now statement.now) called.now.values.now
        (state_of (S.content_now inside.now.store.now) (S.committed inside.now.store.now)
        (S.key_columns inside.now.store.now) (S.row_numbers inside.now.store.now) inside.now.cursors.now)
        changes.items)) }
{
    let setting = Setting::new(
        called.alloc,
        called.catalog,
        inside.store,
        called.procedure.user,
        called.values,
    );
    match statement {
        BoundStatement::Insert(insert) => insertions(&setting, insert),
        BoundStatement::Update(update) => {
            match number_meant(&update.target, inside.cursors, inside.store) {
                Some(on) => replacements(&setting, update, on),
                None => Ok(None),
            }
        }
        BoundStatement::Delete(target) => {
            match number_meant(target, inside.cursors, inside.store) {
                Some(on) => removals(&setting, target, on),
                None => Ok(None),
            }
        }
        _ => Ok(None),
    }
}

/// The changes of an insert statement.
fn insertions<S: Store>(
    setting: &Setting<'_, Catalog, S>,
    insert: &BoundInsert,
) -> Result<Option<Vec<Change>>, AllocError>
    requires can { CanInsert setting.now.names.now.bases setting.now.names.now.views
        (column_kinds setting.now.names.now) (S.content_now setting.now.store.now) setting.now.user
        setting.now.parameters.now insert.now }
    requires kept { KeepsTables setting.now.names.now.bases (S.content_now setting.now.store.now)
        (S.key_columns setting.now.store.now) }
    ensures { IfOk result (λ found. IfSome found (λ changes. Insertions
        (seen_by setting.now.names.now.views (S.content_now setting.now.store.now) setting.now.user
        setting.now.parameters.now) (S.row_numbers setting.now.store.now) insert.now changes.items)) }
{
    match find_inserted(setting, insert, &mut Meter::new()) {
        Ok(Changed { changes, lost_keys }) => {
            drop(lost_keys);
            Ok(Some(changes))
        }
        Err(Fault::Status(_)) => Ok(None),
        Err(Fault::NoMemory) => Err(AllocError),
    }
}

/// The changes of an update statement.
fn replacements<S: Store>(
    setting: &Setting<'_, Catalog, S>,
    update: &BoundUpdate,
    on: Option<u64>,
) -> Result<Option<Vec<Change>>, AllocError>
    requires can { CanUpdate setting.now.names.now.bases setting.now.names.now.views
        (column_kinds setting.now.names.now) (S.content_now setting.now.store.now) setting.now.user
        setting.now.parameters.now update.now on }
    requires kept { KeepsTables setting.now.names.now.bases (S.content_now setting.now.store.now)
        (S.key_columns setting.now.store.now) }
    ensures { IfOk result (λ found. IfSome found (λ changes. Replacements
        (seen_by setting.now.names.now.views (S.content_now setting.now.store.now) setting.now.user
        setting.now.parameters.now) update.now on changes.items)) }
{
    match find_updated(setting, update, on, &mut Meter::new()) {
        Ok(Changed { changes, lost_keys }) => {
            drop(lost_keys);
            Ok(Some(changes))
        }
        Err(Fault::Status(_)) => Ok(None),
        Err(Fault::NoMemory) => Err(AllocError),
    }
}

/// The changes of a delete statement.
fn removals<S: Store>(
    setting: &Setting<'_, Catalog, S>,
    target: &ChangeTarget,
    on: Option<u64>,
) -> Result<Option<Vec<Change>>, AllocError>
    requires can { CanChoose setting.now.names.now.bases setting.now.names.now.views
        (column_kinds setting.now.names.now) (S.content_now setting.now.store.now) setting.now.user
        setting.now.parameters.now target.now on }
    requires kept { KeepsTables setting.now.names.now.bases (S.content_now setting.now.store.now)
        (S.key_columns setting.now.store.now) }
    ensures { IfOk result (λ found. IfSome found (λ changes. Removals
        (seen_by setting.now.names.now.views (S.content_now setting.now.store.now) setting.now.user
        setting.now.parameters.now) target.now on changes.items)) }
{
    match find_deleted(setting, target, on, &mut Meter::new()) {
        Ok(Changed { changes, lost_keys }) => {
            drop(lost_keys);
            Ok(Some(changes))
        }
        Err(Fault::Status(_)) => Ok(None),
        Err(Fault::NoMemory) => Err(AllocError),
    }
}

/// The number of the row that a positioned statement means, and `None` for a searched one; nothing where the cursor is not on
/// a row that is there.
pub fn number_meant<S: Store>(
    target: &ChangeTarget,
    cursors: &[CursorState],
    store: &S,
) -> Option<Option<u64>>
    ensures on { IfSome result (λ on. on ≡ number_meant (state_of (S.content_now store.now) (S.committed store.now)
        (S.key_columns store.now) (S.row_numbers store.now) cursors.now) target.now) }
    ensures given { IfSome result (IsGiven target.now) }
    ensures there { IfSome result
        (λ on. IfSome on
        (λ n. IsSome (row_at (table_at (S.content_now store.now) (under target.now).table.place) n))) }
{
    match target {
        ChangeTarget::Searched(_) => Some(None),
        ChangeTarget::Positioned(positioned) => match number_there(positioned, cursors, store) {
            Some(number) => Some(Some(number)),
            None => None,
        },
    }
}

/// The number of the row that a cursor is on, if the row is there.
fn number_there<S: Store>(
    positioned: &PositionedTarget,
    cursors: &[CursorState],
    store: &S,
) -> Option<u64>
    ensures on { IfSome result
        (λ number. number_on (slice_index_or cursors.now positioned.now.cursor CursorState.Closed) ≡ Some number) }
    ensures row { IfSome result
        (λ number. IsSome (row_at (table_at (S.content_now store.now) positioned.now.base) number)) }
{
    if positioned.cursor >= cursors.len() || positioned.base >= store.table_count() {
        return None;
    }
    let number = number_on(&cursors[positioned.cursor])?;
    match store.row(positioned.base, number, &mut Meter::new()) {
        Some(_) => Some(number),
        None => None,
    }
}
