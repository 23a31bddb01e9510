//! Conditions that end with a status on a row of a base table (ISO/IEC 9075:1992, 6.12, 8.5, 13.1, 13.7 and 13.10).

ghost use Rattle.std.specs.Prelude.{◌≡◌, IfOk, IfSome};
ghost use Rattle.sq_catalog.specs.Catalog.{column_kinds};
ghost use Rattle.sq_session.specs.Called.{IsWholeFor, MayPerform, kind_for};
ghost use Rattle.sq_session.specs.Kind.{body_at};
ghost use Rattle.sq_session.specs.Schemas.{schemas_of};
ghost use Rattle.sq_session.specs.State.{state_of};
ghost use Rattle.sq_change.specs.Made.{seen_by};
ghost use Rattle.sq_cause.specs.Clause.{FindsTarget, IsBodyEnd, IsChangeEnd, IsClauseCause};

use crate::cause::ClauseCause;
use crate::target_end::target_end;
use sq_bound::{BoundStatement, ChangeTarget, CursorBody};
use sq_catalog::Catalog;
use sq_change::Setting;
use sq_session::{Called, Inside};
use sq_store::Store;
use std::alloc::AllocError;

/// The first condition of UPDATE, DELETE or an updatable cursor that ends with a status on a row.
#[tactic(auto, using(crate::proofs::OfTargets::end_updated, crate::proofs::OfTargets::end_deleted))]
pub(crate) fn clause_cause<S: Store>(
    called: &Called<'_>,
    inside: &Inside<'_, S>,
    statement: &BoundStatement,
) -> Result<Option<ClauseCause>, AllocError>
    requires may { MayPerform called.now statement.now }
    requires whole { IsWholeFor called.now
        (state_of (S.content_now inside.now.store.now) (S.committed inside.now.store.now)
        (S.key_columns inside.now.store.now) (S.row_numbers inside.now.store.now) inside.now.cursors.now) }
    ensures { IfOk result (λ found. IfSome found (IsClauseCause (schemas_of called.now.catalog.now)
        (kind_for called.now statement.now) called.now.values.now
        (state_of (S.content_now inside.now.store.now) (S.committed inside.now.store.now)
        (S.key_columns inside.now.store.now) (S.row_numbers inside.now.store.now) inside.now.cursors.now))) }
{
    let setting = Setting::new(
        called.alloc,
        called.catalog,
        inside.store,
        called.procedure.user,
        called.values,
    );
    match statement {
        BoundStatement::Open(cursor) => opened_end(called, &setting, *cursor),
        BoundStatement::Update(update) => changed_end(&setting, &update.target),
        BoundStatement::Delete(target) => changed_end(&setting, target),
        _ => Ok(None),
    }
}

/// The first condition of a searched statement that ends with a status.
fn changed_end<S: Store>(
    setting: &Setting<'_, Catalog, S>,
    target: &ChangeTarget,
) -> Result<Option<ClauseCause>, AllocError>
    requires finds { FindsTarget setting.now.names.now.bases (column_kinds setting.now.names.now) target.now }
    ensures { IfOk result (λ found. IfSome found (IsChangeEnd (schemas_of setting.now.names.now)
        (seen_by setting.now.names.now.views (S.content_now setting.now.store.now) setting.now.user
        setting.now.parameters.now) target.now)) }
{
    match target {
        ChangeTarget::Searched(target) => target_end(setting, target),
        ChangeTarget::Positioned(_) => Ok(None),
    }
}

/// The first condition of an updatable cursor that ends with a status.
fn opened_end<S: Store>(
    called: &Called<'_>,
    setting: &Setting<'_, Catalog, S>,
    cursor: usize,
) -> Result<Option<ClauseCause>, AllocError>
    requires may { MayPerform called.now (BoundStatement.Open cursor) }
    requires names { setting.now.names.now ≡ called.now.catalog.now }
    ensures { IfOk result (λ found. IfSome found (IsBodyEnd (schemas_of setting.now.names.now)
        (seen_by setting.now.names.now.views (S.content_now setting.now.store.now) setting.now.user
        setting.now.parameters.now) (body_at called.now.cursors.now cursor))) }
{
    let Some(declared) = called.cursors.get(cursor) else {
        return Ok(None);
    };
    match &declared.cursor.body {
        CursorBody::Updatable(query) => target_end(setting, &query.target),
        CursorBody::Rows(..) => Ok(None),
    }
}
