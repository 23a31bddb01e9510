//! Which constraint or check option would not hold, or would end with a status, if a statement made its changes.

ghost use Rattle.std.specs.Prelude.{IfOk, IfSome};
ghost use Rattle.sq_session.specs.Called.{IsWholeFor, MayPerform, kind_for};
ghost use Rattle.sq_session.specs.Schemas.{schemas_of};
ghost use Rattle.sq_session.specs.State.{state_of};
ghost use Rattle.sq_cause.specs.Cause.{ChangeCause};
ghost use Rattle.sq_cause.specs.Made.{IsLeafOf};

use crate::cause::Cause;
use crate::constraint::cause_in;
use crate::made::changes_of;
use sq_bound::{BoundStatement, Leaf};
use sq_change::{Setting, leaf_under};
use sq_meaning::Status;
use sq_session::{Called, Inside};
use sq_store::Store;
use std::alloc::AllocError;

/// A constraint or a check option that would not hold if a statement made its changes, or would end with a status, as the status says.
pub(crate) fn breach_of<S: Store>(
    called: &Called<'_>,
    inside: &Inside<'_, S>,
    statement: &BoundStatement,
    status: Status,
) -> Result<Option<Cause>, AllocError>
    requires may { MayPerform called.now statement.now }
    requires whole { IsWholeFor called.now
        (state_of (S.content_now inside.now.store.now) (S.committed inside.now.store.now)
        (S.key_columns inside.now.store.now) (S.row_numbers inside.now.store.now) inside.now.cursors.now) }
    ensures { IfOk result (λ found. IfSome found (ChangeCause (schemas_of called.now.catalog.now)
        (kind_for called.now statement.now) called.now.values.now
        (state_of (S.content_now inside.now.store.now) (S.committed inside.now.store.now)
        (S.key_columns inside.now.store.now) (S.row_numbers inside.now.store.now) inside.now.cursors.now))) }
{
    let Some(leaf) = leaf_of(statement) else {
        return Ok(None);
    };
    let setting = Setting::new(
        called.alloc,
        called.catalog,
        inside.store,
        called.procedure.user,
        called.values,
    );
    match changes_of(called, inside, statement)? {
        None => Ok(None),
        Some(changes) => {
            let found = cause_in(&setting, leaf, changes.as_slice(), status);
            drop(changes);
            found
        }
    }
}

/// What is under the table that a statement changes.
fn leaf_of(statement: &BoundStatement) -> Option<&Leaf>
    ensures { IfSome result (λ leaf. IsLeafOf statement.now leaf.now) }
{
    match statement {
        BoundStatement::Insert(insert) => Some(insert.leaf.get()),
        BoundStatement::Update(update) => Some(leaf_under(&update.target)),
        BoundStatement::Delete(target) => Some(leaf_under(target)),
        _ => None,
    }
}
