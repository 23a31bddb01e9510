//! Which constraint or check option would not hold, or would end with a status, if changes were made (ISO/IEC 9075:1992, 4.10, 11.4, 11.7 to 11.9, 11.19).

ghost use Rattle.std.specs.Prelude.{IfOk, IfSome};
ghost use Rattle.sq_query.specs.Needed.{FindsConds};
ghost use Rattle.sq_catalog.specs.Catalog.{column_kinds};
ghost use Rattle.sq_change.specs.Made.{seen_by};
ghost use Rattle.sq_session.specs.Schemas.{schemas_of};
ghost use Rattle.sq_cause.specs.Breach.{IsBetween};
ghost use Rattle.sq_cause.specs.Broken.{IsBroken};
ghost use Rattle.sq_cause.specs.Cause.{IsChangeCause};

use crate::cause::{Breach, Cause};
use crate::changing::Changing;
use crate::key_breach::key_breach;
use crate::option_breach::option_breach;
use crate::reference_breach::{from_breach, to_breach};
use crate::row_breach::row_breach;
use crate::row_end::row_end;
use sq_bound::{BaseTable, Leaf, Names};
use sq_catalog::Catalog;
use sq_change::Setting;
use sq_meaning::Status;
use sq_store::{Change, Store};
use std::alloc::AllocError;

/// A constraint or a check option that would not hold if the changes were made, or would end with a status, as the status says.
pub(crate) fn cause_in<S: Store>(
    setting: &Setting<'_, Catalog, S>,
    leaf: &Leaf,
    changes: &[Change],
    status: Status,
) -> Result<Option<Cause>, AllocError>
    requires conditions { FindsConds setting.now.names.now.bases (column_kinds setting.now.names.now)
        leaf.now.conditions }
    requires checks { FindsConds setting.now.names.now.bases (column_kinds setting.now.names.now)
        leaf.now.table.checks }
    ensures { IfOk result (λ found. IfSome found (IsChangeCause (schemas_of setting.now.names.now)
        (seen_by setting.now.names.now.views (S.content_now setting.now.store.now) setting.now.user
        setting.now.parameters.now)
        (S.key_columns setting.now.store.now) leaf.now changes.now)) }
{
    let table = leaf.table.get();
    match status {
        Status::CheckOptionViolation => match option_breach(setting, leaf, changes)? {
            Some(breach) => Ok(Some(Cause::CheckOption(table.place, breach))),
            None => Ok(None),
        },
        Status::IntegrityConstraintViolation => match breach_in(setting, table, changes)? {
            Some(breach) => Ok(Some(Cause::Breach(table.place, breach))),
            None => Ok(None),
        },
        _ => match row_end(setting, leaf, changes)? {
            Some(end) => Ok(Some(Cause::RowEnd(end))),
            None => Ok(None),
        },
    }
}

/// A constraint that would not hold if the changes were made: of each row, then of keys, then of references.
#[tactic(auto, using(crate::proofs::Breaches::row_broken, crate::proofs::Breaches::between_broken))]
fn breach_in<S: Store>(
    setting: &Setting<'_, Catalog, S>,
    table: &BaseTable,
    changes: &[Change],
) -> Result<Option<Breach>, AllocError>
    requires { FindsConds setting.now.names.now.bases (column_kinds setting.now.names.now) table.now.checks }
    ensures { IfOk result (λ found. IfSome found (IsBroken (schemas_of setting.now.names.now)
        (seen_by setting.now.names.now.views (S.content_now setting.now.store.now) setting.now.user
        setting.now.parameters.now)
        (S.key_columns setting.now.store.now) table.now changes.now)) }
{
    if let Some(breach) = row_breach(setting, table, changes)? {
        return Ok(Some(breach));
    }
    breach_between(setting, table, changes)
}

/// A key or a reference that would not hold.
fn breach_between<S: Store>(
    setting: &Setting<'_, Catalog, S>,
    table: &BaseTable,
    changes: &[Change],
) -> Result<Option<Breach>, AllocError>
    ensures { IfOk result (λ found. IfSome found (IsBetween setting.now.names.now.bases table.now
        (S.key_columns setting.now.store.now) (S.content_now setting.now.store.now)
        changes.now)) }
{
    let changing = Changing {
        alloc: setting.alloc,
        bases: setting.names.bases(),
        base: table,
        store: setting.store,
        changes,
    };
    if let Some(breach) = key_breach(&changing)? {
        return Ok(Some(breach));
    }
    if let Some(breach) = from_breach(&changing)? {
        return Ok(Some(breach));
    }
    to_breach(&changing)
}
