//! Conditions on the rows of a base table, those of views between and the statement's own, that end with a status.

ghost use Rattle.std.specs.Prelude.{◌<◌, IfOk, IfSome, length};
ghost use Rattle.sq_catalog.specs.Catalog.{column_kinds};
ghost use Rattle.sq_change.specs.Made.{seen_by};
ghost use Rattle.sq_query.specs.Needed.{FindsCond, FindsConds};
ghost use Rattle.sq_session.specs.Schemas.{schemas_of};
ghost use Rattle.sq_cause.specs.TargetEnd.{EndsOn, IsConditionOf, IsEndUnder, IsTargetEnd};

use crate::cause::{Clause, ClauseCause};
use sq_bound::{BoundCond, Target};
use sq_catalog::Catalog;
use sq_change::Setting;
use sq_expression::Fault;
use sq_meaning::Status;
use sq_session::TableRows;
use sq_store::{Meter, Store};
use sq_value::{Row, Truth};
use std::alloc::AllocError;

/// The first condition of a target that ends with a status: those of views from inside out, each on all rows that are left, and then
/// its own.
pub(crate) fn target_end<S: Store>(
    setting: &Setting<'_, Catalog, S>,
    target: &Target,
) -> Result<Option<ClauseCause>, AllocError>
    requires views { FindsConds setting.now.names.now.bases (column_kinds setting.now.names.now)
        target.now.leaf.conditions }
    requires own { IfSome target.now.condition
        (FindsCond setting.now.names.now.bases (column_kinds setting.now.names.now)) }
    ensures { IfOk result (λ found. IfSome found (IsTargetEnd (schemas_of setting.now.names.now)
        (seen_by setting.now.names.now.views (S.content_now setting.now.store.now) setting.now.user
        setting.now.parameters.now) target.now)) }
{
    if target.base >= setting.store.table_count() {
        return Ok(None);
    }
    if let Some(found) = views_end(setting, target)? {
        return Ok(Some(found));
    }
    match &target.condition {
        Some(own) => clause_end(setting, target, own, Clause::Where),
        None => Ok(None),
    }
}

/// The first condition of a view that ends with a status.
fn views_end<S: Store>(
    setting: &Setting<'_, Catalog, S>,
    target: &Target,
) -> Result<Option<ClauseCause>, AllocError>
    requires there { target.now.base < length (S.content_now setting.now.store.now) }
    requires views { FindsConds setting.now.names.now.bases (column_kinds setting.now.names.now)
        target.now.leaf.conditions }
    ensures { IfOk result (λ found. IfSome found (IsTargetEnd (schemas_of setting.now.names.now)
        (seen_by setting.now.names.now.views (S.content_now setting.now.store.now) setting.now.user
        setting.now.parameters.now) target.now)) }
{
    for (level, condition) in target.leaf.get().conditions.as_slice().iter().enumerate() {
        let clause = Clause::View(level);
        if let Some(found) = clause_end(setting, target, condition.get(), clause)? {
            return Ok(Some(found));
        }
    }
    Ok(None)
}

/// The first row on which a condition of a target ends with a status.
fn clause_end<S: Store>(
    setting: &Setting<'_, Catalog, S>,
    target: &Target,
    condition: &BoundCond,
    clause: Clause,
) -> Result<Option<ClauseCause>, AllocError>
    requires there { target.now.base < length (S.content_now setting.now.store.now) }
    requires views { FindsConds setting.now.names.now.bases (column_kinds setting.now.names.now)
        target.now.leaf.conditions }
    requires finds { FindsCond setting.now.names.now.bases (column_kinds setting.now.names.now) condition.now }
    requires of { IsConditionOf target.now clause condition.now }
    ensures { IfOk result (λ found. IfSome found (IsTargetEnd (schemas_of setting.now.names.now)
        (seen_by setting.now.names.now.views (S.content_now setting.now.store.now) setting.now.user
        setting.now.parameters.now) target.now)) }
{
    for (number, _) in TableRows::of(setting.store, target.base) {
        if let Some(status) = end_under(setting, target, condition, clause, number)? {
            return Ok(Some(ClauseCause {
                table: target.base,
                number,
                clause,
                status,
            }));
        }
    }
    Ok(None)
}

/// The status with which a condition of a target ends on the row under a number, if that is left to it.
fn end_under<S: Store>(
    setting: &Setting<'_, Catalog, S>,
    target: &Target,
    condition: &BoundCond,
    clause: Clause,
    number: u64,
) -> Result<Option<Status>, AllocError>
    requires there { target.now.base < length (S.content_now setting.now.store.now) }
    requires views { FindsConds setting.now.names.now.bases (column_kinds setting.now.names.now)
        target.now.leaf.conditions }
    requires finds { FindsCond setting.now.names.now.bases (column_kinds setting.now.names.now) condition.now }
    requires of { IsConditionOf target.now clause condition.now }
    ensures { IfOk result (λ found. IfSome found (IsEndUnder (schemas_of setting.now.names.now)
        (seen_by setting.now.names.now.views (S.content_now setting.now.store.now) setting.now.user
        setting.now.parameters.now) target.now number clause)) }
{
    match setting.store.row(target.base, number, &mut Meter::new()) {
        Some(row) => {
            if are_true_before(setting, target, clause, row)? {
                end_on(setting, condition, row)
            } else {
                Ok(None)
            }
        }
        None => Ok(None),
    }
}

/// Whether the conditions of the views before a condition are true of a row.
fn are_true_before<S: Store>(
    setting: &Setting<'_, Catalog, S>,
    target: &Target,
    clause: Clause,
    row: &Row,
) -> Result<bool, AllocError>
    requires { FindsConds setting.now.names.now.bases (column_kinds setting.now.names.now)
        target.now.leaf.conditions }
{
    for (place, condition) in target.leaf.get().conditions.as_slice().iter().enumerate() {
        if is_before(place, clause) && !is_true(setting, condition.get(), row)? {
            return Ok(false);
        }
    }
    Ok(true)
}

/// Whether the condition of the view at a level comes before a condition.
fn is_before(level: usize, clause: Clause) -> bool {
    match clause {
        Clause::View(other) => level < other,
        Clause::Where => true,
    }
}

/// Whether a condition is true of a row.
fn is_true<S: Store>(
    setting: &Setting<'_, Catalog, S>,
    condition: &BoundCond,
    row: &Row,
) -> Result<bool, AllocError>
    requires { FindsCond setting.now.names.now.bases (column_kinds setting.now.names.now) condition.now }
{
    match setting.truth(condition, row) {
        Ok(Truth::True) => Ok(true),
        Ok(Truth::Unknown | Truth::False) => Ok(false),
        Err(Fault::Status(_)) => Ok(false),
        Err(Fault::NoMemory) => Err(AllocError),
    }
}

/// The status with which a condition ends on a row.
fn end_on<S: Store>(
    setting: &Setting<'_, Catalog, S>,
    condition: &BoundCond,
    row: &Row,
) -> Result<Option<Status>, AllocError>
    requires { FindsCond setting.now.names.now.bases (column_kinds setting.now.names.now) condition.now }
    ensures { IfOk result (λ found. IfSome found (EndsOn (schemas_of setting.now.names.now)
        (seen_by setting.now.names.now.views (S.content_now setting.now.store.now) setting.now.user
        setting.now.parameters.now) row.now condition.now)) }
{
    match setting.truth(condition, row) {
        Ok(_) => Ok(None),
        Err(Fault::Status(failure)) => Ok(Some(failure.status())),
        Err(Fault::NoMemory) => Err(AllocError),
    }
}
