//! The first condition that rows which a statement would put in a table do not meet, where it ends with a status
//! (ISO/IEC 9075:1992, 6.12, 8.5, 11.4, 11.9, 11.19).

ghost use Rattle.std.specs.Prelude.{◌≡◌, ◌<◌, ◌+◌, IfErr, IfOk, IfSome, length, take};
ghost use Rattle.sq_catalog.specs.Catalog.{column_kinds};
ghost use Rattle.sq_change.specs.Made.{seen_by};
ghost use Rattle.sq_query.specs.Needed.{FindsCond, FindsConds};
ghost use Rattle.sq_session.specs.Schemas.{schemas_of};
ghost use Rattle.sq_cause.specs.Breach.{EachPutBefore, LacksNone};
ghost use Rattle.sq_cause.specs.Broken.{HasTruth};
ghost use Rattle.sq_cause.specs.RowEnd.{AreAsked, AreMet, IsAsked, IsNotFalseOn, IsRowEnd, IsTrueOn, MeetsChecks, MeetsOptions, demanded_of};
ghost use Rattle.sq_cause.specs.TargetEnd.{EndsOn};

use crate::cause::{Demand, RowEnd};
use crate::put::put_at;
use crate::row_breach::column_lacking;
use sq_bound::{BoundCond, Leaf, Shared};
use sq_catalog::Catalog;
use sq_change::Setting;
use sq_expression::Fault;
use sq_meaning::Status;
use sq_store::{Change, Store};
use sq_value::{Row, Truth};
use std::alloc::AllocError;

/// What comes of asking conditions of a row, one after the other.
#[derive(Clone, Copy)]
pub(crate) enum Asked {
    /// Each is met.
    Met,
    /// One is not met.
    Unmet,
    /// The one at this place ends with this status, and those before it are met.
    Ends(usize, Status),
}

/// What comes of asking rows that are put in, one after the other.
#[derive(Clone, Copy)]
pub(crate) enum RowsAsked {
    /// Each meets what is asked of it.
    Met,
    /// One does not.
    Unmet,
    /// On one a condition ends with a status, and everything before it is met.
    Ends(RowEnd),
}

/// The first condition that is not met, if it ends with a status: check options row by row, then NOT NULL and CHECK row by row.
pub(crate) fn row_end<S: Store>(
    setting: &Setting<'_, Catalog, S>,
    leaf: &Leaf,
    changes: &[Change],
) -> Result<Option<RowEnd>, AllocError>
    requires conditions { FindsConds setting.now.names.now.bases (column_kinds setting.now.names.now)
        leaf.now.conditions }
    requires checks { FindsConds setting.now.names.now.bases (column_kinds setting.now.names.now)
        leaf.now.table.checks }
    ensures { IfOk result (λ found. IfSome found (IsRowEnd (schemas_of setting.now.names.now)
        (seen_by setting.now.names.now.views (S.content_now setting.now.store.now) setting.now.user
        setting.now.parameters.now) leaf.now changes.now)) }
{
    match options_end(setting, leaf, changes)? {
        RowsAsked::Ends(end) => Ok(Some(end)),
        RowsAsked::Unmet => Ok(None),
        RowsAsked::Met => match checks_end(setting, leaf, changes)? {
            RowsAsked::Ends(end) => Ok(Some(end)),
            _ => Ok(None),
        },
    }
}

/// Check options, of each row that is put in.
fn options_end<S: Store>(
    setting: &Setting<'_, Catalog, S>,
    leaf: &Leaf,
    changes: &[Change],
) -> Result<RowsAsked, AllocError>
    requires { FindsConds setting.now.names.now.bases (column_kinds setting.now.names.now)
        leaf.now.conditions }
    ensures { IfOk result (AreAsked
        (MeetsOptions (schemas_of setting.now.names.now)
        (seen_by setting.now.names.now.views (S.content_now setting.now.store.now) setting.now.user
        setting.now.parameters.now) leaf.now)
        (IsRowEnd (schemas_of setting.now.names.now)
        (seen_by setting.now.names.now.views (S.content_now setting.now.store.now) setting.now.user
        setting.now.parameters.now) leaf.now changes.now)
        changes.now (length changes.now)) }
{
    for place in 0..changes.len() {
        match option_end(setting, leaf, changes, place)? {
            RowsAsked::Met => {}
            RowsAsked::Unmet => return Ok(RowsAsked::Unmet),
            RowsAsked::Ends(end) => return Ok(RowsAsked::Ends(end)),
        }
    }
    Ok(RowsAsked::Met)
}

/// Check options, of the row that the change at a place puts in.
fn option_end<S: Store>(
    setting: &Setting<'_, Catalog, S>,
    leaf: &Leaf,
    changes: &[Change],
    place: usize,
) -> Result<RowsAsked, AllocError>
    requires finds { FindsConds setting.now.names.now.bases (column_kinds setting.now.names.now)
        leaf.now.conditions }
    requires before { EachPutBefore changes.now place (MeetsOptions (schemas_of setting.now.names.now)
        (seen_by setting.now.names.now.views (S.content_now setting.now.store.now) setting.now.user
        setting.now.parameters.now) leaf.now) }
    ensures { IfOk result (AreAsked
        (MeetsOptions (schemas_of setting.now.names.now)
        (seen_by setting.now.names.now.views (S.content_now setting.now.store.now) setting.now.user
        setting.now.parameters.now) leaf.now)
        (IsRowEnd (schemas_of setting.now.names.now)
        (seen_by setting.now.names.now.views (S.content_now setting.now.store.now) setting.now.user
        setting.now.parameters.now) leaf.now changes.now)
        changes.now (place + 1)) }
{
    let Some((put, row)) = put_at(changes, place) else {
        return Ok(RowsAsked::Met);
    };
    match asked_options(setting, demanded(leaf), row)? {
        Asked::Met => Ok(RowsAsked::Met),
        Asked::Unmet => Ok(RowsAsked::Unmet),
        Asked::Ends(level, status) => Ok(RowsAsked::Ends(RowEnd {
            table: leaf.table.get().place,
            put,
            demand: Demand::View(level),
            status,
        })),
    }
}

/// NOT NULL and CHECK, of each row that is put in.
fn checks_end<S: Store>(
    setting: &Setting<'_, Catalog, S>,
    leaf: &Leaf,
    changes: &[Change],
) -> Result<RowsAsked, AllocError>
    requires finds { FindsConds setting.now.names.now.bases (column_kinds setting.now.names.now)
        leaf.now.table.checks }
    requires options { EachPutBefore changes.now (length changes.now)
        (MeetsOptions (schemas_of setting.now.names.now)
        (seen_by setting.now.names.now.views (S.content_now setting.now.store.now) setting.now.user
        setting.now.parameters.now) leaf.now) }
    ensures { IfOk result (AreAsked
        (MeetsChecks (schemas_of setting.now.names.now)
        (seen_by setting.now.names.now.views (S.content_now setting.now.store.now) setting.now.user
        setting.now.parameters.now) leaf.now.table)
        (IsRowEnd (schemas_of setting.now.names.now)
        (seen_by setting.now.names.now.views (S.content_now setting.now.store.now) setting.now.user
        setting.now.parameters.now) leaf.now changes.now)
        changes.now (length changes.now)) }
{
    for place in 0..changes.len() {
        match check_end(setting, leaf, changes, place)? {
            RowsAsked::Met => {}
            RowsAsked::Unmet => return Ok(RowsAsked::Unmet),
            RowsAsked::Ends(end) => return Ok(RowsAsked::Ends(end)),
        }
    }
    Ok(RowsAsked::Met)
}

/// NOT NULL and CHECK, of the row that the change at a place puts in.
fn check_end<S: Store>(
    setting: &Setting<'_, Catalog, S>,
    leaf: &Leaf,
    changes: &[Change],
    place: usize,
) -> Result<RowsAsked, AllocError>
    requires finds { FindsConds setting.now.names.now.bases (column_kinds setting.now.names.now)
        leaf.now.table.checks }
    requires options { EachPutBefore changes.now (length changes.now)
        (MeetsOptions (schemas_of setting.now.names.now)
        (seen_by setting.now.names.now.views (S.content_now setting.now.store.now) setting.now.user
        setting.now.parameters.now) leaf.now) }
    requires before { EachPutBefore changes.now place (MeetsChecks (schemas_of setting.now.names.now)
        (seen_by setting.now.names.now.views (S.content_now setting.now.store.now) setting.now.user
        setting.now.parameters.now) leaf.now.table) }
    ensures { IfOk result (AreAsked
        (MeetsChecks (schemas_of setting.now.names.now)
        (seen_by setting.now.names.now.views (S.content_now setting.now.store.now) setting.now.user
        setting.now.parameters.now) leaf.now.table)
        (IsRowEnd (schemas_of setting.now.names.now)
        (seen_by setting.now.names.now.views (S.content_now setting.now.store.now) setting.now.user
        setting.now.parameters.now) leaf.now changes.now)
        changes.now (place + 1)) }
{
    let Some((put, row)) = put_at(changes, place) else {
        return Ok(RowsAsked::Met);
    };
    let table = leaf.table.get();
    if column_lacking(table, row.as_slice()).is_some() {
        return Ok(RowsAsked::Unmet);
    }
    match asked_checks(setting, table.checks.as_slice(), row)? {
        Asked::Met => Ok(RowsAsked::Met),
        Asked::Unmet => Ok(RowsAsked::Unmet),
        Asked::Ends(check, status) => Ok(RowsAsked::Ends(RowEnd {
            table: table.place,
            put,
            demand: Demand::Check(check),
            status,
        })),
    }
}

/// The conditions, from inside out, that rows have to meet.
fn demanded(leaf: &Leaf) -> &[Shared<BoundCond>]
    ensures { result.now ≡ demanded_of leaf.now }
{
    &leaf.conditions.as_slice()[..leaf.demanded]
}

/// Conditions of views, of a row: each has to be true.
fn asked_options<S: Store>(
    setting: &Setting<'_, Catalog, S>,
    conditions: &[Shared<BoundCond>],
    row: &Row,
) -> Result<Asked, AllocError>
    requires { FindsConds setting.now.names.now.bases (column_kinds setting.now.names.now) conditions.now }
    ensures { IfOk result (IsAsked
        (IsTrueOn (schemas_of setting.now.names.now)
        (seen_by setting.now.names.now.views (S.content_now setting.now.store.now) setting.now.user
        setting.now.parameters.now) row.now)
        (EndsOn (schemas_of setting.now.names.now)
        (seen_by setting.now.names.now.views (S.content_now setting.now.store.now) setting.now.user
        setting.now.parameters.now) row.now)
        conditions.now (length conditions.now)) }
{
    for place in 0..conditions.len() {
        match asked_option(setting, conditions, row, place)? {
            Asked::Met => {}
            Asked::Unmet => return Ok(Asked::Unmet),
            Asked::Ends(level, status) => return Ok(Asked::Ends(level, status)),
        }
    }
    Ok(Asked::Met)
}

/// The condition of a view at a place.
fn asked_option<S: Store>(
    setting: &Setting<'_, Catalog, S>,
    conditions: &[Shared<BoundCond>],
    row: &Row,
    place: usize,
) -> Result<Asked, AllocError>
    requires finds { FindsConds setting.now.names.now.bases (column_kinds setting.now.names.now)
        conditions.now }
    requires there { place < length conditions.now }
    requires before { AreMet (IsTrueOn (schemas_of setting.now.names.now)
        (seen_by setting.now.names.now.views (S.content_now setting.now.store.now) setting.now.user
        setting.now.parameters.now) row.now) conditions.now place }
    ensures { IfOk result (IsAsked
        (IsTrueOn (schemas_of setting.now.names.now)
        (seen_by setting.now.names.now.views (S.content_now setting.now.store.now) setting.now.user
        setting.now.parameters.now) row.now)
        (EndsOn (schemas_of setting.now.names.now)
        (seen_by setting.now.names.now.views (S.content_now setting.now.store.now) setting.now.user
        setting.now.parameters.now) row.now)
        conditions.now (place + 1)) }
{
    match comes_to(setting, conditions[place].get(), row)? {
        Ok(Truth::True) => Ok(Asked::Met),
        Ok(Truth::Unknown) => Ok(Asked::Unmet),
        Ok(Truth::False) => Ok(Asked::Unmet),
        Err(status) => Ok(Asked::Ends(place, status)),
    }
}

/// CHECKs, of a row: none may be false.
fn asked_checks<S: Store>(
    setting: &Setting<'_, Catalog, S>,
    checks: &[BoundCond],
    row: &Row,
) -> Result<Asked, AllocError>
    requires { FindsConds setting.now.names.now.bases (column_kinds setting.now.names.now) checks.now }
    ensures { IfOk result (IsAsked
        (IsNotFalseOn (schemas_of setting.now.names.now)
        (seen_by setting.now.names.now.views (S.content_now setting.now.store.now) setting.now.user
        setting.now.parameters.now) row.now)
        (EndsOn (schemas_of setting.now.names.now)
        (seen_by setting.now.names.now.views (S.content_now setting.now.store.now) setting.now.user
        setting.now.parameters.now) row.now)
        checks.now (length checks.now)) }
{
    for place in 0..checks.len() {
        match asked_check(setting, checks, row, place)? {
            Asked::Met => {}
            Asked::Unmet => return Ok(Asked::Unmet),
            Asked::Ends(check, status) => return Ok(Asked::Ends(check, status)),
        }
    }
    Ok(Asked::Met)
}

/// The CHECK at a place.
fn asked_check<S: Store>(
    setting: &Setting<'_, Catalog, S>,
    checks: &[BoundCond],
    row: &Row,
    place: usize,
) -> Result<Asked, AllocError>
    requires finds { FindsConds setting.now.names.now.bases (column_kinds setting.now.names.now) checks.now }
    requires there { place < length checks.now }
    requires before { AreMet (IsNotFalseOn (schemas_of setting.now.names.now)
        (seen_by setting.now.names.now.views (S.content_now setting.now.store.now) setting.now.user
        setting.now.parameters.now) row.now) checks.now place }
    ensures { IfOk result (IsAsked
        (IsNotFalseOn (schemas_of setting.now.names.now)
        (seen_by setting.now.names.now.views (S.content_now setting.now.store.now) setting.now.user
        setting.now.parameters.now) row.now)
        (EndsOn (schemas_of setting.now.names.now)
        (seen_by setting.now.names.now.views (S.content_now setting.now.store.now) setting.now.user
        setting.now.parameters.now) row.now)
        checks.now (place + 1)) }
{
    match comes_to(setting, &checks[place], row)? {
        Ok(Truth::True) => Ok(Asked::Met),
        Ok(Truth::Unknown) => Ok(Asked::Met),
        Ok(Truth::False) => Ok(Asked::Unmet),
        Err(status) => Ok(Asked::Ends(place, status)),
    }
}

/// What a condition comes to on a row: its truth, or the status with which it ends.
fn comes_to<S: Store>(
    setting: &Setting<'_, Catalog, S>,
    condition: &BoundCond,
    row: &Row,
) -> Result<Result<Truth, Status>, AllocError>
    requires { FindsCond setting.now.names.now.bases (column_kinds setting.now.names.now) condition.now }
    ensures truth { IfOk result (λ come. IfOk come (HasTruth (schemas_of setting.now.names.now)
        (seen_by setting.now.names.now.views (S.content_now setting.now.store.now) setting.now.user
        setting.now.parameters.now) row.now condition.now)) }
    ensures ends { IfOk result (λ come. IfErr come (EndsOn (schemas_of setting.now.names.now)
        (seen_by setting.now.names.now.views (S.content_now setting.now.store.now) setting.now.user
        setting.now.parameters.now) row.now condition.now)) }
{
    match setting.truth(condition, row) {
        Ok(truth) => Ok(Ok(truth)),
        Err(Fault::Status(failure)) => Ok(Err(failure.status())),
        Err(Fault::NoMemory) => Err(AllocError),
    }
}
