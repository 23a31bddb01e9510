//! The conditions that new and changed rows have to meet: check options, NOT NULL and CHECK (ISO/IEC 9075:1992,
//! 11.4, 11.9, 11.19).

ghost use Rattle.std.specs.Prelude.{◌≡◌, length, true, List, take, IfErr, IfOk, Ok};
ghost use Rattle.std.specs.List.{AllByRecursion, list_all, list_any, zip};
ghost use Rattle.sq_value.specs.declared.domain.Kind.{Kind};
ghost use Rattle.sq_value.specs.declared.value.Value.{Value as AnyValue};
ghost use Rattle.sq_store.specs.Change.{rows_put};
ghost use Rattle.sq_meaning.specs.Query.{is_true};
ghost use Rattle.sq_meaning.specs.Status.{Outcome, and_then};
ghost use Rattle.sq_meaning.specs.Target.{is_or_violates};
ghost use Rattle.sq_meaning.specs.Constraints.{all_satisfied};
ghost use Rattle.sq_bound.specs.declared.condition.TablePlace.{TablePlace};
ghost use Rattle.sq_expression.specs.Fault.{Meets};
ghost use Rattle.sq_query.specs.MayRead.{MayEnd, MayRead};
ghost use Rattle.sq_query.specs.Needed.{FindsCond, FindsConds};
ghost use Rattle.sq_query.specs.Row.{IsOnRow};
ghost use Rattle.sq_change.specs.Changed.{AreOnRowsPut, are_wide};
ghost use Rattle.sq_bound.specs.Fits.{has_its_values, lacks_value};
ghost use Rattle.sq_change.specs.Constraints.{check_met, check_option_met, condition_met, row_met};
ghost use Rattle.sq_change.specs.Made.{Shown, seen_by};

use crate::row::{is_null, row_put};
use crate::setting::Setting;
use sq_bound::{BaseTable, BoundCond, Leaf, Names, Shared};
use sq_expression::{Failure, Fault};
use sq_store::{Change, Store};
use sq_value::{Row, Truth, Value};

/// Whether the rows that are put in a table meet the check options of the table that the statement names.
pub(crate) fn check_options_met<N: Names, S: Store>(
    setting: &Setting<'_, N, S>,
    leaf: &Leaf,
    changes: &[Change],
) -> Result<(), Fault>
    requires { FindsConds (N.base_tables setting.now.names.now)
        (N.column_kinds setting.now.names.now) leaf.now.conditions }
    ensures met { let seen = seen_by (N.view_queries setting.now.names.now)
        (S.content_now setting.now.store.now) setting.now.user
        setting.now.parameters.now in (parameters : List Kind) (shown : Shown)
        → MayRead (N.base_tables setting.now.names.now) (N.view_queries setting.now.names.now)
        (N.column_kinds setting.now.names.now)
        (S.content_now setting.now.store.now) setting.now.user setting.now.parameters.now parameters shown
        → AreOnRowsPut (N.column_kinds setting.now.names.now) parameters leaf.now.conditions changes.now
        → Meets result (all_satisfied (check_option_met shown seen leaf.now) (rows_put changes.now)) }
    ensures right { (parameters : List Kind) (tables : TablePlace → Outcome (List (List AnyValue)))
        → MayRead (N.base_tables setting.now.names.now) (N.view_queries setting.now.names.now)
        (N.column_kinds setting.now.names.now)
        (S.content_now setting.now.store.now) setting.now.user setting.now.parameters.now parameters tables
        → AreOnRowsPut (N.column_kinds setting.now.names.now) parameters leaf.now.conditions changes.now
        → IfErr result MayEnd }
{
    let conditions = take_demanded(leaf);
    for change in changes {
        if let Some(row) = row_put(change) {
            meets_check_option(setting, conditions, row)?;
        }
    }
    Ok(())
}

/// The conditions, from inside out, that rows have to meet.
fn take_demanded(leaf: &Leaf) -> &[Shared<BoundCond>]
    ensures { result.now ≡ take leaf.now.demanded leaf.now.conditions }
{
    &leaf.conditions.as_slice()[..leaf.demanded]
}

/// Whether the conditions are true, one after the other.
fn meets_check_option<N: Names, S: Store>(
    setting: &Setting<'_, N, S>,
    conditions: &[Shared<BoundCond>],
    row: &Row,
) -> Result<(), Fault>
    requires { FindsConds (N.base_tables setting.now.names.now)
        (N.column_kinds setting.now.names.now) conditions.now }
    ensures met { let seen = seen_by (N.view_queries setting.now.names.now)
        (S.content_now setting.now.store.now) setting.now.user
        setting.now.parameters.now in (parameters : List Kind) (shown : Shown)
        → MayRead (N.base_tables setting.now.names.now) (N.view_queries setting.now.names.now)
        (N.column_kinds setting.now.names.now)
        (S.content_now setting.now.store.now) setting.now.user setting.now.parameters.now parameters shown
        → AllByRecursion (IsOnRow (N.column_kinds setting.now.names.now) parameters row.now) conditions.now
        → Meets result (all_satisfied (condition_met shown seen row.now) conditions.now) }
    ensures right { (parameters : List Kind) (tables : TablePlace → Outcome (List (List AnyValue)))
        → MayRead (N.base_tables setting.now.names.now) (N.view_queries setting.now.names.now)
        (N.column_kinds setting.now.names.now)
        (S.content_now setting.now.store.now) setting.now.user setting.now.parameters.now parameters tables
        → AllByRecursion (IsOnRow (N.column_kinds setting.now.names.now) parameters row.now) conditions.now
        → IfErr result MayEnd }
{
    for condition in conditions {
        is_or_violates(setting.truth(condition.get(), row)?)?;
    }
    Ok(())
}

fn is_or_violates(truth: Truth) -> Result<(), Fault>
    ensures met { Meets result (and_then (is_true (Ok truth)) is_or_violates) }
    ensures right { IfErr result MayEnd }
{
    match truth {
        Truth::True => Ok(()),
        _ => Err(Fault::Status(Failure::CheckOptionViolation)),
    }
}

/// Whether the rows that are put in a table satisfy its constraints on one row, row by row.
pub(crate) fn rows_satisfied<N: Names, S: Store>(
    setting: &Setting<'_, N, S>,
    table: &BaseTable,
    changes: &[Change],
) -> Result<(), Fault>
    requires wide { are_wide (length table.now.columns) (rows_put changes.now) ≡ true }
    requires finds { FindsConds (N.base_tables setting.now.names.now)
        (N.column_kinds setting.now.names.now) table.now.checks }
    ensures values { IfOk result (λ done. list_all (has_its_values table.now) (rows_put changes.now) ≡ true) }
    ensures met { let seen = seen_by (N.view_queries setting.now.names.now)
        (S.content_now setting.now.store.now) setting.now.user
        setting.now.parameters.now in (parameters : List Kind) (shown : Shown)
        → MayRead (N.base_tables setting.now.names.now) (N.view_queries setting.now.names.now)
        (N.column_kinds setting.now.names.now)
        (S.content_now setting.now.store.now) setting.now.user setting.now.parameters.now parameters shown
        → AreOnRowsPut (N.column_kinds setting.now.names.now) parameters table.now.checks changes.now
        → Meets result (all_satisfied (row_met shown seen table.now) (rows_put changes.now)) }
    ensures right { (parameters : List Kind) (tables : TablePlace → Outcome (List (List AnyValue)))
        → MayRead (N.base_tables setting.now.names.now) (N.view_queries setting.now.names.now)
        (N.column_kinds setting.now.names.now)
        (S.content_now setting.now.store.now) setting.now.user setting.now.parameters.now parameters tables
        → AreOnRowsPut (N.column_kinds setting.now.names.now) parameters table.now.checks changes.now
        → IfErr result MayEnd }
{
    for change in changes {
        if let Some(row) = row_put(change) {
            row_satisfied(setting, table, row)?;
        }
    }
    Ok(())
}

/// NOT NULL, and then each CHECK in the order of the text.
fn row_satisfied<N: Names, S: Store>(
    setting: &Setting<'_, N, S>,
    table: &BaseTable,
    row: &Row,
) -> Result<(), Fault>
    requires wide { length row.now ≡ length table.now.columns }
    requires finds { FindsConds (N.base_tables setting.now.names.now)
        (N.column_kinds setting.now.names.now) table.now.checks }
    ensures values { IfOk result (λ done. has_its_values table.now row.now ≡ true) }
    ensures met { let seen = seen_by (N.view_queries setting.now.names.now)
        (S.content_now setting.now.store.now) setting.now.user
        setting.now.parameters.now in (parameters : List Kind) (shown : Shown)
        → MayRead (N.base_tables setting.now.names.now) (N.view_queries setting.now.names.now)
        (N.column_kinds setting.now.names.now)
        (S.content_now setting.now.store.now) setting.now.user setting.now.parameters.now parameters shown
        → AllByRecursion (IsOnRow (N.column_kinds setting.now.names.now) parameters row.now) table.now.checks
        → Meets result (row_met shown seen table.now row.now) }
    ensures right { (parameters : List Kind) (tables : TablePlace → Outcome (List (List AnyValue)))
        → MayRead (N.base_tables setting.now.names.now) (N.view_queries setting.now.names.now)
        (N.column_kinds setting.now.names.now)
        (S.content_now setting.now.store.now) setting.now.user setting.now.parameters.now parameters tables
        → AllByRecursion
        (IsOnRow (N.column_kinds setting.now.names.now) parameters row.now) table.now.checks
        → IfErr result MayEnd }
{
    if lacks_value(table, row.as_slice()) {
        return Err(Fault::Status(Failure::IntegrityConstraintViolation));
    }
    for check in table.checks.as_slice() {
        check_satisfied(setting, check, row)?;
    }
    Ok(())
}

/// Whether a column is null that may not be.
fn lacks_value(table: &BaseTable, row: &[Value]) -> bool
    requires { length row.now ≡ length table.now.columns }
    ensures { result ≡ list_any lacks_value (zip table.now.columns row.now) }
{
    for (place, column) in table.columns.as_slice().iter().enumerate() {
        if column.not_null && is_null(&row[place]) {
            return true;
        }
    }
    false
}

/// A CHECK is satisfied when it is not false.
fn check_satisfied<N: Names, S: Store>(
    setting: &Setting<'_, N, S>,
    check: &BoundCond,
    row: &Row,
) -> Result<(), Fault>
    requires { FindsCond (N.base_tables setting.now.names.now)
        (N.column_kinds setting.now.names.now) check.now }
    ensures met { let seen = seen_by (N.view_queries setting.now.names.now)
        (S.content_now setting.now.store.now) setting.now.user
        setting.now.parameters.now in (parameters : List Kind) (shown : Shown)
        → MayRead (N.base_tables setting.now.names.now) (N.view_queries setting.now.names.now)
        (N.column_kinds setting.now.names.now)
        (S.content_now setting.now.store.now) setting.now.user setting.now.parameters.now parameters shown
        → IsOnRow (N.column_kinds setting.now.names.now) parameters row.now check.now
        → Meets result (check_met shown seen row.now check.now) }
    ensures right { (parameters : List Kind) (tables : TablePlace → Outcome (List (List AnyValue)))
        → MayRead (N.base_tables setting.now.names.now) (N.view_queries setting.now.names.now)
        (N.column_kinds setting.now.names.now)
        (S.content_now setting.now.store.now) setting.now.user setting.now.parameters.now parameters tables
        → IsOnRow (N.column_kinds setting.now.names.now) parameters row.now check.now → IfErr result MayEnd }
{
    match setting.truth(check, row)? {
        Truth::False => Err(Fault::Status(Failure::IntegrityConstraintViolation)),
        _ => Ok(()),
    }
}
