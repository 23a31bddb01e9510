//! The rows that UPDATE and DELETE change (ISO/IEC 9075:1992, 13.6, 13.7, 13.9 and 13.10).

ghost use Rattle.std.specs.Prelude.{◌≡◌, ◌<◌, ◌≤◌, ◌+◌, ◌∷◌, [], ℕ, List, length, map, true, IfErr, IfOk, IfSome, IsSome, Some};
ghost use Rattle.std.specs.List.{AllByRecursion};
ghost use Rattle.sq_store.specs.Content.{row_at, table_at};
ghost use Rattle.sq_store.specs.declared.table.Table.{Table};
ghost use Rattle.sq_meaning.specs.Status.{Outcome};
ghost use Rattle.sq_bound.specs.Fits.{IsBase, IsColumnOf, IsRowIn, are_columns, under};
ghost use Rattle.sq_bound.specs.declared.names.BaseTable.{BaseTable as AnyTable};
ghost use Rattle.sq_query.specs.FewRows.{few_numbered};
ghost use Rattle.sq_query.specs.Keyed.{IsKeyedChange};
ghost use Rattle.sq_query.specs.MayRead.{MayEnd};
ghost use Rattle.sq_query.specs.Table.{numbered_in, numbered_row};
ghost use Rattle.sq_query.specs.Target.{AreNumbersOf, AreRowsThere, numbers_in};
ghost use Rattle.sq_expression.specs.Fault.{Meets, MeetsAs};
ghost use Rattle.sq_change.specs.Changed.{AreReplacements, FitTable, few_with, numbers_with, rows_replaced_in};
ghost use Rattle.sq_change.specs.Given.{AreAssignable, MayAssign};
ghost use Rattle.sq_change.specs.Made.{Shown, numbers_changed, row_updated, rows_updated, seen_by};
ghost use Rattle.sq_change.specs.Reference.{LosesAll, LosesAssigned, is_assigned};
ghost use Rattle.sq_change.specs.Statement.{CanChoose, IsShown, KeepsTables};

use crate::setting::Setting;
use crate::storing::stored_value;
use sq_bound::{BaseTable, BoundAssignment, ChangeTarget, Leaf, Names};
use sq_expression::{Failure, Fault};
use sq_items::Items;
use sq_query::{FewRows, numbers_of, rows_of};
use sq_store::{Change, Meter, Store};
use sq_value::{Row, copy_row};
use std::alloc::{AllocError, Global};

/// The leaf of the table that a statement changes.
pub fn leaf_under(target: &ChangeTarget) -> &Leaf
    ensures { result.now ≡ under target.now }
{
    match target {
        ChangeTarget::Searched(target) => target.leaf.get(),
        ChangeTarget::Positioned(target) => target.leaf.get(),
    }
}

/// The numbers of the rows that the search condition keeps, at least one, or of the row that a cursor is on.
pub(crate) fn numbers_changed<N: Names, S: Store>(
    setting: &Setting<'_, N, S>,
    target: &ChangeTarget,
    on: Option<u64>,
    meter: &mut Meter,
) -> Result<Vec<u64>, Fault>
    requires can { CanChoose (N.base_tables setting.now.names.now) (N.view_queries setting.now.names.now)
        (N.column_kinds setting.now.names.now) (S.content_now setting.now.store.now) setting.now.user
        setting.now.parameters.now target.now on }
    requires kept { KeepsTables (N.base_tables setting.now.names.now) (S.content_now setting.now.store.now)
        (S.key_columns setting.now.store.now) }
    ensures meant { let seen = seen_by (N.view_queries setting.now.names.now)
        (S.content_now setting.now.store.now) setting.now.user
        setting.now.parameters.now in (shown : Shown) → IsShown seen shown
        → MeetsAs numbers_in result (numbers_changed shown seen target.now on) }
    ensures there { IfSome on
        (λ n. IsSome (row_at
        (table_at (S.content_now setting.now.store.now) (under target.now).table.place) n))
        → IfOk result (λ numbers. AreNumbersOf (table_at (S.content_now setting.now.store.now)
        (under target.now).table.place) numbers.items) }
    ensures right { IfErr result MayEnd }
    ensures read { IsKeyedChange target.now setting.now.parameters.now setting.now.user
        → meter.new ≤ meter.old + 1 }
{
    match target {
        ChangeTarget::Searched(target) => {
            let numbers = numbers_of(
                setting.alloc,
                setting.names,
                target,
                setting.store,
                setting.inputs(),
                meter,
            )?;
            if numbers.is_empty() {
                return Err(Fault::Status(Failure::NoData));
            }
            Ok(numbers)
        }
        ChangeTarget::Positioned(_) => match on {
            Some(number) => list_only(setting.alloc, number),
            None => unreachable!(),
        },
    }
}

/// The number of the row that a cursor is on.
fn list_only(alloc: Global, number: u64) -> Result<Vec<u64>, Fault>
    ensures only { IfOk result (λ numbers. numbers.items ≡ number ∷ []) }
    ensures memory { IfErr result (λ f. f ≡ Fault.NoMemory) }
    ensures right { IfErr result MayEnd }
{
    let mut numbers = Vec::new(alloc);
    numbers.push(number)?;
    Ok(numbers)
}

/// The rows that a statement changes, with their numbers. They are the rows that the search condition keeps, at
/// least one, or the row that a cursor is on.
pub(crate) fn few_changed<'a, N: Names, S: Store>(
    setting: &Setting<'a, N, S>,
    target: &ChangeTarget,
    on: Option<u64>,
    meter: &mut Meter,
) -> Result<FewRows<'a>, Fault>
    requires can { CanChoose (N.base_tables setting.now.names.now) (N.view_queries setting.now.names.now)
        (N.column_kinds setting.now.names.now) (S.content_now setting.now.store.now) setting.now.user
        setting.now.parameters.now target.now on }
    requires there { IfSome on
        (λ n. IsSome (row_at
        (table_at (S.content_now setting.now.store.now) (under target.now).table.place) n)) }
    requires kept { KeepsTables (N.base_tables setting.now.names.now) (S.content_now setting.now.store.now)
        (S.key_columns setting.now.store.now) }
    ensures meant { let seen = seen_by (N.view_queries setting.now.names.now)
        (S.content_now setting.now.store.now) setting.now.user
        setting.now.parameters.now in (shown : Shown) → IsShown seen shown
        → MeetsAs few_with result (numbers_changed shown seen target.now on) }
    ensures there { IfOk result
        (λ rows. AreRowsThere (table_at (S.content_now setting.now.store.now) (under target.now).table.place)
        (few_numbered rows)) }
    ensures right { IfErr result MayEnd }
    ensures read { IsKeyedChange target.now setting.now.parameters.now setting.now.user
        → meter.new ≤ meter.old + 1 }
{
    match target {
        ChangeTarget::Searched(target) => {
            let rows = rows_of(
                setting.alloc,
                setting.names,
                target,
                setting.store,
                setting.inputs(),
                meter,
            )?;
            if rows.as_slice().is_empty() {
                return Err(Fault::Status(Failure::NoData));
            }
            Ok(rows)
        }
        ChangeTarget::Positioned(_) => match on {
            Some(number) => Ok(only_row(setting, leaf_under(target).table.get(), number)),
            None => unreachable!(),
        },
    }
}

/// The rows that a statement changes, with their numbers, in a list. They are the rows that the search condition keeps, at
/// least one, or the row that a cursor is on.
pub fn rows_changed<'a, N: Names, S: Store>(
    setting: &Setting<'a, N, S>,
    target: &ChangeTarget,
    on: Option<u64>,
    meter: &mut Meter,
) -> Result<Vec<(u64, &'a Row)>, Fault>
    requires can { CanChoose (N.base_tables setting.now.names.now) (N.view_queries setting.now.names.now)
        (N.column_kinds setting.now.names.now) (S.content_now setting.now.store.now) setting.now.user
        setting.now.parameters.now target.now on }
    requires there { IfSome on
        (λ n. IsSome (row_at
        (table_at (S.content_now setting.now.store.now) (under target.now).table.place) n)) }
    requires kept { KeepsTables (N.base_tables setting.now.names.now) (S.content_now setting.now.store.now)
        (S.key_columns setting.now.store.now) }
    ensures meant { let seen = seen_by (N.view_queries setting.now.names.now)
        (S.content_now setting.now.store.now) setting.now.user
        setting.now.parameters.now in (shown : Shown) → IsShown seen shown
        → MeetsAs numbers_with result (numbers_changed shown seen target.now on) }
    ensures there { IfOk result
        (λ rows. AreRowsThere (table_at (S.content_now setting.now.store.now) (under target.now).table.place)
        (numbered_in rows)) }
    ensures right { IfErr result MayEnd }
    ensures read { IsKeyedChange target.now setting.now.parameters.now setting.now.user
        → meter.new ≤ meter.old + 1 }
{
    list_rows(setting.alloc, few_changed(setting, target, on, meter))
}

/// Rows in a list, or their fault.
fn list_rows<'a>(
    alloc: Global,
    rows: Result<FewRows<'a>, Fault>,
) -> Result<Vec<(u64, &'a Row)>, Fault>
    ensures meant { (o : Outcome (List ℕ)) → MeetsAs few_with rows.entry o → MeetsAs numbers_with result o }
    ensures there { (table : Table) → IfOk rows.entry (λ found. AreRowsThere table (few_numbered found))
        → IfOk result (λ found. AreRowsThere table (numbered_in found)) }
    ensures right { IfErr rows.entry MayEnd → IfErr result MayEnd }
{
    match rows {
        Ok(rows) => Ok(rows.into_vec(alloc)?),
        Err(fault) => Err(fault),
    }
}

/// The row under a number, with it. It isn't counted: it was read when the cursor came to it.
fn only_row<'a, N: Names, S: Store>(
    setting: &Setting<'a, N, S>,
    table: &BaseTable,
    number: u64,
) -> FewRows<'a>
    requires place { table.now.place < length (S.content_now setting.now.store.now) }
    requires there { IsSome (row_at (table_at (S.content_now setting.now.store.now) table.now.place) number) }
    ensures only { few_with result ≡ number ∷ [] }
    ensures there { AreRowsThere (table_at (S.content_now setting.now.store.now) table.now.place)
        (few_numbered result) }
{
    FewRows::One((number, row_under(setting, table, number)))
}

/// The row under a number.
fn row_under<'a, N: Names, S: Store>(
    setting: &Setting<'a, N, S>,
    table: &BaseTable,
    number: u64,
) -> &'a Row
    requires place { table.now.place < length (S.content_now setting.now.store.now) }
    requires there { IsSome (row_at (table_at (S.content_now setting.now.store.now) table.now.place) number) }
    ensures { row_at (table_at (S.content_now setting.now.store.now) table.now.place) number ≡ Some
        (record { number = number; row = result.now }) }
{
    match setting.store.row(table.place, number, &mut Meter::new()) {
        Some(row) => row,
        None => unreachable!(),
    }
}

/// These rows after the set clauses, under their numbers.
pub(crate) fn replace_rows<N: Names, S: Store>(
    setting: &Setting<'_, N, S>,
    table: &BaseTable,
    assignments: &[BoundAssignment],
    rows: &[(u64, &Row)],
) -> Result<Vec<Change>, Fault>
    requires there { AreRowsThere (table_at (S.content_now setting.now.store.now) table.now.place)
        (map numbered_row rows.now) }
    requires kept { KeepsTables (N.base_tables setting.now.names.now) (S.content_now setting.now.store.now)
        (S.key_columns setting.now.store.now) }
    requires base { IsBase (N.base_tables setting.now.names.now) table.now }
    requires assigned { MayAssign
        (N.column_kinds setting.now.names.now) setting.now.parameters.now table.now assignments.now }
    ensures replacements { IfOk result
        (λ changes. AreReplacements (map (λ found. found.0) rows.now) changes.items) }
    ensures meant { let seen = seen_by (N.view_queries setting.now.names.now)
        (S.content_now setting.now.store.now) setting.now.user
        setting.now.parameters.now in (shown : Shown)
        → MeetsAs rows_replaced_in result
        (rows_updated shown seen assignments.now table.now.place (map (λ found. found.0) rows.now)) }
    ensures fit { IfOk result (λ changes. FitTable table.now changes.items) }
    ensures right { IfErr result MayEnd }
{
    let mut changes = Vec::with_capacity(setting.alloc, rows.len())?;
    for found in rows {
        let row = updated_row(setting, assignments, found.1)?;
        changes.push(Change::Replace(found.0, row))?;
    }
    Ok(changes)
}

/// A row after the set clauses, which read the values before.
fn updated_row<N: Names, S: Store>(
    setting: &Setting<'_, N, S>,
    assignments: &[BoundAssignment],
    row: &Row,
) -> Result<Row, Fault>
    requires columns { are_columns (length row.now) assignments.now ≡ true }
    requires assignable { AreAssignable assignments.now row.now setting.now.parameters.now setting.now.user }
    ensures meant { let seen = seen_by (N.view_queries setting.now.names.now)
        (S.content_now setting.now.store.now) setting.now.user
        setting.now.parameters.now in (shown : Shown)
        → Meets result (row_updated shown seen assignments.now row.now) }
    ensures wide { IfOk result (λ updated. length updated ≡ length row.now) }
    ensures in_domains { IfOk result
        (λ updated. (t : AnyTable) → AllByRecursion (λ a. IsColumnOf t a.column) assignments.now
        → IsRowIn t.columns row.now
        → IsRowIn t.columns updated) }
    ensures right { IfErr result MayEnd }
{
    let mut updated = copy_row(setting.alloc, row.as_slice())?.into_vec();
    for assignment in assignments {
        let column = assignment.column;
        let value = stored_value(setting, column, &assignment.value, Some(row))?;
        updated[column.position] = value;
    }
    Ok(Items::from_vec(updated))
}

/// The removal of the rows under these numbers.
pub(crate) fn remove_rows(alloc: Global, numbers: &[u64]) -> Result<Vec<Change>, Fault>
    ensures removals { IfOk result (λ changes. changes.items ≡ map Change.Remove numbers.now) }
    ensures memory { IfErr result (λ f. f ≡ Fault.NoMemory) }
{
    Ok(
        numbers
            .iter()
            .map(|number| Change::Remove(*number))
            .collect(alloc)?,
    )
}

/// The keys that have a column which a set clause assigns.
pub(crate) fn keys_assigned(
    alloc: Global,
    table: &BaseTable,
    assignments: &[BoundAssignment],
) -> Result<Vec<usize>, AllocError>
    ensures lost { IfOk result (λ keys. LosesAssigned table.now.keys assignments.now keys.items) }
{
    let mut keys = Vec::new(alloc);
    for (key, columns) in table.keys.as_slice().iter().enumerate() {
        if is_assigned(columns.as_slice(), assignments) {
            keys.push(key)?;
        }
    }
    Ok(keys)
}

/// Whether a set clause assigns one of the columns.
fn is_assigned(columns: &[usize], assignments: &[BoundAssignment]) -> bool
    ensures { result ≡ is_assigned columns.now assignments.now }
{
    assignments
        .iter()
        .any(|assignment| columns.contains(&assignment.column.position))
}

/// All keys of a table.
pub(crate) fn all_keys(alloc: Global, table: &BaseTable) -> Result<Vec<usize>, AllocError>
    ensures lost { IfOk result (λ keys. LosesAll table.now.keys keys.items) }
{
    (0..table.keys.len()).collect(alloc)
}
