//! The three statements that change a table.

ghost use Rattle.std.specs.Prelude.{◌≡◌, ◌⊎◌, ◌<◌, ◌≤◌, ◌+◌, true, vec_len, Err, IfErr, IfOk, Ok, OnErr};
ghost use Rattle.sq_store.specs.Change.{rows_put};
ghost use Rattle.sq_store.specs.Content.{table_at};
ghost use Rattle.sq_bound.specs.Fits.{under};
ghost use Rattle.sq_expression.specs.Fault.{MeetsAs};
ghost use Rattle.sq_query.specs.Keyed.{IsKeyedChange};
ghost use Rattle.sq_query.specs.MayRead.{MayEnd};
ghost use Rattle.sq_change.specs.Changed.{CanBeMade, Removals, Replacements, are_insertions, changed_in};
ghost use Rattle.sq_change.specs.Made.{Fails, Shown, numbers_changed, rows_inserted, seen_by};
ghost use Rattle.sq_change.specs.Performed.{delete_outcome, insert_outcome, update_outcome};
ghost use Rattle.sq_change.specs.Statement.{CanChoose, CanInsert, CanUpdate, IsConsistent, IsShown, KeepsTables, update_made};

use crate::complete::{Changed, complete};
use crate::given::new_rows;
use crate::setting::Setting;
use crate::target::{
    all_keys, few_changed, keys_assigned, leaf_under, numbers_changed, remove_rows, replace_rows,
};
use sq_bound::{BoundInsert, BoundUpdate, ChangeTarget, Names};
use sq_expression::{Failure, Fault};
use sq_query::Inputs;
use sq_store::{Change, Meter, Store};
use std::alloc::{AllocError, Global};

/// Performs an insert statement (ISO/IEC 9075:1992, 13.8). All new rows are made before any is tested. Faults come in
/// this order:
/// - the query's;
/// - 02000 if it has no row;
/// - the faults of values and of storing them, row by row;
/// - S1L00 if there are too few row numbers;
/// - check options;
/// - NOT NULL and CHECK, row by row;
/// - keys;
/// - references.
///
/// A well-formed statement never ends with 42000.
pub fn insert<N: Names, S: Store>(
    alloc: Global,
    names: &N,
    insert: &BoundInsert,
    store: &mut S,
    inputs: Inputs<'_>,
    meter: &mut Meter,
) -> Result<(), Fault>
    requires kept { IsConsistent (N.base_tables names.now) (S.content_now store.old)
        (S.key_columns store.old) }
    requires can { CanInsert (N.base_tables names.now) (N.view_queries names.now) (N.column_kinds names.now)
        (S.content_now store.old) inputs.user inputs.parameters.now insert.now }
    ensures meant { let seen = seen_by (N.view_queries names.now)
        (S.content_now store.old) inputs.entry.user inputs.entry.parameters.now in
        (shown : Shown) → IsShown seen shown → MeetsAs (λ done. S.content_now store.new) result
        (insert_outcome shown seen (N.base_tables names.now) (S.row_numbers store.old) insert.now) }
    ensures kept { IsConsistent (N.base_tables names.now) (S.content_now store.new)
        (S.key_columns store.new) }
    ensures err { OnErr result (S.content_now store.new ≡ S.content_now store.old) }
    ensures rest { (S.committed store.new ≡ S.committed store.old)
        × (S.key_columns store.new ≡ S.key_columns store.old)
        × (S.row_numbers store.new ≡ S.row_numbers store.old) }
    ensures right { IfErr result MayEnd }
{
    let Inputs { user, parameters } = inputs;
    let setting = Setting::new(alloc, names, &*store, user, parameters);
    let changed = find_inserted(&setting, insert, meter)?;
    let leaf = insert.leaf.get();
    complete(alloc, names, leaf, changed, store, user, parameters)
}

/// The new rows of an insert statement, which need as many row numbers (own rule).
#[tactic(auto, using(crate::proofs::Changes::Applied::fewer_inserted))]
pub fn find_inserted<N: Names, S: Store>(
    setting: &Setting<'_, N, S>,
    insert: &BoundInsert,
    meter: &mut Meter,
) -> Result<Changed, Fault>
    requires can { CanInsert (N.base_tables setting.now.names.now) (N.view_queries setting.now.names.now)
        (N.column_kinds setting.now.names.now) (S.content_now setting.now.store.now) setting.now.user
        setting.now.parameters.now insert.now }
    requires kept { KeepsTables (N.base_tables setting.now.names.now) (S.content_now setting.now.store.now)
        (S.key_columns setting.now.store.now) }
    ensures made { let seen = seen_by (N.view_queries setting.now.names.now)
        (S.content_now setting.now.store.now) setting.now.user
        setting.now.parameters.now in (shown : Shown) → IsShown seen shown
        → MeetsAs (λ changed. rows_put changed.changes.items) result
        (rows_inserted shown seen (S.row_numbers setting.now.store.now) insert.now) }
    ensures changes { IfOk result (CanBeMade insert.now.leaf.table
        (table_at (S.content_now setting.now.store.now) insert.now.leaf.table.place)
        (S.row_numbers setting.now.store.now)) }
    ensures insertions { IfOk result (λ changed. are_insertions changed.changes.items ≡ true) }
    ensures some { IfOk result (λ changed. 0 < vec_len changed.changes) }
    ensures right { IfErr result MayEnd }
{
    let table = insert.leaf.get().table.get();
    let changes = new_rows(setting, insert, table, meter)?;
    if changes.len() as u64 > setting.store.numbers_left(table.place) {
        drop(changes);
        return Err(Fault::Status(Failure::NoRowNumberLeft));
    }
    Ok(Changed {
        changes,
        lost_keys: Vec::new(setting.alloc),
    })
}

/// Performs an update statement (13.9, 13.10). `on` is the number of the row that the cursor is on, for a positioned
/// one. The store keeps the tables of the names and their keys. The statement is over one of these tables, and its set
/// clauses are well formed and for columns of it. All rows are changed before any is tested. Faults come in this order:
/// - the search condition's;
/// - 02000 if it keeps no row;
/// - the faults of values and of storing them, row by row;
/// - check options;
/// - NOT NULL and CHECK, row by row;
/// - keys;
/// - references, to and from the rows.
///
/// A well-formed statement never ends with 42000.
pub fn update<N: Names, S: Store>(
    alloc: Global,
    names: &N,
    update: &BoundUpdate,
    on: Option<u64>,
    store: &mut S,
    inputs: Inputs<'_>,
    meter: &mut Meter,
) -> Result<(), Fault>
    requires kept { IsConsistent (N.base_tables names.now) (S.content_now store.old)
        (S.key_columns store.old) }
    requires can { CanUpdate (N.base_tables names.now) (N.view_queries names.now) (N.column_kinds names.now)
        (S.content_now store.old) inputs.user inputs.parameters.now update.now on }
    ensures meant { let seen = seen_by (N.view_queries names.now)
        (S.content_now store.old) inputs.entry.user inputs.entry.parameters.now in
        (shown : Shown) → IsShown seen shown
        → MeetsAs (λ done. S.content_now store.new) result
        (update_outcome shown seen (N.base_tables names.now) update.now on) }
    ensures kept { IsConsistent (N.base_tables names.now) (S.content_now store.new)
        (S.key_columns store.new) }
    ensures err { OnErr result (S.content_now store.new ≡ S.content_now store.old) }
    ensures rest { (S.committed store.new ≡ S.committed store.old)
        × (S.key_columns store.new ≡ S.key_columns store.old)
        × (S.row_numbers store.new ≡ S.row_numbers store.old) }
    ensures right { IfErr result MayEnd }
    ensures read { IsKeyedChange update.now.target inputs.entry.parameters.now inputs.entry.user
        → meter.new ≤ meter.old + 1 }
{
    let Inputs { user, parameters } = inputs;
    let setting = Setting::new(alloc, names, &*store, user, parameters);
    let changed = find_updated(&setting, update, on, meter)?;
    let leaf = leaf_under(&update.target);
    complete(alloc, names, leaf, changed, store, user, parameters)
}

/// The changed rows of an update statement.
pub fn find_updated<N: Names, S: Store>(
    setting: &Setting<'_, N, S>,
    update: &BoundUpdate,
    on: Option<u64>,
    meter: &mut Meter,
) -> Result<Changed, Fault>
    requires can { CanUpdate (N.base_tables setting.now.names.now) (N.view_queries setting.now.names.now)
        (N.column_kinds setting.now.names.now) (S.content_now setting.now.store.now) setting.now.user
        setting.now.parameters.now update.now on }
    requires kept { KeepsTables (N.base_tables setting.now.names.now) (S.content_now setting.now.store.now)
        (S.key_columns setting.now.store.now) }
    ensures changes { IfOk result (CanBeMade (under update.now.target).table
        (table_at (S.content_now setting.now.store.now) (under update.now.target).table.place)
        (S.row_numbers setting.now.store.now)) }
    ensures replacements { let seen = seen_by (N.view_queries setting.now.names.now)
        (S.content_now setting.now.store.now) setting.now.user
        setting.now.parameters.now in IfOk result
        (λ changed. Replacements seen update.now on changed.changes.items) }
    ensures meant { let seen = seen_by (N.view_queries setting.now.names.now)
        (S.content_now setting.now.store.now) setting.now.user
        setting.now.parameters.now in (shown : Shown) → IsShown seen shown
        → MeetsAs changed_in result (update_made shown seen update.now on) }
    ensures right { IfErr result MayEnd }
    ensures read { IsKeyedChange update.now.target setting.now.parameters.now setting.now.user
        → meter.new ≤ meter.old + 1 }
{
    let table = leaf_under(&update.target).table.get();
    let assignments = update.assignments.as_slice();
    let rows = few_changed(setting, &update.target, on, meter)?;
    let changes = replace_rows(setting, table, assignments, rows.as_slice());
    drop(rows);
    make_changed(changes, keys_assigned(setting.alloc, table, assignments))
}

/// Changes, and the keys whose values rows may lose by them.
fn make_changed(
    changes: Result<Vec<Change>, Fault>,
    lost_keys: Result<Vec<usize>, AllocError>,
) -> Result<Changed, Fault>
    ensures changes { IfOk result (λ changed. changes ≡ Ok changed.changes) }
    ensures lost { IfOk result (λ changed. lost_keys ≡ Ok changed.lost_keys) }
    ensures fails { IfErr result (λ f. (f ≡ Fault.NoMemory) ⊎ (changes ≡ Err f)) }
    ensures right { IfErr changes MayEnd → IfErr result MayEnd }
{
    match (changes, lost_keys) {
        (Ok(changes), Ok(lost_keys)) => Ok(Changed { changes, lost_keys }),
        (Ok(changes), Err(AllocError)) => {
            drop(changes);
            Err(Fault::NoMemory)
        }
        (Err(fault), lost_keys) => {
            drop(lost_keys);
            Err(fault)
        }
    }
}

/// Performs a delete statement (13.6, 13.7). `on` is the number of the row that the cursor is on, for a positioned one.
/// The store keeps the tables of the names and their keys, and the statement is over one of these tables. Faults come
/// in this order: the search condition's; 02000 if it keeps no row; references to the rows. A well-formed one never
/// ends with 42000.
pub fn delete<N: Names, S: Store>(
    alloc: Global,
    names: &N,
    target: &ChangeTarget,
    on: Option<u64>,
    store: &mut S,
    inputs: Inputs<'_>,
    meter: &mut Meter,
) -> Result<(), Fault>
    requires kept { IsConsistent (N.base_tables names.now) (S.content_now store.old)
        (S.key_columns store.old) }
    requires can { CanChoose (N.base_tables names.now) (N.view_queries names.now) (N.column_kinds names.now)
        (S.content_now store.old) inputs.user inputs.parameters.now target.now on }
    ensures meant { let seen = seen_by (N.view_queries names.now)
        (S.content_now store.old) inputs.entry.user inputs.entry.parameters.now in
        (shown : Shown) → IsShown seen shown
        → MeetsAs (λ done. S.content_now store.new) result
        (delete_outcome shown seen (N.base_tables names.now) target.now on) }
    ensures kept { IsConsistent (N.base_tables names.now) (S.content_now store.new)
        (S.key_columns store.new) }
    ensures err { OnErr result (S.content_now store.new ≡ S.content_now store.old) }
    ensures rest { (S.committed store.new ≡ S.committed store.old)
        × (S.key_columns store.new ≡ S.key_columns store.old)
        × (S.row_numbers store.new ≡ S.row_numbers store.old) }
    ensures right { IfErr result MayEnd }
    ensures read { IsKeyedChange target.now inputs.entry.parameters.now inputs.entry.user
        → meter.new ≤ meter.old + 1 }
{
    let Inputs { user, parameters } = inputs;
    let setting = Setting::new(alloc, names, &*store, user, parameters);
    let changed = find_deleted(&setting, target, on, meter)?;
    let leaf = leaf_under(target);
    complete(alloc, names, leaf, changed, store, user, parameters)
}

/// The removed rows of a delete statement.
pub fn find_deleted<N: Names, S: Store>(
    setting: &Setting<'_, N, S>,
    target: &ChangeTarget,
    on: Option<u64>,
    meter: &mut Meter,
) -> Result<Changed, Fault>
    requires can { CanChoose (N.base_tables setting.now.names.now) (N.view_queries setting.now.names.now)
        (N.column_kinds setting.now.names.now) (S.content_now setting.now.store.now) setting.now.user
        setting.now.parameters.now target.now on }
    requires kept { KeepsTables (N.base_tables setting.now.names.now) (S.content_now setting.now.store.now)
        (S.key_columns setting.now.store.now) }
    ensures changes { IfOk result (CanBeMade (under target.now).table
        (table_at (S.content_now setting.now.store.now) (under target.now).table.place)
        (S.row_numbers setting.now.store.now)) }
    ensures removals { let seen = seen_by (N.view_queries setting.now.names.now)
        (S.content_now setting.now.store.now) setting.now.user
        setting.now.parameters.now in IfOk result
        (λ changed. Removals seen target.now on changed.changes.items) }
    ensures meant { let seen = seen_by (N.view_queries setting.now.names.now)
        (S.content_now setting.now.store.now) setting.now.user
        setting.now.parameters.now in (shown : Shown) → IsShown seen shown
        → IfErr result (λ f. Fails f (numbers_changed shown seen target.now on)) }
    ensures right { IfErr result MayEnd }
    ensures read { IsKeyedChange target.now setting.now.parameters.now setting.now.user
        → meter.new ≤ meter.old + 1 }
{
    let numbers = numbers_changed(setting, target, on, meter)?;
    let changes = remove_rows(setting.alloc, numbers.as_slice());
    drop(numbers);
    let table = leaf_under(target).table.get();
    make_changed(changes, all_keys(setting.alloc, table))
}
