//! A change of a base table, if check options and constraints allow it.

ghost use Rattle.std.specs.Prelude.{◌≡◌, ◌<◌, ◌≤◌, ◌+◌, ◌-◌, true, length, List, IfErr, IfOk, MatchResult, OnErr, OnOk, Some};
ghost use Rattle.std.specs.List.{list_all};
ghost use Rattle.sq_value.specs.declared.domain.Kind.{Kind};
ghost use Rattle.sq_value.specs.declared.value.Value.{Value as AnyValue};
ghost use Rattle.sq_store.specs.Change.{insert_count, rows_put};
ghost use Rattle.sq_store.specs.Content.{changed_by, table_at, with_table};
ghost use Rattle.sq_store.specs.Keys.{has_distinct_keys, has_keys, keys_at};
ghost use Rattle.sq_meaning.specs.Constraints.{demanded};
ghost use Rattle.sq_meaning.specs.declared.status.Status.TheVariants.{IntegrityConstraintViolation};
ghost use Rattle.sq_expression.specs.Fault.{Meets, MeetsAs};
ghost use Rattle.sq_meaning.specs.Status.{Outcome};
ghost use Rattle.sq_bound.specs.Fits.{has_its_values, holds, keys_of_bases};
ghost use Rattle.sq_bound.specs.declared.condition.TablePlace.{TablePlace};
ghost use Rattle.sq_query.specs.MayRead.{MayEnd, MayRead};
ghost use Rattle.sq_change.specs.Changed.{AreRowsPut, CanBeMade, are_wide};
ghost use Rattle.sq_change.specs.Constraints.{completed, rows_met};
ghost use Rattle.sq_change.specs.Made.{Shown, seen_by};
ghost use Rattle.sq_change.specs.Lost.{DecidesReferences};
ghost use Rattle.sq_change.specs.Statement.{IsConsistent, IsLeafOver};

use crate::constraint::{check_options_met, rows_satisfied};
use crate::reference::{Asked, asked_by, references_satisfied};
use crate::setting::Setting;
use sq_bound::{Leaf, Names};
use sq_expression::{Failure, Fault};
use sq_lex::Name;
use sq_store::{ApplyFault, Change, Store};
use sq_value::Value;
use std::alloc::Global;

/// The changes of a statement.
#[derive(Drop)]
pub struct Changed {
    pub changes: Vec<Change>,
    /// The keys in which rows may lose their values.
    pub lost_keys: Vec<usize>,
}

/// Makes the changes of a base table. In this order: check options, constraints on one row, keys, references.
pub(crate) fn complete<N: Names, S: Store>(
    alloc: Global,
    names: &N,
    leaf: &Leaf,
    changed: Changed,
    store: &mut S,
    user: Name,
    parameters: &[Value],
) -> Result<(), Fault>
    requires kept { IsConsistent (N.base_tables names.now) (S.content_now store.old)
        (S.key_columns store.old) }
    requires leaf { IsLeafOver (N.base_tables names.now) (N.column_kinds names.now) leaf.now }
    requires changes { CanBeMade leaf.now.table
        (table_at (S.content_now store.old) leaf.now.table.place) (S.row_numbers store.old) changed }
    ensures meant { let seen = seen_by (N.view_queries names.now)
        (S.content_now store.old) user parameters.now in
        (kinds : List Kind) (shown : Shown)
        → MayRead (N.base_tables names.now) (N.view_queries names.now) (N.column_kinds names.now)
        (S.content_now store.old) user parameters.now kinds shown
        → MeetsAs (λ done. S.content_now store.new) result
        (completed shown seen (N.base_tables names.now) leaf.now (rows_put changed.changes.items)
        (changed_by (table_at (S.content_now store.old) leaf.now.table.place) changed.changes.items)) }
    ensures kept { IsConsistent (N.base_tables names.now) (S.content_now store.new)
        (S.key_columns store.new) }
    ensures made { MatchResult result
        (λ done. S.content_now store.new ≡ with_table (S.content_now store.old) leaf.now.table.place
        (changed_by (table_at (S.content_now store.old) leaf.now.table.place) changed.changes.items))
        (λ fault. S.content_now store.new ≡ S.content_now store.old) }
    ensures rest { (S.committed store.new ≡ S.committed store.old)
        × (S.key_columns store.new ≡ S.key_columns store.old)
        × (S.row_numbers store.new ≡ S.row_numbers store.old) }
    ensures right { (kinds : List Kind) (tables : TablePlace → Outcome (List (List AnyValue)))
        → MayRead (N.base_tables names.now) (N.view_queries names.now) (N.column_kinds names.now)
        (S.content_now store.old) user parameters.now kinds tables
        → IfErr result MayEnd }
{
    let table = leaf.table.get();
    let setting = Setting::new(alloc, names, &*store, user, parameters);
    let asked = match rows_admitted(&setting, leaf, &changed) {
        Ok(asked) => asked,
        Err(fault) => {
            drop(changed);
            return Err(fault);
        }
    };
    let Changed {
        changes,
        lost_keys,
        ..
    } = changed;
    drop(lost_keys);
    apply(alloc, store, table.place, changes)?;
    let satisfied = references_satisfied(names, store, table.place, &asked);
    if satisfied.is_err() {
        store.take_back();
    }
    satisfied
}

/// Tests the rows that are put in a table against check options and constraints on one row. It answers what references
/// have to be asked afterwards.
fn rows_admitted<N: Names, S: Store>(
    setting: &Setting<'_, N, S>,
    leaf: &Leaf,
    changed: &Changed,
) -> Result<Asked, Fault>
    requires tables { holds (N.base_tables setting.now.names.now) (S.content_now setting.now.store.now)
        ≡ true }
    requires keys { S.key_columns setting.now.store.now
        ≡ keys_of_bases (N.base_tables setting.now.names.now) }
    requires leaf { IsLeafOver (N.base_tables setting.now.names.now) (N.column_kinds setting.now.names.now)
        leaf.now }
    requires wide { are_wide (length leaf.now.table.columns) (rows_put changed.now.changes.items) ≡ true }
    ensures decides { IfOk result (DecidesReferences (N.base_tables setting.now.names.now)
        (S.key_columns setting.now.store.now) leaf.now.table
        (table_at (S.content_now setting.now.store.now) leaf.now.table.place) changed.now.changes.items
        changed.now.lost_keys.items) }
    ensures values { IfOk result
        (λ asked. list_all (has_its_values leaf.now.table) (rows_put changed.now.changes.items) ≡ true) }
    ensures met { let seen = seen_by (N.view_queries setting.now.names.now)
        (S.content_now setting.now.store.now) setting.now.user
        setting.now.parameters.now in (parameters : List Kind) (shown : Shown)
        → MayRead (N.base_tables setting.now.names.now) (N.view_queries setting.now.names.now)
        (N.column_kinds setting.now.names.now)
        (S.content_now setting.now.store.now) setting.now.user setting.now.parameters.now parameters shown
        → AreRowsPut leaf.now.table.columns changed.now.changes.items
        → MeetsAs (λ asked. tt) result
        (rows_met shown seen leaf.now (rows_put changed.now.changes.items)) }
    ensures right { (parameters : List Kind) (tables : TablePlace → Outcome (List (List AnyValue)))
        → MayRead (N.base_tables setting.now.names.now) (N.view_queries setting.now.names.now)
        (N.column_kinds setting.now.names.now)
        (S.content_now setting.now.store.now) setting.now.user setting.now.parameters.now parameters tables
        → AreRowsPut leaf.now.table.columns changed.now.changes.items → IfErr result MayEnd }
{
    let changes = changed.changes.as_slice();
    let table = leaf.table.get();
    check_options_met(setting, leaf, changes)?;
    rows_satisfied(setting, table, changes)?;
    asked_by(setting, table, changes, changed.lost_keys.as_slice())
}

/// Makes changes in the store, if no two rows have the same key afterwards.
fn apply<S: Store>(
    alloc: Global,
    store: &mut S,
    place: usize,
    changes: Vec<Change>,
) -> Result<(), Fault>
    requires known { place < length (S.content_now store.old) }
    requires columns { list_all (has_keys (keys_at (S.key_columns store.old) place))
        (rows_put changes.items) ≡ true }
    requires fits { insert_count changes.items ≤ S.row_numbers store.old + 1 -
        (table_at (S.content_now store.old) place).next }
    ensures ok { OnOk result ((S.content_now store.new ≡ with_table (S.content_now store.old) place
        (changed_by (table_at (S.content_now store.old) place) changes.items))
        × (S.before store.new ≡ Some (S.content_now store.old))) }
    ensures distinct { Meets result (demanded (has_distinct_keys (keys_at (S.key_columns store.old) place)
        (changed_by (table_at (S.content_now store.old) place) changes.items)) IntegrityConstraintViolation) }
    ensures err { OnErr result (S.content_now store.new ≡ S.content_now store.old) }
    ensures rest { (S.committed store.new ≡ S.committed store.old)
        × (S.key_columns store.new ≡ S.key_columns store.old)
        × (S.row_numbers store.new ≡ S.row_numbers store.old) }
    ensures right { IfErr result MayEnd }
{
    match store.apply(alloc, place, changes) {
        Ok(()) => Ok(()),
        Err(ApplyFault::Duplicate) => Err(Fault::Status(Failure::IntegrityConstraintViolation)),
        Err(ApplyFault::NoMemory) => Err(Fault::NoMemory),
    }
}
