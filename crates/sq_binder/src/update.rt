//! UPDATE (ISO/IEC 9075:1992, 13.9 and 13.10).

ghost use Rattle.std.specs.Prelude.{◌≡◌, List, IfOk};
ghost use Rattle.sq_bound.specs.declared.names.BaseTable.{BaseTable as AnyBase};
ghost use Rattle.sq_bound.specs.declared.statement.BoundStatement.TheVariants as bound;
ghost use Rattle.sq_binding.specs.Change.{update_parts};
ghost use Rattle.sq_binder.specs.Found.{Finds};
ghost use Rattle.sq_binder.specs.Surroundings.{surroundings};
ghost use Rattle.sq_binder.specs.Changeable.{changed_of};
ghost use Rattle.sq_binder.specs.Names.{AreOverBases, names_at};
ghost use Rattle.sq_binding.specs.SeenQuery.{update_seen};
ghost use Rattle.sq_binding.specs.There.{StatementIsThere};
ghost use Rattle.sq_binder.specs.Update.{IsUpdateOver, update_in, update_over, updated};

use crate::assignment::bind_assignments;
use crate::cursors::Cursors;
use crate::needed::require_select_if_read;
use crate::rows::bind_rows;
use crate::{
    ChangeableTables, ChangedTable, Counts, Found, Privilege, Stop, Surroundings, changed_table,
    pair_parts,
};
use sq_bound::{BoundAssignment, BoundUpdate, ChangeTarget};
use sq_items::Items;
use sq_tree::Update;

pub type UpdateResult = Result<Found<BoundUpdate>, Stop>;

/// Binds an UPDATE (ISO/IEC 9075:1992, 13.9 and 13.10) to its set clauses and the rows that it
/// changes.
///
/// It answers the fault of the table's name, or else the first one of the set clauses, or else of
/// the rows. A privilege that is missing is a finding and not yet a fault. If the tables that may
/// be changed are over given base tables, so is the bound statement.
pub fn bind_update<T: ChangeableTables, C: Cursors>(
    update: &Update,
    at: &Surroundings<'_, T>,
    cursors: &C,
    before: Counts,
) -> UpdateResult
    ensures finds { Finds update_seen (update_in (names_at T.named T.changes at.now)
        (surroundings T.named at.now) (C.named cursors.now) update.now) before result }
    ensures there { (bases : List AnyBase) → AreOverBases bases (T.changes at.now.tables.now)
        → IfOk result (λ found. StatementIsThere bases (bound.Update found.part)) }
{
    match changed_table(at.tables, at.environment.user, update.table) {
        Ok(table) => update_of_table(update, &table, at, cursors, before),
        Err(stop) => Err(stop),
    }
}

fn update_of_table<T: ChangeableTables, C: Cursors>(
    update: &Update,
    table: &ChangedTable<'_>,
    at: &Surroundings<'_, T>,
    cursors: &C,
    before: Counts,
) -> UpdateResult
    ensures finds { Finds update_seen (update_over (names_at T.named T.changes at.now)
        (surroundings T.named at.now) (C.named cursors.now) update.now (changed_of table.now)) before result }
    ensures over { IfOk result (λ found. IsUpdateOver table.now.under.leaf.now found.part) }
{
    let Found { part, brought } = bind_parts(update, table, at, cursors, before)?;
    let may_select = at.tables.holds(table.user, table.name, Privilege::Select);
    Ok(Found {
        part,
        brought: require_select_if_read(brought, may_select),
    })
}

/// The set clauses, and the rows.
fn bind_parts<T: ChangeableTables, C: Cursors>(
    update: &Update,
    table: &ChangedTable<'_>,
    at: &Surroundings<'_, T>,
    cursors: &C,
    before: Counts,
) -> UpdateResult
    ensures finds { Finds update_seen (update_parts (names_at T.named T.changes at.now)
        (surroundings T.named at.now) (C.named cursors.now) (changed_of table.now) update.now) before result }
    ensures over { IfOk result (λ found. IsUpdateOver table.now.under.leaf.now found.part) }
{
    let assignments = bind_assignments(&update.assignments, table, &*at, before)?;
    let next = assignments.brought.next;
    let rows = bind_rows(&update.target, table, at, cursors, next);
    make_update(pair_parts(assignments, rows))
}

fn make_update(parts: Result<Found<(Items<BoundAssignment>, ChangeTarget)>, Stop>) -> UpdateResult
    ensures { result ≡ updated parts }
{
    let Found { part, brought } = parts?;
    let (assignments, target) = part;
    Ok(Found {
        part: BoundUpdate {
            target,
            assignments,
        },
        brought,
    })
}
