//! DELETE (ISO/IEC 9075:1992, 13.6 and 13.7).

ghost use Rattle.std.specs.Prelude.{◌≡◌, List, IfOk};
ghost use Rattle.sq_bound.specs.Fits.{under};
ghost use Rattle.sq_bound.specs.declared.names.BaseTable.{BaseTable as AnyBase};
ghost use Rattle.sq_bound.specs.declared.statement.BoundStatement.TheVariants as bound;
ghost use Rattle.sq_binder.specs.Found.{Finds};
ghost use Rattle.sq_binder.specs.Surroundings.{surroundings};
ghost use Rattle.sq_binder.specs.Changeable.{changed_of};
ghost use Rattle.sq_binder.specs.Names.{AreOverBases, names_at};
ghost use Rattle.sq_binding.specs.SeenQuery.{change_seen};
ghost use Rattle.sq_binding.specs.There.{StatementIsThere};
ghost use Rattle.sq_binder.specs.Delete.{delete_in, delete_over};

use crate::cursors::Cursors;
use crate::needed::{require_privilege, require_select_if_read};
use crate::rows::{RowsResult, bind_rows};
use crate::{
    ChangeableTables, ChangedTable, Counts, Found, Privilege, Surroundings, changed_table,
};
use sq_tree::Delete;

/// Binds a DELETE (ISO/IEC 9075:1992, 13.6 and 13.7) to the rows that it deletes.
///
/// It answers the fault of the table's name, or else the first one in the WHERE clause or its
/// cursor. A privilege that is missing is a finding and not yet a fault. If the tables that may be
/// changed are over given base tables, so is the bound statement.
pub fn bind_delete<T: ChangeableTables, C: Cursors>(
    delete: &Delete,
    at: &Surroundings<'_, T>,
    cursors: &C,
    before: Counts,
) -> RowsResult
    ensures finds { Finds change_seen (delete_in (names_at T.named T.changes at.now)
        (surroundings T.named at.now) (C.named cursors.now) delete.now) before result }
    ensures there { (bases : List AnyBase) → AreOverBases bases (T.changes at.now.tables.now)
        → IfOk result (λ found. StatementIsThere bases (bound.Delete found.part)) }
{
    match changed_table(at.tables, at.environment.user, delete.table) {
        Ok(table) => delete_from(delete, &table, at, cursors, before),
        Err(stop) => Err(stop),
    }
}

fn delete_from<T: ChangeableTables, C: Cursors>(
    delete: &Delete,
    table: &ChangedTable<'_>,
    at: &Surroundings<'_, T>,
    cursors: &C,
    before: Counts,
) -> RowsResult
    ensures finds { Finds change_seen (delete_over (names_at T.named T.changes at.now)
        (surroundings T.named at.now) (C.named cursors.now) delete.now (changed_of table.now)) before result }
    ensures leaf { IfOk result (λ found. under found.part ≡ table.now.under.leaf.now) }
{
    let Found { part, brought } = bind_rows(&delete.target, table, at, cursors, before)?;
    let may_select = at.tables.holds(table.user, table.name, Privilege::Select);
    let may_delete = at.tables.holds(table.user, table.name, Privilege::Delete);
    Ok(Found {
        part,
        brought: require_privilege(require_select_if_read(brought, may_select), may_delete),
    })
}
