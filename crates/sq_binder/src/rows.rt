//! The rows that UPDATE and DELETE change (ISO/IEC 9075:1992, 13.6, 13.7, 13.9 and 13.10).

ghost use Rattle.std.specs.Prelude.{◌≡◌, IfOk, Some};
ghost use Rattle.sq_bound.specs.Fits.{under};
ghost use Rattle.sq_binding.specs.Change.{positioned_bound, rows_bound};
ghost use Rattle.sq_binder.specs.Found.{Finds};
ghost use Rattle.sq_binder.specs.Surroundings.{surroundings};
ghost use Rattle.sq_binder.specs.Changeable.{changed_of, table_name};
ghost use Rattle.sq_binder.specs.Names.{names_at};
ghost use Rattle.sq_binding.specs.SeenQuery.{change_seen};
ghost use Rattle.sq_binder.specs.Cursors.{named_cursor_of};
ghost use Rattle.sq_binder.specs.Rows.{is_over, searched};

use crate::cursors::{Cursors, cursor_named};
use crate::{
    ChangeableTables, ChangedTable, Counts, Found, Stop, Surroundings, bind_target, bring_nothing,
};
use sq_bound::{ChangeTarget, KnownCursor, PositionedTarget, Target};
use sq_lex::Name;
use sq_meaning::BindingFault;
use sq_tree::Where;
use std::alloc::Global;

pub type RowsResult = Result<Found<ChangeTarget>, Stop>;

/// The rows that an UPDATE or DELETE changes (ISO/IEC 9075:1992, 13.6, 13.7, 13.9 and 13.10).
/// They are the row that a cursor is on, the rows that meet a condition, or all rows of the
/// table.
///
/// It answers the first fault of the condition. For a cursor it answers `UnknownCursor` if
/// the name means none, and `NotUpdatable` if it is not updatable or is over another table.
pub fn bind_rows<T: ChangeableTables, C: Cursors>(
    target: &Option<Where>,
    table: &ChangedTable<'_>,
    at: &Surroundings<'_, T>,
    cursors: &C,
    before: Counts,
) -> RowsResult
    ensures finds { Finds change_seen (rows_bound (names_at T.named T.changes at.now)
        (surroundings T.named at.now) (C.named cursors.now) (changed_of table.now) target.now) before result }
    ensures leaf { IfOk result (λ found. under found.part ≡ table.now.under.leaf.now) }
{
    match target {
        Some(target) => rows_where(target, table, at, cursors, before),
        None => make_searched(bind_target(None, table, at, before)),
    }
}

fn rows_where<T: ChangeableTables, C: Cursors>(
    target: &Where,
    table: &ChangedTable<'_>,
    at: &Surroundings<'_, T>,
    cursors: &C,
    before: Counts,
) -> RowsResult
    ensures finds { Finds change_seen (rows_bound (names_at T.named T.changes at.now)
        (surroundings T.named at.now) (C.named cursors.now) (changed_of table.now) (Some target.now))
        before result }
    ensures leaf { IfOk result (λ found. under found.part ≡ table.now.under.leaf.now) }
{
    match target {
        Where::CurrentOf(name) => bind_positioned(
            at.environment.alloc,
            *name,
            table,
            cursors,
            before,
        ),
        Where::Condition(cond) => make_searched(bind_target(Some(cond), table, at, before)),
    }
}

fn make_searched(target: Result<Found<Target>, Stop>) -> RowsResult
    ensures { result ≡ searched target }
{
    let Found { part, brought } = target?;
    Ok(Found {
        part: ChangeTarget::Searched(part),
        brought,
    })
}

/// The row of an updatable cursor over the very table that is named.
fn bind_positioned<C: Cursors>(
    alloc: Global,
    name: Name,
    table: &ChangedTable<'_>,
    cursors: &C,
    before: Counts,
) -> RowsResult
    ensures finds { Finds change_seen
        (positioned_bound (C.named cursors.now) (changed_of table.now) name) before result }
    ensures leaf { IfOk result (λ found. under found.part ≡ table.now.under.leaf.now) }
{
    let known = cursor_named(cursors, name)?;
    if !is_over(known, table) {
        return Err(Stop::about(BindingFault::NotUpdatable, name));
    }
    let leaf = table.under.leaf.share()?;
    let positioned = PositionedTarget {
        cursor: known.number,
        base: table.base(),
        leaf,
    };
    Ok(bring_nothing(alloc, ChangeTarget::Positioned(positioned), before))
}

/// Whether a cursor is updatable and over this table.
fn is_over(known: KnownCursor<'_>, table: &ChangedTable<'_>) -> bool
    ensures { result ≡ is_over (table_name table.now) (named_cursor_of known.entry) }
{
    match known.cursor.table {
        Some((user, name)) => table.user == user && table.name == name,
        None => false,
    }
}
