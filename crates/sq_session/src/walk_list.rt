//! Before an UPDATE that may change which rows a walking cursor reaches, the numbers of the rows that are left to
//! the walk are listed, and a cursor over the list takes its place. Its conditions read a column that changes, in a
//! row that is left to it.

ghost use Rattle.std.specs.Prelude.{◌≡◌, ◌&&◌, ◌<◌, length, nat_eq, true, IfOk};
ghost use Rattle.std.specs.Bool.{then_some};
ghost use Rattle.sq_bound.specs.Fits.{AreInDomains, FitsBody, holds};
ghost use Rattle.sq_catalog.specs.Catalog.{column_kinds};
ghost use Rattle.sq_query.specs.Target.{conditions_of};
ghost use Rattle.sq_module.specs.Program.{CursorsFit};
ghost use Rattle.sq_change.specs.Statement.{base_of};
ghost use Rattle.sq_session.specs.Called.{HaveKeptFor};
ghost use Rattle.sq_session.specs.Kind.{over_of};
ghost use Rattle.sq_store.specs.Content.{table_at};
ghost use Rattle.sq_session.specs.Cursors.{AreThere, MayKeep, are_over, go_on, is_left, is_listed, is_over, listed, may_change_left, put_all, reads};
ghost use Rattle.sq_session.specs.Reads.{one_reads};
ghost use Rattle.sq_session.specs.Walk.{AreRowsUnder, IsQuietWith, numbers_meant};

use crate::called::Called;
use crate::cursor::{CursorState, NumbersCursor};
use crate::reads::target_reads;
use crate::walk::{Walk, WalkingCursor, next_chosen};
use sq_bound::{BoundUpdate, ChangeTarget, CursorBody, Target};
use sq_items::Items;
use sq_lex::Name;
use sq_module::DeclaredCursor;
use sq_store::{Meter, Store};
use std::alloc::AllocError;

/// The number of a walking cursor, and the cursor over a list that takes its place.
#[derive(Drop)]
pub(crate) struct ListedCursor {
    pub(crate) number: usize,
    pub(crate) cursor: NumbersCursor,
}

/// The lists of all walking cursors that may come to what an UPDATE changes. The cursor of a positioned one is on
/// the row of this number.
#[tactic(auto, using(crate::proofs::OpenCursors::Over::as_many))]
pub(crate) fn listed_walks<S: Store>(
    called: &Called<'_>,
    statement: &BoundUpdate,
    on: Option<u64>,
    cursors: &[CursorState],
    store: &S,
) -> Result<Vec<ListedCursor>, AllocError>
    requires fit { CursorsFit called.now.catalog.now.bases called.now.cursors.now }
    requires cursors { are_over called.now.cursors.now cursors.now ≡ true }
    requires rows { holds called.now.catalog.now.bases (S.content_now store.now) ≡ true }
    requires kept { HaveKeptFor called.now cursors.now }
    requires domains { AreInDomains called.now.catalog.now.bases (S.content_now store.now) }
    ensures there { IfOk result (λ lists. AreThere (length cursors.now) lists.items) }
    ensures lists { IfOk result (λ lists. put_all cursors.now lists.items
        ≡ go_on statement.now on (S.content_now store.now) called.now.cursors.now cursors.now) }
{
    let mut lists = Vec::new(called.alloc);
    for (number, cursor) in cursors.iter().enumerate() {
        if let CursorState::Walking(walk) = cursor {
            let declared = &called.cursors[number];
            match listed_walk(called, declared, statement, on, store, walk)? {
                Some(list) => lists.push(ListedCursor {
                    number,
                    cursor: list,
                })?,
                None => {}
            }
        }
    }
    Ok(lists)
}

/// A cursor over the numbers of the rows that are left to a walk, if an UPDATE may change which rows these are.
fn listed_walk<S: Store>(
    called: &Called<'_>,
    declared: &DeclaredCursor,
    statement: &BoundUpdate,
    on: Option<u64>,
    store: &S,
    walk: &WalkingCursor,
) -> Result<Option<NumbersCursor>, AllocError>
    requires over { is_over (over_of declared.now.cursor.body) (CursorState.Walking walk.now) ≡ true }
    requires there { walk.now.table < length (S.content_now store.now) }
    requires fit { FitsBody called.now.catalog.now.bases declared.now.cursor.body }
    requires kept { MayKeep (column_kinds called.now.catalog.now) declared.now.cursor walk.now.values }
    requires domains { AreInDomains called.now.catalog.now.bases (S.content_now store.now) }
    ensures { IfOk result (λ list. list ≡ then_some (is_listed statement.now on declared.now walk.now)
        (listed declared.now (S.content_now store.now) walk.now)) }
{
    let query = match &declared.cursor.body {
        CursorBody::Updatable(query) => query,
        CursorBody::Rows(..) => unreachable!(),
    };
    let is_listed = is_read(statement, walk.table, &query.target)
        && may_change_left(&statement.target, on, walk);
    if !is_listed {
        return Ok(None);
    }
    let numbers = rest_of_walk(called, declared.user, &query.target, store, walk)?;
    Ok(Some(NumbersCursor {
        table: walk.table,
        numbers,
        passed: 0,
        on: walk.on,
    }))
}

/// Whether an UPDATE changes the base table that is walked, in a column that the conditions of the target read.
fn is_read(statement: &BoundUpdate, table: usize, target: &Target) -> bool
    ensures { result
        ≡ (nat_eq table (base_of statement.now.target)
        && one_reads statement.now.assignments (conditions_of target.now)) }
{
    table == base_of(&statement.target) && target_reads(target, statement.assignments.as_slice())
}

/// The place of the base table that a statement changes.
fn base_of(target: &ChangeTarget) -> usize
    ensures { result ≡ base_of target.now }
{
    match target {
        ChangeTarget::Searched(target) => target.base,
        ChangeTarget::Positioned(positioned) => positioned.base,
    }
}

/// Whether an UPDATE may change a row that is left to a walk over its base table. A positioned one changes the row
/// that its cursor is on.
fn may_change_left(target: &ChangeTarget, on: Option<u64>, walk: &WalkingCursor) -> bool
    ensures { result ≡ may_change_left target.now on walk.now }
{
    match target {
        ChangeTarget::Searched(_) => true,
        ChangeTarget::Positioned(_) => match on {
            Some(number) => is_left(walk, number),
            None => false,
        },
    }
}

/// Whether a row with this number is left to a walk.
fn is_left(walk: &WalkingCursor, number: u64) -> bool
    ensures { result ≡ is_left walk.now number }
{
    walk.next <= number && number < walk.mark
}

/// The numbers of the rows that are left to a walk of a user's cursor.
fn rest_of_walk<S: Store>(
    called: &Called<'_>,
    user: Name,
    target: &Target,
    store: &S,
    cursor: &WalkingCursor,
) -> Result<Items<u64>, AllocError>
    requires there { cursor.now.table < length (S.content_now store.now) }
    requires quiet { IsQuietWith (column_kinds called.now.catalog.now) target.now cursor.now.values }
    requires rows { AreRowsUnder target.now (table_at (S.content_now store.now) cursor.now.table).rows }
    ensures { IfOk result
        (λ numbers. numbers ≡ numbers_meant (conditions_of target.now) cursor.now.values user cursor.now.next
        cursor.now.mark (table_at (S.content_now store.now) cursor.now.table).rows) }
{
    let walk = Walk {
        alloc: called.alloc,
        catalog: called.catalog,
        user,
        table: cursor.table,
        target,
        values: cursor.values.as_slice(),
    };
    numbers_from(&walk, store, cursor.next, cursor.mark)
}

/// The numbers in `from..mark` of the rows that the target means.
fn numbers_from<S: Store>(
    walk: &Walk<'_>,
    store: &S,
    from: u64,
    mark: u64,
) -> Result<Items<u64>, AllocError>
    requires there { walk.now.table < length (S.content_now store.now) }
    requires quiet { IsQuietWith (column_kinds walk.now.catalog.now) walk.now.target.now walk.now.values.now }
    requires rows { AreRowsUnder walk.now.target.now
        (table_at (S.content_now store.now) walk.now.table).rows }
    ensures { IfOk result
        (λ numbers. numbers
        ≡ numbers_meant (conditions_of walk.now.target.now) walk.now.values.now walk.now.user from
        mark (table_at (S.content_now store.now) walk.now.table).rows) }
{
    let mut numbers = Items::new(walk.alloc);
    let mut meter = Meter::new();
    let mut number = from;
    while let Some((found, _)) = next_chosen(walk, store, number, mark, &mut meter)? {
        numbers.push(found)?;
        number = found + 1;
    }
    Ok(numbers)
}
