//! Updatable cursors whose conditions answer no status: they read their rows as late as they fetch them.
//!
//! Such a cursor yields the same rows as a list of row numbers made at OPEN would, as long as no UPDATE changes what its
//! conditions read in a row that it has still to come to; `walk_list.rt` lists the rows that are left before such an
//! UPDATE.

ghost use Rattle.std.specs.Prelude.{◌≡◌, ◌≤◌, ◌<◌, ◌+◌, ◌-◌, ℕ, length, IfOk, IfSome, IsSome};
ghost use Rattle.sq_bound.specs.Fits.{IsBase};
ghost use Rattle.sq_bound.specs.WellFormed.{base_kinds};
ghost use Rattle.sq_catalog.specs.Catalog.{column_kinds};
ghost use Rattle.sq_change.specs.Statement.{KeepsTables};
ghost use Rattle.sq_meaning.specs.WellFormed.{IsRowOf};
ghost use Rattle.sq_query.specs.Keyed.{IsKeyedUnder};
ghost use Rattle.sq_query.specs.Meant.{IsKeyUnder};
ghost use Rattle.sq_query.specs.Target.{conditions_of};
ghost use Rattle.sq_store.specs.Content.{table_at};
ghost use Rattle.sq_store.specs.Keys.{keys_at};
ghost use Rattle.sq_session.specs.Fetch.{IsFirstMeant};
ghost use Rattle.sq_session.specs.Metered.{last_number};
ghost use Rattle.sq_session.specs.Open.{walk_before};
ghost use Rattle.sq_session.specs.Walk.{AreRowsUnder, IsQuietWith, is_meant};

use crate::called::Called;
use sq_bound::Target;
use sq_catalog::Catalog;
use sq_expression::Fault;
use sq_items::Items;
use sq_lex::Name;
use sq_query::{Inputs, KnownKey, is_chosen, key_of};
use sq_store::{Meter, Store};
use sq_value::{Row, Value, copy_row};
use std::alloc::{AllocError, Global};

/// A cursor that walks over the rows of a base table.
#[derive(Drop)]
pub struct WalkingCursor {
    /// The place of the base table.
    pub table: usize,
    /// The values of the parameters of the procedure that opened it.
    pub values: Items<Value>,
    /// The next FETCH looks at rows from this number on.
    pub next: u64,
    /// The rows from this number on were inserted after OPEN.
    pub mark: u64,
    /// The number that the cursor is on.
    pub on: Option<u64>,
}

/// A walk before the first row of a base table.
pub(crate) fn started_walk<S: Store>(
    called: &Called<'_>,
    table: usize,
    store: &S,
) -> Result<WalkingCursor, AllocError>
    requires { table < length (S.content_now store.now) }
    ensures { IfOk result (λ walk. walk ≡ walk_before (S.content_now store.now) table called.now.values.now) }
{
    Ok(WalkingCursor {
        table,
        values: copy_row(called.alloc, called.values)?,
        next: 0,
        mark: store.next_number(table),
        on: None,
    })
}

/// What a walk reads: the base table, the target with its conditions, and the user and values for which they are
/// evaluated.
#[derive(Clone, Copy)]
pub(crate) struct Walk<'a> {
    pub(crate) alloc: Global,
    pub(crate) catalog: &'a Catalog,
    pub(crate) user: Name,
    pub(crate) table: usize,
    pub(crate) target: &'a Target,
    pub(crate) values: &'a [Value],
}

impl<'a> Walk<'a> {
    /// Whether the target means a row. Its conditions answer no status.
    fn is_chosen<S: Store>(&self, row: &Row, store: &S) -> Result<bool, AllocError>
        requires quiet { IsQuietWith
            (column_kinds self.now.catalog.now) self.now.target.now self.now.values.now }
        requires row { IsRowOf (base_kinds self.now.target.now.leaf.table) row.now }
        ensures { (number : ℕ)
            → IfOk result (λ chosen. is_meant
            (conditions_of self.now.target.now) self.now.values.now self.now.user
            (record { number = number; row = row.now }) ≡ chosen) }
    {
        let inputs = Inputs {
            user: self.user,
            parameters: self.values,
        };
        match is_chosen(self.alloc, self.catalog, self.target, row, store, inputs) {
            Ok(chosen) => Ok(chosen),
            Err(Fault::NoMemory) => Err(AllocError),
            Err(Fault::Status(_)) => unreachable!(),
        }
    }

    /// The key by which the target names its only row, through views too; `None` if it names no key.
    fn key<S: Store>(&self, store: &S) -> Result<Option<KnownKey>, AllocError>
        requires there { self.now.target.now.base < length (S.content_now store.now) }
        requires keys { keys_at (S.key_columns store.now) self.now.target.now.base
            ≡ self.now.target.now.leaf.table.keys }
        requires quiet { IsQuietWith
            (column_kinds self.now.catalog.now) self.now.target.now self.now.values.now }
        ensures known { IfOk result
            (λ found. IfSome found
            (IsKeyUnder self.now.target.now (S.content_now store.now) (S.key_columns store.now)
            self.now.values.now self.now.user)) }
        ensures found { IfOk result
            (λ found. IsKeyedUnder self.now.target.now self.now.values.now self.now.user → IsSome found) }
    {
        let inputs = Inputs {
            user: self.user,
            parameters: self.values,
        };
        match key_of(self.alloc, self.target, store, inputs) {
            Ok(key) => Ok(key),
            Err(Fault::NoMemory) => Err(AllocError),
            Err(Fault::Status(_)) => unreachable!(),
        }
    }
}

/// The row with the key that the target names, if its number is in `from..mark` and the target means it. The
/// target means no other row.
#[tactic(auto, using(sq_query::proofs::Keys::KnownKeys::counted_at_most))]
fn chosen_by_key<'s, S: Store>(
    walk: &Walk<'_>,
    store: &'s S,
    known: &KnownKey,
    from: u64,
    mark: u64,
    meter: &mut Meter,
) -> Result<Option<(u64, &'s Row)>, AllocError>
    requires key { IsKeyUnder walk.now.target.now (S.content_now store.now)
        (S.key_columns store.now) walk.now.values.now walk.now.user
        known.now }
    requires tables { KeepsTables walk.now.catalog.now.bases (S.content_now store.now)
        (S.key_columns store.now) }
    requires base { IsBase walk.now.catalog.now.bases walk.now.target.now.leaf.table }
    requires quiet { IsQuietWith (column_kinds walk.now.catalog.now) walk.now.target.now walk.now.values.now }
    requires rows { AreRowsUnder walk.now.target.now
        (table_at (S.content_now store.now) walk.now.target.now.base).rows }
    ensures first { IfOk result (IsFirstMeant (conditions_of walk.now.target.now) walk.now.values.now
        walk.now.user from mark (table_at (S.content_now store.now) walk.now.target.now.base)) }
    ensures read { IfOk result
        (λ found. IfSome found (λ r. (1 ≤ meter.new) × (meter.new ≤ meter.old + (r.0 - (from - 1))))) }
    ensures once { meter.new ≤ meter.old + 1 }
{
    let Some((number, row)) = store.find_key(walk.target.base, known.key, &known.values, meter)
    else {
        return Ok(None);
    };
    if number < from {
        return Ok(None);
    }
    if number >= mark {
        return Ok(None);
    }
    if walk.is_chosen(row, store)? {
        Ok(Some((number, row)))
    } else {
        Ok(None)
    }
}

/// The first row with a number in `from..mark` that the target means. The meter counts the rows that are looked
/// at.
#[tactic(auto, using(sq_store::proofs::Walk::found_behind))]
pub(crate) fn next_chosen<'s, S: Store>(
    walk: &Walk<'_>,
    store: &'s S,
    from: u64,
    mark: u64,
    meter: &mut Meter,
) -> Result<Option<(u64, &'s Row)>, AllocError>
    requires there { walk.now.table < length (S.content_now store.now) }
    requires quiet { IsQuietWith (column_kinds walk.now.catalog.now) walk.now.target.now walk.now.values.now }
    requires rows { AreRowsUnder walk.now.target.now
        (table_at (S.content_now store.now) walk.now.table).rows }
    ensures first { IfOk result (IsFirstMeant (conditions_of walk.now.target.now) walk.now.values.now
        walk.now.user from mark (table_at (S.content_now store.now) walk.now.table)) }
    ensures read { IfOk result
        (λ found. IfSome found (λ r. (1 ≤ meter.new) × (meter.new ≤ meter.old + (r.0 - (from - 1))))) }
{
    let mut number = from;
    while let Some((found, row)) = store.next_from(walk.table, number, meter) {
        if found >= mark {
            return Ok(None);
        }
        if walk.is_chosen(row, store)? {
            return Ok(Some((found, row)));
        }
        number = found + 1;
    }
    Ok(None)
}

/// The next row of a walk, for the user of the procedure that fetches. Where the target names a row by a key,
/// no other row is read.
pub(crate) fn next_of_walk<'s, S: Store>(
    called: &Called<'_>,
    target: &Target,
    store: &'s S,
    cursor: &WalkingCursor,
    meter: &mut Meter,
) -> Result<Option<(u64, &'s Row)>, AllocError>
    requires tables { KeepsTables called.now.catalog.now.bases (S.content_now store.now)
        (S.key_columns store.now) }
    requires base { IsBase called.now.catalog.now.bases target.now.leaf.table }
    requires over { target.now.base ≡ cursor.now.table }
    requires quiet { IsQuietWith (column_kinds called.now.catalog.now) target.now cursor.now.values }
    ensures first { IfOk result (IsFirstMeant (conditions_of target.now) cursor.now.values
        called.now.procedure.now.user cursor.now.next cursor.now.mark
        (table_at (S.content_now store.now) cursor.now.table)) }
    ensures read { IfOk result (λ found. IfSome found (λ r. (1 ≤ meter.new) × (meter.new
        ≤ meter.old + (r.0 - last_number cursor.now)))) }
    ensures once { IsKeyedUnder target.now cursor.now.values called.now.procedure.now.user
        → meter.new ≤ meter.old + 1 }
{
    let walk = Walk {
        alloc: called.alloc,
        catalog: called.catalog,
        user: called.procedure.user,
        table: cursor.table,
        target,
        values: cursor.values.as_slice(),
    };
    match walk.key(store)? {
        Some(known) => {
            let found = chosen_by_key(&walk, store, &known, cursor.next, cursor.mark, meter);
            drop(known);
            found
        }
        None => next_chosen(&walk, store, cursor.next, cursor.mark, meter),
    }
}
