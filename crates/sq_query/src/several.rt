//! The rows of a base table that a target means among those with one of several values of a key.

ghost use Rattle.std.specs.Prelude.{ℕ, Bool, ◌≡◌, ◌<◌, ◌≤◌, ◌∷◌, ◌||◌, [], List, filter, length, map, IfErr, IfOk, IfSome, true};
ghost use Rattle.std.specs.Borrow.{Bor};
ghost use Rattle.std.specs.List.{insert};
ghost use Rattle.sq_value.specs.declared.value.Value.{Value as AnyValue};
ghost use Rattle.sq_store.specs.Content.{table_at};
ghost use Rattle.sq_store.specs.Keys.{has_key, key_at, keys_at};
ghost use Rattle.sq_store.specs.declared.table.Numbered.{Numbered};
ghost use Rattle.sq_bound.specs.Fits.{IsBase, keys_of_bases, not_nulls_hold};
ghost use Rattle.sq_expression.specs.Frame.{lent};
ghost use Rattle.sq_query.specs.Needed.{FindsConds};
ghost use Rattle.sq_query.specs.Several.{AreKeysUnder, IsPlaceFor, added, rows_by_values, rows_with};
ghost use Rattle.sq_query.specs.Table.{numbered_in, numbered_row};
ghost use Rattle.sq_query.specs.Target.{HasTargetRows, conditions_of};

use crate::key::{KnownKey, KnownKeys};
use crate::named::alone;
use crate::named_keys::keys_of_condition;
use crate::scan::{rows_among, rows_by_scan};
use sq_bound::{Names, Target};
use sq_expression::{BaseRows, Context, Fault};
use sq_store::{Meter, Store};
use sq_value::{Row, Value};
use std::alloc::{AllocError, Global};

/// The rows that a target means, where no key names one: those among the rows with one of several keys, if its condition names them so, or
/// those among all rows.
pub(crate) fn rows_by_values<'a, N: Names, S: Store>(
    names: &N,
    target: &Target,
    store: &'a S,
    call: &Context<'_>,
    meter: &mut Meter,
) -> Result<Vec<(u64, &'a Row)>, Fault>
    requires finds { FindsConds (N.base_tables names.now) (N.column_kinds names.now)
        (conditions_of target.now) }
    requires base { IsBase (N.base_tables names.now) target.now.leaf.table }
    requires keys { S.key_columns store.now ≡ keys_of_bases (N.base_tables names.now) }
    requires not_null { not_nulls_hold (N.base_tables names.now) (S.content_now store.now) ≡ true }
    ensures { HasTargetRows result (N.base_tables names.now) (N.view_queries names.now)
        (N.column_kinds names.now) (S.content_now store.now) call.now.user call.now.parameters.now
        target.now }
{
    match keys_under(target, store, call)? {
        Some(known) => {
            let rows = rows_with(target.base, &known, store, call, meter);
            drop(known);
            rows_among(names, target, rows, store, call, meter)
        }
        None => rows_by_scan(names, target, store, call, meter),
    }
}

/// Keys by which a target's own condition names rows of the base table: `None` if there are none, or the condition of a view between may end
/// with a status on another row.
fn keys_under<S: Store>(
    target: &Target,
    store: &S,
    call: &Context<'_>,
) -> Result<Option<KnownKeys>, Fault>
    requires there { target.now.base < length (S.content_now store.now) }
    ensures known { IfOk result
        (λ found. IfSome found (AreKeysUnder target.now (S.content_now store.now) (S.key_columns store.now)
        call.now.parameters.now call.now.user)) }
    ensures memory { IfErr result (λ fault. fault ≡ Fault.NoMemory) }
{
    let Some(own) = &target.condition else {
        return Ok(None);
    };
    if target.leaf.get().is_quiet {
        keys_of_condition(target.base, own, store, call)
    } else {
        Ok(None)
    }
}

/// The rows of a base table that have one of some keys, without their numbers.
pub(crate) fn base_by_values<'a, S: Store>(
    base: usize,
    known: &KnownKeys,
    store: &'a S,
    call: &Context<'_>,
    meter: &mut Meter,
) -> Result<BaseRows<'a>, Fault>
    requires table { base < length (S.content_now store.now) }
    requires key { known.now.key < length (keys_at (S.key_columns store.now) base) }
    ensures place { IfOk result (λ found. found.place ≡ base) }
    ensures rows { IfOk result (λ found. lent found.rows.items
        ≡ rows_by_values (S.content_now store.now) (S.key_columns store.now) base known.now) }
    ensures memory { IfErr result (λ fault. fault ≡ Fault.NoMemory) }
{
    let numbered = rows_with(base, known, store, call, meter)?;
    let rows = without_numbers(call.alloc, numbered.as_slice());
    drop(numbered);
    Ok(BaseRows {
        place: base,
        rows: rows?,
    })
}

/// The rows without their numbers.
pub(crate) fn without_numbers<'a>(
    alloc: Global,
    numbered: &[(u64, &'a Row)],
) -> Result<Vec<&'a Row>, AllocError>
    ensures { IfOk result
        (λ rows. rows.items ≡ map (λ (found : ℕ × Bor (List AnyValue)). found.1) numbered.now) }
{
    let mut rows = Vec::new(alloc);
    for found in numbered {
        rows.push(found.1)?;
    }
    Ok(rows)
}

/// The rows of a base table that have one of some keys, in the order of their numbers.
fn rows_with<'a, S: Store>(
    base: usize,
    known: &KnownKeys,
    store: &'a S,
    call: &Context<'_>,
    meter: &mut Meter,
) -> Result<Vec<(u64, &'a Row)>, Fault>
    requires table { base < length (S.content_now store.now) }
    requires key { known.now.key < length (keys_at (S.key_columns store.now) base) }
    ensures rows { IfOk result (λ rows. numbered_in rows
        ≡ rows_with (S.content_now store.now) (S.key_columns store.now) base known.now) }
    ensures memory { IfErr result (λ fault. fault ≡ Fault.NoMemory) }
{
    let mut rows = Vec::new(call.alloc);
    for value in known.values.as_slice() {
        add_row_with(base, known.key, value, store, call, meter, &mut rows)?;
    }
    Ok(rows)
}

/// Adds the row with a value in the column of a key, at its place, to rows of its table.
fn add_row_with<'a, S: Store>(
    base: usize,
    key: usize,
    value: &Value,
    store: &'a S,
    call: &Context<'_>,
    meter: &mut Meter,
    rows: &mut Vec<(u64, &'a Row)>,
) -> Result<(), Fault>
    requires table { base < length (S.content_now store.now) }
    requires key { key < length (keys_at (S.key_columns store.now) base) }
    ensures rows { IfOk result (λ done. (has : Numbered → Bool)
        → numbered_in rows.old ≡ filter has (table_at (S.content_now store.now) base).rows
        → numbered_in rows.new ≡ filter (λ r. has r
        || has_key (key_at (S.key_columns store.now) base key) (value.now ∷ []) r)
        (table_at (S.content_now store.now) base).rows) }
    ensures memory { IfErr result (λ fault. fault ≡ Fault.NoMemory) }
{
    let wanted = key_with(key, value, call)?;
    let row = store.find_key(base, key, &wanted.values, meter);
    drop(wanted);
    match row {
        Some(found) => add(found, rows),
        None => Ok(()),
    }
}

/// A key of one column with a value.
fn key_with(key: usize, value: &Value, call: &Context<'_>) -> Result<KnownKey, Fault>
    ensures values { IfOk result (λ known. known.values ≡ value.now ∷ []) }
    ensures memory { IfErr result (λ fault. fault ≡ Fault.NoMemory) }
{
    let values = alone(call.alloc, value.copy(call.alloc)?)?;
    KnownKey::of(call.alloc, key, values)
}

/// Adds a row to others whose numbers rise, at its place, unless it is there.
fn add<'a>(found: (u64, &'a Row), rows: &mut Vec<(u64, &'a Row)>) -> Result<(), Fault>
    ensures rows { IfOk result
        (λ done. numbered_in rows.new ≡ added (numbered_row found.entry) (numbered_in rows.old)) }
    ensures memory { IfErr result (λ fault. fault ≡ Fault.NoMemory) }
{
    match place_of(found.0, rows.as_slice()) {
        Some(place) => put_at(place, found, rows),
        None => Ok(()),
    }
}

/// Puts a row at a place among others.
fn put_at<'a>(
    place: usize,
    found: (u64, &'a Row),
    rows: &mut Vec<(u64, &'a Row)>,
) -> Result<(), Fault>
    requires within { place ≤ length rows.old.items }
    ensures rows { IfOk result (λ done. rows.new.items ≡ insert rows.old.items place found.entry) }
    ensures memory { IfErr result (λ fault. fault ≡ Fault.NoMemory) }
{
    rows.insert(place, found)?;
    Ok(())
}

/// The place of a row with this number among rows whose numbers rise, unless one with it is there.
fn place_of(number: u64, rows: &[(u64, &Row)]) -> Option<usize>
    ensures within { IfSome result (λ place. place ≤ length rows.now) }
    ensures place { (found : ℕ × Bor (List AnyValue)) → found.0 ≡ number
        → IsPlaceFor found rows.now result }
{
    for place in 0..rows.len() {
        let next = rows[place].0;
        if number < next {
            return Some(place);
        }
        if number == next {
            return None;
        }
    }
    Some(rows.len())
}
