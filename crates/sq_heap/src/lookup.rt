//! Rows looked up by values that several may have, through an index of their columns.

ghost use Rattle.std.specs.Prelude.{◌≡◌, ◌++◌, ℕ, filter, true, IfOk, OnOk};
ghost use Rattle.std.specs.List.Sorted.{IsStrictlyIncreasing};
ghost use Rattle.sq_store.specs.Found.{has_one_of, numbered_in};
ghost use Rattle.sq_heap.specs.Index.{bucket_of, is_in, slots_hold};
ghost use Rattle.sq_heap.specs.Lookup.{has_place, place_named, places_named, places_of, places_with, row_under, rows_under};
ghost use Rattle.sq_heap.specs.Slots.{rows_from, slot_at};

use crate::hash::hash_of_values;
use crate::index::{Entry, Index};
use crate::keys::row_of;
use crate::slots::row_in;
use sq_store::has_values;
use sq_value::{Row, Value};
use std::alloc::{AllocError, Global};

/// The rows with one of several lists of values in the columns of an index, in the order of their numbers.
pub(crate) fn all_with<'a>(
    alloc: Global,
    slots: &'a [Option<Row>],
    index: &Index,
    several: &[Row],
) -> Result<Vec<(u64, &'a Row)>, AllocError>
    requires { slots_hold (is_in index.now) 0 slots.now ≡ true }
    ensures { IfOk result (λ found. numbered_in found
        ≡ filter (has_one_of index.now.columns several.now) (rows_from 1 slots.now)) }
{
    let mut places = places_of(alloc, slots, index, several)?;
    put_in_order(&mut places);
    rows_under(alloc, slots, places.as_slice())
}

/// The places that an index names of rows with one of several lists of values, as they come.
fn places_of(
    alloc: Global,
    slots: &[Option<Row>],
    index: &Index,
    several: &[Row],
) -> Result<Vec<usize>, AllocError>
    ensures { IfOk result (λ places. places.items ≡ places_of index.now slots.now several.now) }
{
    let mut places = Vec::new(alloc);
    for list in several {
        push_places(alloc, slots, index, list.as_slice(), &mut places)?;
    }
    Ok(places)
}

/// Adds the places that an index names of rows with these values.
fn push_places(
    alloc: Global,
    slots: &[Option<Row>],
    index: &Index,
    values: &[Value],
    places: &mut Vec<usize>,
) -> Result<(), AllocError>
    ensures { OnOk result
        (places.new.items ≡ places.old.items ++ places_with index.now slots.now values.now) }
{
    let hash = hash_of_values(alloc, values)?;
    push_under(slots, index, values, hash, places)
}

/// Adds the places that the entries under a hash name of rows with these values.
fn push_under(
    slots: &[Option<Row>],
    index: &Index,
    values: &[Value],
    hash: u64,
    places: &mut Vec<usize>,
) -> Result<(), AllocError>
    ensures { OnOk result (places.new.items ≡ places.old.items
        ++ places_named index.now.columns values.now slots.now hash (bucket_of index.now hash)) }
{
    let columns = index.columns();
    let mut link = index.last(hash);
    while let Some(entry) = index.entry(link) {
        push_named(slots, columns, values, entry, hash, places)?;
        link = entry.next;
    }
    Ok(())
}

/// Adds the place of an entry, if it names under a hash a row with these values.
fn push_named(
    slots: &[Option<Row>],
    columns: &[usize],
    values: &[Value],
    entry: Entry,
    hash: u64,
    places: &mut Vec<usize>,
) -> Result<(), AllocError>
    ensures { OnOk result (places.new.items
        ≡ places.old.items ++ place_named columns.now values.now slots.now hash entry) }
{
    if let Some(row) = row_of(slots, entry, hash) {
        if has_values(row.as_slice(), columns, values) {
            places.push(entry.at)?;
        }
    }
    Ok(())
}

/// Puts places in their order, each of them once: a slot may have several entries in a chain.
fn put_in_order(places: &mut Vec<usize>)
    ensures rising { IsStrictlyIncreasing places.new.items }
    ensures same { (at : ℕ) → has_place places.new.items at ≡ has_place places.old.items at }
{
    places.sort_unstable();
    places.dedup();
}

/// The rows in the slots at these places, with their numbers.
fn rows_under<'a>(
    alloc: Global,
    slots: &'a [Option<Row>],
    places: &[usize],
) -> Result<Vec<(u64, &'a Row)>, AllocError>
    ensures { IfOk result (λ rows. numbered_in rows ≡ rows_under slots.now places.now) }
{
    let mut rows = Vec::with_capacity(alloc, places.len())?;
    for at in places {
        push_row(slots, *at, &mut rows)?;
    }
    Ok(rows)
}

/// Adds the row in a slot, if there is one, with its number.
fn push_row<'a>(
    slots: &'a [Option<Row>],
    at: usize,
    rows: &mut Vec<(u64, &'a Row)>,
) -> Result<(), AllocError>
    ensures { OnOk result
        (numbered_in rows.new ≡ numbered_in rows.old ++ row_under at (slot_at slots.now at)) }
{
    if let Some(row) = row_in(slots, at) {
        rows.push((at as u64 + 1, row))?;
    }
    Ok(())
}
