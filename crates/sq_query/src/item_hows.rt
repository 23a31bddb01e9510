//! How the rows of the items of a FROM clause are found, as far as it is known before any call.

ghost use Rattle.std.specs.Prelude.{◌<◌, length};
ghost use Rattle.sq_meaning.specs.WellFormed.{HasValue};
ghost use Rattle.sq_bound.specs.WellFormed.{BasesAreThere};
ghost use Rattle.sq_bound.specs.declared.condition.TablePlace.TheVariants as at_place;
ghost use Rattle.sq_query.specs.Items.{items_of};
ghost use Rattle.sq_query.specs.Needed.{FindsSelect};

use crate::asked::{Asked, itself};
use crate::items::is_once;
use crate::lookup::{Lookup, add_compared};
use crate::named::Sure;
use crate::named_exprs::{Seen, is_named_by_some, key_of_several, named_key};
use crate::needed::Needed;
use crate::plain_view::{Underneath, base_under};
use crate::view_items::is_view_alone;
use crate::way::{ColumnPlace, How, KeyPlace};
use sq_bound::{BaseTable, BoundCond, BoundSpecification, Names, Reference, TablePlace};
use std::alloc::{AllocError, Global};

/// How the rows of each item of a query specification are found, if other parts of the statement read these tables. First those are found
/// of which one row at most is read: it may be what names the rows of another item. Then those follow of which more are.
pub(crate) fn hows_of_items<N: Names>(
    alloc: Global,
    names: &N,
    query: &BoundSpecification,
    elsewhere: &Needed,
    is_within: bool,
) -> Result<Vec<How>, AllocError> {
    let mut hows = Vec::from_elem(alloc, How::Whole, query.from.tables.as_slice().len())?;
    let Some(condition) = &query.condition else {
        return Ok(hows);
    };
    let tables = query.from.tables.as_slice();
    let lookups = [Lookup::Key, Lookup::Keys, Lookup::Index, Lookup::Walk];
    for _ in 0..tables.len() {
        hows = hows_of_each(
            alloc,
            names,
            tables,
            condition,
            elsewhere,
            &hows,
            is_within,
            &lookups[..1],
        )?;
    }
    hows_of_each(
        alloc, names, tables, condition, elsewhere, &hows, is_within, &lookups,
    )
}

/// How the rows of each item are found by these lookups with the help of what was found before.
fn hows_of_each<N: Names>(
    alloc: Global,
    names: &N,
    tables: &[TablePlace],
    condition: &BoundCond,
    elsewhere: &Needed,
    before: &Vec<How>,
    is_within: bool,
    lookups: &[Lookup],
) -> Result<Vec<How>, AllocError> {
    let mut hows = Vec::new(alloc);
    for item in 0..tables.len() {
        let seen = Seen {
            item,
            hows: before.as_slice(),
            is_within,
        };
        hows.push(how_of_item(alloc, names, tables, condition, elsewhere, &seen, lookups)?)?;
    }
    Ok(hows)
}

/// How the rows of an item are found. All rows of a table are needed that stands elsewhere, too.
fn how_of_item<N: Names>(
    alloc: Global,
    names: &N,
    tables: &[TablePlace],
    condition: &BoundCond,
    elsewhere: &Needed,
    seen: &Seen<'_>,
    lookups: &[Lookup],
) -> Result<How, AllocError>
    requires item { seen.now.item < length tables.now }
{
    let TablePlace::Base(base) = tables[seen.item] else {
        return Ok(How::Whole);
    };
    if elsewhere.contains(TablePlace::Base(base))
        || !is_once(TablePlace::Base(base), seen.item, tables)
    {
        return Ok(How::Whole);
    }
    match names.bases().get(base) {
        Some(table) => how_of_base(
            alloc,
            table.get(),
            &itself(base),
            condition,
            seen,
            Sure::Noted,
            lookups,
        ),
        None => Ok(How::Whole),
    }
}

/// How the rows of the base table that is asked for an item are found that a condition names: by the first of these lookups that there is.
pub(crate) fn how_of_base(
    alloc: Global,
    table: &BaseTable,
    asked: &Asked<'_>,
    condition: &BoundCond,
    seen: &Seen<'_>,
    sure: Sure,
    lookups: &[Lookup],
) -> Result<How, AllocError> {
    for lookup in lookups {
        if let Some(how) = how_by_lookup(alloc, table, asked, condition, seen, sure, *lookup)? {
            return Ok(how);
        }
    }
    Ok(How::Whole)
}

/// How the rows of the base table are found that a condition names, if there is this lookup to them.
fn how_by_lookup(
    alloc: Global,
    table: &BaseTable,
    asked: &Asked<'_>,
    condition: &BoundCond,
    seen: &Seen<'_>,
    sure: Sure,
    lookup: Lookup,
) -> Result<Option<How>, AllocError> {
    let keys = table.keys.as_slice();
    let base = asked.base;
    match lookup {
        Lookup::Key => {
            let found = named_key(alloc, keys, asked, condition, seen, sure)?;
            Ok(found.map(|key| How::Key(KeyPlace { base, key })))
        }
        Lookup::Keys => {
            let found = key_of_several(alloc, keys, asked, condition, seen, sure)?;
            Ok(found.map(|key| How::Several(KeyPlace { base, key })))
        }
        Lookup::Index => {
            let found = column_of_index(alloc, table, asked, condition, seen, sure)?;
            Ok(found.map(|column| How::Value(ColumnPlace { base, column })))
        }
        Lookup::Walk => Ok(Some(How::Whole)),
    }
}

// ---- plain views

/// How the rows of each item of a query specification outside every query are found, those of plain views by the rows of the base tables under
/// them. What is found of a view names no rows of another item.
pub(crate) fn hows_with_views<N: Names>(
    alloc: Global,
    names: &N,
    query: &BoundSpecification,
    hows: &[How],
) -> Result<Vec<How>, AllocError>
    requires { FindsSelect (N.base_tables names.now) (N.column_kinds names.now) query.now }
{
    let inner = Needed::of_subqueries(alloc, query)?;
    let mut all = Vec::new(alloc);
    for item in 0..query.from.tables.as_slice().len() {
        let seen = Seen {
            item,
            hows,
            is_within: true,
        };
        all.push(how_with_view(alloc, names, query, &inner, &seen)?)?;
    }
    Ok(all)
}

/// How the rows of an item are found: as it was seen, if it is no plain view whose rows WHERE names.
fn how_with_view<N: Names>(
    alloc: Global,
    names: &N,
    query: &BoundSpecification,
    inner: &Needed,
    seen: &Seen<'_>,
) -> Result<How, AllocError>
    requires finds { FindsSelect (N.base_tables names.now) (N.column_kinds names.now) query.now }
    requires item { seen.now.item < length (items_of query.now) }
{
    let tables = query.from.tables.as_slice();
    let TablePlace::View(view) = tables[seen.item] else {
        return Ok(how_seen(seen));
    };
    match &query.condition {
        Some(condition) if is_view_alone(view, seen.item, query, inner, &[]) => {
            how_of_view(alloc, names, view, condition, seen)
        }
        _ => Ok(How::Whole),
    }
}

/// How the rows of an item are found, as far as that is known.
fn how_seen(seen: &Seen<'_>) -> How {
    match seen.hows.get(seen.item) {
        Some(how) => *how,
        None => How::Whole,
    }
}

/// How the rows of a plain view in an item are found that a condition names.
fn how_of_view<N: Names>(
    alloc: Global,
    names: &N,
    view: usize,
    condition: &BoundCond,
    seen: &Seen<'_>,
) -> Result<How, AllocError>
    requires there { BasesAreThere (N.base_tables names.now) (N.column_kinds names.now) }
    requires known { HasValue (N.column_kinds names.now (at_place.View view)) }
{
    let Some(under) = base_under(alloc, names, view)? else {
        return Ok(How::Whole);
    };
    let how = match names.bases().get(under.base) {
        Some(table) => how_under(alloc, table.get(), &under, condition, seen),
        None => Ok(How::Whole),
    };
    drop(under);
    how
}

/// How the rows of the base table under a plain view are found that a condition on the rows of the view names.
fn how_under(
    alloc: Global,
    table: &BaseTable,
    under: &Underneath,
    condition: &BoundCond,
    seen: &Seen<'_>,
) -> Result<How, AllocError> {
    let asked = Asked {
        base: under.base,
        through: Some(under.columns.as_slice()),
    };
    let lookups = [Lookup::Key, Lookup::Keys, Lookup::Index, Lookup::Walk];
    how_of_base(alloc, table, &asked, condition, seen, Sure::Noted, &lookups)
}

// ---- columns of which the store has an index

/// The first column of the base table that refers to a table and by which a condition names the rows of an item.
fn column_of_index(
    alloc: Global,
    table: &BaseTable,
    asked: &Asked<'_>,
    condition: &BoundCond,
    seen: &Seen<'_>,
    sure: Sure,
) -> Result<Option<usize>, AllocError> {
    let mut columns = Vec::new(alloc);
    add_compared(condition, seen.item, &mut columns)?;
    for column in columns.as_slice() {
        let own = referring_column(table, asked, *column);
        if own.is_some() && is_named_by_some(alloc, condition, *column, seen, sure)? {
            return Ok(own);
        }
    }
    Ok(None)
}

/// The column of the base table that is asked for a column of an item, if it alone refers to a table.
fn referring_column(table: &BaseTable, asked: &Asked<'_>, column: usize) -> Option<usize> {
    let own = asked.own(column)?;
    if refers(table, own) { Some(own) } else { None }
}

/// Whether a reference of a base table has this column alone.
fn refers(table: &BaseTable, column: usize) -> bool {
    table
        .references
        .as_slice()
        .iter()
        .any(|reference| is_of_column(reference, column))
}

fn is_of_column(reference: &Reference, column: usize) -> bool {
    match reference.by_key.as_slice() {
        [only] => *only == column,
        _ => false,
    }
}
