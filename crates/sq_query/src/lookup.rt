//! Where the rows of a base table in an item come from if WHERE names them: from a lookup of values of a key, or of another column.

ghost use Rattle.std.specs.Prelude.{◌≡◌, ◌<◌, IfErr, IfOk, IfSome, length};
ghost use Rattle.sq_query.specs.Items.{HasNamedRows};
ghost use Rattle.sq_query.specs.Valued.{HasRowsWithOne};

use crate::asked::Asked;
use crate::named::{Sure, values_by_condition};
use crate::named_keys::{key_by_tests, keys_by_tests};
use crate::several::base_by_values;
use crate::sought::Sought;
use crate::specification::base_by_key;
use crate::valued::{rows_by_index, rows_by_walk};
use sq_bound::{BoundCond, BoundExpr, BoundTest, Predicate, equal_sides};
use sq_expression::{BaseRows, Context, Fault};
use sq_store::{Meter, Store};
use sq_value::Value;
use std::alloc::{AllocError, Global};

/// How the rows of a base table in an item are looked for.
#[derive(Clone, Copy)]
pub(crate) enum Lookup {
    /// By one value of each column of a key.
    Key,
    /// By several values of the only column of a key.
    Keys,
    /// By values of a column, with an index of the store.
    Index,
    /// By values of a column, in a walk over all rows.
    Walk,
}

/// The rows of the base table that is asked for an item that WHERE names, from the first of these lookups that there is.
pub(crate) fn rows_named<'a, S: Store>(
    asked: &Asked<'_>,
    condition: &BoundCond,
    sought: &Sought<'_>,
    lookups: &[Lookup],
    store: &'a S,
    call: &Context<'_>,
    meter: &mut Meter,
) -> Result<Option<BaseRows<'a>>, Fault>
    requires there { asked.now.base < length (S.content_now store.now) }
    ensures found { IfOk result (λ found. IfSome found (HasNamedRows asked.now condition.now sought.now
        call.now.parameters.now call.now.user (S.content_now store.now) (S.key_columns store.now))) }
    ensures memory { IfErr result (λ fault. fault ≡ Fault.NoMemory) }
{
    for lookup in lookups {
        let own = rows_by_lookup(asked, condition, sought, *lookup, store, call, meter)?;
        if own.is_some() {
            return Ok(own);
        }
    }
    Ok(None)
}

/// The rows of the base table that is asked for an item that WHERE names, if there is this lookup to them.
fn rows_by_lookup<'a, S: Store>(
    asked: &Asked<'_>,
    condition: &BoundCond,
    sought: &Sought<'_>,
    lookup: Lookup,
    store: &'a S,
    call: &Context<'_>,
    meter: &mut Meter,
) -> Result<Option<BaseRows<'a>>, Fault>
    requires there { asked.now.base < length (S.content_now store.now) }
    ensures found { IfOk result (λ found. IfSome found (HasNamedRows asked.now condition.now sought.now
        call.now.parameters.now call.now.user (S.content_now store.now) (S.key_columns store.now))) }
    ensures memory { IfErr result (λ fault. fault ≡ Fault.NoMemory) }
{
    match lookup {
        Lookup::Key => rows_of_key(asked, condition, sought, store, call, meter),
        Lookup::Keys => rows_of_several(asked, condition, sought, store, call, meter),
        Lookup::Index => rows_of_values(asked, condition, sought, false, store, call, meter),
        Lookup::Walk => rows_of_values(asked, condition, sought, true, store, call, meter),
    }
}

// ---- keys

/// The rows of the base table that is asked for an item that WHERE names by one value of each column of a key.
fn rows_of_key<'a, S: Store>(
    asked: &Asked<'_>,
    condition: &BoundCond,
    sought: &Sought<'_>,
    store: &'a S,
    call: &Context<'_>,
    meter: &mut Meter,
) -> Result<Option<BaseRows<'a>>, Fault>
    requires there { asked.now.base < length (S.content_now store.now) }
    ensures found { IfOk result (λ found. IfSome found (HasNamedRows asked.now condition.now sought.now
        call.now.parameters.now call.now.user (S.content_now store.now) (S.key_columns store.now))) }
    ensures memory { IfErr result (λ fault. fault ≡ Fault.NoMemory) }
{
    match key_by_tests(asked, condition, sought, Sure::Noted, store, call)? {
        Some(known) => Ok(Some(base_by_key(call.alloc, store, asked.base, &known, meter)?)),
        None => Ok(None),
    }
}

/// The rows of the base table that is asked for an item that WHERE names by several values of a key.
fn rows_of_several<'a, S: Store>(
    asked: &Asked<'_>,
    condition: &BoundCond,
    sought: &Sought<'_>,
    store: &'a S,
    call: &Context<'_>,
    meter: &mut Meter,
) -> Result<Option<BaseRows<'a>>, Fault>
    requires there { asked.now.base < length (S.content_now store.now) }
    ensures found { IfOk result (λ found. IfSome found (HasNamedRows asked.now condition.now sought.now
        call.now.parameters.now call.now.user (S.content_now store.now) (S.key_columns store.now))) }
    ensures memory { IfErr result (λ fault. fault ≡ Fault.NoMemory) }
{
    match keys_by_tests(asked, condition, sought, Sure::Noted, store, call)? {
        Some(known) => Ok(Some(base_by_values(asked.base, &known, store, call, meter)?)),
        None => Ok(None),
    }
}

// ---- other columns

/// The rows of the base table of an item but those that have other values in a column by which WHERE names them: in a walk if that is said,
/// or if the store has an index of the column.
fn rows_of_values<'a, S: Store>(
    asked: &Asked<'_>,
    condition: &BoundCond,
    sought: &Sought<'_>,
    may_walk: bool,
    store: &'a S,
    call: &Context<'_>,
    meter: &mut Meter,
) -> Result<Option<BaseRows<'a>>, Fault>
    requires there { asked.now.base < length (S.content_now store.now) }
    ensures found { IfOk result (λ found. IfSome found (HasNamedRows asked.now condition.now sought.now
        call.now.parameters.now call.now.user (S.content_now store.now) (S.key_columns store.now))) }
    ensures memory { IfErr result (λ fault. fault ≡ Fault.NoMemory) }
{
    let mut columns = Vec::new(call.alloc);
    add_compared(condition, sought.item, &mut columns)?;
    for column in columns.as_slice() {
        let own = rows_of_column(
            asked, *column, condition, sought, may_walk, store, call, meter,
        )?;
        if own.is_some() {
            return Ok(own);
        }
    }
    Ok(None)
}

/// The same by this column, if WHERE names the rows by values of it.
fn rows_of_column<'a, S: Store>(
    asked: &Asked<'_>,
    column: usize,
    condition: &BoundCond,
    sought: &Sought<'_>,
    may_walk: bool,
    store: &'a S,
    call: &Context<'_>,
    meter: &mut Meter,
) -> Result<Option<BaseRows<'a>>, Fault>
    requires there { asked.now.base < length (S.content_now store.now) }
    ensures found { IfOk result (λ found. IfSome found (HasNamedRows asked.now condition.now sought.now
        call.now.parameters.now call.now.user (S.content_now store.now) (S.key_columns store.now))) }
    ensures memory { IfErr result (λ fault. fault ≡ Fault.NoMemory) }
{
    let Some(own_column) = asked.own(column) else {
        return Ok(None);
    };
    match values_by_condition(condition, column, sought, Sure::Noted, call)? {
        Some(values) => {
            let own = rows_if_quick(
                asked.base,
                own_column,
                values.as_slice(),
                may_walk,
                store,
                call.alloc,
                meter,
            );
            drop(values);
            Ok(own?)
        }
        None => Ok(None),
    }
}

/// The rows of a base table that have one of some values in a column, or null: in a walk if that is said, or if the store has an index.
fn rows_if_quick<'a, S: Store>(
    base: usize,
    column: usize,
    values: &[Value],
    may_walk: bool,
    store: &'a S,
    alloc: Global,
    meter: &mut Meter,
) -> Result<Option<BaseRows<'a>>, AllocError>
    requires { base < length (S.content_now store.now) }
    ensures { IfOk result (λ found. IfSome found
        (HasRowsWithOne (S.content_now store.now) base column values.now)) }
{
    if may_walk {
        Ok(Some(rows_by_walk(alloc, store, base, column, values, meter)?))
    } else {
        rows_by_index(alloc, store, base, column, values, meter)
    }
}

// ---- columns that are compared

/// Adds the columns of an item that tests of a condition's first term compare by `=` or IN. Any other term has to name them, too.
#[cycle(add_compared)]
pub(crate) fn add_compared(
    condition: &BoundCond,
    item: usize,
    columns: &mut Vec<usize>,
) -> Result<(), AllocError> {
    match condition.terms.as_slice() {
        [first, ..] => add_compared_by(first.tests.as_slice(), item, columns),
        [] => Ok(()),
    }
}

/// Adds the columns of an item that these tests compare so.
#[cycle(add_compared)]
fn add_compared_by(
    tests: &[BoundTest],
    item: usize,
    columns: &mut Vec<usize>,
) -> Result<(), AllocError> {
    for test in tests {
        match &test.predicate {
            Predicate::Bracketed(condition) => add_compared(condition.get(), item, columns)?,
            _ => add_if_compared(test, item, columns)?,
        }
    }
    Ok(())
}

fn add_if_compared(
    test: &BoundTest,
    item: usize,
    columns: &mut Vec<usize>,
) -> Result<(), AllocError> {
    match column_compared(test, item) {
        Some(column) => {
            columns.push(column)?;
            Ok(())
        }
        None => Ok(()),
    }
}

/// The column of an item that a test compares by `=` or IN.
fn column_compared(test: &BoundTest, item: usize) -> Option<usize> {
    match &test.predicate {
        Predicate::InList(_, operand, _) => column_of(operand, item),
        _ => {
            let (left, right) = equal_sides(test)?;
            match column_of(left, item) {
                Some(column) => Some(column),
                None => column_of(right, item),
            }
        }
    }
}

/// The column of an item that an expression is.
fn column_of(expr: &BoundExpr, item: usize) -> Option<usize> {
    match expr {
        BoundExpr::Column(place) if place.depth == 0 && place.item == item => Some(place.column),
        _ => None,
    }
}
