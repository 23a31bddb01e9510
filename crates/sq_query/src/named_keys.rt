//! The keys of a base table by whose columns a condition names the rows of an item, with the values of the columns.

ghost use Rattle.std.specs.Prelude.{◌≡◌, ◌<◌, ◌∷◌, [], IfErr, IfOk, IfSome, IsSome, Some, List, length};
ghost use Rattle.std.specs.List.{AllZip};
ghost use Rattle.sq_value.specs.declared.domain.Kind.{Kind};
ghost use Rattle.sq_store.specs.Keys.{keys_at};
ghost use Rattle.sq_bound.specs.WellFormed.{TableKinds};
ghost use Rattle.sq_bound.specs.declared.condition.TablePlace.TheVariants as at_place;
ghost use Rattle.sq_meaning.specs.WellFormed.{IsRowOf};
ghost use Rattle.sq_query.specs.Asked.{IsFalseThrough};
ghost use Rattle.sq_query.specs.Key.{AreKeysOn, IsKeyOn, StandsOn};
ghost use Rattle.sq_query.specs.Keyed.{IsKeyedBy};
ghost use Rattle.sq_query.specs.Named.{AreKeysBy, IsFalseOf, IsKeyBy, IsNamedByOne, IsOneOf};

use crate::asked::{Asked, itself};
use crate::key::{KnownKey, KnownKeys, shortest_known_key};
use crate::named::{Sure, values_by_condition};
use crate::sought::{Sought, row_of};
use sq_bound::{BoundCond, TablePlace};
use sq_expression::{Context, Fault};
use sq_store::Store;
use sq_value::Value;

/// A key by which a condition on the rows of a base table names one, with its values: the shortest whose columns its first tests compare
/// with literals and parameters or, if there is none, the first by whose columns its tests name the rows.
pub(crate) fn key_of_condition<S: Store>(
    base: usize,
    condition: &BoundCond,
    store: &S,
    call: &Context<'_>,
) -> Result<Option<KnownKey>, Fault>
    requires there { base < length (S.content_now store.now) }
    ensures known { IfOk result
        (λ found. IfSome found (IsKeyOn base condition.now (S.content_now store.now) (S.key_columns store.now)
        call.now.parameters.now call.now.user)) }
    ensures found { IfOk result
        (λ found. IsKeyedBy (keys_at (S.key_columns store.now) base) condition.now call.now.parameters.now
        call.now.user → IsSome found) }
    ensures memory { (columns : TableKinds) (parameters : List Kind)
        → StandsOn columns parameters (at_place.Base base) condition.now
        → IsRowOf parameters call.now.parameters.now → IfErr result (λ fault. fault ≡ Fault.NoMemory) }
{
    match shortest_known_key(base, condition, store, call)? {
        Some(known) => Ok(Some(known)),
        None => {
            let tables = [TablePlace::Base(base)];
            key_by_tests(
                &itself(base),
                condition,
                &row_of(&tables),
                Sure::Unnoted,
                store,
                call,
            )
        }
    }
}

/// The first key of one column of a base table by values of which a condition on its rows names them: `None` if there is no such key. The
/// condition is false of each row that has none of the values.
pub(crate) fn keys_of_condition<S: Store>(
    base: usize,
    condition: &BoundCond,
    store: &S,
    call: &Context<'_>,
) -> Result<Option<KnownKeys>, Fault>
    requires there { base < length (S.content_now store.now) }
    ensures known { IfOk result
        (λ found. IfSome found
        (AreKeysOn base condition.now (S.content_now store.now) (S.key_columns store.now)
        call.now.parameters.now call.now.user)) }
    ensures memory { IfErr result (λ fault. fault ≡ Fault.NoMemory) }
{
    let tables = [TablePlace::Base(base)];
    keys_by_tests(
        &itself(base),
        condition,
        &row_of(&tables),
        Sure::Unnoted,
        store,
        call,
    )
}

// ---- one value of each column

/// The first key of the base table that is asked for an item by whose columns a condition names the item's rows, with the values of the
/// columns: `None` if there is no such key. The condition is false on each line whose row of the item lacks the key.
pub(crate) fn key_by_tests<S: Store>(
    asked: &Asked<'_>,
    condition: &BoundCond,
    sought: &Sought<'_>,
    sure: Sure,
    store: &S,
    call: &Context<'_>,
) -> Result<Option<KnownKey>, Fault>
    requires there { asked.now.base < length (S.content_now store.now) }
    ensures known { IfOk result (λ found. IfSome found (IsKeyBy
        (IsFalseThrough asked.now.through (IsFalseOf sought.now sure call.now.parameters.now call.now.user
        condition.now)) (S.key_columns store.now) asked.now.base)) }
    ensures memory { IfErr result (λ fault. fault ≡ Fault.NoMemory) }
{
    for key in 0..store.keys(asked.base).len() {
        let known = key_with_number(asked, key, condition, sought, sure, store, call)?;
        if known.is_some() {
            return Ok(known);
        }
    }
    Ok(None)
}

/// The key of the base table with a number, if a condition names the rows of the item by each of its columns.
fn key_with_number<S: Store>(
    asked: &Asked<'_>,
    key: usize,
    condition: &BoundCond,
    sought: &Sought<'_>,
    sure: Sure,
    store: &S,
    call: &Context<'_>,
) -> Result<Option<KnownKey>, Fault>
    requires there { asked.now.base < length (S.content_now store.now) }
    requires key { key < length (keys_at (S.key_columns store.now) asked.now.base) }
    ensures known { IfOk result (λ found. IfSome found (IsKeyBy
        (IsFalseThrough asked.now.through (IsFalseOf sought.now sure call.now.parameters.now call.now.user
        condition.now)) (S.key_columns store.now) asked.now.base)) }
    ensures memory { IfErr result (λ fault. fault ≡ Fault.NoMemory) }
{
    key_if_named(
        key,
        store.keys(asked.base)[key].as_slice(),
        asked,
        condition,
        sought,
        sure,
        call,
    )
}

/// The key with a number, if a condition names the rows of the item by each of these columns of the base table.
fn key_if_named(
    key: usize,
    columns: &[usize],
    asked: &Asked<'_>,
    condition: &BoundCond,
    sought: &Sought<'_>,
    sure: Sure,
    call: &Context<'_>,
) -> Result<Option<KnownKey>, Fault>
    ensures named { IfOk result (λ found. IfSome found (λ known. (known.key ≡ key) × AllZip (IsOneOf
        (IsFalseThrough asked.now.through (IsFalseOf sought.now sure call.now.parameters.now call.now.user
        condition.now))) columns.now known.values)) }
    ensures memory { IfErr result (λ fault. fault ≡ Fault.NoMemory) }
{
    match named_values(columns, asked, condition, sought, sure, call)? {
        Some(values) => Ok(Some(KnownKey::of(call.alloc, key, values)?)),
        None => Ok(None),
    }
}

/// The values of columns of the base table by which a condition names the rows of the item, if it names them by one value of each.
fn named_values(
    columns: &[usize],
    asked: &Asked<'_>,
    condition: &BoundCond,
    sought: &Sought<'_>,
    sure: Sure,
    call: &Context<'_>,
) -> Result<Option<Vec<Value>>, Fault>
    ensures named { IfOk result (λ found. IfSome found (λ values. AllZip (IsOneOf
        (IsFalseThrough asked.now.through (IsFalseOf sought.now sure call.now.parameters.now call.now.user
        condition.now))) columns.now values.items)) }
    ensures memory { IfErr result (λ fault. fault ≡ Fault.NoMemory) }
{
    let mut values = Vec::new(call.alloc);
    for column in columns {
        match value_by_condition(*column, asked, condition, sought, sure, call)? {
            Some(value) => values.push(value)?,
            None => return Ok(None),
        }
    }
    Ok(Some(values))
}

/// The value of a column of the base table by which a condition names the rows of the item, if it does so by one alone.
fn value_by_condition(
    column: usize,
    asked: &Asked<'_>,
    condition: &BoundCond,
    sought: &Sought<'_>,
    sure: Sure,
    call: &Context<'_>,
) -> Result<Option<Value>, Fault>
    ensures named { IfOk result (λ found. IfSome found (IsOneOf
        (IsFalseThrough asked.now.through (IsFalseOf sought.now sure call.now.parameters.now call.now.user
        condition.now)) column)) }
    ensures memory { IfErr result (λ fault. fault ≡ Fault.NoMemory) }
{
    match values_by_own(column, asked, condition, sought, sure, call)? {
        Some(values) => Ok(only_value(values)),
        None => Ok(None),
    }
}

/// The values of a column of the base table by which a condition names the rows of the item, if the item shows the column.
fn values_by_own(
    column: usize,
    asked: &Asked<'_>,
    condition: &BoundCond,
    sought: &Sought<'_>,
    sure: Sure,
    call: &Context<'_>,
) -> Result<Option<Vec<Value>>, Fault>
    ensures named { IfOk result (λ found. IfSome found (λ values.
        IsFalseThrough asked.now.through (IsFalseOf sought.now sure call.now.parameters.now call.now.user
        condition.now) column values.items)) }
    ensures memory { IfErr result (λ fault. fault ≡ Fault.NoMemory) }
{
    match asked.shown(column) {
        Some(shown) => values_by_condition(condition, shown, sought, sure, call),
        None => Ok(None),
    }
}

/// The only one of some values.
fn only_value(values: Vec<Value>) -> Option<Value>
    ensures { IfSome result (λ value. values.items ≡ value ∷ []) }
{
    let mut others = values;
    let last = others.pop();
    if others.is_empty() { last } else { None }
}

// ---- several values of one column

/// The first key of one column of the base table that is asked for an item by values of which a condition names the item's rows: `None` if
/// there is no such key. The condition is false on each line whose row of the item has none of the values.
pub(crate) fn keys_by_tests<S: Store>(
    asked: &Asked<'_>,
    condition: &BoundCond,
    sought: &Sought<'_>,
    sure: Sure,
    store: &S,
    call: &Context<'_>,
) -> Result<Option<KnownKeys>, Fault>
    requires there { asked.now.base < length (S.content_now store.now) }
    ensures known { IfOk result (λ found. IfSome found (AreKeysBy
        (IsFalseThrough asked.now.through (IsFalseOf sought.now sure call.now.parameters.now call.now.user
        condition.now)) (S.key_columns store.now) asked.now.base)) }
    ensures memory { IfErr result (λ fault. fault ≡ Fault.NoMemory) }
{
    for key in 0..store.keys(asked.base).len() {
        let columns = store.keys(asked.base)[key].as_slice();
        let known = keys_if_named(key, columns, asked, condition, sought, sure, call)?;
        if known.is_some() {
            return Ok(known);
        }
    }
    Ok(None)
}

/// The key with a number, if it has one column, and a condition names the rows of the item by values of it.
fn keys_if_named(
    key: usize,
    columns: &[usize],
    asked: &Asked<'_>,
    condition: &BoundCond,
    sought: &Sought<'_>,
    sure: Sure,
    call: &Context<'_>,
) -> Result<Option<KnownKeys>, Fault>
    ensures named { IfOk result (λ found. IfSome found (λ known. (known.key ≡ key) × IsNamedByOne
        (IsFalseThrough asked.now.through (IsFalseOf sought.now sure call.now.parameters.now call.now.user
        condition.now)) columns.now known.values.items)) }
    ensures memory { IfErr result (λ fault. fault ≡ Fault.NoMemory) }
{
    match columns {
        [column] => {
            let values = values_by_own(*column, asked, condition, sought, sure, call)?;
            Ok(keys_with(key, values))
        }
        _ => Ok(None),
    }
}

/// A key, with values if there are any.
fn keys_with(key: usize, values: Option<Vec<Value>>) -> Option<KnownKeys>
    ensures { IfSome result (λ known. (known.key ≡ key) × (values ≡ Some known.values)) }
{
    match values {
        Some(values) => Some(KnownKeys { key, values }),
        None => None,
    }
}
