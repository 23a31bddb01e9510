//! The expressions by whose values a condition names the rows of an item: what its tests say that a column is equal to, as far as it is known
//! beforehand that they have one value on all lines.

ghost use Rattle.std.specs.Prelude.{◌≡◌, ◌++◌, IfOk, IfSome, OnOk, map};
ghost use Rattle.sq_query.specs.Ways.{IsFoundBy, IsFoundByTest, IsFoundByTests};
ghost use Rattle.sq_query.specs.declared.named.Sure.TheVariants as at_sure;

use crate::asked::Asked;
use crate::named::{Sure, equal_to, is_column_in, is_passed};
use crate::way::How;
use sq_bound::{BoundCond, BoundExpr, BoundTest, Operation, Place, Predicate};
use sq_items::Items;
use std::alloc::{AllocError, Global};
use std::slice::from_ref;

/// An item of a FROM clause, and what is known beforehand of the lines of which its rows are parts.
#[derive(Clone, Copy)]
pub(crate) struct Seen<'l> {
    /// The item's number.
    pub item: usize,
    /// How the rows of all items are found, as far as that is known.
    pub hows: &'l [How],
    /// Whether each FROM clause around has one line at most.
    pub is_within: bool,
}

/// The first of these keys of the base table that is asked for an item by whose columns a condition names the item's rows, by one expression
/// each.
pub(crate) fn named_key(
    alloc: Global,
    keys: &[Items<usize>],
    asked: &Asked<'_>,
    condition: &BoundCond,
    seen: &Seen<'_>,
    sure: Sure,
) -> Result<Option<usize>, AllocError> {
    for (number, key) in keys.iter().enumerate() {
        if is_named(alloc, key.as_slice(), asked, condition, seen, sure)? {
            return Ok(Some(number));
        }
    }
    Ok(None)
}

/// Whether a condition names the rows of an item by one expression for each of these columns of the base table.
fn is_named(
    alloc: Global,
    columns: &[usize],
    asked: &Asked<'_>,
    condition: &BoundCond,
    seen: &Seen<'_>,
    sure: Sure,
) -> Result<bool, AllocError> {
    for column in columns {
        if !is_named_by_one(alloc, asked, condition, *column, seen, sure)? {
            return Ok(false);
        }
    }
    Ok(true)
}

/// Whether a condition names the rows of an item by one expression for a column of the base table.
fn is_named_by_one(
    alloc: Global,
    asked: &Asked<'_>,
    condition: &BoundCond,
    column: usize,
    seen: &Seen<'_>,
    sure: Sure,
) -> Result<bool, AllocError> {
    let Some(shown) = asked.shown(column) else {
        return Ok(false);
    };
    match exprs_by_condition(alloc, condition, shown, seen, sure)? {
        Some(exprs) => Ok(exprs.len() == 1),
        None => Ok(false),
    }
}

/// The first of these keys that has one column, if a condition names the rows of an item by expressions for it.
pub(crate) fn key_of_several(
    alloc: Global,
    keys: &[Items<usize>],
    asked: &Asked<'_>,
    condition: &BoundCond,
    seen: &Seen<'_>,
    sure: Sure,
) -> Result<Option<usize>, AllocError> {
    for (number, key) in keys.iter().enumerate() {
        if is_named_by_several(alloc, key.as_slice(), asked, condition, seen, sure)? {
            return Ok(Some(number));
        }
    }
    Ok(None)
}

/// Whether there is one column of the base table, and a condition names the rows of an item by expressions for it.
fn is_named_by_several(
    alloc: Global,
    columns: &[usize],
    asked: &Asked<'_>,
    condition: &BoundCond,
    seen: &Seen<'_>,
    sure: Sure,
) -> Result<bool, AllocError> {
    match columns {
        [column] => match asked.shown(*column) {
            Some(shown) => is_named_by_some(alloc, condition, shown, seen, sure),
            None => Ok(false),
        },
        _ => Ok(false),
    }
}

/// Whether a condition names the rows of an item by expressions for a column.
pub(crate) fn is_named_by_some(
    alloc: Global,
    condition: &BoundCond,
    column: usize,
    seen: &Seen<'_>,
    sure: Sure,
) -> Result<bool, AllocError> {
    Ok(exprs_by_condition(alloc, condition, column, seen, sure)?.is_some())
}

// ---- expressions

/// The expressions for a column by which a condition names the rows of the item: those by which its terms do, joined by OR.
#[cycle(exprs_by_condition)]
fn exprs_by_condition<'c>(
    alloc: Global,
    condition: &'c BoundCond,
    column: usize,
    seen: &Seen<'_>,
    sure: Sure,
) -> Result<Option<Vec<&'c BoundExpr>>, AllocError>
    ensures { IfOk result (λ found. IfSome found (λ exprs.
        IsFoundBy seen.now.item sure condition.now column (map (λ e. e.now) exprs.items))) }
{
    let mut exprs = Vec::new(alloc);
    for term in condition.terms.as_slice() {
        match exprs_by_tests(alloc, term.tests.as_slice(), column, seen, sure)? {
            Some(more) => add_exprs(more, &mut exprs)?,
            None => return Ok(None),
        }
    }
    Ok(Some(exprs))
}

/// The expressions by the first of these tests, joined by AND, that gives some. A test that may end with a status ends the search.
#[cycle(exprs_by_condition)]
fn exprs_by_tests<'c>(
    alloc: Global,
    tests: &'c [BoundTest],
    column: usize,
    seen: &Seen<'_>,
    sure: Sure,
) -> Result<Option<Vec<&'c BoundExpr>>, AllocError>
    ensures { IfOk result (λ found. IfSome found (λ exprs.
        IsFoundByTests seen.now.item sure tests.now column (map (λ e. e.now) exprs.items))) }
{
    for test in tests {
        let exprs = exprs_by_test(alloc, test, column, seen, sure)?;
        if exprs.is_some() {
            return Ok(exprs);
        }
        if !is_passed(test, sure) {
            return Ok(None);
        }
    }
    Ok(None)
}

#[cycle(exprs_by_condition)]
fn exprs_by_test<'c>(
    alloc: Global,
    test: &'c BoundTest,
    column: usize,
    seen: &Seen<'_>,
    sure: Sure,
) -> Result<Option<Vec<&'c BoundExpr>>, AllocError>
    ensures { IfOk result (λ found. IfSome found (λ exprs.
        IsFoundByTest seen.now.item sure test.now column (map (λ e. e.now) exprs.items))) }
{
    match &test.predicate {
        Predicate::Bracketed(condition) => {
            if test.negated {
                Ok(None)
            } else {
                exprs_by_condition(alloc, condition.get(), column, seen, sure.within(test))
            }
        }
        _ => exprs_by_comparison(alloc, test, column, seen),
    }
}

/// Adds expressions to others.
fn add_exprs<'c>(exprs: Vec<&'c BoundExpr>, all: &mut Vec<&'c BoundExpr>) -> Result<(), AllocError>
    ensures { OnOk result (all.new.items ≡ all.old.items ++ exprs.entry.items) }
{
    let mut more = exprs;
    all.append(&mut more)?;
    Ok(())
}

/// The expressions to which a test compares a column by `=` or IN, if they are known to have one value.
fn exprs_by_comparison<'c>(
    alloc: Global,
    test: &'c BoundTest,
    column: usize,
    seen: &Seen<'_>,
) -> Result<Option<Vec<&'c BoundExpr>>, AllocError>
    ensures { IfOk result (λ found. IfSome found (λ exprs.
        IsFoundByTest seen.now.item at_sure.Unnoted test.now column (map (λ e. e.now) exprs.items))) }
{
    match compared_exprs(test, seen.item, column) {
        Some(exprs) => {
            if are_known(exprs, seen) {
                Ok(Some(lend_each(alloc, exprs)?))
            } else {
                Ok(None)
            }
        }
        None => Ok(None),
    }
}

/// The expressions to which a test compares a column of an item by `=` or IN.
fn compared_exprs(test: &BoundTest, item: usize, column: usize) -> Option<&[BoundExpr]>
    ensures { IfSome result (λ exprs. IsFoundByTest item at_sure.Unnoted test.now column exprs.now) }
{
    match &test.predicate {
        Predicate::InList(is_negated, operand, elements) => {
            if is_column_in(test.negated, *is_negated, operand, item, column) {
                Some(elements.as_slice())
            } else {
                None
            }
        }
        _ => match equal_to(test, item, column) {
            Some(expr) => Some(from_ref(expr)),
            None => None,
        },
    }
}

/// Each expression where it stands.
fn lend_each(alloc: Global, exprs: &[BoundExpr]) -> Result<Vec<&BoundExpr>, AllocError>
    ensures { IfOk result (λ lent. map (λ e. e.now) lent.items ≡ exprs.now) }
{
    let mut lent = Vec::new(alloc);
    for expr in exprs {
        lent.push(lend(expr))?;
    }
    Ok(lent)
}

/// An expression where it stands.
fn lend(expr: &BoundExpr) -> &BoundExpr
    ensures { result.now ≡ expr.now }
{
    expr
}

// ---- what is known beforehand

/// Whether each expression is known to have one value on all lines.
fn are_known(exprs: &[BoundExpr], seen: &Seen<'_>) -> bool {
    exprs.iter().all(|expr| is_known(expr, seen))
}

/// Whether an expression is known to have one value on all lines: it is a column of an item of which one row at most is found, or nothing in
/// it is of an item at all.
fn is_known(expr: &BoundExpr, seen: &Seen<'_>) -> bool {
    match expr {
        BoundExpr::Column(place) => is_known_place(*place, seen),
        _ => is_known_around(expr, seen.is_within),
    }
}

fn is_known_place(place: Place, seen: &Seen<'_>) -> bool {
    if place.depth > 0 {
        seen.is_within
    } else {
        is_one_row(seen.hows, place.item)
    }
}

/// Whether one row at most of an item is found.
pub(crate) fn is_one_row(hows: &[How], item: usize) -> bool {
    match hows.get(item) {
        Some(How::Key(_)) => true,
        _ => false,
    }
}

/// Whether an expression has one value beneath what is around: it is of literals, parameters and, if that is said, of columns around.
#[cycle(is_known_around)]
fn is_known_around(expr: &BoundExpr, is_within: bool) -> bool {
    match expr {
        BoundExpr::Literal(_) | BoundExpr::Parameter(_) | BoundExpr::User => true,
        BoundExpr::Column(place) => place.depth > 0 && is_within,
        BoundExpr::SetFunction(_) => false,
        BoundExpr::Signed(_, operand) => is_known_around(operand.get(), is_within),
        BoundExpr::Operations(first, rest) => {
            is_known_around(first.get(), is_within) && are_known_around(rest.as_slice(), is_within)
        }
    }
}

#[cycle(is_known_around)]
fn are_known_around(operations: &[Operation], is_within: bool) -> bool {
    for operation in operations {
        if !is_known_around(&operation.operand, is_within) {
            return false;
        }
    }
    true
}
