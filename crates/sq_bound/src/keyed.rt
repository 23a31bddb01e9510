//! The keys by which conditions name rows of a base table.

ghost use Rattle.std.specs.Prelude.{◌≡◌, ◌<◌, ◌&&◌, ◌↔◌, [], IfSome, IsTrue, MatchOption, None, get_or, length, map, nat_lt};
ghost use Rattle.std.specs.List.{list_all, list_any};
ghost use Rattle.sq_bound.specs.Condition.{test_of};
ghost use Rattle.sq_bound.specs.Expression.{expr_of};
ghost use Rattle.sq_bound.specs.Keyed.{AreEqualled, IsShortest, IsShortestKey, column_named, is_constant, is_literal, names_column, names_one_of, own_column, start_with_key};
ghost use Rattle.sq_bound.specs.Names.{option_all};
ghost use Rattle.sq_tree.specs.declared.cond.Comparison.TheVariants.{Equal};

use crate::condition::{BoundCond, BoundTest, Predicate};
use crate::expression::BoundExpr;
use sq_items::Items;
use sq_tree::Comparison;

/// The key with the fewest columns by which a condition names a row. The condition is one term. Its first tests say
/// `column = x` for the columns of the key, each with a literal or a parameter x.
pub fn shortest_key(keys: &[Items<usize>], condition: &BoundCond) -> Option<usize>
    ensures { IsShortestKey keys.now condition.now result }
{
    match condition.terms.as_slice() {
        [term] => shortest_start(keys, term.tests.as_slice()),
        _ => None,
    }
}

/// The key with the fewest columns that the first tests name.
fn shortest_start(keys: &[Items<usize>], tests: &[BoundTest]) -> Option<usize>
    ensures { IsShortest (λ key. start_with_key key (map (test_of []) tests.now)) keys.now result }
{
    let mut shortest = None;
    for (number, key) in keys.iter().enumerate() {
        if is_better(key.as_slice(), tests, keys, shortest) {
            shortest = Some(number);
        }
    }
    shortest
}

/// Whether the first tests name the columns of a key, which has fewer than the one that is the shortest so far.
fn is_better(
    key: &[usize],
    tests: &[BoundTest],
    keys: &[Items<usize>],
    shortest: Option<usize>,
) -> bool
    requires { IfSome shortest (λ k. k < length keys.now) }
    ensures { result ≡ (start_with_key key.now (map (test_of []) tests.now)
        && option_all (λ k. nat_lt (length key.now) (length (get_or keys.now k []))) shortest) }
{
    starts_with_key(tests, key) && is_shorter(key, keys, shortest)
}

fn is_shorter(key: &[usize], keys: &[Items<usize>], shortest: Option<usize>) -> bool
    requires { IfSome shortest (λ k. k < length keys.now) }
    ensures { result ≡ option_all (λ k. nat_lt (length key.now) (length (get_or keys.now k []))) shortest }
{
    match shortest {
        Some(number) => key.len() < keys[number].len(),
        None => true,
    }
}

/// Whether the first tests name the columns of a key and no other, in any order.
fn starts_with_key(tests: &[BoundTest], key: &[usize]) -> bool
    ensures { result ≡ start_with_key key.now (map (test_of []) tests.now) }
{
    if tests.len() < key.len() {
        return false;
    }
    let first = &tests[..key.len()];
    name_columns_of(first, key) && are_named(key, first)
}

/// Whether each test names a column of the key.
fn name_columns_of(tests: &[BoundTest], key: &[usize]) -> bool
    ensures { result ≡ list_all (λ t. names_one_of key.now (test_of [] t)) tests.now }
{
    tests.iter().all(|test| names_one_of(test, key))
}

fn names_one_of(test: &BoundTest, key: &[usize]) -> bool
    ensures { result ≡ names_one_of key.now (test_of [] test.now) }
{
    key.iter().any(|column| names_column(*column, test))
}

/// Whether each column of the key is named by a test.
fn are_named(key: &[usize], tests: &[BoundTest]) -> bool
    ensures { result ≡ list_all (λ n. list_any (λ t. names_column n (test_of [] t)) tests.now) key.now }
{
    key.iter().all(|column| is_named(*column, tests))
}

fn is_named(column: usize, tests: &[BoundTest]) -> bool
    ensures { result ≡ list_any (λ t. names_column column (test_of [] t)) tests.now }
{
    tests.iter().any(|test| names_column(column, test))
}

fn names_column(column: usize, test: &BoundTest) -> bool
    ensures { result ≡ names_column column (test_of [] test.now) }
{
    column_named(test) == Some(column)
}

/// The column that a test `column = x` names, with a literal or a parameter x.
fn column_named(test: &BoundTest) -> Option<usize>
    ensures { result ≡ column_named (test_of [] test.now) }
{
    let (left, right) = equal_sides(test)?;
    if is_constant(right) {
        own_column(left)
    } else {
        None
    }
}

/// The two sides of a test that says that they are equal.
pub fn equal_sides(test: &BoundTest) -> Option<(&BoundExpr, &BoundExpr)>
    ensures { MatchOption result (column_named (test_of [] test.now) ≡ None)
        (λ sides. AreEqualled test.now sides.0.now sides.1.now) }
{
    let Predicate::Compare(comparison, left, right) = &test.predicate else {
        return None;
    };
    if test.negated || !is_equality(*comparison) {
        return None;
    }
    Some((left, right))
}

/// Whether a comparison operator is `=`.
fn is_equality(comparison: Comparison) -> bool
    ensures { IsTrue result ↔ (comparison ≡ Equal) }
{
    match comparison {
        Comparison::Equal => true,
        _ => false,
    }
}

/// The column of the row that an expression is.
pub fn own_column(expr: &BoundExpr) -> Option<usize>
    ensures { result ≡ own_column (expr_of [] expr.now) }
{
    match expr {
        BoundExpr::Column(place) => {
            if place.depth == 0 {
                Some(place.column)
            } else {
                None
            }
        }
        BoundExpr::Operations(first, rest) => {
            if rest.is_empty() {
                own_column(first.get())
            } else {
                None
            }
        }
        _ => None,
    }
}

/// Whether an expression is a literal, with or without a sign, or a parameter. A condition on rows has no set function.
fn is_constant(expr: &BoundExpr) -> bool
    ensures { result ≡ is_constant (expr_of [] expr.now) }
{
    match expr {
        BoundExpr::Literal(_) | BoundExpr::Parameter(_) | BoundExpr::SetFunction(_) => true,
        BoundExpr::Signed(_, operand) => is_literal(operand.get()),
        BoundExpr::Operations(first, rest) => rest.is_empty() && is_constant(first.get()),
        BoundExpr::User | BoundExpr::Column(_) => false,
    }
}

fn is_literal(expr: &BoundExpr) -> bool
    ensures { result ≡ is_literal (expr_of [] expr.now) }
{
    match expr {
        BoundExpr::Literal(_) => true,
        BoundExpr::Operations(first, rest) => rest.is_empty() && is_literal(first.get()),
        BoundExpr::Parameter(_)
        | BoundExpr::User
        | BoundExpr::Column(_)
        | BoundExpr::SetFunction(_) => false,
        BoundExpr::Signed(..) => false,
    }
}
