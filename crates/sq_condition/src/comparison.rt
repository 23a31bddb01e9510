//! Comparison of values (ISO/IEC 9075:1992, 8.2 and 8.7).

ghost use Rattle.std.specs.Prelude.{◌≡◌, List};
ghost use Rattle.sq_value.specs.Truth.{known};
ghost use Rattle.sq_tree.specs.declared.cond.Quantifier.TheVariants as quantifier;
ghost use Rattle.sq_meaning.specs.Status.{Outcome, and_then};
ghost use Rattle.sq_meaning.specs.Environment.{Row};
ghost use Rattle.sq_meaning.specs.Query as meaning;
ghost use Rattle.sq_expression.specs.Fault.{Means, MeansRows, Meets};
ghost use Rattle.sq_condition.specs.Comparison.{compared_with_found};

use sq_bound::Compared;
use sq_expression::{Failure, Fault};
use sq_tree::Comparison;
use sq_value::{Row, Truth, Value};
use std::cmp::Ordering;

fn holds(comparison: Comparison, order: Ordering) -> bool
    ensures { result ≡ meaning.comparison_holds comparison order }
{
    match comparison {
        Comparison::Equal => order.is_eq(),
        Comparison::NotEqual => order.is_ne(),
        Comparison::Less => order.is_lt(),
        Comparison::Greater => order.is_gt(),
        Comparison::LessOrEqual => order.is_le(),
        Comparison::GreaterOrEqual => order.is_ge(),
    }
}

/// The truth of a comparison of two values, unknown if one is null.
pub(crate) fn compare_values(comparison: Comparison, left: &Value, right: &Value) -> Truth
    ensures { result ≡ meaning.comparison comparison left.now right.now }
{
    match left.cmp3(right) {
        Some(order) => Truth::from(holds(comparison, order)),
        None => Truth::Unknown,
    }
}

/// A value compared with the outcome of a subquery of one column.
pub(crate) fn compared_with_query(
    comparison: Comparison,
    quantifier: Compared,
    left: &Value,
    rows: Result<Vec<Row>, Fault>,
) -> Result<Truth, Fault>
    ensures { (o : Outcome (List Row)) → MeansRows rows o
        → Means result (and_then o (compared_with_found comparison quantifier left.now)) }
{
    let rows = rows?;
    compared_with_rows(comparison, quantifier, left, rows.as_slice())
}

/// Whether a subquery has a row.
pub(crate) fn exists(rows: Result<Vec<Row>, Fault>) -> Result<Truth, Fault>
    ensures { (o : Outcome (List Row)) → MeansRows rows o
        → Means result (and_then o (λ rs. Ok (known (meaning.has_rows rs)))) }
{
    let rows = rows?;
    Ok(Truth::from(!rows.is_empty()))
}

/// A value compared with the rows of a subquery of one column.
pub(crate) fn compared_with_rows(
    comparison: Comparison,
    quantifier: Compared,
    left: &Value,
    rows: &[Row],
) -> Result<Truth, Fault>
    ensures { Meets result (compared_with_found comparison quantifier left.now rows.now) }
{
    match quantifier {
        Compared::Scalar => compared_with_only(comparison, left, rows),
        Compared::All => Ok(compared_with_all(comparison, left, rows)),
        Compared::Any => Ok(compared_with_any(comparison, left, rows)),
    }
}

/// A scalar subquery is null if it has no row, and may not have two.
fn compared_with_only(comparison: Comparison, left: &Value, rows: &[Row]) -> Result<Truth, Fault>
    ensures { Meets result (compared_with_found comparison Compared.Scalar left.now rows.now) }
{
    match rows {
        [] => Ok(Truth::Unknown),
        [row] => Ok(compared_with_row(comparison, left, row)),
        _ => Err(Fault::Status(Failure::CardinalityViolation)),
    }
}

/// True on no rows.
fn compared_with_all(comparison: Comparison, left: &Value, rows: &[Row]) -> Truth
    ensures { result ≡ meaning.compared_with_rows comparison quantifier.All left.now rows.now }
{
    let mut so_far = Truth::True;
    for row in rows {
        so_far = so_far.and(compared_with_row(comparison, left, row));
    }
    so_far
}

/// False on no rows.
fn compared_with_any(comparison: Comparison, left: &Value, rows: &[Row]) -> Truth
    ensures { result ≡ meaning.compared_with_rows comparison quantifier.Any left.now rows.now }
{
    let mut so_far = Truth::False;
    for row in rows {
        so_far = so_far.or(compared_with_row(comparison, left, row));
    }
    so_far
}

fn compared_with_row(comparison: Comparison, left: &Value, row: &Row) -> Truth
    ensures { result ≡ meaning.comparison comparison left.now (meaning.first_value row.now) }
{
    match row.as_slice() {
        [value, ..] => compare_values(comparison, left, value),
        [] => Truth::Unknown,
    }
}
