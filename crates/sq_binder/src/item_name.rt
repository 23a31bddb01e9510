//! The name of the column that a select item is, if it is one (ISO/IEC 9075:1992, 7.9).

ghost use Rattle.std.specs.Prelude.{◌≡◌};
ghost use Rattle.std.specs.Option.{option_map};
ghost use Rattle.sq_meaning.specs.SortKeys.{item_name};
ghost use Rattle.sq_meaning.specs.Spelled.{expr_of, factor_of, term_of};

use sq_lex::Name;
use sq_tree::{ColumnReference, Expr, Factor, Primary, Term};

/// The name of the column that a select item is, if it is one.
pub fn name_of(expr: &Expr) -> Option<Name>
    ensures { result ≡ item_name (expr_of expr.now) }
{
    match reference_of(expr) {
        Some(reference) => Some(reference.column),
        None => None,
    }
}

/// The column reference that a select item is: without a sign or brackets.
fn reference_of(expr: &Expr) -> Option<&ColumnReference>
    ensures { item_name (expr_of expr.now) ≡ option_map (λ r. r.now.column) result }
{
    if expr.rest.is_empty() {
        term_reference(&expr.first)
    } else {
        None
    }
}

/// The column reference that a term is.
fn term_reference(term: &Term) -> Option<&ColumnReference>
    ensures { item_name (term_of term.now) ≡ option_map (λ r. r.now.column) result }
{
    if term.rest.is_empty() {
        factor_reference(&term.first)
    } else {
        None
    }
}

/// The column reference that a factor is.
fn factor_reference(factor: &Factor) -> Option<&ColumnReference>
    ensures { item_name (factor_of factor.now) ≡ option_map (λ r. r.now.column) result }
{
    if factor.sign.is_some() {
        return None;
    }
    match &factor.primary {
        Primary::Column(reference) => Some(reference),
        _ => None,
    }
}
