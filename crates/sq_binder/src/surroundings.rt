//! The surroundings of a part of a query, and its value expressions (ISO/IEC 9075:1992, 8.2 to 8.5).

ghost use Rattle.std.specs.Prelude.{◌≡◌, Err, Ok, if◌then◌else◌};
ghost use Rattle.std.specs.Option.{option_map};
ghost use Rattle.sq_meaning.specs.Spelled.{expr_of};
ghost use Rattle.sq_meaning.specs.WellFormed.{is_comparable};
ghost use Rattle.sq_meaning.specs.declared.fault.BindingFault.TheVariants.{KindMismatch};
ghost use Rattle.sq_binding.specs.Condition as spec;
ghost use Rattle.sq_binding.specs.Seen.{numbered_of};
ghost use Rattle.sq_binding.specs.Select.{value, value_found};
ghost use Rattle.sq_binder.specs.Binds.{broken};
ghost use Rattle.sq_binder.specs.Bound.{bound_of};
ghost use Rattle.sq_binder.specs.Found.{Finds};
ghost use Rattle.sq_binder.specs.Surroundings.{named_table_of, surroundings, typed_of};

use crate::bound::Bound;
use crate::expression::{bind_expr, number_behind};
use crate::found::{Brought, Counts, Found, bring_nothing};
use crate::kinds::{are_comparable, is_text};
use crate::query_findings::QueryFindings;
use crate::scope::Environment;
use crate::stop::Stop;
use crate::typed::Typed;
use sq_bound::{BoundExpr, Column, TablePlace};
use sq_items::Boxed;
use sq_lex::Name;
use sq_meaning::BindingFault;
use sq_tree::Expr;
use sq_value::Kind;

/// The tables that the texts of a user may name.
pub trait Tables {
    ghost use Rattle.sq_binding.specs.From.{NamedTables};

    ghost named: { Self → NamedTables };

    /// The base table or view of this owner and name.
    fn table(&self, user: Name, name: Name) -> Option<NamedTable<'_>>
        ensures { option_map named_table_of result ≡ named self.now (record { user = user; name = name }) };
}

/// A base table or a view: the place of its rows, and its columns. It says whether the user whose text names it holds
/// SELECT on it, and with the grant option.
#[derive(Clone, Copy)]
pub struct NamedTable<'a> {
    pub place: TablePlace,
    pub columns: &'a [Column],
    pub may_select: bool,
    pub may_grant: bool,
}

/// The surroundings of a part of a query.
#[derive(Drop)]
pub struct Surroundings<'a, T> {
    pub tables: &'a T,
    pub environment: &'a Environment<'a>,
    /// Whether set functions may occur here.
    pub functions_allowed: bool,
}

pub type TypedResult = Result<Found<Typed>, Stop>;

pub type TreeResult = Result<Found<BoundExpr>, Stop>;

/// A value expression in a query: its tree and its kind, and its additions to the query, or its first fault.
pub fn value<T: Tables>(expr: &Expr, at: &Surroundings<'_, T>, before: Counts) -> TypedResult
    ensures { Finds typed_of (value (surroundings T.named at.now) (expr_of expr.now)) before result }
{
    let bound = bind_expr(expr, at.environment, at.functions_allowed, before.functions)?;
    found_value(bound, before)
}

/// The tree and the kind of a bound value, and its additions to the query.
fn found_value(bound: Bound, before: Counts) -> TypedResult
    ensures { Finds typed_of (λ counts. Ok (value_found counts (bound_of bound))) before result }
{
    let Some(functions) = number_behind(before.functions, &bound) else {
        drop(bound);
        return Err(Stop::NoMemory);
    };
    let Bound {
        expr,
        kind,
        calls,
        calls_can_fail,
        findings,
    } = bound;
    Ok(Found {
        part: Typed { expr, kind },
        brought: Brought {
            calls,
            calls_can_fail,
            findings: QueryFindings::of_values(findings),
            next: Counts {
                functions,
                subqueries: before.subqueries,
            },
        },
    })
}

/// The tree of a value whose kind passes a test.
fn tree_if(value: Found<Typed>, passes: bool) -> TreeResult
    ensures { result ≡ (if passes
        then Ok (record { part = value.part.expr; brought = value.brought })
        else Err (broken KindMismatch)) }
{
    let Found { part, brought } = value;
    let Typed { expr, kind: _ } = part;
    if passes {
        Ok(Found {
            part: expr,
            brought,
        })
    } else {
        drop(expr);
        drop(brought);
        Err(Stop::broken(BindingFault::KindMismatch))
    }
}

/// A value of a kind that agrees with one before it.
pub fn bind_agreeing<T: Tables>(
    expr: &Expr,
    kind: Kind,
    at: &Surroundings<'_, T>,
    before: Counts,
) -> TreeResult
    ensures { Finds numbered_of
        (spec.agreeing (surroundings T.named at.now) kind (expr_of expr.now)) before result }
{
    let value = value(expr, at, before)?;
    let agrees = are_comparable(kind, value.part.kind);
    tree_if(value, agrees)
}

/// A value that is a text, or else the fault `KindMismatch`.
pub fn bind_text<T: Tables>(expr: &Expr, at: &Surroundings<'_, T>, before: Counts) -> TreeResult
    ensures { Finds numbered_of (spec.text (surroundings T.named at.now) (expr_of expr.now)) before result }
{
    let value = value(expr, at, before)?;
    let is_text = is_text(value.part.kind);
    tree_if(value, is_text)
}

/// An escape character, with which a pattern may be none.
pub fn bind_escape<T: Tables>(
    escape: &Option<Boxed<Expr>>,
    at: &Surroundings<'_, T>,
    before: Counts,
) -> Result<Found<Option<BoundExpr>>, Stop>
    ensures { Finds (option_map numbered_of) (spec.escape_bound (surroundings T.named at.now)
        (option_map expr_of escape.now)) before result }
{
    match escape {
        None => Ok(bring_nothing(at.environment.alloc, None, before)),
        Some(escape) => {
            let Found { part, brought } = bind_text(escape.get(), at, before)?;
            Ok(Found {
                part: Some(part),
                brought: brought.failing(),
            })
        }
    }
}
