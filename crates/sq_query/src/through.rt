//! What plain views show of some rows of the base table under them.

ghost use Rattle.std.specs.Prelude.{◌≡◌, ◌∷◌, ℕ, List, IfOk, slice_get, Some};
ghost use Rattle.sq_value.specs.declared.value.Value.{Value as AnyValue};
ghost use Rattle.sq_meaning.specs.Status.{Outcome};
ghost use Rattle.sq_meaning.specs.WellFormed.{HasValue};
ghost use Rattle.sq_bound.specs.WellFormed.{BasesAreThere};
ghost use Rattle.sq_bound.specs.declared.condition.BoundSpecification.{BoundSpecification as AnySpecification};
ghost use Rattle.sq_bound.specs.declared.condition.TablePlace.{TablePlace as AnyPlace};
ghost use Rattle.sq_bound.specs.declared.condition.TablePlace.TheVariants as at_place;
ghost use Rattle.sq_expression.specs.Fault.{IsAnswered, IsRight};
ghost use Rattle.sq_expression.specs.Frame.{lent, view_outcome};
ghost use Rattle.sq_query.specs.Shown.{AreRight, IsPath, IsPlainOver, shown_of};
ghost use Rattle.sq_query.specs.Table.{rows_among, rows_of_view};

use crate::needed::view_at;
use crate::plain_view::view_under;
use crate::view::view_rows;
use sq_bound::Names;
use sq_expression::{BaseRows, Context, Fault, ViewRows};
use std::slice::from_ref;

/// What a plain view shows of these rows of the base table under it.
pub(crate) fn rows_through<N: Names>(
    names: &N,
    view: usize,
    own: &BaseRows<'_>,
    call: &Context<'_>,
) -> Result<ViewRows, Fault>
    requires there { BasesAreThere (N.base_tables names.now) (N.column_kinds names.now) }
    requires view { HasValue (N.column_kinds names.now (at_place.View view)) }
    ensures answered { IsAnswered result }
    ensures place { IfOk result (λ shown. shown.place ≡ view) }
    ensures rows { (tables : AnyPlace → Outcome (List (List AnyValue))) (views : List ℕ)
        → IsPath (N.column_kinds names.now) (N.view_queries names.now) (view ∷ views) own.now.place
        → AreRight (lent own.now.rows.items) tables call.now.user (N.view_queries names.now) own.now.place
        (view ∷ views)
        → IfOk result (λ found. view_outcome found.rows.items found.failure
        ≡ shown_of (lent own.now.rows.items) tables call.now.user (N.view_queries names.now) own.now.place
        (view ∷ views)) }
{
    match view_under(&view_at(names, view).query) {
        Some(under) => {
            let between = rows_through(names, under, own, call)?;
            let shown = rows_over(names, view, &[], from_ref(&between), call);
            drop(between);
            shown
        }
        None => rows_over(names, view, from_ref(own), &[], call),
    }
}

/// What a plain view shows over its only table, which is among these.
fn rows_over<N: Names>(
    names: &N,
    view: usize,
    bases: &[BaseRows<'_>],
    views: &[ViewRows],
    call: &Context<'_>,
) -> Result<ViewRows, Fault>
    requires there { BasesAreThere (N.base_tables names.now) (N.column_kinds names.now) }
    requires view { HasValue (N.column_kinds names.now (at_place.View view)) }
    ensures answered { IsAnswered result }
    ensures place { IfOk result (λ shown. shown.place ≡ view) }
    ensures rows { (tables : AnyPlace → Outcome (List (List AnyValue))) (table : AnyPlace)
        → rows_among bases.now views.now table ≡ tables table
        → (shown : AnySpecification) → slice_get (N.view_queries names.now) view ≡ Some shown
        → IsPlainOver shown table → IsRight (rows_of_view tables call.now.user shown)
        → IfOk result (λ found. view_outcome found.rows.items found.failure
        ≡ rows_of_view tables call.now.user shown) }
{
    view_rows(
        call.alloc,
        view_at(names, view),
        view,
        call.user,
        bases,
        views,
    )
}
