//! Where a query ends inside the queries of its views.

ghost use Rattle.std.specs.Prelude.{◌≡◌, ◌∷◌, [], List, IfOk, IfSome, IsSomeAnd, true};
ghost use Rattle.sq_value.specs.declared.value.Value.{Value as AnyValue};
ghost use Rattle.sq_bound.specs.Fits.{keys_of_bases, not_nulls_hold};
ghost use Rattle.sq_bound.specs.WellFormed.{BasesAreThere};
ghost use Rattle.sq_query.specs.Needed.{FindsSelect};
ghost use Rattle.sq_ending.specs.Ending.{IsQueryEnd};
ghost use Rattle.sq_ending.specs.Inside.{EndsInThere, EndsInside, IsViewOf, OverAll};
ghost use Rattle.sq_ending.specs.Read.{known_by};

use crate::ending::query_end;
use crate::ends::{Clause, QueryEnd};
use crate::read::view_at;
use sq_bound::{BoundSpecification, Names, TablePlace, View};
use sq_lex::Name;
use sq_query::Inputs;
use sq_store::Store;
use std::alloc::{AllocError, Global};

/// Where a query ends, in a clause of its own or of the query of a view.
#[derive(Drop)]
pub struct InnerEnd {
    /// The places of the views whose queries are gone into, from outside in: none if the query ends in a clause of its own.
    pub views: Vec<usize>,
    /// Where the last of these queries ends.
    pub end: QueryEnd,
}

/// Where a query specification inside no other query ends. If the query of a view ends, it is gone into, as far as its own end is found.
#[cycle(inner_end)]
pub fn inner_end<N: Names, S: Store>(
    alloc: Global,
    names: &N,
    query: &BoundSpecification,
    store: &S,
    inputs: Inputs<'_>,
) -> Result<Option<InnerEnd>, AllocError>
    requires finds { FindsSelect (N.base_tables names.now) (N.column_kinds names.now) query.now }
    requires keys { S.key_columns store.now ≡ keys_of_bases (N.base_tables names.now) }
    requires not_null { not_nulls_hold (N.base_tables names.now) (S.content_now store.now) ≡ true }
    ensures { IfOk result (EndsInside
        (known_by (N.base_tables names.now) (N.view_queries names.now) (N.column_kinds names.now))
        (S.content_now store.now) inputs.entry.user inputs.entry.parameters.now query.now) }
{
    let lent = Inputs {
        user: inputs.user,
        parameters: &*inputs.parameters,
    };
    match query_end(alloc, names, query, store, lent) {
        Ok(Some(end)) => end_within(alloc, names, query, end, store, inputs.user),
        Ok(None) => Ok(None),
        Err(error) => Err(error),
    }
}

/// Where a query specification that ends there ends inside the query of a view.
#[cycle(inner_end)]
fn end_within<N: Names, S: Store>(
    alloc: Global,
    names: &N,
    query: &BoundSpecification,
    end: QueryEnd,
    store: &S,
    user: Name,
) -> Result<Option<InnerEnd>, AllocError>
    requires there { BasesAreThere (N.base_tables names.now) (N.column_kinds names.now) }
    requires keys { S.key_columns store.now ≡ keys_of_bases (N.base_tables names.now) }
    requires not_null { not_nulls_hold (N.base_tables names.now) (S.content_now store.now) ≡ true }
    ensures { (values : List AnyValue) → IfOk result (λ found. OverAll
        (known_by (N.base_tables names.now) (N.view_queries names.now) (N.column_kinds names.now))
        (S.content_now store.now) user values query.now
        (λ seen. IsQueryEnd seen query.now end
        → EndsInThere (N.view_queries names.now) seen query.now found)) }
{
    match view_of(names, query, end.end.clause) {
        Some(view) => {
            let inputs = Inputs {
                user,
                parameters: &[],
            };
            match inner_end(alloc, names, &view.query, store, inputs) {
                Ok(Some(inner)) => {
                    drop(end);
                    through(view.place, inner)
                }
                Ok(None) => Ok(Some(here(alloc, end))),
                Err(error) => {
                    drop(end);
                    Err(error)
                }
            }
        }
        None => Ok(Some(here(alloc, end))),
    }
}

/// The view that is the item of FROM in which a query specification ends.
fn view_of<'a, N: Names>(
    names: &'a N,
    query: &BoundSpecification,
    clause: Clause,
) -> Option<&'a View>
    requires { BasesAreThere (N.base_tables names.now) (N.column_kinds names.now) }
    ensures { IfSome result (λ view. IsViewOf
        (known_by (N.base_tables names.now) (N.view_queries names.now) (N.column_kinds names.now))
        query.now clause view.now) }
{
    match clause {
        Clause::From(item) => match query.from.tables.as_slice().get(item) {
            Some(TablePlace::View(place)) => view_at(names, *place),
            _ => None,
        },
        Clause::Where
        | Clause::Item(_)
        | Clause::Operand(_)
        | Clause::SetFunction(_)
        | Clause::Having
        | Clause::GroupItem(_) => None,
    }
}

/// The query itself ends there.
fn here(alloc: Global, end: QueryEnd) -> InnerEnd
    ensures views { result.views.items ≡ [] }
    ensures end { result.end ≡ end }
{
    InnerEnd {
        views: Vec::new(alloc),
        end,
    }
}

/// The query ends inside the query of the view at this place.
fn through(place: usize, inner: InnerEnd) -> Result<Option<InnerEnd>, AllocError>
    ensures { IfOk result (λ found. IsSomeAnd found
        (λ all. (all.views.items ≡ place ∷ inner.views.items) × (all.end ≡ inner.end))) }
{
    let InnerEnd { mut views, end } = inner;
    views.insert(0, place)?;
    Ok(Some(InnerEnd { views, end }))
}
