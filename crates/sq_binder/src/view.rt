//! Views (ISO/IEC 9075:1992, 11.19).

ghost use Rattle.std.specs.Prelude.{◌≡◌, IfOk, IfSome};
ghost use Rattle.std.specs.Option.{option_map};
ghost use Rattle.sq_meaning.specs.Spelled.{select_of};
ghost use Rattle.sq_binding.specs.Seen.{select_seen};
ghost use Rattle.sq_binding.specs.View as spec;
ghost use Rattle.sq_binder.specs.Binds.{Binds};
ghost use Rattle.sq_binder.specs.Found.{found_of};
ghost use Rattle.sq_binder.specs.Surroundings.{surroundings};
ghost use Rattle.sq_binder.specs.Names.{IsUnder, names_at, user_names};
ghost use Rattle.sq_binding.specs.SeenQuery.{table_named, updatable_seen};
ghost use Rattle.sq_binder.specs.View.{view_seen};

use crate::names::ChangeableTables;
use crate::updatable::{Over, bind_updatable};
use crate::whole::at_first;
use crate::{Environment, Found, Stop, Surroundings, bind_select};
use sq_bound::BoundSpecification;
use sq_lex::Name;
use sq_tree::QuerySpecification;
use std::alloc::Global;

/// The query of a view, and its base table if it is updatable.
#[derive(Drop)]
pub struct BoundView {
    pub query: BoundSpecification,
    pub updatable: Option<Over>,
    /// Whether the user holds SELECT on all tables that the query names.
    pub may_select: bool,
    /// Whether the user holds it on all of them with the grant option.
    pub may_grant_select: bool,
}

pub type ViewResult = Result<BoundView, Stop>;

/// The query of a view of this user. A missing privilege is no fault of it.
pub fn bind_view<T: ChangeableTables>(
    alloc: Global,
    query: &QuerySpecification,
    tables: &T,
    user: Name,
) -> ViewResult
    ensures binds { Binds view_seen (spec.view_bound
        (user_names user (T.named tables.now) (T.changes tables.now)) (select_of user query.now)) result }
    ensures under { IfOk result (λ view. IfSome view.updatable
        (λ over. IsUnder (T.changes tables.now) (table_named over.0) over.1.target.leaf)) }
{
    let environment = Environment::new(alloc, user, &[]);
    let at = Surroundings {
        tables,
        environment: &environment,
        functions_allowed: false,
    };
    view_over(query, &at)
}

fn view_over<T: ChangeableTables>(
    query: &QuerySpecification,
    at: &Surroundings<'_, T>,
) -> ViewResult
    ensures binds { Binds view_seen
        (spec.view_over (names_at T.named T.changes at.now) (surroundings T.named at.now)
        (select_of at.now.environment.now.user query.now)) result }
    ensures under { IfOk result (λ view. IfSome view.updatable
        (λ over. IsUnder (T.changes at.now.tables.now) (table_named over.0) over.1.target.leaf)) }
{
    let found = bind_select(&query.table, query.quantifier, &query.list, at, at_first())?;
    match bind_updatable(query, &found.part, at, found.brought.next.first()) {
        Ok(over) => Ok(view_of(found, over)),
        Err(stop) => {
            drop(found);
            Err(stop)
        }
    }
}

fn view_of(query: Found<BoundSpecification>, over: Found<Option<Over>>) -> BoundView
    ensures view { view_seen result ≡ spec.view_of (found_of select_seen query)
        (found_of (option_map updatable_seen) over) }
    ensures over { result.updatable ≡ over.part }
{
    let Found { part, brought } = query;
    let Found {
        part: updatable,
        brought: more,
    } = over;
    let findings = brought.findings;
    drop(brought);
    drop(more);
    BoundView {
        query: part,
        updatable,
        may_select: !findings.lacks_privilege,
        may_grant_select: !findings.lacks_grant_option,
    }
}
