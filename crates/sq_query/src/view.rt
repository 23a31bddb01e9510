//! The tables that a statement reads: its base tables, and its views, each evaluated once.

ghost use Rattle.std.specs.Prelude.{◌≡◌, [], ℕ, List, IfOk};
ghost use Rattle.sq_meaning.specs.Environment.{Row};
ghost use Rattle.sq_meaning.specs.Status.{Outcome, each};
ghost use Rattle.sq_bound.specs.Condition.{select_of};
ghost use Rattle.sq_bound.specs.Fits.{AreInDomains};
ghost use Rattle.sq_bound.specs.Noted.{SelectIsNoted};
ghost use Rattle.sq_bound.specs.Numbered.{HaveNumbers, SelectWith};
ghost use Rattle.sq_bound.specs.WellFormed.{BasesAreThere};
ghost use Rattle.sq_bound.specs.declared.condition.TablePlace.{TablePlace};
ghost use Rattle.sq_bound.specs.declared.condition.TablePlace.TheVariants.{Base};
ghost use Rattle.sq_expression.specs.Fault.{HasRows, IsAnswered, IsRight, MeetsAs};
ghost use Rattle.sq_expression.specs.Frame.{view_outcome};
ghost use Rattle.sq_query.specs.Needed.{AreKnown, IsClosed, IsNeeded, NeedsBases, NeedsNone, ReadsSelect};
ghost use Rattle.sq_query.specs.Table.{AreMeant, CanBeRead, ReadsAsMeant, bases_of, rows_among, rows_of_view, rows_read, stored_base};

use crate::needed::{Needed, is_among, view_at};
use crate::table::base_tables;
use sq_bound::{Names, View};
use sq_condition::outermost_rows;
use sq_expression::{BaseRows, Context, Fault, ViewRows};
use sq_lex::Name;
use sq_store::{Meter, Store};
use sq_value::Row;
use std::alloc::{AllocError, Global};

/// The rows of the base tables and views that a statement reads.
#[derive(Drop)]
pub(crate) struct Tables<'a> {
    pub bases: Vec<BaseRows<'a>>,
    pub views: Vec<ViewRows>,
}

/// The rows of the tables that stand in a statement's own FROM clauses, and of those that its views read.
pub(crate) fn tables_of<'a, N: Names, S: Store>(
    names: &N,
    needed: Result<Needed, AllocError>,
    store: &'a S,
    call: &Context<'_>,
    meter: &mut Meter,
) -> Result<Tables<'a>, Fault>
    requires there { BasesAreThere (N.base_tables names.now) (N.column_kinds names.now) }
    requires known { IfOk needed (AreKnown (N.column_kinds names.now)) }
    ensures meant { AreInDomains (N.base_tables names.now) (S.content_now store.now)
        → (tables : TablePlace → Outcome (List Row))
        → AreMeant (N.view_queries names.now) (S.content_now store.now) call.now.user tables
        → IsAnswered result
        × IfOk result (λ read. IfOk needed (λ n. ReadsAsMeant n (rows_read read) tables)) }
    ensures bases { (places : List ℕ) → IfOk needed (NeedsBases places)
        → MeetsAs bases_of result (each (stored_base (S.content_now store.now)) places) }
    ensures none { IfOk needed NeedsNone → meter.new ≡ meter.old }
{
    let mut needed = needed?;
    needed.add_of_views(names)?;
    tables_at(names, &needed, store, call, meter)
}

fn tables_at<'a, N: Names, S: Store>(
    names: &N,
    needed: &Needed,
    store: &'a S,
    call: &Context<'_>,
    meter: &mut Meter,
) -> Result<Tables<'a>, Fault>
    requires there { BasesAreThere (N.base_tables names.now) (N.column_kinds names.now) }
    requires known { AreKnown (N.column_kinds names.now) needed.now }
    ensures meant { AreInDomains (N.base_tables names.now) (S.content_now store.now)
        → (tables : TablePlace → Outcome (List Row))
        → AreMeant (N.view_queries names.now) (S.content_now store.now) call.now.user tables
        → IsClosed (N.view_queries names.now) needed.now → IsAnswered result
        × IfOk result (λ read. ReadsAsMeant needed.now (rows_read read) tables) }
    ensures bases { (places : List ℕ) → NeedsBases places needed.now
        → MeetsAs bases_of result (each (stored_base (S.content_now store.now)) places) }
    ensures none { NeedsNone needed.now → meter.new ≡ meter.old }
{
    let bases = base_tables(call.alloc, store, needed.bases.as_slice(), meter)?;
    match view_tables(call.alloc, names, needed, bases.as_slice(), call.user) {
        Ok(views) => Ok(Tables { bases, views }),
        Err(fault) => {
            drop(bases);
            Err(fault)
        }
    }
}

/// The rows of the needed views. A view names only earlier ones, so they are evaluated by rising places. What a view
/// shows depends on the tables and the user alone, and on no parameter and no query around.
fn view_tables<N: Names>(
    alloc: Global,
    names: &N,
    needed: &Needed,
    bases: &[BaseRows<'_>],
    user: Name,
) -> Result<Vec<ViewRows>, Fault>
    requires there { BasesAreThere (N.base_tables names.now) (N.column_kinds names.now) }
    requires known { AreKnown (N.column_kinds names.now) needed.now }
    ensures answered { IsAnswered result }
    ensures meant { (tables : TablePlace → Outcome (List Row))
        → CanBeRead (N.column_kinds names.now) (N.view_queries names.now) user needed.now tables
        → ((place : ℕ) → IsNeeded needed.now (Base place) → rows_among bases.now [] (Base place)
        ≡ tables (Base place))
        → IfOk result (λ views. ReadsAsMeant needed.now (rows_among bases.now views.items) tables) }
{
    let mut views = Vec::new(alloc);
    for place in 0..=needed.last_view() {
        if is_among(place, needed.views.as_slice()) {
            let view = view_at(names, place);
            views.push(view_rows(alloc, view, place, user, &*bases, views.as_slice())?)?;
        }
    }
    Ok(views)
}

/// The rows of a view, or the status that its query ends with. Only what a statement then reads delivers the status.
pub(crate) fn view_rows<'a>(
    alloc: Global,
    view: &'a View,
    place: usize,
    user: Name,
    bases: &'a [BaseRows<'a>],
    views: &'a [ViewRows],
) -> Result<ViewRows, Fault>
    ensures answered { IsAnswered result }
    ensures place { IfOk result (λ view. view.place ≡ place) }
    ensures meant { (tables : TablePlace → Outcome (List Row)) → SelectIsNoted view.now.query
        → HaveNumbers SelectWith view.now.query
        → ReadsSelect (λ t. rows_among bases.now views.now t ≡ tables t) (select_of view.now.query)
        → IsRight (rows_of_view tables user view.now.query)
        → IfOk result (λ read. view_outcome read.rows.items read.failure
        ≡ rows_of_view tables user view.now.query) }
{
    let context = Context {
        alloc,
        user,
        parameters: &[],
        bases,
        views,
    };
    outcome_of_view(alloc, place, outermost_rows(&view.query, &context))
}

/// What a view's query ended with, unless memory ran out.
fn outcome_of_view(
    alloc: Global,
    place: usize,
    rows: Result<Vec<Row>, Fault>,
) -> Result<ViewRows, Fault>
    ensures answered { IsAnswered result }
    ensures place { IfOk result (λ view. view.place ≡ place) }
    ensures meant { (outcome : Outcome (List Row)) → HasRows rows outcome
        → IfOk result (λ view. view_outcome view.rows.items view.failure ≡ outcome) }
{
    match rows {
        Ok(rows) => Ok(ViewRows {
            place,
            rows,
            failure: None,
        }),
        Err(Fault::Status(failure)) => Ok(ViewRows {
            place,
            rows: Vec::new(alloc),
            failure: Some(failure),
        }),
        Err(Fault::NoMemory) => Err(Fault::NoMemory),
    }
}
