//! The tables that a query reads: its base tables, and its views, each evaluated once.

ghost use Rattle.std.specs.Prelude.{◌≡◌, ◌<◌, [], List, IfOk, IfSome, IsSome, OnOk, Some, length, nat_eq, slice_get, true};
ghost use Rattle.std.specs.List.{AllByRecursion, list_any};
ghost use Rattle.sq_store.specs.Content.{table_at};
ghost use Rattle.sq_meaning.specs.Environment.{Row as AnyRow};
ghost use Rattle.sq_meaning.specs.Status.{Outcome};
ghost use Rattle.sq_meaning.specs.Tables.{rows_in};
ghost use Rattle.sq_meaning.specs.WellFormed.{HasValue};
ghost use Rattle.sq_bound.specs.Fits.{AreInDomains, keys_of_bases, not_nulls_hold};
ghost use Rattle.sq_bound.specs.WellFormed.{BasesAreThere, IsSelect, before_view};
ghost use Rattle.sq_bound.specs.declared.condition.TablePlace.{TablePlace as AnyPlace};
ghost use Rattle.sq_bound.specs.declared.condition.TablePlace.TheVariants as at_place;
ghost use Rattle.sq_expression.specs.Fault.{HasRows};
ghost use Rattle.sq_expression.specs.Frame.{lent, view_outcome};
ghost use Rattle.sq_query.specs.Table.{AreMeant};
ghost use Rattle.sq_ending.specs.Read.{AreRight, AreShown, AreStored, HasMore, IsThere, known_by};

use sq_bound::{Names, TableBody, TablePlace, View};
use sq_expression::{BaseRows, Fault, ViewRows};
use sq_lex::Name;
use sq_query::{Inputs, specification_rows};
use sq_store::{Meter, Store};
use sq_value::Row;
use std::alloc::{AllocError, Global};

/// The rows of the base tables and views that a query reads.
#[derive(Drop)]
pub(crate) struct Tables<'a> {
    pub bases: Vec<BaseRows<'a>>,
    pub views: Vec<ViewRows>,
}

/// The rows of these tables, as the user sees them.
pub(crate) fn tables_read<'a, N: Names, S: Store>(
    alloc: Global,
    names: &N,
    tables: &[TablePlace],
    store: &'a S,
    user: Name,
) -> Result<Tables<'a>, AllocError>
    requires there { BasesAreThere (N.base_tables names.now) (N.column_kinds names.now) }
    requires keys { S.key_columns store.now ≡ keys_of_bases (N.base_tables names.now) }
    requires not_null { not_nulls_hold (N.base_tables names.now) (S.content_now store.now) ≡ true }
    ensures right { IfOk result
        (AreRight (known_by (N.base_tables names.now) (N.view_queries names.now) (N.column_kinds names.now))
        (S.content_now store.now) user) }
    ensures there { IfOk result (λ read. AllByRecursion (IsThere read) tables.now) }
{
    let mut read = Tables {
        bases: Vec::new(alloc),
        views: Vec::new(alloc),
    };
    for table in tables {
        read.add(alloc, names, *table, store, user)?;
    }
    Ok(read)
}

impl<'a> Tables<'a> {
    /// Reads a table that was not read yet.
    fn add<N: Names, S: Store>(
        &mut self,
        alloc: Global,
        names: &N,
        table: TablePlace,
        store: &'a S,
        user: Name,
    ) -> Result<(), AllocError>
        requires there { BasesAreThere (N.base_tables names.now) (N.column_kinds names.now) }
        requires keys { S.key_columns store.now ≡ keys_of_bases (N.base_tables names.now) }
        requires not_null { not_nulls_hold (N.base_tables names.now) (S.content_now store.now) ≡ true }
        ensures right { AreRight
            (known_by (N.base_tables names.now) (N.view_queries names.now) (N.column_kinds names.now))
            (S.content_now store.now) user self.old
            → OnOk result (AreRight
            (known_by (N.base_tables names.now) (N.view_queries names.now) (N.column_kinds names.now))
            (S.content_now store.now) user self.new) }
        ensures there { OnOk result (IsThere self.new table) }
        ensures more { OnOk result (HasMore self.old self.new) }
    {
        match table {
            TablePlace::Base(place) => self.add_base(alloc, place, store),
            TablePlace::View(place) => self.add_view(alloc, names, place, store, user),
        }
    }

    fn add_base<S: Store>(
        &mut self,
        alloc: Global,
        place: usize,
        store: &'a S,
    ) -> Result<(), AllocError>
        ensures right { AllByRecursion (AreStored (S.content_now store.now)) self.old.bases.items
            → OnOk result (AllByRecursion (AreStored (S.content_now store.now)) self.new.bases.items) }
        ensures views { self.new.views ≡ self.old.views }
        ensures there { OnOk result (IsThere self.new (at_place.Base place)) }
        ensures more { OnOk result (HasMore self.old self.new) }
    {
        if !self.has_base(place) {
            let rows = base_rows(alloc, store, place)?;
            self.bases.push(BaseRows { place, rows })?;
        }
        Ok(())
    }

    fn has_base(&self, place: usize) -> bool
        ensures { result ≡ list_any (λ b. nat_eq b.place place) self.now.bases.items }
    {
        self.bases.iter().any(|base| base.place == place)
    }

    fn add_view<N: Names, S: Store>(
        &mut self,
        alloc: Global,
        names: &N,
        place: usize,
        store: &S,
        user: Name,
    ) -> Result<(), AllocError>
        requires there { BasesAreThere (N.base_tables names.now) (N.column_kinds names.now) }
        requires keys { S.key_columns store.now ≡ keys_of_bases (N.base_tables names.now) }
        requires not_null { not_nulls_hold (N.base_tables names.now) (S.content_now store.now) ≡ true }
        ensures right { AllByRecursion (AreShown
            (known_by (N.base_tables names.now) (N.view_queries names.now) (N.column_kinds names.now))
            (S.content_now store.now) user) self.old.views.items
            → OnOk result (AllByRecursion (AreShown
            (known_by (N.base_tables names.now) (N.view_queries names.now) (N.column_kinds names.now))
            (S.content_now store.now) user) self.new.views.items) }
        ensures bases { self.new.bases ≡ self.old.bases }
        ensures there { OnOk result (IsThere self.new (at_place.View place)) }
        ensures more { OnOk result (HasMore self.old self.new) }
    {
        if !self.has_view(place) {
            let view = view_rows(alloc, names, place, store, user)?;
            self.views.push(view)?;
        }
        Ok(())
    }

    fn has_view(&self, place: usize) -> bool
        ensures { result ≡ list_any (λ v. nat_eq v.place place) self.now.views.items }
    {
        self.views.iter().any(|view| view.place == place)
    }
}

/// The rows of a base table, by rising numbers.
fn base_rows<'a, S: Store>(
    alloc: Global,
    store: &'a S,
    table: usize,
) -> Result<Vec<&'a Row>, AllocError>
    ensures { table < length (S.content_now store.now)
        → IfOk result (λ rows. lent rows.items ≡ rows_in (table_at (S.content_now store.now) table)) }
{
    if table < store.table_count() {
        rows_of_table(alloc, store, table)
    } else {
        Ok(Vec::new(alloc))
    }
}

/// The rows of a base table of the store, by rising numbers.
fn rows_of_table<'a, S: Store>(
    alloc: Global,
    store: &'a S,
    table: usize,
) -> Result<Vec<&'a Row>, AllocError>
    requires { table < length (S.content_now store.now) }
    ensures { IfOk result (λ rows. lent rows.items ≡ rows_in (table_at (S.content_now store.now) table)) }
{
    let mut rows = Vec::new(alloc);
    let mut number = 0;
    let mut uncounted = Meter::new();
    while let Some((found, row)) = store.next_from(table, number, &mut uncounted) {
        rows.push(row)?;
        number = found + 1;
    }
    Ok(rows)
}

/// The rows of the view at a place, or the status that its query ends with.
fn view_rows<N: Names, S: Store>(
    alloc: Global,
    names: &N,
    place: usize,
    store: &S,
    user: Name,
) -> Result<ViewRows, AllocError>
    requires there { BasesAreThere (N.base_tables names.now) (N.column_kinds names.now) }
    requires keys { S.key_columns store.now ≡ keys_of_bases (N.base_tables names.now) }
    requires not_null { not_nulls_hold (N.base_tables names.now) (S.content_now store.now) ≡ true }
    ensures place { IfOk result (λ view. view.place ≡ place) }
    ensures rows { IfOk result
        (AreShown (known_by (N.base_tables names.now) (N.view_queries names.now) (N.column_kinds names.now))
        (S.content_now store.now) user) }
{
    match view_at(names, place) {
        Some(view) => view_outcome(alloc, place, rows_of_view(alloc, names, view, store, user)),
        None => Ok(ViewRows {
            place,
            rows: Vec::new(alloc),
            failure: None,
        }),
    }
}

/// The view at a place, if it is known.
pub(crate) fn view_at<N: Names>(names: &N, place: usize) -> Option<&View>
    requires there { BasesAreThere (N.base_tables names.now) (N.column_kinds names.now) }
    ensures there { HasValue (N.column_kinds names.now (at_place.View place)) → IsSome result }
    ensures place { IfSome result (λ view. view.now.place ≡ place) }
    ensures well_formed { IfSome result
        (λ view. IsSelect (before_view view.now.place (N.column_kinds names.now)) [] [] view.now.query) }
    ensures among { IfSome result
        (λ view. slice_get (N.view_queries names.now) view.now.place ≡ Some view.now.query) }
{
    match names.at(TablePlace::View(place)) {
        Some(table) => match &table.body {
            TableBody::View(view) => Some(view),
            TableBody::Base(_) => None,
        },
        None => None,
    }
}

/// The rows of a view's query, which reads no parameter.
fn rows_of_view<N: Names, S: Store>(
    alloc: Global,
    names: &N,
    view: &View,
    store: &S,
    user: Name,
) -> Result<Vec<Row>, Fault>
    requires there { BasesAreThere (N.base_tables names.now) (N.column_kinds names.now) }
    requires keys { S.key_columns store.now ≡ keys_of_bases (N.base_tables names.now) }
    requires not_null { not_nulls_hold (N.base_tables names.now) (S.content_now store.now) ≡ true }
    requires well_formed { IsSelect (before_view view.now.place (N.column_kinds names.now)) [] []
        view.now.query }
    requires among { slice_get (N.view_queries names.now) view.now.place ≡ Some view.now.query }
    ensures { AreInDomains (N.base_tables names.now) (S.content_now store.now)
        → (tables : AnyPlace → Outcome (List AnyRow))
        → AreMeant (N.view_queries names.now) (S.content_now store.now) user tables
        → HasRows result (tables (at_place.View view.now.place)) }
{
    let inputs = Inputs {
        user,
        parameters: &[],
    };
    specification_rows(alloc, names, &view.query, store, inputs, &mut Meter::new())
}

/// What a view's query ended with, unless memory ran out.
fn view_outcome(
    alloc: Global,
    place: usize,
    rows: Result<Vec<Row>, Fault>,
) -> Result<ViewRows, AllocError>
    ensures place { IfOk result (λ view. view.place ≡ place) }
    ensures meant { (outcome : Outcome (List AnyRow)) → HasRows rows outcome
        → IfOk result (λ view. view_outcome view.rows.items view.failure ≡ outcome) }
{
    match rows {
        Ok(rows) => Ok(ViewRows {
            place,
            rows,
            failure: None,
        }),
        Err(Fault::Status(failure)) => Ok(ViewRows {
            place,
            rows: Vec::new(alloc),
            failure: Some(failure),
        }),
        Err(Fault::NoMemory) => Err(AllocError),
    }
}
