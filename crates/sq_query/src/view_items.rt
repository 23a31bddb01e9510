//! What a query specification outside every query reads of the plain views in its FROM clause: if its WHERE clause names their rows, what they
//! show of these alone.

ghost use Rattle.std.specs.Prelude.{◌≡◌, ◌<◌, ◌++◌, ◌∷◌, ℕ, List, IfErr, IfOk, IfSome, length, option_to_list, true};
ghost use Rattle.sq_bound.specs.Condition.{select_of};
ghost use Rattle.sq_bound.specs.Fits.{keys_of_bases};
ghost use Rattle.sq_bound.specs.declared.condition.BoundSpecification.{BoundSpecification as AnySpecification};
ghost use Rattle.sq_expression.specs.Fault.{IsAnswered};
ghost use Rattle.sq_query.specs.Asked.{AreUnder, IsFalseUnder};
ghost use Rattle.sq_query.specs.Items.{IsNamed, items_of};
ghost use Rattle.sq_query.specs.Named.{IsFalseOf};
ghost use Rattle.sq_query.specs.Needed.{FindsSelect, IsNeeded, ReadsInside};
ghost use Rattle.sq_query.specs.Specification.{IsReadable, IsWhere};
ghost use Rattle.sq_query.specs.ViewItems.{IsShownItem, IsViewAlone, ServeViews, is_shown};
ghost use Rattle.sq_query.specs.declared.named.Sure.TheVariants.{Noted};

use crate::around::{Around, Standing};
use crate::asked::Asked;
use crate::items::is_once;
use crate::lookup::{Lookup, rows_named};
use crate::needed::Needed;
use crate::plain_view::{Underneath, base_under};
use crate::sought::Sought;
use crate::through::rows_through;
use sq_bound::{BoundCond, BoundSpecification, Names, TablePlace};
use sq_expression::{BaseRows, Context, Fault, ViewRows};
use sq_store::{Meter, Store};
use std::alloc::AllocError;

/// What plain views in the FROM clause of a query specification outside every query show of the rows that its WHERE clause names, of each view
/// of which it names some. The rows that were found of base tables may be what names them.
pub(crate) fn views_named<N: Names, S: Store>(
    names: &N,
    query: &BoundSpecification,
    found: &[BaseRows<'_>],
    store: &S,
    call: &Context<'_>,
    meter: &mut Meter,
) -> Result<Vec<ViewRows>, Fault>
    requires { IsReadable (N.base_tables names.now) (N.column_kinds names.now) (S.content_now store.now)
        (S.key_columns store.now) query.now }
    ensures answered { IsAnswered result }
    ensures shown { IfOk result
        (λ shown. ServeViews query.now (N.base_tables names.now) (N.column_kinds names.now)
        (N.view_queries names.now) (S.content_now store.now) call.now.user call.now.parameters.now found.now
        shown.items) }
{
    if !has_view(query.from.tables.as_slice()) {
        return Ok(Vec::new(call.alloc));
    }
    match &query.condition {
        Some(condition) => {
            let inner = Needed::of_subqueries(call.alloc, query)?;
            let shown = shown_items(names, query, condition, &inner, found, store, call, meter);
            drop(inner);
            shown
        }
        None => Ok(Vec::new(call.alloc)),
    }
}

/// Whether one of the tables is a view.
fn has_view(tables: &[TablePlace]) -> bool {
    tables.iter().any(|table| is_view(*table))
}

fn is_view(table: TablePlace) -> bool {
    match table {
        TablePlace::Base(_) => false,
        TablePlace::View(_) => true,
    }
}

/// The same of a query specification with this WHERE clause, whose subqueries read the inner tables.
fn shown_items<N: Names, S: Store>(
    names: &N,
    query: &BoundSpecification,
    condition: &BoundCond,
    inner: &Needed,
    found: &[BaseRows<'_>],
    store: &S,
    call: &Context<'_>,
    meter: &mut Meter,
) -> Result<Vec<ViewRows>, Fault>
    requires readable { IsReadable (N.base_tables names.now) (N.column_kinds names.now)
        (S.content_now store.now)
        (S.key_columns store.now) query.now }
    requires where_clause { IsWhere query.now condition.now }
    requires inside { ReadsInside (IsNeeded inner.now) (select_of query.now) }
    ensures answered { IsAnswered result }
    ensures shown { IfOk result
        (λ shown. ServeViews query.now (N.base_tables names.now) (N.column_kinds names.now)
        (N.view_queries names.now) (S.content_now store.now) call.now.user call.now.parameters.now found.now
        shown.items) }
{
    let mut shown = Vec::new(call.alloc);
    for item in 0..query.from.tables.as_slice().len() {
        let own = shown_item(
            names,
            &*query,
            condition,
            item,
            inner,
            shown.as_slice(),
            &*found,
            store,
            call,
            meter,
        )?;
        shown = with_shown(own, shown)?;
    }
    Ok(shown)
}

/// Before these the rows of a view, if there is one more.
fn with_shown(own: Option<ViewRows>, shown: Vec<ViewRows>) -> Result<Vec<ViewRows>, AllocError>
    ensures { IfOk result (λ all. all.items ≡ option_to_list own ++ shown.items) }
{
    let mut all = shown;
    match own {
        Some(own) => {
            all.insert(0, own)?;
            Ok(all)
        }
        None => Ok(all),
    }
}

/// What the plain view in an item shows of the rows that WHERE names, if it does. All rows of a view are needed that stands elsewhere, too.
fn shown_item<'q, N: Names, S: Store>(
    names: &N,
    query: &'q BoundSpecification,
    condition: &BoundCond,
    item: usize,
    inner: &Needed,
    shown: &[ViewRows],
    found: &'q [BaseRows<'q>],
    store: &S,
    call: &Context<'_>,
    meter: &mut Meter,
) -> Result<Option<ViewRows>, Fault>
    requires finds { FindsSelect (N.base_tables names.now) (N.column_kinds names.now) query.now }
    requires keys { S.key_columns store.now ≡ keys_of_bases (N.base_tables names.now) }
    requires where_clause { IsWhere query.now condition.now }
    requires item { item < length (items_of query.now) }
    ensures answered { IsAnswered result }
    ensures shown { IfOk result (λ own. IfSome own (IsShownItem query.now (N.column_kinds names.now)
        (N.view_queries names.now) (S.content_now store.now) (S.key_columns store.now) call.now.parameters.now
        call.now.user inner.now found.now shown.now)) }
{
    let tables = query.from.tables.as_slice();
    let TablePlace::View(view) = tables[item] else {
        return Ok(None);
    };
    if !is_view_alone(view, item, query, inner, shown) {
        return Ok(None);
    }
    let Some(under) = base_under(call.alloc, names, view)? else {
        return Ok(None);
    };
    let sought = Sought {
        item,
        tables,
        found,
        around: Around {
            standing: Standing::Within,
            lines: None,
        },
    };
    let own = rows_under(&under, condition, &sought, store, call, meter);
    drop(under);
    match own? {
        Some(own) => {
            let rows = rows_through(names, view, &own, call);
            drop(own);
            Ok(Some(rows?))
        }
        None => Ok(None),
    }
}

/// Whether a view stands in this item alone, and in no subquery, and was not shown before.
pub(crate) fn is_view_alone(
    view: usize,
    item: usize,
    query: &BoundSpecification,
    inner: &Needed,
    shown: &[ViewRows],
) -> bool
    requires { item < length (items_of query.now) }
    ensures { result ≡ true → IsViewAlone query.now item view inner.now shown.now }
{
    is_once(TablePlace::View(view), item, query.from.tables.as_slice())
        && !inner.contains(TablePlace::View(view))
        && !is_shown(view, shown)
}

/// Whether the rows of a view are among these.
pub(crate) fn is_shown(view: usize, shown: &[ViewRows]) -> bool
    ensures { result ≡ is_shown view shown.now }
{
    shown.iter().any(|own| own.place == view)
}

/// The rows of the base table under a plain view in an item that a condition names.
fn rows_under<'a, S: Store>(
    under: &Underneath,
    condition: &BoundCond,
    sought: &Sought<'_>,
    store: &'a S,
    call: &Context<'_>,
    meter: &mut Meter,
) -> Result<Option<BaseRows<'a>>, Fault>
    requires { under.now.base < length (S.content_now store.now) }
    ensures found { (queries : List AnySpecification) (views : List ℕ)
        → AreUnder queries views under.now.columns.items
        → IfOk result (λ found. IfSome found (λ own. (own.place ≡ under.now.base) × IsNamed (IsFalseUnder
        queries views (IsFalseOf sought.now Noted call.now.parameters.now call.now.user condition.now))
        (S.content_now store.now) (S.key_columns store.now) own)) }
    ensures memory { IfErr result (λ fault. fault ≡ Fault.NoMemory) }
{
    let asked = Asked {
        base: under.base,
        through: Some(under.columns.as_slice()),
    };
    let lookups = [Lookup::Key, Lookup::Keys, Lookup::Index, Lookup::Walk];
    rows_named(&asked, condition, sought, &lookups, store, call, meter)
}
