//! What a query specification outside every query reads: of the base tables that are looked up, in its items and in its subqueries, the rows
//! that are found, and all rows of the other tables.

ghost use Rattle.std.specs.Prelude.{◌≡◌, ◌++◌, [], IfErr, IfOk};
ghost use Rattle.sq_expression.specs.Fault.{IsAnswered};
ghost use Rattle.sq_query.specs.Known.{ServesOutside};
ghost use Rattle.sq_query.specs.Specification.{HasTables, IsReadable};
ghost use Rattle.sq_query.specs.Sought.{nothing_around};

use crate::around::{Around, Standing};
use crate::elsewhere::with_subqueries;
use crate::inner::{with_select, with_where};
use crate::items::rows_by_lookups;
use crate::known::{compares_with_subquery, with_known};
use crate::lookup::Lookup;
use crate::needed::Needed;
use crate::view::{Tables, tables_of};
use crate::view_items::views_named;
use sq_bound::{BoundSpecification, Names};
use sq_expression::{BaseRows, Context, Fault, ViewRows};
use sq_store::{Meter, Store};

/// The tables that a query specification outside every query reads: of a base table in its FROM clause the rows that its WHERE clause
/// names, if it names some.
pub(crate) fn tables_of_items<'a, N: Names, S: Store>(
    names: &N,
    query: &BoundSpecification,
    store: &'a S,
    call: &Context<'_>,
    meter: &mut Meter,
) -> Result<Tables<'a>, Fault>
    requires { IsReadable (N.base_tables names.now) (N.column_kinds names.now) (S.content_now store.now)
        (S.key_columns store.now) query.now }
    ensures { HasTables result (N.base_tables names.now) (N.view_queries names.now)
        (N.column_kinds names.now) (S.content_now store.now) call.now.user call.now.parameters.now query.now }
{
    let found = rows_looked_up(query, store, call, meter)?;
    let shown = views_named(names, query, found.as_slice(), store, call, meter)?;
    let others = Needed::of_specification(call.alloc, query)?;
    let left = others
        .without(found.as_slice())
        .without_views(shown.as_slice());
    let tables = tables_of(names, Ok(left), store, call, meter)?;
    with_views(shown, with_bases(found, tables)?)
}

/// The rows of the base tables that are looked up. What rows of a subquery name comes before lookups by columns that are no key.
fn rows_looked_up<'a, S: Store>(
    query: &BoundSpecification,
    store: &'a S,
    call: &Context<'_>,
    meter: &mut Meter,
) -> Result<Vec<BaseRows<'a>>, Fault>
    ensures found { IfOk result (λ found. ServesOutside query.now (S.content_now store.now)
        (S.key_columns store.now) call.now.parameters.now call.now.user [] found.items) }
    ensures memory { IfErr result (λ fault. fault ≡ Fault.NoMemory) }
{
    let around = Around {
        standing: Standing::Within,
        lines: None,
    };
    let nowhere = Needed::new(call.alloc);
    let first = rows_by_subqueries(query, &nowhere, &around, store, call, meter)?;
    let found = with_select(query, &nowhere, &around, first, store, call, meter);
    drop(nowhere);
    found
}

/// Where a test compares a column with a subquery: the rows that values of keys name, those of the tables of subqueries, and those that the
/// rows of subqueries name.
fn rows_by_subqueries<'a, S: Store>(
    query: &BoundSpecification,
    nowhere: &Needed,
    around: &Around<'_, '_>,
    store: &'a S,
    call: &Context<'_>,
    meter: &mut Meter,
) -> Result<Vec<BaseRows<'a>>, Fault>
    requires { around.now ≡ nothing_around }
    ensures found { IfOk result (λ found. ServesOutside query.now (S.content_now store.now)
        (S.key_columns store.now) call.now.parameters.now call.now.user [] found.items) }
    ensures memory { IfErr result (λ fault. fault ≡ Fault.NoMemory) }
{
    let none = Vec::new(call.alloc);
    if !compares_with_subquery(query) {
        return Ok(none);
    }
    let others = with_subqueries(call.alloc, nowhere, query)?;
    let keys = [Lookup::Key, Lookup::Keys];
    let own = rows_by_lookups(query, &others, &keys, around, none, store, call, meter)?;
    drop(others);
    let inside = with_where(query, nowhere, around, own, store, call, meter)?;
    with_known(query, inside, store, call, meter)
}

// ---- the tables that are left

/// Base tables, and the tables behind them.
pub(crate) fn with_bases<'a>(
    found: Vec<BaseRows<'a>>,
    tables: Tables<'a>,
) -> Result<Tables<'a>, Fault>
    ensures answered { IsAnswered result }
    ensures bases { IfOk result (λ all. all.bases.items ≡ found.entry.items ++ tables.entry.bases.items) }
    ensures views { IfOk result (λ all. all.views.items ≡ tables.entry.views.items) }
{
    let Tables { mut bases, views } = tables;
    let mut all = found;
    all.append(&mut bases)?;
    drop(bases);
    Ok(Tables { bases: all, views })
}

/// Views, and the tables behind them.
fn with_views<'a>(shown: Vec<ViewRows>, tables: Tables<'a>) -> Result<Tables<'a>, Fault>
    ensures answered { IsAnswered result }
    ensures bases { IfOk result (λ all. all.bases.items ≡ tables.entry.bases.items) }
    ensures views { IfOk result (λ all. all.views.items ≡ shown.items ++ tables.entry.views.items) }
{
    let Tables { bases, mut views } = tables;
    let mut all = shown;
    all.append(&mut views)?;
    drop(views);
    Ok(Tables { bases, views: all })
}
