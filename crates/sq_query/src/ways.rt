//! How the rows of each table that a statement reads are found, as far as it is known before any call. A way is sure if no value is null with
//! which columns are compared, and each has a value: then no more rows are read than it says. Fewer may be.

ghost use Rattle.std.specs.Prelude.{◌≡◌, IfOk};
ghost use Rattle.std.specs.List.{AllByRecursion};
ghost use Rattle.sq_bound.specs.Joined.{specifications_of, term_specifications};
ghost use Rattle.sq_query.specs.Needed.{FindsSelect};

use crate::asked::itself;
use crate::elsewhere::{beside_term, beside_test, with_around, with_lines_of, with_subqueries};
use crate::item_hows::{how_of_base, hows_of_items, hows_with_views};
use crate::lookup::Lookup;
use crate::named::Sure;
use crate::named_exprs::{Seen, is_one_row};
use crate::needed::Needed;
use crate::single_row::has_query_in_having;
use crate::specification::over_base;
use crate::way::{How, KeyPlace, Way};
use sq_bound::{
    BaseTable, BoundCond, BoundConj, BoundQuery, BoundSpecification, BoundTerm, Names, Predicate,
    TablePlace, Target, shortest_key,
};
use std::alloc::{AllocError, Global};

/// What stands around a query specification or a condition.
#[derive(Clone, Copy)]
struct Beneath<'l> {
    /// The tables that other parts of the statement read.
    elsewhere: &'l Needed,
    /// Whether rows are looked up by keys there.
    by_keys: bool,
    /// Whether each FROM clause around has one line at most.
    is_within: bool,
}

/// How the rows of the tables of a query expression are found: of each query specification in it, in the order of the text.
pub fn ways_of_query<N: Names>(
    alloc: Global,
    names: &N,
    query: &BoundQuery,
) -> Result<Vec<Way>, AllocError>
    requires { AllByRecursion (FindsSelect (N.base_tables names.now) (N.column_kinds names.now))
        (specifications_of query.now) }
{
    let mut ways = Vec::new(alloc);
    add_of_query(alloc, names, query, &mut ways)?;
    Ok(ways)
}

/// How the rows of the tables of a query specification outside every query are found: of its FROM clause, and then of its subqueries.
pub fn ways_of_specification<N: Names>(
    alloc: Global,
    names: &N,
    query: &BoundSpecification,
) -> Result<Vec<Way>, AllocError>
    requires { FindsSelect (N.base_tables names.now) (N.column_kinds names.now) query.now }
{
    let mut ways = Vec::new(alloc);
    add_of_outermost(alloc, names, query, &mut ways)?;
    Ok(ways)
}

/// How the rows of a target are found, and those of the tables in the subqueries of its condition.
pub fn ways_of_target<N: Names>(
    alloc: Global,
    names: &N,
    target: &Target,
) -> Result<Vec<Way>, AllocError> {
    let how = how_of_target(alloc, target)?;
    let mut ways = Vec::new(alloc);
    ways.push(Way {
        table: target.table,
        how,
    })?;
    if let Some(condition) = &target.condition {
        add_on_row(alloc, names, condition, how, &mut ways)?;
    }
    Ok(ways)
}

/// How the row of a target is found that is looked for by its key, if it names one; all rows are looked at otherwise.
pub fn way_of_walk(alloc: Global, target: &Target) -> Result<Way, AllocError>
    ensures { IfOk result (λ way. way.table ≡ target.now.table) }
{
    Ok(Way {
        table: target.table,
        how: how_under(alloc, target, &[Lookup::Key])?,
    })
}

// ---- targets

/// How the rows of a target are found.
fn how_of_target(alloc: Global, target: &Target) -> Result<How, AllocError> {
    how_under(alloc, target, &[Lookup::Key, Lookup::Keys])
}

/// How the rows of a target are found: by the key that is noted for it or, if none is, by these lookups.
fn how_under(alloc: Global, target: &Target, lookups: &[Lookup]) -> Result<How, AllocError> {
    let base = target.base;
    if let Some(key) = target.key {
        return Ok(How::Key(KeyPlace { base, key }));
    }
    let Some(own) = &target.condition else {
        return Ok(How::Whole);
    };
    if target.leaf.get().is_quiet {
        how_of_row(alloc, target.leaf.get().table.get(), base, own, lookups)
    } else {
        Ok(How::Whole)
    }
}

/// How the rows of a base table are found that a condition on them names.
fn how_of_row(
    alloc: Global,
    table: &BaseTable,
    base: usize,
    condition: &BoundCond,
    lookups: &[Lookup],
) -> Result<How, AllocError> {
    match shortest_key(table.keys.as_slice(), condition) {
        Some(key) => Ok(How::Key(KeyPlace { base, key })),
        None => {
            let seen = Seen {
                item: 0,
                hows: &[],
                is_within: true,
            };
            how_of_base(
                alloc,
                table,
                &itself(base),
                condition,
                &seen,
                Sure::Unnoted,
                lookups,
            )
        }
    }
}

/// Adds the ways of the subqueries of a condition on the rows of a base table. They are read by keys if one row at most is.
fn add_on_row<N: Names>(
    alloc: Global,
    names: &N,
    condition: &BoundCond,
    how: How,
    ways: &mut Vec<Way>,
) -> Result<(), AllocError> {
    let nowhere = Needed::new(alloc);
    let around = Beneath {
        elsewhere: &nowhere,
        by_keys: is_one_row(&[how], 0),
        is_within: true,
    };
    let added = add_of_condition(alloc, names, condition, &around, ways);
    drop(nowhere);
    added
}

// ---- queries

#[cycle(add_of_query)]
fn add_of_query<N: Names>(
    alloc: Global,
    names: &N,
    query: &BoundQuery,
    ways: &mut Vec<Way>,
) -> Result<(), AllocError>
    requires readable { AllByRecursion (FindsSelect (N.base_tables names.now) (N.column_kinds names.now))
        (specifications_of query.now) }
{
    add_of_query_term(alloc, names, &query.first, ways)?;
    for union in query.rest.as_slice() {
        add_of_query_term(alloc, names, &union.term, ways)?;
    }
    Ok(())
}

#[cycle(add_of_query)]
fn add_of_query_term<N: Names>(
    alloc: Global,
    names: &N,
    term: &BoundTerm,
    ways: &mut Vec<Way>,
) -> Result<(), AllocError>
    requires readable { AllByRecursion (FindsSelect (N.base_tables names.now) (N.column_kinds names.now))
        (term_specifications term.now) }
{
    match term {
        BoundTerm::Specification(query) => add_of_outermost(alloc, names, query, ways),
        BoundTerm::Bracketed(query) => add_of_query(alloc, names, query.get(), ways),
    }
}

/// Adds the ways of a query specification outside every query.
fn add_of_outermost<N: Names>(
    alloc: Global,
    names: &N,
    query: &BoundSpecification,
    ways: &mut Vec<Way>,
) -> Result<(), AllocError>
    requires { FindsSelect (N.base_tables names.now) (N.column_kinds names.now) query.now }
{
    let Some((base, condition)) = over_base(query) else {
        return add_over_tables(alloc, names, query, ways);
    };
    let how = how_of_single(alloc, names, query, base, condition)?;
    let How::Key(_) = how else {
        return add_over_tables(alloc, names, query, ways);
    };
    ways.push(Way {
        table: TablePlace::Base(base),
        how,
    })?;
    add_on_row(alloc, names, condition, how, ways)
}

/// How the row of a base table is found that the WHERE clause of a query specification over it names by a key (`single_row`).
fn how_of_single<N: Names>(
    alloc: Global,
    names: &N,
    query: &BoundSpecification,
    base: usize,
    condition: &BoundCond,
) -> Result<How, AllocError> {
    let Some(table) = names.bases().get(base) else {
        return Ok(How::Whole);
    };
    if has_query_in_having(alloc, query)? {
        return Ok(How::Whole);
    }
    how_of_row(alloc, table.get(), base, condition, &[Lookup::Key])
}

/// Adds the ways of a query specification outside every query from the rows of the tables that it reads.
fn add_over_tables<N: Names>(
    alloc: Global,
    names: &N,
    query: &BoundSpecification,
    ways: &mut Vec<Way>,
) -> Result<(), AllocError>
    requires { FindsSelect (N.base_tables names.now) (N.column_kinds names.now) query.now }
{
    let nowhere = Needed::new(alloc);
    let around = Beneath {
        elsewhere: &nowhere,
        by_keys: true,
        is_within: true,
    };
    let added = add_with_views(alloc, names, query, &around, ways);
    drop(nowhere);
    added
}

/// Adds the ways of a query specification outside every query, from the rows of the tables that it reads.
fn add_with_views<N: Names>(
    alloc: Global,
    names: &N,
    query: &BoundSpecification,
    around: &Beneath<'_>,
    ways: &mut Vec<Way>,
) -> Result<(), AllocError>
    requires { FindsSelect (N.base_tables names.now) (N.column_kinds names.now) query.now }
{
    let hows = hows_within(alloc, names, query, around)?;
    let shown = hows_with_views(alloc, names, query, hows.as_slice())?;
    add_items(query.from.tables.as_slice(), shown.as_slice(), ways)?;
    drop(shown);
    let added = add_inside(alloc, names, query, hows.as_slice(), around, ways);
    drop(hows);
    added
}

/// Adds the ways of a query specification within what is around.
#[cycle(add_of_select)]
fn add_of_select<N: Names>(
    alloc: Global,
    names: &N,
    query: &BoundSpecification,
    around: &Beneath<'_>,
    ways: &mut Vec<Way>,
) -> Result<(), AllocError> {
    let hows = hows_within(alloc, names, query, around)?;
    add_items(query.from.tables.as_slice(), hows.as_slice(), ways)?;
    let added = add_inside(alloc, names, query, hows.as_slice(), around, ways);
    drop(hows);
    added
}

/// Adds the ways of the subqueries of a query specification of whose items the rows are found so.
#[cycle(add_of_select)]
fn add_inside<N: Names>(
    alloc: Global,
    names: &N,
    query: &BoundSpecification,
    hows: &[How],
    around: &Beneath<'_>,
    ways: &mut Vec<Way>,
) -> Result<(), AllocError> {
    add_of_where(alloc, names, query, hows, around, ways)?;
    add_of_having(alloc, names, query, around, ways)
}

/// Adds the ways of the subqueries of WHERE.
#[cycle(add_of_select)]
fn add_of_where<N: Names>(
    alloc: Global,
    names: &N,
    query: &BoundSpecification,
    hows: &[How],
    around: &Beneath<'_>,
    ways: &mut Vec<Way>,
) -> Result<(), AllocError> {
    let Some(condition) = &query.condition else {
        return Ok(());
    };
    let elsewhere = with_around(alloc, around.elsewhere, query)?;
    let beneath = Beneath {
        elsewhere: &elsewhere,
        by_keys: around.by_keys,
        is_within: around.is_within && are_one_row(hows),
    };
    let added = add_of_condition(alloc, names, condition, &beneath, ways);
    drop(elsewhere);
    added
}

/// Adds the ways of the subqueries of HAVING. Of the groups nothing is known.
#[cycle(add_of_select)]
fn add_of_having<N: Names>(
    alloc: Global,
    names: &N,
    query: &BoundSpecification,
    around: &Beneath<'_>,
    ways: &mut Vec<Way>,
) -> Result<(), AllocError> {
    let Some(grouping) = &query.grouping else {
        return Ok(());
    };
    let Some(condition) = &grouping.having else {
        return Ok(());
    };
    let elsewhere = with_lines_of(alloc, around.elsewhere, query)?;
    let beneath = Beneath {
        elsewhere: &elsewhere,
        by_keys: around.by_keys,
        is_within: false,
    };
    let added = add_of_condition(alloc, names, condition, &beneath, ways);
    drop(elsewhere);
    added
}

/// Adds the ways of the subqueries of a condition.
#[cycle(add_of_select)]
fn add_of_condition<N: Names>(
    alloc: Global,
    names: &N,
    condition: &BoundCond,
    around: &Beneath<'_>,
    ways: &mut Vec<Way>,
) -> Result<(), AllocError> {
    let terms = condition.terms.as_slice();
    for (number, term) in terms.iter().enumerate() {
        let elsewhere = beside_term(alloc, around.elsewhere, terms, number)?;
        let beneath = Beneath {
            elsewhere: &elsewhere,
            by_keys: around.by_keys,
            is_within: around.is_within,
        };
        let added = add_of_term(alloc, names, term, &beneath, ways);
        drop(elsewhere);
        added?;
    }
    Ok(())
}

/// Adds the ways of the subqueries of a term's tests.
#[cycle(add_of_select)]
fn add_of_term<N: Names>(
    alloc: Global,
    names: &N,
    term: &BoundConj,
    around: &Beneath<'_>,
    ways: &mut Vec<Way>,
) -> Result<(), AllocError> {
    let tests = term.tests.as_slice();
    for (number, test) in tests.iter().enumerate() {
        let elsewhere = beside_test(alloc, around.elsewhere, tests, number)?;
        let beneath = Beneath {
            elsewhere: &elsewhere,
            by_keys: around.by_keys,
            is_within: around.is_within,
        };
        let added = add_of_predicate(alloc, names, &test.predicate, &beneath, ways);
        drop(elsewhere);
        added?;
    }
    Ok(())
}

/// Adds the ways of the subquery of a predicate, or of those of a condition in brackets.
#[cycle(add_of_select)]
fn add_of_predicate<N: Names>(
    alloc: Global,
    names: &N,
    predicate: &Predicate,
    around: &Beneath<'_>,
    ways: &mut Vec<Way>,
) -> Result<(), AllocError> {
    match predicate {
        Predicate::CompareQuery(_, _, _, query) => {
            add_of_select(alloc, names, query.get(), around, ways)
        }
        Predicate::InQuery(_, _, query) => add_of_select(alloc, names, query.get(), around, ways),
        Predicate::Exists(query) => add_of_select(alloc, names, query.get(), around, ways),
        Predicate::Bracketed(condition) => {
            add_of_condition(alloc, names, condition.get(), around, ways)
        }
        _ => Ok(()),
    }
}

// ---- items

/// How the rows of a query specification's items are found within what is around.
fn hows_within<N: Names>(
    alloc: Global,
    names: &N,
    query: &BoundSpecification,
    around: &Beneath<'_>,
) -> Result<Vec<How>, AllocError> {
    if !around.by_keys {
        return Vec::from_elem(alloc, How::Whole, query.from.tables.as_slice().len());
    }
    let elsewhere = with_subqueries(alloc, around.elsewhere, query)?;
    let hows = hows_of_items(alloc, names, query, &elsewhere, around.is_within);
    drop(elsewhere);
    hows
}

/// Adds the way of each of these tables.
fn add_items(tables: &[TablePlace], hows: &[How], ways: &mut Vec<Way>) -> Result<(), AllocError> {
    for (table, how) in tables.iter().zip(hows) {
        ways.push(Way {
            table: *table,
            how: *how,
        })?;
    }
    Ok(())
}

/// Whether one row at most of each item is found.
fn are_one_row(hows: &[How]) -> bool {
    for item in 0..hows.len() {
        if !is_one_row(hows, item) {
            return false;
        }
    }
    true
}
