//! Search conditions and query specifications, each bound by the other, since conditions have subqueries (ISO/IEC 9075:1992, 7.4
//! to 7.9 and 8.12).

ghost use Rattle.std.specs.Prelude.{◌≡◌, Some, map};
ghost use Rattle.std.specs.Option.{option_map};
ghost use Rattle.sq_meaning.specs.Spelled.{body_of, clause, cond_of, conj_of, expr_of, list_of, listed_if_any, select_of, select_of_parts, tail_of, test_of};
ghost use Rattle.sq_bound.specs.Expression.{place_meant};
ghost use Rattle.sq_binding.specs.Condition as spec;
ghost use Rattle.sq_binding.specs.Found.{Binding, each, from_first};
ghost use Rattle.sq_binding.specs.NumberedCondition.{NumberedClause, NumberedCond};
ghost use Rattle.sq_binding.specs.Seen.{cond_seen, conds_in, conj_seen, predicate_seen, select_seen, test_seen};
ghost use Rattle.sq_binding.specs.Select.{grouping_column, of_groups, of_lines};
ghost use Rattle.sq_binder.specs.Found.{Finds};
ghost use Rattle.sq_binder.specs.Scope.{item_of};
ghost use Rattle.sq_binder.specs.Specification.{clause_present, clause_seen, clauses_of, clauses_seen, first, groups_bound, groups_seen, shown_bound, shown_seen};
ghost use Rattle.sq_binder.specs.Subquery.{negated_if};
ghost use Rattle.sq_binder.specs.Surroundings.{surroundings};
ghost use Rattle.sq_binder.specs.declared.found.Counts.{Counts as AnyCounts};

use crate::found::{Brought, Counts, Found, begin_list, bring_nothing, pair_parts, with_next};
use crate::from::from_clause;
use crate::group::group_by;
use crate::predicate::{
    PredicateResult, bind_between, bind_comparison, bind_in_list, bind_like, bind_null_test,
};
use crate::scope::FromItem;
use crate::select_list::{SelectedList, is_star, select_list};
use crate::set_function::is_distinct;
use crate::specification::{Groups, specification};
use crate::stop::Stop;
use crate::subquery::{SelectResult, bind_compared_query, bind_exists, bind_in_query};
use crate::surroundings::{Surroundings, Tables, value};
use sq_bound::{BoundCond, BoundConj, BoundTest, Place, Predicate};
use sq_items::{Boxed, Items};
use sq_tree::{
    Body, ColumnReference, CommaList, Cond, Conj, Expr, QuerySpecification, SelectList,
    SetQuantifier, TableExpression, Tail, Test,
};
use std::alloc::Global;

pub type CondResult = Result<Found<BoundCond>, Stop>;

/// The result of binding a clause that may be left out.
pub type ClauseResult = Result<Found<Option<BoundCond>>, Stop>;

/// A search condition (8.12): its tree, and the set functions, subqueries and findings that it adds to its query, or its first
/// fault.
#[cycle(conditions)]
pub fn bind_cond<T: Tables>(cond: &Cond, at: &Surroundings<'_, T>, before: Counts) -> CondResult
    ensures { Finds cond_seen (spec.cond_bound (surroundings T.named at.now)
        (cond_of at.now.environment.now.user cond.now)) before result }
{
    let first = conj_value(&cond.first, at, before);
    let mut terms = begin_list(at.environment.alloc, first)?;
    for conj in cond.rest.as_slice() {
        let next = conj_value(conj, at, terms.brought.next);
        match with_next(terms, next) {
            Ok(more) => terms = more,
            Err(stop) => return Err(stop),
        }
    }
    Ok(whole_cond(terms))
}

fn whole_cond(terms: Found<Items<BoundConj>>) -> Found<BoundCond>
    ensures { (cond_seen result.part ≡ NumberedCond.disjunction (conds_in (map conj_seen terms.part)))
        × (result.brought ≡ terms.brought) }
{
    let Found { part, brought } = terms;
    Found {
        part: BoundCond { terms: part },
        brought,
    }
}

#[cycle(conditions)]
fn conj_value<T: Tables>(
    conj: &Conj,
    at: &Surroundings<'_, T>,
    before: Counts,
) -> Result<Found<BoundConj>, Stop>
    ensures { Finds conj_seen (spec.cond_bound (surroundings T.named at.now)
        (conj_of at.now.environment.now.user conj.now)) before result }
{
    let first = test_value(&conj.first, at, before);
    let mut tests = begin_list(at.environment.alloc, first)?;
    for test in conj.rest.as_slice() {
        let next = test_value(test, at, tests.brought.next);
        match with_next(tests, next) {
            Ok(more) => tests = more,
            Err(stop) => return Err(stop),
        }
    }
    Ok(whole_conj(tests))
}

fn whole_conj(tests: Found<Items<BoundTest>>) -> Found<BoundConj>
    ensures { (conj_seen result.part ≡ NumberedCond.conjunction (conds_in (map test_seen tests.part)))
        × (result.brought ≡ tests.brought) }
{
    let Found { part, brought } = tests;
    Found {
        part: BoundConj { tests: part },
        brought,
    }
}

#[cycle(conditions)]
fn test_value<T: Tables>(
    test: &Test,
    at: &Surroundings<'_, T>,
    before: Counts,
) -> Result<Found<BoundTest>, Stop>
    ensures { Finds test_seen (spec.test (spec.cond_bound (surroundings T.named at.now)
        (test_of at.now.environment.now.user test.now))) before result }
{
    let predicate = body_value(&test.body, at, before);
    whole_test(test.negated, predicate)
}

fn whole_test(negated: bool, predicate: PredicateResult) -> Result<Found<BoundTest>, Stop>
    ensures { (b : Binding NumberedCond) (before : AnyCounts) → Finds predicate_seen b before predicate
        → Finds test_seen (spec.test (negated_if negated b)) before result }
{
    let Found { part, brought } = predicate?;
    Ok(Found {
        part: BoundTest {
            negated,
            predicate: part,
            items: brought.findings.values.items,
            can_fail: brought.findings.values.can_fail,
        },
        brought,
    })
}

#[cycle(conditions)]
fn body_value<T: Tables>(body: &Body, at: &Surroundings<'_, T>, before: Counts) -> PredicateResult
    ensures { Finds predicate_seen (spec.cond_bound (surroundings T.named at.now)
        (body_of at.now.environment.now.user body.now)) before result }
{
    let alloc = at.environment.alloc;
    match body {
        Body::Predicate(left, tail) => tail_value(tail, left, at, before),
        Body::Exists(query) => bind_exists(alloc, subquery_value(query.get(), at, before)),
        Body::Bracketed(cond) => bracket_condition(alloc, bind_cond(cond.get(), at, before)),
    }
}

fn bracket_condition(alloc: Global, cond: CondResult) -> PredicateResult
    ensures { (b : Binding NumberedCond) (before : AnyCounts) → Finds cond_seen b before cond
        → Finds predicate_seen b before result }
{
    let Found { part, brought } = cond?;
    match Boxed::new(alloc, part) {
        Ok(cond) => Ok(Found {
            part: Predicate::Bracketed(cond),
            brought,
        }),
        Err(_) => {
            drop(brought);
            Err(Stop::NoMemory)
        }
    }
}

#[cycle(conditions)]
fn tail_value<T: Tables>(
    tail: &Tail,
    left: &Expr,
    at: &Surroundings<'_, T>,
    before: Counts,
) -> PredicateResult
    ensures { Finds predicate_seen (spec.cond_bound (surroundings T.named at.now)
        (tail_of at.now.environment.now.user tail.now (expr_of left.now))) before result }
{
    let alloc = at.environment.alloc;
    match tail {
        Tail::Compare(comparison, right) => bind_comparison(*comparison, left, right, at, before),
        Tail::CompareQuery(comparison, quantifier, query) => {
            let left = value(left, at, before)?;
            let query = subquery_value(query.get(), at, left.brought.next);
            bind_compared_query(alloc, *comparison, *quantifier, left, query)
        }
        Tail::Between(negated, low, high) => bind_between(
            *negated,
            left,
            low,
            high.get(),
            at,
            before,
        ),
        Tail::InQuery(negated, query) => {
            let left = value(left, at, before)?;
            let query = subquery_value(query.get(), at, left.brought.next);
            bind_in_query(alloc, *negated, left, query)
        }
        Tail::InList(negated, list) => bind_in_list(*negated, left, list, at, before),
        Tail::Like(negated, pattern, escape) => {
            bind_like(*negated, left, pattern, escape, at, before)
        }
        Tail::Null(negated) => bind_null_test(*negated, left, at, before),
    }
}

#[cycle(conditions)]
fn subquery_value<T: Tables>(
    query: &QuerySpecification,
    at: &Surroundings<'_, T>,
    before: Counts,
) -> SelectResult
    ensures { Finds select_seen (spec.select_bound (surroundings T.named at.now)
        (select_of at.now.environment.now.user query.now)) before result }
{
    bind_select(&query.table, query.quantifier, &query.list, at, before)
}

/// A query specification of these parts.
#[cycle(conditions)]
pub fn bind_select<T: Tables>(
    table: &TableExpression,
    quantifier: Option<SetQuantifier>,
    list: &SelectList,
    at: &Surroundings<'_, T>,
    before: Counts,
) -> SelectResult
    ensures { Finds select_seen (spec.select_bound (surroundings T.named at.now)
        (select_of_parts at.now.environment.now.user quantifier list.now table.now)) before result }
{
    let from = from_clause(&table.from, at, before.first())?;
    let items = from.part.items.as_slice();
    let clauses = clauses_value(table, list, items, &*at, from.brought.next);
    let parts = pair_parts(from, clauses);
    specification(
        at.environment.alloc,
        is_distinct(quantifier),
        is_star(list),
        before,
        parts,
    )
}

/// The clauses after a FROM clause of these items.
#[cycle(conditions)]
fn clauses_value<'s, T: Tables>(
    table: &TableExpression,
    list: &SelectList,
    items: &'s [FromItem],
    at: &'s Surroundings<'s, T>,
    before: Counts,
) -> Result<Found<(Option<BoundCond>, Groups)>, Stop>
    ensures { Finds clauses_seen
        (clauses_of at.now.environment.now.user table.now (surroundings T.named at.now)
        (map item_of items.now) (list_of list.now)) before result }
{
    let filter = where_value(&table.where_clause, items, at, before)?;
    let next = filter.brought.next;
    let groups = groups_value(&table.having, &table.group_by, list, items, at, next);
    pair_parts(filter, groups)
}

/// A WHERE clause over these items, in which no set function may occur.
#[cycle(conditions)]
fn where_value<'s, T: Tables>(
    cond: &Option<Cond>,
    items: &'s [FromItem],
    at: &'s Surroundings<'s, T>,
    before: Counts,
) -> ClauseResult
    ensures { Finds clause_seen (from_first (spec.clause_bound
        (of_lines (map item_of items.now) (surroundings T.named at.now))
        (clause (option_map (cond_of at.now.environment.now.user) cond.now)))) before result }
{
    let environment = at
        .environment
        .within(at.environment.scope_over(items, None));
    let lines = Surroundings {
        tables: at.tables,
        environment: &environment,
        functions_allowed: false,
    };
    let filter = clause_value(cond, &lines, before.first());
    count_functions(filter, before)
}

/// GROUP BY, the select list and HAVING over these items.
#[cycle(conditions)]
fn groups_value<'s, T: Tables>(
    having: &Option<Cond>,
    by: &Option<CommaList<ColumnReference>>,
    list: &SelectList,
    items: &'s [FromItem],
    at: &'s Surroundings<'s, T>,
    before: Counts,
) -> Result<Found<Groups>, Stop>
    ensures { Finds groups_seen (groups_bound (surroundings T.named at.now) (map item_of items.now)
        (listed_if_any by.now) (list_of list.now)
        (clause (option_map (cond_of at.now.environment.now.user) having.now))) before result }
{
    let columns = grouping_columns(by, items, at, before)?;
    let next = columns.brought.next;
    let shown = shown_value(having, list, &*items, columns.part.as_slice(), &*at, next);
    pair_parts(columns, shown)
}

/// The columns of GROUP BY over these items.
fn grouping_columns<'s, T: Tables>(
    by: &Option<CommaList<ColumnReference>>,
    items: &'s [FromItem],
    at: &'s Surroundings<'s, T>,
    before: Counts,
) -> Result<Found<Items<Place>>, Stop>
    ensures { Finds (map place_meant) (each
        (grouping_column (of_lines (map item_of items.now) (surroundings T.named at.now)))
        (listed_if_any by.now)) before result }
{
    let environment = at
        .environment
        .within(at.environment.scope_over(items, None));
    let lines = Surroundings {
        tables: at.tables,
        environment: &environment,
        functions_allowed: false,
    };
    group_by(by, &lines, before)
}

/// The select list and HAVING over these items, of groups by these columns if the query is grouped.
#[cycle(conditions)]
fn shown_value<'s, T: Tables>(
    having: &Option<Cond>,
    list: &SelectList,
    items: &'s [FromItem],
    columns: &'s [Place],
    at: &'s Surroundings<'s, T>,
    before: Counts,
) -> Result<Found<(SelectedList, Option<BoundCond>)>, Stop>
    ensures { Finds shown_seen (shown_bound (of_groups (map item_of items.now) (map place_meant columns.now)
        (surroundings T.named at.now)) (map item_of items.now) (list_of list.now)
        (clause (option_map (cond_of at.now.environment.now.user) having.now))) before result }
{
    let environment = at
        .environment
        .within(at.environment.scope_over(items, Some(columns)));
    let groups = Surroundings {
        tables: at.tables,
        environment: &environment,
        functions_allowed: true,
    };
    let shown = select_list(list, items, &groups, before)?;
    let having = clause_value(having, &groups, shown.brought.next);
    pair_parts(shown, having)
}

/// A WHERE or HAVING clause, if it is written.
#[cycle(conditions)]
fn clause_value<T: Tables>(
    cond: &Option<Cond>,
    at: &Surroundings<'_, T>,
    before: Counts,
) -> ClauseResult
    ensures { Finds clause_seen (spec.clause_bound (surroundings T.named at.now)
        (clause (option_map (cond_of at.now.environment.now.user) cond.now))) before result }
{
    match cond {
        None => Ok(bring_nothing(at.environment.alloc, None, before)),
        Some(cond) => make_present(bind_cond(cond, at, before)),
    }
}

/// A clause that is written.
pub fn make_present(cond: CondResult) -> ClauseResult
    ensures { (b : Binding NumberedCond) (before : AnyCounts) → Finds cond_seen b before cond
        → Finds clause_seen (clause_present b) before result }
{
    let Found { part, brought } = cond?;
    Ok(Found {
        part: Some(part),
        brought,
    })
}

/// A WHERE clause that was bound with no set function of its query before it, counted after those that there are.
pub fn count_functions(filter: ClauseResult, before: Counts) -> ClauseResult
    ensures { (b : Binding NumberedClause) → Finds clause_seen b (first before) filter
        → Finds clause_seen (from_first b) before result }
{
    let Found { part, brought } = filter?;
    let Some(functions) = before.functions.checked_add(brought.calls.len()) else {
        drop(part);
        drop(brought);
        return Err(Stop::NoMemory);
    };
    let subqueries = brought.next.subqueries;
    Ok(Found {
        part,
        brought: Brought {
            next: Counts {
                functions,
                subqueries,
            },
            ..brought
        },
    })
}
