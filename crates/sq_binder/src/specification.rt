//! Query specifications of their parts (ISO/IEC 9075:1992, 7.9).

ghost use Rattle.std.specs.Prelude.{◌≡◌, ◌||◌, map};
ghost use Rattle.std.specs.Option.{option_map};
ghost use Rattle.sq_bound.specs.Expression.{place_meant};
ghost use Rattle.sq_binding.specs.Found.{Binding};
ghost use Rattle.sq_binding.specs.Seen.{call_of, grouping_seen, groups_if, select_seen};
ghost use Rattle.sq_binding.specs.Select as spec;
ghost use Rattle.sq_binder.specs.Found.{Finds, found_of, query_findings_of};
ghost use Rattle.sq_binder.specs.Specification.{AllParts, clause_seen, first, grouping_fault, groups_found, is_grouped, parts_seen, selected, specification_of};

use crate::found::{Brought, Counts, Found};
use crate::from::FromClause;
use crate::select_list::SelectedList;
use crate::stop::Stop;
use crate::subquery::SelectResult;
use sq_bound::{BoundCond, BoundSpecification, Grouping, Place, SetFunctionCall};
use sq_items::Items;
use sq_meaning::BindingFault;
use std::alloc::Global;

/// The clauses after WHERE: GROUP BY, the select list and HAVING.
pub type Groups = (Items<Place>, (SelectedList, Option<BoundCond>));

/// The parts of a query specification: FROM, WHERE, and the clauses after them.
pub type Parts = (FromClause, (Option<BoundCond>, Groups));

impl Counts {
    /// The counts at the start of a query, before any of its set functions.
    pub fn first(self) -> Counts
        ensures { result ≡ first self }
    {
        Counts {
            functions: 0,
            ..self
        }
    }
}

/// A query specification of these parts, after `before` set functions of the query around it.
pub fn specification(
    alloc: Global,
    distinct: bool,
    is_star: bool,
    before: Counts,
    parts: Result<Found<Parts>, Stop>,
) -> SelectResult
    ensures { (b : Binding AllParts) → Finds parts_seen b (first before) parts
        → Finds select_seen (specification_of is_star distinct b) before result }
{
    let parts = parts?;
    match fault_of(is_star, &parts) {
        Some(fault) => {
            drop(parts);
            Err(Stop::broken(fault))
        }
        None => Ok(make_specification(alloc, distinct, before, parts)),
    }
}

/// The grouping fault of a query specification of these parts, if it has one.
fn fault_of(is_star: bool, parts: &Found<Parts>) -> Option<BindingFault>
    ensures { let x = found_of parts_seen parts.now in result ≡ grouping_fault is_star
        (is_grouped (groups_found x)) x.findings.values.has_ungrouped }
{
    let (_, (_, (columns, (_, having)))) = &parts.part;
    let is_grouped = is_grouped(columns.as_slice(), parts.brought.calls.as_slice(), having);
    grouping_fault(
        is_star,
        is_grouped,
        parts.brought.findings.values.has_ungrouped,
    )
}

/// The query specification of these parts.
fn make_specification(
    alloc: Global,
    distinct: bool,
    before: Counts,
    parts: Found<Parts>,
) -> Found<BoundSpecification>
    ensures { (found_of select_seen result ≡ selected distinct (found_of parts_seen parts))
        × (result.brought.next.functions ≡ before.functions) }
{
    let Found { part, brought } = parts;
    let (from, (condition, (columns, (list, having)))) = part;
    let FromClause { tables, items } = from;
    drop(items);
    let SelectedList {
        exprs,
        columns: shown,
    } = list;
    let can_fail = can_fail(&brought);
    let grouping = grouping_of(columns, brought.calls, having);
    Found {
        part: BoundSpecification {
            distinct,
            list: exprs,
            from: tables,
            condition,
            grouping,
            columns: shown,
            can_fail,
            number: None,
        },
        brought: Brought {
            calls: Items::new(alloc),
            calls_can_fail: false,
            findings: brought.findings.with_can_fail(can_fail),
            next: Counts {
                functions: before.functions,
                subqueries: brought.next.subqueries,
            },
        },
    }
}

/// Whether evaluating a part, or computing one of its set functions, may answer a status.
fn can_fail(brought: &Brought) -> bool
    ensures { result ≡ (brought.now.findings.values.can_fail || brought.now.calls_can_fail) }
{
    brought.findings.values.can_fail || brought.calls_can_fail
}

/// The groups of a query, if it is grouped: by GROUP BY, by HAVING, or by a set function.
fn grouping_of(
    columns: Items<Place>,
    set_functions: Items<SetFunctionCall>,
    having: Option<BoundCond>,
) -> Option<Grouping>
    ensures { groups_if (option_map grouping_seen result) ≡ spec.groups_by (map place_meant columns)
        (clause_seen having) (map call_of set_functions) }
{
    if !is_grouped(columns.as_slice(), set_functions.as_slice(), &having) {
        drop(columns);
        drop(set_functions);
        drop(having);
        return None;
    }
    Some(Grouping {
        columns,
        set_functions,
        having,
    })
}

/// Whether a query is grouped.
fn is_grouped(
    columns: &[Place],
    set_functions: &[SetFunctionCall],
    having: &Option<BoundCond>,
) -> bool
    ensures { result ≡ is_grouped (spec.groups_by (map place_meant columns.now) (clause_seen having.now)
        (map call_of set_functions.now)) }
{
    match (columns, set_functions, having) {
        ([], [], None) => false,
        _ => true,
    }
}

/// In a grouped query `*` may not occur, nor, outside set functions, a column that is no grouping column.
fn grouping_fault(is_star: bool, is_grouped: bool, has_ungrouped: bool) -> Option<BindingFault>
    ensures { result ≡ grouping_fault is_star is_grouped has_ungrouped }
{
    match (is_grouped, is_star, has_ungrouped) {
        (true, true, _) => Some(BindingFault::CountMismatch),
        (true, false, true) => Some(BindingFault::UngroupedColumn),
        _ => None,
    }
}
