//! Grouping columns (ISO/IEC 9075:1992, 7.7).

ghost use Rattle.std.specs.Prelude.{map};
ghost use Rattle.sq_meaning.specs.Spelled.{listed, listed_if_any};
ghost use Rattle.sq_bound.specs.Expression.{place_meant};
ghost use Rattle.sq_binding.specs.Found.{each};
ghost use Rattle.sq_binding.specs.Select as spec;
ghost use Rattle.sq_binder.specs.Found.{Finds};
ghost use Rattle.sq_binder.specs.Scope.{found_of};
ghost use Rattle.sq_binder.specs.Surroundings.{surroundings};

use crate::column::FoundColumn;
use crate::findings::column_findings;
use crate::found::{Brought, Counts, Found, begin_list, bring_nothing, with_next};
use crate::query_findings::QueryFindings;
use crate::stop::Stop;
use crate::surroundings::{Surroundings, Tables};
use sq_bound::Place;
use sq_items::Items;
use sq_meaning::BindingFault;
use sq_tree::{ColumnReference, CommaList};
use std::alloc::Global;

/// The grouping columns of a clause that may be written. One of a query further out is a grouping column there, or need not be
/// one.
pub fn group_by<T: Tables>(
    by: &Option<CommaList<ColumnReference>>,
    at: &Surroundings<'_, T>,
    before: Counts,
) -> Result<Found<Items<Place>>, Stop>
    ensures { Finds (map place_meant) (each (spec.grouping_column (surroundings T.named at.now))
        (listed_if_any by.now)) before result }
{
    match by {
        None => Ok(bring_nothing(
            at.environment.alloc,
            Items::new(at.environment.alloc),
            before,
        )),
        Some(list) => columns_listed(list, at, before),
    }
}

fn columns_listed<T: Tables>(
    list: &CommaList<ColumnReference>,
    at: &Surroundings<'_, T>,
    before: Counts,
) -> Result<Found<Items<Place>>, Stop>
    ensures { Finds (map place_meant) (each (spec.grouping_column (surroundings T.named at.now))
        (listed list.now)) before result }
{
    let first = grouping_column(&list.first, at, before);
    let mut columns = begin_list(at.environment.alloc, first)?;
    for reference in list.rest.as_slice() {
        let next = grouping_column(reference, at, columns.brought.next);
        match with_next(columns, next) {
            Ok(more) => columns = more,
            Err(stop) => return Err(stop),
        }
    }
    Ok(columns)
}

fn grouping_column<T: Tables>(
    reference: &ColumnReference,
    at: &Surroundings<'_, T>,
    before: Counts,
) -> Result<Found<Place>, Stop>
    ensures { Finds place_meant
        (spec.grouping_column (surroundings T.named at.now) reference.now) before result }
{
    let found = at.environment.column(reference)?;
    grouping_place(at.environment.alloc, &found, before)
}

fn grouping_place(alloc: Global, found: &FoundColumn, before: Counts) -> Result<Found<Place>, Stop>
    ensures { Finds place_meant (spec.grouping_place (found_of found.now)) before result }
{
    if !found.is_grouped {
        return Err(Stop::broken(BindingFault::UngroupedColumn));
    }
    let findings = column_findings(found)?;
    Ok(Found {
        part: Place {
            depth: found.depth,
            item: found.item,
            column: found.column.position,
        },
        brought: Brought {
            calls: Items::new(alloc),
            calls_can_fail: false,
            findings: QueryFindings::of_values(findings),
            next: before,
        },
    })
}
