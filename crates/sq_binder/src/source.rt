//! The source of inserted values (ISO/IEC 9075:1992, 13.8).

ghost use Rattle.std.specs.Prelude.{◌≡◌, ◌∷◌, IfOk, length, map};
ghost use Rattle.std.specs.List.{AllByRecursion, list_all, zip};
ghost use Rattle.sq_tree.specs.declared.statement.InsertSource.TheVariants.{Values};
ghost use Rattle.sq_meaning.specs.Spelled.{listed};
ghost use Rattle.sq_binding.specs.Change.{source_bound, value_for};
ghost use Rattle.sq_binding.specs.Found.{each};
ghost use Rattle.sq_binding.specs.Seen.{numbered_of};
ghost use Rattle.sq_binder.specs.Found.{Finds};
ghost use Rattle.sq_binder.specs.Surroundings.{surroundings};
ghost use Rattle.sq_binder.specs.Names.{names_at};
ghost use Rattle.sq_binding.specs.SeenQuery.{source_seen};
ghost use Rattle.sq_binding.specs.There.{IsPlain, SourceIsPlain};
ghost use Rattle.sq_binder.specs.Receiver.{receiver_seen};
ghost use Rattle.sq_binder.specs.Source.{Inserts, agrees, column_fault, columns_beside};

use crate::new_value::bind_new_value;
use crate::receiver::Receiver;
use crate::{
    ChangeableTables, Counts, Found, SelectResult, Stop, Surroundings, are_comparable, begin_list,
    bind_select, with_next,
};
use sq_bound::{BoundExpr, InsertedRows, ResultColumn};
use sq_items::Items;
use sq_meaning::BindingFault;
use sq_tree::{CommaList, InsertSource, NewValue};

pub type SourceResult = Result<Found<InsertedRows>, Stop>;

/// As many values, or columns of a query, as columns that get them, each of the kind of its column.
pub fn bind_source<T: ChangeableTables>(
    source: &InsertSource,
    receivers: &[Receiver],
    at: &Surroundings<'_, T>,
    before: Counts,
) -> SourceResult
    ensures finds { Finds source_seen
        (source_bound (names_at T.named T.changes at.now) (surroundings T.named at.now)
        (map receiver_seen receivers.now) source.now) before result }
    ensures plain { IfOk result (λ found. SourceIsPlain found.part) }
{
    match source {
        InsertSource::Values(list) => values(list, receivers, at, before),
        InsertSource::Query(query) => {
            let query = bind_select(&query.table, query.quantifier, &query.list, at, before);
            inserted_query(query, receivers)
        }
    }
}

fn values<T: ChangeableTables>(
    list: &CommaList<NewValue>,
    receivers: &[Receiver],
    at: &Surroundings<'_, T>,
    before: Counts,
) -> SourceResult
    ensures finds { Finds source_seen
        (source_bound (names_at T.named T.changes at.now) (surroundings T.named at.now)
        (map receiver_seen receivers.now) (Values list.now)) before result }
    ensures plain { IfOk result (λ found. SourceIsPlain found.part) }
{
    let Some((first, others)) = receivers.split_first() else {
        return Err(Stop::broken(BindingFault::CountMismatch));
    };
    let rest = list.rest.as_slice();
    if rest.len() != others.len() {
        return Err(Stop::broken(BindingFault::CountMismatch));
    }
    let Found { part, brought } = values_for(list, *first, others, at, before)?;
    Ok(Found {
        part: InsertedRows::Values(part),
        brought,
    })
}

/// The values of these columns.
fn values_for<T: ChangeableTables>(
    list: &CommaList<NewValue>,
    receiver: Receiver,
    others: &[Receiver],
    at: &Surroundings<'_, T>,
    before: Counts,
) -> Result<Found<Items<BoundExpr>>, Stop>
    requires { length list.now.rest ≡ length others.now }
    ensures finds { Finds (map numbered_of) (each (value_for (surroundings T.named at.now))
        (zip (map receiver_seen (receiver ∷ others.now)) (listed list.now))) before result }
    ensures plain { IfOk result (λ found. AllByRecursion IsPlain found.part) }
{
    let first = bind_new_value(&list.first, receiver.kind, at, before);
    let mut values = begin_list(at.environment.alloc, first)?;
    for (number, value) in list.rest.as_slice().iter().enumerate() {
        let next = bind_new_value(value, others[number].kind, at, values.brought.next);
        match with_next(values, next) {
            Ok(more) => values = more,
            Err(stop) => return Err(stop),
        }
    }
    Ok(values)
}

fn inserted_query(query: SelectResult, receivers: &[Receiver]) -> SourceResult
    ensures { Inserts receivers.now query result }
{
    let query = query?;
    match column_fault(query.part.columns.as_slice(), receivers) {
        Some(fault) => {
            drop(query);
            Err(Stop::broken(fault))
        }
        None => Ok(Found {
            part: InsertedRows::Query(query.part),
            brought: query.brought,
        }),
    }
}

/// Why columns with these values may not get them.
fn column_fault(columns: &[ResultColumn], receivers: &[Receiver]) -> Option<BindingFault>
    ensures { result ≡ column_fault columns.now receivers.now }
{
    if receivers.len() != columns.len() {
        return Some(BindingFault::CountMismatch);
    }
    if are_storable(columns, receivers) {
        None
    } else {
        Some(BindingFault::KindMismatch)
    }
}

/// Whether each column of a query is of the kind of the column that gets its values.
fn are_storable(columns: &[ResultColumn], receivers: &[Receiver]) -> bool
    requires { length receivers.now ≡ length columns.now }
    ensures { result ≡ list_all agrees (columns_beside columns.now receivers.now) }
{
    for (number, column) in columns.iter().enumerate() {
        if !are_comparable(column.kind, receivers[number].kind) {
            return false;
        }
    }
    true
}
