//! INSERT (ISO/IEC 9075:1992, 13.8).

ghost use Rattle.std.specs.Prelude.{◌≡◌, List, IfOk, length, map};
ghost use Rattle.std.specs.List.{AllByRecursion};
ghost use Rattle.sq_bound.specs.Fits.{IsColumnOf};
ghost use Rattle.sq_bound.specs.declared.names.BaseTable.{BaseTable as AnyBase};
ghost use Rattle.sq_bound.specs.declared.statement.BoundStatement.TheVariants as bound;
ghost use Rattle.sq_binder.specs.Found.{Finds};
ghost use Rattle.sq_binder.specs.Surroundings.{surroundings};
ghost use Rattle.sq_binder.specs.Changeable.{changed_of};
ghost use Rattle.sq_binder.specs.Names.{AreOverBases, names_at};
ghost use Rattle.sq_binding.specs.SeenQuery.{insert_seen};
ghost use Rattle.sq_binding.specs.There.{SourceIsPlain, StatementIsThere};
ghost use Rattle.sq_binder.specs.Insert.{InsertsInto, IsInsertOver, insert_in, insert_over};
ghost use Rattle.sq_binder.specs.Receiver.{AreWithin, receiver_seen};

use crate::needed::require_privilege;
use crate::receiver::{Receiver, insert_receivers};
use crate::source::bind_source;
use crate::{
    ChangeableTables, ChangedTable, Counts, Found, Privilege, Stop, Surroundings, changed_table,
    pair_parts,
};
use sq_bound::{BaseTable, BoundInsert, InsertedRows, ObjectColumn};
use sq_items::Items;
use sq_tree::Insert;
use std::alloc::{AllocError, Global};

pub type InsertResult = Result<Found<BoundInsert>, Stop>;

/// The columns that get values, and the source of the values.
type Parts = Found<(Items<Receiver>, InsertedRows)>;

/// Binds an INSERT (ISO/IEC 9075:1992, 13.8) to the columns that get values and the source of the
/// values.
///
/// It answers the fault of the table's name, or else the first one in the columns and the source. A
/// privilege that is missing is a finding and not yet a fault. If the tables that may be changed
/// are over given base tables, so is the bound statement.
pub fn bind_insert<T: ChangeableTables>(
    insert: &Insert,
    at: &Surroundings<'_, T>,
    before: Counts,
) -> InsertResult
    ensures finds { Finds insert_seen (insert_in (names_at T.named T.changes at.now)
        (surroundings T.named at.now) insert.now) before result }
    ensures there { (bases : List AnyBase) → AreOverBases bases (T.changes at.now.tables.now)
        → IfOk result (λ found. StatementIsThere bases (bound.Insert found.part)) }
{
    match changed_table(at.tables, at.environment.user, insert.table) {
        Ok(table) => insert_into(insert, &table, at, before),
        Err(stop) => Err(stop),
    }
}

fn insert_into<T: ChangeableTables>(
    insert: &Insert,
    table: &ChangedTable<'_>,
    at: &Surroundings<'_, T>,
    before: Counts,
) -> InsertResult
    ensures finds { Finds insert_seen (insert_over (names_at T.named T.changes at.now)
        (surroundings T.named at.now) insert.now (changed_of table.now)) before result }
    ensures over { IfOk result (λ found. IsInsertOver table.now.under.leaf.now found.part) }
{
    let alloc = at.environment.alloc;
    let receivers = insert_receivers(alloc, table, &insert.columns, before)?;
    let next = receivers.brought.next;
    let source = bind_source(&insert.source, receivers.part.as_slice(), at, next);
    let parts = pair_parts(receivers, source);
    let may_insert = at.tables.holds(table.user, table.name, Privilege::Insert);
    make_insert(alloc, table, parts, may_insert)
}

fn make_insert(
    alloc: Global,
    table: &ChangedTable<'_>,
    parts: Result<Parts, Stop>,
    may_insert: bool,
) -> InsertResult
    requires { IfOk parts (λ found. AreWithin (length table.now.under.leaf.now.table.columns)
        (map receiver_seen found.part.0)) }
    ensures { InsertsInto table.now may_insert parts result }
{
    let Found { part, brought } = parts?;
    let (receivers, source) = part;
    let columns = object_columns(
        alloc,
        table.under.leaf.get().table.get(),
        receivers.as_slice(),
    );
    drop(receivers);
    match (columns, table.under.leaf.share()) {
        (Ok(columns), Ok(leaf)) => Ok(Found {
            part: BoundInsert {
                base: table.base(),
                leaf,
                columns,
                source,
            },
            brought: require_privilege(brought, may_insert),
        }),
        (columns, leaf) => {
            drop(columns);
            drop(leaf);
            drop(source);
            drop(brought);
            Err(Stop::NoMemory)
        }
    }
}

/// The columns of the base table that get values.
fn object_columns(
    alloc: Global,
    base: &BaseTable,
    receivers: &[Receiver],
) -> Result<Items<ObjectColumn>, AllocError>
    requires { AreWithin (length base.now.columns) (map receiver_seen receivers.now) }
    ensures positions { IfOk result
        (λ columns. map (λ c. c.position) columns ≡ map (λ receiver. receiver.column) receivers.now) }
    ensures columns { IfOk result (AllByRecursion (IsColumnOf base.now)) }
{
    let mut columns = Items::new(alloc);
    for receiver in receivers {
        columns.push(base.object_column(receiver.column))?;
    }
    Ok(columns)
}
