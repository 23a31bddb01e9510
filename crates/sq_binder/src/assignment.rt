//! Set clauses (ISO/IEC 9075:1992, 13.9 and 13.10).

ghost use Rattle.std.specs.Prelude.{◌≡◌, ◌≤◌, ◌∷◌, [], IfOk, length, map, take};
ghost use Rattle.std.specs.List.{list_any};
ghost use Rattle.sq_meaning.specs.Environment.{same_name};
ghost use Rattle.sq_meaning.specs.Spelled.{listed};
ghost use Rattle.sq_binding.specs.Change as spec;
ghost use Rattle.sq_binding.specs.Changeable.{item_at_leaf};
ghost use Rattle.sq_binding.specs.Select.{of_lines};
ghost use Rattle.sq_binder.specs.Found.{Finds};
ghost use Rattle.sq_binder.specs.Scope.{item_of};
ghost use Rattle.sq_binder.specs.Surroundings.{surroundings};
ghost use Rattle.sq_binder.specs.Changeable.{changed_of, table_name};
ghost use Rattle.sq_binder.specs.Names.{names_at};
ghost use Rattle.sq_binding.specs.SeenQuery.{assignment_seen};
ghost use Rattle.sq_binder.specs.Receiver.{AreWithin, column_made, columns_made, receiver_seen};
ghost use Rattle.sq_binder.specs.Update.{AreAssignmentsOf, IsAssignmentOf, assignment_in};

use crate::needed::require_privilege;
use crate::new_value::bind_new_value;
use crate::receiver::{Receiver, receiver_named, receivers_of};
use crate::{
    ChangeableTables, ChangedTable, Counts, Found, FromItem, Privilege, Stop, Surroundings,
    begin_list, item_at_leaf, with_next,
};
use sq_bound::BoundAssignment;
use sq_items::Items;
use sq_lex::Name;
use sq_tree::{Assignment, CommaList};
use std::slice::from_ref;

pub type AssignmentsResult = Result<Found<Items<BoundAssignment>>, Stop>;

/// The set clauses of an update of a table, each of a column of its own. The values may name columns of the table.
pub fn bind_assignments<T: ChangeableTables>(
    list: &CommaList<Assignment>,
    table: &ChangedTable<'_>,
    at: &Surroundings<'_, T>,
    before: Counts,
) -> AssignmentsResult
    ensures finds { let t = changed_of table.now in let a = surroundings T.named at.now in
        Finds (map assignment_seen) (spec.each_column t (λ s. s.column)
        (spec.assignment_bound (names_at T.named T.changes at.now) a t) [] (listed list.now)) before result }
    ensures columns { IfOk result
        (λ found. AreAssignmentsOf table.now.under.leaf.now.table found.part) }
{
    let receivers = receivers_of(at.environment.alloc, table)?;
    let bound = with_columns(list, table, receivers.as_slice(), &*at, before);
    drop(receivers);
    bound
}

/// Set clauses, if these columns may get values.
fn with_columns<T: ChangeableTables>(
    list: &CommaList<Assignment>,
    table: &ChangedTable<'_>,
    receivers: &[Receiver],
    at: &Surroundings<'_, T>,
    before: Counts,
) -> AssignmentsResult
    requires { AreWithin (length table.now.under.leaf.now.table.columns) (map receiver_seen receivers.now) }
    ensures finds { Finds (map assignment_seen)
        (columns_made (map receiver_seen receivers.now) (λ s. s.column)
        (assignment_in ((T.changes at.now.tables.now).holds (table_name table.now))
        (of_lines (item_at_leaf (changed_of table.now) ∷ []) (surroundings T.named at.now)))
        (listed list.now)) before result }
    ensures columns { IfOk result
        (λ found. AreAssignmentsOf table.now.under.leaf.now.table found.part) }
{
    let item = item_at_leaf(at.environment.alloc, table)?;
    let bound = over_item(list, table, receivers, &item, &*at, before);
    drop(item);
    bound
}

/// Set clauses whose values may name columns of this item.
fn over_item<'s, T: ChangeableTables>(
    list: &CommaList<Assignment>,
    table: &ChangedTable<'_>,
    receivers: &[Receiver],
    item: &'s FromItem,
    at: &'s Surroundings<'s, T>,
    before: Counts,
) -> AssignmentsResult
    requires { AreWithin (length table.now.under.leaf.now.table.columns) (map receiver_seen receivers.now) }
    ensures finds { Finds (map assignment_seen)
        (columns_made (map receiver_seen receivers.now) (λ s. s.column)
        (assignment_in ((T.changes at.now.tables.now).holds (table_name table.now))
        (of_lines (item_of item.now ∷ []) (surroundings T.named at.now))) (listed list.now)) before result }
    ensures columns { IfOk result
        (λ found. AreAssignmentsOf table.now.under.leaf.now.table found.part) }
{
    let environment = at
        .environment
        .within(at.environment.scope_over(from_ref(item), None));
    let lines = Surroundings {
        tables: at.tables,
        environment: &environment,
        functions_allowed: false,
    };
    in_turn(list, table, receivers, &lines, before)
}

fn in_turn<T: ChangeableTables>(
    list: &CommaList<Assignment>,
    table: &ChangedTable<'_>,
    receivers: &[Receiver],
    at: &Surroundings<'_, T>,
    before: Counts,
) -> AssignmentsResult
    requires { AreWithin (length table.now.under.leaf.now.table.columns) (map receiver_seen receivers.now) }
    ensures finds { Finds (map assignment_seen)
        (columns_made (map receiver_seen receivers.now) (λ s. s.column)
        (assignment_in ((T.changes at.now.tables.now).holds (table_name table.now))
        (surroundings T.named at.now)) (listed list.now)) before result }
    ensures columns { IfOk result
        (λ found. AreAssignmentsOf table.now.under.leaf.now.table found.part) }
{
    let first = bind_assignment(&list.first, false, table, receivers, at, before);
    let mut assignments = begin_list(at.environment.alloc, first)?;
    for (number, assignment) in list.rest.as_slice().iter().enumerate() {
        let again = is_assigned(list, number, assignment.column);
        let counts = assignments.brought.next;
        let next = bind_assignment(assignment, again, table, receivers, at, counts);
        match with_next(assignments, next) {
            Ok(more) => assignments = more,
            Err(stop) => return Err(stop),
        }
    }
    Ok(assignments)
}

/// Whether the first set clause, or one of the `number` after it, is of a column of this name.
fn is_assigned(list: &CommaList<Assignment>, number: usize, name: Name) -> bool
    requires { number ≤ length list.now.rest }
    ensures { result ≡ list_any (λ other. same_name other.column name)
        (list.now.first ∷ take number list.now.rest) }
{
    list.first.column == name || is_among(&list.rest.as_slice()[..number], name)
}

fn is_among(assignments: &[Assignment], name: Name) -> bool
    ensures { result ≡ list_any (λ other. same_name other.column name) assignments.now }
{
    assignments.iter().any(|other| other.column == name)
}

/// A set clause, of a column that one before it is of or not.
fn bind_assignment<T: ChangeableTables>(
    assignment: &Assignment,
    again: bool,
    table: &ChangedTable<'_>,
    receivers: &[Receiver],
    at: &Surroundings<'_, T>,
    before: Counts,
) -> Result<Found<BoundAssignment>, Stop>
    requires { AreWithin (length table.now.under.leaf.now.table.columns) (map receiver_seen receivers.now) }
    ensures finds { Finds assignment_seen
        (column_made (map receiver_seen receivers.now) assignment.now.column again
        (assignment_in ((T.changes at.now.tables.now).holds (table_name table.now))
        (surroundings T.named at.now) assignment.now)) before result }
    ensures column { IfOk result
        (λ found. IsAssignmentOf table.now.under.leaf.now.table found.part) }
{
    let column = assignment.column;
    let receiver = receiver_named(column, again, receivers)?;
    let Found { part, brought } = bind_new_value(&assignment.value, receiver.kind, at, before)?;
    let base = table.under.leaf.get().table.get();
    let may_update = at
        .tables
        .holds(table.user, table.name, Privilege::Update(column));
    Ok(Found {
        part: BoundAssignment {
            column: base.object_column(receiver.column),
            value: part,
        },
        brought: require_privilege(brought, may_update),
    })
}
