//! The conditions of CHECK (ISO/IEC 9075:1992, 11.9).

ghost use Rattle.std.specs.Prelude.{◌≡◌, ◌∷◌, [], IfOk, None, Ok, map};
ghost use Rattle.sq_meaning.specs.Spelled.{cond_of};
ghost use Rattle.sq_binding.specs.Condition.{cond_bound};
ghost use Rattle.sq_binding.specs.Found.{Binding};
ghost use Rattle.sq_binding.specs.NumberedCondition.{NumberedCond};
ghost use Rattle.sq_binding.specs.Seen.{cond_seen};
ghost use Rattle.sq_binding.specs.Select.{of_lines};
ghost use Rattle.sq_binding.specs.View as spec;
ghost use Rattle.sq_binding.specs.Whole.{at_first};
ghost use Rattle.sq_binder.specs.Found.{Finds, found_of};
ghost use Rattle.sq_binder.specs.Scope.{item_of};
ghost use Rattle.sq_binder.specs.Surroundings.{descriptor_of};
ghost use Rattle.sq_binder.specs.Check.{BindsCheck, no_tables};

use crate::whole::at_first;
use crate::{
    CondResult, Environment, Found, FromItem, NamedTable, Stop, Surroundings, Tables, bind_cond,
    columns_over,
};
use sq_bound::{BoundCond, Column, TablePlace};
use sq_lex::Name;
use sq_meaning::BindingFault;
use sq_tree::Cond;
use std::alloc::{AllocError, Global};
use std::slice::from_ref;

/// Why the condition of a CHECK is not bound.
#[derive(Clone, Copy, Debug)]
pub enum CheckStop {
    /// The condition breaks this rule.
    Broken(BindingFault),
    /// A subquery or USER, which a CHECK may not have (own rule).
    NotInCheck,
    /// Memory ran out.
    NoMemory,
}

pub type CheckResult = Result<BoundCond, CheckStop>;

/// No table may be named in a CHECK.
struct NoTables;

impl Tables for NoTables {
    ghost named = { λ _ _. None };

    fn table(&self, _user: Name, _name: Name) -> Option<NamedTable<'_>> {
        None
    }
}

/// A CHECK condition that a user writes on the rows of a base table of this owner and name with these columns. `place` is the
/// place that the table will have.
pub fn bind_check(
    alloc: Global,
    user: Name,
    table: (Name, Name),
    place: usize,
    columns: &[Column],
    cond: &Cond,
) -> CheckResult
    ensures { BindsCheck (spec.check_bound (record { user = table.0; name = table.1 })
        (map descriptor_of columns.now) (cond_of user cond.now)) result }
{
    let Ok(item) = own_item(alloc, table, place, columns) else {
        return Err(CheckStop::NoMemory);
    };
    let environment = Environment::new(alloc, user, &[]);
    let condition = condition_over(cond, &item, &environment);
    drop(item);
    check_condition(condition)
}

/// The table that is defined, as an item.
fn own_item(
    alloc: Global,
    table: (Name, Name),
    place: usize,
    columns: &[Column],
) -> Result<FromItem, AllocError>
    ensures { IfOk result (λ item. item_of item
        ≡ spec.own_item (record { user = table.0; name = table.1 }) (map descriptor_of columns.now)) }
{
    let columns = columns_over(alloc, columns)?;
    Ok(FromItem {
        place: TablePlace::Base(place),
        user: table.0,
        name: table.1,
        correlation: None,
        columns,
    })
}

/// A condition on the rows that an item shows.
fn condition_over<'s>(
    cond: &Cond,
    item: &'s FromItem,
    environment: &'s Environment<'s>,
) -> CondResult
    ensures { Finds cond_seen (cond_bound (of_lines (item_of item.now ∷ []) (no_tables environment.now))
        (cond_of environment.now.user cond.now)) (record { functions = 0; subqueries = 0 }) result }
{
    let environment = environment.within(environment.scope_over(from_ref(item), None));
    let lines = Surroundings {
        tables: &NoTables,
        environment: &environment,
        functions_allowed: false,
    };
    bind_cond(cond, &lines, at_first())
}

/// A bound condition, if it has neither a subquery nor USER.
fn check_condition(cond: CondResult) -> CheckResult
    ensures { (b : Binding NumberedCond) → Finds cond_seen b (record { functions = 0; subqueries = 0 }) cond
        → BindsCheck (spec.checked (b at_first)) result }
{
    match cond {
        Ok(found) => check_contents(found),
        Err(Stop::Fault(fault)) => Err(CheckStop::Broken(fault.rule)),
        Err(Stop::NoMemory) => Err(CheckStop::NoMemory),
    }
}

fn check_contents(found: Found<BoundCond>) -> CheckResult
    ensures { BindsCheck (spec.checked (Ok (found_of cond_seen found))) result }
{
    let Found { part, brought } = found;
    let may_stand = !(brought.findings.values.has_user || brought.findings.has_subquery);
    drop(brought);
    if may_stand {
        Ok(part)
    } else {
        drop(part);
        Err(CheckStop::NotInCheck)
    }
}
