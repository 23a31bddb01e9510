//! Rows of base tables that are under tables that may be changed (ISO/IEC 9075:1992, 13.6 to 13.10).

ghost use Rattle.std.specs.Prelude.{◌≡◌, ◌∷◌, [], IfOk};
ghost use Rattle.std.specs.Option.{option_map};
ghost use Rattle.sq_meaning.specs.Spelled.{clause, cond_of};
ghost use Rattle.sq_bound.specs.Names.{option_all};
ghost use Rattle.sq_bound.specs.Quiet.{is_quiet_cond};
ghost use Rattle.sq_binding.specs.Changeable as spec;
ghost use Rattle.sq_binding.specs.Condition.{clause_bound};
ghost use Rattle.sq_binding.specs.Found.{Binding, from_first};
ghost use Rattle.sq_binding.specs.NumberedCondition.{NumberedClause};
ghost use Rattle.sq_binding.specs.Select.{of_lines};
ghost use Rattle.sq_binder.specs.Found.{Finds};
ghost use Rattle.sq_binder.specs.Scope.{item_of};
ghost use Rattle.sq_binder.specs.Specification.{clause_seen};
ghost use Rattle.sq_binder.specs.Surroundings.{surroundings};
ghost use Rattle.sq_binder.specs.declared.found.Counts.{Counts as AnyCounts};
ghost use Rattle.sq_binder.specs.Changeable.{IsNotedKey, changed_of, target_bound, target_made};
ghost use Rattle.sq_binding.specs.SeenQuery.{target_seen};

use crate::changeable::{ChangedTable, item_at_leaf};
use crate::under::UnderTable;
use crate::{
    ClauseResult, Counts, Found, FromItem, Stop, Surroundings, Tables, bind_cond, bring_nothing,
    count_functions, make_present,
};
use sq_bound::{BoundCond, Target, is_quiet_cond, shortest_key};
use sq_tree::Cond;
use std::alloc::AllocError;
use std::slice::from_ref;

pub type TargetResult = Result<Found<Target>, Stop>;

/// The rows under a table that meet a condition, if one is written.
pub fn bind_target<T: Tables>(
    cond: Option<&Cond>,
    table: &ChangedTable<'_>,
    at: &Surroundings<'_, T>,
    before: Counts,
) -> TargetResult
    ensures finds { Finds target_seen (target_bound (surroundings T.named at.now) (changed_of table.now)
        (clause (option_map (λ c. cond_of at.now.environment.now.user c.now) cond.entry))) before result }
    ensures leaf { IfOk result (λ found. found.part.leaf ≡ table.now.under.leaf.now) }
    ensures key { IfOk result (λ found. IsNotedKey table.now.under.is_base
        found.brought.findings.has_subquery found.part.leaf found.part.condition found.part.key) }
{
    let item = item_at_leaf(at.environment.alloc, table)?;
    let condition = condition_over(cond, &item, &*at, before);
    drop(item);
    found_target(table, condition)
}

/// A condition on the rows that an item shows, in which no set function may occur.
fn condition_over<'s, T: Tables>(
    cond: Option<&Cond>,
    item: &'s FromItem,
    at: &'s Surroundings<'s, T>,
    before: Counts,
) -> ClauseResult
    ensures { Finds clause_seen (from_first (clause_bound
        (of_lines (item_of item.now ∷ []) (surroundings T.named at.now))
        (clause (option_map (λ c. cond_of at.now.environment.now.user c.now) cond.entry)))) before result }
{
    let environment = at
        .environment
        .within(at.environment.scope_over(from_ref(item), None));
    let lines = Surroundings {
        tables: at.tables,
        environment: &environment,
        functions_allowed: false,
    };
    let condition = clause_value(cond, &lines, before.first());
    count_functions(condition, before)
}

/// A condition, if one is written.
fn clause_value<T: Tables>(
    cond: Option<&Cond>,
    at: &Surroundings<'_, T>,
    before: Counts,
) -> ClauseResult
    ensures { Finds clause_seen (clause_bound (surroundings T.named at.now)
        (clause (option_map (λ c. cond_of at.now.environment.now.user c.now) cond.entry))) before result }
{
    match cond {
        None => Ok(bring_nothing(at.environment.alloc, None, before)),
        Some(cond) => make_present(bind_cond(cond, at, before)),
    }
}

/// The rows under a table that meet a condition that is bound.
fn found_target(table: &ChangedTable<'_>, condition: ClauseResult) -> TargetResult
    ensures target { (b : Binding NumberedClause) (before : AnyCounts) → Finds clause_seen b before condition
        → Finds target_seen (target_made (changed_of table.now) b) before result }
    ensures leaf { IfOk result (λ found. found.part.leaf ≡ table.now.under.leaf.now) }
    ensures key { IfOk result (λ found. IsNotedKey table.now.under.is_base
        found.brought.findings.has_subquery found.part.leaf found.part.condition found.part.key) }
{
    let Found { part, brought } = condition?;
    match target_over(table, part, brought.findings.has_subquery) {
        Ok(part) => Ok(Found { part, brought }),
        Err(_) => {
            drop(brought);
            Err(Stop::NoMemory)
        }
    }
}

fn target_over(
    table: &ChangedTable<'_>,
    condition: Option<BoundCond>,
    has_subquery: bool,
) -> Result<Target, AllocError>
    ensures target { IfOk result (λ target. target_seen target
        ≡ spec.target_over (changed_of table.now) (clause_seen condition)) }
    ensures leaf { IfOk result (λ target. target.leaf ≡ table.now.under.leaf.now) }
    ensures key { IfOk result (λ target. IsNotedKey table.now.under.is_base has_subquery target.leaf
        target.condition target.key) }
{
    let key = key_of(&condition, has_subquery, &table.under);
    let is_quiet = is_quiet_where(&condition) && table.under.leaf.get().is_quiet;
    match table.under.leaf.share() {
        Ok(leaf) => Ok(Target {
            table: table.table.place,
            base: table.base(),
            leaf,
            condition,
            key,
            is_quiet,
        }),
        Err(error) => {
            drop(condition);
            Err(error)
        }
    }
}

/// Whether the truth of a condition, if there is one, is never a fault.
fn is_quiet_where(condition: &Option<BoundCond>) -> bool
    ensures { result ≡ option_all is_quiet_cond condition.now }
{
    match condition {
        Some(condition) => is_quiet_cond(condition),
        None => true,
    }
}

/// The key that is noted for a condition.
fn key_of(
    condition: &Option<BoundCond>,
    has_subquery: bool,
    under: &UnderTable<'_>,
) -> Option<usize>
    ensures { IsNotedKey under.now.is_base has_subquery under.now.leaf.now condition.now result }
{
    let Some(condition) = condition else {
        return None;
    };
    if under.is_base && !has_subquery {
        shortest_key(under.leaf.get().table.get().keys.as_slice(), condition)
    } else {
        None
    }
}
