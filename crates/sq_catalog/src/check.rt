//! The conditions of CHECK, each on the columns of the table alone (ISO/IEC 9075:1992, 11.9).

ghost use Rattle.std.specs.Prelude.{map};
ghost use Rattle.sq_binding.specs.Seen.{cond_seen};
ghost use Rattle.sq_binding.specs.ElementOutcome.{each};
ghost use Rattle.sq_binding.specs.Names.{descriptor_of};
ghost use Rattle.sq_catalog.specs.Checks.{check_over};
ghost use Rattle.sq_catalog.specs.Exact.{name_in};
ghost use Rattle.sq_catalog.specs.Fault.{Makes};
ghost use Rattle.sq_catalog.specs.Written.{conditions_lent};

use crate::catalog::FullName;
use crate::fault::ElementFault;
use sq_binder::{CheckStop, bind_check};
use sq_bound::{BoundCond, Column};
use sq_items::Items;
use sq_lex::Name;
use sq_meaning::SchemaFault;
use sq_tree::Cond;
use std::alloc::Global;

/// The table of a CHECK: the user who defines it, its name, the place that it will have, and its columns.
#[derive(Clone, Copy)]
pub(crate) struct CheckedTable<'a> {
    pub user: Name,
    pub name: &'a FullName,
    pub place: usize,
    pub columns: &'a [Column],
}

/// The conditions of the table.
pub(crate) fn bound_checks(
    alloc: Global,
    table: &CheckedTable<'_>,
    checks: &[&Cond],
) -> Result<Items<BoundCond>, ElementFault>
    ensures { Makes (map cond_seen) (each
        (check_over table.now.user (name_in table.now.name.now) (map descriptor_of table.now.columns.now))
        (conditions_lent checks.now)) result }
{
    let mut bound = Items::new(alloc);
    for check in checks {
        match bound_check(alloc, table, check) {
            Ok(condition) => bound.push(condition)?,
            Err(fault) => {
                drop(bound);
                return Err(fault);
            }
        }
    }
    Ok(bound)
}

fn bound_check(
    alloc: Global,
    table: &CheckedTable<'_>,
    check: &Cond,
) -> Result<BoundCond, ElementFault>
    ensures { Makes cond_seen (check_over table.now.user (name_in table.now.name.now)
        (map descriptor_of table.now.columns.now) check.now) result }
{
    let name = (table.name.user, table.name.name);
    match bind_check(alloc, table.user, name, table.place, table.columns, check) {
        Ok(condition) => Ok(condition),
        Err(CheckStop::NoMemory) => Err(ElementFault::NoMemory),
        Err(CheckStop::Broken(_)) => Err(ElementFault::Refused(SchemaFault::BadCheck)),
        Err(CheckStop::NotInCheck) => Err(ElementFault::Refused(SchemaFault::BadCheck)),
    }
}
