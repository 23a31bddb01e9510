//! Values as the columns of a base table store them (ISO/IEC 9075:1992, 9.2).

ghost use Rattle.std.specs.Prelude.{◌≡◌, ◌≢◌, Err, IfErr, IfOk, false};
ghost use Rattle.std.specs.Option.{option_copied};
ghost use Rattle.sq_meaning.specs.Assignment as spec;
ghost use Rattle.sq_expression.specs.Fault.{Meets};
ghost use Rattle.sq_query.specs.MayRead.{MayEnd};
ghost use Rattle.sq_expression.specs.declared.fault.Fault.TheVariants.{NoMemory};
ghost use Rattle.sq_query.specs.Row.{line_of};
ghost use Rattle.sq_value.specs.Domain.{FitsKind, IsDomain, IsInDomain};
ghost use Rattle.sq_value.specs.Memory.{takes_memory};
ghost use Rattle.sq_change.specs.Given.{IsStorable};
ghost use Rattle.sq_change.specs.Made.{Shown, seen_by, value_stored};

use crate::setting::Setting;
use sq_bound::{BoundExpr, Names, ObjectColumn};
use sq_expression::Fault;
use sq_store::Store;
use sq_value::{Domain, Row, Value, store};
use std::alloc::Global;

/// The value of an expression as a column stores it.
pub(crate) fn stored_value<N: Names, S: Store>(
    setting: &Setting<'_, N, S>,
    column: ObjectColumn,
    expr: &BoundExpr,
    row: Option<&Row>,
) -> Result<Value, Fault>
    requires { IsStorable column.domain expr.now
        (line_of (option_copied row)) setting.now.parameters.now setting.now.user }
    ensures meant { (shown : Shown)
        → Meets result (value_stored shown (seen_by (N.view_queries setting.now.names.now)
        (S.content_now setting.now.store.now) setting.now.user setting.now.parameters.now)
        (line_of (option_copied row.entry))
        column.domain expr.now) }
    ensures in_domain { IfOk result (IsInDomain column.domain) }
    ensures right { IfErr result MayEnd }
{
    let value = setting.value(expr, row)?;
    assign_value(setting.alloc, column.domain, &value)
}

/// A value as a domain stores it, or the status for which it can't be stored. Null and a number take no memory.
#[tactic(auto, using(crate::proofs::NewRows::Stored::ok_meets, crate::proofs::NewRows::Stored::err_meets))]
pub fn assign_value(alloc: Global, domain: Domain, value: &Value) -> Result<Value, Fault>
    requires domain { IsDomain domain }
    requires kind { FitsKind domain value.now }
    ensures fit { Meets result (spec.assigned domain value.now) }
    ensures in_domain { IfOk result (IsInDomain domain) }
    ensures memory { takes_memory value.now ≡ false → result ≢ Err NoMemory }
    ensures right { IfErr result MayEnd }
{
    match store(alloc, value, domain) {
        Ok(stored) => Ok(stored),
        Err(fault) => Err(Fault::from(fault)),
    }
}
