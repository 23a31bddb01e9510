//! Check options, of the rows that a statement would put in a table (ISO/IEC 9075:1992, 11.19).

ghost use Rattle.std.specs.Prelude.{IfOk, IfSome, IsTrue};
ghost use Rattle.sq_catalog.specs.Catalog.{column_kinds};
ghost use Rattle.sq_change.specs.Made.{seen_by};
ghost use Rattle.sq_query.specs.Needed.{FindsCond, FindsConds};
ghost use Rattle.sq_session.specs.Schemas.{schemas_of};
ghost use Rattle.sq_cause.specs.Option.{IsNotTrue, IsOptionBreach, IsUntrueLevel};

use crate::cause::OptionBreach;
use crate::put::put_at;
use sq_bound::{BoundCond, Leaf, Shared};
use sq_catalog::Catalog;
use sq_change::Setting;
use sq_expression::Fault;
use sq_store::{Change, Store};
use sq_value::{Row, Truth};
use std::alloc::AllocError;

/// The first row that is put in and does not meet a check option.
pub(crate) fn option_breach<S: Store>(
    setting: &Setting<'_, Catalog, S>,
    leaf: &Leaf,
    changes: &[Change],
) -> Result<Option<OptionBreach>, AllocError>
    requires { FindsConds setting.now.names.now.bases (column_kinds setting.now.names.now) leaf.now.conditions }
    ensures { IfOk result (λ found. IfSome found (IsOptionBreach (schemas_of setting.now.names.now)
        (seen_by setting.now.names.now.views (S.content_now setting.now.store.now) setting.now.user
        setting.now.parameters.now) leaf.now changes.now)) }
{
    for place in 0..changes.len() {
        if let Some((put, row)) = put_at(changes, place) {
            if let Some(level) = untrue_level(setting, leaf, row)? {
                return Ok(Some(OptionBreach { put, level }));
            }
        }
    }
    Ok(None)
}

/// The first condition, from inside out, that a row has to meet and does not.
fn untrue_level<S: Store>(
    setting: &Setting<'_, Catalog, S>,
    leaf: &Leaf,
    row: &Row,
) -> Result<Option<usize>, AllocError>
    requires { FindsConds setting.now.names.now.bases (column_kinds setting.now.names.now) leaf.now.conditions }
    ensures { IfOk result (λ found. IfSome found (IsUntrueLevel (schemas_of setting.now.names.now)
        (seen_by setting.now.names.now.views (S.content_now setting.now.store.now) setting.now.user
        setting.now.parameters.now) leaf.now row.now)) }
{
    for (level, condition) in leaf.conditions.as_slice().iter().enumerate() {
        if level < leaf.demanded && is_not_true(setting, condition, row)? {
            return Ok(Some(level));
        }
    }
    Ok(None)
}

/// Whether a condition is false or unknown of a row.
fn is_not_true<S: Store>(
    setting: &Setting<'_, Catalog, S>,
    condition: &Shared<BoundCond>,
    row: &Row,
) -> Result<bool, AllocError>
    requires { FindsCond setting.now.names.now.bases (column_kinds setting.now.names.now) condition.now }
    ensures { IfOk result (λ is. IsTrue is → IsNotTrue (schemas_of setting.now.names.now)
        (seen_by setting.now.names.now.views (S.content_now setting.now.store.now) setting.now.user
        setting.now.parameters.now) row.now condition.now) }
{
    match setting.truth(condition.get(), row) {
        Ok(Truth::False) => Ok(true),
        Ok(Truth::Unknown) => Ok(true),
        Ok(Truth::True) => Ok(false),
        Err(Fault::Status(_)) => Ok(false),
        Err(Fault::NoMemory) => Err(AllocError),
    }
}
