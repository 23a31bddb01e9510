//! The remarks on cursors (ISO/IEC 9075:1992, 13.1).

ghost use Rattle.std.specs.Prelude.{IfOk};
ghost use Rattle.sq_check.specs.Remark as spec;

use crate::remark::Remark;
use crate::rule::cursor_rule;
use sq_binder::Stop;
use sq_bound::{BoundCursor, CursorBody, ParameterDesc};
use sq_catalog::Catalog;
use sq_lex::Name;
use sq_module::bound_cursor;
use sq_tree::Cursor;
use std::alloc::{AllocError, Global};

/// The remark on a cursor of a user's module, if a procedure with these parameters opens it.
#[tactic(auto, using(crate::proofs::Cursors::with_fault, crate::proofs::Cursors::with_body))]
pub(crate) fn cursor_remark(
    alloc: Global,
    catalog: &Catalog,
    user: Name,
    parameters: &[ParameterDesc],
    cursor: &Cursor,
) -> Result<Remark, AllocError>
    ensures { IfOk result (spec.IsRemarkWith catalog.now user parameters.now cursor.now) }
{
    match bound_cursor(alloc, catalog, user, parameters, cursor) {
        Ok(bound) => remark_of(alloc, cursor, bound),
        Err(Stop::Fault(fault)) => Ok(Remark::Fault(fault)),
        Err(Stop::NoMemory) => Err(AllocError),
    }
}

fn remark_of(alloc: Global, cursor: &Cursor, bound: BoundCursor) -> Result<Remark, AllocError>
    ensures { IfOk result (spec.IsOfBody cursor.now bound.body) }
{
    let remark = body_remark(alloc, cursor, &bound.body);
    drop(bound);
    remark
}

/// The remark on a cursor with this body.
#[tactic(auto, using(crate::proofs::Cursors::of_rows))]
fn body_remark(alloc: Global, cursor: &Cursor, body: &CursorBody) -> Result<Remark, AllocError>
    ensures { IfOk result (spec.IsOfBody cursor.now body.now) }
{
    match body {
        CursorBody::Updatable(_) => Ok(Remark::Updatable),
        CursorBody::Rows(_, _) => match cursor_rule(alloc, cursor) {
            Ok(rule) => Ok(Remark::NotUpdatable(rule)),
            Err(error) => Err(error),
        },
    }
}
