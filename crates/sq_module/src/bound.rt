//! Cursors and statements of a user's module, over what a catalog holds.

ghost use Rattle.std.specs.Prelude.{◌≡◌, IfOk, Some, length};
ghost use Rattle.std.specs.Map.{lookup};
ghost use Rattle.sq_meaning.specs.Environment.{same_name};
ghost use Rattle.sq_binding.specs.Cursor.{cursor_bound};
ghost use Rattle.sq_binding.specs.Statement.{statement_bound};
ghost use Rattle.sq_binder.specs.Binds.{Binds};
ghost use Rattle.sq_bound.specs.Fits.{FitsCursor, FitsStatement};
ghost use Rattle.sq_bound.specs.WellFormed.{IsCursor, IsStatement, kinds_of_parameters};
ghost use Rattle.sq_catalog.specs.Catalog.{column_kinds, known};
ghost use Rattle.sq_catalog.specs.UserTables.{names_in};
ghost use Rattle.sq_binding.specs.Names.{declared};
ghost use Rattle.sq_binding.specs.SeenQuery.{cursor_seen, statement_seen};
ghost use Rattle.sq_binding.specs.Written.{IsCursorOf, IsStatementOf};
ghost use Rattle.sq_module.specs.Named.{cursors_named};
ghost use Rattle.sq_module.specs.Program.{kinds_of_cursors};

use crate::cursors::ModuleCursors;
use sq_binder::{Stop, bind_cursor, bind_statement};
use sq_bound::{BoundCursor, BoundStatement, ParameterDesc};
use sq_catalog::{Catalog, UserTables};
use sq_lex::Name;
use sq_tree::{Cursor, Statement};
use std::alloc::Global;

/// A cursor of a module of this user, for the parameters of the procedure that opens it.
pub fn bound_cursor(
    alloc: Global,
    catalog: &Catalog,
    user: Name,
    parameters: &[ParameterDesc],
    cursor: &Cursor,
) -> Result<BoundCursor, Stop>
    ensures binds { Binds cursor_seen (cursor_bound (names_in catalog.now user)
        (declared parameters.now) cursor.now) result }
    ensures fits { IfOk result (FitsCursor catalog.now.bases) }
    ensures well_formed { IfOk result (IsCursor (column_kinds catalog.now)
        (kinds_of_parameters parameters.now)) }
    ensures written { IfOk result (IsCursorOf (known catalog.now) user parameters.now cursor.now) }
{
    catalog.names_stand();
    let tables = UserTables { catalog, user };
    bind_cursor(alloc, cursor, &tables, user, parameters)
}

/// A statement of a procedure of this user with these parameters, in a module with these cursors.
pub(crate) fn bound_statement(
    alloc: Global,
    catalog: &Catalog,
    user: Name,
    parameters: &[ParameterDesc],
    cursors: &ModuleCursors<'_>,
    statement: &Statement,
) -> Result<BoundStatement, Stop>
    ensures binds { Binds statement_seen (statement_bound (names_in catalog.now user)
        (declared parameters.now)
        (cursors_named cursors.now.cursors.now cursors.now.numbers.now.entries) statement.now) result }
    ensures fits { IfOk result (FitsStatement catalog.now.bases (length cursors.now.cursors.now)
        (length parameters.now)) }
    ensures well_formed { IfOk result (IsStatement (column_kinds catalog.now)
        (kinds_of_cursors cursors.now.cursors.now) (kinds_of_parameters parameters.now)) }
    ensures written { IfOk result (IsStatementOf (known catalog.now)
        (λ name number. lookup (same_name name) cursors.now.numbers.now.entries ≡ Some number) user
        parameters.now statement.now) }
{
    catalog.names_stand();
    let tables = UserTables { catalog, user };
    bind_statement(alloc, user, parameters, &tables, cursors, statement)
}
