//! Statements of procedures (ISO/IEC 9075:1992, 13.2 to 13.10, 14.3 and 14.4).

ghost use Rattle.std.specs.Prelude.{List, IfOk, map};
ghost use Rattle.sq_bound.specs.declared.names.BaseTable.{BaseTable as AnyBase};
ghost use Rattle.sq_binding.specs.Statement.{statement_bound};
ghost use Rattle.sq_binder.specs.Binds.{Binds};
ghost use Rattle.sq_binder.specs.Scope.{declared_of};
ghost use Rattle.sq_binder.specs.Surroundings.{surroundings};
ghost use Rattle.sq_binder.specs.Names.{AreOverBases, names_at, user_names};
ghost use Rattle.sq_binder.specs.Statement.{statement_in};
ghost use Rattle.sq_binding.specs.SeenQuery.{statement_seen};
ghost use Rattle.sq_binding.specs.There.{StatementIsThere};

use crate::cursors::{Cursors, cursor_named};
use crate::delete::bind_delete;
use crate::fetch::bind_fetch;
use crate::insert::bind_insert;
use crate::needed::take_whole;
use crate::row::bind_row;
use crate::update::bind_update;
use crate::{ChangeableTables, Environment, Stop, Surroundings, at_first};
use sq_bound::{BoundStatement, ParameterDesc};
use sq_lex::Name;
use sq_tree::Statement;
use std::alloc::Global;

pub type StatementResult = Result<BoundStatement, Stop>;

/// A statement of a procedure of this user with these parameters, in a module with these cursors.
pub fn bind_statement<T: ChangeableTables, C: Cursors>(
    alloc: Global,
    user: Name,
    parameters: &[ParameterDesc],
    tables: &T,
    cursors: &C,
    statement: &Statement,
) -> StatementResult
    ensures binds { Binds statement_seen
        (statement_bound (user_names user (T.named tables.now) (T.changes tables.now))
        (map declared_of parameters.now) (C.named cursors.now) statement.now) result }
    ensures there { (bases : List AnyBase) → AreOverBases bases (T.changes tables.now)
        → IfOk result (StatementIsThere bases) }
{
    let environment = Environment {
        alloc,
        user,
        parameters,
        scope: None,
    };
    let at = Surroundings {
        tables,
        environment: &environment,
        functions_allowed: false,
    };
    statement_at(statement, &at, cursors)
}

fn statement_at<T: ChangeableTables, C: Cursors>(
    statement: &Statement,
    at: &Surroundings<'_, T>,
    cursors: &C,
) -> StatementResult
    ensures binds { Binds statement_seen (statement_in (names_at T.named T.changes at.now)
        (surroundings T.named at.now) (C.named cursors.now) statement.now) result }
    ensures there { (bases : List AnyBase) → AreOverBases bases (T.changes at.now.tables.now)
        → IfOk result (StatementIsThere bases) }
{
    let environment = at.environment;
    let first = at_first();
    match statement {
        Statement::Open(name) => Ok(BoundStatement::Open(cursor_named(cursors, *name)?.number)),
        Statement::Close(name) => Ok(BoundStatement::Close(cursor_named(cursors, *name)?.number)),
        Statement::Fetch(fetch) => Ok(BoundStatement::Fetch(bind_fetch(
            environment.alloc,
            fetch,
            environment.parameters,
            cursors,
        )?)),
        Statement::Select(select) => Ok(BoundStatement::Select(take_whole(bind_row(
            select, at, first,
        ))?)),
        Statement::Insert(insert) => Ok(BoundStatement::Insert(take_whole(bind_insert(
            insert, at, first,
        ))?)),
        Statement::Update(update) => Ok(BoundStatement::Update(take_whole(bind_update(
            update, at, cursors, first,
        ))?)),
        Statement::Delete(delete) => Ok(BoundStatement::Delete(take_whole(bind_delete(
            delete, at, cursors, first,
        ))?)),
        Statement::Commit(_) => Ok(BoundStatement::Commit),
        Statement::Rollback(_) => Ok(BoundStatement::Rollback),
    }
}
