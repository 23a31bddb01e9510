//! A call: a procedure's statement with the values that are handed in (ISO/IEC 9075:1992, 12.3).

ghost use Rattle.std.specs.Prelude.{◌≡◌, false, map, IfOk, IfSome, IsSome, None, OnErr, Some, true};
ghost use Rattle.sq_catalog.specs.Catalog.{column_kinds};
ghost use Rattle.sq_meaning.specs.Script.{fit};
ghost use Rattle.sq_session.specs.Asked.{IsAsked};
ghost use Rattle.sq_session.specs.Called.{IsWholeFor, MayPerform, kind_for};
ghost use Rattle.sq_session.specs.Cursors.{IsLeftBy, IsWhole};
ghost use Rattle.sq_session.specs.Kind.{fits_at, kind_at, kind_of, needs_memory, takes_memory};
ghost use Rattle.sq_session.specs.Metered.{CallReads};
ghost use Rattle.sq_session.specs.Parameter.{declared, started_values};
ghost use Rattle.sq_session.specs.Performed.{IsPerformed};
ghost use Rattle.sq_session.specs.Schemas.{schemas_of};
ghost use Rattle.sq_session.specs.Session.{SessionIsWhole, procedures_of};
ghost use Rattle.sq_session.specs.Step.{MayCall, ending};

use crate::called::Called;
use crate::machine::Machine;
use crate::parameter::start_values;
use crate::reply::{Done, Reply};
use sq_bound::BoundStatement;
use sq_catalog::Catalog;
use sq_expression::Fault;
use sq_module::{BoundProcedure, Program};
use sq_store::{Meter, Store};
use sq_value::Value;
use std::alloc::{AllocError, Global};
use std::mem;

/// Performs the statement of a procedure. One with a fault changes nothing.
pub(crate) fn call<S: Store>(
    alloc: Global,
    catalog: &Catalog,
    program: &Program,
    procedure: usize,
    values: &[Value],
    machine: &mut Machine<S>,
    meter: &mut Meter,
) -> Result<Done, Fault>
    requires session { SessionIsWhole (column_kinds catalog.now) catalog.now.bases program.now machine.old }
    requires values_fit { fits_at
        (procedures_of program.now.cursors.items program.now.procedures.entries) procedure values.now ≡ true }
    requires meter { meter.old ≡ 0 }
    ensures step { IfSome (ending result) (λ d.
        MayCall (schemas_of catalog.now)
        (kind_at (procedures_of program.now.cursors.items program.now.procedures.entries) procedure)
        values.now machine.old d machine.new) }
    ensures whole { IsWhole
        (column_kinds catalog.now) catalog.now.bases program.now.cursors.items machine.new }
    ensures err { OnErr result (machine.new ≡ machine.old) }
    ensures read { IfSome (ending result)
        (λ d. CallReads (kind_at (procedures_of program.now.cursors.items program.now.procedures.entries)
        procedure) values.now machine.old meter.new) }
    ensures memory { needs_memory
        (kind_at (procedures_of program.now.cursors.items program.now.procedures.entries) procedure) ≡ false
        → IsSome (ending result) }
{
    let procedure = &program.procedures[procedure];
    match &procedure.statement {
        Ok(statement) => perform_statement(
            alloc, catalog, program, procedure, statement, values, machine, meter,
        ),
        Err(_) => Err(Fault::NOT_WELL_FORMED),
    }
}

/// Performs a statement of a procedure.
#[tactic(auto, using(crate::proofs::Calls::Ending::done_right))]
fn perform_statement<S: Store>(
    alloc: Global,
    catalog: &Catalog,
    program: &Program,
    procedure: &BoundProcedure,
    statement: &BoundStatement,
    values: &[Value],
    machine: &mut Machine<S>,
    meter: &mut Meter,
) -> Result<Done, Fault>
    requires asked { IsAsked (column_kinds catalog.now) catalog.now.bases program.now.cursors.items
        procedure.now.parameters statement.now }
    requires values_fit { fit (map declared procedure.now.parameters) values.now ≡ true }
    requires whole { IsWhole
        (column_kinds catalog.now) catalog.now.bases program.now.cursors.items machine.old }
    requires meter { meter.old ≡ 0 }
    ensures left { IsLeftBy (column_kinds catalog.now) catalog.now.bases program.now.cursors.items
        statement.now machine.new }
    ensures performed { IsPerformed (schemas_of catalog.now)
        (kind_of program.now.cursors.items procedure.now.user procedure.now.parameters statement.now)
        (started_values procedure.now.parameters values.now) machine.old result machine.new meter.new }
    ensures err { OnErr result (machine.new ≡ machine.old) }
    ensures memory { takes_memory
        (kind_of program.now.cursors.items procedure.now.user procedure.now.parameters statement.now) ≡ false
        → IsSome (ending result) }
{
    match statement {
        BoundStatement::Close(cursor) => machine.close(alloc, *cursor),
        BoundStatement::Commit => Ok(machine.commit(alloc)),
        BoundStatement::Rollback => Ok(machine.rollback(alloc)),
        _ => with_values(
            alloc, catalog, program, procedure, statement, values, machine, meter,
        ),
    }
}

/// Stores the values in the parameters, and performs a statement that may read them.
#[tactic(auto, using(crate::proofs::Lasting::After::left_whole))]
fn with_values<S: Store>(
    alloc: Global,
    catalog: &Catalog,
    program: &Program,
    procedure: &BoundProcedure,
    statement: &BoundStatement,
    values: &[Value],
    machine: &mut Machine<S>,
    meter: &mut Meter,
) -> Result<Done, Fault>
    requires asked { IsAsked (column_kinds catalog.now) catalog.now.bases program.now.cursors.items
        procedure.now.parameters statement.now }
    requires values_fit { fit (map declared procedure.now.parameters) values.now ≡ true }
    requires whole { IsWhole
        (column_kinds catalog.now) catalog.now.bases program.now.cursors.items machine.old }
    requires meter { meter.old ≡ 0 }
    requires memory { takes_memory
        (kind_of program.now.cursors.items procedure.now.user procedure.now.parameters statement.now) ≡ true }
    ensures left { IsLeftBy (column_kinds catalog.now) catalog.now.bases program.now.cursors.items
        statement.now machine.new }
    ensures performed { IsPerformed (schemas_of catalog.now)
        (kind_of program.now.cursors.items procedure.now.user procedure.now.parameters statement.now)
        (started_values procedure.now.parameters values.now) machine.old result machine.new meter.new }
    ensures err { OnErr result (machine.new ≡ machine.old) }
{
    let mut started = mem::replace(&mut machine.started, Vec::new(alloc));
    start_values(alloc, procedure.parameters.as_slice(), values, &mut started)?;
    let called = Called {
        alloc,
        catalog,
        cursors: program.cursors.as_slice(),
        procedure,
        values: started.as_slice(),
    };
    let ended = performed_with(&called, statement, machine, meter);
    machine.started = started;
    ended
}

/// Performs a statement that may read the parameters' values.
fn performed_with<S: Store>(
    called: &Called<'_>,
    statement: &BoundStatement,
    machine: &mut Machine<S>,
    meter: &mut Meter,
) -> Result<Done, Fault>
    requires may { MayPerform called.now statement.now }
    requires whole { IsWholeFor called.now machine.old }
    requires meter { meter.old ≡ 0 }
    requires memory { takes_memory (kind_for called.now statement.now) ≡ true }
    ensures left { IsLeftBy (column_kinds called.now.catalog.now) called.now.catalog.now.bases
        called.now.cursors.now statement.now machine.new }
    ensures performed { IsPerformed (schemas_of called.now.catalog.now) (kind_for called.now statement.now)
        called.now.values.now machine.old result machine.new meter.new }
    ensures err { OnErr result (machine.new ≡ machine.old) }
{
    match statement {
        BoundStatement::Open(cursor) => machine.open(called, *cursor, meter),
        BoundStatement::Fetch(fetch) => machine.fetch(called, fetch, meter),
        BoundStatement::Select(select) => machine.select(called, select, meter),
        BoundStatement::Insert(insert) => machine.insert(called, insert, meter),
        BoundStatement::Update(update) => machine.update(called, update, meter),
        BoundStatement::Delete(target) => machine.delete(called, target, meter),
        BoundStatement::Close(_) | BoundStatement::Commit | BoundStatement::Rollback =>
            unreachable!(),
    }
}

/// The reply of a statement that was performed, or of one that changed nothing.
pub(crate) fn reply_of(
    alloc: Global,
    ended: Result<Done, Fault>,
    reads: u64,
) -> Result<Reply, AllocError>
    ensures ends { IfOk result
        (λ r. ending ended ≡ Some (record { status = r.status; outputs = r.outputs })) }
    ensures err { OnErr result (ending ended ≡ None) }
    ensures reads { IfOk result (λ r. r.reads ≡ reads) }
{
    let Done { status, outputs } = match ended {
        Ok(done) => done,
        Err(Fault::Status(failure)) => Done::without_outputs(alloc, failure.status()),
        Err(Fault::NoMemory) => return Err(AllocError),
    };
    Ok(Reply {
        status,
        outputs,
        reads,
    })
}
