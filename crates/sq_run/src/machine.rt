//! Processors as values: a host program opens one from texts and makes calls, one after the other.

ghost use Rattle.std.specs.Prelude.{◌≡◌, ◌≤◌, false, true, is_some, IfOk, IsOk, OnErr};
ghost use Rattle.sq_perform.specs.Texts.{texts};

use crate::counterpart::Counterpart;
use sq_lex::Name;
use sq_perform::{Limits, RunFault, open_session};
use sq_session::{Fault, Reply, Session, TableRows};
use sq_store::{MOST_ROW_NUMBERS, Store};
use sq_value::Value;
use std::alloc::{AllocError, Global};
use std::marker::Model;

/// The modules of some texts, with the tables and cursors that their procedures work on. A contract sees the table machine of
/// the texts, and the state to which calls have brought it.
#[derive(Drop)]
pub struct Processor<S: Store> {
    session: Session<S>,
    counterpart: Counterpart,
}

impl<S: Store> Model for Processor<S> {
    ghost use Rattle.std.specs.Coded.{codes};
    ghost use Rattle.sq_tree.specs.contracts.module.ModuleText as text;
    ghost use Rattle.sq_tree.specs.contracts.schema.SchemaElement as element;
    ghost use Rattle.sq_run.specs.Beside.{IsBeside};
    ghost use Rattle.sq_run.specs.Processor.{Machine};
    ghost use Rattle.sq_run.specs.Stored.{cursor_code};

    ghost Value = { Machine };

    ghost coded = { Prim.hlevel (codes, text.the_row.coded, element.the_row.coded, cursor_code) };

    ghost view = { λ p. p.counterpart.machine };

    ghost invariant = { λ p. IsBeside p.session p.counterpart.machine };
}

impl<S: Store> Processor<S> {
    ghost use Rattle.sq_run.specs.Answer.{accepted_program};
    ghost use Rattle.sq_run.specs.Beside.{IsBeside};
    ghost use Rattle.sq_run.specs.Faulty.{is_syntax_error};
    ghost use Rattle.sq_run.specs.Lawful.{Lawful};
    ghost use Rattle.sq_run.specs.Opens.{Opens};
    ghost use Rattle.sq_run.specs.Processor.{AllHold, CallReadsFew, FailsWithoutChange, IsStep, has_fault, needs_memory, number_of, rows_of, takes};

    /// Opens a processor of the texts: their machine in its first state, with empty tables and closed cursors. Texts that `run`
    /// refuses are refused with the same refusal.
    pub fn open(
        alloc: Global,
        schemas: &[Vec<u8>],
        modules: &[Vec<u8>],
        limits: Limits,
    ) -> Result<Processor<S>, RunFault>
        requires numbers { limits.row_numbers ≤ MOST_ROW_NUMBERS }
        ensures opened { Opens (accepted_program (texts schemas.now) (texts modules.now) limits.row_numbers) result }
        ensures constraints { IfOk result AllHold }
        ensures laws { IfOk result (λ m. Lawful m.program) }
    {
        match open_session::<S>(alloc, schemas, modules, limits) {
            Ok(session) => {
                let counterpart = Counterpart::start(schemas, modules, limits.row_numbers);
                Ok(Processor {
                    session,
                    counterpart,
                })
            }
            Err(fault) => Err(fault),
        }
    }

    /// The number of the procedure of this module and name.
    pub fn procedure(&self, module: Name, name: Name) -> Option<usize>
        ensures { result ≡ number_of self.now.program «module» name }
    {
        self.session.procedure(module, name)
    }

    /// Whether there are as many values as the procedure has parameters, and each parameter can store its own.
    pub fn fits(&self, procedure: usize, values: &[Value]) -> bool
        ensures { result ≡ takes self.now.program procedure values.now }
    {
        self.session.fits(procedure, values)
    }

    /// Makes one call of the procedure with this number, with these values for its parameters in the order in which
    /// they are declared. If memory runs out, nothing was called.
    pub fn call(
        &mut self,
        alloc: Global,
        procedure: usize,
        values: &[Value],
    ) -> Result<Reply, AllocError>
        requires fits { takes self.old.program procedure values.now ≡ true }
        ensures step { IfOk result (λ r. IsStep self.old procedure values.now r self.new) }
        ensures err { OnErr result (self.new ≡ self.old) }
        ensures faults { IfOk result (λ r. is_syntax_error r.status ≡ has_fault self.old.program procedure) }
        ensures constraints { AllHold self.new }
        ensures failures { IfOk result (λ r. FailsWithoutChange self.old r self.new) }
        ensures memory { needs_memory self.old.program procedure ≡ false → IsOk result }
        ensures reads { IfOk result (λ r. CallReadsFew self.old procedure values.now r.reads self.new) }
    {
        let reply = self.session.call(alloc, procedure, values)?;
        self.counterpart = self.counterpart.then(procedure, values);
        Ok(reply)
    }

    /// The fault for which each call of a procedure answers 42000, if its statement has one.
    pub fn fault(&self, procedure: usize) -> Option<Fault>
        ensures { is_some result ≡ has_fault self.now.program procedure }
    {
        self.session.fault(procedure)
    }

    /// The session that makes the calls. It has made the same calls as the machine, from the same texts.
    pub fn session(&self) -> &Session<S>
        ensures { IsBeside result.now self.now }
    {
        &self.session
    }

    /// The rows of the base table of this owner and name as they are now, with their numbers; `None` if there is no
    /// such base table.
    pub fn rows(&self, user: Name, name: Name) -> Option<TableRows<'_, S>>
        ensures { result ≡ rows_of self.now user name }
    {
        self.session.rows(user, name)
    }
}
