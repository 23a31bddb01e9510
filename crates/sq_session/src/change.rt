//! INSERT, UPDATE and DELETE, on the tables and cursors of a session.

ghost use Rattle.std.specs.Prelude.{◌≡◌, ◌<◌, length, is_ok, is_some, IfErr, IfOk, IfSome, IsSome, OnErr};
ghost use Rattle.sq_bound.specs.Fits.{FitsTarget, under};
ghost use Rattle.sq_bound.specs.declared.statement.BoundStatement.TheVariants.{Delete, Insert, Update};
ghost use Rattle.sq_change.specs.Statement.{IsGiven};
ghost use Rattle.sq_store.specs.Content.{row_at, table_at};
ghost use Rattle.sq_expression.specs.declared.fault.Failure.TheVariants as failure;
ghost use Rattle.sq_expression.specs.declared.fault.Fault.TheVariants as fault;
ghost use Rattle.sq_session.specs.Called.{IsWholeFor, MayPerform, kind_for};
ghost use Rattle.sq_session.specs.Cursors.{AreLegal};
ghost use Rattle.sq_session.specs.Metered.{StepReads};
ghost use Rattle.sq_session.specs.Schemas.{schemas_of};
ghost use Rattle.sq_session.specs.Step.{EndsRight, MayStep, ending, is_on_row, is_ready, number_meant, on_row};

use crate::called::Called;
use crate::cursor::number_on;
use crate::cursors::{leave_row, put_lists};
use crate::machine::Machine;
use crate::reply::Done;
use crate::walk_list::listed_walks;
use sq_bound::{BoundInsert, BoundUpdate, ChangeTarget, PositionedTarget};
use sq_change::{delete, insert, update};
use sq_expression::{Failure, Fault};
use sq_store::{Meter, Store};

impl<S: Store> Machine<S> {
    /// INSERT (13.8).
    #[tactic(auto, using(crate::proofs::Calls::Ending::done_right))]
    pub(crate) fn insert(
        &mut self,
        called: &Called<'_>,
        statement: &BoundInsert,
        meter: &mut Meter,
    ) -> Result<Done, Fault>
        requires may { MayPerform called.now (Insert statement.now) }
        requires whole { IsWholeFor called.now self.old }
        ensures step { IfSome (ending result) (λ d. MayStep (schemas_of called.now.catalog.now)
            (kind_for called.now (Insert statement.now))
            called.now.values.now self.old d self.new) }
        ensures right { IfSome (ending result) EndsRight }
        ensures tables { AreLegal called.now.catalog.now.bases self.new.tables }
        ensures err { OnErr result (self.new ≡ self.old) }
    {
        let inserted = insert(
            called.alloc,
            called.catalog,
            statement,
            &mut self.store,
            called.inputs(),
            meter,
        );
        if let Err(fault) = inserted {
            return Err(fault);
        }
        Ok(Done::successful(called.alloc))
    }

    /// UPDATE (13.9, 13.10).
    #[tactic(auto, using(crate::proofs::Calls::Ending::done_right, crate::proofs::Calls::Ending::invalid_right))]
    pub(crate) fn update(
        &mut self,
        called: &Called<'_>,
        statement: &BoundUpdate,
        meter: &mut Meter,
    ) -> Result<Done, Fault>
        requires may { MayPerform called.now (Update statement.now) }
        requires whole { IsWholeFor called.now self.old }
        requires meter { meter.old ≡ 0 }
        ensures tables { AreLegal called.now.catalog.now.bases self.new.tables }
        ensures step { IfSome (ending result) (λ d. MayStep (schemas_of called.now.catalog.now)
            (kind_for called.now (Update statement.now))
            called.now.values.now self.old d self.new) }
        ensures right { IfSome (ending result) EndsRight }
        ensures err { OnErr result (self.new ≡ self.old) }
        ensures read { IfSome (ending result) (λ d. StepReads
            (kind_for called.now (Update statement.now))
            called.now.values.now self.old meter.new) }
    {
        let on = self.current(called, &statement.target)?;
        let lists = listed_walks(called, statement, on, self.cursors.as_slice(), &self.store)?;
        let updated = update(
            called.alloc,
            called.catalog,
            statement,
            on,
            &mut self.store,
            called.inputs(),
            meter,
        );
        match updated {
            Ok(()) => {
                put_lists(self.cursors.as_mut_slice(), lists);
                Ok(Done::successful(called.alloc))
            }
            Err(fault) => {
                drop(lists);
                Err(fault)
            }
        }
    }

    /// DELETE (13.6, 13.7). After a positioned DELETE the cursor is before the next row.
    #[tactic(auto, using(crate::proofs::Calls::Ending::done_right, crate::proofs::Calls::Ending::invalid_right))]
    pub(crate) fn delete(
        &mut self,
        called: &Called<'_>,
        target: &ChangeTarget,
        meter: &mut Meter,
    ) -> Result<Done, Fault>
        requires may { MayPerform called.now (Delete target.now) }
        requires whole { IsWholeFor called.now self.old }
        requires meter { meter.old ≡ 0 }
        ensures tables { AreLegal called.now.catalog.now.bases self.new.tables }
        ensures step { IfSome (ending result) (λ d. MayStep (schemas_of called.now.catalog.now)
            (kind_for called.now (Delete target.now))
            called.now.values.now self.old d self.new) }
        ensures right { IfSome (ending result) EndsRight }
        ensures err { OnErr result (self.new ≡ self.old) }
        ensures read { IfSome (ending result) (λ d. StepReads
            (kind_for called.now (Delete target.now))
            called.now.values.now self.old meter.new) }
    {
        let on = self.current(called, target)?;
        let deleted = delete(
            called.alloc,
            called.catalog,
            target,
            on,
            &mut self.store,
            called.inputs(),
            meter,
        );
        if let Err(fault) = deleted {
            return Err(fault);
        }
        if let ChangeTarget::Positioned(positioned) = target {
            leave_row(self.cursors.as_mut_slice(), positioned.cursor);
        }
        Ok(Done::successful(called.alloc))
    }

    /// The number of the row that a positioned statement changes; `None` for a searched statement.
    fn current(&self, called: &Called<'_>, target: &ChangeTarget) -> Result<Option<u64>, Fault>
        requires target { FitsTarget called.now.catalog.now.bases (length called.now.cursors.now) target.now }
        requires whole { IsWholeFor called.now self.now }
        ensures ready { is_ok result ≡ is_ready self.now target.now }
        ensures given { IfOk result (IsGiven target.now) }
        ensures on { IfOk result (λ on. on ≡ number_meant self.now target.now) }
        ensures there { IfOk result
            (λ on. IfSome on
            (λ n. IsSome (row_at (table_at self.now.tables (under target.now).table.place) n))) }
        ensures refused { IfErr result (λ f. f ≡ fault.Status failure.InvalidCursorState) }
    {
        match target {
            ChangeTarget::Searched(_) => Ok(None),
            ChangeTarget::Positioned(positioned) => match self.number_there(positioned) {
                Some(number) => Ok(Some(number)),
                None => Err(Fault::Status(Failure::InvalidCursorState)),
            },
        }
    }

    /// The number of the row that a cursor is on, if the row is still there.
    fn number_there(&self, positioned: &PositionedTarget) -> Option<u64>
        requires cursor { positioned.now.cursor < length self.now.cursors }
        requires table { positioned.now.base < length self.now.tables }
        ensures there { is_some result ≡ is_on_row self.now positioned.now }
        ensures on { IfSome result (λ number. on_row self.now positioned.now ≡ Some number) }
        ensures row { IfSome result
            (λ number. IsSome (row_at (table_at self.now.tables positioned.now.base) number)) }
    {
        let number = number_on(&self.cursors[positioned.cursor])?;
        match self.store.row(positioned.base, number, &mut Meter::new()) {
            Some(_) => Some(number),
            None => None,
        }
    }
}
