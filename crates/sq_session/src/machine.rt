//! The tables and cursors of a session, and the statements that work on cursors, select a row, or end a transaction.

ghost use Rattle.std.specs.Prelude.{◌≡◌, ◌<◌, length, replicate, IfOk, IfSome, IsSome, OnErr};
ghost use Rattle.sq_bound.specs.declared.statement.BoundStatement.TheVariants.{Fetch, Open, Select};
ghost use Rattle.sq_meaning.specs.declared.status.Status.TheVariants as status;
ghost use Rattle.sq_session.specs.Called.{IsWholeFor, MayPerform, OnlyOpens, fetching_for, opening_for, selecting_for};
ghost use Rattle.sq_session.specs.Kind.{over_at};
ghost use Rattle.sq_session.specs.Metered.{FetchReads, OpenReads, SelectReads};
ghost use Rattle.sq_session.specs.Schemas.{schemas_of};
ghost use Rattle.sq_session.specs.State.{committed_state, rolled_back};
ghost use Rattle.sq_session.specs.Step.{EndsRight, MayClose, MayFetch, MayOpen, MayOpenClosed, Selects, ending};
ghost use Rattle.sq_session.specs.Target.{ended};

use crate::called::Called;
use crate::cursor::CursorState;
use crate::cursors::{close_all, closed_cursors};
use crate::fetch::fetch_at;
use crate::open::open_closed;
use crate::reply::Done;
use crate::target::only_row_retrieved;
use sq_bound::{BoundFetch, BoundSelect};
use sq_expression::{Failure, Fault};
use sq_query::specification_rows;
use sq_store::{Meter, Store};
use sq_value::Value;
use std::alloc::{AllocError, Global};
use std::marker::Model;

/// The tables and cursors that statements work on.
#[derive(Drop)]
pub(crate) struct Machine<S: Store> {
    pub(crate) store: S,
    pub(crate) cursors: Vec<CursorState>,
    /// The list of the last call's parameters. It is kept, so that the next call asks for no memory to store its own.
    pub(crate) started: Vec<Value>,
}

impl<S: Store> Model for Machine<S> {
    ghost use Rattle.sq_session.specs.State.{State};

    ghost Value = { State };

    ghost view = { λ m. record {
      tables = S.content_now m.store;
      committed = S.committed m.store;
      keys = S.key_columns m.store;
      row_numbers = S.row_numbers m.store;
      cursors = m.cursors.items;
    } };
}

impl<S: Store> Machine<S> {
    /// The tables of a store, and `cursors` closed cursors.
    pub(crate) fn new(alloc: Global, store: S, cursors: usize) -> Result<Machine<S>, AllocError>
        ensures { IfOk result (λ m. m
            ≡ record {
              tables = S.content_now store;
              committed = S.committed store;
              keys = S.key_columns store;
              row_numbers = S.row_numbers store;
              cursors = replicate cursors CursorState.Closed;
            }) }
    {
        match closed_cursors(alloc, cursors) {
            Ok(cursors) => Ok(Machine {
                store,
                cursors,
                started: Vec::new(alloc),
            }),
            Err(error) => {
                drop(store);
                Err(error)
            }
        }
    }

    /// OPEN (13.2).
    #[tactic(auto, using(crate::proofs::OpenCursors::Over::as_many))]
    pub(crate) fn open(
        &mut self,
        called: &Called<'_>,
        number: usize,
        meter: &mut Meter,
    ) -> Result<Done, Fault>
        requires may { MayPerform called.now (Open number) }
        requires whole { IsWholeFor called.now self.old }
        requires meter { meter.old ≡ 0 }
        ensures left { OnlyOpens called.now self.old self.new }
        ensures step { IfSome (ending result) (λ d. MayOpen (schemas_of called.now.catalog.now)
            (opening_for called.now number)
            called.now.values.now self.old d self.new) }
        ensures right { IfSome (ending result) EndsRight }
        ensures err { OnErr result (self.new ≡ self.old) }
        ensures read { IfSome (ending result)
            (λ d. OpenReads (over_at called.now.cursors.now number) meter.new) }
    {
        match &self.cursors[number] {
            CursorState::Closed => self.open_closed(called, number, meter),
            _ => Err(Fault::Status(Failure::InvalidCursorState)),
        }
    }

    /// OPEN of a cursor that is closed.
    fn open_closed(
        &mut self,
        called: &Called<'_>,
        number: usize,
        meter: &mut Meter,
    ) -> Result<Done, Fault>
        requires may { MayPerform called.now (Open number) }
        requires whole { IsWholeFor called.now self.old }
        requires meter { meter.old ≡ 0 }
        ensures left { OnlyOpens called.now self.old self.new }
        ensures step { IfSome (ending result) (λ d. MayOpenClosed (schemas_of called.now.catalog.now)
            (opening_for called.now number)
            called.now.values.now self.old d self.new) }
        ensures right { IfSome (ending result) EndsRight }
        ensures err { OnErr result (self.new ≡ self.old) }
        ensures read { OpenReads (over_at called.now.cursors.now number) meter.new }
    {
        open_closed(
            called,
            number,
            self.cursors.as_mut_slice(),
            &self.store,
            meter,
        )
    }

    /// FETCH (13.3). If retrieving fails, the cursor stays on the row that it reached.
    pub(crate) fn fetch(
        &mut self,
        called: &Called<'_>,
        fetch: &BoundFetch,
        meter: &mut Meter,
    ) -> Result<Done, Fault>
        requires may { MayPerform called.now (Fetch fetch.now) }
        requires whole { IsWholeFor called.now self.old }
        requires meter { meter.old ≡ 0 }
        ensures step { IfSome (ending result) (λ d. MayFetch
            (fetching_for called.now fetch.now)
            called.now.values.now self.old d self.new) }
        ensures right { IfSome (ending result) EndsRight }
        ensures tables { self.new.tables ≡ self.old.tables }
        ensures err { OnErr result (self.new ≡ self.old) }
        ensures read { IfSome (ending result) (λ d. FetchReads
            (fetching_for called.now fetch.now) self.old meter.new) }
    {
        fetch_at(
            called,
            fetch,
            self.cursors.as_mut_slice(),
            &self.store,
            meter,
        )
    }

    /// CLOSE (13.4).
    #[tactic(auto, using(crate::proofs::Calls::Ending::done_right))]
    pub(crate) fn close(&mut self, alloc: Global, number: usize) -> Result<Done, Fault>
        requires { number < length self.old.cursors }
        ensures step { IfSome (ending result) (λ d. MayClose number self.old d self.new) }
        ensures right { IfSome (ending result) EndsRight }
        ensures tables { self.new.tables ≡ self.old.tables }
        ensures err { OnErr result (self.new ≡ self.old) }
        ensures memory { IsSome (ending result) }
    {
        match &self.cursors[number] {
            CursorState::Closed => Err(Fault::Status(Failure::InvalidCursorState)),
            _ => {
                self.cursors[number] = CursorState::Closed;
                Ok(Done::successful(alloc))
            }
        }
    }

    /// A select statement of one row (13.5).
    pub(crate) fn select(
        &self,
        called: &Called<'_>,
        select: &BoundSelect,
        meter: &mut Meter,
    ) -> Result<Done, Fault>
        requires may { MayPerform called.now (Select select.now) }
        requires whole { IsWholeFor called.now self.now }
        requires meter { meter.old ≡ 0 }
        ensures step { IfSome (ending result) (Selects (schemas_of called.now.catalog.now)
            (selecting_for called.now select.now) called.now.values.now self.now.tables) }
        ensures right { IfSome (ending result) EndsRight }
        ensures read { IfSome (ending result) (λ d. SelectReads
            (selecting_for called.now select.now) called.now.values.now self.now meter.new) }
    {
        let found = specification_rows(
            called.alloc,
            called.catalog,
            &select.query,
            &self.store,
            called.inputs(),
            meter,
        );
        match found {
            Ok(rows) => {
                let done = only_row_retrieved(called, select, rows.as_slice());
                drop(rows);
                done
            }
            Err(fault) => Err(fault),
        }
    }

    /// COMMIT (14.3) closes all cursors.
    pub(crate) fn commit(&mut self, alloc: Global) -> Done
        ensures state { self.new ≡ committed_state self.old }
        ensures done { result ≡ ended status.SuccessfulCompletion }
    {
        close_all(self.cursors.as_mut_slice());
        self.store.commit();
        Done::successful(alloc)
    }

    /// ROLLBACK (14.4) closes all cursors.
    pub(crate) fn rollback(&mut self, alloc: Global) -> Done
        ensures state { self.new ≡ rolled_back self.old }
        ensures done { result ≡ ended status.SuccessfulCompletion }
    {
        close_all(self.cursors.as_mut_slice());
        self.store.rollback();
        Done::successful(alloc)
    }
}
