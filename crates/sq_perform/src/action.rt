//! What a script asks for.
ghost use Rattle.std.specs.Prelude.{◌≡◌, true};
ghost use Rattle.sq_session.specs.Kind.{fits_at};
ghost use Rattle.sq_perform.specs.Action.{name_of, shown_name};
ghost use Rattle.sq_perform.specs.Steps.{IsPrepared};
ghost use Rattle.sq_perform.specs.declared.action.Action.TheVariants.{Show};

use sq_items::Items;
use sq_session::{FullName, ProcedureName, Session};
use sq_store::Store;
use sq_value::Value;

/// A script item whose names are looked up and whose values are read.
#[derive(Debug, Drop)]
pub enum Action {
    Call(CallAction),
    Show(ShowAction),
}

/// A call. `procedure` is the number of the procedure in the session, which has its name.
#[derive(Debug, Drop)]
pub struct CallAction {
    pub procedure: usize,
    pub values: Items<Value>,
}

impl CallAction {
    /// The name of the procedure that is called.
    pub fn name<S: Store>(&self, session: &Session<S>) -> ProcedureName
        requires { fits_at session.now.procedures self.now.procedure self.now.values ≡ true }
        ensures { result ≡ name_of session.now.procedures self.now }
    {
        match session.procedure_name(self.procedure) {
            Some(name) => name,
            None => unreachable!(),
        }
    }
}

/// A request to show a base table. `table` is its place in the session, which has its name.
#[derive(Clone, Copy, Debug)]
pub struct ShowAction {
    pub table: usize,
}

impl ShowAction {
    /// The owner and name of the table that is shown.
    #[tactic(auto, using(crate::proofs::Taken::shown_there))]
    pub fn name<S: Store>(&self, session: &Session<S>) -> FullName
        requires { IsPrepared session.now (Show self.now) }
        ensures { result ≡ shown_name session.now.tables self.now }
    {
        match session.table_name(self.table) {
            Some(name) => name,
            None => unreachable!(),
        }
    }
}
