//! The machine that a processor is, beside its session. It takes no memory: contracts alone see it.
ghost use Rattle.std.specs.Borrow.{ftrue};
ghost use Rattle.std.specs.Coded.{codes};
ghost use Rattle.sq_tree.specs.contracts.module.ModuleText as text;
ghost use Rattle.sq_tree.specs.contracts.schema.SchemaElement as element;
ghost use Rattle.sq_run.specs.Processor.{Machine};
ghost use Rattle.sq_run.specs.Stored.{cursor_code};

use sq_value::Value;
use std::marker::Model;

/// The machine in the state to which calls have brought it.
#[derive(Drop)]
pub(crate) struct Counterpart {
    pub ghost machine: { Machine } by { Prim.hlevel (codes, text.the_row.coded, element.the_row.coded, cursor_code) },
}

impl Model for Counterpart {
    ghost also_owns = { λ _. ftrue };
}

impl Counterpart {
    ghost use Rattle.std.specs.Prelude.{◌≡◌};
    ghost use Rattle.sq_perform.specs.Texts.{texts};
    ghost use Rattle.sq_run.specs.Processor.{AreAccepted, IsOpened, after_call};

    /// The machine of these texts, in its first state.
    pub(crate) fn start(schemas: &[Vec<u8>], modules: &[Vec<u8>], row_numbers: u64) -> Counterpart
        requires accepted { AreAccepted (texts schemas.now) (texts modules.now) }
        ensures { IsOpened row_numbers (texts schemas.now) (texts modules.now) result.machine }
    {
        Counterpart {}
    }

    /// The machine after a call of the procedure with this number.
    pub(crate) fn then(&self, procedure: usize, values: &[Value]) -> Counterpart
        ensures { result.machine ≡ after_call self.now.machine procedure values.now }
    {
        Counterpart {}
    }
}
