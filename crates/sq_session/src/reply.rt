//! What a call answers.

ghost use Rattle.std.specs.Prelude.{◌≡◌};
ghost use Rattle.sq_meaning.specs.declared.status.Status.TheVariants as status;
ghost use Rattle.sq_session.specs.Target.{ended};

use sq_items::Items;
use sq_lex::Name;
use sq_meaning::Status;
use sq_value::Value;
use std::alloc::Global;

/// The status of a call, and what its targets and their indicators were set to, in the order in which the
/// parameters are declared.
#[derive(Debug, Drop)]
pub struct Reply {
    pub status: Status,
    pub outputs: Items<Output>,
    /// How many rows the store handed out to choose the rows of the target or query.
    pub reads: u64,
}

/// A parameter, and the value that it was set to.
#[derive(Debug, Drop)]
pub struct Output {
    pub name: Name,
    pub value: Value,
}

/// How a statement ends.
#[derive(Debug, Drop)]
pub struct Done {
    pub status: Status,
    pub outputs: Items<Output>,
}

impl Done {
    /// A status alone.
    pub(crate) fn without_outputs(alloc: Global, status: Status) -> Done
        ensures { result ≡ ended status }
    {
        Done {
            status,
            outputs: Items::new(alloc),
        }
    }

    /// The status of success alone.
    pub(crate) fn successful(alloc: Global) -> Done
        ensures { result ≡ ended status.SuccessfulCompletion }
    {
        Done::without_outputs(alloc, Status::SuccessfulCompletion)
    }
}
