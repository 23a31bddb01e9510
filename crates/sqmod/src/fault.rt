//! Why a request was not carried out, and the status to end with.
ghost use Rattle.std.specs.Prelude.{◌≡◌};
ghost use Rattle.sqmod.specs.Fault.{status_of};

use sq_run::Refusal;
use sq_words::Source;

/// The status if a file is not read, or the output fails.
pub(crate) const FAILED: u8 = 1;

/// The status if words or texts are refused.
pub(crate) const REFUSED: u8 = 2;

/// The status if memory runs out.
pub(crate) const NO_MEMORY: u8 = 3;

/// The status if a procedure or a cursor has a fault.
pub(crate) const FAULTY: u8 = 4;

/// Why a request was not carried out.
#[derive(Clone, Copy)]
pub(crate) enum Fault {
    /// A file was not read.
    Unread(Source),
    /// A text was refused.
    Refused(Source, Refusal),
    /// The output did not take all of the report.
    Output,
    /// Memory ran out after this many items of the script.
    NoMemory(usize),
}

impl Fault {
    /// The status that the program ends with.
    pub(crate) fn status(self) -> u8
        ensures { result ≡ status_of self }
    {
        match self {
            Fault::Unread(_) | Fault::Output => FAILED,
            Fault::Refused(_, _) => REFUSED,
            Fault::NoMemory(_) => NO_MEMORY,
        }
    }
}
