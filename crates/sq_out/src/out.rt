//! The output that takes the bytes of a report.

ghost use Rattle.std.specs.Prelude.{◌≡◌, ◌≤◌, ◌||◌, List, ℕ, Bool, Option, length, IfOk};
ghost use Rattle.std.specs.Io.KnownBytes.{WriteAppends};
ghost use Rattle.sq_out.specs.Fault.{is_fault};

use thiserror::Error;

/// An output could not take the bytes given to it.
#[derive(Clone, Copy, Debug, PartialEq, Eq, Error)]
#[error("output fault")]
pub struct OutFault;

/// The output of a report.
///
/// Its meaning is the bytes taken so far, if they are known, and whether it has failed. It fails by an error, an
/// interrupted write included, or if it takes 0 bytes of at least one.
pub trait Out {
    ghost taken: { Self → Option (List ℕ) };

    ghost failed: { Self → Bool };

    /// Takes the first of the bytes and says how many.
    fn write(&mut self, bytes: &[u8]) -> Result<usize, OutFault>
        ensures bound { IfOk result (λ n. n ≤ length bytes.now) }
        ensures taken { WriteAppends (taken self.old) (taken self.new) result bytes.now }

        // A failure stays, and nothing but a fault is one.
        ensures failed { failed self.new ≡ (failed self.old || is_fault result (length bytes.now)) };
}
