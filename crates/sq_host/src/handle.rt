//! The handle that C holds of a host.
ghost use Rattle.std.specs.Prelude.{◌≡◌, Some, None, MatchOption, IsSome};

use crate::apart::{put_together, take_apart};
use crate::host::Host;
use crate::kept::Kept;
use std::alloc::Global;
use std::mem::replace;

/// The word of a handle that leads to a host.
const OPEN: u64 = 8318550311921733710;

/// A handle, in memory of C's. With any other word than `OPEN` it leads to nothing. C makes none with that
/// word, copies none, and changes none: the ghost field is what C has to keep.
#[repr(C)]
#[derive(Drop)]
pub struct Handle {
    pub word: u64,
    pub kept: Kept,
    pub ghost is_open: { word ≡ 8318550311921733710 → IsSome kept.value },
}

impl Handle {
    ghost use Rattle.sq_host.specs.Host.{leads_to};

    /// A handle that leads to nothing.
    pub fn new() -> Handle
        ensures { leads_to result ≡ None }
    {
        Handle {
            word: 0,
            kept: Kept::none(),
        }
    }

    fn of(host: Box<Host>) -> Handle
        ensures { leads_to result ≡ Some host.value }
    {
        Handle {
            word: OPEN,
            kept: Kept::of(take_apart(host)),
        }
    }

    /// Takes the host, to which the handle then doesn't lead any more; none if it leads to none.
    pub(crate) fn take(&mut self, alloc: Global) -> Option<Box<Host>>
        ensures host { MatchOption result (leads_to self.old ≡ None)
            (λ host. leads_to self.old ≡ Some host.value) }
        ensures closed { leads_to self.new ≡ None }
    {
        if self.word != OPEN {
            return None;
        }
        let Handle { word: _, kept } = replace(self, Handle::new());
        Some(put_together(kept.into_parts(alloc)))
    }

    /// Makes the handle lead to a host.
    pub(crate) fn put(&mut self, host: Box<Host>)
        ensures { leads_to self.new ≡ Some host.value }
    {
        drop(replace(self, Handle::of(host)));
    }
}
