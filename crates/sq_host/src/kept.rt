//! A host by an address that C may keep.
ghost use Rattle.std.specs.Prelude.{◌≡◌, Some, None, IsSome};
ghost use Rattle.std.specs.Coded.{coded_option};
ghost use Rattle.std.specs.declared.option.Option.{Option};
ghost use Rattle.sq_host.specs.contracts.host.Host as host;
ghost use Rattle.sq_host.specs.declared.host.Host.{Host};

use crate::apart::Apart;
use crate::host::Host;
use std::alloc::Global;
use std::marker::Model;
use std::ptr::null_mut;

/// The address of a host on the heap, or null. C owns the memory of this value, and never what it leads to.
#[repr(C)]
#[derive(Drop)]
pub struct Kept {
    at: *mut u8,
    pub ghost value: { Option Host } by { coded_option host.the_row.coded },
}

impl Model for Kept {
    ghost use Rattle.sq_host.specs.Kept.{kept_owns};
    ghost use Rattle.sq_host.specs.contracts.host.Host as host;

    ghost also_owns = { λ k. kept_owns host.the_row k.at k.value };
}

impl Kept {
    /// Keeps no host: null.
    pub(crate) fn none() -> Kept
        ensures { result.value ≡ None }
    {
        Kept { at: null_mut() }
    }

    /// Keeps the address in the parts of a box.
    pub(crate) fn of(parts: Apart<Host, Global>) -> Kept
        ensures { result.value ≡ Some parts.value }
    {
        let Apart { alloc: _, at } = parts;
        Kept { at: at as *mut u8 }
    }

    /// Gives the parts of the box whose address is kept.
    pub(crate) fn into_parts(self, alloc: Global) -> Apart<Host, Global>
        requires { IsSome self.value }
        ensures { self.value ≡ Some result.value }
    {
        let Kept { at } = self;
        Apart {
            at: at as *mut Host,
            alloc,
        }
    }
}
