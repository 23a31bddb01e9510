//! Boxes taken apart.
ghost use Rattle.std.specs.Prelude.{◌≡◌};
ghost use Rattle.std.specs.Box.Ownership.{box_owns};

use std::alloc::Allocator;
use std::marker::Model;

/// The allocator of a box and the address of its value. Together they own what the box did.
pub(crate) struct Apart<T, A: Allocator> {
    pub(crate) alloc: A,
    pub(crate) at: *mut T,
    pub(crate) ghost value: { T },
}

impl<T, A: Allocator> Model for Apart<T, A> {
    ghost also_owns = { λ parts. box_owns (A.dealloc_token parts.alloc) T.row parts.at parts.value };
}

/// Takes a box apart.
pub(crate) fn take_apart<T: Drop, A: Allocator>(whole: Box<T, A>) -> Apart<T, A>
    ensures { result.value ≡ whole.value }
{
    let (at, alloc) = Box::into_raw_with_allocator(whole);
    Apart { alloc, at }
}

/// Makes the box of its parts.
pub(crate) fn put_together<T, A: Allocator>(parts: Apart<T, A>) -> Box<T, A>
    ensures { result.value ≡ parts.value }
{
    let Apart { alloc, at } = parts;
    unsafe { Box::from_raw(alloc, at) }
}
