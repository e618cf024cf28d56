//! A box that is taken apart.

ghost use Rattle.std.specs.Prelude.{◌≡◌};
ghost use Rattle.std.specs.Box.Ownership.{box_owns};

use std::alloc::Allocator;
use std::marker::Model;

/// A box as its address and its allocator.
pub(crate) struct Apart<T, A: Allocator> {
    pub(crate) at: *mut T,
    pub(crate) alloc: A,
    pub(crate) ghost value: { T },
}

impl<T, A: Allocator> Model for Apart<T, A> {
    ghost also_owns = { λ a. box_owns (A.dealloc_token a.alloc) T.row a.at a.value };
}

impl<T: Drop, A: Allocator> Apart<T, A> {
    /// Takes a box apart.
    pub(crate) fn of(whole: Box<T, A>) -> Apart<T, A>
        ensures { result.value ≡ whole.value }
    {
        let (at, alloc) = Box::into_raw_with_allocator(whole);
        Apart { at, alloc }
    }

    /// Puts the box together again.
    pub(crate) fn into_box(self) -> Box<T, A>
        ensures { result.value ≡ self.value }
    {
        let Apart { at, alloc } = self;
        unsafe { Box::from_raw(alloc, at) }
    }
}
