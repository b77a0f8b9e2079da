//! A box without its box: the pointer and the allocator, and the value that is still owned behind
//! them.
ghost use Rattle.std.specs.Prelude.{◌≡◌};
ghost use Rattle.std.specs.Box.Ownership.{box_owns};

use std::alloc::Allocator;
use std::marker::Model;

/// A value on the heap that is owned by a pointer to it.
pub struct Detached<T, A: Allocator> {
    pub(crate) at: *mut T,
    pub(crate) heap: A,
    pub ghost value: { T },
}

impl<T, A: Allocator> Model for Detached<T, A> {
    ghost also_owns = { λ detached. box_owns (A.dealloc_token detached.heap) T.row detached.at detached.value };
}

impl<T, A: Allocator> Detached<T, A> {
    /// Takes the value of a box.
    pub fn from_box(whole: Box<T, A>) -> Self
    where
        T: Drop,
        ensures { result.value ≡ whole.value }
    {
        let (at, heap) = Box::into_raw_with_allocator(whole);
        Detached { at, heap }
    }

    /// Hands the value back in a box.
    pub fn into_box(self) -> Box<T, A>
        ensures { result.value ≡ self.value }
    {
        let Detached { at, heap } = self;
        unsafe { Box::from_raw(heap, at) }
    }
}
