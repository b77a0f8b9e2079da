//! A slot that owns a value or nothing. No byte in memory records which: the owner has to know it.
ghost use Rattle.std.specs.Prelude.{◌≡◌, Option, Some, None, IsSome};
ghost use Rattle.std.specs.Coded.{coded_option};
ghost use Rattle.tree_slots.specs.Slot.{owned, lent};

use std::marker::{Move, Owns, Send, Sync};
use std::mem::{self, ManuallyDrop};

/// Memory for one value, of the size of the value. A contract sees the value that the slot owns, or
/// `None`.
///
/// The bytes of an empty slot are a copy of some value's bytes, which nothing owns and nothing
/// reads. A slot is not dropped by itself: it ends by [`into_inner`](Slot::into_inner), which
/// requires a value, or by [`discard`](Slot::discard), which requires none. So no value is leaked,
/// and none is dropped twice.
pub struct Slot<T> {
    value: T,
}

impl<T> Owns for Slot<T> {
    ghost Value = { Option T };

    ghost coded = { coded_option T.code };

    ghost shr_at = { λ s p κ. lent T.row s p κ };
}

impl<T> Move for Slot<T> {
    ghost own_val = { λ s vs. owned (λ x. Fields.own_val (record { value = x }) vs) s };
}

impl<T> Slot<T> {
    ghost use Rattle.std.specs.Prelude.{◌≡◌, Some, None, IsSome};

    /// Creates a slot that owns a value.
    pub fn full(value: T) -> Self
        ensures { result ≡ Some value }
    {
        Self { value }
    }

    /// Ends the slot and returns its value. The slot must own one.
    pub fn into_inner(self) -> T
        requires { IsSome self }
        ensures { self ≡ Some result }
    {
        let Slot { value } = self;
        value
    }

    /// Creates an empty slot. It gets a copy of the bytes of this one, which stays what it was.
    pub fn spare(&mut self) -> Self
        ensures empty { result ≡ None }
        ensures same { self.new ≡ self.old }
    {
        let place = self as *mut Slot<T>;
        unsafe { place.read() }
    }

    /// Returns the value. The slot must own one.
    pub fn get(&self) -> &T
        requires { IsSome self.now }
        ensures { self.now ≡ Some result.now }
    {
        &self.value
    }

    /// Ends the slot, which must be empty.
    pub fn discard(self)
        requires { self ≡ None }
    {
        let _bytes = unsafe { ManuallyDrop::new_unchecked(self) };
    }

    /// Takes the value out and leaves the slot empty. The slot must own a value.
    pub fn take(&mut self) -> T
        requires { IsSome self.old }
        ensures value { self.old ≡ Some result }
        ensures empty { self.new ≡ None }
    {
        let spare = self.spare();
        mem::replace(self, spare).into_inner()
    }

    /// Puts a value into a slot. The caller must choose an empty one.
    pub fn put(&mut self, value: T)
        requires { self.old ≡ None }
        ensures { self.new ≡ Some value }
    {
        mem::replace(self, Slot::full(value)).discard();
    }

    /// Puts a value in and returns the one that was there. The slot must own one.
    pub fn replace(&mut self, value: T) -> T
        requires { IsSome self.old }
        ensures before { self.old ≡ Some result }
        ensures after { self.new ≡ Some value }
    {
        mem::replace(self, Slot::full(value)).into_inner()
    }
}

unsafe impl<T: Send> Send for Slot<T> {}

unsafe impl<T: Sync> Sync for Slot<T> {}
