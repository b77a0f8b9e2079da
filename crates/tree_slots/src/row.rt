//! A row of slots, side by side in memory.
ghost use Rattle.std.specs.Prelude.{◌≡◌, ℕ, ◌<◌, length, false, Some, None, IsSome, is_some, slice_index_or, slice_set, replicate};

use crate::slot::Slot;
use std::array;
use std::mem::ManuallyDrop;

/// A row of `LEN` slots, of the size of `LEN` values. A contract sees the value or `None` of each
/// slot.
///
/// As with a [`Slot`], no byte records which slots own a value, and a row is not dropped by itself:
/// it ends by [`discard`](Row::discard), which requires every slot to be empty. Each call runs in
/// constant time but [`with`](Row::with) and [`spare`](Row::spare), which copy one slot's bytes
/// into each slot.
pub struct Row<T, const LEN: usize> {
    slots: [Slot<T>; LEN],
    ghost whole: { length slots ≡ LEN },
}

// An empty slot, of which a row takes its bytes.
struct Blank<T> {
    slot: Slot<T>,
    ghost empty: { is_some slot ≡ false },
}

impl<T> Blank<T> {
    fn more(&mut self) -> Slot<T>
        ensures { result ≡ None }
    {
        self.slot.spare()
    }

    fn discard(self) {
        let Blank { slot } = self;
        slot.discard();
    }
}

impl<T, const LEN: usize> Row<T, LEN> {
    /// Creates a row that owns one value, in the slot `index`.
    pub fn with(index: usize, value: T) -> Self
        requires { index < LEN }
        ensures { result.slots ≡ slice_set (replicate LEN None) index (Some value) }
    {
        let mut first = Slot::full(value);
        let mut blank = Blank {
            slot: first.spare(),
        };
        let mut row = Self::empty(&mut blank);
        blank.discard();
        row.put(index, first.into_inner());
        row
    }

    fn empty(blank: &mut Blank<T>) -> Self
        ensures { result.slots ≡ replicate LEN None }
    {
        let slots = array::from_fn(
            |_| -> Slot<T>
                ensures { result ≡ None }
            { blank.more() },
        );
        Row { slots }
    }

    /// Creates a row without a value, whose bytes are copies of the first slot's. This row stays
    /// what it was.
    pub fn spare(&mut self) -> Self
        requires { 0 < LEN }
        ensures empty { result.slots ≡ replicate LEN None }
        ensures same { self.new.slots ≡ self.old.slots }
    {
        let mut blank = Blank {
            slot: self.slots[0].spare(),
        };
        let row = Self::empty(&mut blank);
        blank.discard();
        row
    }

    /// Returns the value of a slot. The caller must name a slot that owns one.
    pub fn get(&self, index: usize) -> &T
        requires { IsSome (slice_index_or self.now.slots index None) }
        ensures { slice_index_or self.now.slots index None ≡ Some result.now }
    {
        self.slots[index].get()
    }

    /// Puts a value into a slot. The caller must choose an empty one.
    pub fn put(&mut self, index: usize, value: T)
        requires within { index < LEN }
        requires empty { slice_index_or self.old.slots index None ≡ None }
        ensures { self.new.slots ≡ slice_set self.old.slots index (Some value) }
    {
        self.slots[index].put(value);
    }

    /// Takes the value out of a slot and leaves it empty. The caller must name a slot that owns
    /// one.
    pub fn take(&mut self, index: usize) -> T
        requires { IsSome (slice_index_or self.old.slots index None) }
        ensures value { slice_index_or self.old.slots index None ≡ Some result }
        ensures spent { self.new.slots ≡ slice_set self.old.slots index None }
    {
        self.slots[index].take()
    }

    /// Puts a value into a slot and returns the one that was there. The caller must name a slot
    /// that owns one.
    pub fn replace(&mut self, index: usize, value: T) -> T
        requires { IsSome (slice_index_or self.old.slots index None) }
        ensures before { slice_index_or self.old.slots index None ≡ Some result }
        ensures after { self.new.slots ≡ slice_set self.old.slots index (Some value) }
    {
        self.slots[index].replace(value)
    }

    /// Ends the row. The caller must have emptied all its slots.
    pub fn discard(self)
        requires { (i : ℕ) → slice_index_or self.slots i None ≡ None }
    {
        let Row { slots } = self;
        let _bytes = unsafe { ManuallyDrop::new_unchecked(slots) };
    }
}
