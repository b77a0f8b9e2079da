//! Walks over the slots of an array, in the order of their keys and against it.
ghost use Rattle.std.specs.Prelude.{◌≡◌, ◌≤◌, None, Some, ⊤, drop, length, map, min, option_and_then, slice_get, take};
ghost use Rattle.tree_array.specs.Arrivals.{arrival, slots_in_order};
ghost use Rattle.tree_array.specs.Walk.{IsOver, Steps, place_ahead, places_behind, standing, steps_left};
ghost use Rattle.tree_model.specs.Pairs.{above, below};
ghost use Rattle.tree_model.specs.declared.way.Way.TheVariants.{Back, On};

use super::{ArrayOf, order_of};
use std::alloc::AllocError;
use std::marker::{Model, PhantomData};
use tree_cells::order::slot_at;
use tree_cells::search::{Place, find_key};
use tree_model::{Backward, Direction, Forward, Way};

/// A walk over the reachable slots of an array, either way. It is over the array as it was when the
/// walk was made. A slot is named by the number of its arrival.
///
/// A `next` that returns `None` keeps the place.
#[derive(Drop)]
pub struct ArrayWalk<D> {
    order: u64,
    count: u8,
    // The place that a walk in ascending order goes to. The walk is at the one before, or has not
    // begun if there is none.
    ahead: u8,
    direction: PhantomData<D>,
}

/// The walk in ascending order of the keys.
pub type ArrayIter = ArrayWalk<Forward>;

/// The walk in descending order of the keys.
pub type ArrayRevIter = ArrayWalk<Backward>;

impl<D> Model for ArrayWalk<D> {
    ghost use Rattle.std.specs.Prelude.{◌≤◌, ◌-◌, ◌==◌, None, Some, if◌then◌else◌};
    ghost use Rattle.tree_array.specs.Walk.{Walk, standing};
    ghost use Rattle.tree_cells.specs.Order.{names};

    ghost Value = { Walk };

    ghost view = { λ a. standing (names a.order a.count) (if a.ahead == 0 then None else Some (a.ahead - 1)) };

    ghost invariant = { λ a. (a.count ≤ 15) × (a.ahead ≤ a.count) };
}

impl<D> Clone for ArrayWalk<D> {
    ghost is_clone = { λ walk clone. clone ≡ walk };

    ghost is_infallible = { λ _. ⊤ };

    fn clone(&self) -> Result<Self, AllocError> {
        Ok(ArrayWalk {
            order: self.order,
            count: self.count,
            ahead: self.ahead,
            direction: PhantomData,
        })
    }
}

impl<D: Direction> ArrayWalk<D> {
    /// Creates a walk before the first slot on its way. Makes no comparisons.
    pub fn new<K: Ord + Drop, V: Drop, const LEN: usize>(array: &ArrayOf<K, V, LEN>) -> Self
        ensures slots { result ≡ standing (slots_in_order K.cmp array.now) None }
        ensures over { IsOver K.cmp LEN array.now result }
    {
        ArrayWalk {
            order: array.order,
            count: array.cells.counts().entries,
            ahead: 0,
            direction: PhantomData,
        }
    }

    // Creates a walk that has passed so many slots in ascending order, which there must be. Makes
    // no comparisons.
    #[inline(always)]
    fn past<K: Ord + Drop, V: Drop, const LEN: usize>(
        array: &ArrayOf<K, V, LEN>,
        places: u8,
    ) -> Self
        requires { places ≤ length array.now.entries }
        ensures slots { map (arrival array.now.arrivals) result.slots ≡ map Some array.now.entries }
        ensures passed { place_ahead result.at ≡ places }
    {
        ArrayWalk {
            order: array.order,
            count: array.cells.counts().entries,
            ahead: places,
            direction: PhantomData,
        }
    }

    /// Returns the slot that the walk is at, if it has begun.
    #[tactic(auto, using(crate::proofs::Stepped::stands_at))]
    pub fn slot(&self) -> Option<u8>
        ensures { result ≡ option_and_then (slice_get self.now.slots) self.now.at }
    {
        if self.ahead == 0 {
            return None;
        }
        Some(slot_at(self.order, self.ahead - 1))
    }

    // Goes one slot on. Returns `None` and keeps its place after the last slot.
    #[tactic(auto, using(crate::proofs::Stepped::stays))]
    #[inline]
    fn step_on(&mut self) -> Option<u8>
        ensures { Steps On self.old result self.new }
    {
        if self.ahead < self.count {
            self.ahead += 1;
            Some(slot_at(self.order, self.ahead - 1))
        } else {
            None
        }
    }

    // Goes one slot back. Returns `None` and keeps its place before the first slot.
    #[tactic(auto, using(crate::proofs::Stepped::behind_few))]
    #[inline]
    fn step_back(&mut self) -> Option<u8>
        ensures { Steps Back self.old result self.new }
    {
        let behind = self.places_behind();
        if behind > 0 {
            self.ahead = behind;
            Some(slot_at(self.order, behind - 1))
        } else {
            None
        }
    }

    // Returns how many places lie ahead of a walk against the order of the keys.
    #[tactic(auto, using(crate::proofs::Stepped::behind_none, crate::proofs::Stepped::behind_some))]
    #[inline]
    fn places_behind(&self) -> u8
        ensures { result ≡ places_behind (length self.now.slots) self.now.at }
    {
        if self.ahead == 0 {
            self.count
        } else {
            self.ahead - 1
        }
    }

    /// Goes back to before the first slot on its way.
    pub fn rewind(&mut self)
        ensures { self.new ≡ standing self.old.slots None }
    {
        self.ahead = 0;
    }

    /// Turns to another way at its place. A walk that has not begun turns into one that has not
    /// begun.
    pub fn facing<E: Direction>(self) -> ArrayWalk<E>
        ensures { result ≡ self }
    {
        ArrayWalk {
            order: self.order,
            count: self.count,
            ahead: self.ahead,
            direction: PhantomData,
        }
    }
}

impl ArrayIter {
    /// Creates a walk at the last slot whose key is less than this one, or before the first slot.
    /// Makes at most 4 comparisons (3 among 7 slots).
    #[inline(always)]
    pub fn below<K: Ord + Drop, V: Drop, const LEN: usize>(
        array: &ArrayOf<K, V, LEN>,
        key: &K,
    ) -> Self
        ensures slots { map (arrival array.now.arrivals) result.slots ≡ map Some array.now.entries }
        ensures passed { take (place_ahead result.at) array.now.entries ≡ below K.cmp array.now.entries key.now }
    {
        Self::past(array, array.place_for(key))
    }

    /// Turns about at its place. A walk that has not begun turns into one that has not begun.
    pub fn rev(self) -> ArrayRevIter
        ensures { result ≡ self }
    {
        self.facing()
    }
}

impl ArrayRevIter {
    /// Creates a walk at the first slot whose key is greater than this one, or before that of the
    /// greatest key. Makes at most 4 comparisons (3 among 7 slots).
    #[inline(always)]
    pub fn above<K: Ord + Drop, V: Drop, const LEN: usize>(
        array: &ArrayOf<K, V, LEN>,
        key: &K,
    ) -> Self
        ensures slots { map (arrival array.now.arrivals) result.slots ≡ map Some array.now.entries }
        ensures passed { drop (places_behind (length array.now.entries) result.at) array.now.entries
            ≡ above K.cmp array.now.entries key.now }
    {
        match find_key(&array.cells, order_of(array.order, &array.cells), key) {
            Place::At { place, slot: _ } => Self::over(array, place + 1),
            Place::Before { place, slot: _ } => Self::over(array, place),
        }
    }

    // Creates a walk that goes over so many of the first slots, or over all if there are fewer.
    // Makes no comparisons.
    #[inline(always)]
    fn over<K: Ord + Drop, V: Drop, const LEN: usize>(
        array: &ArrayOf<K, V, LEN>,
        places: u8,
    ) -> Self
        ensures slots { map (arrival array.now.arrivals) result.slots ≡ map Some array.now.entries }
        ensures left { places_behind (length array.now.entries) result.at ≡ min places (length array.now.entries) }
    {
        let passed = if places < array.cells.counts().entries {
            places + 1
        } else {
            0
        };
        Self::past(array, passed)
    }

    /// Turns about at its place. A walk that has not begun turns into one that has not begun.
    pub fn rev(self) -> ArrayIter
        ensures { result ≡ self }
    {
        self.facing()
    }
}

impl<D: Direction> Iterator for ArrayWalk<D> {
    type Item = u8;

    ghost next_gives = { Steps D.way };

    ghost remaining = { steps_left D.way };

    #[inline]
    fn next(&mut self) -> Option<u8> {
        match D::way() {
            Way::On => self.step_on(),
            Way::Back => self.step_back(),
        }
    }
}
