//! Walks over the entries of linked leaves, either way.
//!
//! The compiler keeps an iterator in registers if no function that is called borrows it. So what a
//! loop over the entries calls is inlined, and what it rarely calls takes and returns its parts by
//! value.
ghost use Rattle.std.specs.Prelude.{◌≡◌, ◌++◌, ◌∷◌, None, ⊤, filter, not, option_copied, option_map};
ghost use Rattle.std.specs.declared.ops.Bound.TheVariants.{Included};
ghost use Rattle.tree_leaf.specs.Chain.{IsChain};
ghost use Rattle.tree_leaf.specs.Walks.{Jumps, Steps, first_of, first_on, here, last_of, left_in_leaf, standing, stood_on};
ghost use Rattle.tree_leaf.specs.Ways.{ahead, seen_at};
ghost use Rattle.tree_model.specs.Cursor.{meets};
ghost use Rattle.tree_model.specs.Rest.{lent_entry};
ghost use Rattle.tree_model.specs.Ways.{along};

use crate::arena::{LeafId, SlotsOf};
use crate::leaf::LeafOf;
use crate::stand::{Beside, Stand, Walked, look_up};
use slab::Slab;
use std::alloc::AllocError;
use std::marker::Model;
use tree_array::array::{ArrayIter, ArrayRevIter, ArrayWalk};
use tree_model::{Backward, Direction, Forward, Way};

/// An iterator over the entries of linked leaves of a type, the way that its iterator over the
/// slots of a leaf goes. It is in one leaf, unopened or on an entry of it. `next` goes only through
/// that leaf, and `jump` to the next leaf that has an entry. No call compares keys or allocates.
#[derive(Drop)]
pub struct LinkedIter<'t, L: Walked, D: Direction> {
    stand: Stand<'t, L>,
    slots: ArrayWalk<D>,
}

/// The iterator in ascending order of the keys, over leaves of `LEN` slots.
pub type IterOf<'t, K, V, const LEN: usize> = LinkedIter<'t, LeafOf<K, V, LEN>, Forward>;

/// The iterator in ascending order of the keys, over leaves of fifteen slots.
pub type Iter<'t, K, V> = IterOf<'t, K, V, 15>;

/// The iterator in descending order of the keys, over leaves of `LEN` slots.
pub type RevIterOf<'t, K, V, const LEN: usize> = LinkedIter<'t, LeafOf<K, V, LEN>, Backward>;

/// The iterator in descending order of the keys, over leaves of fifteen slots.
pub type RevIter<'t, K, V> = RevIterOf<'t, K, V, 15>;

impl<'t, L: Walked, D: Direction> Model for LinkedIter<'t, L, D> {
    ghost use Rattle.std.specs.Prelude.{◌≡◌, if◌then◌else◌, is_some, None};
    ghost use Rattle.tree_leaf.specs.Walks.{LinkedWalk, standing};

    ghost Value = { LinkedWalk L };

    ghost view = { λ a. standing a.stand.leaves.now a.stand.id a.slots.at };

    ghost invariant = { λ a. L.stands a.stand.leaves.now a.stand.id a.stand.leaf.now a.slots
        × (a.stand.ahead ≡ (if is_some a.stand.ahead then L.ahead D.way a.stand.leaves.now a.stand.leaf.now else None)) };
}

impl<'t, K: Ord + Drop, V: Drop, D: Direction, const LEN: usize> LinkedIter<
    't,
    LeafOf<K, V, LEN>,
    D,
> {
    /// Creates an unopened iterator in a leaf. Runs in constant time. The caller must name a leaf
    /// of a chain.
    pub fn new<N: Drop>(arenas: &'t SlotsOf<K, V, N, LEN>, id: LeafId) -> Self
        requires { (front back : _) × IsChain arenas.now.leaves (front ++ id ∷ back) }
        ensures { result ≡ standing arenas.now.leaves id None }
    {
        let stand = Stand::at(arenas.leaves(), id);
        let slots = ArrayWalk::new(stand.leaf.array());
        LinkedIter { stand, slots }
    }

    // Creates an iterator that comes from another leaf: it is unopened in the leaf that was seen
    // there, and looks ahead.
    fn entering(leaves: &'t Slab<LeafOf<K, V, LEN>>, next: Beside) -> Self
        requires chain { (front back : _) × IsChain leaves.now (front ++ next.id ∷ back) }
        requires seen { next ≡ seen_at D.way leaves.now next.id }
        ensures { result ≡ standing leaves.now next.id None }
    {
        let stand = Stand::at(leaves, next.id).seeing(look_up(leaves, next.beyond, D::way()));
        let slots = ArrayWalk::new(stand.leaf.array());
        LinkedIter { stand, slots }
    }

    /// Goes in its leaf to the last entry that comes before this key on the way, or to before the
    /// first entry. Makes at most 4 comparisons with 15 slots, and 3 with 7.
    #[inline(always)]
    pub fn pass(&mut self, key: &K)
        ensures stays { self.new ≡ standing self.old.leaves self.old.leaf self.new.at }
        ensures passed { along D.way (here self.old)
            ≡ along D.way (filter (λ pair. not (meets K.cmp D.way (Included key.now) pair.0)) (here self.old))
            ++ ahead D.way (here self.old) self.new.at }
    {
        let array = self.stand.leaf.array();
        match D::way() {
            Way::On => self.slots = ArrayIter::below(array, key).facing(),
            Way::Back => self.slots = ArrayRevIter::above(array, key).facing(),
        }
    }

    /// Returns the entry that the iterator is on, or `None` before the first `next` in a leaf. Runs
    /// in constant time.
    #[inline]
    pub fn get(&self) -> Option<(&'t K, &'t V)>
        ensures { option_map lent_entry result ≡ stood_on self.now }
    {
        let slot = self.slots.slot()?;
        Some(self.stand.leaf.entry(slot))
    }

    /// Goes to the next leaf on the way that has an entry, and returns the first entry there. If
    /// none has one, returns `None` and is unopened in the last leaf on the way, or stays where it
    /// is if that is the last. Runs in O(n) for n leaves passed.
    #[inline(always)]
    pub fn jump(&mut self) -> Option<(&'t K, &'t V)>
        ensures { Jumps D.way self.old result self.new }
    {
        let next = self.stand.landing(D::way())?;
        *self = Self::entering(self.stand.leaves, next);
        self.next()
    }

    /// Goes back to before the first entry on the way in its leaf. Runs in constant time.
    pub fn rewind(&mut self)
        ensures { self.new ≡ standing self.old.leaves self.old.leaf None }
    {
        self.slots.rewind();
    }

    /// Turns to another way at its place. An unopened iterator turns into an unopened one in the
    /// same leaf. Runs in constant time.
    pub fn facing<E: Direction>(self) -> LinkedIter<'t, LeafOf<K, V, LEN>, E>
        ensures { result ≡ self.entry }
    {
        LinkedIter {
            stand: self.stand.seeing(None),
            slots: self.slots.facing(),
        }
    }

    // Returns the key that comes first on a way in its leaf, if the leaf has an entry.
    fn first_key<E: Direction>(&self) -> Option<&'t K>
        ensures { option_copied result ≡ option_map (λ entry. entry.0) (first_on E.way (here self.now)) }
    {
        let first = ArrayWalk::<E>::new(self.stand.leaf.array()).next()?;
        let (key, _) = self.stand.leaf.entry(first);
        Some(key)
    }
}

impl<'t, K: Ord + Drop, V: Drop, const LEN: usize> LinkedIter<'t, LeafOf<K, V, LEN>, Forward> {
    /// Returns the largest key of the leaf that the iterator is in, if the leaf has an entry. Runs
    /// in constant time.
    pub fn max_key(&self) -> Option<&'t K>
        ensures { option_copied result ≡ option_map (λ entry. entry.0) (last_of (here self.now)) }
    {
        self.first_key::<Backward>()
    }

    /// Turns about at its place. An unopened iterator turns into an unopened one in the same leaf.
    /// Runs in constant time.
    pub fn rev(self) -> RevIterOf<'t, K, V, LEN>
        ensures { result ≡ self.entry }
    {
        self.facing()
    }
}

impl<'t, K: Ord + Drop, V: Drop, const LEN: usize> LinkedIter<'t, LeafOf<K, V, LEN>, Backward> {
    /// Returns the least key of the leaf that the iterator is in, if the leaf has an entry. Runs in
    /// constant time.
    pub fn min_key(&self) -> Option<&'t K>
        ensures { option_copied result ≡ option_map (λ entry. entry.0) (first_of (here self.now)) }
    {
        self.first_key::<Forward>()
    }

    /// Turns about at its place. An unopened iterator turns into an unopened one in the same leaf.
    /// Runs in constant time.
    pub fn rev(self) -> IterOf<'t, K, V, LEN>
        ensures { result ≡ self.entry }
    {
        self.facing()
    }
}

impl<'t, K: Ord + Drop, V: Drop, D: Direction, const LEN: usize> Iterator
    for LinkedIter<'t, LeafOf<K, V, LEN>, D> {
    type Item = (&'t K, &'t V);

    ghost next_gives = { Steps D.way };

    ghost remaining = { left_in_leaf D.way };

    #[inline]
    fn next(&mut self) -> Option<(&'t K, &'t V)> {
        let slot = self.slots.next()?;
        Some(self.stand.leaf.entry(slot))
    }
}

impl<'t, L: Walked, D: Direction> Clone for LinkedIter<'t, L, D> {
    ghost is_clone = { λ walk clone. clone ≡ walk };

    ghost is_infallible = { λ _. ⊤ };

    fn clone(&self) -> Result<Self, AllocError> {
        Ok(LinkedIter {
            stand: self.stand.seeing(self.stand.ahead),
            slots: self.slots.clone()?,
        })
    }
}
