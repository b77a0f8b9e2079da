//! A fixed array of pairs in the order of their keys.
ghost use Rattle.std.specs.Prelude.{◌≡◌, ◌↔◌, IsTrue, IsSome, Some, [], length};
ghost use Rattle.tree_array.specs.Arrivals.{Arrivals, arrival, free, in_order};
ghost use Rattle.tree_array.specs.Insertion.{IsFull};
ghost use Rattle.tree_array.specs.Length.{IsLen};
ghost use Rattle.tree_array.specs.Sound.{IsSound};
ghost use Rattle.tree_cells.specs.Order.{IsOrder};

pub use crate::answers::{InsertResult, RemoveResult, StoreResult};
use std::marker::Model;
use tree_cells::cells::Cells;
pub use tree_cells::judge::{Asks, Judge, KeyJudge, Steps};
use tree_cells::order::{EMPTY, Order, RETIRED, slot_at};

mod changes;
mod division;
mod insertion;
mod removal;
mod run;
mod searches;
mod walk;

pub use run::RunOf;
pub use tree_model::{IndexKey, SameClone, range_contains};
pub use walk::{ArrayIter, ArrayRevIter, ArrayWalk};

/// A fixed array of `LEN` slots, 7 or 15, in which pairs arrive one after another and are found in
/// the order of their keys.
///
/// A pair that is stored takes the next slot. A pair that is removed or replaced is dropped, and
/// its slot stays spent. An array whose last pair was removed is retired, and takes no more until
/// it is rebuilt. Keys are stored separately from values, and one word keeps the order of the keys.
/// No call allocates.
pub struct ArrayOf<K: Ord, V, const LEN: usize> {
    order: u64,
    cells: Cells<K, V, LEN>,
}

/// The array of fifteen slots.
pub type Array<K, V> = ArrayOf<K, V, 15>;

impl<K: Ord, V, const LEN: usize> Model for ArrayOf<K, V, LEN> {
    ghost use Rattle.tree_array.specs.Arrivals.{Arrivals};
    ghost use Rattle.tree_array.specs.View.{seen, IsArray};

    ghost Value = { Arrivals K V };

    ghost view = { λ a. seen a.cells.pairs a.order a.cells.counts.entries a.cells.counts.arrivals };

    ghost invariant = { λ a. IsArray K.cmp LEN a.cells.pairs a.order a.cells.counts.entries a.cells.counts.arrivals };
}

// Returns the order of an array, by the word that it keeps and the count of its entries.
#[inline(always)]
fn order_of<K, V, const LEN: usize>(word: u64, cells: &Cells<K, V, LEN>) -> Order<LEN>
    requires { IsOrder LEN word cells.now.counts.entries }
    ensures word { result.word ≡ word }
    ensures count { result.count ≡ cells.now.counts.entries }
{
    Order::new(word, cells.counts().entries)
}

impl<K: Ord + Drop, V: Drop, const LEN: usize> Drop for ArrayOf<K, V, LEN> {
    fn drop(self) {
        let ArrayOf { order, mut cells } = self;
        let count = cells.counts().entries;
        for place in 0..count {
            let _ = cells.take(slot_at(order, place));
        }
        cells.discard();
    }
}

impl<K: Ord + Drop, V: Drop, const LEN: usize> ArrayOf<K, V, LEN> {
    /// Creates an array with no used slot. The caller must choose 7 or 15 for `LEN`.
    pub fn new() -> Self
        requires { IsLen LEN }
        ensures { result ≡ in_order [] }
    {
        ArrayOf {
            order: EMPTY,
            cells: Cells::new(),
        }
    }

    /// Returns how many slots were never used. Its contract also states the invariants of every
    /// array.
    pub fn free(&self) -> u8
        ensures free { result ≡ free LEN self.now }
        ensures sound { IsSound K.cmp LEN self.now }
    {
        let arrivals = self.cells.counts().arrivals;
        LEN as u8 - arrivals
    }

    /// Returns whether the last pair was removed. Such an array stays empty until it is rebuilt.
    pub fn is_retired(&self) -> bool
        ensures { result ≡ self.now.retired }
    {
        self.order == RETIRED
    }

    /// Returns whether no slot is free, or the array is retired.
    pub fn is_full(&self) -> bool
        ensures { IsTrue result ↔ IsFull LEN self.now }
    {
        self.free() == 0 || self.is_retired()
    }

    /// Returns whether no pair is reachable.
    pub fn is_empty(&self) -> bool
        ensures { IsTrue result ↔ (self.now.entries ≡ []) }
    {
        self.cells.counts().entries == 0
    }

    /// Returns how many pairs are reachable. Runs in constant time.
    pub fn len(&self) -> usize
        ensures { result ≡ length self.now.entries }
    {
        self.cells.counts().entries as usize
    }

    /// Returns the key of a slot, which must be reachable.
    pub fn key(&self, slot: u8) -> &K
        requires { IsSome (arrival self.now.arrivals slot) }
        ensures { (val : V) × (arrival self.now.arrivals slot ≡ Some (result.now, val)) }
    {
        self.cells.key(slot)
    }

    /// Returns the value of a slot, which must be reachable.
    pub fn val(&self, slot: u8) -> &V
        requires { IsSome (arrival self.now.arrivals slot) }
        ensures { (key : K) × (arrival self.now.arrivals slot ≡ Some (key, result.now)) }
    {
        self.cells.pair(slot).1
    }
}
