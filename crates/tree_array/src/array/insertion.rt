//! How an array takes a pair.
ghost use Rattle.std.specs.Prelude.{◌≡◌, ◌<◌, false, length, true};
ghost use Rattle.std.specs.List.{AllByRecursion};
ghost use Rattle.std.specs.declared.cmp.Ordering.TheVariants.{Less};
ghost use Rattle.tree_array.specs.Arrivals.{stored};
ghost use Rattle.tree_array.specs.Insertion.{IsFull, IsInsert, IsStore};
ghost use Rattle.tree_cells.specs.Place.{Parts};

use super::{ArrayOf, InsertResult, StoreResult, order_of};
use tree_cells::search::{Place, find_key_beyond};

impl<K: Ord + Drop, V: Drop, const LEN: usize> ArrayOf<K, V, LEN> {
    /// Stores a pair in the next slot. With `UPSERT` it replaces the pair with an equal key, key
    /// and value, whose slot is then spent.
    ///
    /// Returns `Duplicate` if `UPSERT` is false and an equal key is there, also if no slot is free.
    /// Returns `Full` if no slot is free or the array is retired, with `UPSERT` also for a key that
    /// is there. Both return the pair and change nothing. Makes at most 4 comparisons (3 among 7
    /// slots).
    pub fn insert<const UPSERT: bool>(&mut self, key: K, val: V) -> InsertResult<K, V>
        ensures { IsInsert K.cmp LEN UPSERT self.old key val result self.new }
    {
        self.store::<UPSERT>(key, val).into_insert()
    }

    /// Does what [`insert`](ArrayOf::insert) does, and reports whether the key is new.
    pub fn store<const UPSERT: bool>(&mut self, key: K, val: V) -> StoreResult<K, V>
        ensures { IsStore K.cmp LEN UPSERT self.old key val result self.new }
    {
        self.store_beyond::<UPSERT>(false, key, val)
    }

    /// Does what [`store`](ArrayOf::store) does. With `rightmost` it first compares the key with
    /// the last one: if that is smaller, this is the only comparison, else there is one more.
    #[inline(always)]
    pub fn store_beyond<const UPSERT: bool>(
        &mut self,
        rightmost: bool,
        key: K,
        val: V,
    ) -> StoreResult<K, V>
        ensures { IsStore K.cmp LEN UPSERT self.old key val result self.new }
    {
        let order = order_of(self.order, &self.cells);
        match find_key_beyond(&self.cells, order, &key, rightmost) {
            Place::At { place, slot } => {
                if !UPSERT {
                    StoreResult::Duplicate(key, val)
                } else if self.is_full() {
                    StoreResult::Full(key, val)
                } else {
                    let arrivals = self.cells.counts().arrivals;
                    let order = order.rename(place, arrivals);
                    let _ = self.cells.take(slot);
                    self.cells.push(key, val, order.count);
                    self.order = order.word;
                    StoreResult::Replaced
                }
            }
            Place::Before { place, slot: _ } => {
                if self.is_full() {
                    StoreResult::Full(key, val)
                } else {
                    // Read once more, so that the search needn't keep it.
                    let entries = self.cells.counts().entries;
                    self.let_in(place.min(entries), key, val);
                    StoreResult::New
                }
            }
        }
    }

    /// Stores a pair whose key is larger than all. Makes no comparisons. The caller must pass such
    /// a key, and an array that isn't full.
    #[inline(always)]
    pub fn append(&mut self, key: K, val: V)
        requires room { IsFull LEN self.old → ⊥ }
        requires larger { AllByRecursion (λ pair. K.cmp pair.0 key ≡ Less) self.old.entries }
        ensures { IsStore K.cmp LEN true self.old key val StoreResult.New self.new }
    {
        let entries = self.cells.counts().entries;
        self.let_in(entries, key, val);
    }

    // Stores a pair whose key is larger than those of the first `place` entries and smaller than
    // the others.
    #[inline(always)]
    fn let_in(&mut self, place: u8, key: K, val: V)
        requires room { length self.old.arrivals < LEN }
        requires live { self.old.retired ≡ false }
        requires parts { Parts K.cmp self.old.entries key place }
        ensures { self.new ≡ stored K.cmp self.old key val }
    {
        let arrivals = self.cells.counts().arrivals;
        let order = order_of(self.order, &self.cells).insert(place, arrivals);
        self.cells.push(key, val, order.count);
        self.order = order.word;
    }
}
