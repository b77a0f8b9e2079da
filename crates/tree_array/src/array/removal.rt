//! How pairs leave an array, and how a value is replaced.
ghost use Rattle.std.specs.Prelude.{◌≡◌, Bool, ◌<◌, IsSome, IfSome, Some, length, slice_get};
ghost use Rattle.std.specs.Fn.{FnOnceReturnsAt, FnOnceTakesAt};
ghost use Rattle.std.specs.Option.{ForSome};
ghost use Rattle.tree_array.specs.Arrivals.{arrival, removed, with_val, without_range};
ghost use Rattle.tree_array.specs.Removal.{IsRemoval, removal_of};
ghost use Rattle.tree_model.specs.Pairs.{IsAbsent, high_of, low_of, pair_at};

use super::{ArrayOf, RemoveResult, order_of};
use std::ops::Bound;
use tree_cells::order::RETIRED;
use tree_cells::search::{Place, find_key};
use tree_model::range_contains;

impl<K: Ord + Drop, V: Drop, const LEN: usize> ArrayOf<K, V, LEN> {
    /// Takes the pair of a slot, which must be reachable and is then spent. Returns `Retired` with
    /// the last pair, else `Success`. Makes no comparisons.
    pub fn take(&mut self, slot: u8) -> (K, V, RemoveResult)
        requires { IsSome (arrival self.old.arrivals slot) }
        ensures pair { arrival self.old.arrivals slot ≡ Some (result.0, result.1) }
        ensures left { self.new ≡ removed K.cmp self.old result.0 }
        ensures answer { result.2 ≡ removal_of self.new }
    {
        let place = order_of(self.order, &self.cells).place_of(slot);
        self.take_at(place)
    }

    // Takes the entry at this place in the order of keys. Returns what [`take`](ArrayOf::take)
    // does.
    pub(super) fn take_at(&mut self, place: u8) -> (K, V, RemoveResult)
        requires { place < length self.old.entries }
        ensures pair { slice_get self.old.entries place ≡ Some (result.0, result.1) }
        ensures left { self.new ≡ removed K.cmp self.old result.0 }
        ensures answer { result.2 ≡ removal_of self.new }
    {
        let order = order_of(self.order, &self.cells);
        let (key, val) = self.cells.take(order.slot_at(place));
        let order = order.remove(place);
        self.order = order.word;
        self.cells.set_entries(order.count);
        let removal = if order.word == RETIRED {
            RemoveResult::Retired
        } else {
            RemoveResult::Success
        };
        (key, val, removal)
    }

    /// Removes the pair with a key if the condition returns `true` for its value. Calls the
    /// condition once if the key is present, else never.
    ///
    /// Returns `Fail` if the key is absent or the condition returned `false`, and nothing changed;
    /// `Retired` if the last pair was removed; else `Success`. Makes at most 4 comparisons (3 among
    /// 7 slots). The condition must be callable on the value that is stored with the key.
    #[inline(always)]
    pub fn remove_if<F: FnOnce(&V) -> bool + Drop>(&mut self, key: &K, condition: F) -> RemoveResult
        requires { ForSome (pair_at K.cmp self.old.entries key.now) (λ pair. FnOnceTakesAt F.FnOnce condition pair.1) }
        ensures absent { IsAbsent K.cmp self.old.entries key.now
            → (self.new ≡ self.old) × (result ≡ RemoveResult.Fail) }
        ensures present { IfSome (pair_at K.cmp self.old.entries key.now)
            (λ pair. (said : Bool) × FnOnceReturnsAt F.FnOnce condition pair.1 said
            × IsRemoval K.cmp self.old key.now said result self.new) }
    {
        match find_key(&self.cells, order_of(self.order, &self.cells), key) {
            Place::At { place, slot } => {
                let (_, val) = self.cells.pair(slot);
                if condition(val) {
                    let (_, _, removal) = self.take_at(place);
                    removal
                } else {
                    RemoveResult::Fail
                }
            }
            Place::Before { place: _, slot: _ } => RemoveResult::Fail,
        }
    }

    /// Removes the pairs whose keys are within the bounds, and retires the array if the last one
    /// was removed. Makes at most two comparisons per slot.
    pub fn remove_range(&mut self, bounds: (Bound<&K>, Bound<&K>))
        ensures { self.new ≡ without_range K.cmp self.old (low_of bounds.entry) (high_of bounds.entry) }
    {
        let arrivals = self.cells.counts().arrivals;
        let ordinals = order_of(self.order, &self.cells).ordinals();
        for slot in 0..arrivals {
            if ordinals[slot as usize] > 0 && range_contains(bounds, self.key(slot)) {
                let _ = self.take(slot);
            }
        }
    }

    /// Replaces the value of a slot, which must be reachable, and returns the old one.
    pub fn set_val(&mut self, slot: u8, val: V) -> V
        requires { IsSome (arrival self.old.arrivals slot) }
        ensures { (key : K) × (arrival self.old.arrivals slot ≡ Some (key, result))
            × (self.new ≡ with_val K.cmp self.old slot key val) }
    {
        self.cells.replace(slot, val)
    }
}
