//! Searches of an array by halving: at most 4 comparisons among 15 slots, and 3 among 7.
ghost use Rattle.std.specs.Prelude.{◌≡◌, ◌↔◌, ◌+◌, ◌<◌, ◌≤◌, [], ◌∷◌, ◌++◌, IsTrue, MatchOption, None, Some, slice_get};
ghost use Rattle.tree_array.specs.Arrivals.{arrival, least_from};
ghost use Rattle.tree_array.specs.Length.{searched};
ghost use Rattle.tree_array.specs.Spans.{PartsAt, Spans};
ghost use Rattle.tree_model.specs.Pairs.{Finds, IsAbsent, pair_at};

use super::{ArrayOf, order_of};
use tree_cells::judge::{Asks, Judge};
use tree_cells::order::BEYOND;
use tree_cells::search::{Place, find, find_key};

impl<K: Ord + Drop, V: Drop, const LEN: usize> ArrayOf<K, V, LEN> {
    /// Returns the pair with the judge's key, or `None` if the key is absent. Makes at most 4
    /// comparisons (3 among 7 slots).
    #[tactic(auto, using(tree_cells::proofs::Halving::searched_few))]
    pub fn search_entry<J: Judge<K>>(&self, judge: &mut J) -> Option<(&K, &V)>
        ensures found { Finds K.cmp self.now.entries (J.key judge.old) result }
        ensures same_key { J.key judge.new ≡ J.key judge.old }
        ensures counted { J.count judge.new ≤ J.count judge.old + LEN }
        ensures halved { J.count judge.new ≤ J.count judge.old + searched LEN }
    {
        match find(&self.cells, order_of(self.order, &self.cells), judge) {
            Place::At { place: _, slot } => Some(self.cells.pair(slot)),
            Place::Before { place: _, slot: _ } => None,
        }
    }

    /// Returns the value with the judge's key, or `None` if the key is absent. Makes at most 4
    /// comparisons (3 among 7 slots). No call of an index needs it.
    pub fn search_val<J: Judge<K>>(&self, judge: &mut J) -> Option<&V>
        ensures found { MatchOption result (IsAbsent K.cmp self.now.entries (J.key judge.old))
            (λ val. (key : K) × (pair_at K.cmp self.now.entries (J.key judge.old) ≡ Some (key, val.now))) }
        ensures same_key { J.key judge.new ≡ J.key judge.old }
        ensures counted { J.count judge.new ≤ J.count judge.old + LEN }
        ensures halved { J.count judge.new ≤ J.count judge.old + searched LEN }
    {
        let (_, val) = self.search_entry(judge)?;
        Some(val)
    }

    /// Returns the slot of the smallest key that is at least the sought key, or `None` if every key
    /// is smaller. `asked` is a judge, or the key itself. Makes at most 4 comparisons (3 among 7
    /// slots).
    #[tactic(auto, using(tree_cells::proofs::Halving::searched_few))]
    #[inline(always)]
    pub fn min_greater_equal<By, A: Asks<K, By>>(&self, asked: &mut A) -> Option<u8>
        ensures found { MatchOption result (least_from K.cmp self.now.entries (A.key asked.old) ≡ None)
            (λ slot. (pair : _) × (arrival self.now.arrivals slot ≡ Some pair)
            × (least_from K.cmp self.now.entries (A.key asked.old) ≡ Some pair)) }
        ensures same_key { A.key asked.new ≡ A.key asked.old }
        ensures counted { A.count asked.new ≤ A.count asked.old + LEN }
        ensures halved { A.count asked.new ≤ A.count asked.old + searched LEN }
    {
        let slot = find(&self.cells, order_of(self.order, &self.cells), asked).slot();
        if slot < BEYOND { Some(slot) } else { None }
    }

    /// Returns the slot of the smallest key that is at least this one, or `None` if every key is
    /// smaller. Makes at most 4 comparisons (3 among 7 slots), which no judge counts.
    #[inline(always)]
    pub fn slot_for(&self, key: &K) -> Option<u8>
        ensures { MatchOption result (least_from K.cmp self.now.entries key.now ≡ None)
            (λ slot. (pair : _) × (arrival self.now.arrivals slot ≡ Some pair)
            × (least_from K.cmp self.now.entries key.now ≡ Some pair)) }
    {
        self.min_greater_equal(&mut &*key)
    }

    /// Returns how many keys are smaller than this one: the place in key order, counted from 0,
    /// where it is or belongs. Makes at most 4 comparisons (3 among 7 slots).
    #[inline(always)]
    pub fn place_for(&self, key: &K) -> u8
        ensures parts { PartsAt K.cmp key.now self.now.entries result }
        ensures few { result < 16 }
    {
        let order = order_of(self.order, &self.cells);
        match find_key(&self.cells, order, key) {
            Place::At { place, slot: _ } => place,
            Place::Before { place, slot: _ } => place.min(order.count),
        }
    }

    /// Returns the slot of the entry at this place in key order, counted from 0, or `None` after
    /// the last. Makes no comparisons.
    pub fn slot_at(&self, place: u8) -> Option<u8>
        ensures { MatchOption result (slice_get self.now.entries place ≡ None)
            (λ slot. (pair : _) × (arrival self.now.arrivals slot ≡ Some pair)
            × (slice_get self.now.entries place ≡ Some pair)) }
    {
        let order = order_of(self.order, &self.cells);
        if place < order.count {
            Some(order.slot_at(place))
        } else {
            None
        }
    }

    /// Returns the slot of the entry with the greatest key, or `None` if there is no entry. Makes
    /// no comparisons.
    pub fn last_slot(&self) -> Option<u8>
        ensures { MatchOption result (self.now.entries ≡ [])
            (λ slot. (pair : _) × (arrival self.now.arrivals slot ≡ Some pair)
            × (front : _) × (self.now.entries ≡ front ++ pair ∷ [])) }
    {
        let order = order_of(self.order, &self.cells);
        if order.count == 0 {
            return None;
        }
        Some(order.last())
    }

    /// Returns whether a key lies between the first and the last one, or is one of these. Makes at
    /// most two comparisons.
    #[inline(always)]
    pub fn spans(&self, key: &K) -> bool
        ensures { IsTrue result ↔ Spans K.cmp self.now.entries key.now }
    {
        let Some(first) = self.slot_at(0) else {
            return false;
        };
        let Some(last) = self.last_slot() else {
            return false;
        };
        self.key(first).cmp(key).is_le() && key.cmp(self.key(last)).is_le()
    }
}
