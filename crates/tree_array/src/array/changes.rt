//! Where a key is, and how the value of a slot is changed in place.
ghost use Rattle.std.specs.Prelude.{◌≡◌, IsSome, MatchOption, Some};
ghost use Rattle.std.specs.Option.{ForSome};
ghost use Rattle.std.specs.declared.cmp.Ordering.TheVariants.{Equal};
ghost use Rattle.tree_array.specs.Arrivals.{arrival, with_val};
ghost use Rattle.tree_model.specs.Pairs.{IsAbsent, pair_at};

use super::{ArrayOf, order_of};
use tree_cells::search::{Place, find_key};

impl<K: Ord + Drop, V: Drop, const LEN: usize> ArrayOf<K, V, LEN> {
    /// Returns the slot of the pair with an equal key, or `None` if the key is absent. Makes at
    /// most 4 comparisons (3 among 7 slots).
    #[inline(always)]
    pub fn slot_of(&self, key: &K) -> Option<u8>
        ensures { MatchOption result (IsAbsent K.cmp self.now.entries key.now)
            (λ slot. (pair : K × V) × (K.cmp pair.0 key.now ≡ Equal) × (arrival self.now.arrivals slot ≡ Some pair)
            × (pair_at K.cmp self.now.entries key.now ≡ Some pair)) }
    {
        match find_key(&self.cells, order_of(self.order, &self.cells), key) {
            Place::At { place: _, slot } => Some(slot),
            Place::Before { place: _, slot: _ } => None,
        }
    }

    /// Passes the value of a slot, which must be reachable, to a function, and puts what it returns
    /// into the slot. Makes no comparisons.
    pub fn change_val<F: FnOnce(V) -> V + Drop>(&mut self, slot: u8, change: F)
        requires pair { IsSome (arrival self.old.arrivals slot) }
        requires callable { ForSome (arrival self.old.arrivals slot) (λ pair. F.pre change pair.1) }
        ensures { (key : K) × (before after : V) × (arrival self.old.arrivals slot ≡ Some (key, before))
            × F.post change before after × (self.new ≡ with_val K.cmp self.old slot key after) }
    {
        self.cells.change(slot, change);
    }
}
