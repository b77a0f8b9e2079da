//! How the pairs of an array are divided between two new ones.
ghost use Rattle.std.specs.Prelude.{◌≡◌, ℕ, ◌+◌, ◌-◌, ◌≤◌, [], List, Option, length, take, drop, slice_get};
ghost use Rattle.tree_array.specs.Arrivals.{boundary, drained, in_order};
ghost use Rattle.tree_array.specs.Sound.{IsSound};
ghost use Rattle.tree_cells.specs.Arrivals.{held};
ghost use Rattle.tree_cells.specs.Moves.{HasLeft};
ghost use Rattle.tree_cells.specs.Tabled.{IsTabled};
ghost use Rattle.tree_cells.specs.Order.{names};

use super::{ArrayOf, order_of};
use std::mem;
use tree_cells::cells::Cells;
use tree_cells::order::{Order, RETIRED};

impl<K: Ord + Drop, V: Drop, const LEN: usize> ArrayOf<K, V, LEN> {
    /// Returns where to split: how many entries go low, how many there are, and whether all of
    /// `LEN` arrived in ascending order. With at most three quarters of `LEN` entries there is no
    /// split, and the first number is `LEN`. Makes no comparisons.
    pub fn optimal_boundary(&self) -> (u8, usize, bool)
        ensures boundary { result ≡ boundary K.cmp LEN self.now }
        ensures sound { IsSound K.cmp LEN self.now }
    {
        let order = order_of(self.order, &self.cells);
        let count = order.count;
        if count as usize <= LEN * 3 / 4 {
            return (LEN as u8, count as usize, false);
        }
        let rises = order.count_rises(self.cells.counts().arrivals);
        if 2 * rises + 1 < count {
            (rises + 1, count as usize, false)
        } else {
            (rises, count as usize, rises as usize == LEN - 1)
        }
    }

    /// Moves the first `boundary` entries into `low`, which must be new, and keeps the others. The
    /// entries of both arrays arrive again, in ascending order, so that no slot is spent. Makes no
    /// comparisons.
    pub fn divide(&mut self, boundary: u8, low: &mut Self)
        requires { low.old ≡ in_order [] }
        ensures low { low.new ≡ in_order (take boundary self.old.entries) }
        ensures high { self.new ≡ in_order (drop boundary self.old.entries) }
    {
        let mut high = self.sibling();
        self.distribute(boundary, low, &mut high);
        let _ = mem::replace(self, high);
    }

    /// Moves the first `boundary` entries into `low` and the others into `high`, arriving in
    /// ascending order. Afterwards this array is empty and retired. `low` and `high` must be new.
    /// Makes no comparisons.
    pub fn distribute(&mut self, boundary: u8, low: &mut Self, high: &mut Self)
        requires low { low.old ≡ in_order [] }
        requires high { high.old ≡ in_order [] }
        ensures low { low.new ≡ in_order (take boundary self.old.entries) }
        ensures high { high.new ≡ in_order (drop boundary self.old.entries) }
        ensures left { self.new ≡ drained self.old }
    {
        let count = self.cells.counts().entries;
        let cut = boundary.min(count);
        move_places(&mut self.cells, self.order, 0, cut, low);
        move_places(&mut self.cells, self.order, cut, count, high);
        self.order = RETIRED;
        self.cells.set_entries(0);
    }

    /// Does what [`distribute`](ArrayOf::distribute) does, but returns the entry at place
    /// `boundary`, if there is one.
    #[tactic(auto, using(crate::proofs::Dealt::drained_same))]
    pub fn distribute_apart(
        &mut self,
        boundary: u8,
        low: &mut Self,
        high: &mut Self,
    ) -> Option<(K, V)>
        requires low { low.old ≡ in_order [] }
        requires high { high.old ≡ in_order [] }
        ensures low { low.new ≡ in_order (take boundary self.old.entries) }
        ensures apart { result ≡ slice_get self.old.entries boundary }
        ensures high { high.new ≡ in_order (drop (boundary + 1) self.old.entries) }
        ensures left { self.new ≡ drained self.old }
    {
        let apart = self.take_place(boundary);
        self.distribute(boundary, low, high);
        apart
    }

    /// Lets the entries arrive again in ascending order, so that no slot is spent. A retired array
    /// takes pairs again. Makes no comparisons.
    pub fn rebuild(&mut self)
        ensures { self.new ≡ in_order self.old.entries }
    {
        let mut none = self.sibling();
        self.divide(0, &mut none);
    }

    // Creates a new array of as many slots.
    fn sibling(&self) -> Self
        ensures { result ≡ in_order [] }
    {
        // An array's invariants, such as that its slots are 7 or 15, are known once a field is
        // read.
        let _ = &self.cells;
        ArrayOf::new()
    }

    // Takes the entry at this place, if there is one.
    fn take_place(&mut self, place: u8) -> Option<(K, V)>
        ensures taken { result ≡ slice_get self.old.entries place }
        ensures low { take place self.new.entries ≡ take place self.old.entries }
        ensures high { drop place self.new.entries ≡ drop (place + 1) self.old.entries }
        ensures arrivals { length self.new.arrivals ≡ length self.old.arrivals }
    {
        if place >= self.cells.counts().entries {
            return None;
        }
        let (key, val, _) = self.take_at(place);
        Some((key, val))
    }
}

// Moves the pairs of the places from `from` up to `end` into another array, which must be new,
// where they arrive in ascending order. Makes no comparisons.
fn move_places<K: Ord, V, const LEN: usize>(
    cells: &mut Cells<K, V, LEN>,
    order: u64,
    from: u8,
    end: u8,
    to: &mut ArrayOf<K, V, LEN>,
)
    requires ends { from ≤ end }
    requires tabled { (old : List (Option (K × V))) × (made count : ℕ)
        × IsTabled K.cmp LEN old (names order count) made × (end ≤ count) × HasLeft old cells.old.pairs order 0 from }
    requires new { to.old ≡ in_order [] }
    ensures moved { (old : List (Option (K × V))) (made count : ℕ)
        → IsTabled K.cmp LEN old (names order count) made → end ≤ count → HasLeft old cells.old.pairs order 0 from
        → HasLeft old cells.new.pairs order 0 end
        × (to.new ≡ in_order (take (end - from) (drop from (held old (names order count))))) }
    ensures whole { length cells.new.pairs ≡ length cells.old.pairs }
    ensures counts { cells.new.counts ≡ cells.old.counts }
{
    cells.take_places(order, from, end, &mut to.cells);
    to.order = Order::<LEN>::in_turn(end - from).word;
}
