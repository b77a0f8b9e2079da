//! Pairs that are gathered in ascending order, to become an array.
ghost use Rattle.std.specs.Prelude.{◌≡◌, ◌≢◌, ◌↔◌, ◌≤◌, ◌++◌, ◌∷◌, IsTrue, List, MatchOption, [], length};
ghost use Rattle.std.specs.List.{AllByRecursion};
ghost use Rattle.std.specs.declared.cmp.Ordering.TheVariants.{Less};
ghost use Rattle.tree_array.specs.Arrivals.{in_order};
ghost use Rattle.tree_array.specs.Length.{IsLen};
ghost use Rattle.tree_array.specs.Runs.{IsRun, gathered};

use super::ArrayOf;
use std::marker::Model;
use std::mem;
use tree_cells::cells::Cells;
use tree_cells::order::{EMPTY, Order};

/// Up to `LEN` pairs, 7 or 15, in ascending order of their keys, which become an array at once. So
/// the word that keeps the order is computed once, and not for each pair. No call compares keys or
/// allocates.
pub struct RunOf<K: Ord, V, const LEN: usize> {
    // The word of an array without a pair. By this field a run is laid out as an array is.
    order: u64,
    cells: Cells<K, V, LEN>,
}

impl<K: Ord, V, const LEN: usize> Model for RunOf<K, V, LEN> {
    ghost use Rattle.std.specs.Prelude.{List};
    ghost use Rattle.tree_array.specs.Runs.{IsRun, gathered};

    ghost Value = { List (K × V) };

    ghost view = { λ run. gathered run.cells.pairs run.cells.counts.entries };

    ghost invariant = { λ run. IsRun K.cmp LEN run.cells.pairs run.cells.counts.entries run.cells.counts.arrivals };
}

impl<K: Ord + Drop, V: Drop, const LEN: usize> Drop for RunOf<K, V, LEN> {
    fn drop(self) {
        let RunOf { order: _, cells } = self;
        let _ = array_in_turn(cells);
    }
}

impl<K: Ord + Drop, V: Drop, const LEN: usize> RunOf<K, V, LEN> {
    /// Creates a run without a pair. The caller must choose 7 or 15 for `LEN`.
    pub fn new() -> Self
        requires { IsLen LEN }
        ensures { result ≡ [] }
    {
        RunOf {
            order: EMPTY,
            cells: Cells::new(),
        }
    }

    /// Returns whether the run has `LEN` pairs.
    pub fn is_full(&self) -> bool
        ensures { IsTrue result ↔ (length self.now ≡ LEN) }
    {
        self.cells.counts().arrivals as usize == LEN
    }

    /// Returns the first key, or `None` if the run has no pair.
    pub fn first_key(&self) -> Option<&K>
        ensures first { MatchOption result (self.now ≡ [])
            (λ key. (val : V) × (rest : List (K × V)) × (self.now ≡ (key.now, val) ∷ rest)) }
        ensures few { length self.now ≤ LEN }
    {
        if self.cells.counts().entries == 0 {
            None
        } else {
            Some(self.cells.key(0))
        }
    }

    /// Appends a pair. The caller must pass a key that is larger than all, and a run that isn't
    /// full.
    #[inline(always)]
    pub fn push(&mut self, key: K, val: V)
        requires room { length self.old ≢ LEN }
        requires larger { AllByRecursion (λ pair. K.cmp pair.0 key ≡ Less) self.old }
        ensures { self.new ≡ self.old ++ (key, val) ∷ [] }
    {
        let count = self.cells.counts().arrivals;
        self.cells.push(key, val, count + 1);
    }

    /// Returns the array of the pairs, and leaves the run without one.
    pub fn close(&mut self) -> ArrayOf<K, V, LEN>
        ensures array { result ≡ in_order self.old }
        ensures left { self.new ≡ [] }
    {
        array_in_turn(mem::replace(&mut self.cells, Cells::new()))
    }
}

// Returns the array of cells in which the pairs are stored in turn, in ascending order.
fn array_in_turn<K: Ord, V, const LEN: usize>(cells: Cells<K, V, LEN>) -> ArrayOf<K, V, LEN>
    requires { IsRun K.cmp LEN cells.pairs cells.counts.entries cells.counts.arrivals }
    ensures { result ≡ in_order (gathered cells.pairs cells.counts.entries) }
{
    let order = Order::<LEN>::in_turn(cells.counts().entries).word;
    ArrayOf { order, cells }
}
