//! Removals of all pairs for which a test returns `false`.
ghost use Rattle.std.specs.Prelude.{◌≡◌, filter, MatchOption};
ghost use Rattle.std.specs.declared.ops.Bound.TheVariants.{Unbounded};
ghost use Rattle.tree_index.specs.Retained.{Passes, Refuses, Retains, low_behind};
ghost use Rattle.tree_model.specs.Pairs.{IsAscending, lent_bound, within, without};
ghost use Rattle.tree_root.specs.Trees.{IsStored, IsWhole, pairs_of};

use crate::index::TreeIndexOf;
use crate::takes::take_at;
use std::ops::Bound;
use tree_array::array::IndexKey;
use tree_cursors::range::RangeOver;
use tree_remove::entries::EntryPlace;
use tree_root::Tree;

impl<K: IndexKey, V: Drop, const LEN: usize> TreeIndexOf<K, V, LEN> {
    /// Removes each pair for which `keep` returns `false`. Calls it once for each pair, in
    /// ascending order of the keys.
    ///
    /// A pair that stays costs a move of a cursor. A pair that is removed costs what
    /// [`take_sync`](TreeIndexOf::take_sync) does, and a descent to the pair after it. Allocates
    /// nothing.
    ///
    /// ```
    /// offers.retain_sync(|_, quantity| *quantity > 0);
    /// ```
    pub fn retain_sync<F: FnMut(&K, &V) -> bool + Drop>(&mut self, keep: F)
        requires { F.IsAlwaysCallable keep }
        ensures { Retains F.FnMut keep self.old.pairs self.new.pairs }
    {
        let mut keep = keep;
        let mut gone = None;
        loop {
            let (next, refused) = self.take_refused(&gone, keep);
            let Some(pair) = refused else {
                return;
            };
            keep = next;
            gone = Some(pair);
        }
    }

    // Removes the first pair after one that is gone, or the first of all, for which `keep` returns
    // `false`. Returns it with the test, or `None` if there is no such pair.
    fn take_refused<F: FnMut(&K, &V) -> bool + Drop>(
        &mut self,
        gone: &Option<(K, V)>,
        keep: F,
    ) -> (F, Option<(K, V)>)
        requires { F.IsAlwaysCallable keep }
        ensures callable { F.IsAlwaysCallable result.0 }
        ensures ascending { IsAscending K.cmp self.old.pairs }
        ensures refused { MatchOption result.1
            (Passes F.FnMut keep
            (filter (λ pair. within K.cmp (low_behind gone.now) Unbounded pair.0) self.old.pairs) result.0)
            (λ pair. Refuses F.FnMut keep
            (filter (λ pair. within K.cmp (low_behind gone.now) Unbounded pair.0) self.old.pairs) pair result.0) }
        ensures left { MatchOption result.1 (self.new.pairs ≡ self.old.pairs)
            (λ pair. self.new.pairs ≡ without K.cmp self.old.pairs pair.0) }
    {
        let (keep, place) = refused_place(&self.tree, bound_behind(gone), keep);
        let Some(place) = place else {
            return (keep, None);
        };
        (keep, Some(take_at(&mut self.tree, &mut self.len, place)))
    }
}

// Returns the bound after a pair, which is open if there is none.
fn bound_behind<K, V>(gone: &Option<(K, V)>) -> Bound<&K>
    ensures { lent_bound result ≡ low_behind gone.now }
{
    match gone {
        Some((key, _)) => Bound::Excluded(key),
        None => Bound::Unbounded,
    }
}

// Returns where the first pair from a bound on for which `keep` returns `false` is stored, with the
// test.
fn refused_place<'t, K: IndexKey, V: Drop, F: FnMut(&K, &V) -> bool + Drop, const LEN: usize>(
    tree: &'t Tree<K, V, LEN>,
    low: Bound<&'t K>,
    keep: F,
) -> (F, Option<EntryPlace>)
    requires whole { IsWhole K.cmp tree.now }
    requires callable { F.IsAlwaysCallable keep }
    ensures callable { F.IsAlwaysCallable result.0 }
    ensures refused { MatchOption result.1
        (Passes F.FnMut keep
        (filter (λ pair. within K.cmp (lent_bound low.entry) Unbounded pair.0) (pairs_of tree.now)) result.0)
        (λ place. (pair : K × V) × Refuses F.FnMut keep
        (filter (λ pair. within K.cmp (lent_bound low.entry) Unbounded pair.0) (pairs_of tree.now)) pair result.0
        × IsStored K.cmp tree.now place pair) }
{
    let mut keep = keep;
    let mut pairs = RangeOver::new(&tree.arenas, tree.root, (low, Bound::Unbounded));
    while let Some((key, value)) = pairs.next() {
        if !keep(key, value) {
            return (keep, tree.entry_for(key));
        }
    }
    (keep, None)
}
