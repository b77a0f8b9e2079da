//! Arenas in which a batch of keys is looked up.
ghost use Rattle.std.specs.Prelude.{◌≡◌, ◌≤◌, ◌<◌, ℕ, List, Option, None, get_or, length, replicate};
ghost use Rattle.tree_batches.specs.Batches.{LeafUnder};
ghost use Rattle.tree_batches.specs.Nearest.{nearest};
ghost use Rattle.std.specs.Option.{option_copied, option_map};
ghost use Rattle.tree_model.specs.Pairs.{Finds, pair_at};
ghost use Rattle.tree_model.specs.Rest.{lent};
ghost use Rattle.tree_node.specs.Whole.{IsTree, walk_under};
ghost use Rattle.tree_node.specs.declared.node.Root.{Root as TreeRoot};

use crate::descent::leaves_of;
use crate::lent::{Lent, found_in};
use crate::nearest::nearest_in;
use tree_leaf::arena::LeafId;
use tree_model::Direction;
use tree_node::node::{ArenasOf, Root};

/// A type of arenas in which a batch of keys is looked up.
pub trait Batched<K: Ord, V> {
    // The pairs of the tree under a root.
    ghost pairs: { Self → Option TreeRoot → List (K × V) };

    // A well-formed tree is under the root.
    ghost is_tree: { Self → Option TreeRoot → Type 0 };

    // The leaf under the root that a key belongs to, or none.
    ghost is_leaf: { Self → Option TreeRoot → K → Option ℕ → Type 0 };

    /// Writes the leaf that each key belongs to, all keys level by level.
    fn leaves<Q: Lent<K>>(&self, root: &Option<Root>, keys: &[Q], leaves: &mut [Option<LeafId>])
        requires tree { is_tree self.now root.now }
        requires few { length keys.now ≤ 8 }
        requires none { leaves.old ≡ replicate 8 None }
        ensures long { length leaves.new ≡ 8 }
        ensures each { (k : ℕ) (d : Q) → k < length keys.now → is_leaf self.now root.now (Q.key (get_or keys.now k d)) (get_or leaves.new k None) };

    /// Returns the pair with a key from the leaf that the key belongs to.
    fn entry<Q: Lent<K>>(
        &self,
        root: &Option<Root>,
        leaf: Option<LeafId>,
        key: &Q,
    ) -> Option<(&K, &V)>
        requires tree { is_tree self.now root.now }
        requires leaf { is_leaf self.now root.now (Q.key key.now) leaf }
        ensures { Finds K.cmp (pairs self.now root.now) (Q.key key.now) result };

    /// Returns the value of a key from the leaf that the key belongs to.
    fn value<Q: Lent<K>>(&self, root: &Option<Root>, leaf: Option<LeafId>, key: &Q) -> Option<&V>
        requires tree { is_tree self.now root.now }
        requires leaf { is_leaf self.now root.now (Q.key key.now) leaf }
        ensures { option_copied result ≡ option_map (λ pair. pair.1)
            (pair_at K.cmp (pairs self.now root.now) (Q.key key.now)) };

    /// Returns the pair with a key, or else the next one on a way, from the leaf that the key
    /// belongs to.
    fn nearest<D: Direction>(
        &self,
        root: &Option<Root>,
        leaf: Option<LeafId>,
        key: &K,
    ) -> Option<(&K, &V)>
        requires tree { is_tree self.now root.now }
        requires leaf { is_leaf self.now root.now key.now leaf }
        ensures { lent result ≡ nearest D.way K.cmp (pairs self.now root.now) key.now };
}

impl<K: Ord + Drop, V: Drop, const LEN: usize> Batched<K, V> for ArenasOf<K, V, LEN> {
    ghost pairs = { walk_under };

    ghost is_tree = { IsTree K.cmp };

    ghost is_leaf = { LeafUnder K.cmp };

    #[inline(always)]
    fn leaves<Q: Lent<K>>(&self, root: &Option<Root>, keys: &[Q], leaves: &mut [Option<LeafId>]) {
        leaves_of(self, root, keys, leaves);
    }

    #[inline(always)]
    fn entry<Q: Lent<K>>(
        &self,
        root: &Option<Root>,
        leaf: Option<LeafId>,
        key: &Q,
    ) -> Option<(&K, &V)> {
        entry_in(self, root, leaf, key)
    }

    #[inline(always)]
    fn value<Q: Lent<K>>(&self, root: &Option<Root>, leaf: Option<LeafId>, key: &Q) -> Option<&V> {
        value_in(self, root, leaf, key)
    }

    #[inline(always)]
    fn nearest<D: Direction>(
        &self,
        root: &Option<Root>,
        leaf: Option<LeafId>,
        key: &K,
    ) -> Option<(&K, &V)> {
        nearest_in::<D, K, V, LEN>(self, root, leaf, key)
    }
}

// Returns the pair with a key from the leaf that the key belongs to.
#[inline(always)]
pub(crate) fn entry_in<'t, Q: Lent<K>, K: Ord + Drop, V: Drop, const LEN: usize>(
    arenas: &'t ArenasOf<K, V, LEN>,
    root: &Option<Root>,
    leaf: Option<LeafId>,
    key: &Q,
) -> Option<(&'t K, &'t V)>
    requires tree { IsTree K.cmp arenas.now root.now }
    requires leaf { LeafUnder K.cmp arenas.now root.now (Q.key key.now) leaf }
    ensures { Finds K.cmp (walk_under arenas.now root.now) (Q.key key.now) result }
{
    let found = leaf?;
    found_in(arenas.leaf(found).array(), key)
}

// Returns the value of a key from the leaf that the key belongs to.
#[inline(always)]
fn value_in<'t, Q: Lent<K>, K: Ord + Drop, V: Drop, const LEN: usize>(
    arenas: &'t ArenasOf<K, V, LEN>,
    root: &Option<Root>,
    leaf: Option<LeafId>,
    key: &Q,
) -> Option<&'t V>
    requires tree { IsTree K.cmp arenas.now root.now }
    requires leaf { LeafUnder K.cmp arenas.now root.now (Q.key key.now) leaf }
    ensures { option_copied result ≡ option_map (λ pair. pair.1)
        (pair_at K.cmp (walk_under arenas.now root.now) (Q.key key.now)) }
{
    match entry_in(arenas, root, leaf, key) {
        Some((_, value)) => Some(value),
        None => None,
    }
}
