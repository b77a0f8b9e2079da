//! What is answered for each key.
ghost use Rattle.std.specs.Prelude.{◌≡◌, List, Option, is_some};
ghost use Rattle.std.specs.Option.{option_map};
ghost use Rattle.std.specs.Map.Iter.{deref, deref_pair};
ghost use Rattle.std.specs.declared.cmp.Ordering.{Ordering};
ghost use Rattle.tree_index.specs.Nearest.{at_or_above, at_or_below};
ghost use Rattle.tree_model.specs.Pairs.{pair_at};

use crate::batched::Batched;
use crate::lent::Lent;
use tree_leaf::arena::LeafId;
use tree_model::{Backward, Forward};
use tree_node::node::Root;

/// What is answered for a key that is lent.
pub trait Answers<'t, Q: Lent<K>, K: Ord, V> {
    type Answer: Copy + Drop;

    type Shown;

    // What a list of pairs shows for a key.
    ghost shown: { (K → K → Ordering) → List (K × V) → K → Self.Shown };

    ghost seen: { Self.Answer → Self.Shown };

    /// Returns the answer for a key from the leaf that the key belongs to.
    fn answer<A: Batched<K, V>>(
        arenas: &'t A,
        root: &Option<Root>,
        leaf: Option<LeafId>,
        key: &Q,
    ) -> Self::Answer
        requires tree { A.is_tree arenas.now root.now }
        requires leaf { A.is_leaf arenas.now root.now (Q.key key.now) leaf }
        ensures { seen result ≡ shown K.cmp (A.pairs arenas.now root.now) (Q.key key.now) };
}

/// The pair with the key.
pub struct Entries;

/// The value of the key.
pub struct Values;

/// Whether the key is present.
pub struct Presence;

/// The pair with the key, or else the one with the next smaller key.
pub struct AtOrBelow;

/// The pair with the key, or else the one with the next larger key.
pub struct AtOrAbove;

impl<'t, Q: Lent<K>, K: Ord + 't, V: 't> Answers<'t, Q, K, V> for Entries {
    type Answer = Option<(&'t K, &'t V)>;

    type Shown = Option<(K, V)>;

    ghost shown = { pair_at };

    ghost seen = { option_map deref_pair };

    #[inline(always)]
    fn answer<A: Batched<K, V>>(
        arenas: &'t A,
        root: &Option<Root>,
        leaf: Option<LeafId>,
        key: &Q,
    ) -> Option<(&'t K, &'t V)> {
        arenas.entry(root, leaf, key)
    }
}

impl<'t, Q: Lent<K>, K: Ord, V: 't> Answers<'t, Q, K, V> for Values {
    type Answer = Option<&'t V>;

    type Shown = Option<V>;

    ghost shown = { λ cmp pairs key. option_map (λ pair. pair.1) (pair_at cmp pairs key) };

    ghost seen = { option_map deref };

    #[inline(always)]
    fn answer<A: Batched<K, V>>(
        arenas: &'t A,
        root: &Option<Root>,
        leaf: Option<LeafId>,
        key: &Q,
    ) -> Option<&'t V> {
        arenas.value(root, leaf, key)
    }
}

impl<'t, Q: Lent<K>, K: Ord, V> Answers<'t, Q, K, V> for Presence {
    type Answer = bool;

    type Shown = bool;

    ghost shown = { λ cmp pairs key. is_some (pair_at cmp pairs key) };

    ghost seen = { λ present. present };

    #[inline(always)]
    fn answer<A: Batched<K, V>>(
        arenas: &'t A,
        root: &Option<Root>,
        leaf: Option<LeafId>,
        key: &Q,
    ) -> bool {
        arenas.entry(root, leaf, key).is_some()
    }
}

impl<'t, K: Ord + 't, V: 't> Answers<'t, K, K, V> for AtOrBelow {
    type Answer = Option<(&'t K, &'t V)>;

    type Shown = Option<(K, V)>;

    ghost shown = { at_or_below };

    ghost seen = { option_map deref_pair };

    #[inline(always)]
    fn answer<A: Batched<K, V>>(
        arenas: &'t A,
        root: &Option<Root>,
        leaf: Option<LeafId>,
        key: &K,
    ) -> Option<(&'t K, &'t V)> {
        arenas.nearest::<Backward>(root, leaf, key)
    }
}

impl<'t, K: Ord + 't, V: 't> Answers<'t, K, K, V> for AtOrAbove {
    type Answer = Option<(&'t K, &'t V)>;

    type Shown = Option<(K, V)>;

    ghost shown = { at_or_above };

    ghost seen = { option_map deref_pair };

    #[inline(always)]
    fn answer<A: Batched<K, V>>(
        arenas: &'t A,
        root: &Option<Root>,
        leaf: Option<LeafId>,
        key: &K,
    ) -> Option<(&'t K, &'t V)> {
        arenas.nearest::<Forward>(root, leaf, key)
    }
}
