//! The keys of a tree, or its values, in the order of the keys.
ghost use Rattle.std.specs.Prelude.{◌≡◌, length, ⊤};
ghost use Rattle.std.specs.Iterator.{at_most};
ghost use Rattle.std.specs.Map.Iter.{TakesFirst, TakesLast, deref};
ghost use Rattle.std.specs.Option.{option_map};
ghost use Rattle.tree_views.specs.Keys.{GoesThroughAll, keys_left, values_left};

use std::alloc::AllocError;
use std::iter::FusedIterator;
use std::marker::Model;
use tree_cursors::iter::IterOver;
use tree_cursors::range::Ranged;
use tree_leaf::Walked;
use tree_leaf::leaf::LeafOf;
use tree_node::node::ArenasOf;

/// The keys of an index in ascending order, from both ends.
///
/// Contracts see the list of the keys that neither end has given yet. A move costs what that of
/// the cursor over the pairs does.
#[derive(Drop)]
pub struct KeysOver<'t, K: Ord, V, A: Ranged<K, V, L>, L: Walked> {
    pairs: IterOver<'t, K, V, A, L>,
}

/// The keys of an index in ascending order, from both ends, with up to `LEN` pairs a leaf.
pub type KeysOf<'t, K, V, const LEN: usize> = KeysOver<
    't,
    K,
    V,
    ArenasOf<K, V, LEN>,
    LeafOf<K, V, LEN>,
>;

/// The keys of an index in ascending order, from both ends, with up to fifteen pairs a leaf.
pub type Keys<'t, K, V> = KeysOf<'t, K, V, 15>;

impl<'t, K: Ord, V, A: Ranged<K, V, L>, L: Walked> Model for KeysOver<'t, K, V, A, L> {
    ghost use Rattle.std.specs.Prelude.{List};
    ghost use Rattle.tree_views.specs.Keys.{GoesThroughAll, keys_left};

    ghost Value = { List K };

    ghost view = { λ a. keys_left K.cmp a.pairs };

    ghost invariant = { λ a. GoesThroughAll K.cmp a.pairs };
}

impl<'t, K: Ord, V, A: Ranged<K, V, L>, L: Walked> KeysOver<'t, K, V, A, L> {
    /// Creates a walk over the keys of the pairs that a cursor has left. Runs in constant time. The
    /// caller must pass a cursor whose ends are within its list, as those of a new one are.
    pub fn new(pairs: IterOver<'t, K, V, A, L>) -> Self
        requires { GoesThroughAll K.cmp pairs }
        ensures { result ≡ keys_left K.cmp pairs.entry }
    {
        KeysOver { pairs }
    }
}

impl<'t, K: Ord + Drop + 't, V: Drop + 't, const LEN: usize> Iterator for KeysOf<'t, K, V, LEN> {
    type Item = &'t K;

    ghost next_gives = { TakesFirst deref };

    ghost remaining = { λ s. at_most (length s) };

    #[inline(always)]
    fn next(&mut self) -> Option<&'t K> {
        key_of(self.pairs.next())
    }
}

impl<'t, K: Ord + Drop + 't, V: Drop + 't, const LEN: usize> DoubleEndedIterator
    for KeysOf<'t, K, V, LEN> {
    ghost next_back_gives = { TakesLast deref };

    #[inline(always)]
    fn next_back(&mut self) -> Option<&'t K> {
        key_of(self.pairs.next_back())
    }
}

impl<'t, K: Ord + Drop + 't, V: Drop + 't, const LEN: usize> FusedIterator
    for KeysOf<'t, K, V, LEN> {}

impl<'t, K: Ord, V, A: Ranged<K, V, L>, L: Walked> Clone for KeysOver<'t, K, V, A, L> {
    ghost is_clone = { λ keys clone. clone ≡ keys };

    ghost is_infallible = { λ _. ⊤ };

    fn clone(&self) -> Result<Self, AllocError> {
        Ok(KeysOver {
            pairs: self.pairs.clone()?,
        })
    }
}

// Returns the key of a pair, if there is one.
#[inline(always)]
fn key_of<'t, K, V>(pair: Option<(&'t K, &'t V)>) -> Option<&'t K>
    ensures { result ≡ option_map (λ pair. pair.0) pair.entry }
{
    let (key, _) = pair?;
    Some(key)
}

/// The values of an index in ascending order of their keys, from both ends.
///
/// Contracts see the list of the values that neither end has given yet. A move costs what that of
/// the cursor over the pairs does.
#[derive(Drop)]
pub struct ValuesOver<'t, K: Ord, V, A: Ranged<K, V, L>, L: Walked> {
    pairs: IterOver<'t, K, V, A, L>,
}

/// The values of an index in ascending order of their keys, from both ends, with up to `LEN` pairs
/// a leaf.
pub type ValuesOf<'t, K, V, const LEN: usize> = ValuesOver<
    't,
    K,
    V,
    ArenasOf<K, V, LEN>,
    LeafOf<K, V, LEN>,
>;

/// The values of an index in ascending order of their keys, from both ends, with up to fifteen
/// pairs a leaf.
pub type Values<'t, K, V> = ValuesOf<'t, K, V, 15>;

impl<'t, K: Ord, V, A: Ranged<K, V, L>, L: Walked> Model for ValuesOver<'t, K, V, A, L> {
    ghost use Rattle.std.specs.Prelude.{List};
    ghost use Rattle.tree_views.specs.Keys.{GoesThroughAll, values_left};

    ghost Value = { List V };

    ghost view = { λ a. values_left K.cmp a.pairs };

    ghost invariant = { λ a. GoesThroughAll K.cmp a.pairs };
}

impl<'t, K: Ord, V, A: Ranged<K, V, L>, L: Walked> ValuesOver<'t, K, V, A, L> {
    /// Creates a walk over the values of the pairs that a cursor has left. Runs in constant time.
    /// The caller must pass a cursor whose ends are within its list, as those of a new one are.
    pub fn new(pairs: IterOver<'t, K, V, A, L>) -> Self
        requires { GoesThroughAll K.cmp pairs }
        ensures { result ≡ values_left K.cmp pairs.entry }
    {
        ValuesOver { pairs }
    }
}

impl<'t, K: Ord + Drop + 't, V: Drop + 't, const LEN: usize> Iterator for ValuesOf<'t, K, V, LEN> {
    type Item = &'t V;

    ghost next_gives = { TakesFirst deref };

    ghost remaining = { λ s. at_most (length s) };

    #[inline(always)]
    fn next(&mut self) -> Option<&'t V> {
        value_of(self.pairs.next())
    }
}

impl<'t, K: Ord + Drop + 't, V: Drop + 't, const LEN: usize> DoubleEndedIterator
    for ValuesOf<'t, K, V, LEN> {
    ghost next_back_gives = { TakesLast deref };

    #[inline(always)]
    fn next_back(&mut self) -> Option<&'t V> {
        value_of(self.pairs.next_back())
    }
}

impl<'t, K: Ord + Drop + 't, V: Drop + 't, const LEN: usize> FusedIterator
    for ValuesOf<'t, K, V, LEN> {}

impl<'t, K: Ord, V, A: Ranged<K, V, L>, L: Walked> Clone for ValuesOver<'t, K, V, A, L> {
    ghost is_clone = { λ values clone. clone ≡ values };

    ghost is_infallible = { λ _. ⊤ };

    fn clone(&self) -> Result<Self, AllocError> {
        Ok(ValuesOver {
            pairs: self.pairs.clone()?,
        })
    }
}

// Returns the value of a pair, if there is one.
#[inline(always)]
fn value_of<'t, K, V>(pair: Option<(&'t K, &'t V)>) -> Option<&'t V>
    ensures { result ≡ option_map (λ pair. pair.1) pair.entry }
{
    let (_, value) = pair?;
    Some(value)
}
