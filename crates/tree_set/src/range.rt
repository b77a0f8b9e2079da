//! The elements of a range of a set, from both ends.
ghost use Rattle.std.specs.Prelude.{◌≡◌};
ghost use Rattle.std.specs.Iterator.{YieldsFirstRef, YieldsLastRef, item_count};
ghost use Rattle.tree_cursors.specs.Ranged.{IsFresh, pairs_within};
ghost use Rattle.tree_set.specs.Sets.{keys_of};

use std::iter::FusedIterator;
use std::marker::Model;
use tree_cursors::range::{RangeOf as PairsOf, RangeOver as PairsOver, Ranged};
use tree_leaf::Walked;
use tree_leaf::leaf::LeafOf;
use tree_node::node::ArenasOf;

/// The elements that a cursor over pairs has still to give, from both ends.
///
/// Contracts see the list of these elements, in ascending order.
#[derive(Drop)]
pub struct RangeOver<'t, K: Ord, A: Ranged<K, (), L>, L: Walked> {
    pairs: PairsOver<'t, K, (), A, L>,
}

/// The elements of a range of a set, from both ends, with up to `LEN` elements a leaf.
pub type RangeOf<'t, K, const LEN: usize> = RangeOver<
    't,
    K,
    ArenasOf<K, (), LEN>,
    LeafOf<K, (), LEN>,
>;

/// The elements of a range of a set, from both ends, with up to fifteen elements a leaf.
pub type Range<'t, K> = RangeOf<'t, K, 15>;

impl<'t, K: Ord, A: Ranged<K, (), L>, L: Walked> Model for RangeOver<'t, K, A, L> {
    ghost use Rattle.std.specs.Prelude.{List};
    ghost use Rattle.tree_set.specs.Ranged.{HasBegunBoth, left_of};

    ghost Value = { List K };

    ghost view = { λ a. left_of K.cmp a.pairs };

    ghost invariant = { λ a. HasBegunBoth K.cmp a.pairs };
}

impl<'t, K: Ord + Drop + 't, const LEN: usize> RangeOver<
    't,
    K,
    ArenasOf<K, (), LEN>,
    LeafOf<K, (), LEN>,
> {
    // Returns the elements of the pairs of a cursor that was never moved. Runs in constant time.
    pub(crate) fn new(pairs: PairsOf<'t, K, (), LEN>) -> Self
        requires { IsFresh pairs }
        ensures { result ≡ keys_of (pairs_within K.cmp pairs.entry) }
    {
        RangeOver { pairs }
    }
}

impl<'t, K: Ord + Drop + 't, const LEN: usize> Iterator
    for RangeOver<'t, K, ArenasOf<K, (), LEN>, LeafOf<K, (), LEN>> {
    type Item = &'t K;

    ghost next_gives = { YieldsFirstRef (λ s. s) };

    ghost remaining = { item_count (λ s. s) };

    #[inline(always)]
    fn next(&mut self) -> Option<&'t K> {
        let (element, _) = self.pairs.next()?;
        Some(element)
    }
}

impl<'t, K: Ord + Drop + 't, const LEN: usize> DoubleEndedIterator
    for RangeOver<'t, K, ArenasOf<K, (), LEN>, LeafOf<K, (), LEN>> {
    ghost next_back_gives = { YieldsLastRef (λ s. s) };

    #[inline(always)]
    fn next_back(&mut self) -> Option<&'t K> {
        let (element, _) = self.pairs.next_back()?;
        Some(element)
    }
}

impl<'t, K: Ord + Drop + 't, const LEN: usize> FusedIterator
    for RangeOver<'t, K, ArenasOf<K, (), LEN>, LeafOf<K, (), LEN>> {}
