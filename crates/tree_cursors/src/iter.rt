//! A cursor over all pairs of a tree.
ghost use Rattle.std.specs.Prelude.{◌≡◌, ⊤};
ghost use Rattle.std.specs.Iterator.{at_most};
ghost use Rattle.std.specs.declared.ops.Bound.TheVariants.{Unbounded};
ghost use Rattle.tree_model.specs.declared.way.Way.TheVariants.{On, Back};
ghost use Rattle.tree_model.specs.Pairs.{IsAscending};
ghost use Rattle.tree_node.specs.Whole.{IsTree, walk_under};
ghost use Rattle.tree_model.specs.Cursor.{fresh, opened, shown, with_ends};
ghost use Rattle.tree_model.specs.Rest.{Moves, StandsInside, lent};
ghost use Rattle.tree_cursors.specs.View.{Kept, end_of};
ghost use Rattle.tree_cursors.specs.Ranged.{Flips, IsOpen, moves_left};

use crate::end::End;
use crate::range::{RangeOf, RangeOver, Ranged};
use std::alloc::AllocError;
use std::fmt;
use std::iter::FusedIterator;
use std::marker::Model;
use std::ops::Bound;
use tree_leaf::leaf::LeafOf;
use tree_leaf::{IterOf as WalkOf, RevIterOf as RevWalkOf, Walked};
use tree_node::node::{ArenasOf, Root};

/// All pairs of a tree, from both ends.
///
/// Contracts see a cursor, as of a [`RangeOver`], with both bounds open.
#[derive(Drop)]
pub struct IterOver<'t, K, V, A: Ranged<K, V, L>, L: Walked> {
    range: RangeOver<'t, K, V, A, L>,
}

/// All pairs, from both ends, with up to `LEN` pairs a leaf.
pub type IterOf<'t, K, V, const LEN: usize> = IterOver<
    't,
    K,
    V,
    ArenasOf<K, V, LEN>,
    LeafOf<K, V, LEN>,
>;

/// All pairs, from both ends, with up to fifteen pairs a leaf.
pub type Iter<'t, K, V> = IterOf<'t, K, V, 15>;

impl<'t, K, V, A: Ranged<K, V, L>, L: Walked> Model for IterOver<'t, K, V, A, L> {
    ghost use Rattle.tree_model.specs.Cursor.{Cursor};
    ghost use Rattle.tree_cursors.specs.Ranged.{IsOpen};

    ghost Value = { Cursor K V };

    ghost view = { λ a. a.range };

    ghost invariant = { λ a. IsOpen a.range };
}

impl<'t, K: Ord + Drop + 't, V: Drop + 't, const LEN: usize> IterOf<'t, K, V, LEN> {
    /// Creates a cursor over all pairs of a tree. Runs in constant time. The caller must lend the
    /// arenas of a well-formed tree with its root.
    pub fn new(arenas: &'t ArenasOf<K, V, LEN>, root: Option<Root>) -> Self
        requires { IsTree K.cmp arenas.now root }
        ensures { result ≡ fresh (walk_under arenas.now root) Unbounded Unbounded }
    {
        IterOver {
            range: RangeOver::new(arenas, root, (Bound::Unbounded, Bound::Unbounded)),
        }
    }

    // Creates a cursor over all pairs of a tree, with these ends. The caller must pass ends that
    // are in the tree.
    pub(crate) fn standing(
        arenas: &'t ArenasOf<K, V, LEN>,
        root: Option<Root>,
        forward: End<WalkOf<'t, K, V, LEN>>,
        backward: End<RevWalkOf<'t, K, V, LEN>>,
    ) -> Self
        requires { Kept arenas.now root K.cmp forward backward }
        ensures { result ≡ with_ends (walk_under arenas.now root)
            (end_of arenas.now root forward.entry) (end_of arenas.now root backward.entry) }
    {
        IterOver {
            range: RangeOver::standing(arenas, root, forward, backward),
        }
    }

    /// Returns the pair of the forward end, if the end is on one. Runs in constant time.
    pub fn get(&self) -> Option<(&'t K, &'t V)>
        ensures pair { lent result ≡ shown K.cmp On self.now }
        ensures bounds { IsOpen self.now }
        ensures ascending { IsAscending K.cmp self.now.pairs }
        ensures inside { StandsInside self.now.pairs self.now.backward }
    {
        self.range.get()
    }

    /// Returns the pair of the backward end, if the end is on one. Runs in constant time.
    pub fn get_back(&self) -> Option<(&'t K, &'t V)>
        ensures pair { lent result ≡ shown K.cmp Back self.now }
        ensures bounds { IsOpen self.now }
        ensures ascending { IsAscending K.cmp self.now.pairs }
        ensures inside { StandsInside self.now.pairs self.now.backward }
    {
        self.range.get_back()
    }

    /// If exactly one end has been opened and shows a pair, moves its place to the other end,
    /// leaves the first unopened and returns `true`. Returns `true` and changes nothing if neither
    /// end is opened; otherwise returns `false` and changes nothing. Runs in constant time.
    pub fn flip(&mut self) -> bool
        ensures { Flips K.cmp self.old result self.new }
    {
        self.range.flip()
    }
}

impl<'t, K: Ord + Drop + 't, V: Drop + 't, const LEN: usize> Iterator for IterOf<'t, K, V, LEN> {
    type Item = (&'t K, &'t V);

    ghost next_gives = { Moves K.cmp On };

    ghost remaining = { λ s. at_most (moves_left s) };

    #[inline(always)]
    fn next(&mut self) -> Option<(&'t K, &'t V)> {
        self.range.next()
    }
}

impl<'t, K: Ord + Drop + 't, V: Drop + 't, const LEN: usize> DoubleEndedIterator
    for IterOf<'t, K, V, LEN> {
    ghost next_back_gives = { Moves K.cmp Back };

    #[inline(always)]
    fn next_back(&mut self) -> Option<(&'t K, &'t V)> {
        self.range.next_back()
    }
}

impl<'t, K: Ord + Drop + 't, V: Drop + 't, const LEN: usize> FusedIterator
    for IterOf<'t, K, V, LEN> {}

impl<'t, K, V, A: Ranged<K, V, L>, L: Walked> Clone for IterOver<'t, K, V, A, L> {
    ghost is_clone = { λ cursor clone. clone ≡ cursor };

    ghost is_infallible = { λ _. ⊤ };

    fn clone(&self) -> Result<Self, AllocError> {
        Ok(IterOver {
            range: self.range.clone()?,
        })
    }
}

impl<'t, K: Ord + Drop + 't, V: Drop + 't, const LEN: usize> From<RangeOf<'t, K, V, LEN>>
    for IterOf<'t, K, V, LEN> {
    ghost from_gives = { λ range iter. iter ≡ opened range };

    // Keeps the tree and both ends, and opens both bounds.
    fn from(range: RangeOf<'t, K, V, LEN>) -> Self {
        IterOver {
            range: range.opened(),
        }
    }
}

impl<'t, K: Ord + Drop + fmt::Debug + 't, V: Drop + fmt::Debug + 't, const LEN: usize> fmt::Debug
    for IterOf<'t, K, V, LEN> {
    fn fmt<W: fmt::Write>(&self, f: &mut fmt::Formatter<W>) -> fmt::Result {
        f.debug_struct("Iter")
            .field("forward", &self.get())
            .field("backward", &self.get_back())
            .finish()
    }
}
