//! A cursor over the pairs of a tree within two bounds.
ghost use Rattle.std.specs.Prelude.{◌≡◌, ⊤, is_some};
ghost use Rattle.std.specs.Iterator.{at_most};
ghost use Rattle.tree_model.specs.declared.way.Way.TheVariants.{On, Back};
ghost use Rattle.tree_model.specs.Pairs.{IsAscending, high_of, low_of};
ghost use Rattle.tree_node.specs.Whole.{IsTree, walk_under};
ghost use Rattle.tree_model.specs.Cursor.{fresh, opened, shown, with_ends};
ghost use Rattle.tree_model.specs.Rest.{Moves, StandsInside, lent};
ghost use Rattle.tree_cursors.specs.View.{Kept, end_of};
ghost use Rattle.tree_cursors.specs.Ranged.{Flips, moves_left};

use crate::end::{End, pair_on, step, step_in_leaf};
use crate::ends::{again, if_apart, is_unopened, shown, turned};
use std::alloc::AllocError;
use std::iter::FusedIterator;
use std::marker::{Model, PhantomData};
use std::ops::Bound;
use std::{fmt, mem};
use tree_leaf::arena::NodeId;
use tree_leaf::leaf::LeafOf;
use tree_leaf::{IterOf as WalkOf, LinkedIter, RevIterOf as RevWalkOf, Walked};
use tree_model::{Backward, Forward};
use tree_node::node::{ArenasOf, Root};

/// A type of arenas to go through with a cursor, with what the cursor keeps. It has no methods.
pub trait Ranged<K, V, L: Walked> {
    ghost use Rattle.std.specs.Prelude.{Option};
    ghost use Rattle.std.specs.Borrow.{Bor};
    ghost use Rattle.std.specs.declared.ops.Bound.{Bound as AnyBound};
    ghost use Rattle.tree_leaf.specs.Walks.{LinkedWalk};
    ghost use Rattle.tree_model.specs.Cursor.{Cursor};
    ghost use Rattle.tree_node.specs.declared.node.Root.{Root as TreeRoot};
    ghost use Rattle.tree_cursors.specs.declared.end.End.{End as TreeEnd};

    ghost seen: { Self → Option TreeRoot → AnyBound (Bor K) → AnyBound (Bor K) → TreeEnd (LinkedWalk L) → TreeEnd (LinkedWalk L) → Cursor K V };

    ghost kept: { Self → Option TreeRoot → TreeEnd (LinkedWalk L) → TreeEnd (LinkedWalk L) → Type 0 };
}

impl<K: Ord + Drop, V: Drop, const LEN: usize> Ranged<K, V, LeafOf<K, V, LEN>>
    for ArenasOf<K, V, LEN> {
    ghost use Rattle.tree_cursors.specs.View.{Kept, seen};

    ghost seen = { seen };

    ghost kept = { λ arenas root. Kept arenas root K.cmp };
}

/// The pairs of a tree within two bounds, from both ends.
///
/// Contracts see the list of all pairs, the two bounds and the two ends: each was never moved, is
/// at a place of the list, or is exhausted for ever.
#[derive(Drop)]
pub struct RangeOver<'t, K, V, A: Ranged<K, V, L>, L: Walked> {
    arenas: &'t A,
    root: Option<Root>,
    low: Bound<&'t K>,
    high: Bound<&'t K>,
    forward: End<LinkedIter<'t, L, Forward>>,
    backward: End<LinkedIter<'t, L, Backward>>,
    values: PhantomData<V>,
}

/// The pairs within two bounds, from both ends, with up to `LEN` pairs a leaf.
pub type RangeOf<'t, K, V, const LEN: usize> = RangeOver<
    't,
    K,
    V,
    ArenasOf<K, V, LEN>,
    LeafOf<K, V, LEN>,
>;

/// The pairs within two bounds, from both ends, with up to fifteen pairs a leaf.
pub type Range<'t, K, V> = RangeOf<'t, K, V, 15>;

impl<'t, K, V, A: Ranged<K, V, L>, L: Walked> Model for RangeOver<'t, K, V, A, L> {
    ghost use Rattle.tree_model.specs.Cursor.{Cursor};

    ghost Value = { Cursor K V };

    ghost view = { λ a. A.seen a.arenas.now a.root a.low a.high a.forward a.backward };

    ghost invariant = { λ a. A.kept a.arenas.now a.root a.forward a.backward };
}

impl<'t, K: Ord + Drop + 't, V: Drop + 't, const LEN: usize> RangeOf<'t, K, V, LEN> {
    /// Creates a cursor over the pairs of a tree whose keys are within two bounds. Runs in constant
    /// time. The caller must lend the arenas of a well-formed tree with its root.
    pub fn new(
        arenas: &'t ArenasOf<K, V, LEN>,
        root: Option<Root>,
        bounds: (Bound<&'t K>, Bound<&'t K>),
    ) -> Self
        requires { IsTree K.cmp arenas.now root }
        ensures { result ≡ fresh (walk_under arenas.now root) (low_of bounds.entry) (high_of bounds.entry) }
    {
        let (low, high) = bounds;
        RangeOver {
            arenas,
            root,
            low,
            high,
            forward: End::Unopened,
            backward: End::Unopened,
            values: PhantomData,
        }
    }

    /// Returns the pair of the forward end, if the end is on one within the upper bound. Makes at
    /// most one comparison.
    pub fn get(&self) -> Option<(&'t K, &'t V)>
        ensures pair { lent result ≡ shown K.cmp On self.now }
        ensures ascending { IsAscending K.cmp self.now.pairs }
        ensures inside { StandsInside self.now.pairs self.now.backward }
    {
        shown::<K, V, Forward, Backward, LEN>(&self.forward, self.high)
    }

    /// Returns the pair of the backward end, if the end is on one within the lower bound. Makes at
    /// most one comparison.
    pub fn get_back(&self) -> Option<(&'t K, &'t V)>
        ensures pair { lent result ≡ shown K.cmp Back self.now }
        ensures ascending { IsAscending K.cmp self.now.pairs }
        ensures inside { StandsInside self.now.pairs self.now.backward }
    {
        shown::<K, V, Backward, Forward, LEN>(&self.backward, self.low)
    }

    /// If exactly one end has been opened and shows a pair, moves its place to the other end,
    /// leaves the first unopened and returns `true`. Returns `true` and changes nothing if neither
    /// end is opened; otherwise returns `false` and changes nothing. Makes at most one comparison.
    pub fn flip(&mut self) -> bool
        ensures { Flips K.cmp self.old result self.new }
    {
        if is_unopened(&self.forward) {
            if is_unopened(&self.backward) {
                return true;
            }
            if self.get_back().is_none() {
                return false;
            }
            self.forward = turned(mem::replace(&mut self.backward, End::Unopened));
            return true;
        }
        if !is_unopened(&self.backward) {
            return false;
        }
        if self.get().is_none() {
            return false;
        }
        self.backward = turned(mem::replace(&mut self.forward, End::Unopened));
        true
    }

    // Creates a cursor over all pairs of a tree, with these ends. The caller must pass ends that
    // are in the tree.
    pub(crate) fn standing(
        arenas: &'t ArenasOf<K, V, LEN>,
        root: Option<Root>,
        forward: End<WalkOf<'t, K, V, LEN>>,
        backward: End<RevWalkOf<'t, K, V, LEN>>,
    ) -> Self
        requires { Kept arenas.now root K.cmp forward backward }
        ensures { result ≡ with_ends (walk_under arenas.now root)
            (end_of arenas.now root forward.entry) (end_of arenas.now root backward.entry) }
    {
        RangeOver {
            arenas,
            root,
            low: Bound::Unbounded,
            high: Bound::Unbounded,
            forward,
            backward,
            values: PhantomData,
        }
    }

    // Moves the forward end, and returns whether the move gives the pair that the end is then on.
    // So in the caller's loop a move to another leaf has a path separate from that of moves within
    // a leaf.
    #[inline(always)]
    fn goes_elsewhere(&mut self) -> bool
        ensures { (pair : _) × Moves K.cmp On self.old pair self.new × (result ≡ is_some pair) }
    {
        let pair = step(self.arenas, self.root, &mut self.forward, self.low);
        if_apart::<K, V, Backward, LEN>(pair, &self.forward, &self.backward, self.high).is_some()
    }

    // Moves the backward end, as [`goes_elsewhere`](RangeOver::goes_elsewhere) moves the forward
    // one.
    #[inline(always)]
    fn goes_back_elsewhere(&mut self) -> bool
        ensures { (pair : _) × Moves K.cmp Back self.old pair self.new × (result ≡ is_some pair) }
    {
        let pair = step(self.arenas, self.root, &mut self.backward, self.high);
        if_apart::<K, V, Forward, LEN>(pair, &self.forward, &self.backward, self.low).is_some()
    }

    // Opens both bounds, and keeps both ends.
    pub(crate) fn opened(mut self) -> Self
        ensures { result ≡ opened self.entry }
    {
        self.low = Bound::Unbounded;
        self.high = Bound::Unbounded;
        self
    }
}

impl<'t, K: Ord + Drop + 't, V: Drop + 't, const LEN: usize> Iterator for RangeOf<'t, K, V, LEN> {
    type Item = (&'t K, &'t V);

    ghost next_gives = { Moves K.cmp On };

    ghost remaining = { λ s. at_most (moves_left s) };

    #[inline(always)]
    fn next(&mut self) -> Option<(&'t K, &'t V)> {
        let Some(pair) = step_in_leaf(&mut self.forward) else {
            if self.goes_elsewhere() {
                return pair_on(&self.forward);
            }
            return None;
        };
        if_apart::<K, V, Backward, LEN>(Some(pair), &self.forward, &self.backward, self.high)
    }
}

impl<'t, K: Ord + Drop + 't, V: Drop + 't, const LEN: usize> DoubleEndedIterator
    for RangeOf<'t, K, V, LEN> {
    ghost next_back_gives = { Moves K.cmp Back };

    #[inline(always)]
    fn next_back(&mut self) -> Option<(&'t K, &'t V)> {
        let Some(pair) = step_in_leaf(&mut self.backward) else {
            if self.goes_back_elsewhere() {
                return pair_on(&self.backward);
            }
            return None;
        };
        if_apart::<K, V, Forward, LEN>(Some(pair), &self.forward, &self.backward, self.low)
    }
}

impl<'t, K: Ord + Drop + 't, V: Drop + 't, const LEN: usize> FusedIterator
    for RangeOf<'t, K, V, LEN> {}

impl<'t, K, V, A: Ranged<K, V, L>, L: Walked> Clone for RangeOver<'t, K, V, A, L> {
    ghost is_clone = { λ cursor clone. clone ≡ cursor };

    ghost is_infallible = { λ _. ⊤ };

    fn clone(&self) -> Result<Self, AllocError> {
        Ok(RangeOver {
            arenas: self.arenas,
            root: self.root,
            low: self.low,
            high: self.high,
            forward: again(&self.forward),
            backward: again(&self.backward),
            values: PhantomData,
        })
    }
}

impl<'t, K: Ord + Drop + fmt::Debug + 't, V: Drop + fmt::Debug + 't, const LEN: usize> fmt::Debug
    for RangeOf<'t, K, V, LEN> {
    fn fmt<W: fmt::Write>(&self, f: &mut fmt::Formatter<W>) -> fmt::Result {
        f.debug_struct("Range")
            .field("forward", &self.get())
            .field("backward", &self.get_back())
            .finish()
    }
}
