//! The ends of a cursor.
ghost use Rattle.std.specs.Prelude.{◌≡◌, Some};
ghost use Rattle.std.specs.Ordering.{is_lt};
ghost use Rattle.std.specs.declared.ops.Bound.{Bound as AnyBound};
ghost use Rattle.tree_leaf.specs.Walks.{stood_on};
ghost use Rattle.tree_model.specs.Pairs.{lent_bound};
ghost use Rattle.tree_node.specs.Whole.{IsTree, walk_under};
ghost use Rattle.tree_model.specs.Cursor.{next_end, unopened};
ghost use Rattle.tree_model.specs.Rest.{lent};
ghost use Rattle.tree_cursors.specs.View.{EndStands, StepsInLeaf, end_of, pair_of};

use crate::seek::seek_at;
use std::ops::Bound;
use tree_leaf::LinkedIter;
use tree_leaf::laws::next_or_jump;
use tree_leaf::leaf::LeafOf;
use tree_model::Direction;
use tree_node::node::{ArenasOf, Root};

/// Where an end of a cursor is: it was never moved, it is on an entry, or it has left the tree.
#[derive(Drop)]
pub enum End<W> {
    Unopened,
    At(W),
    Exhausted,
}

/// Moves an end in place, and returns the pair that it is then on. An end that was never moved goes
/// to the first key that meets its bound, and any other end goes one entry along. Descends only for
/// the first move. Makes no comparisons after it.
#[inline(always)]
pub fn step<'t, K: Ord + Drop, V: Drop, D: Direction, const LEN: usize>(
    arenas: &'t ArenasOf<K, V, LEN>,
    root: Option<Root>,
    end: &mut End<LinkedIter<'t, LeafOf<K, V, LEN>, D>>,
    bound: Bound<&K>,
) -> Option<(&'t K, &'t V)>
    requires tree { IsTree K.cmp arenas.now root }
    requires stands { EndStands arenas.now root end.old }
    ensures place { end_of arenas.now root end.new ≡ next_end K.cmp D.way
        (lent_bound bound.entry) (walk_under arenas.now root) (end_of arenas.now root end.old) }
    ensures stands { EndStands arenas.now root end.new }
    ensures pair { lent result ≡ pair_of end.new }
{
    match end {
        End::Unopened => {
            let (key, value) = open(arenas, root, end, bound)?;
            Some((key, value))
        }
        End::At(walk) => match next_or_jump(walk) {
            Some((key, value)) => Some((key, value)),
            None => {
                *end = End::Exhausted;
                None
            }
        },
        End::Exhausted => None,
    }
}

/// Moves an end one entry along in its leaf, and returns that entry. Returns `None` and changes
/// nothing if the end is in no leaf, or on the last entry of its leaf on its way. Makes no
/// comparisons.
#[inline(always)]
pub fn step_in_leaf<'t, K: Ord + Drop, V: Drop, D: Direction, const LEN: usize>(
    end: &mut End<LinkedIter<'t, LeafOf<K, V, LEN>, D>>,
) -> Option<(&'t K, &'t V)>
    ensures { StepsInLeaf K.cmp D.way end.old result end.new }
{
    match end {
        End::At(walk) => walk.next(),
        End::Unopened => None,
        End::Exhausted => None,
    }
}

// Moves an end that was never moved in place, and returns the pair that it is then on.
#[inline(always)]
fn open<'t, K: Ord + Drop, V: Drop, D: Direction, const LEN: usize>(
    arenas: &'t ArenasOf<K, V, LEN>,
    root: Option<Root>,
    end: &mut End<LinkedIter<'t, LeafOf<K, V, LEN>, D>>,
    bound: Bound<&K>,
) -> Option<(&'t K, &'t V)>
    requires { IsTree K.cmp arenas.now root }
    ensures place { end_of arenas.now root end.new ≡ next_end K.cmp D.way
        (lent_bound bound.entry) (walk_under arenas.now root) unopened }
    ensures stands { EndStands arenas.now root end.new }
    ensures pair { lent result ≡ pair_of end.new }
{
    *end = first_end(arenas, root, bound);
    pair_on(end)
}

// Returns where an end that was never moved goes. Not inlined into the moves after the first.
#[inline(never)]
fn first_end<'t, K: Ord + Drop, V: Drop, D: Direction, const LEN: usize>(
    arenas: &'t ArenasOf<K, V, LEN>,
    root: Option<Root>,
    bound: Bound<&K>,
) -> End<LinkedIter<'t, LeafOf<K, V, LEN>, D>>
    requires { IsTree K.cmp arenas.now root }
    ensures place { end_of arenas.now root result ≡ next_end K.cmp D.way
        (lent_bound bound.entry) (walk_under arenas.now root) unopened }
    ensures stands { EndStands arenas.now root result }
{
    let Some(top) = root else {
        return End::Exhausted;
    };
    match seek_at::<K, V, D, LEN>(arenas, top.level, top.id, bound) {
        Some(walk) => End::At(walk),
        None => End::Exhausted,
    }
}

/// Returns whether one walk is on a smaller key than another. Makes one comparison. The caller must
/// pass walks that are on entries.
#[inline(always)]
pub fn comes_before<'t, K: Ord + Drop, V: Drop, D: Direction, E: Direction, const LEN: usize>(
    walk: &LinkedIter<'t, LeafOf<K, V, LEN>, D>,
    other: &LinkedIter<'t, LeafOf<K, V, LEN>, E>,
) -> bool
    ensures { (first second : _) → stood_on walk.now ≡ Some first
        → stood_on other.now ≡ Some second → result ≡ is_lt (K.cmp first.0 second.0) }
{
    let Some((key, _)) = walk.get() else {
        return false;
    };
    let Some((other_key, _)) = other.get() else {
        return false;
    };
    key.cmp(other_key).is_lt()
}

/// Returns the pair that an end is on, if it is on one. Runs in constant time.
#[inline(always)]
pub fn pair_on<'t, K: Ord + Drop, V: Drop, D: Direction, const LEN: usize>(
    end: &End<LinkedIter<'t, LeafOf<K, V, LEN>, D>>,
) -> Option<(&'t K, &'t V)>
    ensures { lent result ≡ pair_of end.now }
{
    match end {
        End::At(walk) => walk.get(),
        End::Unopened => None,
        End::Exhausted => None,
    }
}
