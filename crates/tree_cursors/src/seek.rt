//! Opens a walk on the first key past a bound, either way.
ghost use Rattle.std.specs.Prelude.{◌≡◌, ◌<◌, ◌++◌, [], List, MatchOption, None};
ghost use Rattle.tree_leaf.specs.Walks.{here, standing};
ghost use Rattle.tree_leaf.specs.Ways.{ahead};
ghost use Rattle.tree_model.specs.Ways.{along};
ghost use Rattle.tree_model.specs.Pairs.{lent_bound};
ghost use Rattle.tree_node.specs.Tree.{StandsOrRetired, walk};
ghost use Rattle.tree_parts.specs.Ends.{IsLinked};
ghost use Rattle.tree_cursors.specs.Seek.{NoneMeets, Opens, Seeks};

use std::ops::Bound;
use tree_leaf::LinkedIter;
use tree_leaf::arena::NodeId;
use tree_leaf::laws::next_or_jump;
use tree_leaf::leaf::LeafOf;
use tree_model::{Direction, meets};
use tree_node::look_ups::leaf_by;
use tree_node::node::ArenasOf;
use tree_parts::ends::walk_from_end;

/// Opens a walk on the first entry on its way whose key meets a bound, among the entries under a
/// number of this level and those that the links lead to from there. Returns `None` only if no
/// entry under the number meets the bound. Descends once, and then makes at most 6 comparisons with
/// 15 slots, and 5 with 7.
///
/// The caller must name a well-formed part of a tree, whose leaves are in one chain, or a retired
/// node, here and below.
pub fn seek_at<'t, K: Ord + Drop, V: Drop, D: Direction, const LEN: usize>(
    arenas: &'t ArenasOf<K, V, LEN>,
    level: usize,
    id: NodeId,
    bound: Bound<&K>,
) -> Option<LinkedIter<'t, LeafOf<K, V, LEN>, D>>
    requires node { 0 < level }
    requires stands { StandsOrRetired K.cmp level arenas.now id }
    requires linked { IsLinked level arenas.now id }
    ensures { Seeks K.cmp D.way level arenas.now id (lent_bound bound.entry) result }
{
    let mut walk = open_at::<K, V, D, LEN>(arenas, level, id, bound)?;
    pass(&mut walk, bound);
    while let Some((key, _)) = next_or_jump(&mut walk) {
        if meets::<K, D>(bound, key) {
            return Some(walk);
        }
    }
    None
}

// Opens a walk in a leaf before which no entry on the way meets the bound.
fn open_at<'t, K: Ord + Drop, V: Drop, D: Direction, const LEN: usize>(
    arenas: &'t ArenasOf<K, V, LEN>,
    level: usize,
    id: NodeId,
    bound: Bound<&K>,
) -> Option<LinkedIter<'t, LeafOf<K, V, LEN>, D>>
    requires node { 0 < level }
    requires stands { StandsOrRetired K.cmp level arenas.now id }
    requires linked { IsLinked level arenas.now id }
    ensures { MatchOption result (walk level arenas.now id ≡ [])
        (Opens K.cmp D.way level arenas.now id (lent_bound bound.entry)) }
{
    let key = match bound {
        Bound::Included(key) => key,
        Bound::Excluded(key) => key,
        Bound::Unbounded => return walk_from_end::<K, V, D, LEN>(arenas, level, id),
    };
    let leaf = leaf_by(arenas, level, id, &mut &*key)?;
    Some(LinkedIter::new(arenas, leaf))
}

// Goes on in its leaf past entries that don't meet the bound.
#[inline(always)]
fn pass<'t, K: Ord + Drop, V: Drop, D: Direction, const LEN: usize>(
    walk: &mut LinkedIter<'t, LeafOf<K, V, LEN>, D>,
    bound: Bound<&K>,
)
    requires { walk.old ≡ standing walk.old.leaves walk.old.leaf None }
    ensures stays { walk.new ≡ standing walk.old.leaves walk.old.leaf walk.new.at }
    ensures passes { (passed : List (K × V))
        × (along D.way (here walk.old) ≡ passed ++ ahead D.way (here walk.old) walk.new.at)
        × NoneMeets K.cmp D.way (lent_bound bound.entry) passed }
{
    match bound {
        Bound::Included(key) => walk.pass(key),
        Bound::Excluded(key) => walk.pass(key),
        Bound::Unbounded => {}
    }
}
