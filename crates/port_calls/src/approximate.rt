//! Opens a walk near a key, among the entries under a number.
ghost use Rattle.std.specs.Prelude.{◌≡◌, ◌<◌, if◌then◌else◌};
ghost use Rattle.std.specs.Option.{option_map};
ghost use Rattle.port_calls.specs.Approximate.{Approximates};
ghost use Rattle.std.specs.declared.ops.Bound.TheVariants.{Included};
ghost use Rattle.tree_model.specs.declared.way.Way.TheVariants.{On, Back};
ghost use Rattle.tree_model.specs.Ways.{opposite};
ghost use Rattle.tree_node.specs.Tree.{StandsOrRetired, walk};
ghost use Rattle.tree_leaf.specs.Walks.{first_on};
ghost use Rattle.tree_parts.specs.Ends.{IsLinked};
ghost use Rattle.tree_model.specs.Rest.{lent};

use std::ops::Bound;
use tree_cursors::seek::seek_at;
use tree_leaf::arena::NodeId;
use tree_leaf::leaf::LeafOf;
use tree_leaf::{IterOf, LinkedIter};
use tree_model::{Backward, Direction, Forward, meets};
use tree_node::node::ArenasOf;
use tree_parts::ends::walk_from_end;

/// Opens a walk on an entry under a number of this level whose key isn't larger than the given one,
/// if `LE` is `true`, and isn't smaller, if it is `false`: the nearest such entry. Returns `None`
/// only if no entry there has such a key. Descends twice.
///
/// The caller must name a well-formed part of a tree, whose leaves are in one chain, or a retired
/// node.
pub fn approximate_at<'t, K: Ord + Drop, V: Drop, const LE: bool, const LEN: usize>(
    arenas: &'t ArenasOf<K, V, LEN>,
    level: usize,
    id: NodeId,
    key: &K,
) -> Option<IterOf<'t, K, V, LEN>>
    requires node { 0 < level }
    requires stands { StandsOrRetired K.cmp level arenas.now id }
    requires linked { IsLinked level arenas.now id }
    ensures { Approximates K.cmp (if LE then Back else On) level arenas.now id (Included key.now) result }
{
    if LE {
        let walk = nearest_at::<K, V, Backward, Forward, LEN>(arenas, level, id, key)?;
        Some(walk.rev())
    } else {
        nearest_at::<K, V, Forward, Backward, LEN>(arenas, level, id, key)
    }
}

// Opens a walk on the first entry on its way whose key isn't before the given one.
fn nearest_at<'t, K: Ord + Drop, V: Drop, D: Direction, E: Direction, const LEN: usize>(
    arenas: &'t ArenasOf<K, V, LEN>,
    level: usize,
    id: NodeId,
    key: &K,
) -> Option<LinkedIter<'t, LeafOf<K, V, LEN>, D>>
    requires ways { E.way ≡ opposite D.way }
    requires node { 0 < level }
    requires stands { StandsOrRetired K.cmp level arenas.now id }
    requires linked { IsLinked level arenas.now id }
    ensures { Approximates K.cmp D.way level arenas.now id (Included key.now) result }
{
    let (last, _) = first_at::<K, V, E, LEN>(arenas, level, id)?;
    if !meets::<K, D>(Bound::Included(key), last) {
        return None;
    }
    seek_at::<K, V, D, LEN>(arenas, level, id, Bound::Included(key))
}

// Returns the first entry on a way.
fn first_at<'t, K: Ord + Drop, V: Drop, D: Direction, const LEN: usize>(
    arenas: &'t ArenasOf<K, V, LEN>,
    level: usize,
    id: NodeId,
) -> Option<(&'t K, &'t V)>
    requires node { 0 < level }
    requires stands { StandsOrRetired K.cmp level arenas.now id }
    requires linked { IsLinked level arenas.now id }
    ensures { lent result ≡ first_on D.way (walk level arenas.now id) }
{
    let mut begun = walk_from_end::<K, V, D, LEN>(arenas, level, id)?;
    begun.next()
}
