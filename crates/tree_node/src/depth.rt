//! Finds the level of a node when only its number is known.
ghost use Rattle.std.specs.Prelude.{◌≡◌, ◌<◌, None, ℕ};
ghost use Rattle.tree_node.specs.Depth.{last_node};
ghost use Rattle.tree_node.specs.Tree.{IsRetired, Stands, StandsOrRetired};

use crate::node::{ArenasOf, NodeOf};
use tree_leaf::arena::NodeId;

/// Returns the level of a node: the number of nodes on the path from it to a leaf, counting itself.
/// A retired node is at level 1. Reads one node per level and makes no comparisons.
///
/// The caller must name a well-formed part of a tree, or a retired node.
pub fn level_of<K: Ord + Drop, V: Drop, const LEN: usize>(
    arenas: &ArenasOf<K, V, LEN>,
    id: NodeId,
) -> usize
    ghost level: { ℕ }
    requires node { 0 < level }
    requires stands { StandsOrRetired K.cmp level arenas.now id }
    ensures stands { Stands K.cmp level arenas.now None id None → result ≡ level }
    ensures retired { IsRetired level arenas.now id → result ≡ 1 }
{
    // The nodes on the path are distinct, so their number fits.
    let _nodes = arenas.node_count();
    let mut count = 1;
    let mut below = arenas.node(id).last_node();
    while let Some(at) = below {
        count += 1;
        below = arenas.node(at).last_node();
    }
    count
}

impl<K: Ord + Drop, const LEN: usize> NodeOf<K, LEN> {
    // Returns the unbounded child if it is a node.
    fn last_node(&self) -> Option<NodeId>
        ensures { result ≡ last_node self.now }
    {
        match self {
            NodeOf::Internal(node) => node.unbounded_child,
            NodeOf::Leaf(_) => None,
        }
    }
}
