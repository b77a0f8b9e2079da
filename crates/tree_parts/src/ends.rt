//! The least and the greatest entry under the number of a node.
ghost use Rattle.std.specs.Prelude.{◌≡◌, ◌<◌, [], MatchOption};
ghost use Rattle.tree_parts.specs.Ends.{BeginsPart, FindsFirst, IsLinked};
ghost use Rattle.tree_node.specs.Tree.{StandsOrRetired, leaves_at, walk};

use crate::children::ChildrenOf;
use tree_leaf::LinkedIter;
use tree_leaf::arena::{LeafId, NodeId};
use tree_leaf::leaf::LeafOf;
use tree_model::Direction;
use tree_node::node::{ArenasOf, NodeOf};

/// Returns a walk, either way, that is before the first entry on its way under a number of this
/// level, in the leaf of that entry, or `None` if no entry is there. Makes no comparisons. Reads
/// one array a level, and those of the leaves without an entry before that one.
///
/// The caller must name a well-formed part of a tree, whose leaves are in one chain, or a retired
/// node.
pub fn walk_from_end<'a, K: Ord + Drop, V: Drop, D: Direction, const LEN: usize>(
    arenas: &'a ArenasOf<K, V, LEN>,
    level: usize,
    id: NodeId,
) -> Option<LinkedIter<'a, LeafOf<K, V, LEN>, D>>
    requires node { 0 < level }
    requires stands { StandsOrRetired K.cmp level arenas.now id }
    requires linked { IsLinked level arenas.now id }
    ensures { MatchOption result (walk level arenas.now id ≡ []) (BeginsPart D.way level arenas.now id) }
{
    let leaf = end_leaf_at::<K, V, D, LEN>(arenas, level, id)?;
    Some(LinkedIter::new(arenas, leaf))
}

// Returns the first leaf with an entry on the way of a walk, of those under a number of this level.
fn end_leaf_at<K: Ord + Drop, V: Drop, D: Direction, const LEN: usize>(
    arenas: &ArenasOf<K, V, LEN>,
    level: usize,
    id: NodeId,
) -> Option<LeafId>
    requires node { 0 < level }
    requires stands { StandsOrRetired K.cmp level arenas.now id }
    ensures { FindsFirst D.way arenas.now.leaves (leaves_at level arenas.now.nodes id) result }
{
    match arenas.node(id) {
        NodeOf::Leaf(node) => {
            let leaves = ChildrenOf::<K, LeafId, D, LEN>::new(&node.children, node.unbounded_child);
            for leaf in leaves {
                if !arenas.leaf(leaf).array().is_empty() {
                    return Some(leaf);
                }
            }
            None
        }
        NodeOf::Internal(node) => {
            let children = ChildrenOf::<K, NodeId, D, LEN>::new(
                &node.children,
                node.unbounded_child,
            );
            for child in children {
                let found = end_leaf_at::<K, V, D, LEN>(arenas, level - 1, child);
                if found.is_some() {
                    return found;
                }
            }
            None
        }
    }
}
