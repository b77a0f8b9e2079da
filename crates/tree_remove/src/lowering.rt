//! Levels that a tree loses at its root.
ghost use Rattle.std.specs.Prelude.{◌⊎◌, ◌<◌};
ghost use Rattle.tree_remove.specs.Lowering.{LowersRoot};
ghost use Rattle.tree_node.specs.Parts.{IsPart};
ghost use Rattle.tree_remove.specs.Removes.{IsOfLevel, IsRetired, get};

use tree_leaf::arena::NodeId;
use tree_node::node::{ArenasOf, NodeOf, Root};

/// Returns the root that is left after a removal.
///
/// While the root is an internal node without keyed children, its unbounded child takes its place.
/// A retired internal root leaves `None`. A root that is a leaf node stays, retired or not. Drops
/// one node for each level that is lost; makes no comparisons and allocates nothing.
///
/// The caller must name a well-formed part of a tree, or a retired node.
#[inline(always)]
pub fn lower_root_at<K: Ord + Drop, V: Drop, const LEN: usize>(
    arenas: &mut ArenasOf<K, V, LEN>,
    level: usize,
    root: NodeId,
) -> Option<Root>
    requires node { 0 < level }
    requires part { IsPart K.cmp level arenas.old root ⊎ IsRetired level arenas.old root }
    requires kind { IsOfLevel level (get arenas.old.nodes root) }
    ensures { LowersRoot K.cmp level arenas.old arenas.new root result }
{
    match arenas.node(root) {
        NodeOf::Internal(node) => {
            if !node.children.is_empty() {
                return Some(Root { id: root, level });
            }
            lower_from(arenas, level, root)
        }
        NodeOf::Leaf(_) => Some(Root { id: root, level }),
    }
}

// Does what [`lower_root_at`] does, for as many levels as it takes. Its own function, so that a
// root that stays, as most do, costs a removal no call.
fn lower_from<K: Ord + Drop, V: Drop, const LEN: usize>(
    arenas: &mut ArenasOf<K, V, LEN>,
    level: usize,
    top: NodeId,
) -> Option<Root>
    requires node { 0 < level }
    requires part { IsPart K.cmp level arenas.old top ⊎ IsRetired level arenas.old top }
    requires kind { IsOfLevel level (get arenas.old.nodes top) }
    ensures { LowersRoot K.cmp level arenas.old arenas.new top result }
{
    match arenas.node(top) {
        NodeOf::Internal(node) => {
            if !node.children.is_empty() {
                return Some(Root { id: top, level });
            }
            let below = node.unbounded_child;
            let _ = arenas.remove_node(top);
            lower_from(arenas, level - 1, below?)
        }
        NodeOf::Leaf(_) => Some(Root { id: top, level }),
    }
}
