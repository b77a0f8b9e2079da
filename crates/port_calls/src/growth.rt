//! Growth at the number of a root: a level above a full root, or a new leaf under a retired one.
ghost use Rattle.std.specs.Prelude.{◌≡◌, ◌⊎◌, ◌+◌, ◌^◌, ◌<◌, IfOk, IsOk, OnErr};
ghost use Rattle.port_calls.specs.Replanted.{Replants};
ghost use Rattle.tree_array.specs.Length.{IsLen};
ghost use Rattle.tree_insert.specs.Roots.{RaisesRoot};
ghost use Rattle.tree_leaf.specs.Arena.{HasPlaces};
ghost use Rattle.tree_node.specs.Parts.{IsPart, Unchanged};
ghost use Rattle.tree_node.specs.Tree.{IsRetired};

use std::alloc::AllocError;
use tree_insert::root::split_root_at;
use tree_leaf::arena::NodeId;
use tree_leaf::leaf::LeafOf;
use tree_node::branch::LeafNodeOf;
use tree_node::node::{ArenasOf, NodeOf};

/// Makes room at a root, and returns the number of the root afterwards: the next insert under it
/// finds room.
///
/// A retired root keeps its number and becomes a leaf node, at level 1, over a new, empty leaf. Any
/// other root is put under a new one, a level higher, and is split there, or rebuilt if it has few
/// keyed children.
///
/// Returns `Err` if it cannot allocate; nothing has changed then. Allocates one leaf for a retired
/// root and two nodes at most for any other, and doesn't fail if these were reserved.
///
/// Makes no comparisons: a retired root has no key, and the separator that a split gives to the new
/// root is the first in its array.
///
/// The caller must name the root of a well-formed tree of this depth, or a retired root.
pub fn grow_root_at<K: Ord + Drop, V: Drop, const LEN: usize>(
    arenas: &mut ArenasOf<K, V, LEN>,
    depth: usize,
    root: NodeId,
) -> Result<NodeId, AllocError>
    requires node { 0 < depth }
    requires part { IsPart K.cmp depth arenas.old root ⊎ IsRetired depth arenas.old root }
    ensures raised { IsPart K.cmp depth arenas.old root
        → IfOk result (λ id. RaisesRoot K.cmp depth arenas.old arenas.new root id × (depth + 1 < 2 ^ 64)) }
    ensures replanted { IsRetired depth arenas.old root
        → IfOk result (λ id. (id ≡ root) × Replants K.cmp arenas.old arenas.new root) }
    ensures err { OnErr result (Unchanged arenas.old arenas.new) }
    ensures places { IsPart K.cmp depth arenas.old root → HasPlaces arenas.old 0 2 → IsOk result }
    ensures leaf_place { IsRetired depth arenas.old root → HasPlaces arenas.old 1 0 → IsOk result }
{
    let node = arenas.node(root);
    prove!(node.slots_left() as usize <= LEN);
    if node.is_childless() {
        replant(arenas, root)
    } else {
        split_root_at(arenas, depth, root)
    }
}

// Puts a leaf node over a new, empty leaf in place of a retired node. Returns `Err` if it cannot
// allocate; nothing has changed then.
fn replant<K: Ord + Drop, V: Drop, const LEN: usize>(
    arenas: &mut ArenasOf<K, V, LEN>,
    root: NodeId,
) -> Result<NodeId, AllocError>
    requires len { IsLen LEN }
    requires retired { IsRetired 1 arenas.old root }
    ensures done { IfOk result (λ id. (id ≡ root) × Replants K.cmp arenas.old arenas.new root) }
    ensures err { OnErr result (Unchanged arenas.old arenas.new) }
    ensures places { HasPlaces arenas.old 1 0 → IsOk result }
{
    arenas.reserve(1, 0)?;
    let leaf = LeafOf::new();
    let Ok(added) = arenas.add_leaf(leaf) else {
        unreachable!()
    };
    *arenas.node_mut(root) = NodeOf::Leaf(LeafNodeOf::new(added));
    Ok(root)
}
