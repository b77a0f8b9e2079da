//! Growth at the root: a level above a full root.
ghost use Rattle.std.specs.Prelude.{◌+◌, ◌^◌, ◌<◌, IfOk, IsOk, OnErr};
ghost use Rattle.tree_leaf.specs.Arena.{HasPlaces};
ghost use Rattle.tree_node.specs.Parts.{IsPart, Unchanged};
ghost use Rattle.tree_insert.specs.Roots.{RaisesRoot};

use std::alloc::AllocError;
use tree_leaf::arena::NodeId;
use tree_node::branch::InternalNodeOf;
use tree_node::node::{ArenasOf, NodeOf};
use tree_split::split_child;

/// Puts a root under a new one and splits it there at its array's boundary, or rebuilds it if at
/// most three quarters of its slots hold keyed children. Returns the new root's number.
///
/// Returns `Err` if it cannot allocate; nothing has changed then. Allocates two nodes at most, and
/// doesn't fail if two were reserved. Makes no comparisons: the separator of a split is the first
/// in the new root's array.
///
/// The caller must name the root of a well-formed tree of this depth, which isn't retired.
pub fn split_root_at<K: Ord + Drop, V: Drop, const LEN: usize>(
    arenas: &mut ArenasOf<K, V, LEN>,
    depth: usize,
    root: NodeId,
) -> Result<NodeId, AllocError>
    requires node { 0 < depth }
    requires part { IsPart K.cmp depth arenas.old root }
    ensures done { IfOk result (λ id. RaisesRoot K.cmp depth arenas.old arenas.new root id) }
    ensures levels { IfOk result (λ _. depth + 1 < 2 ^ 64) }
    ensures err { OnErr result (Unchanged arenas.old arenas.new) }
    ensures places { HasPlaces arenas.old 0 2 → IsOk result }
{
    prove!(arenas.node(root).slots_left() as usize <= LEN);
    arenas.reserve(0, 2)?;
    let top = InternalNodeOf::new(root);
    let Ok(id) = arenas.add_node(NodeOf::Internal(top)) else {
        unreachable!()
    };
    // There are as many nodes as levels at least, so that the new depth fits.
    let _ = arenas.node_count();
    match split_child(arenas, id, root) {
        Ok(true) => Ok(id),
        Ok(false) => unreachable!(),
        Err(_) => unreachable!(),
    }
}
