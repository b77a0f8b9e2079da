//! How a tree gains and loses levels at its root.
ghost use Rattle.std.specs.Prelude.{◌≡◌, ◌⊎◌, ◌+◌, ◌^◌, ◌<◌, IfOk, IsOk, MatchOption, None, OnErr, Some, ℕ};
ghost use Rattle.slab.specs.Slab.{get};
ghost use Rattle.port_calls.specs.Replanted.{Replants};
ghost use Rattle.tree_insert.specs.Roots.{RaisesRoot};
ghost use Rattle.tree_leaf.specs.Arena.{HasPlaces};
ghost use Rattle.tree_node.specs.Parts.{IsPart, Unchanged};
ghost use Rattle.tree_node.specs.Tree.{IsOfLevel, IsRetired};
ghost use Rattle.tree_node.specs.Whole.{root_at};
ghost use Rattle.tree_remove.specs.Lowering.{LowersRoot};

use crate::growth::grow_root_at;
use crate::node_calls::found_level;
use std::alloc::AllocError;
use tree_leaf::arena::NodeId;
use tree_node::depth::level_of;
use tree_node::node::{ArenasOf, NodeOf};
use tree_remove::lowering::lower_root_at;

/// The calls on just the number of a root. The ghost parameter `level` is the tree's depth. Each
/// call first reads one node per level, to find it.
pub trait RootCalls<K: Ord + Drop, const LEN: usize> {
    /// Makes room under a root, and returns the number of the root then: puts it under a new root
    /// and splits it there. A retired root keeps its number and becomes a leaf node over one empty
    /// leaf.
    ///
    /// Returns `Err` if it cannot allocate, and then nothing changed; never if places for two nodes
    /// were reserved, or, under a retired root, a place for a leaf. Allocates at most two nodes, or
    /// one leaf.
    ///
    /// The caller must give the number of a root that has a well-formed tree under it or is
    /// retired.
    final fn split_root<V: Drop>(
        arenas: &mut ArenasOf<K, V, LEN>,
        root: NodeId,
    ) -> Result<NodeId, AllocError>
        ghost level: { ℕ }
        requires node { 0 < level }
        requires part { IsPart K.cmp level arenas.old root ⊎ IsRetired level arenas.old root }
        ensures raised { IsPart K.cmp level arenas.old root
            → IfOk result (λ id. RaisesRoot K.cmp level arenas.old arenas.new root id × (level + 1 < 2 ^ 64)) }
        ensures replanted { IsRetired level arenas.old root
            → IfOk result (λ id. (id ≡ root) × Replants K.cmp arenas.old arenas.new root) }
        ensures err { OnErr result (Unchanged arenas.old arenas.new) }
        ensures places { IsPart K.cmp level arenas.old root → HasPlaces arenas.old 0 2 → IsOk result }
        ensures leaf_place { IsRetired level arenas.old root → HasPlaces arenas.old 1 0 → IsOk result }
    {
        let level = found_level(arenas, root);
        grow_root_at(arenas, level, root)
    }

    /// Returns the root after a removal: an internal root without keyed children gives its place to
    /// its unbounded child, again and again, and `None` is left of a retired internal root. A leaf
    /// node stays the root, retired or not. Makes no comparisons, and allocates nothing.
    ///
    /// The caller must give the number of a root that has a well-formed tree under it or is
    /// retired.
    final fn cleanup_root<V: Drop>(arenas: &mut ArenasOf<K, V, LEN>, root: NodeId) -> Option<NodeId>
        ghost level: { ℕ }
        requires node { 0 < level }
        requires part { IsPart K.cmp level arenas.old root ⊎ IsRetired level arenas.old root }
        requires kind { IsOfLevel level (get arenas.old.nodes root) }
        ensures { MatchOption result (LowersRoot K.cmp level arenas.old arenas.new root None)
            (λ id. (left : ℕ) × LowersRoot K.cmp level arenas.old arenas.new root (Some (root_at id left))) }
    {
        let level = level_of_root(arenas, root);
        let lowered = lower_root_at(arenas, level, root)?;
        Some(lowered.id)
    }
}

impl<K: Ord + Drop, const LEN: usize> RootCalls<K, LEN> for NodeOf<K, LEN> {}

// Returns the level of a root, and 2 for a retired internal node, whose level is no longer known.
fn level_of_root<K: Ord + Drop, V: Drop, const LEN: usize>(
    arenas: &ArenasOf<K, V, LEN>,
    root: NodeId,
) -> usize
    ghost level: { ℕ }
    requires node { 0 < level }
    requires part { IsPart K.cmp level arenas.now root ⊎ IsRetired level arenas.now root }
    requires kind { IsOfLevel level (get arenas.now.nodes root) }
    ensures node { 0 < result }
    ensures level { IsPart K.cmp level arenas.now root → result ≡ level }
    ensures kind { IsOfLevel result (get arenas.now.nodes root) }
{
    match arenas.node(root) {
        NodeOf::Internal(_) => level_of(arenas, root).max(2),
        NodeOf::Leaf(_) => 1,
    }
}
