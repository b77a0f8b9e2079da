//! How an internal node makes room in a child node.
ghost use Rattle.std.specs.Prelude.{◌≡◌, ◌<◌, IfOk, IsOk, OnErr, ℕ};
ghost use Rattle.tree_split.specs.Splits.{SplitResult};
ghost use Rattle.tree_node.specs.Tree.{children_of};
ghost use Rattle.tree_node.specs.Parts.{IsPart, Unchanged};
ghost use Rattle.tree_leaf.specs.Counting.{times};
ghost use Rattle.tree_leaf.specs.Arena.{HasPlaces};
ghost use Rattle.slab.specs.Slab.{get};

use std::alloc::AllocError;
use tree_leaf::arena::NodeId;
use tree_node::branch::InternalNodeOf;
use tree_node::node::ArenasOf;
use tree_split::split_child;

/// The calls on just the number of an internal node.
pub trait InternalNodeCalls<K: Ord + Drop, const LEN: usize> {
    /// Makes room in a child node, by the first rule that fits:
    ///
    /// 1. A child with keyed children in up to three quarters of its slots is rebuilt in place.
    /// 2. If the parent has no room for one more keyed child, it returns `Ok(false)`, and nothing
    ///    changed.
    /// 3. The child's lower children go to a new node of its kind, which becomes a keyed child
    ///    before it. The separator comes from the child, so that no key is cloned.
    ///
    /// Returns `Err` if it cannot allocate, and then nothing changed; never if a place for one more
    /// node was reserved. Makes only the comparisons of the insert into the parent. Allocates at
    /// most one node. No leaf changes.
    ///
    /// The caller must give the number of an internal node with a well-formed part of a tree under
    /// it, and a child of it.
    final fn split_node<V: Drop>(
        arenas: &mut ArenasOf<K, V, LEN>,
        parent: NodeId,
        target: NodeId,
    ) -> Result<bool, AllocError>
        requires part { (level : ℕ) × (1 < level) × IsPart K.cmp level arenas.old parent }
        requires child { 0 < times target (children_of arenas.old.nodes parent) }
        ensures done { (level : ℕ) → 1 < level → IsPart K.cmp level arenas.old parent
            → IfOk result (λ split. SplitResult K.cmp split level arenas.old arenas.new parent target) }
        ensures leaves { (n : ℕ) → get arenas.new.leaves n ≡ get arenas.old.leaves n }
        ensures err { OnErr result (Unchanged arenas.old arenas.new) }
        ensures places { HasPlaces arenas.old 0 1 → IsOk result }
    {
        split_child(arenas, parent, target)
    }
}

impl<K: Ord + Drop, const LEN: usize> InternalNodeCalls<K, LEN> for InternalNodeOf<K, LEN> {}
