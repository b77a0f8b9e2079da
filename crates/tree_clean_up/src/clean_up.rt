//! Clean-up after a removal that retired a child.
//!
//! The node above a retired child drops it in the same removal. So no keyed child is ever found
//! retired, nor any child of an internal node, and each function here drops the one child that it
//! is given.
ghost use Rattle.std.specs.Prelude.{◌≡◌, ℕ, suc, ◌++◌, ◌∷◌, IsSome, MatchOption, None, Some};
ghost use Rattle.tree_clean_up.specs.CleanUps.{DropsChild, DropsKeyed, HasChildIn, HasOnlyRetired, IsOnlyRetired, RetiresIfEmpty, TakesKeyed, TakesUnbounded};
ghost use Rattle.tree_node.specs.Arenas.{IsChain, get};
ghost use Rattle.tree_node.specs.Parts.{IsPart};
ghost use Rattle.tree_node.specs.Tree.{IsRetiredNode, Stands};

use tree_array::array::RemoveResult;
use tree_leaf::arena::{LeafId, NodeId};
use tree_leaf::leaf::unlink;
use tree_node::node::{ArenasOf, NodeOf};

/// Drops a keyed leaf and takes it out of its node, by the slot of its separator. The caller must
/// name a leaf of a chain, and the slot of a keyed child.
pub fn drop_keyed_leaf<K: Ord + Drop, V: Drop, const LEN: usize>(
    arenas: &mut ArenasOf<K, V, LEN>,
    id: NodeId,
    child: LeafId,
    slot: u8,
)
    requires linked { (front back : _) × IsChain arenas.old.leaves (front ++ child ∷ back) }
    requires slot { HasChildIn (get arenas.old.nodes id) (Some slot) }
    ensures { DropsKeyed K.cmp 0 arenas.old arenas.new id child slot }
{
    unlink(arenas, child);
    let _ = arenas.remove_leaf(child);
    take_keyed(arenas, id, slot);
}

/// Drops a retired child of an internal node and takes it out of the node: by the slot of its
/// separator if it is a keyed child, and as the unbounded child without one. The caller must name a
/// retired node other than this one, and the slot of a keyed child, if any.
pub fn drop_child_node<K: Ord + Drop, V: Drop, const LEN: usize>(
    arenas: &mut ArenasOf<K, V, LEN>,
    id: NodeId,
    child: NodeId,
    slot: Option<u8>,
) -> RemoveResult
    requires retired { IsRetiredNode (get arenas.old.nodes child) }
    requires apart { id ≡ child → ⊥ }
    requires slot { HasChildIn (get arenas.old.nodes id) slot }
    ensures { (level : ℕ) → DropsChild K.cmp (suc level) arenas.old arenas.new id child slot result }
{
    let _ = arenas.remove_node(child);
    match slot {
        Some(slot) => {
            take_keyed(arenas, id, slot);
            RemoveResult::Success
        }
        None => take_unbounded(arenas, id),
    }
}

/// Drops the unbounded leaf of a leaf node if it is retired and there is no keyed leaf. The node is
/// retired then. The caller must name a well-formed leaf node.
pub fn retire_if_empty<K: Ord + Drop, V: Drop, const LEN: usize>(
    arenas: &mut ArenasOf<K, V, LEN>,
    id: NodeId,
) -> RemoveResult
    requires { IsPart K.cmp 1 arenas.old id }
    ensures { RetiresIfEmpty arenas.old arenas.new id result }
{
    let Some(last) = only_retired(arenas, id) else {
        return RemoveResult::Success;
    };
    unlink(arenas, last);
    let _ = arenas.remove_leaf(last);
    take_unbounded(arenas, id)
}

// Returns the unbounded leaf of a leaf node if it is retired and there is no keyed leaf.
fn only_retired<K: Ord + Drop, V: Drop, const LEN: usize>(
    arenas: &ArenasOf<K, V, LEN>,
    id: NodeId,
) -> Option<LeafId>
    requires { Stands K.cmp 1 arenas.now None id None }
    ensures { MatchOption result (HasOnlyRetired arenas.now id → ⊥) (IsOnlyRetired arenas.now id) }
{
    let NodeOf::Leaf(node) = arenas.node(id) else {
        return None;
    };
    let last = node.unbounded_child?;
    if !node.children.is_empty() {
        return None;
    }
    let array = arenas.leaf(last).array();
    if !array.is_retired() || !array.is_empty() {
        return None;
    }
    Some(last)
}

/// Takes a keyed child out of its node, by the slot of its separator. Other children keep their
/// slots. The caller must name the slot of a keyed child.
pub fn take_keyed<K: Ord + Drop, V: Drop, const LEN: usize>(
    arenas: &mut ArenasOf<K, V, LEN>,
    id: NodeId,
    slot: u8,
)
    requires { HasChildIn (get arenas.old.nodes id) (Some slot) }
    ensures nodes { TakesKeyed K.cmp arenas.old.nodes arenas.new.nodes id slot }
    ensures leaves { arenas.new.leaves ≡ arenas.old.leaves }
{
    arenas.node_mut(id).take_keyed(slot);
}

// Takes the unbounded child out of its node. The keyed child with the greatest separator takes its
// place; if there is none, the node is retired.
fn take_unbounded<K: Ord + Drop, V: Drop, const LEN: usize>(
    arenas: &mut ArenasOf<K, V, LEN>,
    id: NodeId,
) -> RemoveResult
    requires { IsSome (get arenas.old.nodes id) }
    ensures nodes { TakesUnbounded K.cmp arenas.old.nodes arenas.new.nodes id result }
    ensures leaves { arenas.new.leaves ≡ arenas.old.leaves }
{
    arenas.node_mut(id).take_unbounded()
}
