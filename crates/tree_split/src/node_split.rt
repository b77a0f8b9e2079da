//! Splits and rebuilds of the nodes under an internal node.
ghost use Rattle.std.specs.Prelude.{◌≡◌, ℕ, ◌<◌, ◌≤◌, IfOk, IfSome, IsOk, OnErr, MatchOption, length};
ghost use Rattle.tree_array.specs.Arrivals.{boundary};
ghost use Rattle.tree_array.specs.Insertion.{HasRoom};
ghost use Rattle.tree_array.specs.Length.{IsLen, limit};
ghost use Rattle.tree_array.specs.Sound.{IsSound};
ghost use Rattle.tree_leaf.specs.Arena.{HasPlaces};
ghost use Rattle.tree_leaf.specs.Counting.{times};
ghost use Rattle.tree_model.specs.Pairs.{IsAbsent};
ghost use Rattle.slab.specs.Slab.{get};
ghost use Rattle.tree_node.specs.Parts.{IsPart, PutsChild, Unchanged};
ghost use Rattle.tree_node.specs.Shape.{found_keyed};
ghost use Rattle.tree_split.specs.DividesNode.{DividesNode};
ghost use Rattle.tree_split.specs.Splits.{SplitResult};
ghost use Rattle.tree_node.specs.Tree.{HasKind, children_of, keyed};

use crate::{parting_place, put_keyed};
use std::alloc::AllocError;
use tree_leaf::arena::NodeId;
use tree_node::node::{ArenasOf, NodeOf};

/// Makes room in a child node, the target. The first rule that applies decides:
///
/// 1. If at most three quarters of the target's slots hold keyed children, its array is rebuilt
///    in place.
/// 2. If the parent has no slot for another separator, returns false; nothing has changed.
/// 3. Otherwise the target is split at its array's boundary: the children below it move to a new
///    node of the same kind, the keyed child at the boundary becomes that node's unbounded child,
///    and its separator becomes the new node's. No key is cloned.
///
/// Returns `Err` if the target has to be split and it cannot allocate; nothing has changed then.
/// Allocates at most one node, and doesn't fail if one was reserved. Makes at most 5 comparisons (4
/// among 7 slots), to put a child into the parent's array. No leaf changes.
///
/// The caller must name a well-formed part of a tree as the parent, above the leaf nodes, and one
/// of its children as the target.
pub fn split_child<K: Ord + Drop, V: Drop, const LEN: usize>(
    arenas: &mut ArenasOf<K, V, LEN>,
    parent: NodeId,
    target: NodeId,
) -> Result<bool, AllocError>
    requires part { (level : ℕ) × (1 < level) × IsPart K.cmp level arenas.old parent }
    requires child { 0 < times target (children_of arenas.old.nodes parent) }
    ensures done { (level : ℕ) → 1 < level → IsPart K.cmp level arenas.old parent
        → IfOk result (λ split. SplitResult K.cmp split level arenas.old arenas.new parent target) }
    ensures leaves { (n : ℕ) → get arenas.new.leaves n ≡ get arenas.old.leaves n }
    ensures err { OnErr result (Unchanged arenas.old arenas.new) }
    ensures many { OnErr result (limit LEN < found_keyed (get arenas.old.nodes target)) }
    ensures places { HasPlaces arenas.old 0 1 → IsOk result }
{
    let full = arenas.node(parent).is_full();
    let Some(place) = place_to_part(arenas.node(target)) else {
        arenas.node_mut(target).rebuild();
        return Ok(true);
    };
    if full {
        return Ok(false);
    }
    let (separator, low) = divide_node(arenas, target, place)?;
    put_node(arenas.node_mut(parent), separator, low);
    Ok(true)
}

// Divides a node: its children below the one at this place move to a new node, whose unbounded
// child that one becomes. Returns its separator and the number of the new node. Returns `Err` if it
// cannot allocate; nothing has changed then.
fn divide_node<K: Ord + Drop, V: Drop, const LEN: usize>(
    arenas: &mut ArenasOf<K, V, LEN>,
    target: NodeId,
    place: u8,
) -> Result<(K, NodeId), AllocError>
    requires len { IsLen LEN }
    requires place { (node : _) × (get arenas.old.nodes target ≡ Some node) × (place < length (keyed node).entries) }
    ensures done { IfOk result (λ low. DividesNode arenas.old arenas.new target place low.0 low.1) }
    ensures err { OnErr result (Unchanged arenas.old arenas.new) }
    ensures places { HasPlaces arenas.old 0 1 → IsOk result }
{
    arenas.reserve(0, 1)?;
    let (separator, low) = arenas.node_mut(target).cut(place);
    let Ok(low_id) = arenas.add_node(low) else {
        unreachable!()
    };
    Ok((separator, low_id))
}

// Returns the place of the keyed child at which the node divides, or `None` if its array is rebuilt
// instead.
fn place_to_part<K: Ord + Drop, const LEN: usize>(node: &NodeOf<K, LEN>) -> Option<u8>
    ensures place { MatchOption result (length (keyed node.now).entries ≤ limit LEN)
        (λ place. (limit LEN < length (keyed node.now).entries) × (place < length (keyed node.now).entries)) }
    ensures rule { IfSome result (λ place. place ≡ (boundary K.cmp LEN (keyed node.now)).0) }
    ensures sound { IsSound K.cmp LEN (keyed node.now) }
{
    match node {
        NodeOf::Internal(node) => parting_place(&node.children),
        NodeOf::Leaf(node) => parting_place(&node.children),
    }
}

// Puts a node under its separator into an internal node.
fn put_node<K: Ord + Drop, const LEN: usize>(node: &mut NodeOf<K, LEN>, separator: K, child: NodeId)
    requires kind { HasKind 1 node.old }
    requires absent { IsAbsent K.cmp (keyed node.old).entries separator }
    requires room { HasRoom LEN (keyed node.old) }
    ensures { PutsChild K.cmp node.old node.new separator child }
{
    match node {
        NodeOf::Internal(node) => put_keyed(&mut node.children, separator, child),
        NodeOf::Leaf(_) => unreachable!(),
    }
}
