//! The descent from a node to the leaf that a key belongs to.
ghost use Rattle.std.specs.Prelude.{◌≡◌, ◌↔◌, ◌⊎◌, ◌-◌, ◌<◌, ℕ, IsTrue, MatchOption, Some};
ghost use Rattle.slab.specs.Slab.{get};
ghost use Rattle.tree_array.specs.Spans.{Spans};
ghost use Rattle.tree_node.specs.Ways.{IsOnWay, LeadsTo};
ghost use Rattle.tree_leaf.specs.Entries.{leaf_entries};
ghost use Rattle.tree_node.specs.Parts.{IsPart};
ghost use Rattle.tree_node.specs.Tree.{HasChildFor, IsRetired};
ghost use Rattle.tree_node.specs.Whole.{IsTree, root_at};

use crate::node::{ArenasOf, NodeOf};
use crate::routing::{child_by_key, is_beyond};
use tree_leaf::arena::{LeafId, NodeId};

/// The leaf that a key belongs to.
#[derive(Drop)]
pub struct LeafPlace {
    /// The leaf node above it.
    pub node: NodeId,
    pub leaf: LeafId,
    /// Whether the descent kept to the unbounded children.
    pub rightmost: bool,
}

/// Returns the leaf that a key belongs to under the number of a node of this level, or `None` if
/// the node is retired.
///
/// With `rightmost` the descent first compares the key with the last separator as long as it keeps
/// to the unbounded children, where keys that arrive in ascending order belong. Makes at most 4
/// comparisons per level among 15 slots and 3 among 7, and with `rightmost` one more at one level.
/// Changes nothing, and so needs no way back.
///
/// The caller must name a well-formed part of a tree, or a retired node.
#[inline(always)]
pub fn leaf_for<K: Ord + Drop, V: Drop, const LEN: usize>(
    arenas: &ArenasOf<K, V, LEN>,
    level: usize,
    id: NodeId,
    key: &K,
    rightmost: bool,
) -> Option<LeafPlace>
    requires node { 0 < level }
    requires part { IsPart K.cmp level arenas.now id ⊎ IsRetired level arenas.now id }
    ensures way { MatchOption result (IsRetired level arenas.now id)
        (λ place. IsOnWay K.cmp key.now (level - 1) arenas.now id place.node) }
    ensures child { MatchOption result (IsRetired level arenas.now id)
        (λ place. IsPart K.cmp level arenas.now id
        × HasChildFor K.cmp key.now (get arenas.now.nodes place.node) place.leaf) }
{
    let mut at = id;
    let mut above = level - 1;
    let mut last = rightmost;
    while rightmost && above > 0 {
        let NodeOf::Internal(node) = arenas.node(at) else {
            return None;
        };
        let Some(unbounded) = &node.unbounded_child else {
            return None;
        };
        if !is_beyond(&node.children, key) {
            last = false;
            break;
        }
        at = *unbounded;
        above -= 1;
    }
    while above > 0 {
        let NodeOf::Internal(node) = arenas.node(at) else {
            return None;
        };
        let Some(unbounded) = &node.unbounded_child else {
            return None;
        };
        at = child_by_key(&node.children, unbounded, key);
        above -= 1;
    }
    let NodeOf::Leaf(node) = arenas.node(at) else {
        return None;
    };
    let Some(unbounded) = &node.unbounded_child else {
        return None;
    };
    if last && is_beyond(&node.children, key) {
        return Some(LeafPlace {
            node: at,
            leaf: *unbounded,
            rightmost: true,
        });
    }
    Some(LeafPlace {
        node: at,
        leaf: child_by_key(&node.children, unbounded, key),
        rightmost: false,
    })
}

/// Returns whether a leaf has this number, and the key lies between its first and its last one, or
/// is one of these.
///
/// In a whole tree the key then belongs to this leaf. Reads no node, and makes at most two
/// comparisons.
#[inline(always)]
pub fn holds<K: Ord + Drop, V: Drop, const LEN: usize>(
    arenas: &ArenasOf<K, V, LEN>,
    leaf: LeafId,
    key: &K,
) -> bool
    ensures spans { IsTrue result ↔ Spans K.cmp (leaf_entries arenas.now.leaves leaf) key.now }
    ensures way { IsTrue result → (id level : ℕ) → IsTree K.cmp arenas.now (Some (root_at id level))
        → (node : ℕ) × LeadsTo K.cmp key.now level arenas.now id node leaf }
{
    match arenas.find_leaf(leaf) {
        Some(found) => found.array().spans(key),
        None => false,
    }
}
