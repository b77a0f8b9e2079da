//! The keyed children of a node by their places: how many there are, and in which slot one is.
ghost use Rattle.std.specs.Prelude.{◌≡◌, ◌<◌, MatchOption, None, Some, length, slice_get};
ghost use Rattle.tree_array.specs.Arrivals.{arrival};
ghost use Rattle.tree_node.specs.Tree.{keyed};

use tree_array::array::ArrayOf;
use tree_node::node::NodeOf;

/// Returns the slot of the keyed child at a place, or `None` after the last.
pub fn slot_at<K: Ord + Drop, const LEN: usize>(node: &NodeOf<K, LEN>, place: u8) -> Option<u8>
    ensures { MatchOption result (slice_get (keyed node.now).entries place ≡ None)
        (λ slot. (pair : _) × (arrival (keyed node.now).arrivals slot ≡ Some pair)
        × (slice_get (keyed node.now).entries place ≡ Some pair)) }
{
    match node {
        NodeOf::Leaf(node) => node.children.slot_at(place),
        NodeOf::Internal(node) => node.children.slot_at(place),
    }
}

/// Returns how many keyed children a node has.
pub fn keyed_count<K: Ord + Drop, const LEN: usize>(node: &NodeOf<K, LEN>) -> u8
    ensures count { result ≡ length (keyed node.now).entries }
    ensures few { result < 16 }
{
    match node {
        NodeOf::Leaf(node) => count(&node.children),
        NodeOf::Internal(node) => count(&node.children),
    }
}

// Returns how many entries an array has.
fn count<K: Ord + Drop, I: Drop, const LEN: usize>(children: &ArrayOf<K, I, LEN>) -> u8
    ensures count { result ≡ length children.now.entries }
    ensures few { result < 16 }
{
    // The contract of `free` states how many entries an array has at most.
    let _ = children.free();
    children.len() as u8
}
