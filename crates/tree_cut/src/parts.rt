//! Parts: what is under a number, and the children of a node by their places.
ghost use Rattle.std.specs.Prelude.{◌≡◌, ◌≤◌, IsSome, Some, length, slice_get, ℕ};
ghost use Rattle.tree_clean_up.specs.Places.{keyed_or};
ghost use Rattle.tree_cut.specs.Parts.{IsAt, part_id};
ghost use Rattle.tree_node.specs.Tree.{HasKind, keyed, node_children, unbounded};

use tree_array::array::ArrayOf;
use tree_leaf::arena::{LeafId, NodeId};
use tree_node::node::NodeOf;

// The number of a leaf or of a node.
#[derive(Clone, Copy, Drop)]
pub(crate) enum Part {
    Leaf(LeafId),
    Node(NodeId),
}

// Returns the child of a node at a place in the order of the keys, counted from 0: a keyed child,
// or the unbounded one after them all. The node must have an unbounded child, and the place must be
// one of its children's.
pub(crate) fn child_at<K: Ord + Drop, const LEN: usize>(node: &NodeOf<K, LEN>, place: u8) -> Part
    requires last { IsSome (unbounded node.now) }
    requires place { place ≤ length (keyed node.now).entries }
    ensures child { slice_get (node_children (Some node.now)) place ≡ Some (part_id result) }
    ensures kind { (level : ℕ) → HasKind level node.now → IsAt level result }
{
    match node {
        NodeOf::Leaf(node) => match id_at(&node.children, node.unbounded_child, place) {
            Some(id) => Part::Leaf(id),
            None => unreachable!(),
        },
        NodeOf::Internal(node) => match id_at(&node.children, node.unbounded_child, place) {
            Some(id) => Part::Node(id),
            None => unreachable!(),
        },
    }
}

// Returns the keyed child at a place, or else the unbounded one.
fn id_at<K: Ord + Drop, I: Copy + Drop, const LEN: usize>(
    children: &ArrayOf<K, I, LEN>,
    unbounded: Option<I>,
    place: u8,
) -> Option<I>
    ensures { result ≡ keyed_or (slice_get children.now.entries place) unbounded }
{
    match children.slot_at(place) {
        Some(slot) => Some(*children.val(slot)),
        None => unbounded,
    }
}
