//! Nodes of one kind: those whose children are nodes, or those whose children are leaves.
ghost use Rattle.std.specs.Prelude.{◌≡◌, ◌↔◌, [], IsTrue, None, Some};
ghost use Rattle.tree_array.specs.Arrivals.{in_order};
ghost use Rattle.tree_array.specs.Length.{IsLen};

use tree_array::array::ArrayOf;
use tree_leaf::arena::{LeafId, NodeId};

/// A node whose children have numbers of one type. It has up to `LEN` keyed children, each under a
/// separator that no key of the child exceeds, and an unbounded child for the keys above all
/// separators. A retired node has no child.
#[derive(Drop)]
pub struct BranchOf<K: Ord, I, const LEN: usize> {
    // Beside the order of the keys in memory, since each descent reads both.
    pub unbounded_child: Option<I>,
    pub children: ArrayOf<K, I, LEN>,
}

/// A node over nodes.
pub type InternalNodeOf<K, const LEN: usize> = BranchOf<K, NodeId, LEN>;

/// A node over leaves.
pub type LeafNodeOf<K, const LEN: usize> = BranchOf<K, LeafId, LEN>;

/// The node over fifteen keyed nodes.
pub type InternalNode<K> = InternalNodeOf<K, 15>;

/// The node over fifteen keyed leaves.
pub type LeafNode<K> = LeafNodeOf<K, 15>;

impl<K: Ord + Drop, I: Copy + Drop, const LEN: usize> BranchOf<K, I, LEN> {
    /// Creates a node without keyed children. Allocates nothing. The caller must choose 7 or 15 for
    /// `LEN`.
    pub fn new(unbounded: I) -> Self
        requires { IsLen LEN }
        ensures keyed { result.children ≡ in_order [] }
        ensures unbounded { result.unbounded_child ≡ Some unbounded }
    {
        BranchOf {
            unbounded_child: Some(unbounded),
            children: ArrayOf::new(),
        }
    }

    /// Returns the keyed children under their separators.
    pub fn children(&self) -> &ArrayOf<K, I, LEN>
        ensures { result.now ≡ self.now.children }
    {
        &self.children
    }

    /// Returns the number of the unbounded child. A retired node has none.
    pub fn unbounded_child(&self) -> Option<I>
        ensures { result ≡ self.now.unbounded_child }
    {
        self.unbounded_child
    }

    /// Returns whether the node has no child. Runs in constant time.
    pub fn is_childless(&self) -> bool
        ensures { IsTrue result ↔ (self.now.children.entries ≡ []) × (self.now.unbounded_child ≡ None) }
    {
        self.children.is_empty() && self.unbounded_child.is_none()
    }
}
