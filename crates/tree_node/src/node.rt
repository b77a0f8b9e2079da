//! Nodes of both kinds, the arenas that hold them, and roots.
ghost use Rattle.std.specs.Prelude.{◌↔◌, ◌≤◌, Some, IsTrue};
ghost use Rattle.tree_array.specs.Insertion.{IsFull};
ghost use Rattle.tree_array.specs.Length.{IsLen};
ghost use Rattle.tree_node.specs.Tree.{IsRetiredNode, keyed};

use crate::branch::{InternalNodeOf, LeafNodeOf};
use tree_leaf::arena::{NodeId, SlotsOf};

/// A node of a tree.
#[derive(Drop)]
pub enum NodeOf<K: Ord, const LEN: usize> {
    /// A node whose children are nodes.
    Internal(InternalNodeOf<K, LEN>),
    /// A node whose children are leaves.
    Leaf(LeafNodeOf<K, LEN>),
}

/// The node of fifteen keyed children.
pub type Node<K> = NodeOf<K, 15>;

/// The arenas of the leaves and nodes of trees, with `LEN` slots in each array.
pub type ArenasOf<K, V, const LEN: usize> = SlotsOf<K, V, NodeOf<K, LEN>, LEN>;

/// The arenas of trees with fifteen slots in each array.
pub type Arenas<K, V> = ArenasOf<K, V, 15>;

/// The root of a tree.
#[derive(Clone, Copy)]
pub struct Root {
    pub id: NodeId,
    /// Its level, which is the depth of the tree.
    pub level: usize,
}

impl<K: Ord + Drop, const LEN: usize> NodeOf<K, LEN> {
    /// Returns whether the node has no child. Runs in constant time.
    pub fn is_childless(&self) -> bool
        ensures { IsTrue result ↔ IsRetiredNode (Some self.now) }
    {
        match self {
            NodeOf::Internal(node) => node.is_childless(),
            NodeOf::Leaf(node) => node.is_childless(),
        }
    }

    /// Returns whether the node has no slot for another keyed child. Runs in constant time.
    pub fn is_full(&self) -> bool
        ensures { IsTrue result ↔ IsFull LEN (keyed self.now) }
    {
        match self {
            NodeOf::Internal(node) => node.children.is_full(),
            NodeOf::Leaf(node) => node.children.is_full(),
        }
    }

    /// Returns how many keyed children the node can still take. Runs in constant time.
    pub fn slots_left(&self) -> u8
        ensures few { result ≤ LEN }
        ensures len { IsLen LEN }
    {
        match self {
            NodeOf::Internal(node) => node.children.free(),
            NodeOf::Leaf(node) => node.children.free(),
        }
    }
}
