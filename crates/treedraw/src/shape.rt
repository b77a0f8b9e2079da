//! The shape of a tree: its leaves and nodes with their keys, as a picture shows them.
use crate::rows::{Child, ChildRow, KeyRow};
use std::alloc::{AllocError, Global};
use tree_leaf::arena::{LeafId, NodeId};

/// The parts of the distance of two leaves in which middles are counted. A node is in the middle of
/// its children, so a halving for each level is exact.
pub const PARTS: u64 = 64;

/// A leaf of a shape.
#[derive(Drop)]
pub struct LeafShape {
    /// Its number among the leaves, in the order of their keys.
    pub number: u64,
    pub id: LeafId,
    pub prev: Option<LeafId>,
    pub next: Option<LeafId>,
    pub keys: KeyRow,
}

impl LeafShape {
    /// Returns whether this leaf and another are linked as neighbours, this one before the other.
    pub fn is_linked_to(&self, after: &LeafShape) -> bool {
        self.next == Some(after.id) && after.prev == Some(self.id)
    }
}

/// A node of a shape.
#[derive(Drop)]
pub struct NodeShape {
    /// Its number among the nodes. Those under it have smaller ones.
    pub number: u64,
    pub id: NodeId,
    pub level: usize,
    pub keys: KeyRow,
    pub children: ChildRow,
}

/// What a picture shows of a tree.
#[derive(Drop)]
pub struct Shape {
    /// How many slots each array has.
    pub slots: usize,
    pub depth: usize,
    pub pairs: usize,
    /// The largest key and separator.
    pub largest: u64,
    pub leaves: Vec<LeafShape>,
    pub nodes: Vec<NodeShape>,
}

impl Shape {
    /// Creates the shape of a tree whose leaves and nodes are still to be added.
    pub fn new(alloc: Global, slots: usize, depth: usize, pairs: usize) -> Self {
        Shape {
            slots,
            depth,
            pairs,
            largest: 0,
            leaves: Vec::new(alloc),
            nodes: Vec::new(alloc),
        }
    }

    /// Adds a leaf after all others.
    ///
    /// Returns `Err` if an allocation fails.
    pub fn add_leaf(
        &mut self,
        id: LeafId,
        prev: Option<LeafId>,
        next: Option<LeafId>,
        keys: KeyRow,
    ) -> Result<Child, AllocError> {
        let number = self.leaves.len() as u64;
        self.largest = self.largest.max(keys.largest());
        self.leaves.push(LeafShape {
            number,
            id,
            prev,
            next,
            keys,
        })?;
        Ok(Child {
            number,
            middle: number.saturating_mul(PARTS),
        })
    }

    /// Adds a node whose children were added.
    ///
    /// Returns `Err` if an allocation fails.
    pub fn add_node(
        &mut self,
        id: NodeId,
        level: usize,
        keys: KeyRow,
        children: ChildRow,
    ) -> Result<Child, AllocError> {
        let number = self.nodes.len() as u64;
        let middle = children.middle();
        self.largest = self.largest.max(keys.largest());
        self.nodes.push(NodeShape {
            number,
            id,
            level,
            keys,
            children,
        })?;
        Ok(Child { number, middle })
    }

    /// Returns the keys of a leaf, or none if there is no such leaf.
    pub fn keys_of_leaf(&self, id: LeafId) -> KeyRow {
        for leaf in &self.leaves {
            if leaf.id == id {
                return leaf.keys;
            }
        }
        KeyRow::new(0)
    }

    /// Returns the keys of a node, or none if there is no such node.
    pub fn keys_of_node(&self, id: NodeId) -> KeyRow {
        for node in &self.nodes {
            if node.id == id {
                return node.keys;
            }
        }
        KeyRow::new(0)
    }

    /// Returns whether two leaves are linked as neighbours.
    pub fn has_link(&self, before: LeafId, after: LeafId) -> bool {
        for leaf in &self.leaves {
            if leaf.id == before {
                return leaf.next == Some(after);
            }
        }
        false
    }
}
