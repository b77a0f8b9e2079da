//! Reads the shape of a tree, from its root down.
ghost use Rattle.std.specs.Prelude.{◌<◌};
ghost use Rattle.std.specs.Ordering.{nat_cmp};
ghost use Rattle.tree_node.specs.Tree.{StandsOrRetired};

use crate::rows::{Child, ChildRow, KeyRow};
use crate::shape::Shape;
use std::alloc::{AllocError, Global};
use tree_array::array::{ArrayIter, ArrayOf};
use tree_index::TreeIndexOf;
use tree_leaf::arena::{LeafId, NodeId};
use tree_leaf::leaf::LeafOf;
use tree_node::node::{ArenasOf, NodeOf};
use tree_parts::children::ChildrenOn;

/// Returns the shape of the tree of an index. Reads each node and each leaf once, and makes no
/// comparisons.
///
/// Returns `Err` if an allocation fails.
pub fn shape_of<const LEN: usize>(
    alloc: Global,
    index: &TreeIndexOf<u64, u64, LEN>,
) -> Result<Shape, AllocError> {
    let mut shape = Shape::new(alloc, LEN, index.depth(), index.len());
    let (arenas, root) = index.parts();
    if let Some(root) = root {
        let _ = read_node(arenas, index.depth(), root, &mut shape)?;
    }
    Ok(shape)
}

// Adds what is under the number of a node, and then the node.
fn read_node<V: Drop, const LEN: usize>(
    arenas: &ArenasOf<u64, V, LEN>,
    level: usize,
    id: NodeId,
    shape: &mut Shape,
) -> Result<Child, AllocError>
    requires node { 0 < level }
    requires stands { StandsOrRetired nat_cmp level arenas.now id }
{
    let mut children = ChildRow::new();
    match arenas.node(id) {
        NodeOf::Leaf(node) => {
            for leaf in ChildrenOn::new(&node.children, node.unbounded_child) {
                let child = read_leaf(leaf, arenas.leaf(leaf), shape)?;
                children.push(child);
            }
            let keys = keys_of(&node.children);
            shape.add_node(id, level, keys, children)
        }
        NodeOf::Internal(node) => {
            for below in ChildrenOn::new(&node.children, node.unbounded_child) {
                let child = read_node(arenas, level - 1, below, shape)?;
                children.push(child);
            }
            let keys = keys_of(&node.children);
            shape.add_node(id, level, keys, children)
        }
    }
}

// Adds a leaf.
fn read_leaf<V: Drop, const LEN: usize>(
    id: LeafId,
    leaf: &LeafOf<u64, V, LEN>,
    shape: &mut Shape,
) -> Result<Child, AllocError> {
    let keys = keys_of(leaf.array());
    shape.add_leaf(id, leaf.prev(), leaf.next(), keys)
}

// Returns the keys of an array.
fn keys_of<V: Drop, const LEN: usize>(array: &ArrayOf<u64, V, LEN>) -> KeyRow {
    let mut keys = KeyRow::new(LEN.saturating_sub(usize::from(array.free())));
    for slot in ArrayIter::new(array) {
        keys.push(slot, *array.key(slot));
    }
    keys
}
