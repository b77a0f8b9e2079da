//! The spare of a part of a tree: how many writes are sure to go into its leaves.
ghost use Rattle.std.specs.Prelude.{◌≡◌, ◌<◌, Some, if◌then◌else◌};
ghost use Rattle.slab.specs.Slab.{ContainsKey};
ghost use Rattle.tree_array.specs.Arrivals.{free};
ghost use Rattle.tree_array.specs.Sound.{IsSound};
ghost use Rattle.tree_node.specs.Shape.{leaf_spare, least};
ghost use Rattle.tree_node.specs.Tree.{StandsOrRetired, leaves_at};
ghost use Rattle.tree_node.specs.Whole.{root_at, spare_under};

use crate::children::ChildrenOn;
use tree_array::array::ArrayOf;
use tree_leaf::arena::{LeafId, NodeId};
use tree_node::node::{ArenasOf, NodeOf};

/// Returns how many pairs can be written under a number without allocating, whatever their keys:
/// the least number that any leaf takes. A leaf takes as many pairs as it has slots never used. If
/// it is sure to be rebuilt in place once these are filled, it takes as many as it has slots
/// without an entry. A retired node takes none. Reads every node and leaf under the number, makes
/// no comparisons and allocates nothing.
///
/// The caller must name a well-formed part of a tree at this level, or a retired node, here and
/// below.
pub fn spare_at<K: Ord + Drop, V: Drop, const LEN: usize>(
    arenas: &ArenasOf<K, V, LEN>,
    level: usize,
    id: NodeId,
) -> u8
    requires node { 0 < level }
    requires stands { StandsOrRetired K.cmp level arenas.now id }
    ensures { result ≡ spare_under arenas.now (Some (root_at id level)) }
{
    let node = arenas.node(id);
    if node.is_childless() {
        return 0;
    }
    prove!(node.slots_left() as usize <= LEN);
    least_spare(arenas, level, id, LEN as u8)
}

// Returns the lesser of `most` and the spare under a number.
fn least_spare<K: Ord + Drop, V: Drop, const LEN: usize>(
    arenas: &ArenasOf<K, V, LEN>,
    level: usize,
    id: NodeId,
    most: u8,
) -> u8
    requires node { 0 < level }
    requires stands { StandsOrRetired K.cmp level arenas.now id }
    ensures { result ≡ least most (leaf_spare arenas.now.leaves) (leaves_at level arenas.now.nodes id) }
{
    let mut so_far = most;
    match arenas.node(id) {
        NodeOf::Leaf(node) => {
            for leaf in ChildrenOn::new(&node.children, node.unbounded_child) {
                so_far = so_far.min(spare_in(arenas, leaf));
            }
            so_far
        }
        NodeOf::Internal(node) => {
            for child in ChildrenOn::new(&node.children, node.unbounded_child) {
                so_far = least_spare(arenas, level - 1, child, so_far);
            }
            so_far
        }
    }
}

// Returns how many pairs can be written into a leaf without allocating, whatever their keys.
fn spare_in<K: Ord + Drop, V: Drop, const LEN: usize>(
    arenas: &ArenasOf<K, V, LEN>,
    leaf: LeafId,
) -> u8
    requires { ContainsKey arenas.now.leaves leaf }
    ensures { result ≡ leaf_spare arenas.now.leaves leaf }
{
    let array = arenas.leaf(leaf).array();
    let count = array.len();
    let left = slots_left_in(array) as usize;
    if count + left <= LEN * 3 / 4 {
        (LEN - count) as u8
    } else {
        left as u8
    }
}

// Returns how many more pairs an array takes: as many as it has slots never used, or none once it
// is retired.
fn slots_left_in<K: Ord + Drop, V: Drop, const LEN: usize>(array: &ArrayOf<K, V, LEN>) -> u8
    ensures left { result ≡ if array.now.retired then 0 else free LEN array.now }
    ensures sound { IsSound K.cmp LEN array.now }
{
    let unused = array.free();
    if array.is_retired() { 0 } else { unused }
}
