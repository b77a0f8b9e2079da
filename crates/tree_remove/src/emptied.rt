//! What a removal leaves that took the last pair of a leaf: the leaf is dropped, and each node that
//! is left without a child.
ghost use Rattle.std.specs.Prelude.{◌<◌};
ghost use Rattle.tree_node.specs.Arenas.{TreeArenas};
ghost use Rattle.tree_remove.specs.Takes.{DropsEmptied, Emptied};

use tree_array::array::RemoveResult;
use tree_clean_up::{drop_child_node, drop_keyed_leaf, retire_if_empty};
use tree_leaf::arena::NodeId;
use tree_node::node::{ArenasOf, NodeOf};

/// Drops the leaf of a key, which a removal emptied, and on the way back each node that is left
/// without a child. An unbounded leaf stays while its node has another one.
///
/// Returns `Retired` if no child is left under the number, and `Success` otherwise. Descends once,
/// by the key that was removed, and allocates nothing.
pub fn drop_emptied<K: Ord + Drop, V: Drop, const LEN: usize>(
    arenas: &mut ArenasOf<K, V, LEN>,
    level: usize,
    id: NodeId,
    key: &K,
) -> RemoveResult
    requires node { 0 < level }
    requires emptied { (before : TreeArenas K V LEN) × Emptied K.cmp level before arenas.old id key.now }
    ensures { (before : TreeArenas K V LEN) → Emptied K.cmp level before arenas.old id key.now
        → DropsEmptied K.cmp level before arenas.new id result key.now }
{
    match arenas.node(id) {
        NodeOf::Leaf(node) => {
            let Some(place) = node.child_place(key, false) else {
                return RemoveResult::Fail;
            };
            if let Some(slot) = place.slot {
                drop_keyed_leaf(arenas, id, place.child, slot);
            }
            retire_if_empty(arenas, id)
        }
        NodeOf::Internal(node) => {
            let Some(place) = node.child_place(key, false) else {
                return RemoveResult::Fail;
            };
            match drop_emptied(arenas, level - 1, place.child, key) {
                RemoveResult::Retired => drop_child_node(arenas, id, place.child, place.slot),
                kept => kept,
            }
        }
    }
}
