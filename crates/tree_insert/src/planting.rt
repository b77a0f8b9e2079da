//! The first pair of a tree.
ghost use Rattle.std.specs.Prelude.{◌≡◌, [], ◌∷◌, None, IfOk};
ghost use Rattle.tree_array.specs.Arrivals.{in_order};
ghost use Rattle.tree_array.specs.Length.{IsLen};
ghost use Rattle.tree_node.specs.Whole.{IsTree, Plants, leaves_under};
ghost use Rattle.tree_split.specs.Packed.{IsPacked};

use tree_leaf::arena::NodeId;
use tree_leaf::leaf::LeafOf;
use tree_node::branch::LeafNodeOf;
use tree_node::node::{ArenasOf, NodeOf, Root};

/// Puts the first pair into a tree without leaves, and returns the root's number. The root is a new
/// leaf node, or the one that was retired, which gets a leaf again.
///
/// Returns `Err` with the pair if it cannot allocate; nothing has changed then. Allocates one leaf,
/// and one node if there is no root; doesn't fail if these were reserved. Makes no comparisons.
///
/// The caller must choose 7 or 15 for `LEN`, and pass a tree without a leaf.
pub fn plant<K: Ord + Drop, V: Drop, const LEN: usize>(
    arenas: &mut ArenasOf<K, V, LEN>,
    root: Option<Root>,
    key: K,
    val: V,
) -> Result<NodeId, (K, V)>
    requires len { IsLen LEN }
    requires tree { IsTree K.cmp arenas.old root }
    requires bare { leaves_under arenas.old.nodes root ≡ [] }
    ensures plants { Plants K.cmp arenas.old arenas.new key val result }
    ensures packed { IfOk result (λ id. IsPacked K.cmp None 1 arenas.new id) }
{
    let nodes = if root.is_none() { 1 } else { 0 };
    let Ok(()) = arenas.reserve(1, nodes) else {
        return Err((key, val));
    };
    let Ok(leaf) = arenas.add_leaf(leaf_with(key, val)) else {
        unreachable!()
    };
    let node = NodeOf::Leaf(LeafNodeOf::new(leaf));
    match root {
        None => {
            let Ok(id) = arenas.add_node(node) else {
                unreachable!()
            };
            Ok(id)
        }
        Some(retired) => {
            *arenas.node_mut(retired.id) = node;
            Ok(retired.id)
        }
    }
}

// Returns a leaf that holds only this pair.
fn leaf_with<K: Ord + Drop, V: Drop, const LEN: usize>(key: K, val: V) -> LeafOf<K, V, LEN>
    requires { IsLen LEN }
    ensures array { result.array ≡ in_order ((key, val) ∷ []) }
    ensures prev { result.prev ≡ None }
    ensures next { result.next ≡ None }
{
    let mut leaf = LeafOf::new();
    let _ = leaf.array_mut().insert::<false>(key, val);
    leaf
}
