//! The descent of several keys at once.
ghost use Rattle.std.specs.Prelude.{◌≡◌, ◌≤◌, length, replicate, None, Some};
ghost use Rattle.slab.specs.Slab.{ContainsKey, get};
ghost use Rattle.tree_batches.specs.Batches.{LeavesUnder, child_or_itself, leaf_of};
ghost use Rattle.tree_node.specs.Whole.{IsTop, IsTree};

use crate::batch::BATCH;
use crate::lent::{Asked, Lent};
use tree_leaf::arena::{LeafId, NodeId};
use tree_node::node::{ArenasOf, NodeOf, Root};

// Writes the leaf that each key of a batch belongs to. Written in place, since an array that
// is returned is copied.
#[inline(always)]
pub(crate) fn leaves_of<Q: Lent<K>, K: Ord + Drop, V: Drop, const LEN: usize>(
    arenas: &ArenasOf<K, V, LEN>,
    root: &Option<Root>,
    keys: &[Q],
    leaves: &mut [Option<LeafId>],
)
    requires tree { IsTree K.cmp arenas.now root.now }
    requires few { length keys.now ≤ 8 }
    requires none { leaves.old ≡ replicate 8 None }
    ensures { LeavesUnder Q.key K.cmp arenas.now root.now keys.now leaves.new }
{
    match root {
        Some(top) => leaves_below(arenas, *top, keys, leaves),
        None => {}
    }
}

// Writes the leaf under a root that each key of a batch belongs to.
//
// The keys take turns at each level, so that none waits for the loads of another one.
#[inline(always)]
fn leaves_below<Q: Lent<K>, K: Ord + Drop, V: Drop, const LEN: usize>(
    arenas: &ArenasOf<K, V, LEN>,
    top: Root,
    keys: &[Q],
    leaves: &mut [Option<LeafId>],
)
    requires top { IsTop K.cmp arenas.now (Some top) }
    requires few { length keys.now ≤ 8 }
    requires long { length leaves.old ≡ 8 }
    ensures { LeavesUnder Q.key K.cmp arenas.now (Some top) keys.now leaves.new }
{
    let mut nodes = [top.id; BATCH];
    for _ in 1..top.level {
        for place in 0..keys.len() {
            nodes[place] = node_below(arenas, nodes[place], &keys[place]);
        }
    }
    for place in 0..keys.len() {
        leaves[place] = leaf_below(arenas, nodes[place], &keys[place]);
    }
}

// Returns the child that a key belongs to, or the node itself if no node is below it.
//
// Never inlined: in a loop over keys the compiler turns the moves of a search into branches, and
// each wrong guess discards the loads that were begun.
#[inline(never)]
fn node_below<Q: Lent<K>, K: Ord + Drop, V: Drop, const LEN: usize>(
    arenas: &ArenasOf<K, V, LEN>,
    id: NodeId,
    key: &Q,
) -> NodeId
    requires { ContainsKey arenas.now.nodes id }
    ensures { result ≡ child_or_itself K.cmp (Q.key key.now) arenas.now.nodes id }
{
    match arenas.node(id) {
        NodeOf::Internal(node) => node.child_for(&mut Asked(key)).unwrap_or(id),
        NodeOf::Leaf(_) => id,
    }
}

// Returns the leaf below a node that a key belongs to, or `None` if no leaf is below it. Never
// inlined, as `node_below` isn't.
#[inline(never)]
fn leaf_below<Q: Lent<K>, K: Ord + Drop, V: Drop, const LEN: usize>(
    arenas: &ArenasOf<K, V, LEN>,
    id: NodeId,
    key: &Q,
) -> Option<LeafId>
    requires { ContainsKey arenas.now.nodes id }
    ensures { result ≡ leaf_of K.cmp (Q.key key.now) (get arenas.now.nodes id) }
{
    match arenas.node(id) {
        NodeOf::Internal(_) => None,
        NodeOf::Leaf(node) => node.child_for(&mut Asked(key)),
    }
}
