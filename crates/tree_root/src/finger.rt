//! The leaf that the last removals went to.
ghost use Rattle.std.specs.Prelude.{ℕ, MatchOption, Some};
ghost use Rattle.tree_node.specs.Ways.{LeadsTo};
ghost use Rattle.tree_node.specs.Tree.{IsRetired};
ghost use Rattle.tree_node.specs.Whole.{IsTree, root_at};

use tree_leaf::arena::{LeafId, NodeId};
use tree_node::descent::{holds, leaf_for};
use tree_node::node::ArenasOf;

/// The leaf that the last removal descended to, and whether the one before went there too.
///
/// It is a hint, which may be out of date: it is used only if the key lies in the leaf that has the
/// number now. So no clause mentions it, and no other call has to keep it right.
#[derive(Clone, Copy)]
pub struct Finger {
    leaf: LeafId,
    stays: bool,
}

impl Finger {
    /// Returns a finger before the first removal.
    pub fn new() -> Self {
        Finger {
            leaf: LeafId::any(),
            stays: false,
        }
    }

    /// Returns the leaf that a key belongs to in a tree, or `None` if the root is retired.
    ///
    /// If the last two removals descended to one leaf, and the key lies between the first and the
    /// last key there, takes that leaf, by two comparisons. Else descends, by at most 4 comparisons
    /// a level (3 among 7 slots).
    #[inline(always)]
    pub fn leaf_for<K: Ord + Drop, V: Drop, const LEN: usize>(
        &mut self,
        arenas: &ArenasOf<K, V, LEN>,
        depth: usize,
        root: NodeId,
        key: &K,
    ) -> Option<LeafId>
        requires { IsTree K.cmp arenas.now (Some (root_at root depth)) }
        ensures { MatchOption result (IsRetired depth arenas.now root)
            (λ leaf. (node : ℕ) × LeadsTo K.cmp key.now depth arenas.now root node leaf) }
    {
        if self.stays && holds(arenas, self.leaf, key) {
            return Some(self.leaf);
        }
        let place = leaf_for(arenas, depth, root, key, false)?;
        self.stays = place.leaf == self.leaf;
        self.leaf = place.leaf;
        Some(place.leaf)
    }

    /// Goes on to the next leaf, before its own one loses its last pair.
    #[inline(always)]
    pub fn goes_on<K: Ord + Drop, V: Drop, const LEN: usize>(
        &mut self,
        arenas: &ArenasOf<K, V, LEN>,
    ) {
        let Some(leaf) = arenas.find_leaf(self.leaf) else {
            return;
        };
        match leaf.next() {
            Some(next) if self.stays => self.leaf = next,
            _ => self.stays = false,
        }
    }
}
