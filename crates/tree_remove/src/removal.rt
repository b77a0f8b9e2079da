//! Removals under the number of a node, at its level.
ghost use Rattle.std.specs.Prelude.{◌≡◌, ◌⊎◌, ◌<◌, ◌≤◌, ℕ, true, length, IfErr, IfOk, Ok};
ghost use Rattle.std.specs.Fn.{FnOnceReturnsAt, FnOnceTakesAt};
ghost use Rattle.std.specs.Option.{ForSome};
ghost use Rattle.slab.specs.Slab.{ContainsKey};
ghost use Rattle.tree_node.specs.Ways.{LeadsTo};
ghost use Rattle.tree_clean_up.specs.CleanUps.{HasOnlyRetired};
ghost use Rattle.tree_node.specs.Parts.{IsPart};
ghost use Rattle.tree_remove.specs.Removes.{IsRetired, RemovesUnder, pair_at, removal_told, walk};

use crate::emptied::drop_emptied;
use tree_array::array::RemoveResult;
use tree_leaf::arena::{LeafId, NodeId};
use tree_node::descent::leaf_for;
use tree_node::node::ArenasOf;

/// Removes the pair with an equal key from under the number of a node of this level, if the
/// condition returns `true` for its value. Calls the condition once if the key is present, else
/// never.
///
/// Returns `Fail` if the key is absent or the condition returns `false`; nothing has changed then.
/// Returns `Retired` if no child is left under the number, and `Success` otherwise. Makes at most 4
/// comparisons a level and in the leaf (3 among 7 slots), and twice as many if the pair is the only
/// one in its leaf. Allocates nothing.
///
/// The caller must name a well-formed part of a tree, or a retired node, and pass a condition that
/// may be called on the value at the key.
pub fn remove_at<K: Ord + Drop, V: Drop, F: FnOnce(&V) -> bool + Drop, const LEN: usize>(
    arenas: &mut ArenasOf<K, V, LEN>,
    level: usize,
    id: NodeId,
    key: &K,
    condition: F,
) -> RemoveResult
    requires node { 0 < level }
    requires part { IsPart K.cmp level arenas.old id ⊎ IsRetired level arenas.old id }
    requires callable { ForSome (pair_at K.cmp (walk level arenas.old id) key.now)
        (λ pair. FnOnceTakesAt F.FnOnce condition pair.1) }
    ensures removes { RemovesUnder K.cmp
        (λ val said. FnOnceReturnsAt F.FnOnce condition val said) level arenas.old arenas.new id result key.now }
    ensures settled { level ≡ 1 → result ≡ RemoveResult.Success → HasOnlyRetired arenas.new id → ⊥ }
{
    let Some(place) = leaf_for(arenas, level, id, key, false) else {
        return RemoveResult::Fail;
    };
    match remove_beside(arenas, level, id, place.leaf, key, condition) {
        Ok(true) => RemoveResult::Success,
        Ok(false) => RemoveResult::Fail,
        Err(condition) => remove_alone(arenas, level, id, place.leaf, key, condition),
    }
}

/// Removes a pair, as [`remove_at`] does, from the leaf that its key belongs to, if this has
/// another one, so that no node changes. Returns whether it did. Reads no node.
///
/// Returns `Err` with the condition, and changes nothing, if the leaf has only one pair or none.
#[inline(always)]
pub fn remove_beside<K: Ord + Drop, V: Drop, F: FnOnce(&V) -> bool + Drop, const LEN: usize>(
    arenas: &mut ArenasOf<K, V, LEN>,
    level: usize,
    id: NodeId,
    leaf: LeafId,
    key: &K,
    condition: F,
) -> Result<bool, F>
    requires node { 0 < level }
    requires way { (node : ℕ) × LeadsTo K.cmp key.now level arenas.old id node leaf }
    requires callable { ForSome (pair_at K.cmp (walk level arenas.old id) key.now)
        (λ pair. FnOnceTakesAt F.FnOnce condition pair.1) }
    ensures removes { IfOk result
        (λ removed. RemovesUnder K.cmp
        (λ val said. FnOnceReturnsAt F.FnOnce condition val said) level arenas.old arenas.new id
        (removal_told removed) key.now) }
    ensures settled { result ≡ Ok true → level ≡ 1 → HasOnlyRetired arenas.new id → ⊥ }
    ensures handed_back { IfErr result (λ back. (back ≡ condition) × (arenas.new ≡ arenas.old)) }
    ensures alone { IfErr result (λ _. length (walk 0 arenas.old leaf) ≤ 1) }
{
    if arenas.leaf(leaf).array().len() <= 1 {
        return Err(condition);
    }
    match remove_in_leaf(arenas, leaf, key, condition) {
        RemoveResult::Success => Ok(true),
        RemoveResult::Fail => Ok(false),
        // Of two pairs, one is left.
        RemoveResult::Retired => unreachable!(),
    }
}

/// Removes a pair, as [`remove_at`] does, from the leaf that its key belongs to. If it is the only
/// pair in its leaf, descends once more, and drops the leaf and each node that is left without a
/// child.
pub fn remove_alone<K: Ord + Drop, V: Drop, F: FnOnce(&V) -> bool + Drop, const LEN: usize>(
    arenas: &mut ArenasOf<K, V, LEN>,
    level: usize,
    id: NodeId,
    leaf: LeafId,
    key: &K,
    condition: F,
) -> RemoveResult
    requires node { 0 < level }
    requires way { (node : ℕ) × LeadsTo K.cmp key.now level arenas.old id node leaf }
    requires callable { ForSome (pair_at K.cmp (walk level arenas.old id) key.now)
        (λ pair. FnOnceTakesAt F.FnOnce condition pair.1) }
    ensures removes { RemovesUnder K.cmp
        (λ val said. FnOnceReturnsAt F.FnOnce condition val said) level arenas.old arenas.new id result key.now }
    ensures settled { level ≡ 1 → result ≡ RemoveResult.Success → HasOnlyRetired arenas.new id → ⊥ }
{
    match remove_in_leaf(arenas, leaf, key, condition) {
        RemoveResult::Retired => drop_emptied(arenas, level, id, key),
        kept => kept,
    }
}

// Removes the pair with an equal key from a leaf, if the condition returns `true` for its value.
#[inline(always)]
fn remove_in_leaf<K: Ord + Drop, V: Drop, F: FnOnce(&V) -> bool + Drop, const LEN: usize>(
    arenas: &mut ArenasOf<K, V, LEN>,
    id: LeafId,
    key: &K,
    condition: F,
) -> RemoveResult
    requires there { ContainsKey arenas.old.leaves id }
    requires callable { ForSome (pair_at K.cmp (walk 0 arenas.old id) key.now)
        (λ pair. FnOnceTakesAt F.FnOnce condition pair.1) }
    ensures removes { RemovesUnder K.cmp
        (λ val said. FnOnceReturnsAt F.FnOnce condition val said) 0 arenas.old arenas.new id result key.now }
    ensures settled { result ≡ RemoveResult.Success → IsRetired 0 arenas.new id → ⊥ }
{
    // The contract of `free` states what holds of a retired leaf.
    let _ = arenas.leaf(id).array().free();
    arenas.leaf_mut(id).array_mut().remove_if(key, condition)
}
