//! Where a pair is stored, and how it is taken out by its place.
ghost use Rattle.std.specs.Prelude.{◌≡◌, ◌⊎◌, ◌<◌, MatchOption, Some};
ghost use Rattle.std.specs.declared.cmp.Ordering.TheVariants.{Equal};
ghost use Rattle.tree_clean_up.specs.CleanUps.{HasOnlyRetired};
ghost use Rattle.tree_node.specs.Parts.{IsPart};
ghost use Rattle.tree_remove.specs.Removes.{IsAbsent, IsRetired, RemovesUnder, get, pair_at, surely, walk};
ghost use Rattle.tree_remove.specs.Takes.{IsEntry, stored_at};

use crate::emptied::drop_emptied;
use tree_array::array::RemoveResult;
use tree_leaf::arena::{LeafId, NodeId};
use tree_node::descent::leaf_for;
use tree_node::node::ArenasOf;

/// Where a pair is stored: its leaf, and its slot there. It stays there until the leaf is written
/// to.
#[derive(Drop)]
pub struct EntryPlace {
    pub leaf: LeafId,
    pub slot: u8,
}

/// Returns where the pair with an equal key is stored under the number of a node of this level, or
/// `None` if the key is absent. Makes at most 4 comparisons a level and in the leaf (3 among 7
/// slots).
///
/// The caller must name a well-formed part of a tree, or a retired node.
pub fn entry_for<K: Ord + Drop, V: Drop, const LEN: usize>(
    arenas: &ArenasOf<K, V, LEN>,
    level: usize,
    id: NodeId,
    key: &K,
) -> Option<EntryPlace>
    requires node { 0 < level }
    requires part { IsPart K.cmp level arenas.now id ⊎ IsRetired level arenas.now id }
    ensures { MatchOption result (IsAbsent K.cmp (walk level arenas.now id) key.now)
        (λ place. (pair : K × V) × (K.cmp pair.0 key.now ≡ Equal)
        × IsEntry K.cmp level arenas.now id place.leaf place.slot pair) }
{
    let place = leaf_for(arenas, level, id, key, false)?;
    let slot = arenas.leaf(place.leaf).array().slot_of(key)?;
    Some(EntryPlace {
        leaf: place.leaf,
        slot,
    })
}

/// Takes out the pair that is stored at a place under the number of a node of this level, and
/// returns it.
///
/// Returns `Retired` with it if no child is left under the number, and `Success` otherwise. If the
/// pair is the only one in its leaf, descends once by its key, and drops the leaf and each node
/// that is left without a child. Makes no comparisons otherwise, and allocates nothing. The caller
/// must name a place at which [`entry_for`] finds a pair.
pub fn take_entry<K: Ord + Drop, V: Drop, const LEN: usize>(
    arenas: &mut ArenasOf<K, V, LEN>,
    level: usize,
    id: NodeId,
    place: EntryPlace,
) -> (K, V, RemoveResult)
    requires node { 0 < level }
    requires entry { (pair : K × V) × IsEntry K.cmp level arenas.old id place.leaf place.slot pair }
    ensures taken { stored_at (get arenas.old.leaves place.leaf) place.slot ≡ Some (result.0, result.1) }
    ensures removes { RemovesUnder K.cmp surely level arenas.old arenas.new id result.2 result.0 }
    ensures settled { level ≡ 1 → result.2 ≡ RemoveResult.Success → HasOnlyRetired arenas.new id → ⊥ }
{
    let (key, value, removal) = take_slot(arenas, place);
    let result = match removal {
        RemoveResult::Retired => drop_emptied(arenas, level, id, &key),
        kept => kept,
    };
    (key, value, result)
}

// Takes the pair of a slot out of its leaf. Returns `Retired` with the last pair of the leaf, and
// `Success` otherwise.
fn take_slot<K: Ord + Drop, V: Drop, const LEN: usize>(
    arenas: &mut ArenasOf<K, V, LEN>,
    place: EntryPlace,
) -> (K, V, RemoveResult)
    requires { (pair : K × V) × (stored_at (get arenas.old.leaves place.leaf) place.slot ≡ Some pair)
        × (pair_at K.cmp (walk 0 arenas.old place.leaf) pair.0 ≡ Some pair) }
    ensures taken { stored_at (get arenas.old.leaves place.leaf) place.slot ≡ Some (result.0, result.1) }
    ensures removes { RemovesUnder K.cmp surely 0 arenas.old arenas.new place.leaf result.2 result.0 }
    ensures settled { result.2 ≡ RemoveResult.Success → IsRetired 0 arenas.new place.leaf → ⊥ }
{
    // The contract of `free` states what holds of a retired leaf.
    let _ = arenas.leaf(place.leaf).array().free();
    arenas.leaf_mut(place.leaf).array_mut().take(place.slot)
}
