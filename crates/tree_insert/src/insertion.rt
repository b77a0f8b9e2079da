//! Inserts under the number of a node, at its level.
ghost use Rattle.std.specs.Prelude.{◌≡◌, ◌⊎◌, ◌<◌, ℕ, IfErr, IfOk, Ok};
ghost use Rattle.slab.specs.Slab.{get};
ghost use Rattle.tree_array.specs.declared.answers.StoreResult.TheVariants.{Full as FullResult};
ghost use Rattle.tree_node.specs.Ways.{LeadsTo};
ghost use Rattle.tree_insert.specs.Inserts.{InsertsUnder};
ghost use Rattle.tree_node.specs.Parts.{IsPart, Unchanged};
ghost use Rattle.tree_node.specs.Shape.{room};
ghost use Rattle.tree_node.specs.Tree.{HasChildFor, IsRetired};

use tree_array::array::{IndexKey, StoreResult};
use tree_leaf::arena::{LeafId, NodeId};
use tree_node::descent::{LeafPlace, leaf_for};
use tree_node::node::{ArenasOf, NodeOf};
use tree_split::{make_room, split_child};

/// A pair for which the leaf that its key belongs to has no room.
#[derive(Drop)]
pub struct Crowded<K, V> {
    pub place: LeafPlace,
    pub key: K,
    pub val: V,
}

/// Inserts a pair under the number of a node of this level. With `UPSERT` it replaces a pair with
/// an equal key.
///
/// - Returns `Duplicate` if an equal key is there and `UPSERT` is false, even if no slot is free.
/// - Returns `Full` if a child has to be split and the node has no slot for the separator, so that
///   its parent must split the node first, or if the node is retired.
/// - Returns `Err` if a leaf or a node on the path of the key has to be split and an allocation
///   fails. Arrays may have been split by then, but the entries are unchanged.
///
/// Each of the three returns the pair; the first two leave everything unchanged.
///
/// Makes at most 4 comparisons in each node on the path and in the leaf (3 among 7 slots), and one
/// more in all. If the leaf is full and its leaf node has room, the leaf is split or rebuilt: the
/// leaf and the node are searched once more, with three more comparisons. Otherwise the descent
/// restarts at the top and, once a child is split or rebuilt, at the child's parent. Allocates one
/// leaf and one node a level at most. A split of a leaf clones one key.
///
/// The caller must name a well-formed part of a tree, or a retired node.
#[inline(always)]
pub fn insert_at<const UPSERT: bool, K: IndexKey, V: Drop, const LEN: usize>(
    arenas: &mut ArenasOf<K, V, LEN>,
    level: usize,
    id: NodeId,
    key: K,
    val: V,
) -> Result<StoreResult<K, V>, (K, V)>
    requires node { 0 < level }
    requires part { IsPart K.cmp level arenas.old id ⊎ IsRetired level arenas.old id }
    ensures inserts { IsPart K.cmp level arenas.old id
        → InsertsUnder K.cmp UPSERT level arenas.old arenas.new id result key val }
    ensures retired { IsRetired level arenas.old id → (result ≡ Ok (FullResult key val))
        × Unchanged arenas.old arenas.new }
{
    match insert_with_room::<UPSERT, K, V, LEN>(arenas, level, id, key, val) {
        Ok(answer) => Ok(answer),
        Err(crowded) => insert_crowded::<UPSERT, K, V, LEN>(arenas, level, id, crowded),
    }
}

/// Inserts a pair, as [`insert_at`] does, if the leaf that its key belongs to has room. No node
/// changes.
///
/// Returns `Err` with the pair and the leaf, and changes nothing, if the leaf has no room. Returns
/// `Full` if the node is retired.
#[inline(always)]
pub fn insert_with_room<const UPSERT: bool, K: IndexKey, V: Drop, const LEN: usize>(
    arenas: &mut ArenasOf<K, V, LEN>,
    level: usize,
    id: NodeId,
    key: K,
    val: V,
) -> Result<StoreResult<K, V>, Crowded<K, V>>
    requires node { 0 < level }
    requires part { IsPart K.cmp level arenas.old id ⊎ IsRetired level arenas.old id }
    ensures inserts { IfOk result
        (λ answer. IsPart K.cmp level arenas.old id
        → InsertsUnder K.cmp UPSERT level arenas.old arenas.new id (Ok answer) key val) }
    ensures retired { IfOk result
        (λ answer. IsRetired level arenas.old id → (answer ≡ FullResult key val) × Unchanged arenas.old arenas.new) }
    ensures crowded { IfErr result
        (λ back. (arenas.new ≡ arenas.old) × (back.key ≡ key)
        × (back.val ≡ val) × LeadsTo K.cmp key level arenas.old id back.place.node back.place.leaf) }
    ensures full { IfErr result (λ back. room 0 arenas.old back.place.leaf ≡ 0) }
{
    let Some(place) = leaf_for(arenas, level, id, &key, true) else {
        return Ok(StoreResult::Full(key, val));
    };
    if arenas.leaf(place.leaf).array().is_full() {
        return Err(Crowded { place, key, val });
    }
    Ok(
        arenas
            .leaf_mut(place.leaf)
            .array_mut()
            .store_beyond::<UPSERT>(place.rightmost, key, val),
    )
}

/// Inserts a pair, as [`insert_at`] does, for which its leaf has no room. The caller must name the
/// leaf that the path of the key leads to.
#[inline(never)]
pub fn insert_crowded<const UPSERT: bool, K: IndexKey, V: Drop, const LEN: usize>(
    arenas: &mut ArenasOf<K, V, LEN>,
    level: usize,
    id: NodeId,
    crowded: Crowded<K, V>,
) -> Result<StoreResult<K, V>, (K, V)>
    requires node { 0 < level }
    requires way { LeadsTo K.cmp crowded.key level arenas.old id crowded.place.node crowded.place.leaf }
    ensures { InsertsUnder K.cmp UPSERT level arenas.old arenas.new id result crowded.key crowded.val }
{
    let Crowded { place, key, val } = crowded;
    match insert_under_leaf_node::<UPSERT, K, V, LEN>(
        arenas,
        place.node,
        place.leaf,
        place.rightmost,
        key,
        val,
    ) {
        Err(pair) => Err(pair),
        Ok(answer) => match answer {
            StoreResult::Full(key, val) => insert_from::<UPSERT, K, V, LEN>(
                arenas, level, id, true, key, val,
            ),
            answer => Ok(answer),
        },
    }
}

// Inserts a pair, as [`insert_at`] does, under a leaf node in the leaf that its key belongs to. If
// the leaf is full, it is split or rebuilt first. `rightmost` means that the descent has kept to
// the unbounded children.
fn insert_under_leaf_node<const UPSERT: bool, K: IndexKey, V: Drop, const LEN: usize>(
    arenas: &mut ArenasOf<K, V, LEN>,
    id: NodeId,
    leaf: LeafId,
    rightmost: bool,
    key: K,
    val: V,
) -> Result<StoreResult<K, V>, (K, V)>
    requires part { IsPart K.cmp 1 arenas.old id }
    requires child { HasChildFor K.cmp key (get arenas.old.nodes id) leaf }
    ensures { InsertsUnder K.cmp UPSERT 1 arenas.old arenas.new id result key val }
{
    match arenas
        .leaf_mut(leaf)
        .array_mut()
        .store_beyond::<UPSERT>(rightmost, key, val)
    {
        StoreResult::Full(key, val) => match make_room(arenas, id, leaf, &key) {
            Err(_) => Err((key, val)),
            Ok(None) => Ok(StoreResult::Full(key, val)),
            Ok(Some(home)) => Ok(arenas.leaf_mut(home).array_mut().store::<UPSERT>(key, val)),
        },
        answer => Ok(answer),
    }
}

// Inserts a pair, as [`insert_at`] does, with a way back on which full children are split.
// `rightmost` means that the descent has kept to the unbounded children so far, so that the key is
// compared with the last separator first.
fn insert_from<const UPSERT: bool, K: IndexKey, V: Drop, const LEN: usize>(
    arenas: &mut ArenasOf<K, V, LEN>,
    level: usize,
    id: NodeId,
    rightmost: bool,
    key: K,
    val: V,
) -> Result<StoreResult<K, V>, (K, V)>
    requires node { 0 < level }
    requires part { IsPart K.cmp level arenas.old id }
    ensures { InsertsUnder K.cmp UPSERT level arenas.old arenas.new id result key val }
{
    match arenas.node(id) {
        NodeOf::Internal(node) => {
            let Some(place) = node.child_place(&key, rightmost) else {
                return Ok(StoreResult::Full(key, val));
            };
            let child = place.child;
            let answer = insert_from::<UPSERT, K, V, LEN>(
                arenas,
                level - 1,
                child,
                rightmost & place.slot.is_none(),
                key,
                val,
            )?;
            let StoreResult::Full(key, val) = answer else {
                return Ok(answer);
            };
            match split_child(arenas, id, child) {
                Err(_) => Err((key, val)),
                Ok(false) => Ok(StoreResult::Full(key, val)),
                Ok(true) => {
                    insert_from::<UPSERT, K, V, LEN>(arenas, level, id, rightmost, key, val)
                }
            }
        }
        NodeOf::Leaf(node) => {
            let Some(place) = node.child_place(&key, rightmost) else {
                return Ok(StoreResult::Full(key, val));
            };
            let leaf = place.child;
            let last = rightmost && place.slot.is_none();
            insert_under_leaf_node::<UPSERT, K, V, LEN>(arenas, id, leaf, last, key, val)
        }
    }
}
