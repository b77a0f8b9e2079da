//! Splits and rebuilds of the leaves under a leaf node.
ghost use Rattle.std.specs.Prelude.{◌≡◌, ◌<◌, ◌≤◌, [], IfOk, IfSome, IsSome, MatchOption, OnErr, Some, if◌then◌else◌, take, drop, length, slice_get};
ghost use Rattle.std.specs.List.{AllByRecursion};
ghost use Rattle.slab.specs.Slab.{get};
ghost use Rattle.tree_leaf.specs.Entries.{leaf_entries};
ghost use Rattle.tree_array.specs.Arrivals.{in_order};
ghost use Rattle.tree_array.specs.Insertion.{HasRoom};
ghost use Rattle.tree_array.specs.Length.{limit};
ghost use Rattle.tree_array.specs.Sound.{IsSound};
ghost use Rattle.tree_split.specs.DividesLeaf.{DividesLeaf};
ghost use Rattle.tree_split.specs.Lasts.{EmptiesLast, HoldsAnew, StaysLast};
ghost use Rattle.tree_model.specs.Pairs.{IsAbsent};
ghost use Rattle.tree_node.specs.Parts.{IsPart, PutsChild, Unchanged};
ghost use Rattle.tree_split.specs.Packed.{HasLast};
ghost use Rattle.tree_split.specs.Splits.{GivesAll, GivesFirst, GoesWhole, IsCut, RoomResult, SharesEntries, low_part};
ghost use Rattle.tree_node.specs.Tree.{HasChildFor, HasKind, is_from, keyed};

use crate::put_keyed;
use std::alloc::AllocError;
use std::cmp::Ordering;
use std::mem;
use tree_array::array::{ArrayOf, IndexKey};
use tree_leaf::arena::{LeafId, NodeId};
use tree_leaf::leaf::{LeafOf, add_before};
use tree_node::node::{ArenasOf, NodeOf};
use tree_node::routing::is_beyond;

/// Makes room for a key in the leaf that the key belongs to, and returns the leaf that it belongs
/// to then. The first rule that applies decides:
///
/// 1. If at most three quarters of the leaf's slots hold entries, its array is rebuilt in place.
/// 2. If the node has no slot for another separator, returns `None`; nothing has changed.
/// 3. Otherwise the leaf is split: its first entries move to a new leaf, linked before it, and a
///    clone of the greatest key among them becomes the new leaf's separator. The leaf divides at
///    its array's boundary. If it is the unbounded one, all its pairs arrived in ascending order
///    and the key is larger than every key in it, all entries move.
///
/// The unbounded leaf stays the unbounded one, and a key larger than every key in it belongs to it
/// still.
///
/// Returns `Err` if the leaf has to be split and an allocation fails, including one made by the
/// clone; nothing has changed then. Allocates at most one leaf. Makes at most 5 comparisons to put
/// a child into the node's array (4 among 7 slots), and two more.
///
/// The caller must name a well-formed leaf node, and the leaf under it that the key belongs to.
pub fn make_room<K: IndexKey, V: Drop, const LEN: usize>(
    arenas: &mut ArenasOf<K, V, LEN>,
    id: NodeId,
    target: LeafId,
    key: &K,
) -> Result<Option<LeafId>, AllocError>
    requires part { IsPart K.cmp 1 arenas.old id }
    requires child { HasChildFor K.cmp key.now (get arenas.old.nodes id) target }
    ensures done { IfOk result (λ made. RoomResult K.cmp made 1 arenas.old arenas.new id target key.now) }
    ensures err { OnErr result (Unchanged arenas.old arenas.new) }
    ensures many { OnErr result (limit LEN < length (leaf_entries arenas.old.leaves target)) }
    ensures shares { IfOk result (λ made. IsSome made → SharesEntries K.cmp arenas.old arenas.new id target key.now) }
    ensures last { IfOk result (λ made. IfSome made (StaysLast K.cmp arenas.old arenas.new id target key.now)) }
{
    let NodeOf::Leaf(node) = arenas.node(id) else {
        unreachable!()
    };
    let last = node.unbounded_child == Some(target);
    let full = node.children.is_full();
    let Some(count) = low_count(arenas.leaf(target).array(), key, last) else {
        arenas.leaf_mut(target).array_mut().rebuild();
        return Ok(Some(target));
    };
    if full {
        return Ok(None);
    }
    let home = split_leaf(arenas, id, target, key, count)?;
    Ok(Some(home))
}

/// Empties the last leaf for a key, if the leaf is full, its pairs arrived in ascending order and
/// the key is larger than all: as [`make_room`] does then, it moves all pairs to a new leaf before
/// it. Returns whether it did; if not, for example because the node has no slot for another
/// separator, nothing has changed.
///
/// Returns `Err` if an allocation fails, including one made by the clone of the separator; nothing
/// has changed then. Allocates at most one leaf. Makes at most 5 comparisons to put a child into
/// the node's array (4 among 7 slots), and two more.
///
/// The caller must name a well-formed leaf node, and its unbounded leaf, which the key must belong
/// to.
pub fn empty_last<K: IndexKey, V: Drop, const LEN: usize>(
    arenas: &mut ArenasOf<K, V, LEN>,
    id: NodeId,
    target: LeafId,
    key: &K,
) -> Result<bool, AllocError>
    requires part { IsPart K.cmp 1 arenas.old id }
    requires child { HasChildFor K.cmp key.now (get arenas.old.nodes id) target }
    requires last { HasLast (get arenas.old.nodes id) target }
    ensures done { IfOk result (λ emptied. EmptiesLast K.cmp arenas.old arenas.new id target key.now emptied) }
    ensures err { OnErr result (Unchanged arenas.old arenas.new) }
{
    let full = arenas.node(id).is_full();
    let Some(count) = low_count(arenas.leaf(target).array(), key, true) else {
        return Ok(false);
    };
    if full || (count as usize) < LEN {
        return Ok(false);
    }
    split_leaf(arenas, id, target, key, count)?;
    Ok(true)
}

// Returns how many of the first entries move when the leaf is split for a key, or `None` if the
// array is rebuilt instead. `last` is whether the leaf is the unbounded one. Compares the key only
// if a last leaf was filled in ascending order.
fn low_count<K: Ord + Drop, V: Drop, const LEN: usize>(
    array: &ArrayOf<K, V, LEN>,
    key: &K,
    last: bool,
) -> Option<u8>
    ensures cut { MatchOption result (length array.now.entries ≤ limit LEN)
        (λ count. (limit LEN < length array.now.entries) × IsCut K.cmp key.now count array.now.entries) }
    ensures rule { IfSome result (λ count. count ≡ low_part K.cmp LEN last array.now key.now) }
    ensures whole { IfSome result (λ count. GoesWhole LEN array.now count) }
    ensures sound { IsSound K.cmp LEN array.now }
{
    let (boundary, count, ascended) = array.optimal_boundary();
    if boundary as usize == LEN {
        None
    } else if ascended && last && is_beyond(array, key) {
        Some(count as u8)
    } else {
        Some(boundary)
    }
}

// Splits a leaf: its first `count` entries move to a new leaf, linked before it, under a clone of
// the greatest key among them. Returns the one of the two that the key belongs to.
//
// Returns `Err` if an allocation fails, including one made by the clone; nothing has changed then,
// since the key is cloned before any entry moves.
fn split_leaf<K: IndexKey, V: Drop, const LEN: usize>(
    arenas: &mut ArenasOf<K, V, LEN>,
    id: NodeId,
    target: LeafId,
    key: &K,
    count: u8,
) -> Result<LeafId, AllocError>
    requires part { IsPart K.cmp 1 arenas.old id }
    requires child { HasChildFor K.cmp key.now (get arenas.old.nodes id) target }
    requires sound { (leaf : _) → get arenas.old.leaves target ≡ Some leaf → IsSound K.cmp LEN leaf.array }
    requires whole { (leaf : _) → get arenas.old.leaves target ≡ Some leaf → GoesWhole LEN leaf.array count }
    requires cut { IsCut K.cmp key.now count (leaf_entries arenas.old.leaves target) }
    requires room { (node : _) → get arenas.old.nodes id ≡ Some node → HasRoom LEN (keyed node) }
    ensures done { IfOk result
        (λ home. GivesAll K.cmp arenas.old id target count key.now
        → RoomResult K.cmp (Some home) 1 arenas.old arenas.new id target key.now) }
    ensures shares { IfOk result (λ _. GivesFirst arenas.old arenas.new target count) }
    ensures last { IfOk result (StaysLast K.cmp arenas.old arenas.new id target key.now) }
    ensures high { IfOk result (λ _. HoldsAnew arenas.new target (drop count (leaf_entries arenas.old.leaves target))) }
    ensures err { OnErr result (Unchanged arenas.old arenas.new) }
{
    let separator = separator_at(arenas.leaf(target).array(), count - 1)?;
    let low = divide_leaf(arenas, target, count)?;
    let home = side_for(key, &separator, low, target);
    put_leaf(arenas.node_mut(id), separator, low);
    Ok(home)
}

// Divides a leaf: its first `count` entries move to a new leaf, linked before it. Returns the
// number of the new leaf. Returns `Err` if it cannot allocate; nothing has changed then, since the
// place for the leaf is reserved before any entry moves.
fn divide_leaf<K: Ord + Drop, V: Drop, const LEN: usize>(
    arenas: &mut ArenasOf<K, V, LEN>,
    target: LeafId,
    count: u8,
) -> Result<LeafId, AllocError>
    requires part { IsPart K.cmp 0 arenas.old target }
    requires sound { (leaf : _) → get arenas.old.leaves target ≡ Some leaf → IsSound K.cmp LEN leaf.array }
    requires whole { (leaf : _) → get arenas.old.leaves target ≡ Some leaf → GoesWhole LEN leaf.array count }
    ensures done { IfOk result (DividesLeaf arenas.old arenas.new target count) }
    ensures err { OnErr result (Unchanged arenas.old arenas.new) }
{
    arenas.reserve(1, 0)?;
    let mut low = ArrayOf::new();
    cut_low(arenas.leaf_mut(target).array_mut(), count, &mut low);
    let Ok(low_id) = add_before(arenas, target, LeafOf::of(low)) else {
        unreachable!()
    };
    Ok(low_id)
}

// Returns the lower of two leaves if the key is at most the separator between them, else the upper
// one.
fn side_for<K: Ord>(key: &K, separator: &K, low: LeafId, high: LeafId) -> LeafId
    ensures { result ≡ (if is_from K.cmp key.now separator.now then low else high) }
{
    if separator.cmp(key).is_ge() {
        low
    } else {
        high
    }
}

// Returns a clone of the key at this place in key order.
fn separator_at<K: IndexKey, V: Drop, const LEN: usize>(
    array: &ArrayOf<K, V, LEN>,
    place: u8,
) -> Result<K, AllocError>
    requires { place < length array.now.entries }
    ensures { IfOk result
        (λ key. (pair : _) × (slice_get array.now.entries place ≡ Some pair) × (K.cmp pair.0 key ≡ Ordering.Equal)) }
{
    match array.slot_at(place) {
        Some(slot) => array.key(slot).clone(),
        None => unreachable!(),
    }
}

// Moves the first `count` entries into `low`, which is new. The entries of both arrays arrive
// again, in ascending order. If all `LEN` entries move, they arrived so already, and the array goes
// as it is.
fn cut_low<K: Ord + Drop, V: Drop, const LEN: usize>(
    array: &mut ArrayOf<K, V, LEN>,
    count: u8,
    low: &mut ArrayOf<K, V, LEN>,
)
    requires sound { IsSound K.cmp LEN array.old }
    requires whole { GoesWhole LEN array.old count }
    requires new { low.old ≡ in_order [] }
    ensures low { low.new ≡ in_order (take count array.old.entries) }
    ensures high { array.new ≡ in_order (drop count array.old.entries) }
{
    if count as usize == LEN {
        *low = mem::replace(array, ArrayOf::new());
        return;
    }
    array.divide(count, low);
}

// Puts a leaf under its separator into a leaf node.
fn put_leaf<K: Ord + Drop, const LEN: usize>(node: &mut NodeOf<K, LEN>, separator: K, leaf: LeafId)
    requires kind { HasKind 0 node.old }
    requires absent { IsAbsent K.cmp (keyed node.old).entries separator }
    requires room { HasRoom LEN (keyed node.old) }
    ensures { PutsChild K.cmp node.old node.new separator leaf }
{
    match node {
        NodeOf::Leaf(node) => put_keyed(&mut node.children, separator, leaf),
        NodeOf::Internal(_) => unreachable!(),
    }
}
