//! Removal of the keys within two bounds from under the number of a node, at its level.
ghost use Rattle.std.specs.Prelude.{◌≡◌, ◌⊎◌, ◌-◌, ◌<◌, ◌≤◌, [], None, true, length};
ghost use Rattle.slab.specs.Slab.{ContainsKey, get};
ghost use Rattle.tree_cut.specs.Cuts.{CutsAt, CutsUnder, HasNoEmpty, keyed_of};
ghost use Rattle.tree_cut.specs.Parts.{IsAt, part_id};
ghost use Rattle.tree_model.specs.Pairs.{high_of, low_of};
ghost use Rattle.tree_node.specs.Parts.{IsPart};
ghost use Rattle.tree_node.specs.Tree.{IsRetired, Stands, children_of, walk};

use crate::dropping::{count_fits, drop_child};
use crate::parts::{Part, child_at};
use std::ops::Bound;
use tree_clean_up::borders::{first_place, is_open, last_place, narrowed};
use tree_clean_up::places::{keyed_count, slot_at};
use tree_leaf::arena::{LeafId, NodeId};
use tree_node::node::ArenasOf;

/// The result of a removal of a range.
#[derive(Clone, Copy, Drop)]
pub struct RangeRemoved {
    /// How many children the node has left: the keyed ones, and one for the unbounded one if there
    /// is one.
    pub children: usize,
    /// How many pairs were removed.
    pub pairs: u128,
}

/// Removes the pairs whose keys are within the bounds from under the number of a node of this
/// level.
///
/// Reversed bounds contain no key. What is under the number keeps its level and an unbounded child
/// at each level. A child whose keys are all within the bounds is dropped whole, and so is a keyed
/// child that the removal leaves empty.
///
/// Searches at most two arrays per level for each bound, and makes at most two comparisons per slot
/// of two leaves. What is dropped whole costs time for each leaf and node in it, and no
/// comparisons. Allocates nothing.
///
/// The caller must name a well-formed part of a tree, or a retired node.
pub fn remove_range_at<K: Ord + Drop, V: Drop, const LEN: usize>(
    arenas: &mut ArenasOf<K, V, LEN>,
    level: usize,
    id: NodeId,
    bounds: (Bound<&K>, Bound<&K>),
) -> RangeRemoved
    requires node { 0 < level }
    requires part { IsPart K.cmp level arenas.old id ⊎ IsRetired level arenas.old id }
    ensures cuts { CutsUnder K.cmp (low_of bounds.entry) (high_of bounds.entry)
        level arenas.old arenas.new id result.pairs }
    ensures left { result.children ≡ length (children_of arenas.new.nodes id) }
    ensures retired { IsRetired level arenas.old id → arenas.new ≡ arenas.old }
{
    if arenas.node(id).is_childless() {
        return RangeRemoved {
            children: 0,
            pairs: 0,
        };
    }
    let pairs = cut_part(arenas, level, &Part::Node(id), bounds);
    RangeRemoved {
        children: keyed_count(arenas.node(id)) as usize + 1,
        pairs,
    }
}

// Removes the keys within the bounds from a part, and returns how many there were.
#[cycle(cutting)]
fn cut_part<K: Ord + Drop, V: Drop, const LEN: usize>(
    arenas: &mut ArenasOf<K, V, LEN>,
    level: usize,
    part: &Part,
    bounds: (Bound<&K>, Bound<&K>),
) -> u128
    requires kind { IsAt level part.now }
    requires part { IsPart K.cmp level arenas.old (part_id part.now) }
    ensures { CutsUnder K.cmp (low_of bounds.entry) (high_of bounds.entry)
        level arenas.old arenas.new (part_id part.now) result }
{
    match part {
        Part::Leaf(id) => cut_leaf(arenas, *id, bounds),
        Part::Node(id) => {
            let id = *id;
            count_fits(arenas, level, id);
            let node = arenas.node(id);
            let first = first_place(node, bounds.0);
            let last = last_place(node, bounds.1);
            let mut gone = 0;
            let mut place = last + 1;
            while place > first {
                place -= 1;
                gone += cut_child(
                    arenas,
                    level,
                    id,
                    place,
                    narrowed(bounds, place, first, last),
                );
            }
            gone
        }
    }
}

// Removes the keys within the bounds from the child at a place, and returns how many there were. A
// keyed child is dropped if no bound is left to test, or if it is left empty.
#[cycle(cutting)]
fn cut_child<K: Ord + Drop, V: Drop, const LEN: usize>(
    arenas: &mut ArenasOf<K, V, LEN>,
    level: usize,
    id: NodeId,
    place: u8,
    bounds: (Bound<&K>, Bound<&K>),
) -> u128
    requires node { 0 < level }
    requires part { IsPart K.cmp level arenas.old id }
    requires place { place ≤ length (keyed_of (get arenas.old.nodes id)) }
    ensures cuts { CutsAt K.cmp (low_of bounds.entry) (high_of bounds.entry)
        level (level - 1) arenas.old arenas.new id place result }
    ensures no_empty { HasNoEmpty level arenas.old id → HasNoEmpty level arenas.new id }
{
    let node = arenas.node(id);
    let keyed = slot_at(node, place).is_some();
    let child = child_at(node, place);
    if keyed && is_open(bounds) {
        return drop_child(arenas, level, id, place);
    }
    let gone = cut_part(arenas, level - 1, &child, bounds);
    if keyed && is_empty(arenas, level - 1, &child) {
        let _ = drop_child(arenas, level, id, place);
    }
    gone
}

// Removes the keys within the bounds from a leaf, and returns how many there were.
fn cut_leaf<K: Ord + Drop, V: Drop, const LEN: usize>(
    arenas: &mut ArenasOf<K, V, LEN>,
    id: LeafId,
    bounds: (Bound<&K>, Bound<&K>),
) -> u128
    requires { ContainsKey arenas.old.leaves id }
    ensures { CutsUnder K.cmp (low_of bounds.entry) (high_of bounds.entry) 0 arenas.old arenas.new id result }
{
    let array = arenas.leaf_mut(id).array_mut();
    let before = array.len();
    array.remove_range(bounds);
    (before - array.len()) as u128
}

// Returns whether a part has no pair, along its unbounded children.
fn is_empty<K: Ord + Drop, V: Drop, const LEN: usize>(
    arenas: &ArenasOf<K, V, LEN>,
    level: usize,
    part: &Part,
) -> bool
    requires kind { IsAt level part.now }
    requires stands { Stands K.cmp level arenas.now None (part_id part.now) None }
    ensures empty { result ≡ true → walk level arenas.now (part_id part.now) ≡ [] }
    ensures told { HasNoEmpty level arenas.now (part_id part.now)
        → walk level arenas.now (part_id part.now) ≡ [] → result ≡ true }
{
    match part {
        Part::Leaf(id) => arenas.leaf(*id).array().is_empty(),
        Part::Node(id) => {
            let id = *id;
            let node = arenas.node(id);
            if keyed_count(node) > 0 {
                return false;
            }
            let child = child_at(node, 0);
            is_empty(arenas, level - 1, &child)
        }
    }
}
