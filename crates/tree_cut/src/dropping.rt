//! Parts that are dropped whole.
ghost use Rattle.std.specs.Prelude.{◌≡◌, ◌-◌, ◌<◌, ◌^◌, [], ◌∷◌, IsSome, None, Some, length, ℕ};
ghost use Rattle.std.specs.declared.ops.Bound.TheVariants.{Unbounded};
ghost use Rattle.slab.specs.Slab.{get};
ghost use Rattle.tree_cut.specs.Cuts.{CutsAt, HasNoEmpty, HasNoEmptyBut, keyed_of};
ghost use Rattle.tree_cut.specs.Parts.{Frees, IsAt, IsEnd, StandsOnce, part_id};
ghost use Rattle.tree_node.specs.Parts.{IsPart, Replaces};
ghost use Rattle.tree_node.specs.Tree.{HasKind, Stands, leaves_at, node_children, unbounded, walk};

use crate::parts::{Part, child_at};
use tree_clean_up::places::{keyed_count, slot_at};
use tree_clean_up::take_keyed;
use tree_leaf::arena::{LeafId, NodeId};
use tree_leaf::leaf::splice_link;
use tree_node::node::{ArenasOf, NodeOf};

// The two ends of a part.
#[derive(Clone, Copy, Drop)]
pub(crate) enum End {
    First,
    Last,
}

// Drops the keyed child at a place with all that is under it, and takes it out of its node. Returns
// how many pairs were there.
pub(crate) fn drop_child<K: Ord + Drop, V: Drop, const LEN: usize>(
    arenas: &mut ArenasOf<K, V, LEN>,
    level: usize,
    id: NodeId,
    place: u8,
) -> u128
    requires node { 0 < level }
    requires part { IsPart K.cmp level arenas.old id }
    requires place { place < length (keyed_of (get arenas.old.nodes id)) }
    ensures drops { CutsAt K.cmp Unbounded Unbounded level (level - 1) arenas.old arenas.new id place result }
    ensures no_empty { HasNoEmptyBut (level - 1) arenas.old id place → HasNoEmpty level arenas.new id }
{
    let node = arenas.node(id);
    let Some(slot) = slot_at(node, place) else {
        unreachable!()
    };
    let child = child_at(node, place);
    let gone = drop_part(arenas, level - 1, &child);
    take_keyed(arenas, id, slot);
    gone
}

// Drops a part: the leaves on both sides of it become neighbours, and exactly the numbers that it
// reached are free. Returns how many pairs were there.
fn drop_part<K: Ord + Drop, V: Drop, const LEN: usize>(
    arenas: &mut ArenasOf<K, V, LEN>,
    level: usize,
    part: &Part,
) -> u128
    requires kind { IsAt level part.now }
    requires part { IsPart K.cmp level arenas.old (part_id part.now) }
    ensures dropped { Replaces level arenas.old arenas.new (part_id part.now ∷ []) [] }
    ensures gone { result ≡ length (walk level arenas.old (part_id part.now)) }
{
    let first = end_leaf(arenas, level, part, End::First);
    let last = end_leaf(arenas, level, part, End::Last);
    let left = arenas.leaf(first).prev();
    let right = arenas.leaf(last).next();
    splice_link(arenas, left, right);
    free_part(arenas, level, part)
}

// Returns the first or the last leaf of a part.
fn end_leaf<K: Ord + Drop, V: Drop, const LEN: usize>(
    arenas: &ArenasOf<K, V, LEN>,
    level: usize,
    part: &Part,
    end: End,
) -> LeafId
    requires kind { IsAt level part.now }
    requires stands { Stands K.cmp level arenas.now None (part_id part.now) None }
    ensures { IsEnd end (leaves_at level arenas.now.nodes (part_id part.now)) result }
{
    match part {
        Part::Leaf(id) => *id,
        Part::Node(id) => {
            let id = *id;
            let child = end_child(arenas.node(id), end);
            end_leaf(arenas, level - 1, &child, end)
        }
    }
}

// Returns the first or the last child of a node, which must have an unbounded one.
fn end_child<K: Ord + Drop, const LEN: usize>(node: &NodeOf<K, LEN>, end: End) -> Part
    requires { IsSome (unbounded node.now) }
    ensures child { IsEnd end (node_children (Some node.now)) (part_id result) }
    ensures kind { (level : ℕ) → HasKind level node.now → IsAt level result }
{
    match end {
        End::First => child_at(node, 0),
        End::Last => child_at(node, keyed_count(node)),
    }
}

// Frees exactly the numbers that are reached from a part. Returns how many pairs were there.
fn free_part<K: Ord + Drop, V: Drop, const LEN: usize>(
    arenas: &mut ArenasOf<K, V, LEN>,
    level: usize,
    part: &Part,
) -> u128
    requires kind { IsAt level part.now }
    requires once { StandsOnce K.cmp level arenas.old (part_id part.now) }
    ensures frees { Frees level arenas.old arenas.new (part_id part.now) }
    ensures gone { result ≡ length (walk level arenas.old (part_id part.now)) }
{
    match part {
        Part::Leaf(id) => arenas.remove_leaf(*id).array().len() as u128,
        Part::Node(id) => {
            let id = *id;
            count_fits(arenas, level, id);
            let node = arenas.remove_node(id);
            let mut gone = 0;
            for place in 0..keyed_count(&node) + 1 {
                let child = child_at(&node, place);
                gone += free_part(arenas, level - 1, &child);
            }
            gone
        }
    }
}

// Shows that the pairs of a part can be counted. Runs in constant time.
pub(crate) fn count_fits<K: Ord + Drop, V: Drop, const LEN: usize>(
    arenas: &ArenasOf<K, V, LEN>,
    level: usize,
    id: NodeId,
)
    requires node { 0 < level }
    requires once { StandsOnce K.cmp level arenas.now id }
    ensures { length (walk level arenas.now id) < 2 ^ 127 }
{
    // The contracts of both state how many slots a leaf has, and how many leaves there are, at
    // most.
    let _ = arenas.node(id).slots_left();
    let _ = arenas.leaf_count();
}
