//! The calls that each of the three types of nodes has. They are `final`, so that each is proved
//! once for all types.
ghost use Rattle.std.proofs.Common.{sym};
ghost use Rattle.std.proofs.Math.Nat.{le_of_eq, le_of_lt};
ghost use Rattle.std.specs.Prelude.{◌≡◌, ◌↔◌, ◌⊎◌, ◌+◌, ◌*◌, ◌<◌, ◌≤◌, [], IsTrue, MatchOption, None, Ok, Some, length, if◌then◌else◌, ℕ};
ghost use Rattle.std.specs.Fn.{FnOnceReturnsAt, FnOnceTakesAt};
ghost use Rattle.std.specs.Option.{ForSome};
ghost use Rattle.std.specs.declared.ops.Bound.TheVariants.{Included};
ghost use Rattle.slab.specs.Slab.{get};
ghost use Rattle.tree_array.specs.Length.{searched};
ghost use Rattle.tree_array.specs.declared.answers.InsertResult.TheVariants.{Full as PlainlyFull};
ghost use Rattle.port_calls.specs.CleanUps.{NeedsCleanUp};
ghost use Rattle.port_calls.specs.Found.{IsFound};
ghost use Rattle.tree_cut.specs.Cuts.{CutsUnder};
ghost use Rattle.tree_insert.specs.Inserts.{InsertsPlainly};
ghost use Rattle.tree_model.specs.declared.way.Way.TheVariants.{On, Back};
ghost use Rattle.tree_model.specs.Pairs.{Finds, IsAbsent, high_of, low_of, pair_at};
ghost use Rattle.tree_parts.specs.Ends.{BeginsPart, IsLinked};
ghost use Rattle.tree_node.specs.Parts.{IsPart, Unchanged};
ghost use Rattle.tree_node.specs.Tree.{IsRetired, Stands, StandsOrRetired, children_of, walk};
ghost use Rattle.port_calls.specs.Approximate.{Approximates};
ghost use Rattle.tree_clean_up.specs.CleanUps.{HasOnlyRetired};
ghost use Rattle.tree_remove.specs.Removes.{RemovesUnder};

use crate::approximate::approximate_at;
use std::ops::Bound;
use tree_array::array::{IndexKey, InsertResult, Judge, RemoveResult};
use tree_cut::cutting::remove_range_at;
use tree_insert::insertion::insert_at;
use tree_leaf::arena::NodeId;
use tree_leaf::{IterOf, RevIterOf};
use tree_model::{Backward, Forward};
use tree_node::branch::{InternalNodeOf, LeafNodeOf};
use tree_node::depth::level_of;
use tree_node::look_ups::search_at;
use tree_node::node::{ArenasOf, NodeOf};
use tree_parts::ends::walk_from_end;
use tree_remove::removal::remove_at;

/// The calls on the number of a node, as
/// `LeafNode::insert::<false, u64>(&mut arenas, id, key, val)`.
///
/// The caller must give the number of a node of this type, which has a well-formed part of a tree
/// under it or is retired. The ghost parameter `level` is the level of that part. Each call but
/// `is_retired` and `cleanup_needed` first reads one node per level, to find the level.
pub trait NodeCalls<K: Ord + Drop, const LEN: usize> {
    // At which levels nodes of this type are.
    ghost StandsAt: { ℕ → Type 0 };

    // All of them above the leaves.
    ghost above_leaves: { (level : ℕ) → StandsAt level → 0 < level };

    /// Returns the pair with the judge's key, or `None` if the key is absent. Makes at most
    /// `4 * (level + 1)` comparisons with 15 slots and `3 * (level + 1)` with 7, and allocates
    /// nothing.
    final fn search_entry<'a, V: Drop, J: Judge<K>>(
        arenas: &'a ArenasOf<K, V, LEN>,
        id: NodeId,
        judge: &mut J,
    ) -> Option<(&'a K, &'a V)>
        ghost level: { ℕ }
        requires kind { StandsAt level }
        requires stands { StandsOrRetired K.cmp level arenas.now id }
        ensures found { Finds K.cmp (walk level arenas.now id) (J.key judge.old) result }
        ensures same_key { J.key judge.new ≡ J.key judge.old }
        ensures counted { J.count judge.new ≤ J.count judge.old + LEN * (level + 1) }
        ensures halved { J.count judge.new ≤ J.count judge.old + searched LEN * (level + 1) }
    {
        let level = found_level(arenas, id);
        search_at(arenas, level, id, judge)
    }

    /// Returns the value with the judge's key, or `None` if the key is absent. Costs what
    /// [`search_entry`](NodeCalls::search_entry) does.
    final fn search_value<'a, V: Drop, J: Judge<K>>(
        arenas: &'a ArenasOf<K, V, LEN>,
        id: NodeId,
        judge: &mut J,
    ) -> Option<&'a V>
        ghost level: { ℕ }
        requires kind { StandsAt level }
        requires stands { StandsOrRetired K.cmp level arenas.now id }
        ensures found { MatchOption result (IsAbsent K.cmp (walk level arenas.now id) (J.key judge.old))
            (λ val. (key : K) × (pair_at K.cmp (walk level arenas.now id) (J.key judge.old) ≡ Some (key, val.now))) }
        ensures same_key { J.key judge.new ≡ J.key judge.old }
        ensures counted { J.count judge.new ≤ J.count judge.old + LEN * (level + 1) }
        ensures halved { J.count judge.new ≤ J.count judge.old + searched LEN * (level + 1) }
    {
        let (_, val) = Self::search_entry(arenas, id, judge)?;
        Some(val)
    }

    /// Returns a walk in key order before the least entry under the node, so that its `next`
    /// returns that entry. Returns `None` if no entry is there. Makes no comparisons, and allocates
    /// nothing.
    ///
    /// The leaves under the node must be in one chain.
    final fn min<'a, V: Drop>(
        arenas: &'a ArenasOf<K, V, LEN>,
        id: NodeId,
    ) -> Option<IterOf<'a, K, V, LEN>>
        ghost level: { ℕ }
        requires kind { StandsAt level }
        requires stands { StandsOrRetired K.cmp level arenas.now id }
        requires linked { IsLinked level arenas.now id }
        ensures { MatchOption result (walk level arenas.now id ≡ []) (BeginsPart On level arenas.now id) }
    {
        let level = found_level(arenas, id);
        walk_from_end::<K, V, Forward, LEN>(arenas, level, id)
    }

    /// Returns a walk against key order before the greatest entry under the node: the mirror of
    /// [`min`](NodeCalls::min).
    final fn max<'a, V: Drop>(
        arenas: &'a ArenasOf<K, V, LEN>,
        id: NodeId,
    ) -> Option<RevIterOf<'a, K, V, LEN>>
        ghost level: { ℕ }
        requires kind { StandsAt level }
        requires stands { StandsOrRetired K.cmp level arenas.now id }
        requires linked { IsLinked level arenas.now id }
        ensures { MatchOption result (walk level arenas.now id ≡ []) (BeginsPart Back level arenas.now id) }
    {
        let level = found_level(arenas, id);
        walk_from_end::<K, V, Backward, LEN>(arenas, level, id)
    }

    /// Opens a walk in key order on the entry under the node that is nearest to a key: the greatest
    /// whose key isn't larger, if `LE` is `true`, and the least whose key isn't smaller, if it is
    /// `false`. Returns `None` only if no entry there has such a key. Descends twice, and allocates
    /// nothing.
    ///
    /// The leaves under the node must be in one chain.
    final fn approximate<'a, const LE: bool, V: Drop>(
        arenas: &'a ArenasOf<K, V, LEN>,
        id: NodeId,
        key: &K,
    ) -> Option<IterOf<'a, K, V, LEN>>
        ghost level: { ℕ }
        requires kind { StandsAt level }
        requires stands { StandsOrRetired K.cmp level arenas.now id }
        requires linked { IsLinked level arenas.now id }
        ensures { Approximates K.cmp (if LE then Back else On) level arenas.now id (Included key.now) result }
    {
        let level = found_level(arenas, id);
        approximate_at::<K, V, LE, LEN>(arenas, level, id, key)
    }

    /// Returns how many levels of nodes the part has, the node's own among them: 1 for a retired
    /// node. Makes no comparisons, and allocates nothing.
    final fn depth<V: Drop>(arenas: &ArenasOf<K, V, LEN>, id: NodeId) -> usize
        ghost level: { ℕ }
        requires kind { StandsAt level }
        requires stands { StandsOrRetired K.cmp level arenas.now id }
        ensures stands { Stands K.cmp level arenas.now None id None → result ≡ level }
        ensures retired { IsRetired level arenas.now id → result ≡ 1 }
    {
        found_level(arenas, id)
    }

    /// Returns whether the node has no child. Runs in constant time.
    final fn is_retired<V: Drop>(arenas: &ArenasOf<K, V, LEN>, id: NodeId) -> bool
        ghost level: { ℕ }
        requires kind { StandsAt level }
        requires stands { StandsOrRetired K.cmp level arenas.now id }
        ensures { IsTrue result ↔ IsRetired level arenas.now id }
    {
        arenas.node(id).is_childless()
    }

    /// Returns whether the node is an internal node without keyed children, so that its unbounded
    /// child, if there is one, may take its place. Returns `false` for a leaf node. Runs in
    /// constant time.
    final fn cleanup_needed<V: Drop>(arenas: &ArenasOf<K, V, LEN>, id: NodeId) -> bool
        ghost level: { ℕ }
        requires kind { StandsAt level }
        requires stands { StandsOrRetired K.cmp level arenas.now id }
        ensures { IsTrue result ↔ NeedsCleanUp (get arenas.now.nodes id) }
    {
        match arenas.node(id) {
            NodeOf::Internal(node) => node.children.is_empty(),
            NodeOf::Leaf(_) => false,
        }
    }

    /// Inserts a pair. With `UPSERT` it replaces the pair with an equal key.
    ///
    /// Returns `Duplicate` if `UPSERT` is false and an equal key is there, and `Full` if the node
    /// is retired or if a child has to be split and the node has no room for one more, so that its
    /// parent must make room in it. Neither changes anything. Returns `Err` if it cannot allocate;
    /// the entries are then unchanged. Each of them returns the pair.
    ///
    /// Makes at most 4 comparisons per level and in the leaf (3 among 7 slots); if an array on the
    /// path is full, the descent restarts at its level. Allocates one leaf or node for each one
    /// that is split.
    final fn insert<const UPSERT: bool, V: Drop>(
        arenas: &mut ArenasOf<K, V, LEN>,
        id: NodeId,
        key: K,
        val: V,
    ) -> Result<InsertResult<K, V>, (K, V)>
    where
        K: IndexKey,
        ghost level: { ℕ }
        requires kind { StandsAt level }
        requires part { IsPart K.cmp level arenas.old id ⊎ IsRetired level arenas.old id }
        ensures inserts { IsPart K.cmp level arenas.old id
            → InsertsPlainly K.cmp UPSERT level arenas.old arenas.new id result key val }
        ensures retired { IsRetired level arenas.old id → (result ≡ Ok (PlainlyFull key val))
            × Unchanged arenas.old arenas.new }
    {
        let level = found_level(arenas, id);
        let answer = insert_at::<UPSERT, K, V, LEN>(arenas, level, id, key, val)?;
        Ok(answer.into_insert())
    }

    /// Removes the pair with a key if the condition returns `true` for its value. Calls the
    /// condition once if the key is present, else never.
    ///
    /// Returns `Fail` if the key is absent or the condition returned `false`, and then nothing
    /// changed; `Retired` if the node has no child left; else `Success`. A child that lost its last
    /// pair is dropped, except for the unbounded leaf of a leaf node that has keyed ones. Makes at
    /// most `LEN * (level + 1)` comparisons, and allocates nothing.
    ///
    /// The condition must accept the value at the key.
    final fn remove_if<V: Drop, F: FnOnce(&V) -> bool + Drop>(
        arenas: &mut ArenasOf<K, V, LEN>,
        id: NodeId,
        key: &K,
        condition: F,
    ) -> RemoveResult
        ghost level: { ℕ }
        requires kind { StandsAt level }
        requires part { IsPart K.cmp level arenas.old id ⊎ IsRetired level arenas.old id }
        requires callable { ForSome (pair_at K.cmp (walk level arenas.old id) key.now)
            (λ pair. FnOnceTakesAt F.FnOnce condition pair.1) }
        ensures removes { RemovesUnder K.cmp
            (λ val said. FnOnceReturnsAt F.FnOnce condition val said) level arenas.old arenas.new id result key.now }
        ensures settled { level ≡ 1 → result ≡ RemoveResult.Success → HasOnlyRetired arenas.new id → ⊥ }
    {
        let level = found_level(arenas, id);
        remove_at(arenas, level, id, key, condition)
    }

    /// Removes every pair whose key is within both bounds, and returns how many children the node
    /// has left: the keyed ones, and one for the unbounded one if there is one. Bounds that contain
    /// no key, reversed ones among them, remove nothing.
    ///
    /// Drops a child whole if all its keys are within the bounds, and a keyed child that loses its
    /// last pair. The node keeps its unbounded child. Searches at most two arrays per level for
    /// each bound, and makes at most two comparisons per slot of two leaves, however many pairs it
    /// removes. Allocates nothing.
    final fn remove_range<V: Drop>(
        arenas: &mut ArenasOf<K, V, LEN>,
        id: NodeId,
        bounds: (Bound<&K>, Bound<&K>),
    ) -> usize
        ghost level: { ℕ }
        requires kind { StandsAt level }
        requires part { IsPart K.cmp level arenas.old id ⊎ IsRetired level arenas.old id }
        ensures cuts { (gone : ℕ)
            × CutsUnder K.cmp (low_of bounds.entry) (high_of bounds.entry) level arenas.old arenas.new id gone }
        ensures left { result ≡ length (children_of arenas.new.nodes id) }
        ensures retired { IsRetired level arenas.old id → arenas.new ≡ arenas.old }
    {
        let level = found_level(arenas, id);
        remove_range_at(arenas, level, id, bounds).children
    }
}

impl<K: Ord + Drop, const LEN: usize> NodeCalls<K, LEN> for LeafNodeOf<K, LEN> {
    ghost StandsAt = { λ level. level ≡ 1 };

    ghost above_leaves = { λ level lowest. le_of_eq (sym lowest) };
}

impl<K: Ord + Drop, const LEN: usize> NodeCalls<K, LEN> for InternalNodeOf<K, LEN> {
    ghost StandsAt = { λ level. 1 < level };

    ghost above_leaves = { λ level higher. le_of_lt higher };
}

impl<K: Ord + Drop, const LEN: usize> NodeCalls<K, LEN> for NodeOf<K, LEN> {
    ghost StandsAt = { λ level. 0 < level };

    ghost above_leaves = { λ level above. above };
}

// Returns the level of the part under a node, or 1 for a retired node.
pub(crate) fn found_level<K: Ord + Drop, V: Drop, const LEN: usize>(
    arenas: &ArenasOf<K, V, LEN>,
    id: NodeId,
) -> usize
    ghost level: { ℕ }
    requires node { 0 < level }
    requires stands { StandsOrRetired K.cmp level arenas.now id }
    ensures { IsFound K.cmp arenas.now id level result }
{
    level_of(arenas, id)
}
