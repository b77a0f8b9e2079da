//! Appends to the last leaf of a part of a tree.
ghost use Rattle.std.specs.Prelude.{◌≡◌, ◌⊎◌, ◌<◌, ◌++◌, ℕ, IfOk, MatchOption, None, OnErr};
ghost use Rattle.std.specs.Option.{ForNone, ForSome};
ghost use Rattle.tree_insert.specs.Appends.{Appends, AppendsRun, EndsEdge, HasNoLastLeaf, IsLastFor, IsLastLeaf};
ghost use Rattle.tree_model.specs.Pairs.{IsAscending};
ghost use Rattle.tree_node.specs.Parts.{IsPart, Unchanged};
ghost use Rattle.tree_node.specs.Tree.{IsRetired, Stands, walk};

use std::alloc::AllocError;
use tree_array::array::{IndexKey, RunOf};
use tree_leaf::arena::{LeafId, NodeId};
use tree_node::node::{ArenasOf, NodeOf};
use tree_split::empty_last;

/// Returns the last leaf under the number of a node of this level, or `None` if the leaf has no
/// pair or the node is retired. Runs in O(level), and makes no comparisons.
///
/// The caller must name a well-formed part of a tree, or a retired node.
pub fn last_leaf_at<K: IndexKey, V: Drop, const LEN: usize>(
    arenas: &ArenasOf<K, V, LEN>,
    level: usize,
    id: NodeId,
) -> Option<LeafId>
    requires node { 0 < level }
    requires stands { Stands K.cmp level arenas.now None id None ⊎ IsRetired level arenas.now id }
    ensures last { ForSome result (IsLastLeaf level arenas.now id) }
    ensures none { ForNone result (HasNoLastLeaf level arenas.now id) }
{
    let end = edge_at(arenas, level, id)?;
    if arenas.leaf(end.leaf).array().is_empty() {
        return None;
    }
    Some(end.leaf)
}

// The leaf at the end of the right edge of a part, and its leaf node.
#[derive(Clone, Copy)]
struct EdgeEnd {
    node: NodeId,
    leaf: LeafId,
}

// Returns the leaf to which the unbounded children lead from a node of this level, and its leaf
// node, or `None` if the node is retired.
fn edge_at<K: IndexKey, V: Drop, const LEN: usize>(
    arenas: &ArenasOf<K, V, LEN>,
    level: usize,
    id: NodeId,
) -> Option<EdgeEnd>
    requires node { 0 < level }
    requires stands { Stands K.cmp level arenas.now None id None ⊎ IsRetired level arenas.now id }
    ensures { MatchOption result (IsRetired level arenas.now id)
        (λ end. EndsEdge level arenas.now id end.node end.leaf) }
{
    let mut at = id;
    let mut above = level - 1;
    while above > 0 {
        let NodeOf::Internal(node) = arenas.node(at) else {
            return None;
        };
        at = node.unbounded_child?;
        above -= 1;
    }
    let NodeOf::Leaf(node) = arenas.node(at) else {
        return None;
    };
    let leaf = node.unbounded_child?;
    Some(EdgeEnd { node: at, leaf })
}

/// Puts a pair at the end of the last leaf of a part of a tree.
///
/// Returns `Err` with the pair, and changes nothing, if the leaf has no free slot. Makes no
/// comparisons, and allocates nothing.
///
/// The caller must name the last leaf under some number, which has a pair, and pass a key that is
/// larger than all under that number.
#[inline(always)]
pub fn append_to<K: IndexKey, V: Drop, const LEN: usize>(
    arenas: &mut ArenasOf<K, V, LEN>,
    leaf: LeafId,
    key: K,
    val: V,
) -> Result<(), (K, V)>
    requires { (level id : ℕ) × IsLastFor K.cmp level arenas.old id leaf key }
    ensures { (level id : ℕ) → IsLastFor K.cmp level arenas.old id leaf key
        → Appends K.cmp level arenas.old arenas.new id leaf key val result }
{
    if arenas.leaf(leaf).array().is_full() {
        return Err((key, val));
    }
    arenas.leaf_mut(leaf).array_mut().append(key, val);
    Ok(())
}

/// Appends the pairs of a run to a part of a tree, and returns whether it did: all pairs of the
/// last leaf move to a new leaf before it, and it takes those of the run, which has none
/// afterwards. The leaf is found along the unbounded children.
///
/// Returns `false`, and changes nothing, if the last leaf isn't full or its pairs didn't arrive in
/// ascending order, if its node has no slot for another keyed child, or if the run has no pair.
/// Returns `Err` if it cannot allocate. Runs in O(level). Allocates one leaf at most. Makes the
/// comparisons of [`empty_last`] alone.
///
/// The caller must pass a run whose keys are larger than all under the number.
pub fn append_run<K: IndexKey, V: Drop, const LEN: usize>(
    arenas: &mut ArenasOf<K, V, LEN>,
    level: usize,
    id: NodeId,
    run: &mut RunOf<K, V, LEN>,
) -> Result<bool, AllocError>
    requires node { 0 < level }
    requires part { IsPart K.cmp level arenas.old id ⊎ IsRetired level arenas.old id }
    requires ascending { IsAscending K.cmp (walk level arenas.old id ++ run.old) }
    ensures done { IfOk result (λ done. AppendsRun K.cmp level arenas.old arenas.new id run.old run.new done) }
    ensures err { OnErr result (Unchanged arenas.old arenas.new × (run.new ≡ run.old)) }
{
    let Some(end) = edge_at(arenas, level, id) else {
        return Ok(false);
    };
    let last = arenas.leaf(end.leaf).array();
    if last.is_empty() {
        return Ok(false);
    }
    let Some(key) = run.first_key() else {
        return Ok(false);
    };
    if !empty_last(arenas, end.node, end.leaf, key)? {
        return Ok(false);
    }
    *arenas.leaf_mut(end.leaf).array_mut() = run.close();
    Ok(true)
}
