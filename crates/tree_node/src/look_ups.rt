//! Look-ups under the number of a node, at its level.
ghost use Rattle.std.specs.Prelude.{◌≡◌, ◌+◌, ◌*◌, ◌≤◌, ◌<◌, MatchOption};
ghost use Rattle.tree_array.specs.Length.{searched};
ghost use Rattle.tree_model.specs.Pairs.{Finds};
ghost use Rattle.tree_node.specs.Tree.{IsRetired, StandsOrRetired, walk};
ghost use Rattle.tree_node.specs.Ways.{IsLeafFor};

use crate::node::{ArenasOf, NodeOf};
use tree_array::array::{Asks, Judge};
use tree_leaf::arena::{LeafId, NodeId};

/// Returns the pair with the judge's key under a number, or `None` if the key is absent. Makes at
/// most `4 * (level + 1)` comparisons with 15 slots, and `3 * (level + 1)` with 7.
///
/// The caller must name a well-formed part of a tree at this level, or a retired node.
#[inline(always)]
pub fn search_at<'a, K: Ord + Drop, V: Drop, J: Judge<K>, const LEN: usize>(
    arenas: &'a ArenasOf<K, V, LEN>,
    level: usize,
    id: NodeId,
    judge: &mut J,
) -> Option<(&'a K, &'a V)>
    requires node { 0 < level }
    requires stands { StandsOrRetired K.cmp level arenas.now id }
    ensures found { Finds K.cmp (walk level arenas.now id) (J.key judge.old) result }
    ensures same_key { J.key judge.new ≡ J.key judge.old }
    ensures counted { J.count judge.new ≤ J.count judge.old + LEN * (level + 1) }
    ensures halved { J.count judge.new ≤ J.count judge.old + searched LEN * (level + 1) }
{
    let Some(leaf) = leaf_by(arenas, level, id, judge) else {
        return None;
    };
    arenas.leaf(leaf).array().search_entry(judge)
}

/// Returns the leaf that the sought key belongs to under a number, or `None` if the node is
/// retired. `asked` is a judge, or the key itself. Makes at most `4 * level` comparisons with 15
/// slots, and `3 * level` with 7.
///
/// It descends in a loop, so that the search in the leaf keeps its moves without a branch in the
/// caller's loop over keys.
///
/// The caller must name a well-formed part of a tree at this level, or a retired node.
#[inline(always)]
pub fn leaf_by<K: Ord + Drop, V: Drop, By, A: Asks<K, By>, const LEN: usize>(
    arenas: &ArenasOf<K, V, LEN>,
    level: usize,
    id: NodeId,
    asked: &mut A,
) -> Option<LeafId>
    requires node { 0 < level }
    requires stands { StandsOrRetired K.cmp level arenas.now id }
    ensures found { MatchOption result (IsRetired level arenas.now id)
        (IsLeafFor K.cmp (A.key asked.old) level arenas.now id) }
    ensures same_key { A.key asked.new ≡ A.key asked.old }
    ensures counted { A.count asked.new ≤ A.count asked.old + LEN * level }
    ensures halved { A.count asked.new ≤ A.count asked.old + searched LEN * level }
{
    let mut at = id;
    let mut above = level;
    loop {
        match arenas.node(at) {
            NodeOf::Leaf(node) => return node.child_for(asked),
            NodeOf::Internal(node) => {
                at = node.child_for(asked)?;
                above -= 1;
            }
        }
    }
}
