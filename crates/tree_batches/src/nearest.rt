//! The pair at a key, or next to it on a way.
ghost use Rattle.std.specs.Prelude.{◌≡◌};
ghost use Rattle.tree_batches.specs.Batches.{LeafUnder};
ghost use Rattle.tree_batches.specs.Nearest.{nearest};
ghost use Rattle.tree_model.specs.Rest.{lent};
ghost use Rattle.tree_node.specs.Whole.{IsTree, walk_under};

use tree_leaf::LinkedIter;
use tree_leaf::arena::LeafId;
use tree_leaf::laws::next_or_jump;
use tree_leaf::leaf::LeafOf;
use tree_model::Direction;
use tree_node::node::{ArenasOf, Root};

// Returns the pair with a key, or else the next one on a way, from the leaf that the key belongs to.
// Only if that leaf has none are the leaves next to it read.
#[inline(always)]
pub(crate) fn nearest_in<'t, D: Direction, K: Ord + Drop, V: Drop, const LEN: usize>(
    arenas: &'t ArenasOf<K, V, LEN>,
    root: &Option<Root>,
    leaf: Option<LeafId>,
    key: &K,
) -> Option<(&'t K, &'t V)>
    requires tree { IsTree K.cmp arenas.now root.now }
    requires leaf { LeafUnder K.cmp arenas.now root.now key.now leaf }
    ensures { lent result ≡ nearest D.way K.cmp (walk_under arenas.now root.now) key.now }
{
    let begin = leaf?;
    let mut walk: LinkedIter<'t, LeafOf<K, V, LEN>, D> = LinkedIter::new(arenas, begin);
    walk.pass(key);
    next_or_jump(&mut walk)
}
