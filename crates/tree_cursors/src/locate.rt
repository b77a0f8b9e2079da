//! Where a key is among the pairs of a tree.
ghost use Rattle.std.specs.Prelude.{◌≡◌};
ghost use Rattle.tree_node.specs.Whole.{IsTree, walk_under};
ghost use Rattle.tree_model.specs.Cursor.{next_end};
ghost use Rattle.tree_model.specs.Located.{located};
ghost use Rattle.tree_model.specs.Pairs.{lent_bound};
ghost use Rattle.tree_cursors.specs.View.{EndStands, end_of};

use crate::end::{End, step};
use crate::ends::{again, has_pair, stands_at, turned};
use crate::iter::{IterOf, IterOver};
use std::ops::Bound;
use tree_leaf::LinkedIter;
use tree_leaf::leaf::LeafOf;
use tree_model::{Backward, Direction, ProximityOf};
use tree_node::node::{ArenasOf, Root};

/// Where a key is among pairs, with fifteen pairs a leaf.
pub type Proximity<'t, K, V> = ProximityOf<IterOf<'t, K, V, 15>>;

/// Returns where a key is: present, or next to which pairs, with a cursor at that place. Descends
/// once, or twice if all keys are smaller. The caller must lend the arenas of a well-formed tree
/// with its root.
pub fn locate<'t, K: Ord + Drop + 't, V: Drop + 't, const LEN: usize>(
    arenas: &'t ArenasOf<K, V, LEN>,
    root: Option<Root>,
    key: &K,
) -> ProximityOf<IterOf<'t, K, V, LEN>>
    requires { IsTree K.cmp arenas.now root }
    ensures { result ≡ located K.cmp (walk_under arenas.now root) key.now }
{
    // Copies, since the borrow checker has an argument of this type passed on once.
    let (top, tree) = (root, root);
    let first = stepped(arenas, top, End::Unopened, Bound::Included(key));
    if stands_at(&first, key) {
        return ProximityOf::Exact(IterOver::standing(arenas, root, first, End::Unopened));
    }
    let open: Bound<&'t K> = Bound::Unbounded;
    if !has_pair(&first) {
        let last = stepped(arenas, tree, End::Unopened, open);
        if !has_pair(&last) {
            return ProximityOf::Empty;
        }
        return ProximityOf::Smaller(IterOver::standing(arenas, root, End::Unopened, last));
    }
    let before = stepped::<K, V, Backward, LEN>(arenas, tree, turned(again(&first)), open);
    if has_pair(&before) {
        ProximityOf::Between(IterOver::standing(arenas, root, turned(before), turned(first)))
    } else {
        ProximityOf::Larger(IterOver::standing(arenas, root, first, End::Unopened))
    }
}

// Returns an end after one move. The caller must pass an end that is in the tree.
#[inline(always)]
fn stepped<'t, K: Ord + Drop, V: Drop, D: Direction, const LEN: usize>(
    arenas: &'t ArenasOf<K, V, LEN>,
    root: Option<Root>,
    end: End<LinkedIter<'t, LeafOf<K, V, LEN>, D>>,
    bound: Bound<&K>,
) -> End<LinkedIter<'t, LeafOf<K, V, LEN>, D>>
    requires tree { IsTree K.cmp arenas.now root }
    requires stands { EndStands arenas.now root end }
    ensures place { end_of arenas.now root result ≡ next_end K.cmp D.way (lent_bound bound.entry)
        (walk_under arenas.now root) (end_of arenas.now root end.entry) }
    ensures stands { EndStands arenas.now root result }
{
    let mut end = end;
    let _ = step(arenas, root, &mut end, bound);
    end
}
