//! Copies of an index.
ghost use Rattle.std.specs.Prelude.{◌≡◌, ◌-◌, ◌^◌, [], IfOk, MatchOption, length, min};
ghost use Rattle.std.specs.List.{AllZip};
ghost use Rattle.tree_array.specs.Length.{IsLen};
ghost use Rattle.tree_index.specs.Copies.{HasLeft, IsPairClone};
ghost use Rattle.tree_root.specs.Rooms.{HasRoomForPairs};
ghost use Rattle.tree_root.specs.Trees.{IsWhole, pairs_of};

use crate::index::TreeIndexOf;
use std::alloc::{AllocError, Global};
use tree_array::array::{IndexKey, RunOf};
use tree_leaf::IterOf;
use tree_leaf::laws::next_or_jump;
use tree_model::Forward;
use tree_parts::ends::walk_from_end;
use tree_root::Tree;

impl<K: IndexKey, V: Drop + Clone, const LEN: usize> TreeIndexOf<K, V, LEN> {
    /// Returns a copy: an index of a clone of each key with a clone of its value, in the same
    /// order.
    ///
    /// Returns `Err` if an allocation fails, including one made by a clone; nothing of the copy is
    /// left then. Reserves memory for as many leaves as the pairs fill. Gathers the clones into
    /// whole leaves. Makes a few comparisons per leaf, and those of a descent per full leaf node.
    ///
    /// ```
    /// pub fn snapshot(
    ///     samples: &TreeIndex<u64, u64>,
    ///     alloc: Global,
    /// ) -> Result<TreeIndex<u64, u64>, AllocError>
    ///     ensures { IfOk result (λ copy. copy.pairs ≡ samples.now.pairs) }
    /// {
    ///     samples.try_clone(alloc)
    /// }
    /// ```
    pub fn try_clone(&self, alloc: Global) -> Result<Self, AllocError>
        ensures { IfOk result (λ copy. AllZip (IsPairClone K.is_clone V.is_clone) self.now.pairs copy.pairs) }
    {
        let source = &self.tree;
        let mut tree = Tree::with_room(alloc, self.len())?;
        append_clones(&mut tree, source)?;
        Ok(TreeIndexOf {
            tree,
            len: self.len,
            alloc,
        })
    }
}

// Returns a walk over all pairs of a tree, or `None` if it has no pair.
fn walk_of<K: IndexKey, V: Drop, const LEN: usize>(
    tree: &Tree<K, V, LEN>,
) -> Option<IterOf<'_, K, V, LEN>>
    requires { IsWhole K.cmp tree.now }
    ensures { MatchOption result (pairs_of tree.now ≡ []) (λ pairs. HasLeft pairs (pairs_of tree.now)) }
{
    let root = tree.root?;
    walk_from_end::<K, V, Forward, LEN>(&tree.arenas, root.level, root.id)
}

// Appends a clone of each pair of another tree. The tree must be empty, and have room for as many
// pairs.
fn append_clones<K: IndexKey, V: Drop + Clone, const LEN: usize>(
    tree: &mut Tree<K, V, LEN>,
    other: &Tree<K, V, LEN>,
) -> Result<(), AllocError>
    requires len { IsLen LEN }
    requires whole { IsWhole K.cmp tree.old }
    requires empty { pairs_of tree.old ≡ [] }
    requires other { IsWhole K.cmp other.now }
    requires room { HasRoomForPairs tree.old.arenas (min (length (pairs_of other.now)) (2 ^ 64 - 1)) }
    ensures whole { IfOk result (λ _. IsWhole K.cmp tree.new) }
    ensures clones { IfOk result
        (λ _. AllZip (IsPairClone K.is_clone V.is_clone) (pairs_of other.now) (pairs_of tree.new)) }
{
    let Some(mut pairs) = walk_of(other) else {
        return Ok(());
    };
    let mut run = RunOf::new();
    while let Some((key, value)) = next_or_jump(&mut pairs) {
        tree.gather(&mut run, key.clone()?, value.clone()?)?;
    }
    tree.append_run(&mut run)
}

/// Does what [`try_clone`](TreeIndexOf::try_clone) does, with the allocator of the index.
impl<K: IndexKey, V: Drop + Clone, const LEN: usize> Clone for TreeIndexOf<K, V, LEN> {
    ghost is_clone = { λ index copy. AllZip (IsPairClone K.is_clone V.is_clone) index.pairs copy.pairs };

    fn clone(&self) -> Result<Self, AllocError> {
        self.try_clone(self.alloc)
    }
}
