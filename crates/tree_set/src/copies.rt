//! Copies of a set.
ghost use Rattle.std.specs.Prelude.{IfOk};
ghost use Rattle.std.specs.List.{AllZip};

use crate::set::TreeSetOf;
use std::alloc::{AllocError, Global};
use tree_index::IndexKey;

impl<K: IndexKey, const LEN: usize> TreeSetOf<K, LEN> {
    /// Returns a copy: a set of a clone of each element, in the same order.
    ///
    /// Returns `Err` if it cannot allocate, a clone among the rest. Nothing of the copy is left
    /// then. Reserves memory for as many leaves as the elements fill. Appends the clones as whole
    /// leaves: makes a few comparisons for each leaf, and those of a descent for each full leaf
    /// node.
    ///
    /// ```
    /// let mut second = first.try_clone(alloc)?;
    /// ```
    pub fn try_clone(&self, alloc: Global) -> Result<Self, AllocError>
        ensures { IfOk result (λ copy. AllZip K.is_clone self.now copy) }
    {
        let index = self.index.try_clone(alloc)?;
        Ok(TreeSetOf { index })
    }
}

/// Does what [`try_clone`](TreeSetOf::try_clone) does, with the allocator of the set.
impl<K: IndexKey, const LEN: usize> Clone for TreeSetOf<K, LEN> {
    ghost is_clone = { λ set copy. AllZip K.is_clone set copy };

    fn clone(&self) -> Result<Self, AllocError> {
        let index = self.index.clone()?;
        Ok(TreeSetOf { index })
    }
}
