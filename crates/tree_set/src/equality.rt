//! Equality of sets.
ghost use Rattle.std.specs.Cmp.Lexicographic.{pointwise, lists_equiv, lists_per};

use crate::set::TreeSetOf;
use tree_index::IndexKey;

/// Two sets are equal if they have as many elements and equal ones, one by one. What their trees
/// look like doesn't matter. Compares no element if the lengths differ, else each until one
/// differs. Allocates nothing.
impl<K: IndexKey, const LEN: usize> PartialEq for TreeSetOf<K, LEN> {
    ghost eq = { pointwise K.eq };

    ghost laws = { lists_per K.PartialEq.laws };

    fn eq(&self, other: &Self) -> bool {
        self.index == other.index
    }
}

impl<K: IndexKey, const LEN: usize> Eq for TreeSetOf<K, LEN> {
    ghost laws = { lists_equiv K.Eq.laws };
}
