//! The order of sets, and their hashes.
ghost use Rattle.std.specs.Cmp.Lexicographic.{lists_agrees, lists_po, lists_ties, lists_total, slice_cmp, slice_partial_cmp};
ghost use Rattle.tree_index.specs.Hashed.{counted, counted_alike};

use crate::set::TreeSetOf;
use std::cmp::Ordering;
use std::hash::{Hash, Hasher};
use tree_index::IndexKey;

/// Sets are ordered as the lists of their elements are: the first two elements that differ decide,
/// and if none do, the set with more elements is greater. Compares each element until one differs.
/// Allocates nothing.
impl<K: IndexKey, const LEN: usize> PartialOrd for TreeSetOf<K, LEN> {
    ghost partial_cmp = { slice_partial_cmp K.partial_cmp };

    ghost laws = { lists_po K.PartialOrd.laws };

    fn partial_cmp(&self, other: &Self) -> Option<Ordering> {
        self.index.partial_cmp(&other.index)
    }
}

/// The order that [`partial_cmp`](PartialOrd::partial_cmp) returns.
impl<K: IndexKey, const LEN: usize> Ord for TreeSetOf<K, LEN> {
    ghost cmp = { slice_cmp K.cmp };

    ghost total = { lists_total K.total };

    ghost matches_partial_cmp = { lists_agrees K.matches_partial_cmp };

    ghost matches_eq = { lists_ties K.cmp K.matches_eq };

    fn cmp(&self, other: &Self) -> Ordering {
        self.index.cmp(&other.index)
    }
}

/// Feeds what [`len`](TreeSetOf::len) returns, and then each element in order. Allocates nothing.
impl<K: IndexKey + Hash, const LEN: usize> Hash for TreeSetOf<K, LEN> {
    ghost hash_input = { counted K.hash_input };

    ghost respects_eq = { counted_alike (record { fed = K.respects_eq }) };

    fn hash<H: Hasher>(&self, state: &mut H) {
        self.index.hash(state);
    }
}
