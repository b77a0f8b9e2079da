//! The order of indexes.
ghost use Rattle.std.specs.Cmp.Lexicographic.{slice_cmp, slice_partial_cmp, lists_agrees, lists_po, lists_ties, lists_total};
ghost use Rattle.std.specs.Cmp.{both_tied, on_po, on_total, then_agrees, then_po, then_total};
ghost use Rattle.std.specs.Ordering.{ordering_then, partial_ordering_then};

use crate::index::TreeIndexOf;
use std::cmp::Ordering;
use tree_array::array::IndexKey;
use tree_views::order::order_of;

/// Indexes are ordered as the lists of their pairs are: the first two pairs that differ decide,
/// their keys before their values, and if none do, the index with more pairs is greater. Compares
/// each pair until one differs. Allocates nothing.
///
/// ```
/// assert!(rt; first.partial_cmp(second) == Some(order));
/// ```
impl<K: IndexKey, V: Drop + PartialOrd, const LEN: usize> PartialOrd for TreeIndexOf<K, V, LEN> {
    ghost partial_cmp = { λ a b. slice_partial_cmp (λ p q. partial_ordering_then (K.partial_cmp p.0 q.0) (V.partial_cmp p.1 q.1)) a.pairs b.pairs };

    ghost laws = { on_po (λ a. a.pairs) (lists_po (then_po (on_po (λ p. p.0) K.PartialOrd.laws) (on_po (λ p. p.1) V.PartialOrd.laws))) };

    fn partial_cmp(&self, other: &Self) -> Option<Ordering> {
        order_of(self.iter(), other.iter())
    }
}

/// The order that [`partial_cmp`](PartialOrd::partial_cmp) returns.
impl<K: IndexKey, V: Drop + Ord, const LEN: usize> Ord for TreeIndexOf<K, V, LEN> {
    ghost cmp = { λ a b. slice_cmp (λ p q. ordering_then (K.cmp p.0 q.0) (V.cmp p.1 q.1)) a.pairs b.pairs };

    ghost total = { on_total (λ a. a.pairs) (lists_total (then_total (on_total (λ p. p.0) K.total) (on_total (λ p. p.1) V.total))) };

    ghost matches_partial_cmp = { λ a b. lists_agrees (then_agrees (λ p q. K.matches_partial_cmp p.0 q.0) (λ p q. V.matches_partial_cmp p.1 q.1)) a.pairs b.pairs };

    ghost matches_eq = { λ a b. lists_ties (λ p q. ordering_then (K.cmp p.0 q.0) (V.cmp p.1 q.1)) (λ p q. both_tied _ _ (K.cmp p.0 q.0) (V.cmp p.1 q.1) (K.matches_eq p.0 q.0) (V.matches_eq p.1 q.1)) a.pairs b.pairs };

    fn cmp(&self, other: &Self) -> Ordering {
        match self.partial_cmp(other) {
            Some(order) => order,
            None => unreachable!(),
        }
    }
}
