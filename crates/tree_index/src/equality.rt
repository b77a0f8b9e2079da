//! Equality of indexes.
ghost use Rattle.std.specs.Prelude.{◌&&◌};
ghost use Rattle.std.specs.Cmp.Lexicographic.{pointwise, lists_equiv, lists_per};
ghost use Rattle.std.specs.Cmp.{and_equiv, and_per, on_equiv, on_per};

use crate::index::TreeIndexOf;
use tree_array::array::IndexKey;
use tree_views::equality::are_same;

/// Two indexes are equal if they have as many pairs and, one by one, equal keys and equal values.
/// What their trees look like doesn't matter. Compares no pair if the lengths differ, else each
/// pair until one differs. Allocates nothing.
///
/// ```
/// (first == second, second == first, first == first)
/// ```
impl<K: IndexKey, V: Drop + PartialEq, const LEN: usize> PartialEq for TreeIndexOf<K, V, LEN> {
    ghost eq = { λ a b. pointwise (λ p q. K.eq p.0 q.0 && V.eq p.1 q.1) a.pairs b.pairs };

    ghost laws = { on_per (λ a. a.pairs) (lists_per (and_per (on_per (λ p. p.0) K.PartialEq.laws) (on_per (λ p. p.1) V.laws))) };

    fn eq(&self, other: &Self) -> bool {
        self.len() == other.len() && are_same(self.iter(), other.iter())
    }
}

impl<K: IndexKey, V: Drop + Eq, const LEN: usize> Eq for TreeIndexOf<K, V, LEN> {
    ghost laws = { on_equiv (λ a. a.pairs) (lists_equiv (and_equiv (on_equiv (λ p. p.0) K.Eq.laws) (on_equiv (λ p. p.1) V.Eq.laws))) };
}
