//! The order of the pairs that cursors have left.
ghost use Rattle.std.specs.Prelude.{◌≡◌};
ghost use Rattle.std.specs.Cmp.Lexicographic.{slice_partial_cmp};
ghost use Rattle.std.specs.Ordering.{partial_ordering_then};
ghost use Rattle.tree_model.specs.Rest.{HasBegun, rest};
ghost use Rattle.tree_model.specs.declared.way.Way.TheVariants.{On};

use std::cmp::Ordering;
use tree_cursors::iter::IterOf;
use tree_model::IndexKey;

/// Returns the order of the pairs that two cursors have left on their way on.
pub fn order_of<'t, K: IndexKey + 't, V: Drop + PartialOrd + 't, const LEN: usize>(
    left: IterOf<'t, K, V, LEN>,
    right: IterOf<'t, K, V, LEN>,
) -> Option<Ordering>
    requires left { HasBegun K.cmp On left }
    requires right { HasBegun K.cmp On right }
    ensures { result ≡ slice_partial_cmp (λ p q. partial_ordering_then (K.partial_cmp p.0 q.0) (V.partial_cmp p.1 q.1))
        (rest K.cmp On left.entry) (rest K.cmp On right.entry) }
{
    let (mut left, mut right) = (left, right);
    while let Some(pair) = left.next() {
        let Some(other) = right.next() else {
            return Some(Ordering::Greater);
        };
        let order = order_of_pairs(pair, other)?;
        if order.is_ne() {
            return Some(order);
        }
    }
    match right.next() {
        Some(_) => Some(Ordering::Less),
        None => Some(Ordering::Equal),
    }
}

/// Returns the order of two pairs: that of the keys or, if these are equal, of the values.
pub fn order_of_pairs<K: PartialOrd, V: PartialOrd>(
    pair: (&K, &V),
    other: (&K, &V),
) -> Option<Ordering>
    ensures { result ≡ partial_ordering_then (K.partial_cmp pair.entry.0.now other.entry.0.now)
        (V.partial_cmp pair.entry.1.now other.entry.1.now) }
{
    match pair.0.partial_cmp(other.0) {
        Some(Ordering::Equal) => pair.1.partial_cmp(other.1),
        unequal => unequal,
    }
}
