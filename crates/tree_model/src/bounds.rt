//! Two bounds on keys.
ghost use Rattle.std.specs.Prelude.{◌≡◌};
ghost use Rattle.tree_model.specs.Cursor.{meets};
ghost use Rattle.tree_model.specs.Pairs.{high_of, lent_bound, low_of, meets_lower, meets_upper, within};

use crate::way::{Direction, Way};
use std::ops::Bound;

/// Returns whether a key is within both bounds. Reversed bounds contain no key. Makes at most two
/// comparisons.
pub fn range_contains<K: Ord>(bounds: (Bound<&K>, Bound<&K>), key: &K) -> bool
    ensures { result ≡ within K.cmp (low_of bounds.entry) (high_of bounds.entry) key.now }
{
    is_above(bounds.0, key) && is_below(bounds.1, key)
}

/// Returns whether a key meets a lower bound. Makes at most one comparison.
pub fn is_above<K: Ord>(low: Bound<&K>, key: &K) -> bool
    ensures { result ≡ meets_lower K.cmp (lent_bound low.entry) key.now }
{
    match low {
        Bound::Included(low) => low.cmp(key).is_le(),
        Bound::Excluded(low) => low.cmp(key).is_lt(),
        Bound::Unbounded => true,
    }
}

/// Returns whether a key meets an upper bound. Makes at most one comparison.
pub fn is_below<K: Ord>(high: Bound<&K>, key: &K) -> bool
    ensures { result ≡ meets_upper K.cmp (lent_bound high.entry) key.now }
{
    match high {
        Bound::Included(high) => key.cmp(high).is_le(),
        Bound::Excluded(high) => key.cmp(high).is_lt(),
        Bound::Unbounded => true,
    }
}

/// Returns whether a key is within the bound at which a way begins: the lower bound on the way on,
/// and the upper bound on the way back. Makes at most one comparison.
#[inline(always)]
pub fn meets<K: Ord, D: Direction>(bound: Bound<&K>, key: &K) -> bool
    ensures { result ≡ meets K.cmp D.way (lent_bound bound.entry) key.now }
{
    match D::way() {
        Way::On => is_above(bound, key),
        Way::Back => is_below(bound, key),
    }
}
