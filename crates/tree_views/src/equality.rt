//! Equality of the pairs that cursors have left.
ghost use Rattle.std.specs.Prelude.{◌≡◌, ◌&&◌};
ghost use Rattle.std.specs.Cmp.Lexicographic.{pointwise};
ghost use Rattle.tree_model.specs.Rest.{HasBegun, rest};
ghost use Rattle.tree_model.specs.declared.way.Way.TheVariants.{On};

use tree_cursors::iter::IterOf;
use tree_model::IndexKey;

/// Returns whether two cursors have as many pairs left on their way on, and equal ones, one by one.
pub fn are_same<'t, K: IndexKey + 't, V: Drop + PartialEq + 't, const LEN: usize>(
    left: IterOf<'t, K, V, LEN>,
    right: IterOf<'t, K, V, LEN>,
) -> bool
    requires left { HasBegun K.cmp On left }
    requires right { HasBegun K.cmp On right }
    ensures { result ≡ pointwise (λ p q. K.eq p.0 q.0 && V.eq p.1 q.1)
        (rest K.cmp On left.entry) (rest K.cmp On right.entry) }
{
    let (mut left, mut right) = (left, right);
    while let Some(pair) = left.next() {
        let Some(other) = right.next() else {
            return false;
        };
        if !is_same_pair(pair, other) {
            return false;
        }
    }
    right.next().is_none()
}

/// Returns whether two pairs have equal keys and equal values.
pub fn is_same_pair<K: PartialEq, V: PartialEq>(pair: (&K, &V), other: (&K, &V)) -> bool
    ensures { result ≡ (K.eq pair.entry.0.now other.entry.0.now && V.eq pair.entry.1.now other.entry.1.now) }
{
    pair.0 == other.0 && pair.1 == other.1
}
