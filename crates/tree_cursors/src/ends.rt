//! What a cursor reads from its two ends.
ghost use Rattle.std.specs.Prelude.{◌≡◌, None, if◌then◌else◌, is_some};
ghost use Rattle.tree_model.specs.Cursor.{are_apart, meets, option_where};
ghost use Rattle.tree_model.specs.Pairs.{lent_bound};
ghost use Rattle.tree_model.specs.Rest.{lent};
ghost use Rattle.tree_cursors.specs.View.{Kept, end_of, pair_of};
ghost use Rattle.tree_cursors.specs.Beside.{is_at};
ghost use Rattle.tree_cursors.specs.Ranged.{TellsApart, is_new};

use crate::end::{End, comes_before, pair_on};
use std::ops::Bound;
use tree_leaf::leaf::LeafOf;
use tree_leaf::{IterOf, LinkedIter, RevIterOf, Walked};
use tree_model::{Direction, meets};

/// Returns whether neither end is exhausted, and the forward one is before the backward one. Makes
/// at most one comparison. The caller must pass ends that are in one tree.
#[inline(always)]
pub fn are_apart<'t, K: Ord + Drop, V: Drop, const LEN: usize>(
    forward: &End<IterOf<'t, K, V, LEN>>,
    backward: &End<RevIterOf<'t, K, V, LEN>>,
) -> bool
    ensures { TellsApart K.cmp forward.now backward.now result }
{
    match (forward, backward) {
        (End::Exhausted, _) | (_, End::Exhausted) => false,
        (End::At(walk), End::At(other)) => comes_before(walk, other),
        _ => true,
    }
}

/// Returns the pair that an end has moved to, if the ends have not met and its key is within the
/// bound at which the other end begins, which goes this way. Makes at most two comparisons. The
/// caller must pass ends that are in one tree.
#[inline(always)]
pub fn if_apart<'t, K: Ord + Drop, V: Drop, E: Direction, const LEN: usize>(
    pair: Option<(&'t K, &'t V)>,
    forward: &End<IterOf<'t, K, V, LEN>>,
    backward: &End<RevIterOf<'t, K, V, LEN>>,
    bound: Bound<&K>,
) -> Option<(&'t K, &'t V)>
    ensures { (arenas root : _) → Kept arenas root K.cmp forward.now backward.now → lent result
        ≡ (if are_apart (end_of arenas root forward.now) (end_of arenas root backward.now)
        then option_where (λ pair. meets K.cmp E.way (lent_bound bound.entry) pair.0) (lent pair.entry) else None) }
{
    if !are_apart(forward, backward) {
        return None;
    }
    within::<K, V, E>(pair, bound)
}

/// Returns the pair that an end is on, if its key is within the bound at which the other end
/// begins. Makes at most one comparison.
pub fn shown<'t, K: Ord + Drop, V: Drop, D: Direction, E: Direction, const LEN: usize>(
    end: &End<LinkedIter<'t, LeafOf<K, V, LEN>, D>>,
    bound: Bound<&K>,
) -> Option<(&'t K, &'t V)>
    ensures { lent result ≡ option_where (λ pair. meets K.cmp E.way (lent_bound bound.entry) pair.0)
        (pair_of end.now) }
{
    within::<K, V, E>(pair_on(end), bound)
}

// Returns a pair if its key is within the bound at which an end of this way begins. Makes at most
// one comparison.
#[inline(always)]
fn within<'t, K: Ord, V, E: Direction>(
    pair: Option<(&'t K, &'t V)>,
    bound: Bound<&K>,
) -> Option<(&'t K, &'t V)>
    ensures { lent result ≡ option_where (λ pair. meets K.cmp E.way (lent_bound bound.entry) pair.0)
        (lent pair.entry) }
{
    let (key, value) = pair?;
    if meets::<K, E>(bound, key) {
        Some((key, value))
    } else {
        None
    }
}

/// Returns whether an end is on a pair.
pub fn has_pair<'t, K: Ord + Drop, V: Drop, D: Direction, const LEN: usize>(
    end: &End<LinkedIter<'t, LeafOf<K, V, LEN>, D>>,
) -> bool
    ensures { result ≡ is_some (pair_of end.now) }
{
    match pair_on(end) {
        Some(_) => true,
        None => false,
    }
}

/// Returns whether an end is on a pair whose key equals this one. Makes at most one comparison.
pub fn stands_at<'t, K: Ord + Drop, V: Drop, D: Direction, const LEN: usize>(
    end: &End<LinkedIter<'t, LeafOf<K, V, LEN>, D>>,
    key: &K,
) -> bool
    ensures { result ≡ is_at K.cmp key.now (pair_of end.now) }
{
    match pair_on(end) {
        Some((found, _)) => found.cmp(key).is_eq(),
        None => false,
    }
}

/// Returns whether an end was never moved.
pub fn is_unopened<W>(end: &End<W>) -> bool
    ensures { result ≡ is_new end.now }
{
    matches!(end, End::Unopened)
}

/// Returns the end that goes another way from the same place.
pub fn turned<'t, K: Ord + Drop, V: Drop, D: Direction, E: Direction, const LEN: usize>(
    end: End<LinkedIter<'t, LeafOf<K, V, LEN>, D>>,
) -> End<LinkedIter<'t, LeafOf<K, V, LEN>, E>>
    ensures { result ≡ end.entry }
{
    match end {
        End::Unopened => End::Unopened,
        End::At(walk) => End::At(walk.facing()),
        End::Exhausted => End::Exhausted,
    }
}

/// Returns an end at the same place.
pub fn again<'t, L: Walked, D: Direction>(
    end: &End<LinkedIter<'t, L, D>>,
) -> End<LinkedIter<'t, L, D>>
    ensures { result ≡ end.now }
{
    match end {
        End::Unopened => End::Unopened,
        End::At(walk) => End::At(walk.clone().unwrap()),
        End::Exhausted => End::Exhausted,
    }
}
