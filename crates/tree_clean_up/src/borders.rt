//! The places at which a cut of a node begins and ends.
ghost use Rattle.std.specs.Prelude.{◌≡◌, ◌<◌, true};
ghost use Rattle.tree_array.specs.Spans.{PartsAt};
ghost use Rattle.tree_clean_up.specs.Places.{BeginsAt, EndsAt, Narrows};
ghost use Rattle.tree_model.specs.Pairs.{high_of, lent_bound, low_of};
ghost use Rattle.tree_node.specs.Tree.{keyed};

use crate::places::keyed_count;
use std::ops::Bound;
use tree_node::node::NodeOf;

/// Returns the place of the first child that may have a key that meets a lower bound. Searches the
/// node's array once.
pub fn first_place<K: Ord + Drop, const LEN: usize>(node: &NodeOf<K, LEN>, low: Bound<&K>) -> u8
    ensures { BeginsAt K.cmp (lent_bound low.entry) (keyed node.now).entries result }
{
    match low {
        Bound::Included(key) => place_in(node, key),
        Bound::Excluded(key) => place_in(node, key),
        Bound::Unbounded => 0,
    }
}

/// Returns the place of the last child that may have a key that meets an upper bound. Searches the
/// node's array once.
pub fn last_place<K: Ord + Drop, const LEN: usize>(node: &NodeOf<K, LEN>, high: Bound<&K>) -> u8
    ensures ends { EndsAt K.cmp (lent_bound high.entry) (keyed node.now).entries result }
    ensures few { result < 16 }
{
    match high {
        Bound::Included(key) => place_in(node, key),
        Bound::Excluded(key) => place_in(node, key),
        Bound::Unbounded => keyed_count(node),
    }
}

// Returns the place of the child that a key belongs to.
fn place_in<K: Ord + Drop, const LEN: usize>(node: &NodeOf<K, LEN>, key: &K) -> u8
    ensures parts { PartsAt K.cmp key.now (keyed node.now).entries result }
    ensures few { result < 16 }
{
    match node {
        NodeOf::Leaf(node) => node.children.place_for(key),
        NodeOf::Internal(node) => node.children.place_for(key),
    }
}

/// Returns the bounds that are left to test in the child at a place: the lower one in the first
/// child, the upper one in the last, and none between them.
pub fn narrowed<'a, K>(
    bounds: (Bound<&'a K>, Bound<&'a K>),
    place: u8,
    first: u8,
    last: u8,
) -> (Bound<&'a K>, Bound<&'a K>)
    ensures low { Narrows (low_of bounds.entry) (low_of result) place first }
    ensures high { Narrows (high_of bounds.entry) (high_of result) place last }
{
    let low = if place == first {
        bounds.0
    } else {
        Bound::Unbounded
    };
    let high = if place == last {
        bounds.1
    } else {
        Bound::Unbounded
    };
    (low, high)
}

/// Returns whether neither bound is left to test.
pub fn is_open<K>(bounds: (Bound<&K>, Bound<&K>)) -> bool
    ensures { result ≡ true → (low_of bounds.entry ≡ Bound.Unbounded) × (high_of bounds.entry ≡ Bound.Unbounded) }
{
    match bounds {
        (Bound::Unbounded, Bound::Unbounded) => true,
        _ => false,
    }
}
