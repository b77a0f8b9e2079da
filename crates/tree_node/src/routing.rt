//! Routing: which child of a node a key belongs to.
ghost use Rattle.std.specs.Prelude.{◌≡◌, ◌↔◌, ◌+◌, ◌≤◌, MatchOption, IsSome, IsTrue, None, Some};
ghost use Rattle.std.specs.Option.{ForSome};
ghost use Rattle.tree_array.specs.Arrivals.{arrival, least_from};
ghost use Rattle.tree_array.specs.Length.{searched};
ghost use Rattle.tree_node.specs.Routing.{IsChildAt, IsSlotFor};
ghost use Rattle.tree_node.specs.Tree.{child_of};

use crate::branch::BranchOf;
use tree_array::array::{ArrayOf, Asks};

/// A child of a node, with the slot of its separator if it is a keyed child.
#[derive(Drop)]
pub struct ChildPlace<I> {
    pub child: I,
    pub slot: Option<u8>,
}

impl<K: Ord + Drop, I: Copy + Drop, const LEN: usize> BranchOf<K, I, LEN> {
    /// Returns the child that the sought key belongs to: the child under the least separator that
    /// the key doesn't exceed, or else the unbounded child. Returns `None` if the node is retired.
    /// `asked` is a judge, or the key itself. Makes at most 4 comparisons among 15 slots, and 3
    /// among 7.
    #[inline(always)]
    pub fn child_for<By, A: Asks<K, By>>(&self, asked: &mut A) -> Option<I>
        ensures child { result ≡ child_of K.cmp (A.key asked.old) self.now.children.entries self.now.unbounded_child }
        ensures same_key { A.key asked.new ≡ A.key asked.old }
        ensures counted { A.count asked.new ≤ A.count asked.old + LEN }
        ensures halved { A.count asked.new ≤ A.count asked.old + searched LEN }
    {
        let Some(last) = &self.unbounded_child else {
            return None;
        };
        let slot = self.children.min_greater_equal(asked);
        Some(*child_at(&self.children, last, slot))
    }

    /// Returns the child that a key belongs to, as [`child_for`](BranchOf::child_for) does, and the
    /// slot of its separator. Makes as many comparisons, which no judge counts.
    ///
    /// With `rightmost` it first compares the key with the last separator, and returns the
    /// unbounded child at once if the key is larger: an insert calls it so as long as its descent
    /// keeps to the unbounded children, where keys that arrive in ascending order belong. That is
    /// at most one comparison more.
    #[inline]
    pub fn child_place(&self, key: &K, rightmost: bool) -> Option<ChildPlace<I>>
        ensures place { MatchOption result (self.now.unbounded_child ≡ None)
            (λ place. IsChildAt K.cmp key.now self.now.children self.now.unbounded_child place.child place.slot) }
        ensures child { MatchOption result
            (child_of K.cmp key.now self.now.children.entries self.now.unbounded_child ≡ None)
            (λ place. child_of K.cmp key.now self.now.children.entries self.now.unbounded_child ≡ Some place.child) }
    {
        let last = self.unbounded_child?;
        let slot = slot_beyond(&self.children, key, rightmost);
        Some(ChildPlace {
            child: *child_at(&self.children, &last, slot),
            slot,
        })
    }
}

/// Returns the child that a key belongs to; `unbounded` is the unbounded one. Makes as many
/// comparisons as [`child_for`](BranchOf::child_for), which no judge counts.
#[inline(always)]
pub fn child_by_key<K: Ord + Drop, I: Copy + Drop, const LEN: usize>(
    children: &ArrayOf<K, I, LEN>,
    unbounded: &I,
    key: &K,
) -> I
    ensures { child_of K.cmp key.now children.now.entries (Some unbounded.now) ≡ Some result }
{
    *child_at(children, unbounded, children.slot_for(key))
}

// Returns the slot of the least separator that a key doesn't exceed, or `None` if it is larger
// than each. With `rightmost` it compares the key with the last separator first.
#[inline(always)]
fn slot_beyond<K: Ord + Drop, I: Copy + Drop, const LEN: usize>(
    children: &ArrayOf<K, I, LEN>,
    key: &K,
    rightmost: bool,
) -> Option<u8>
    ensures { IsSlotFor K.cmp key.now children.now result }
{
    if rightmost && is_beyond(children, key) {
        return None;
    }
    children.slot_for(key)
}

/// Returns whether a key is larger than each key of an array. In the array of a node, it belongs to
/// the unbounded child then. Makes one comparison at most, with the last key.
#[inline(always)]
pub fn is_beyond<K: Ord + Drop, V: Drop, const LEN: usize>(
    array: &ArrayOf<K, V, LEN>,
    key: &K,
) -> bool
    ensures { IsTrue result ↔ (least_from K.cmp array.now.entries key.now ≡ None) }
{
    // The contract of `free` states that the keys ascend.
    let _ = array.free();
    match array.last_slot() {
        Some(slot) => key.cmp(array.key(slot)).is_gt(),
        None => true,
    }
}

// Returns the keyed child in a slot, or the unbounded child if there is no slot. Lends it, so that
// a place in memory is chosen and read once.
#[inline]
fn child_at<'a, K: Ord + Drop, I: Copy + Drop, const LEN: usize>(
    children: &'a ArrayOf<K, I, LEN>,
    unbounded: &'a I,
    slot: Option<u8>,
) -> &'a I
    requires { ForSome slot (λ keyed. IsSome (arrival children.now.arrivals keyed)) }
    ensures { MatchOption slot (result.now ≡ unbounded.now)
        (λ keyed. (separator : K) × (arrival children.now.arrivals keyed ≡ Some (separator, result.now))) }
{
    match slot {
        Some(keyed) => children.val(keyed),
        None => unbounded,
    }
}
