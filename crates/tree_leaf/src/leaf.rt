//! Leaves: an array each, and links to the leaves before and after it.
ghost use Rattle.std.specs.Prelude.{◌≡◌, [], None, Some, IsSome};
ghost use Rattle.std.specs.Borrow.{sem};
ghost use Rattle.tree_array.specs.Arrivals.{arrival, in_order};
ghost use Rattle.tree_array.specs.Length.{IsLen};

use crate::arena::LeafId;
use tree_array::array::ArrayOf;

mod links;

pub use links::{add_before, splice_link, unlink};

/// A leaf: an array of `LEN` slots, 7 or 15, and the numbers of the leaves before and after it.
#[derive(Drop)]
pub struct LeafOf<K: Ord, V, const LEN: usize> {
    array: ArrayOf<K, V, LEN>,
    prev: Option<LeafId>,
    next: Option<LeafId>,
}

/// The leaf of fifteen slots.
pub type Leaf<K, V> = LeafOf<K, V, 15>;

impl<K: Ord + Drop, V: Drop, const LEN: usize> LeafOf<K, V, LEN> {
    ghost use Rattle.tree_leaf.specs.Lending.{lends_array};

    /// Creates a leaf with an empty array and no neighbours. Allocates nothing. The caller must
    /// choose 7 or 15 for `LEN`.
    pub fn new() -> Self
        requires { IsLen LEN }
        ensures array { result.array ≡ in_order [] }
        ensures prev { result.prev ≡ None }
        ensures next { result.next ≡ None }
    {
        Self::of(ArrayOf::new())
    }

    /// Creates a leaf with an array and no neighbours. Runs in constant time, and allocates
    /// nothing.
    pub fn of(array: ArrayOf<K, V, LEN>) -> Self
        ensures array { result.array ≡ array }
        ensures prev { result.prev ≡ None }
        ensures next { result.next ≡ None }
    {
        LeafOf {
            array,
            prev: None,
            next: None,
        }
    }

    /// Returns the array. Runs in constant time.
    pub fn array(&self) -> &ArrayOf<K, V, LEN>
        ensures { result.now ≡ self.now.array }
    {
        &self.array
    }

    /// Returns the array for writing; the links stay. Runs in constant time.
    pub fn array_mut(&mut self) -> &mut ArrayOf<K, V, LEN>
        ensures* lends { sem 𝓛 (lends_array K.row V.row V.row LEN.row K.cmp K.eq K.partial_cmp self.entry result) }
        ensures value { result.now ≡ self.old.array }
    {
        &mut self.array
    }

    /// Returns the number of the leaf before this one, if there is one.
    pub fn prev(&self) -> Option<LeafId>
        ensures { result ≡ self.now.prev }
    {
        self.prev
    }

    /// Returns the number of the leaf after this one, if there is one.
    pub fn next(&self) -> Option<LeafId>
        ensures { result ≡ self.now.next }
    {
        self.next
    }

    /// Returns the entry of a slot. Runs in constant time. The caller must name a reachable slot.
    pub fn entry(&self, slot: u8) -> (&K, &V)
        requires { IsSome (arrival self.now.array.arrivals slot) }
        ensures { arrival self.now.array.arrivals slot ≡ Some (result.0.now, result.1.now) }
    {
        (self.array.key(slot), self.array.val(slot))
    }
}
