//! The set.
ghost use Rattle.std.specs.Prelude.{◌≡◌, ◌↔◌, IsTrue, ◌^◌, ◌-◌, ◌&&◌, ◌||◌, min, not, [], length};
ghost use Rattle.std.specs.Option.{option_copied};
ghost use Rattle.tree_array.specs.Length.{IsLen};
ghost use Rattle.tree_set.specs.Merges.{difference, intersection, symmetric_difference, union};
ghost use Rattle.tree_set.specs.Sets.{Inserts, IsAscending, element_at, has, keys_of, without};

use crate::ahead::{Ahead, AheadOf};
use crate::difference::{Difference, DifferenceOver};
use crate::intersection::{Intersection, IntersectionOver};
use crate::symmetric_difference::{SymmetricDifference, SymmetricDifferenceOver};
use crate::union::{Union, UnionOver};
use std::alloc::Global;
use std::fmt;
use std::marker::Model;
use tree_index::{IndexKey, InsertError, KeysOf, TreeIndexOf};

/// An ordered set with up to fifteen elements a leaf. See [`TreeSetOf`].
pub type TreeSet<K> = TreeSetOf<K, 15>;

/// An ordered set with up to seven elements a leaf. See [`TreeSetOf`].
pub type SmallTreeSet<K> = TreeSetOf<K, 7>;

/// The elements of a set, from both ends, with up to `LEN` elements a leaf.
pub type IterOf<'t, K, const LEN: usize> = KeysOf<'t, K, (), LEN>;

/// The elements of a set, from both ends, with up to fifteen elements a leaf.
pub type Iter<'t, K> = IterOf<'t, K, 15>;

/// An ordered set: the keys of an index whose values are `()`. `LEN` is 7 or 15.
///
/// Contracts see the list of its elements, strictly ascending.
///
/// Costs are in terms of the index's depth, as those of [`TreeIndexOf`] are.
pub struct TreeSetOf<K: IndexKey, const LEN: usize> {
    pub(crate) index: TreeIndexOf<K, (), LEN>,
}

// Written out for the reason that the drop of a tree is.
impl<K: IndexKey, const LEN: usize> Drop for TreeSetOf<K, LEN> {
    fn drop(self) {
        let TreeSetOf { index } = self;
        drop(index);
    }
}

impl<K: IndexKey, const LEN: usize> Model for TreeSetOf<K, LEN> {
    ghost use Rattle.std.specs.Prelude.{List};
    ghost use Rattle.tree_set.specs.Sets.{keys_of};

    ghost Value = { List K };

    ghost view = { λ a. keys_of a.index.pairs };
}

impl<K: IndexKey, const LEN: usize> TreeSetOf<K, LEN> {
    /// Creates an empty set. Allocates nothing. The caller must choose 7 or 15 for `LEN`.
    ///
    /// ```
    /// let mut set: TreeSet<u64> = TreeSetOf::new(alloc);
    /// insert_all(&mut set, &[3, 1, 2, 3, 7, 9])?;
    /// ```
    pub fn new(alloc: Global) -> Self
        requires { IsLen LEN }
        ensures { result ≡ [] }
    {
        TreeSetOf {
            index: TreeIndexOf::new(alloc),
        }
    }

    /// Stores an element, unless an equal one is present, which stays as it was. Returns whether
    /// the element is new.
    ///
    /// Returns `Err` with the element if it is new and an allocation is refused. The set is then as
    /// it was. Costs what [`insert_sync`](TreeIndexOf::insert_sync) does: a descent, and where the
    /// leaf is full a second one at most.
    ///
    /// ```
    /// pub fn invite(invited: &mut TreeSet<u64>, guest: u64) -> Result<bool, u64>
    ///     ensures { Inserts nat_cmp invited.old guest result invited.new }
    /// {
    ///     invited.insert(guest)
    /// }
    /// ```
    pub fn insert(&mut self, element: K) -> Result<bool, K>
        ensures { Inserts K.cmp self.old element result self.new }
    {
        match self.index.insert_sync(element, ()) {
            Ok(()) => Ok(true),
            Err(InsertError::Duplicate(_, _)) => Ok(false),
            Err(InsertError::OutOfMemory(element, _)) => Err(element),
        }
    }

    /// Removes an element. Returns whether it was present.
    ///
    /// Costs what [`remove_sync`](TreeIndexOf::remove_sync) does: a descent. Allocates nothing.
    ///
    /// ```
    /// insert_all(&mut set, &[3, 1, 2, 3, 7, 9])?;
    ///
    /// assert!(rt; set.remove(&2) && !set.remove(&2));
    /// ```
    pub fn remove(&mut self, element: &K) -> bool
        ensures answer { result ≡ has K.cmp self.old element.now }
        ensures left { self.new ≡ without K.cmp self.old element.now }
    {
        self.index.remove_sync(element)
    }

    /// Removes all elements. Drops each once. Allocates nothing, and keeps the memory of the tree
    /// for later inserts.
    ///
    /// ```
    /// set.clear();
    /// fill(&mut set, *count)?;
    /// ```
    pub fn clear(&mut self)
        ensures { self.new ≡ [] }
    {
        self.index.clear();
    }

    /// Returns the element that equals the given one, as it is stored.
    ///
    /// Makes at most `4 * (depth + 1)` comparisons with 15 elements a leaf, and `3 * (depth + 1)`
    /// with 7. Allocates nothing.
    ///
    /// ```
    /// pub fn invitation(invited: &TreeSet<u64>, guest: u64) -> Option<&u64>
    ///     ensures { option_copied result ≡ element_at nat_cmp invited.now guest }
    /// {
    ///     invited.get(&guest)
    /// }
    /// ```
    pub fn get(&self, element: &K) -> Option<&K>
        ensures found { option_copied result ≡ element_at K.cmp self.now element.now }
        ensures ascending { IsAscending K.cmp self.now }
    {
        let (found, _) = self.index.peek_entry(element)?;
        Some(found)
    }

    /// Returns whether an element is present. Costs what [`get`](TreeSetOf::get) does.
    ///
    /// ```
    /// (set.len() as u64, set.is_empty(), set.contains(&count)) == (count, count == 0, false)
    ///     && (count == 0 || set.contains(&(count - 1)))
    /// ```
    pub fn contains(&self, element: &K) -> bool
        ensures { result ≡ has K.cmp self.now element.now }
    {
        self.index.contains(element)
    }

    /// Returns the number of elements, or `usize::MAX` if there are more. Runs in constant time.
    ///
    /// ```
    /// (set.len() as u64, set.is_empty(), set.contains(&count)) == (count, count == 0, false)
    /// ```
    pub fn len(&self) -> usize
        ensures { result ≡ min (length self.now) (2 ^ 64 - 1) }
    {
        self.index.len()
    }

    /// Returns whether the set is empty. Runs in constant time.
    ///
    /// ```
    /// (set.len() as u64, set.is_empty(), set.contains(&count)) == (count, count == 0, false)
    /// ```
    pub fn is_empty(&self) -> bool
        ensures { IsTrue result ↔ (self.now ≡ []) }
    {
        self.index.is_empty()
    }

    /// Lends the index whose keys are the elements. Runs in constant time.
    ///
    /// So what takes an index takes a set too, as `contains_each` of `tree_batches`.
    ///
    /// ```
    /// contains_each(numbers.as_index(), others).next()
    /// ```
    pub fn as_index(&self) -> &TreeIndexOf<K, (), LEN>
        ensures { keys_of result.now.pairs ≡ self.now }
    {
        &self.index
    }

    /// Returns the elements in ascending order, from both ends. Runs in constant time.
    ///
    /// The first move of an end descends once. Each move after it reads the next element of its
    /// leaf, or follows links up to the next leaf with an element, and makes at most one
    /// comparison. Allocates nothing.
    ///
    /// ```
    /// for element in set {
    ///     if *element != next {
    ///         return false;
    ///     }
    ///     next = next.wrapping_add(1);
    /// }
    /// ```
    pub fn iter(&self) -> IterOf<'_, K, LEN>
        ensures { result ≡ self.now }
    {
        self.index.keys()
    }

    /// Returns the elements that this set or the other has, in ascending order. Of two equal ones
    /// it gives this set's.
    ///
    /// Descends once in each set. A move makes at most one comparison between the sets, and at most
    /// one move in each. Allocates nothing.
    ///
    /// ```
    /// for digit in first.union(second) {
    ///     digits = digits.wrapping_mul(10).wrapping_add(*digit);
    /// }
    /// ```
    pub fn union<'t>(&'t self, other: &'t Self) -> Union<'t, K, LEN>
        ensures merged { result ≡ union K.cmp self.now other.now }
        ensures elements { (k : K) → has K.cmp result k ≡ (has K.cmp self.now k || has K.cmp other.now k) }
        ensures ascending { IsAscending K.cmp result }
    {
        let (first, second) = self.both_ahead(other);
        UnionOver { first, second }
    }

    /// Returns the elements of this set that the other has too, in ascending order.
    ///
    /// Descends once in each set. A move makes at most one comparison between the sets for each
    /// element that it passes in either. Allocates nothing.
    ///
    /// ```
    /// for digit in first.intersection(second) {
    ///     digits = digits.wrapping_mul(10).wrapping_add(*digit);
    /// }
    /// ```
    pub fn intersection<'t>(&'t self, other: &'t Self) -> Intersection<'t, K, LEN>
        ensures common { result ≡ intersection K.cmp self.now other.now }
        ensures elements { (k : K) → has K.cmp result k ≡ (has K.cmp self.now k && has K.cmp other.now k) }
        ensures ascending { IsAscending K.cmp result }
    {
        let (first, second) = self.both_ahead(other);
        IntersectionOver { first, second }
    }

    /// Returns the elements of this set that the other lacks, in ascending order. Costs what
    /// [`intersection`](TreeSetOf::intersection) does.
    ///
    /// ```
    /// invited.difference(answered).next().copied()
    /// ```
    pub fn difference<'t>(&'t self, other: &'t Self) -> Difference<'t, K, LEN>
        ensures alone { result ≡ difference K.cmp self.now other.now }
        ensures elements { (k : K) → has K.cmp result k ≡ (has K.cmp self.now k && not (has K.cmp other.now k)) }
        ensures ascending { IsAscending K.cmp result }
    {
        let (first, second) = self.both_ahead(other);
        DifferenceOver { first, second }
    }

    /// Returns the elements that one of the two sets has and the other lacks, in ascending order.
    /// Costs what [`intersection`](TreeSetOf::intersection) does.
    ///
    /// ```
    /// for digit in first.symmetric_difference(second) {
    ///     digits = digits.wrapping_mul(10).wrapping_add(*digit);
    /// }
    /// ```
    pub fn symmetric_difference<'t>(&'t self, other: &'t Self) -> SymmetricDifference<'t, K, LEN>
        ensures apart { result ≡ symmetric_difference K.cmp self.now other.now }
        ensures elements { (k : K)
            → has K.cmp result k ≡ ((has K.cmp self.now k && not (has K.cmp other.now k))
            || (has K.cmp other.now k && not (has K.cmp self.now k))) }
        ensures ascending { IsAscending K.cmp result }
    {
        let (first, second) = self.both_ahead(other);
        SymmetricDifferenceOver { first, second }
    }

    // Returns the index whose keys are the elements, by value.
    pub(crate) fn into_index(self) -> TreeIndexOf<K, (), LEN>
        ensures { keys_of result.pairs ≡ self }
    {
        let TreeSetOf { index } = self;
        index
    }

    // Does nothing. A law: the elements ascend.
    #[inline(always)]
    pub(crate) fn elements_ascend(&self)
        ensures { IsAscending K.cmp self.now }
    {
        // Whatever a cursor shows, its pairs ascend.
        let _ = self.index.iter().get();
    }

    // Returns the elements of this set, with the first one taken.
    fn ahead(&self) -> AheadOf<'_, K, LEN>
        ensures same { result ≡ self.now }
        ensures ascending { IsAscending K.cmp self.now }
    {
        self.elements_ascend();
        Ahead::new(self.iter())
    }

    // Returns the elements of this set and of another, each with its first one taken.
    fn both_ahead<'t>(&'t self, other: &'t Self) -> (AheadOf<'t, K, LEN>, AheadOf<'t, K, LEN>)
        ensures first { (result.0 ≡ self.now) × IsAscending K.cmp self.now }
        ensures second { (result.1 ≡ other.now) × IsAscending K.cmp other.now }
    {
        (self.ahead(), other.ahead())
    }
}

impl<'t, K: IndexKey, const LEN: usize> IntoIterator for &'t TreeSetOf<K, LEN> {
    type Item = &'t K;

    type IntoIter = IterOf<'t, K, LEN>;

    ghost use Rattle.std.specs.Prelude.{◌≡◌};

    ghost into_iter_gives = { λ set elements. elements ≡ set.now };

    fn into_iter(self) -> IterOf<'t, K, LEN> {
        self.iter()
    }
}

impl<K: IndexKey + fmt::Debug, const LEN: usize> fmt::Debug for TreeSetOf<K, LEN> {
    fn fmt<W: fmt::Write>(&self, f: &mut fmt::Formatter<W>) -> fmt::Result {
        let mut set = f.debug_set();
        let mut elements = self.iter();
        while let Some(element) = elements.next() {
            set.entry(element);
        }
        set.finish()
    }
}
