//! Whether one set contains another, and whether two have an element in common.
ghost use Rattle.std.specs.Prelude.{◌≡◌, ◌↔◌, IsTrue};
ghost use Rattle.std.specs.List.{AllByRecursion};
ghost use Rattle.tree_set.specs.Merges.{AreDisjoint, IsSubset};
ghost use Rattle.tree_set.specs.Sets.{has};

use crate::set::TreeSetOf;
use tree_index::IndexKey;

// A set that is so many times smaller than another is looked up in it, element by element.
const FEW: usize = 16;

impl<K: IndexKey, const LEN: usize> TreeSetOf<K, LEN> {
    /// Returns whether the other set has each element of this one.
    ///
    /// Stops at the first one that it lacks. Goes through both sets once, as
    /// [`difference`](TreeSetOf::difference) does. If this set has less than a sixteenth of the
    /// other's elements, looks each up there instead. Allocates nothing.
    ///
    /// ```
    /// pub fn is_part(numbers: &TreeSet<u64>, others: &TreeSet<u64>) -> (bool, bool)
    ///     ensures subset { IsTrue result.0 ↔ IsSubset nat_cmp numbers.now others.now }
    ///     ensures superset { IsTrue result.1 ↔ IsSubset nat_cmp others.now numbers.now }
    /// {
    ///     (numbers.is_subset(others), numbers.is_superset(others))
    /// }
    /// ```
    pub fn is_subset(&self, other: &Self) -> bool
        ensures { IsTrue result ↔ IsSubset K.cmp self.now other.now }
    {
        if self.is_few_for(other) {
            return self.all_found(other, true);
        }
        self.difference(other).next().is_none()
    }

    /// Returns whether this set has each element of the other one. Costs what
    /// [`is_subset`](TreeSetOf::is_subset) of the other does.
    ///
    /// ```
    /// pub fn is_part(numbers: &TreeSet<u64>, others: &TreeSet<u64>) -> (bool, bool)
    ///     ensures subset { IsTrue result.0 ↔ IsSubset nat_cmp numbers.now others.now }
    ///     ensures superset { IsTrue result.1 ↔ IsSubset nat_cmp others.now numbers.now }
    /// {
    ///     (numbers.is_subset(others), numbers.is_superset(others))
    /// }
    /// ```
    pub fn is_superset(&self, other: &Self) -> bool
        ensures { IsTrue result ↔ IsSubset K.cmp other.now self.now }
    {
        other.is_subset(self)
    }

    /// Returns whether the two sets have no element in common.
    ///
    /// Stops at the first one that they have. Goes through both sets once, as
    /// [`intersection`](TreeSetOf::intersection) does. If one set has less than a sixteenth of the
    /// other's elements, looks each up there instead. Allocates nothing.
    ///
    /// ```
    /// pub fn are_apart(numbers: &TreeSet<u64>, others: &TreeSet<u64>) -> bool
    ///     ensures { IsTrue result ↔ AreDisjoint nat_cmp numbers.now others.now }
    /// {
    ///     numbers.is_disjoint(others)
    /// }
    /// ```
    pub fn is_disjoint(&self, other: &Self) -> bool
        ensures { IsTrue result ↔ AreDisjoint K.cmp self.now other.now }
    {
        if self.is_few_for(other) {
            return self.all_found(other, false);
        }
        if other.is_few_for(self) {
            return other.all_found(self, false);
        }
        self.intersection(other).next().is_none()
    }

    // Returns whether look-ups of the elements of this set in the other are fewer comparisons than
    // a walk through both.
    fn is_few_for(&self, other: &Self) -> bool {
        self.len() < other.len() / FEW
    }

    // Returns whether each element of this set is present in the other one, or absent there if
    // `found` is `false`. Looks each up until one differs.
    fn all_found(&self, other: &Self, found: bool) -> bool
        ensures { IsTrue result ↔ AllByRecursion (λ x. has K.cmp other.now x ≡ found) self.now }
    {
        for element in self {
            if other.contains(element) != found {
                return false;
            }
        }
        true
    }
}
