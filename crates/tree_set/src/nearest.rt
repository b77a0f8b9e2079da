//! The elements at both ends of a set, and where an element is among the others.
ghost use Rattle.std.specs.Prelude.{◌≡◌};
ghost use Rattle.std.specs.Option.{option_copied};
ghost use Rattle.tree_leaf.specs.Walks.{first_of, last_of};
ghost use Rattle.tree_model.specs.Located.{located};
ghost use Rattle.tree_set.specs.Sets.{at_or_above, at_or_below, in_pairs};

use crate::set::TreeSetOf;
use tree_index::{IndexKey, ProximityOf};

impl<K: IndexKey, const LEN: usize> TreeSetOf<K, LEN> {
    /// Returns the smallest element, or `None` if the set is empty. Descends once, and makes no
    /// comparison.
    ///
    /// ```
    /// (set.first().copied(), set.last().copied())
    /// ```
    pub fn first(&self) -> Option<&K>
        ensures { option_copied result ≡ first_of self.now }
    {
        let (element, _) = self.index.first()?;
        Some(element)
    }

    /// Returns the largest element, or `None` if the set is empty. Descends once, and makes no
    /// comparison.
    ///
    /// ```
    /// (set.first().copied(), set.last().copied())
    /// ```
    pub fn last(&self) -> Option<&K>
        ensures { option_copied result ≡ last_of self.now }
    {
        let (element, _) = self.index.last()?;
        Some(element)
    }

    /// Returns the element that equals the given one, or else the next smaller one. Returns `None`
    /// if every element is larger. Costs what [`locate`](TreeSetOf::locate) does.
    ///
    /// ```
    /// pub fn nearest(numbers: &TreeSet<u64>, number: u64) -> (Option<&u64>, Option<&u64>)
    ///     ensures below { option_copied result.0 ≡ at_or_below nat_cmp numbers.now number }
    ///     ensures above { option_copied result.1 ≡ at_or_above nat_cmp numbers.now number }
    /// {
    ///     (numbers.at_or_below(&number), numbers.at_or_above(&number))
    /// }
    /// ```
    pub fn at_or_below(&self, element: &K) -> Option<&K>
        ensures { option_copied result ≡ at_or_below K.cmp self.now element.now }
    {
        let (nearest, _) = self.index.at_or_below(element)?;
        Some(nearest)
    }

    /// Returns the element that equals the given one, or else the next larger one. Returns `None`
    /// if every element is smaller. Costs what [`locate`](TreeSetOf::locate) does.
    ///
    /// ```
    /// pub fn nearest(numbers: &TreeSet<u64>, number: u64) -> (Option<&u64>, Option<&u64>)
    ///     ensures below { option_copied result.0 ≡ at_or_below nat_cmp numbers.now number }
    ///     ensures above { option_copied result.1 ≡ at_or_above nat_cmp numbers.now number }
    /// {
    ///     (numbers.at_or_below(&number), numbers.at_or_above(&number))
    /// }
    /// ```
    pub fn at_or_above(&self, element: &K) -> Option<&K>
        ensures { option_copied result ≡ at_or_above K.cmp self.now element.now }
    {
        let (nearest, _) = self.index.at_or_above(element)?;
        Some(nearest)
    }

    /// Returns where an element is: present, or next to which others, with a cursor of the set's
    /// index at that place. Its pairs are of an element and `()`.
    ///
    /// Descends once, or twice if every element is smaller. Makes at most `4 * (depth + 1) + 2`
    /// comparisons with 15 elements a leaf, and `3 * (depth + 1) + 2` with 7. Allocates nothing.
    ///
    /// ```
    /// let ProximityOf::Between(at) = numbers.locate(&number) else {
    ///     return None;
    /// };
    /// let ((below, _), (above, _)) = (at.get()?, at.get_back()?);
    /// Some((*below, *above))
    /// ```
    pub fn locate(&self, element: &K) -> ProximityOf<tree_index::IterOf<'_, K, (), LEN>>
        ensures { result ≡ located K.cmp (in_pairs self.now) element.now }
    {
        self.index.locate(element)
    }
}
