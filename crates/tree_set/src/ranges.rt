//! Ranges of a set.
ghost use Rattle.std.specs.Prelude.{◌≡◌, MatchOption, filter};
ghost use Rattle.std.specs.List.{AllByRecursion};
ghost use Rattle.std.specs.declared.ops.Bound.TheVariants.{Excluded, Unbounded};
ghost use Rattle.tree_model.specs.Pairs.{lent_bound, meets_lower, meets_upper, within};
ghost use Rattle.tree_set.specs.Sets.{cut};

use crate::range::{RangeOf, RangeOver};
use crate::set::TreeSetOf;
use std::ops::{Bound, RangeBounds};
use tree_index::IndexKey;

impl<K: IndexKey, const LEN: usize> TreeSetOf<K, LEN> {
    /// Returns the elements within a range in ascending order, from both ends. A range that
    /// contains no element, a reversed one among them, gives none.
    ///
    /// Costs what [`locate`](TreeSetOf::locate) does for each bound, or twice that for one beyond
    /// all elements. The moves cost what those of [`iter`](TreeSetOf::iter) do, and one comparison
    /// more. Allocates nothing.
    ///
    /// ```
    /// pub fn first_within(numbers: &TreeSet<u64>, low: u64, high: u64) -> Option<&u64>
    ///     ensures { option_copied result ≡
    ///         first_of (filter (within nat_cmp (Included low) (Excluded high)) numbers.now) }
    /// {
    ///     numbers.range(low..high).next()
    /// }
    /// ```
    pub fn range<R: RangeBounds<K>>(&self, bounds: R) -> RangeOf<'_, K, LEN>
        ensures { R.has_bounds bounds
            → result ≡ filter (within K.cmp (R.start_bound bounds) (R.end_bound bounds)) self.now }
    {
        let low = self.low_at(bounds.start_bound());
        let high = self.high_at(bounds.end_bound());
        RangeOver::new(self.index.range((low, high)))
    }

    /// Removes every element within a range. A range that contains no element, a reversed one among
    /// them, removes nothing.
    ///
    /// Drops the parts of the tree between the bounds whole, and makes comparisons only at the two
    /// ends of the range, as
    /// [`remove_range_sync`](tree_index::TreeIndexOf::remove_range_sync) does. Allocates nothing.
    ///
    /// ```
    /// pub fn cut_out(numbers: &mut TreeSet<u64>, low: u64, high: u64)
    ///     ensures { numbers.new ≡ cut nat_cmp numbers.old (Included low) (Excluded high) }
    /// {
    ///     numbers.remove_range(low..high);
    /// }
    /// ```
    pub fn remove_range<R: RangeBounds<K>>(&mut self, bounds: R)
        ensures { R.has_bounds bounds
            → self.new ≡ cut K.cmp self.old (R.start_bound bounds) (R.end_bound bounds) }
    {
        self.index
            .remove_range_sync((bounds.start_bound(), bounds.end_bound()));
    }

    // Returns a lower bound at an element of the set, which the same elements meet.
    fn low_at(&self, low: Bound<&K>) -> Bound<&K>
        ensures { AllByRecursion
            (λ x. meets_lower K.cmp (lent_bound result) x ≡ meets_lower K.cmp (lent_bound low.entry) x) self.now }
    {
        self.elements_ascend();
        match low {
            Bound::Included(element) => match self.at_or_above(element) {
                Some(first) => Bound::Included(first),
                None => beyond(self.at_or_below(element)),
            },
            Bound::Excluded(element) => beyond(self.at_or_below(element)),
            Bound::Unbounded => Bound::Unbounded,
        }
    }

    // Returns an upper bound at an element of the set, which the same elements meet.
    fn high_at(&self, high: Bound<&K>) -> Bound<&K>
        ensures { AllByRecursion
            (λ x. meets_upper K.cmp (lent_bound result) x ≡ meets_upper K.cmp (lent_bound high.entry) x) self.now }
    {
        self.elements_ascend();
        match high {
            Bound::Included(element) => match self.at_or_below(element) {
                Some(last) => Bound::Included(last),
                None => beyond(self.at_or_above(element)),
            },
            Bound::Excluded(element) => beyond(self.at_or_above(element)),
            Bound::Unbounded => Bound::Unbounded,
        }
    }
}

// Returns the bound that excludes an element, or an open one if there is none.
fn beyond<K>(element: Option<&K>) -> Bound<&K>
    ensures { MatchOption element.entry (lent_bound result ≡ Unbounded)
        (λ x. lent_bound result ≡ Excluded x.now) }
{
    match element {
        Some(element) => Bound::Excluded(element),
        None => Bound::Unbounded,
    }
}
