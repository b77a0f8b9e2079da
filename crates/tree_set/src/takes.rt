//! Removals that return the element.
ghost use Rattle.std.specs.Prelude.{◌≡◌};
ghost use Rattle.std.specs.Map.Iter.{TakesFirst, TakesLast};
ghost use Rattle.tree_set.specs.Sets.{element_at, without};

use crate::set::TreeSetOf;
use tree_index::IndexKey;

impl<K: IndexKey, const LEN: usize> TreeSetOf<K, LEN> {
    /// Removes the element that equals the given one and returns it, as it was stored, or `None` if
    /// there is none.
    ///
    /// Costs what [`take_sync`](tree_index::TreeIndexOf::take_sync) does: a descent, and one more
    /// if the element is the only one in its leaf. Allocates nothing.
    ///
    /// ```
    /// pub fn take_out(numbers: &mut TreeSet<u64>, number: u64) -> Option<u64>
    ///     ensures taken { result ≡ element_at nat_cmp numbers.old number }
    ///     ensures left { numbers.new ≡ without nat_cmp numbers.old number }
    /// {
    ///     numbers.take(&number)
    /// }
    /// ```
    pub fn take(&mut self, element: &K) -> Option<K>
        ensures taken { result ≡ element_at K.cmp self.old element.now }
        ensures left { self.new ≡ without K.cmp self.old element.now }
    {
        let (stored, _) = self.index.take_sync(element)?;
        Some(stored)
    }

    /// Removes the smallest element and returns it, or `None` if the set is empty.
    ///
    /// Costs what [`pop_first`](tree_index::TreeIndexOf::pop_first) does: two descents, and one
    /// more if the element is the only one in its leaf. Allocates nothing.
    ///
    /// ```
    /// pub fn take_smallest(numbers: &mut TreeSet<u64>) -> Option<u64>
    ///     ensures { TakesFirst (λ number. number) numbers.old result numbers.new }
    /// {
    ///     numbers.pop_first()
    /// }
    /// ```
    pub fn pop_first(&mut self) -> Option<K>
        ensures { TakesFirst (λ element. element) self.old result self.new }
    {
        let (element, _) = self.index.pop_first()?;
        Some(element)
    }

    /// Removes the largest element and returns it, or `None` if the set is empty. Costs what
    /// [`pop_first`](TreeSetOf::pop_first) does.
    ///
    /// ```
    /// pub fn take_largest(numbers: &mut TreeSet<u64>) -> Option<u64>
    ///     ensures { TakesLast (λ number. number) numbers.old result numbers.new }
    /// {
    ///     numbers.pop_last()
    /// }
    /// ```
    pub fn pop_last(&mut self) -> Option<K>
        ensures { TakesLast (λ element. element) self.old result self.new }
    {
        let (element, _) = self.index.pop_last()?;
        Some(element)
    }
}
