//! Elements of an iterator or of a vector, inserted one after another.
ghost use Rattle.std.specs.Prelude.{◌≡◌, ◌↔◌, IfOk, IsTrue, []};
ghost use Rattle.std.specs.Iterator.{IsFinite};
ghost use Rattle.tree_array.specs.Length.{IsLen};
ghost use Rattle.tree_set.specs.Collects.{AddsElements, BuildsSorted, added_each};
ghost use Rattle.tree_set.specs.Sets.{IsAscending, in_pairs};

use crate::set::TreeSetOf;
use std::alloc::{AllocError, Global};
use std::error::Error;
use std::fmt;
use std::iter::{Extend, FromIterator};
use tree_index::{IndexKey, TreeIndexOf};

/// The error of [`from_sorted`](TreeSetOf::from_sorted).
#[derive(Debug, Drop)]
pub enum FromSortedError<K> {
    /// An element isn't larger than the one before it. These are the elements, as they were passed.
    NotAscending(Vec<K>),
    /// An allocation failed.
    OutOfMemory,
}

impl<K> fmt::Display for FromSortedError<K> {
    fn fmt<W: fmt::Write>(&self, f: &mut fmt::Formatter<W>) -> fmt::Result {
        match self {
            FromSortedError::NotAscending(_) => {
                write!(f, "the elements are not in ascending order")
            }
            FromSortedError::OutOfMemory => write!(f, "out of memory"),
        }
    }
}

impl<K: fmt::Debug + Drop> Error for FromSortedError<K> {}

impl<K: IndexKey, const LEN: usize> TreeSetOf<K, LEN> {
    /// Inserts each element of an iterator. One that equals a stored element is dropped, so of
    /// equal elements the first one stays.
    ///
    /// Returns `Err` with the first element for which an allocation fails, and takes no element
    /// after it. The elements before it stay stored. Costs what [`insert`](TreeSetOf::insert) does
    /// for each element. The iterator must end.
    ///
    /// ```
    /// pub fn add_each(numbers: &mut TreeSet<u64>, more: Vec<u64>) -> Result<(), u64> {
    ///     numbers.try_extend(more)
    /// }
    /// ```
    pub fn try_extend<U: IntoIterator<Item = K>>(&mut self, elements: U) -> Result<(), K>
        requires { (it : U.IntoIter) → U.into_iter_gives elements it
            → U.IntoIter.can_next it × IsFinite (U.IntoIter.remaining it) }
        ensures { AddsElements K.cmp U.into_iter_gives U.IntoIter.next_gives elements self.old self.new result }
    {
        let mut elements = elements.into_iter();
        while let Some(element) = elements.next() {
            self.insert(element)?;
        }
        Ok(())
    }

    /// Returns a set of elements that ascend.
    ///
    /// Returns `NotAscending` with the elements if one isn't larger than the one before it. Returns
    /// `OutOfMemory` if an allocation fails. Nothing of the set is left then, and the elements are
    /// dropped.
    ///
    /// Compares each element twice with the one before it. Then costs what
    /// [`from_sorted`](TreeIndexOf::from_sorted) of an index does, and a vector that the elements
    /// move through. The caller must choose 7 or 15 for `LEN`.
    ///
    /// ```
    /// pub fn sorted(alloc: Global, list: Vec<u64>) -> Result<TreeSet<u64>, FromSortedError<u64>>
    ///     ensures { BuildsSorted nat_cmp list.items result }
    /// {
    ///     TreeSetOf::from_sorted(alloc, list)
    /// }
    /// ```
    pub fn from_sorted(alloc: Global, elements: Vec<K>) -> Result<Self, FromSortedError<K>>
        requires { IsLen LEN }
        ensures { BuildsSorted K.cmp elements.items result }
    {
        if !are_ascending(elements.as_slice()) {
            return Err(FromSortedError::NotAscending(elements));
        }
        let Ok(pairs) = in_pairs(alloc, elements) else {
            return Err(FromSortedError::OutOfMemory);
        };
        match TreeIndexOf::from_sorted(alloc, pairs) {
            Ok(index) => Ok(TreeSetOf { index }),
            Err(_) => Err(FromSortedError::OutOfMemory),
        }
    }
}

// Returns whether each element is larger than the one before it.
fn are_ascending<K: Ord>(elements: &[K]) -> bool
    ensures { IsTrue result ↔ IsAscending K.cmp elements.now }
{
    elements.is_sorted_by(|element, next| element.cmp(next).is_lt())
}

// Returns each element with `()`.
fn in_pairs<K: Drop>(alloc: Global, elements: Vec<K>) -> Result<Vec<(K, ())>, AllocError>
    ensures { IfOk result (λ pairs. pairs.items ≡ in_pairs elements.items) }
{
    elements
        .into_iter()
        .map(|element| (element, ()))
        .collect(alloc)
}

/// Inserts each element as [`try_extend`](TreeSetOf::try_extend) does, and drops an element for
/// which an allocation fails.
impl<K: IndexKey, const LEN: usize> Extend<K> for TreeSetOf<K, LEN> {
    ghost extend_gives = { λ old elements new. new ≡ added_each K.cmp old elements };

    fn extend<U: IntoIterator<Item = K>>(&mut self, elements: U) -> Result<(), AllocError> {
        match self.try_extend(elements) {
            Ok(()) => Ok(()),
            Err(_) => Err(AllocError),
        }
    }
}

/// Collects elements into a set. Of equal elements the first one stays. If an allocation fails,
/// nothing of the set is left.
impl<K: IndexKey, const LEN: usize> FromIterator<K> for TreeSetOf<K, LEN> {
    type Alloc = Global;

    ghost can_from_iter = { λ _. IsLen LEN };

    ghost from_iter_gives = { λ elements set. set ≡ added_each K.cmp [] elements };

    fn from_iter<U: IntoIterator<Item = K>>(
        alloc: Global,
        elements: U,
    ) -> Result<Self, AllocError> {
        let elements = elements.into_iter();
        let mut set = TreeSetOf::new(alloc);
        set.extend(elements)?;
        Ok(set)
    }
}
