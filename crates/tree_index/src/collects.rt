//! Pairs of an iterator or of a vector, stored one after another.
ghost use Rattle.std.specs.Prelude.{◌≡◌, ◌↔◌, IsTrue, []};
ghost use Rattle.std.specs.Iterator.{IsFinite};
ghost use Rattle.tree_index.specs.Collects.{BuildsSorted, PutsPairs, puts};
ghost use Rattle.tree_array.specs.Length.{IsLen};
ghost use Rattle.tree_model.specs.Pairs.{IsAscending};

use crate::index::TreeIndexOf;
use std::alloc::{AllocError, Global};
use std::error::Error;
use std::fmt;
use std::iter::{Extend, FromIterator};
use tree_array::array::IndexKey;
use tree_root::Tree;

/// The error of [`from_sorted`](TreeIndexOf::from_sorted).
#[derive(Debug, Drop)]
pub enum FromSortedError<K, V> {
    /// A key isn't larger than the one before it. These are the pairs, as they were passed.
    NotAscending(Vec<(K, V)>),
    /// An allocation failed.
    OutOfMemory,
}

impl<K, V> fmt::Display for FromSortedError<K, V> {
    fn fmt<W: fmt::Write>(&self, f: &mut fmt::Formatter<W>) -> fmt::Result {
        match self {
            FromSortedError::NotAscending(_) => write!(f, "the keys are not in ascending order"),
            FromSortedError::OutOfMemory => write!(f, "out of memory"),
        }
    }
}

impl<K: fmt::Debug + Drop, V: fmt::Debug + Drop> Error for FromSortedError<K, V> {}

impl<K: IndexKey, V: Drop, const LEN: usize> TreeIndexOf<K, V, LEN> {
    /// Stores each pair of an iterator. A pair with an equal key is replaced, so of pairs with
    /// equal keys the last one stays.
    ///
    /// Returns `Err` with the first pair for which an allocation fails, and takes no pair after it.
    /// The pairs before it stay stored. Costs what [`upsert_sync`](TreeIndexOf::upsert_sync) does
    /// for each pair. The iterator must end.
    ///
    /// ```
    /// match self.try_extend(pairs) {
    ///     Ok(()) => Ok(()),
    ///     Err(_) => Err(AllocError),
    /// }
    /// ```
    pub fn try_extend<U: IntoIterator<Item = (K, V)>>(&mut self, pairs: U) -> Result<(), (K, V)>
        requires { (it : U.IntoIter) → U.into_iter_gives pairs it
            → U.IntoIter.can_next it × IsFinite (U.IntoIter.remaining it) }
        ensures { PutsPairs K.cmp U.into_iter_gives U.IntoIter.next_gives pairs self.old self.new result }
    {
        let mut pairs = pairs.into_iter();
        while let Some(pair) = pairs.next() {
            let (key, value) = pair;
            self.upsert_sync(key, value)?;
        }
        Ok(())
    }

    /// Returns an index of pairs whose keys ascend.
    ///
    /// Returns `NotAscending` with the pairs if a key isn't larger than the one before it. Returns
    /// `OutOfMemory` if an allocation fails. Nothing of the index is left then, and the pairs are
    /// dropped.
    ///
    /// Compares each key with the one before it. Gathers the pairs into whole leaves. Makes a few
    /// comparisons per leaf, and those of a descent per full leaf node. Reserves memory for as many
    /// leaves. The caller must choose 7 or 15 for `LEN`.
    ///
    /// ```
    /// TreeIndex::from_sorted(alloc, samples)
    /// ```
    pub fn from_sorted(alloc: Global, pairs: Vec<(K, V)>) -> Result<Self, FromSortedError<K, V>>
        requires { IsLen LEN }
        ensures { BuildsSorted K.cmp pairs.items result }
    {
        if !are_ascending(pairs.as_slice()) {
            return Err(FromSortedError::NotAscending(pairs));
        }
        let len = pairs.len() as u128;
        match Tree::from_sorted(alloc, pairs) {
            Ok(tree) => Ok(TreeIndexOf { tree, len, alloc }),
            Err(_) => Err(FromSortedError::OutOfMemory),
        }
    }
}

// Returns whether each key is larger than the one before it.
fn are_ascending<K: Ord, V>(pairs: &[(K, V)]) -> bool
    ensures { IsTrue result ↔ IsAscending K.cmp pairs.now }
{
    let mut rest = pairs;
    while let [pair, next, ..] = rest {
        if pair.0.cmp(&next.0).is_ge() {
            return false;
        }
        rest = &rest[1..];
    }
    true
}

/// Stores each pair as [`try_extend`](TreeIndexOf::try_extend) does, and drops a pair
/// for which an allocation fails.
impl<K: IndexKey, V: Drop, const LEN: usize> Extend<(K, V)> for TreeIndexOf<K, V, LEN> {
    ghost extend_gives = { λ old pairs new. new.pairs ≡ puts K.cmp old.pairs pairs };

    fn extend<U: IntoIterator<Item = (K, V)>>(&mut self, pairs: U) -> Result<(), AllocError> {
        match self.try_extend(pairs) {
            Ok(()) => Ok(()),
            Err(_) => Err(AllocError),
        }
    }
}

/// Collects pairs into an index. Of pairs with equal keys the last one stays. If an allocation
/// fails, nothing of the index is left.
impl<K: IndexKey, V: Drop, const LEN: usize> FromIterator<(K, V)> for TreeIndexOf<K, V, LEN> {
    type Alloc = Global;

    ghost can_from_iter = { λ _. IsLen LEN };

    ghost from_iter_gives = { λ pairs index. index.pairs ≡ puts K.cmp [] pairs };

    fn from_iter<U: IntoIterator<Item = (K, V)>>(
        alloc: Global,
        pairs: U,
    ) -> Result<Self, AllocError> {
        let pairs = pairs.into_iter();
        let mut index = TreeIndexOf::new(alloc);
        index.extend(pairs)?;
        Ok(index)
    }
}
