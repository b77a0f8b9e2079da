//! The pairs of an index, given by value.
ghost use Rattle.std.specs.Prelude.{◌≡◌, length};
ghost use Rattle.std.specs.Iterator.{at_most};
ghost use Rattle.std.specs.Map.Iter.{TakesFirst, TakesLast};

use crate::index::TreeIndexOf;
use std::iter::FusedIterator;
use std::marker::Model;
use tree_array::array::IndexKey;

/// The pairs of an index by value, in ascending order of their keys, from both ends.
///
/// Contracts see the list of the pairs that neither end has given yet. A move costs what
/// [`pop_first`](TreeIndexOf::pop_first) does. Pairs that are left are dropped with it.
pub struct IntoIterOf<K: IndexKey, V: Drop, const LEN: usize> {
    index: TreeIndexOf<K, V, LEN>,
}

/// The pairs of an index by value, with up to fifteen pairs a leaf.
pub type IntoIter<K, V> = IntoIterOf<K, V, 15>;

// Written out for the reason that the drop of `Tree` in `tree_root` is.
impl<K: IndexKey, V: Drop, const LEN: usize> Drop for IntoIterOf<K, V, LEN> {
    fn drop(self) {
        let IntoIterOf { index } = self;
        drop(index);
    }
}

impl<K: IndexKey, V: Drop, const LEN: usize> Model for IntoIterOf<K, V, LEN> {
    ghost use Rattle.std.specs.Prelude.{List};

    ghost Value = { List (K × V) };

    ghost view = { λ a. a.index.pairs };
}

impl<K: IndexKey, V: Drop, const LEN: usize> Iterator for IntoIterOf<K, V, LEN> {
    type Item = (K, V);

    ghost next_gives = { TakesFirst (λ pair. pair) };

    ghost remaining = { λ s. at_most (length s) };

    fn next(&mut self) -> Option<(K, V)> {
        self.index.pop_first()
    }
}

impl<K: IndexKey, V: Drop, const LEN: usize> DoubleEndedIterator for IntoIterOf<K, V, LEN> {
    ghost next_back_gives = { TakesLast (λ pair. pair) };

    fn next_back(&mut self) -> Option<(K, V)> {
        self.index.pop_last()
    }
}

impl<K: IndexKey, V: Drop, const LEN: usize> FusedIterator for IntoIterOf<K, V, LEN> {}

impl<K: IndexKey, V: Drop, const LEN: usize> IntoIterator for TreeIndexOf<K, V, LEN> {
    type Item = (K, V);

    type IntoIter = IntoIterOf<K, V, LEN>;

    ghost use Rattle.std.specs.Prelude.{◌≡◌};

    ghost into_iter_gives = { λ index pairs. pairs ≡ index.pairs };

    fn into_iter(self) -> IntoIterOf<K, V, LEN> {
        IntoIterOf { index: self }
    }
}
