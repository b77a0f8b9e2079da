//! The elements of a set, given by value.
ghost use Rattle.std.specs.Prelude.{◌≡◌, length};
ghost use Rattle.std.specs.Iterator.{at_most};
ghost use Rattle.std.specs.Map.Iter.{TakesFirst, TakesLast};

use crate::set::TreeSetOf;
use std::iter::FusedIterator;
use std::marker::Model;
use tree_index::{IndexKey, IntoIterOf as PairsOf};

/// The elements of a set by value, in ascending order, from both ends.
///
/// Contracts see the list of the elements that neither end has given yet. A move costs what
/// [`pop_first`](TreeSetOf::pop_first) does. Elements that are left are dropped with it.
pub struct IntoIterOf<K: IndexKey, const LEN: usize> {
    pairs: PairsOf<K, (), LEN>,
}

/// The elements of a set by value, with up to fifteen elements a leaf.
pub type IntoIter<K> = IntoIterOf<K, 15>;

// Written out for the reason that the drop of a tree is.
impl<K: IndexKey, const LEN: usize> Drop for IntoIterOf<K, LEN> {
    fn drop(self) {
        let IntoIterOf { pairs } = self;
        drop(pairs);
    }
}

impl<K: IndexKey, const LEN: usize> Model for IntoIterOf<K, LEN> {
    ghost use Rattle.std.specs.Prelude.{List};
    ghost use Rattle.tree_set.specs.Sets.{keys_of};

    ghost Value = { List K };

    ghost view = { λ a. keys_of a.pairs };
}

impl<K: IndexKey, const LEN: usize> Iterator for IntoIterOf<K, LEN> {
    type Item = K;

    ghost next_gives = { TakesFirst (λ element. element) };

    ghost remaining = { λ s. at_most (length s) };

    fn next(&mut self) -> Option<K> {
        let (element, _) = self.pairs.next()?;
        Some(element)
    }
}

impl<K: IndexKey, const LEN: usize> DoubleEndedIterator for IntoIterOf<K, LEN> {
    ghost next_back_gives = { TakesLast (λ element. element) };

    fn next_back(&mut self) -> Option<K> {
        let (element, _) = self.pairs.next_back()?;
        Some(element)
    }
}

impl<K: IndexKey, const LEN: usize> FusedIterator for IntoIterOf<K, LEN> {}

impl<K: IndexKey, const LEN: usize> IntoIterator for TreeSetOf<K, LEN> {
    type Item = K;

    type IntoIter = IntoIterOf<K, LEN>;

    ghost use Rattle.std.specs.Prelude.{◌≡◌};

    ghost into_iter_gives = { λ set elements. elements ≡ set };

    fn into_iter(self) -> IntoIterOf<K, LEN> {
        IntoIterOf {
            pairs: self.into_index().into_iter(),
        }
    }
}
