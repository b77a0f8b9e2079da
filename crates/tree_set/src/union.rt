//! The elements of either of two sets.
ghost use Rattle.std.specs.Iterator.{YieldsFirstRef, item_count};

use crate::ahead::Ahead;
use std::cmp::Ordering;
use std::iter::FusedIterator;
use std::marker::Model;
use tree_cursors::range::Ranged;
use tree_leaf::Walked;
use tree_leaf::leaf::LeafOf;
use tree_node::node::ArenasOf;

/// The elements of either of two sets, in ascending order. Of two equal ones it gives that of the
/// first set.
///
/// A move makes at most one comparison between the sets, and at most one move in each. Allocates
/// nothing.
#[derive(Drop)]
pub struct UnionOver<'t, K: Ord, A: Ranged<K, (), L>, L: Walked> {
    pub(crate) first: Ahead<'t, K, A, L>,
    pub(crate) second: Ahead<'t, K, A, L>,
}

/// The elements of either of two sets, with up to `LEN` elements a leaf.
pub type Union<'t, K, const LEN: usize> = UnionOver<
    't,
    K,
    ArenasOf<K, (), LEN>,
    LeafOf<K, (), LEN>,
>;

impl<'t, K: Ord, A: Ranged<K, (), L>, L: Walked> Model for UnionOver<'t, K, A, L> {
    ghost use Rattle.std.specs.Prelude.{List};
    ghost use Rattle.tree_set.specs.Merges.{union};

    ghost Value = { List K };

    ghost view = { λ a. union K.cmp a.first a.second };
}

impl<'t, K: Ord + Drop + 't, const LEN: usize> Iterator
    for UnionOver<'t, K, ArenasOf<K, (), LEN>, LeafOf<K, (), LEN>> {
    type Item = &'t K;

    ghost next_gives = { YieldsFirstRef (λ s. s) };

    ghost remaining = { item_count (λ s. s) };

    fn next(&mut self) -> Option<&'t K> {
        let Some(x) = self.first.peek() else {
            let y = self.second.peek();
            self.second.advance();
            return y;
        };
        let Some(y) = self.second.peek() else {
            self.first.advance();
            return Some(x);
        };
        match x.cmp(y) {
            Ordering::Less => {
                self.first.advance();
                Some(x)
            }
            Ordering::Equal => {
                self.first.advance();
                self.second.advance();
                Some(x)
            }
            Ordering::Greater => {
                self.second.advance();
                Some(y)
            }
        }
    }
}

impl<'t, K: Ord + Drop + 't, const LEN: usize> FusedIterator
    for UnionOver<'t, K, ArenasOf<K, (), LEN>, LeafOf<K, (), LEN>> {}
