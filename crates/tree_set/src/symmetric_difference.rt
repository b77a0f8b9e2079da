//! The elements that one of two sets has and the other lacks.
ghost use Rattle.std.specs.Iterator.{YieldsFirstRef, item_count};
ghost use Rattle.tree_set.specs.Merges.{AreAscending, symmetric_difference};

use crate::ahead::{Ahead, AheadOf};
use std::cmp::Ordering;
use std::iter::FusedIterator;
use std::marker::Model;
use tree_cursors::range::Ranged;
use tree_leaf::Walked;
use tree_leaf::leaf::LeafOf;
use tree_node::node::ArenasOf;

/// The elements that one of two sets has and the other lacks, in ascending order.
///
/// A move makes at most one comparison between the sets for each element that it passes. Allocates
/// nothing.
#[derive(Drop)]
pub struct SymmetricDifferenceOver<'t, K: Ord, A: Ranged<K, (), L>, L: Walked> {
    pub(crate) first: Ahead<'t, K, A, L>,
    pub(crate) second: Ahead<'t, K, A, L>,
}

/// The elements that one of two sets has and the other lacks, with up to `LEN` elements a leaf.
pub type SymmetricDifference<'t, K, const LEN: usize> = SymmetricDifferenceOver<
    't,
    K,
    ArenasOf<K, (), LEN>,
    LeafOf<K, (), LEN>,
>;

impl<'t, K: Ord, A: Ranged<K, (), L>, L: Walked> Model for SymmetricDifferenceOver<'t, K, A, L> {
    ghost use Rattle.std.specs.Prelude.{List};
    ghost use Rattle.tree_set.specs.Merges.{AreAscending, symmetric_difference};

    ghost Value = { List K };

    ghost view = { λ a. symmetric_difference K.cmp a.first a.second };

    ghost invariant = { λ a. AreAscending K.cmp a.first a.second };
}

impl<'t, K: Ord + Drop + 't, const LEN: usize> Iterator
    for SymmetricDifferenceOver<'t, K, ArenasOf<K, (), LEN>, LeafOf<K, (), LEN>> {
    type Item = &'t K;

    ghost next_gives = { YieldsFirstRef (λ s. s) };

    ghost remaining = { item_count (λ s. s) };

    fn next(&mut self) -> Option<&'t K> {
        of_one(&mut self.first, &mut self.second)
    }
}

impl<'t, K: Ord + Drop + 't, const LEN: usize> FusedIterator
    for SymmetricDifferenceOver<'t, K, ArenasOf<K, (), LEN>, LeafOf<K, (), LEN>> {}

// Takes the first element that one has and the other lacks.
fn of_one<'t, K: Ord + Drop + 't, const LEN: usize>(
    first: &mut AheadOf<'t, K, LEN>,
    second: &mut AheadOf<'t, K, LEN>,
) -> Option<&'t K>
    requires { AreAscending K.cmp first.old second.old }
    ensures ascending { AreAscending K.cmp first.new second.new }
    ensures taken { YieldsFirstRef (λ s. s) (symmetric_difference K.cmp first.old second.old) result
        (symmetric_difference K.cmp first.new second.new) }
{
    loop {
        let Some(x) = first.peek() else {
            let y = second.peek();
            second.advance();
            return y;
        };
        let Some(y) = second.peek() else {
            first.advance();
            return Some(x);
        };
        match x.cmp(y) {
            Ordering::Less => {
                first.advance();
                return Some(x);
            }
            Ordering::Equal => {
                first.advance();
                second.advance();
            }
            Ordering::Greater => {
                second.advance();
                return Some(y);
            }
        }
    }
}
