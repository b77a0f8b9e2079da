//! The elements that two sets have in common.
ghost use Rattle.std.specs.Iterator.{YieldsFirstRef, item_count};
ghost use Rattle.tree_set.specs.Merges.{AreAscending, intersection};

use crate::ahead::{Ahead, AheadOf};
use std::cmp::Ordering;
use std::iter::FusedIterator;
use std::marker::Model;
use tree_cursors::range::Ranged;
use tree_leaf::Walked;
use tree_leaf::leaf::LeafOf;
use tree_node::node::ArenasOf;

/// The elements of the first of two sets that the second has too, in ascending order.
///
/// A move makes at most one comparison between the sets for each element that it passes. Allocates
/// nothing.
#[derive(Drop)]
pub struct IntersectionOver<'t, K: Ord, A: Ranged<K, (), L>, L: Walked> {
    pub(crate) first: Ahead<'t, K, A, L>,
    pub(crate) second: Ahead<'t, K, A, L>,
}

/// The elements that two sets have in common, with up to `LEN` elements a leaf.
pub type Intersection<'t, K, const LEN: usize> = IntersectionOver<
    't,
    K,
    ArenasOf<K, (), LEN>,
    LeafOf<K, (), LEN>,
>;

impl<'t, K: Ord, A: Ranged<K, (), L>, L: Walked> Model for IntersectionOver<'t, K, A, L> {
    ghost use Rattle.std.specs.Prelude.{List};
    ghost use Rattle.tree_set.specs.Merges.{AreAscending, intersection};

    ghost Value = { List K };

    ghost view = { λ a. intersection K.cmp a.first a.second };

    ghost invariant = { λ a. AreAscending K.cmp a.first a.second };
}

impl<'t, K: Ord + Drop + 't, const LEN: usize> Iterator
    for IntersectionOver<'t, K, ArenasOf<K, (), LEN>, LeafOf<K, (), LEN>> {
    type Item = &'t K;

    ghost next_gives = { YieldsFirstRef (λ s. s) };

    ghost remaining = { item_count (λ s. s) };

    fn next(&mut self) -> Option<&'t K> {
        common(&mut self.first, &mut self.second)
    }
}

impl<'t, K: Ord + Drop + 't, const LEN: usize> FusedIterator
    for IntersectionOver<'t, K, ArenasOf<K, (), LEN>, LeafOf<K, (), LEN>> {}

// Takes the first element that both have.
fn common<'t, K: Ord + Drop + 't, const LEN: usize>(
    first: &mut AheadOf<'t, K, LEN>,
    second: &mut AheadOf<'t, K, LEN>,
) -> Option<&'t K>
    requires { AreAscending K.cmp first.old second.old }
    ensures ascending { AreAscending K.cmp first.new second.new }
    ensures taken { YieldsFirstRef (λ s. s) (intersection K.cmp first.old second.old) result
        (intersection K.cmp first.new second.new) }
{
    loop {
        let x = first.peek()?;
        let y = second.peek()?;
        match x.cmp(y) {
            Ordering::Less => first.advance(),
            Ordering::Equal => {
                first.advance();
                second.advance();
                return Some(x);
            }
            Ordering::Greater => second.advance(),
        }
    }
}
