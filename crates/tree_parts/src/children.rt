//! The children of a node in turn, in the order of their keys or against it.
ghost use Rattle.std.specs.Prelude.{◌≡◌};
ghost use Rattle.std.specs.Iterator.{YieldsFirst, item_count};
ghost use Rattle.tree_model.specs.Ways.{along};
ghost use Rattle.tree_parts.specs.Children.{all_children};

use std::marker::Model;
use tree_array::array::{ArrayOf, ArrayWalk};
use tree_model::{Direction, Forward, Way};

/// A type of arrays of keyed children, with what an iterator over them keeps. It has no methods.
pub trait Keyed<I> {
    ghost use Rattle.std.specs.Prelude.{List};
    ghost use Rattle.tree_array.specs.Walk.{Walk};

    ghost children: { Self → List I };

    ghost is_over: { Self → Walk → Type 0 };
}

impl<K: Ord, I, const LEN: usize> Keyed<I> for ArrayOf<K, I, LEN> {
    ghost use Rattle.tree_parts.specs.Children.{IsOverKeyed, keyed_children};

    ghost children = { keyed_children };

    ghost is_over = { IsOverKeyed };
}

/// The children of a node that are still to come: one before the keyed ones, the keyed ones, and
/// one behind them. No call compares keys or allocates.
#[derive(Drop)]
pub struct Children<'a, A: Keyed<I>, I, D: Direction> {
    keyed: &'a A,
    slots: ArrayWalk<D>,
    first: Option<I>,
    last: Option<I>,
}

/// The children under the separators of an array, and the unbounded one.
pub type ChildrenOf<'a, K, I, D, const LEN: usize> = Children<'a, ArrayOf<K, I, LEN>, I, D>;

/// The same in the order of their keys.
pub type ChildrenOn<'a, K, I, const LEN: usize> = ChildrenOf<'a, K, I, Forward, LEN>;

impl<'a, A: Keyed<I>, I, D: Direction> Model for Children<'a, A, I, D> {
    ghost use Rattle.std.specs.Prelude.{List};
    ghost use Rattle.tree_parts.specs.Children.{to_come};

    ghost Value = { List I };

    ghost view = { λ a. to_come D.way (A.children a.keyed.now) a.slots.at a.first a.last };

    ghost invariant = { λ a. A.is_over a.keyed.now a.slots };
}

impl<'a, K: Ord + Drop, I: Copy + Drop, D: Direction, const LEN: usize> Children<
    'a,
    ArrayOf<K, I, LEN>,
    I,
    D,
> {
    /// Goes through the keyed children of a node and its unbounded one, if it has one.
    pub fn new(keyed: &'a ArrayOf<K, I, LEN>, unbounded: Option<I>) -> Self
        ensures { result ≡ along D.way (all_children keyed.now unbounded) }
    {
        let slots = ArrayWalk::new(keyed);
        match D::way() {
            Way::On => Children {
                keyed,
                slots,
                first: None,
                last: unbounded,
            },
            Way::Back => Children {
                keyed,
                slots,
                first: unbounded,
                last: None,
            },
        }
    }
}

impl<'a, K: Ord + Drop, I: Copy + Drop, D: Direction, const LEN: usize> Iterator
    for Children<'a, ArrayOf<K, I, LEN>, I, D> {
    type Item = I;

    ghost next_gives = { YieldsFirst (λ children. children) };

    ghost remaining = { item_count (λ children. children) };

    fn next(&mut self) -> Option<I> {
        if self.first.is_some() {
            return self.first.take();
        }
        match self.slots.next() {
            Some(slot) => Some(*self.keyed.val(slot)),
            None => self.last.take(),
        }
    }
}
