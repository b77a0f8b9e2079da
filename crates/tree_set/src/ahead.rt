//! The elements of a set whose first one is looked at before it is taken.
ghost use Rattle.std.specs.Prelude.{◌≡◌, [], ◌∷◌, MatchOption, drop};

use std::marker::Model;
use tree_cursors::range::Ranged;
use tree_leaf::Walked;
use tree_leaf::leaf::LeafOf;
use tree_node::node::ArenasOf;
use tree_views::keys::{KeysOf, KeysOver};

// The elements that are left, the first of which was already taken from its cursor.
#[derive(Drop)]
pub(crate) struct Ahead<'t, K: Ord, A: Ranged<K, (), L>, L: Walked> {
    first: Option<&'t K>,
    others: KeysOver<'t, K, (), A, L>,
}

// The elements that are left, with up to `LEN` elements a leaf.
pub(crate) type AheadOf<'t, K, const LEN: usize> = Ahead<
    't,
    K,
    ArenasOf<K, (), LEN>,
    LeafOf<K, (), LEN>,
>;

impl<'t, K: Ord, A: Ranged<K, (), L>, L: Walked> Model for Ahead<'t, K, A, L> {
    ghost use Rattle.std.specs.Prelude.{◌≡◌, List, [], IfNone};
    ghost use Rattle.std.specs.List.{cons_option};
    ghost use Rattle.std.specs.Option.{option_copied};

    ghost Value = { List K };

    ghost view = { λ a. cons_option (option_copied a.first) a.others };

    ghost invariant = { λ a. IfNone a.first (a.others ≡ []) };
}

impl<'t, K: Ord + Drop + 't, const LEN: usize> Ahead<
    't,
    K,
    ArenasOf<K, (), LEN>,
    LeafOf<K, (), LEN>,
> {
    // Takes the first element, and keeps it.
    pub(crate) fn new(elements: KeysOf<'t, K, (), LEN>) -> Self
        ensures { result ≡ elements.entry }
    {
        let mut others = elements;
        let first = others.next();
        Ahead { first, others }
    }

    // Returns the first element, and leaves it. Makes no move.
    #[inline(always)]
    pub(crate) fn peek(&self) -> Option<&'t K>
        ensures { MatchOption result (self.now ≡ []) (λ x. self.now ≡ x.now ∷ drop 1 self.now) }
    {
        self.first
    }

    // Leaves the first element out.
    #[inline(always)]
    pub(crate) fn advance(&mut self)
        ensures { self.new ≡ drop 1 self.old }
    {
        self.first = self.others.next();
    }
}
