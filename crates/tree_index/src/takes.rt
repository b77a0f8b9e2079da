//! Removals that return the pair.
ghost use Rattle.std.specs.Prelude.{◌≡◌, [], None, Some, MatchOption, length, true};
ghost use Rattle.std.specs.Map.Iter.{TakesFirst, TakesLast};
ghost use Rattle.tree_leaf.specs.Walks.{first_of, last_of};
ghost use Rattle.tree_index.specs.Index.{KeepsSpare};
ghost use Rattle.tree_model.specs.Pairs.{pair_at, without};
ghost use Rattle.tree_remove.specs.Removes.{surely};
ghost use Rattle.tree_root.specs.Trees.{IsStored, IsWhole, Takes, pairs_of};

use crate::index::TreeIndexOf;
use tree_array::array::IndexKey;
use tree_cursors::iter::IterOver;
use tree_remove::entries::EntryPlace;
use tree_root::Tree;

impl<K: IndexKey, V: Drop, const LEN: usize> TreeIndexOf<K, V, LEN> {
    /// Removes the pair with a key and returns it, or `None` if the key is absent.
    ///
    /// Descends once and searches one array per level and the leaf. Descends once more if the pair
    /// is the only one in its leaf. Always descends: unlike
    /// [`remove_sync`](TreeIndexOf::remove_sync), doesn't look first in the leaf of the last
    /// removals. Allocates nothing.
    ///
    /// ```
    /// let (_, quantity) = offers.take_sync(&price)?;
    /// ```
    pub fn take_sync(&mut self, key: &K) -> Option<(K, V)>
        ensures taken { result ≡ pair_at K.cmp self.old.pairs key.now }
        ensures left { self.new.pairs ≡ without K.cmp self.old.pairs key.now }
        ensures spare { KeepsSpare self.old self.new }
        ensures kept { result ≡ None → self.new ≡ self.old }
    {
        let place = self.tree.entry_for(key)?;
        Some(take_at(&mut self.tree, &mut self.len, place))
    }

    /// Removes the pair with the smallest key and returns it, or `None` if there is no pair.
    ///
    /// Descends twice: to the pair without a comparison, and by its key. Descends once more if the
    /// pair is the only one in its leaf. Allocates nothing.
    ///
    /// ```
    /// asks.pop_first()
    /// ```
    pub fn pop_first(&mut self) -> Option<(K, V)>
        ensures pairs { TakesFirst (λ pair. pair) self.old.pairs result self.new.pairs }
        ensures spare { KeepsSpare self.old self.new }
        ensures kept { result ≡ None → self.new ≡ self.old }
    {
        let place = first_place(&self.tree)?;
        Some(take_at(&mut self.tree, &mut self.len, place))
    }

    /// Removes the pair with the largest key and returns it, or `None` if there is no pair. Costs
    /// what [`pop_first`](TreeIndexOf::pop_first) does.
    ///
    /// ```
    /// bids.pop_last()
    /// ```
    pub fn pop_last(&mut self) -> Option<(K, V)>
        ensures pairs { TakesLast (λ pair. pair) self.old.pairs result self.new.pairs }
        ensures spare { KeepsSpare self.old self.new }
        ensures kept { result ≡ None → self.new ≡ self.old }
    {
        let place = last_place(&self.tree)?;
        Some(take_at(&mut self.tree, &mut self.len, place))
    }
}

// Takes out the pair at a place of a tree whose pairs are counted, and returns it.
#[inline(always)]
pub(crate) fn take_at<K: IndexKey, V: Drop, const LEN: usize>(
    tree: &mut Tree<K, V, LEN>,
    len: &mut u128,
    place: EntryPlace,
) -> (K, V)
    requires whole { IsWhole K.cmp tree.old }
    requires counted { len.old ≡ length (pairs_of tree.old) }
    requires stored { (pair : K × V) × IsStored K.cmp tree.old place pair }
    ensures pair { (pair : K × V) → IsStored K.cmp tree.old place pair → result ≡ pair }
    ensures takes { Takes K.cmp surely tree.old tree.new result.0 true }
    ensures counted { len.new ≡ length (pairs_of tree.new) }
{
    let pair = tree.take_entry(place);
    *len -= 1;
    pair
}

// Returns where the first pair of a tree is stored, or `None` if there is no pair.
fn first_place<K: IndexKey, V: Drop, const LEN: usize>(tree: &Tree<K, V, LEN>) -> Option<EntryPlace>
    requires { IsWhole K.cmp tree.now }
    ensures { MatchOption result (pairs_of tree.now ≡ [])
        (λ place. (pair : K × V) × (first_of (pairs_of tree.now) ≡ Some pair) × IsStored K.cmp tree.now place pair) }
{
    let (key, _) = IterOver::new(&tree.arenas, tree.root).next()?;
    tree.entry_for(key)
}

// Returns where the last pair of a tree is stored, or `None` if there is no pair.
fn last_place<K: IndexKey, V: Drop, const LEN: usize>(tree: &Tree<K, V, LEN>) -> Option<EntryPlace>
    requires { IsWhole K.cmp tree.now }
    ensures { MatchOption result (pairs_of tree.now ≡ [])
        (λ place. (pair : K × V) × (last_of (pairs_of tree.now) ≡ Some pair) × IsStored K.cmp tree.now place pair) }
{
    let (key, _) = IterOver::new(&tree.arenas, tree.root).next_back()?;
    tree.entry_for(key)
}
