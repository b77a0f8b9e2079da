//! How the value of a pair is changed in place.
ghost use Rattle.std.specs.Prelude.{◌≡◌, Err, MatchOption, Ok, false, true};
ghost use Rattle.std.specs.Option.{ForSome};
ghost use Rattle.tree_model.specs.Pairs.{pair_at, put};
ghost use Rattle.tree_root.specs.Trees.{IsWhole, KeepsKeys, pairs_of};

use crate::tree::Tree;
use tree_array::array::IndexKey;
use tree_node::descent::leaf_for;

impl<K: IndexKey, V: Drop, const LEN: usize> Tree<K, V, LEN> {
    /// Replaces the value at a key, and returns the old one. Returns `Err` with the value if the
    /// key is absent. The stored key stays. Makes at most 4 comparisons a level and in the leaf (3
    /// among 7 slots), and allocates nothing.
    pub fn replace_value(&mut self, key: &K, val: V) -> Result<V, V>
        requires { IsWhole K.cmp self.old }
        ensures keys { KeepsKeys K.cmp self.old self.new }
        ensures pairs { MatchOption (pair_at K.cmp (pairs_of self.old) key.now)
            ((result ≡ Err val) × (pairs_of self.new ≡ pairs_of self.old))
            (λ pair. (result ≡ Ok pair.1) × (pairs_of self.new ≡ put K.cmp (pairs_of self.old) pair.0 val)) }
    {
        let Some(root) = self.root else {
            return Err(val);
        };
        let Some(place) = leaf_for(&self.arenas, root.level, root.id, key, false) else {
            return Err(val);
        };
        let array = self.arenas.leaf_mut(place.leaf).array_mut();
        match array.slot_of(key) {
            Some(slot) => Ok(array.set_val(slot, val)),
            None => Err(val),
        }
    }

    /// Passes the value at a key to a function, and stores what it returns in its place. Returns
    /// whether the key is present, and calls the function only then. Costs what
    /// [`replace_value`](Tree::replace_value) does, and the call.
    pub fn change_value<F: FnOnce(V) -> V + Drop>(&mut self, key: &K, change: F) -> bool
        requires whole { IsWhole K.cmp self.old }
        requires callable { ForSome (pair_at K.cmp (pairs_of self.old) key.now) (λ pair. F.pre change pair.1) }
        ensures keys { KeepsKeys K.cmp self.old self.new }
        ensures pairs { MatchOption (pair_at K.cmp (pairs_of self.old) key.now)
            ((result ≡ false) × (pairs_of self.new ≡ pairs_of self.old))
            (λ pair. (result ≡ true) × (val : V) × F.post change pair.1 val
            × (pairs_of self.new ≡ put K.cmp (pairs_of self.old) pair.0 val)) }
    {
        let Some(root) = self.root else {
            return false;
        };
        let Some(place) = leaf_for(&self.arenas, root.level, root.id, key, false) else {
            return false;
        };
        let array = self.arenas.leaf_mut(place.leaf).array_mut();
        let Some(slot) = array.slot_of(key) else {
            return false;
        };
        array.change_val(slot, change);
        true
    }
}
