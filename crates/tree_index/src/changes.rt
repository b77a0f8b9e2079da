//! Values that are changed in place.
ghost use Rattle.std.specs.Prelude.{◌≡◌, Err, MatchOption, Ok, false, true};
ghost use Rattle.std.specs.Option.{ForSome};
ghost use Rattle.tree_index.specs.Index.{with_value};
ghost use Rattle.tree_model.specs.Pairs.{pair_at};

use crate::index::TreeIndexOf;
use tree_array::array::IndexKey;

impl<K: IndexKey, V: Drop, const LEN: usize> TreeIndexOf<K, V, LEN> {
    /// Passes the value at a key to a function, and stores what it returns in its place. Returns
    /// whether the key is present.
    ///
    /// Calls the function once if the key is present, else never. The function must accept the
    /// value of the key. The stored key stays, and no slot is spent. Makes as many comparisons as
    /// [`peek`](TreeIndexOf::peek), and allocates nothing.
    ///
    /// ```
    /// fn add(&mut self, key: u64, amount: u64) -> bool {
    ///     self.modify_sync(&key, |value| value.wrapping_add(amount))
    /// }
    /// ```
    pub fn modify_sync<F: FnOnce(V) -> V + Drop>(&mut self, key: &K, change: F) -> bool
        requires { ForSome (pair_at K.cmp self.old.pairs key.now) (λ pair. F.pre change pair.1) }
        ensures { MatchOption (pair_at K.cmp self.old.pairs key.now) ((result ≡ false) × (self.new ≡ self.old))
            (λ pair. (result ≡ true) × (value : V) × F.post change pair.1 value
            × (self.new ≡ with_value K.cmp self.old pair.0 value)) }
    {
        self.tree.change_value(key, change)
    }

    /// Replaces the value at a key and returns the old one. Returns `Err` with the value if the key
    /// is absent.
    ///
    /// The stored key stays, and no slot is spent, as an [`upsert_sync`](TreeIndexOf::upsert_sync)
    /// spends one. Makes as many comparisons as [`peek`](TreeIndexOf::peek), and allocates nothing.
    ///
    /// ```
    /// fn replace(&mut self, key: u64, name: String) -> Result<String, String> {
    ///     self.replace_sync(&key, name)
    /// }
    /// ```
    pub fn replace_sync(&mut self, key: &K, val: V) -> Result<V, V>
        ensures { MatchOption (pair_at K.cmp self.old.pairs key.now) ((result ≡ Err val) × (self.new ≡ self.old))
            (λ pair. (result ≡ Ok pair.1) × (self.new ≡ with_value K.cmp self.old pair.0 val)) }
    {
        self.tree.replace_value(key, val)
    }
}
