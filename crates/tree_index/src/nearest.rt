//! The pairs at both ends of an index, and the nearest pair on one side of a key.
ghost use Rattle.std.specs.Prelude.{◌≡◌};
ghost use Rattle.tree_leaf.specs.Walks.{first_of, last_of};
ghost use Rattle.tree_model.specs.Rest.{lent};
ghost use Rattle.tree_index.specs.Nearest.{at_or_above, at_or_below};

use crate::index::TreeIndexOf;
use tree_array::array::IndexKey;
use tree_model::ProximityOf;

impl<K: IndexKey, V: Drop, const LEN: usize> TreeIndexOf<K, V, LEN> {
    /// Returns the pair with the smallest key, or `None` if there is no pair. Descends once, and
    /// makes no comparison. Allocates nothing.
    ///
    /// ```
    /// let (price, _) = asks.first()?;
    /// Some(*price)
    /// ```
    pub fn first(&self) -> Option<(&K, &V)>
        ensures { lent result ≡ first_of self.now.pairs }
    {
        self.iter().next()
    }

    /// Returns the pair with the largest key, or `None` if there is no pair. Descends once, and
    /// makes no comparison. Allocates nothing.
    ///
    /// ```
    /// let (price, _) = bids.last()?;
    /// Some(*price)
    /// ```
    pub fn last(&self) -> Option<(&K, &V)>
        ensures { lent result ≡ last_of self.now.pairs }
    {
        self.iter().next_back()
    }

    /// Returns the pair with a key, or else the one with the next smaller key. Returns `None` if
    /// every key is larger. Costs what [`locate`](TreeIndexOf::locate) does.
    ///
    /// ```
    /// pub fn article_up_to(stock: &TreeIndex<u64, u64>, number: u64) -> Option<(&u64, &u64)>
    ///     ensures { lent result ≡ at_or_below nat_cmp stock.now.pairs number }
    /// {
    ///     stock.at_or_below(&number)
    /// }
    /// ```
    pub fn at_or_below(&self, key: &K) -> Option<(&K, &V)>
        ensures { lent result ≡ at_or_below K.cmp self.now.pairs key.now }
    {
        match self.locate(key) {
            ProximityOf::Exact(at) => at.get(),
            ProximityOf::Between(at) => at.get(),
            ProximityOf::Smaller(at) => at.get_back(),
            ProximityOf::Larger(_) => None,
            ProximityOf::Empty => None,
        }
    }

    /// Returns the pair with a key, or else the one with the next larger key. Returns `None` if
    /// every key is smaller. Costs what [`locate`](TreeIndexOf::locate) does.
    ///
    /// ```
    /// pub fn ask_from(asks: &TreeIndex<u64, u64>, price: u64) -> Option<(&u64, &u64)>
    ///     ensures { lent result ≡ at_or_above nat_cmp asks.now.pairs price }
    /// {
    ///     asks.at_or_above(&price)
    /// }
    /// ```
    pub fn at_or_above(&self, key: &K) -> Option<(&K, &V)>
        ensures { lent result ≡ at_or_above K.cmp self.now.pairs key.now }
    {
        match self.locate(key) {
            ProximityOf::Exact(at) => at.get(),
            ProximityOf::Between(at) => at.get_back(),
            ProximityOf::Larger(at) => at.get(),
            ProximityOf::Smaller(_) => None,
            ProximityOf::Empty => None,
        }
    }
}
