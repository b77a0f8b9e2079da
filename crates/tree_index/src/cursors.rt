//! Cursors over the pairs of an index, its keys and its values, and where a key is among the pairs.
ghost use Rattle.std.specs.Prelude.{◌≡◌, map};
ghost use Rattle.std.specs.declared.ops.Bound.TheVariants.{Unbounded};
ghost use Rattle.tree_model.specs.Cursor.{fresh};
ghost use Rattle.tree_model.specs.Located.{located};
ghost use Rattle.tree_model.specs.Pairs.{high_of, low_of};

use crate::index::TreeIndexOf;
use std::ops::Bound;
use tree_array::array::IndexKey;
use tree_cursors::iter::{IterOf, IterOver};
use tree_cursors::locate::locate;
use tree_cursors::range::{RangeOf, RangeOver};
use tree_model::ProximityOf;
use tree_views::keys::{KeysOf, KeysOver, ValuesOf, ValuesOver};

impl<K: IndexKey, V: Drop, const LEN: usize> TreeIndexOf<K, V, LEN> {
    /// Returns a cursor over all pairs, from both ends. Runs in constant time.
    ///
    /// The first move of an end descends once. Each later move reads the next entry of its leaf, or
    /// follows links to the next leaf with an entry. It makes one comparison if both ends are
    /// opened, else none. Allocates nothing.
    ///
    /// ```
    /// let mut left = asks.iter();
    /// left.next()?;
    /// let (price, _) = left.next()?;
    /// Some(*price)
    /// ```
    pub fn iter(&self) -> IterOf<'_, K, V, LEN>
        ensures { result ≡ fresh self.now.pairs Unbounded Unbounded }
    {
        IterOver::new(&self.tree.arenas, self.tree.root)
    }

    /// Returns the keys in ascending order, from both ends. Runs in constant time and allocates
    /// nothing.
    ///
    /// ```
    /// pub fn first_article(stock: &TreeIndex<u64, u64>) -> Option<u64>
    ///     ensures { result ≡ first_of (map (λ pair. pair.0) stock.now.pairs) }
    /// {
    ///     stock.keys().next().copied()
    /// }
    /// ```
    pub fn keys(&self) -> KeysOf<'_, K, V, LEN>
        ensures { result ≡ map (λ pair. pair.0) self.now.pairs }
    {
        KeysOver::new(self.iter())
    }

    /// Returns the values in ascending order of their keys, from both ends. Runs in constant time
    /// and allocates nothing.
    ///
    /// ```
    /// let mut pieces: u64 = 0;
    /// for count in stock.values() {
    ///     pieces = pieces.saturating_add(*count);
    /// }
    /// ```
    pub fn values(&self) -> ValuesOf<'_, K, V, LEN>
        ensures { result ≡ map (λ pair. pair.1) self.now.pairs }
    {
        ValuesOver::new(self.iter())
    }

    /// Returns a cursor over the pairs whose keys are within both bounds, from both ends. Bounds
    /// that contain no key, reversed ones among them, give no pair. Runs in constant time.
    ///
    /// The moves cost what those of [`iter`](TreeIndexOf::iter) do, and one comparison more, with
    /// the bound at which the end stops.
    ///
    /// ```
    /// let mut offers = prices.range((low.as_ref(), high.as_ref()));
    /// let (first, _) = offers.next()?;
    /// match offers.next_back() {
    ///     Some((last, _)) => Some((*first, *last)),
    ///     None => Some((*first, *first)),
    /// }
    /// ```
    pub fn range<'t>(&'t self, bounds: (Bound<&'t K>, Bound<&'t K>)) -> RangeOf<'t, K, V, LEN>
        ensures { result ≡ fresh self.now.pairs (low_of bounds.entry) (high_of bounds.entry) }
    {
        RangeOver::new(&self.tree.arenas, self.tree.root, bounds)
    }

    /// Returns where a key is: present, or next to which pairs, with a cursor at that place.
    /// Descends once, or twice if every key is smaller. Makes at most `4 * (depth + 1) + 2`
    /// comparisons with 15 pairs a leaf, and `3 * (depth + 1) + 2` with 7, and allocates nothing.
    ///
    /// ```
    /// fill(index, &[(1, 1), (3, 2), (5, 3), (7, 4)])?;
    ///
    /// let ProximityOf::Between(ends) = index.locate(&2) else {
    ///     return false;
    /// };
    /// let mut ends = ends;
    /// let told = [
    ///     numbers(ends.get()),
    ///     numbers(ends.get_back()),
    ///     numbers(ends.next()),
    ///     numbers(ends.next_back()),
    /// ];
    /// told == [Some((1, 1)), Some((3, 2)), None, None]
    /// ```
    pub fn locate(&self, key: &K) -> ProximityOf<IterOf<'_, K, V, LEN>>
        ensures { result ≡ located K.cmp self.now.pairs key.now }
    {
        locate(&self.tree.arenas, self.tree.root, key)
    }
}

impl<'t, K: IndexKey, V: Drop, const LEN: usize> IntoIterator for &'t TreeIndexOf<K, V, LEN> {
    type Item = (&'t K, &'t V);

    type IntoIter = IterOf<'t, K, V, LEN>;

    ghost use Rattle.std.specs.Prelude.{◌≡◌};
    ghost use Rattle.std.specs.declared.ops.Bound.TheVariants.{Unbounded};
    ghost use Rattle.tree_model.specs.Cursor.{fresh};

    ghost into_iter_gives = { λ index cursor. cursor ≡ fresh index.now.pairs Unbounded Unbounded };

    fn into_iter(self) -> IterOf<'t, K, V, LEN> {
        self.iter()
    }
}
