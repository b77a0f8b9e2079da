//! Look-ups that pass the pair to a reader.
ghost use Rattle.std.specs.Option.{ForSome};
ghost use Rattle.tree_index.specs.Readers.{Reads, TakesPair};
ghost use Rattle.tree_model.specs.Pairs.{pair_at};

use crate::index::TreeIndexOf;
use tree_array::array::IndexKey;

impl<K: IndexKey, V: Drop, const LEN: usize> TreeIndexOf<K, V, LEN> {
    /// Passes the pair with a key to a reader and returns what the reader returns, or `None` if the
    /// key is absent.
    ///
    /// Calls the reader once if the key is present, else never. The reader must accept the pair of
    /// the key. Costs what [`peek`](TreeIndexOf::peek) does, and the call.
    ///
    /// ```
    /// let sum = index.peek_with(&key, |key, value| {
    ///     calls = calls.saturating_add(1);
    ///     key.saturating_add(*value)
    /// });
    /// ```
    pub fn peek_with<R, F: FnOnce(&K, &V) -> R + Drop>(&self, key: &K, reader: F) -> Option<R>
        requires { ForSome (pair_at K.cmp self.now.pairs key.now) (TakesPair F.FnOnce reader) }
        ensures { Reads F.FnOnce reader (pair_at K.cmp self.now.pairs key.now) result }
    {
        let (key, value) = self.peek_entry(key)?;
        Some(reader(key, value))
    }

    /// Does what [`peek_with`](TreeIndexOf::peek_with) does.
    ///
    /// ```
    /// let sum = index.read_sync(&key, |key, value| {
    ///     calls = calls.saturating_add(1);
    ///     key.saturating_add(*value)
    /// });
    /// ```
    pub fn read_sync<R, F: FnOnce(&K, &V) -> R + Drop>(&self, key: &K, reader: F) -> Option<R>
        requires { ForSome (pair_at K.cmp self.now.pairs key.now) (TakesPair F.FnOnce reader) }
        ensures { Reads F.FnOnce reader (pair_at K.cmp self.now.pairs key.now) result }
    {
        self.peek_with(key, reader)
    }
}
