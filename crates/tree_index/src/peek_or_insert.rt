//! The value at a key, which is stored first if the key is absent.
ghost use Rattle.std.specs.Borrow.{sem};
ghost use Rattle.tree_index.specs.Lending.{lends_value};
ghost use Rattle.tree_index.specs.Present.{MakesPresent};

use crate::index::TreeIndexOf;
use std::alloc::AllocError;
use tree_array::array::IndexKey;

impl<K: IndexKey, V: Drop, const LEN: usize> TreeIndexOf<K, V, LEN> {
    /// Returns the value at a key. If the key is absent, stores the pair first.
    ///
    /// If the key is present, its pair stays as it is, and the pair that was passed is dropped.
    /// Returns `Err` if the key is absent and an allocation fails. The index's pairs are then
    /// unchanged, and the pair that was passed is dropped;
    /// [`insert_sync`](TreeIndexOf::insert_sync) returns it instead.
    ///
    /// If the key is present, looks it up twice and allocates nothing. If it is absent, clones it,
    /// looks it up before and after, and costs what [`insert_sync`](TreeIndexOf::insert_sync) does.
    /// If the clone allocates nothing, the call doesn't fail to allocate while the spare is above
    /// 0.
    ///
    /// ```
    /// let first = prices.peek_or_insert(item, price)?;
    /// Ok(*first)
    /// ```
    pub fn peek_or_insert(&mut self, key: K, value: V) -> Result<&V, AllocError>
        ensures* { sem 𝓛
            (lends_value K.row V.row LEN.row K.is_clone K.is_infallible K.cmp K.eq K.partial_cmp
            self.entry key value LEN result) }
    {
        let key = self.make_present(key, value)?;
        match self.peek(&key) {
            Some(value) => Ok(value),
            None => unreachable!(),
        }
    }

    // Stores a pair if its key is absent. Returns a key that finds the pair that is then stored at
    // it.
    fn make_present(&mut self, key: K, value: V) -> Result<K, AllocError>
        ensures { MakesPresent K.cmp K.is_infallible LEN self.old key value result self.new }
    {
        if self.contains(&key) {
            return Ok(key);
        }
        let same = key.clone()?;
        match self.insert_sync(key, value) {
            Ok(()) => Ok(same),
            Err(_) => Err(AllocError),
        }
    }
}
