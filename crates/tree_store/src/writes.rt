//! Writes to a store.
ghost use Rattle.std.specs.Prelude.{◌≡◌, ◌↔◌, [], IsTrue, IfOk, OnOk, OnErr};
ghost use Rattle.tree_model.specs.Edits.{Upserts};
ghost use Rattle.tree_model.specs.Pairs.{IsPresent, cut, high_of, low_of, pair_at, without};
ghost use Rattle.tree_store.specs.Changes.{InsertsOrRefuses};

use crate::{TreeStore, batch};
use sqlite_disk::Disk;
use std::alloc::AllocError;
use std::ops::Bound;
use store_codec::{Encode, StoreKey};
use tree_index::InsertError;

impl<K: StoreKey, V: Encode, D: Disk> TreeStore<K, V, D> {
    /// Stores a pair if its key is absent. Notes a record of the key and the value.
    ///
    /// Returns `Duplicate` if the key is present, and `OutOfMemory` if an allocation fails. Both
    /// return the pair, and nothing changes. Costs what
    /// [`insert_sync`](tree_index::TreeIndexOf::insert_sync) does.
    pub fn insert(&mut self, key: K, value: V) -> Result<(), InsertError<K, V>>
        ensures pairs { InsertsOrRefuses K.cmp self.old.pairs key value result self.new.pairs }
        ensures saved { self.new.saved ≡ self.old.saved }
    {
        batch::insert(&mut self.index, &mut self.batch, key, value)
    }

    /// Stores a pair. A pair with an equal key is replaced, key and value. Notes a record of the
    /// key and the value.
    ///
    /// Returns `Err` with the pair if an allocation fails. Nothing changes then. Costs what
    /// [`upsert_sync`](tree_index::TreeIndexOf::upsert_sync) does.
    pub fn upsert(&mut self, key: K, value: V) -> Result<(), (K, V)>
        ensures pairs { Upserts K.cmp self.old.pairs key value result self.new.pairs }
        ensures saved { self.new.saved ≡ self.old.saved }
    {
        batch::upsert(&mut self.index, &mut self.batch, key, value)
    }

    /// Removes the pair with a key. Returns whether there was one, and then notes a record of the
    /// key.
    ///
    /// Returns `Err` if it cannot allocate the record. Nothing changes then. Costs what
    /// [`remove_sync`](tree_index::TreeIndexOf::remove_sync) does.
    pub fn remove(&mut self, key: &K) -> Result<bool, AllocError>
        ensures answer { IfOk result (λ was. IsTrue was ↔ IsPresent K.cmp self.old.pairs key.now) }
        ensures left { OnOk result (self.new.pairs ≡ without K.cmp self.old.pairs key.now) }
        ensures refused { OnErr result (self.new.pairs ≡ self.old.pairs) }
        ensures saved { self.new.saved ≡ self.old.saved }
    {
        batch::remove(&mut self.index, &mut self.batch, key)
    }

    /// Removes the pair with a key and returns it, or `None` if the key is absent. Notes a record
    /// of the key if it was present.
    ///
    /// Returns `Err` if it cannot allocate the record. Nothing changes then. Costs what
    /// [`take_sync`](tree_index::TreeIndexOf::take_sync) does.
    pub fn take(&mut self, key: &K) -> Result<Option<(K, V)>, AllocError>
        ensures taken { IfOk result (λ taken. taken ≡ pair_at K.cmp self.old.pairs key.now) }
        ensures left { OnOk result (self.new.pairs ≡ without K.cmp self.old.pairs key.now) }
        ensures refused { OnErr result (self.new.pairs ≡ self.old.pairs) }
        ensures saved { self.new.saved ≡ self.old.saved }
    {
        batch::take(&mut self.index, &mut self.batch, key)
    }

    /// Removes every pair whose key is within both bounds. Notes one record of the bounds.
    ///
    /// Returns `Err` if it cannot allocate the record. Nothing changes then. Costs what
    /// [`remove_range_sync`](tree_index::TreeIndexOf::remove_range_sync) does.
    pub fn remove_range(&mut self, bounds: (Bound<&K>, Bound<&K>)) -> Result<(), AllocError>
        ensures left { OnOk result (self.new.pairs ≡ cut K.cmp self.old.pairs (low_of bounds.entry) (high_of bounds.entry)) }
        ensures refused { OnErr result (self.new.pairs ≡ self.old.pairs) }
        ensures saved { self.new.saved ≡ self.old.saved }
    {
        batch::remove_range(&mut self.index, &mut self.batch, bounds)
    }

    /// Removes all pairs. Notes one record of a byte.
    ///
    /// Returns `Err` if it cannot allocate the record. Nothing changes then. Costs what
    /// [`clear`](tree_index::TreeIndexOf::clear) does.
    pub fn clear(&mut self) -> Result<(), AllocError>
        ensures left { OnOk result (self.new.pairs ≡ []) }
        ensures refused { OnErr result (self.new.pairs ≡ self.old.pairs) }
        ensures saved { self.new.saved ≡ self.old.saved }
    {
        batch::clear(&mut self.index, &mut self.batch)
    }
}
