//! Batches of changes, and how a store makes them.
ghost use Rattle.std.specs.Prelude.{◌≡◌, ◌⊎◌, List, false, true, OnOk};
ghost use Rattle.store_codec.specs.Records.{record_at};
ghost use Rattle.store_pair.specs.Pair.{AreClean, Held, MayHold};
ghost use Rattle.store_restart.specs.Fronts.{IsDurable};
ghost use Rattle.tree_model.specs.Pairs.{put, without};
ghost use Rattle.tree_store.specs.Changes.{changed, changed_by};
ghost use Rattle.tree_store.specs.Store.{HasSaved, Leave, StandFor};

use sqlite_disk::Disk;
use std::alloc::{AllocError, Global};
use store_codec::{Encode, Record, StoreKey};
use tree_store::TreeStore;

/// Changes that are made durable together.
#[derive(Drop)]
pub struct Batch<K, V> {
    /// The changes, in the order in which they are made.
    pub changes: Vec<Record<K, V>>,
    /// Whether a compaction makes them durable, or a commit.
    pub compacts: bool,
}

// Makes a change. Returns `Err` if it cannot allocate, and then changes nothing.
fn change<K: StoreKey, V: Encode, D: Disk>(
    store: &mut TreeStore<K, V, D>,
    change: Record<K, V>,
) -> Result<(), AllocError>
    ensures made { OnOk result (store.new.pairs ≡ changed K.cmp change store.old.pairs) }
    ensures saved { store.new.saved ≡ store.old.saved }
{
    match change {
        Record::Put(key, value) => put_pair(store, key, value),
        Record::Remove(key) => remove(store, &key),
        Record::Cut(low, high) => store.remove_range((low.as_ref(), high.as_ref())),
        Record::Clear => store.clear(),
    }
}

// Stores a pair, in place of one whose key is equal.
fn put_pair<K: StoreKey, V: Encode, D: Disk>(
    store: &mut TreeStore<K, V, D>,
    key: K,
    value: V,
) -> Result<(), AllocError>
    ensures made { OnOk result (store.new.pairs ≡ put K.cmp store.old.pairs key value) }
    ensures saved { store.new.saved ≡ store.old.saved }
{
    match store.upsert(key, value) {
        Ok(()) => Ok(()),
        Err(_) => Err(AllocError),
    }
}

// Removes the pair with a key.
fn remove<K: StoreKey, V: Encode, D: Disk>(
    store: &mut TreeStore<K, V, D>,
    key: &K,
) -> Result<(), AllocError>
    ensures made { OnOk result (store.new.pairs ≡ without K.cmp store.old.pairs key.now) }
    ensures saved { store.new.saved ≡ store.old.saved }
{
    match store.remove(key) {
        Ok(_) => Ok(()),
        Err(error) => Err(error),
    }
}

// Makes changes until one fails.
pub(crate) fn change_all<K: StoreKey, V: Encode, D: Disk>(
    store: &mut TreeStore<K, V, D>,
    changes: Vec<Record<K, V>>,
) -> Result<(), AllocError>
    ensures made { OnOk result (store.new.pairs ≡ changed_by K.cmp changes.items store.old.pairs) }
    ensures saved { store.new.saved ≡ store.old.saved }
{
    for one in changes {
        change(store, one)?;
    }
    Ok(())
}

// Makes the pairs durable, by a compaction or a commit. Returns whether they are.
pub(crate) fn settle<K: StoreKey, V: Encode, D: Disk>(
    alloc: Global,
    store: &mut TreeStore<K, V, D>,
    compacts: bool,
) -> bool
    ensures durable { result ≡ true → IsDurable K.cmp K.seen V.seen (record_at K.value_at V.value_at) (K.kind_number, V.kind_number) D.is_clean D.may_leave store.new }
    ensures pairs { store.new.pairs ≡ store.old.pairs }

    // A crash leaves the pairs that were durable, or those of now.
    ensures crash { AreClean D.is_clean store.new.saved.files → store.old.saved.stopped ≡ false → (durable : List (K × V)) →
        HasSaved K.cmp K.seen V.seen (record_at K.value_at V.value_at) store.old.saved durable → (left : Held) → MayHold D.may_leave store.new.saved.files left →
        StandFor K.cmp K.seen V.seen (record_at K.value_at V.value_at) (K.kind_number, V.kind_number) left durable
        ⊎ StandFor K.cmp K.seen V.seen (record_at K.value_at V.value_at) (K.kind_number, V.kind_number) left store.old.pairs }

    // If they are not, the store is stopped, or a crash leaves the pairs that were durable.
    ensures refused { result ≡ false → (store.new.saved.stopped ≡ true) ⊎ (AreClean D.is_clean store.new.saved.files → (durable : List (K × V)) →
        HasSaved K.cmp K.seen V.seen (record_at K.value_at V.value_at) store.old.saved durable →
        HasSaved K.cmp K.seen V.seen (record_at K.value_at V.value_at) store.new.saved durable
        × Leave K.cmp K.seen V.seen (record_at K.value_at V.value_at) (K.kind_number, V.kind_number) D.may_leave store.new.saved.files durable) }
    ensures stopped { store.old.saved.stopped ≡ true → (result ≡ false) × (store.new.saved ≡ store.old.saved) }
    ensures clean { AreClean D.is_clean store.new.saved.files → AreClean D.is_clean store.old.saved.files }
{
    if compacts {
        return store.compact(alloc).is_ok();
    }
    store.commit().is_ok()
}
