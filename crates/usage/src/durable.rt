//! A store: pairs that are still there after a crash.
ghost use Rattle.std.specs.Prelude.{◌≡◌, ◌⊎◌, [], IfOk, OnOk, OnErr};
ghost use Rattle.store_codec.specs.Records.{record_at};
ghost use Rattle.store_pair.specs.Pair.{AreBlank, AreClean, AreSettled, AreUsable, held_in};
ghost use Rattle.tree_model.specs.Pairs.{put};
ghost use Rattle.tree_store.specs.Store.{HasSaved, Leave, StandFor};

use sqlite_disk::Disk;
use std::alloc::Global;
use store_codec::{Encode, StoreKey};
use tree_store::{Files, LogError, OpenError, TreeStore};

/// Opens the store in files, or makes one without a pair if they are blank. A new store is sealed
/// under a key, which should be random.
///
/// Returns `Err` with the files if something else is in them, if they are damaged, if the disk
/// fails, or if it cannot allocate.
pub fn open_store<K: StoreKey, V: Encode, D: Disk>(
    alloc: Global,
    files: Files<D>,
    key: u64,
) -> Result<TreeStore<K, V, D>, (OpenError, Files<D>)>
    requires usable { AreUsable D.is_usable files }
    requires settled { AreSettled D.seen D.may_leave files }
    ensures opened { IfOk result (λ store. AreClean D.is_clean store.saved.files →
        StandFor K.cmp K.seen V.seen (record_at K.value_at V.value_at) (K.kind_number, V.kind_number) (held_in D.seen files) store.pairs
        ⊎ (AreBlank (held_in D.seen files) × (store.pairs ≡ []))) }
    ensures saved { IfOk result (λ store. AreClean D.is_clean store.saved.files →
        HasSaved K.cmp K.seen V.seen (record_at K.value_at V.value_at) store.saved store.pairs) }
{
    match TreeStore::open(alloc, files) {
        Err((OpenError::Log(store_log::OpenError::Blank), files)) => TreeStore::make(
            alloc, files, key,
        ),
        opened => opened,
    }
}

/// Stores a pair so that a crash leaves it there, in place of one whose key is equal.
///
/// Returns `Err` if it cannot allocate or if the disk fails. Then a crash may leave it or not.
pub fn save<K: StoreKey, V: Encode, D: Disk>(
    store: &mut TreeStore<K, V, D>,
    key: K,
    value: V,
) -> Result<(), LogError>
    ensures stored { OnOk result (store.new.pairs ≡ put K.cmp store.old.pairs key value) }
    ensures saved { OnOk result (AreClean D.is_clean store.new.saved.files →
        HasSaved K.cmp K.seen V.seen (record_at K.value_at V.value_at) store.new.saved store.new.pairs) }
    ensures left { OnOk result (AreClean D.is_clean store.new.saved.files →
        Leave K.cmp K.seen V.seen (record_at K.value_at V.value_at) (K.kind_number, V.kind_number) D.may_leave store.new.saved.files store.new.pairs) }
    ensures refused { OnErr result ((store.new.pairs ≡ store.old.pairs) ⊎ (store.new.pairs ≡ put K.cmp store.old.pairs key value)) }
{
    let Ok(()) = store.upsert(key, value) else {
        return Err(LogError::Memory);
    };
    store.commit()
}
