//! Writes to an index that put a record of what they did behind a batch.
ghost use Rattle.std.specs.Prelude.{◌≡◌, ◌↔◌, [], IsTrue, IfOk, OnOk, OnErr};
ghost use Rattle.store_codec.specs.Records.{record_at};
ghost use Rattle.tree_model.specs.Edits.{Upserts};
ghost use Rattle.tree_model.specs.Pairs.{IsAscending, IsPresent, cut, high_of, low_of, pair_at, without};
ghost use Rattle.tree_store.specs.Changes.{InsertsOrRefuses, Notes};

use std::alloc::{AllocError, Global};
use std::ops::Bound;
use store_codec::{Encode, StoreKey, push_clear, push_cut, push_put, push_remove};
use tree_index::{InsertError, TreeIndex};

// Returns the records that store the pairs of an index, in key order.
pub(crate) fn all_records<K: StoreKey, V: Encode>(
    alloc: Global,
    index: &TreeIndex<K, V>,
) -> Result<Vec<u8>, AllocError>
    ensures noted { IfOk result (λ text. IsAscending K.cmp index.now.pairs → Notes K.cmp K.seen V.seen (record_at K.value_at V.value_at) [] text.items [] index.now.pairs) }
{
    let mut text = Vec::new(alloc);
    for (key, value) in index {
        push_put(&mut text, key, value)?;
    }
    Ok(text)
}

// Stores a pair if its key is absent.
pub(crate) fn insert<K: StoreKey, V: Encode>(
    index: &mut TreeIndex<K, V>,
    batch: &mut Vec<u8>,
    key: K,
    value: V,
) -> Result<(), InsertError<K, V>>
    ensures pairs { InsertsOrRefuses K.cmp index.old.pairs key value result index.new.pairs }
    ensures noted { Notes K.cmp K.seen V.seen (record_at K.value_at V.value_at) batch.old.items batch.new.items index.old.pairs index.new.pairs }
{
    let mark = batch.len();
    let Ok(()) = push_put(batch, &key, &value) else {
        batch.truncate(mark);
        return Err(InsertError::OutOfMemory(key, value));
    };
    match index.insert_sync(key, value) {
        Ok(()) => Ok(()),
        Err(error) => {
            batch.truncate(mark);
            Err(error)
        }
    }
}

// Stores a pair, in place of one whose key is equal.
pub(crate) fn upsert<K: StoreKey, V: Encode>(
    index: &mut TreeIndex<K, V>,
    batch: &mut Vec<u8>,
    key: K,
    value: V,
) -> Result<(), (K, V)>
    ensures pairs { Upserts K.cmp index.old.pairs key value result index.new.pairs }
    ensures noted { Notes K.cmp K.seen V.seen (record_at K.value_at V.value_at) batch.old.items batch.new.items index.old.pairs index.new.pairs }
{
    let mark = batch.len();
    let Ok(()) = push_put(batch, &key, &value) else {
        batch.truncate(mark);
        return Err((key, value));
    };
    match index.upsert_sync(key, value) {
        Ok(()) => Ok(()),
        Err(pair) => {
            batch.truncate(mark);
            Err(pair)
        }
    }
}

// Removes the pair with a key, and returns whether there was one.
pub(crate) fn remove<K: StoreKey, V: Encode>(
    index: &mut TreeIndex<K, V>,
    batch: &mut Vec<u8>,
    key: &K,
) -> Result<bool, AllocError>
    ensures answer { IfOk result (λ was. IsTrue was ↔ IsPresent K.cmp index.old.pairs key.now) }
    ensures left { OnOk result (index.new.pairs ≡ without K.cmp index.old.pairs key.now) }
    ensures refused { OnErr result (index.new.pairs ≡ index.old.pairs) }
    ensures noted { Notes K.cmp K.seen V.seen (record_at K.value_at V.value_at) batch.old.items batch.new.items index.old.pairs index.new.pairs }
{
    let mark = batch.len();
    let Ok(()) = push_remove(batch, key) else {
        batch.truncate(mark);
        return Err(AllocError);
    };
    if index.remove_sync(key) {
        return Ok(true);
    }
    batch.truncate(mark);
    Ok(false)
}

// Removes the pair with a key and returns it, or `None` if the key is absent.
pub(crate) fn take<K: StoreKey, V: Encode>(
    index: &mut TreeIndex<K, V>,
    batch: &mut Vec<u8>,
    key: &K,
) -> Result<Option<(K, V)>, AllocError>
    ensures taken { IfOk result (λ taken. taken ≡ pair_at K.cmp index.old.pairs key.now) }
    ensures left { OnOk result (index.new.pairs ≡ without K.cmp index.old.pairs key.now) }
    ensures refused { OnErr result (index.new.pairs ≡ index.old.pairs) }
    ensures noted { Notes K.cmp K.seen V.seen (record_at K.value_at V.value_at) batch.old.items batch.new.items index.old.pairs index.new.pairs }
{
    let mark = batch.len();
    let Ok(()) = push_remove(batch, key) else {
        batch.truncate(mark);
        return Err(AllocError);
    };
    match index.take_sync(key) {
        Some(pair) => Ok(Some(pair)),
        None => {
            batch.truncate(mark);
            Ok(None)
        }
    }
}

// Removes the pairs within both bounds.
pub(crate) fn remove_range<K: StoreKey, V: Encode>(
    index: &mut TreeIndex<K, V>,
    batch: &mut Vec<u8>,
    bounds: (Bound<&K>, Bound<&K>),
) -> Result<(), AllocError>
    ensures left { OnOk result (index.new.pairs ≡ cut K.cmp index.old.pairs (low_of bounds.entry) (high_of bounds.entry)) }
    ensures refused { OnErr result (index.new.pairs ≡ index.old.pairs) }
    ensures noted { Notes K.cmp K.seen V.seen (record_at K.value_at V.value_at) batch.old.items batch.new.items index.old.pairs index.new.pairs }
{
    let mark = batch.len();
    let (low, high) = bounds;
    let Ok(()) = push_cut(batch, low, high) else {
        batch.truncate(mark);
        return Err(AllocError);
    };
    index.remove_range_sync((low, high));
    Ok(())
}

// Removes all pairs.
pub(crate) fn clear<K: StoreKey, V: Encode>(
    index: &mut TreeIndex<K, V>,
    batch: &mut Vec<u8>,
) -> Result<(), AllocError>
    ensures left { OnOk result (index.new.pairs ≡ []) }
    ensures refused { OnErr result (index.new.pairs ≡ index.old.pairs) }
    ensures noted { Notes K.cmp K.seen V.seen (record_at K.value_at V.value_at) batch.old.items batch.new.items index.old.pairs index.new.pairs }
{
    push_clear(batch)?;
    index.clear();
    Ok(())
}
