//! Applies the batches of a file to an index.
ghost use Rattle.std.specs.Prelude.{◌≡◌, ℕ, List, [], IfOk, OnOk, IsErrOf, map};
ghost use Rattle.store_codec.specs.Records.{record_at, record_map};
ghost use Rattle.store_frames.specs.Frame.{Reads};
ghost use Rattle.store_frames.specs.Seal.{sealed};
ghost use Rattle.store_log.specs.Log.{HasTexts};
ghost use Rattle.store_log.specs.declared.head.Head.{Head as HeadOf};
ghost use Rattle.tree_store.specs.Changes.{HaveRecords, Leads, ReadsRecords, changed, changed_by};

use crate::error::ReplayError;
use std::alloc::{AllocError, Global};
use store_codec::{Encode, Record, StoreKey, next_record};
use store_frames::first_frame;
use store_log::text_in;
use tree_index::TreeIndex;

// Returns the index that the texts of a file lead to. The seals must have been tested.
pub(crate) fn replayed<K: StoreKey, V: Encode>(
    alloc: Global,
    bytes: &[u8],
) -> Result<TreeIndex<K, V>, ReplayError>
    ensures led { IfOk result (λ index. (head : HeadOf) (texts : List (List ℕ)) → HasTexts head texts bytes.now →
        Leads K.cmp K.seen V.seen (record_at K.value_at V.value_at) texts [] index.pairs) }
    ensures sound { IsErrOf result ReplayError.Unreadable → (head : HeadOf) (texts : List (List ℕ)) → HasTexts head texts bytes.now →
        HaveRecords (record_at K.value_at V.value_at) texts → ⊥ }
{
    let mut index = TreeIndex::new(alloc);
    let Some((_, behind)) = first_frame(bytes) else {
        return Ok(index);
    };
    match apply_frames(alloc, &mut index, behind) {
        Ok(()) => Ok(index),
        Err(error) => Err(error),
    }
}

// Applies the texts of frames, the first of them first.
fn apply_frames<K: StoreKey, V: Encode>(
    alloc: Global,
    index: &mut TreeIndex<K, V>,
    bytes: &[u8],
) -> Result<(), ReplayError>
    ensures led { OnOk result ((key : ℕ) (texts : List (List ℕ)) → Reads (map (sealed key) texts) bytes.now →
        Leads K.cmp K.seen V.seen (record_at K.value_at V.value_at) texts index.old.pairs index.new.pairs) }
    ensures sound { IsErrOf result ReplayError.Unreadable → (key : ℕ) (texts : List (List ℕ)) → Reads (map (sealed key) texts) bytes.now →
        HaveRecords (record_at K.value_at V.value_at) texts → ⊥ }
{
    let mut rest = bytes;
    while let Some((batch, behind)) = first_frame(rest) {
        match apply_text(alloc, index, text_in(batch)) {
            Ok(()) => {}
            Err(error) => return Err(error),
        }
        rest = behind;
    }
    Ok(())
}

// Applies the records of a text.
fn apply_text<K: StoreKey, V: Encode>(
    alloc: Global,
    index: &mut TreeIndex<K, V>,
    text: &[u8],
) -> Result<(), ReplayError>
    ensures led { OnOk result ((records : List (Record K V)) × ReadsRecords (record_at K.value_at V.value_at) (map (record_map K.seen V.seen) records) text.now
        × (index.new.pairs ≡ changed_by K.cmp records index.old.pairs)) }
    ensures sound { IsErrOf result ReplayError.Unreadable → (records : List (Record K.Seen V.Seen)) → ReadsRecords (record_at K.value_at V.value_at) records text.now → ⊥ }
{
    let mut rest = text;
    for _turn in 0..u64::MAX {
        if rest.is_empty() {
            return Ok(());
        }
        let Some((change, behind)) = next_record(alloc, rest)? else {
            return Err(ReplayError::Unreadable);
        };
        apply(index, change)?;
        rest = behind;
    }
    // A text has fewer bytes than that.
    Err(ReplayError::Memory)
}

// Does what a record says.
fn apply<K: StoreKey, V: Encode>(
    index: &mut TreeIndex<K, V>,
    change: Record<K, V>,
) -> Result<(), AllocError>
    ensures { OnOk result (index.new.pairs ≡ changed K.cmp change index.old.pairs) }
{
    match change {
        Record::Put(key, value) => match index.upsert_sync(key, value) {
            Ok(()) => Ok(()),
            Err(_) => Err(AllocError),
        },
        Record::Remove(key) => {
            index.remove_sync(&key);
            Ok(())
        }
        Record::Cut(low, high) => {
            index.remove_range_sync((low.as_ref(), high.as_ref()));
            Ok(())
        }
        Record::Clear => {
            index.clear();
            Ok(())
        }
    }
}
