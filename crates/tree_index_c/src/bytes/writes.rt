//! Writes to an index whose keys are strings of bytes.
ghost use Rattle.std.specs.Prelude.{◌≡◌, ◌-◌, [], drop, length, take, ⊤};
ghost use Rattle.std.specs.Cmp.Lexicographic.{slice_cmp};
ghost use Rattle.std.specs.Ordering.{nat_cmp};
ghost use Rattle.tree_leaf.specs.Walks.{first_of, last_of};
ghost use Rattle.tree_index_c.specs.Answers.{OpensBytes, RemovesOrRefuses, Replaces, Stores, TakesOrRefuses};
ghost use Rattle.tree_index_c.specs.Entries.{PopsEntry};
ghost use Rattle.tree_index_c.specs.Held.{OnBytes, UnlessOwnBytes, held};

use crate::bytes::key::key_of;
use crate::entry::{Entry, write_entry};
use crate::handle::Handle;
use crate::pair::write_value;
use crate::status::{MISFIT, NO, NO_MEMORY, YES};
use crate::store::Store;
use std::alloc::Global;
use tree_index::{InsertError, TreeIndex};

/// Opens a closed handle on a new, empty index of byte strings. Allocates one block.
#[unsafe(no_mangle)]
pub extern "C" fn tree_index_bytes_new(alloc: Global, handle: &mut Handle) -> i32
    ensures { OpensBytes [] (held handle.old) result (held handle.new) }
{
    if handle.is_open {
        return MISFIT;
    }
    handle.open(alloc, Store::Bytes(TreeIndex::new(alloc)))
}

/// Stores a pair if its key is absent, with a copy of the key. Answers `NO`, and changes nothing,
/// if it is present. Runs in O(log n). Allocates at most the copy, a copy of a key between leaves,
/// a leaf, a node a level and a new root.
#[unsafe(no_mangle)]
pub extern "C" fn tree_index_bytes_insert(
    alloc: Global,
    handle: &mut Handle,
    key: &[u8],
    value: u64,
) -> i32
    ensures { OnBytes (λ old. Stores (slice_cmp nat_cmp) ⊤ key.now value old)
        (held handle.old) result (held handle.new) }
{
    let Some(mut store) = handle.take(alloc) else {
        return MISFIT;
    };
    let answer = match &mut *store {
        Store::Bytes(index) => match key_of(alloc, key) {
            Ok(key) => match index.insert_sync(key, value) {
                Ok(()) => YES,
                Err(InsertError::Duplicate(_, _)) => NO,
                Err(InsertError::OutOfMemory(_, _)) => NO_MEMORY,
            },
            Err(_) => NO_MEMORY,
        },
        _ => MISFIT,
    };
    *handle = Handle::leading_to(store);
    answer
}

/// Stores a pair with a copy of its key, in place of one with an equal key. Answers `YES` either
/// way. Costs what [`tree_index_bytes_insert`] does.
#[unsafe(no_mangle)]
pub extern "C" fn tree_index_bytes_upsert(
    alloc: Global,
    handle: &mut Handle,
    key: &[u8],
    value: u64,
) -> i32
    ensures { OnBytes (λ old. Replaces (slice_cmp nat_cmp) ⊤ key.now value old)
        (held handle.old) result (held handle.new) }
{
    let Some(mut store) = handle.take(alloc) else {
        return MISFIT;
    };
    let answer = match &mut *store {
        Store::Bytes(index) => match key_of(alloc, key) {
            Ok(key) => match index.upsert_sync(key, value) {
                Ok(()) => YES,
                Err(_) => NO_MEMORY,
            },
            Err(_) => NO_MEMORY,
        },
        _ => MISFIT,
    };
    *handle = Handle::leading_to(store);
    answer
}

/// Removes the pair with a key. Answers whether there was one. Runs in O(log n). Copies the key
/// meanwhile.
#[unsafe(no_mangle)]
pub extern "C" fn tree_index_bytes_remove(alloc: Global, handle: &mut Handle, key: &[u8]) -> i32
    ensures { OnBytes (λ old. RemovesOrRefuses (slice_cmp nat_cmp) key.now old)
        (held handle.old) result (held handle.new) }
{
    let Some(mut store) = handle.take(alloc) else {
        return MISFIT;
    };
    let answer = match &mut *store {
        Store::Bytes(index) => match key_of(alloc, key) {
            Ok(key) => { if index.remove_sync(&key) { YES } else { NO } }
            Err(_) => NO_MEMORY,
        },
        _ => MISFIT,
    };
    *handle = Handle::leading_to(store);
    answer
}

/// Removes the pair with a key and writes its value. Answers `NO`, and writes nothing, if the key
/// is absent. Runs in O(log n). Copies the key meanwhile.
#[unsafe(no_mangle)]
pub extern "C" fn tree_index_bytes_take(
    alloc: Global,
    handle: &mut Handle,
    key: &[u8],
    value: &mut u64,
) -> i32
    ensures done { OnBytes
        (λ old answer new. TakesOrRefuses (slice_cmp nat_cmp)
        key.now old answer value.old value.new new) (held handle.old) result (held handle.new) }
    ensures stays { UnlessOwnBytes (held handle.old) (value.new ≡ value.old) }
{
    let Some(mut store) = handle.take(alloc) else {
        return MISFIT;
    };
    let answer = match &mut *store {
        Store::Bytes(index) => match key_of(alloc, key) {
            Ok(key) => write_value(index.take_sync(&key).map(|(_, value)| value), value),
            Err(_) => NO_MEMORY,
        },
        _ => MISFIT,
    };
    *handle = Handle::leading_to(store);
    answer
}

/// Removes the pair with the smallest key and writes it. Answers `NO`, and writes nothing, if there
/// is none, and `NO_ROOM` if the key has too few places: the pair stays then, and the entry tells
/// its length. Runs in O(log n). Allocates nothing.
#[tactic(auto, using(crate::proofs::Popped::first_popped))]
#[unsafe(no_mangle)]
pub extern "C" fn tree_index_bytes_pop_first(
    alloc: Global,
    handle: &mut Handle,
    key: &mut [u8],
    entry: &mut Entry,
) -> i32
    ensures done { OnBytes
        (λ old answer new. PopsEntry (first_of old.pairs) (drop 1 old.pairs)
        old answer key.old key.new entry.old entry.new new) (held handle.old) result (held handle.new) }
    ensures stays { UnlessOwnBytes (held handle.old) ((key.new ≡ key.old) × (entry.new ≡ entry.old)) }
{
    let Some(mut store) = handle.take(alloc) else {
        return MISFIT;
    };
    let answer = match &mut *store {
        Store::Bytes(index) => {
            let answer = write_entry(index.first(), key, entry);
            if answer == YES {
                drop(index.pop_first());
            }
            answer
        }
        _ => MISFIT,
    };
    *handle = Handle::leading_to(store);
    answer
}

/// Removes the pair with the largest key and writes it. Answers as [`tree_index_bytes_pop_first`]
/// does. Runs in O(log n). Allocates nothing.
#[tactic(auto, using(crate::proofs::Popped::last_popped))]
#[unsafe(no_mangle)]
pub extern "C" fn tree_index_bytes_pop_last(
    alloc: Global,
    handle: &mut Handle,
    key: &mut [u8],
    entry: &mut Entry,
) -> i32
    ensures done { OnBytes
        (λ old answer new. PopsEntry (last_of old.pairs) (take (length old.pairs - 1) old.pairs)
        old answer key.old key.new entry.old entry.new new) (held handle.old) result (held handle.new) }
    ensures stays { UnlessOwnBytes (held handle.old) ((key.new ≡ key.old) × (entry.new ≡ entry.old)) }
{
    let Some(mut store) = handle.take(alloc) else {
        return MISFIT;
    };
    let answer = match &mut *store {
        Store::Bytes(index) => {
            let answer = write_entry(index.last(), key, entry);
            if answer == YES {
                drop(index.pop_last());
            }
            answer
        }
        _ => MISFIT,
    };
    *handle = Handle::leading_to(store);
    answer
}
