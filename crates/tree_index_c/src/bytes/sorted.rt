//! Indexes of pairs that arrive in the order of their keys, which are strings of bytes.
ghost use Rattle.std.specs.Prelude.{◌≡◌, ◌<◌, ◌≤◌, IfOk, MatchOption, length};
ghost use Rattle.tree_index_c.specs.Held.{held};
ghost use Rattle.tree_index_c.specs.Sorted.{OpensParted, parted, size_of};

use crate::bytes::key::key_of;
use crate::entry::Entry;
use crate::handle::Handle;
use crate::status::{MISFIT, NO, NO_MEMORY, NO_ROOM};
use crate::store::Store;
use std::alloc::{AllocError, Global};
use tree_index::{FromSortedError, TreeIndex};
use tree_texts::Bytes;

/// Opens a closed handle on an index of pairs whose keys strictly ascend. `keys` has the bytes of
/// one key after another, and `entries` the length and the value of each. Answers `NO` if the keys
/// don't ascend, or if two are equal, and `NO_ROOM` if they have more bytes than `keys`. The handle
/// stays closed then. Compares each key with the next, and gathers the pairs into whole leaves.
/// Copies the keys, and the pairs meanwhile.
#[unsafe(no_mangle)]
pub extern "C" fn tree_index_bytes_from_sorted(
    alloc: Global,
    handle: &mut Handle,
    keys: &[u8],
    entries: &[Entry],
) -> i32
    ensures { OpensParted keys.now entries.now (held handle.old) result (held handle.new) }
{
    if handle.is_open {
        return MISFIT;
    }
    let Ok(pairs) = pairs_of(alloc, keys, entries) else {
        return NO_MEMORY;
    };
    let Some(pairs) = pairs else {
        return NO_ROOM;
    };
    match TreeIndex::from_sorted(alloc, pairs) {
        Ok(index) => handle.open(alloc, Store::Bytes(index)),
        Err(FromSortedError::NotAscending(_)) => NO,
        Err(FromSortedError::OutOfMemory) => NO_MEMORY,
    }
}

// Copies pairs of C. Returns `None` if their keys have more bytes than there are.
fn pairs_of(
    alloc: Global,
    keys: &[u8],
    entries: &[Entry],
) -> Result<Option<Vec<(Bytes, u64)>>, AllocError>
    ensures { IfOk result
        (λ copy. MatchOption copy (length keys.now < size_of entries.now)
        (λ pairs. (size_of entries.now ≤ length keys.now) × (pairs.items ≡ parted keys.now entries.now))) }
{
    let mut pairs = Vec::with_capacity(alloc, entries.len())?;
    let mut used = 0;
    for at in 0..entries.len() {
        let Entry { length, value } = entries[at];
        if length > keys.len() - used {
            return Ok(None);
        }
        let key = key_of(alloc, &keys[used..used + length])?;
        pairs.push((key, value))?;
        used += length;
    }
    Ok(Some(pairs))
}
