//! Keys that begin with a prefix.
ghost use Rattle.std.specs.Prelude.{◌≡◌};
ghost use Rattle.tree_index_c.specs.Held.{OnBytes, UnlessOwnBytes, held};
ghost use Rattle.tree_index_c.specs.Prefixes.{EndsPrefix, RemovesPrefix, WritesEndOrRefuses};
ghost use Rattle.tree_texts.specs.Prefix.{end_of};

use crate::entry::write_bytes;
use crate::handle::Handle;
use crate::status::{MISFIT, NO, NO_MEMORY, NO_ROOM, YES};
use crate::store::Store;
use std::alloc::Global;
use std::ops::Bound;
use tree_texts::{end_of_prefix, remove_prefix};

/// Writes the end of a prefix and its length. The end is the least key that is larger than all
/// keys that begin with the prefix: these are the keys from the prefix, included, up to its end,
/// excluded. Answers `NO` and writes nothing if there is no end, since the prefix is empty or each
/// of its bytes is 255: then all keys from the prefix on begin with it. Answers `NO_ROOM` if the
/// end has too few places, and writes its length. An end is never longer than its prefix. Runs in
/// the length of the prefix. Copies the end meanwhile.
#[tactic(auto, using(crate::proofs::Prefixes::ends_prefix))]
#[unsafe(no_mangle)]
pub extern "C" fn tree_index_bytes_prefix_end(
    alloc: Global,
    prefix: &[u8],
    end: &mut [u8],
    length: &mut usize,
) -> i32
    ensures end { EndsPrefix prefix.now (end_of prefix.now) }
    ensures written { WritesEndOrRefuses (end_of prefix.now) result end.old end.new length.old length.new }
{
    let Ok(bound) = end_of_prefix(alloc, prefix) else {
        return NO_MEMORY;
    };
    let Bound::Excluded(bytes) = bound else {
        return NO;
    };
    *length = bytes.len();
    if write_bytes(bytes.as_slice(), 0, end) {
        YES
    } else {
        NO_ROOM
    }
}

/// Removes every pair whose key begins with a prefix, and writes how many there were. The number
/// is sure unless the index had 2^64 pairs or more. Answers `YES`, also if there was none. Makes
/// O(log n) comparisons, and frees the leaves between the first pair and the last whole. Copies
/// the prefix and its end meanwhile.
#[tactic(auto, using(crate::proofs::Prefixes::shrinks, crate::proofs::Prefixes::counts))]
#[unsafe(no_mangle)]
pub extern "C" fn tree_index_bytes_remove_prefix(
    alloc: Global,
    handle: &mut Handle,
    prefix: &[u8],
    count: &mut usize,
) -> i32
    ensures done { OnBytes (RemovesPrefix prefix.now count.old count.new) (held handle.old) result (held handle.new) }
    ensures stays { UnlessOwnBytes (held handle.old) (count.new ≡ count.old) }
{
    let Some(mut store) = handle.take(alloc) else {
        return MISFIT;
    };
    let answer = match &mut *store {
        Store::Bytes(index) => {
            let before = index.len();
            match remove_prefix(alloc, index, prefix) {
                Ok(_) => {
                    *count = before - index.len();
                    YES
                }
                Err(_) => NO_MEMORY,
            }
        }
        _ => MISFIT,
    };
    *handle = Handle::leading_to(store);
    answer
}
