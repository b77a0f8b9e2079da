//! Ranges of keys that are strings of bytes.
ghost use Rattle.std.specs.Prelude.{◌≡◌, ◌⊎◌, IfOk, reverse};
ghost use Rattle.std.specs.Cmp.Lexicographic.{slice_cmp};
ghost use Rattle.std.specs.Ordering.{nat_cmp};
ghost use Rattle.tree_model.specs.Ways.{along};
ghost use Rattle.tree_model.specs.Rest.{Moves};
ghost use Rattle.tree_index_c.specs.Entries.{FillsBytes, FillsOrRefuses, IfBounds};
ghost use Rattle.tree_index_c.specs.Held.{AsksBytes, OnBytes, UnlessBytes, held};
ghost use Rattle.tree_index_c.specs.Pairs.{bound_at, pairs_between};
ghost use Rattle.tree_model.specs.Pairs.{cut};
ghost use Rattle.tree_cursors.specs.Ranged.{way_of};

use crate::bytes::key::key_of;
use crate::entry::{Entry, write_bytes};
use crate::handle::Handle;
use crate::status::{MISFIT, NO_MEMORY, NO_ROOM, YES};
use crate::store::Store;
use std::alloc::{AllocError, Global};
use std::ops::Bound;
use tree_index::{Range, TreeIndex};
use tree_texts::Bytes;

/// Writes the first pairs whose keys are within both bounds, in ascending order, and how many.
/// Stops at the first key that has no room in what is left of `keys`, and at the last of `entries`.
/// `YES` with a count of 0 means that there is no pair, or no entry. `keys` gets the bytes of one
/// key after another, and `entries` the length and the value of each. Answers `NO_ROOM` if even the
/// first key has no room, and writes its length to `count`. Runs in O(log n) and the number of
/// entries. Copies the keys of the bounds meanwhile.
#[unsafe(no_mangle)]
pub extern "C" fn tree_index_bytes_fill(
    alloc: Global,
    handle: &mut Handle,
    low_kind: u8,
    low: &[u8],
    high_kind: u8,
    high: &[u8],
    keys: &mut [u8],
    entries: &mut [Entry],
    count: &mut usize,
) -> i32
    ensures kept { held handle.new ≡ held handle.old }
    ensures told { AsksBytes
        (λ index answer. FillsOrRefuses (pairs_between (slice_cmp nat_cmp) (bound_at low_kind
        low.now) (bound_at high_kind high.now) index.pairs) answer keys.old keys.new entries.old
        entries.new count.old count.new) (held handle.old) result }
    ensures stays { UnlessBytes (held handle.old)
        ((keys.new ≡ keys.old) × (entries.new ≡ entries.old) × (count.new ≡ count.old)) }
{
    let Some(store) = handle.take(alloc) else {
        return MISFIT;
    };
    let answer = match store.bytes() {
        Some(index) => {
            let bounds = bounds_of(alloc, low_kind, low, high_kind, high);
            fill(index, bounds, false, keys, entries, count)
        }
        None => MISFIT,
    };
    *handle = Handle::leading_to(store);
    answer
}

/// Does what [`tree_index_bytes_fill`] does from the other end: the last pairs, in descending
/// order.
#[unsafe(no_mangle)]
pub extern "C" fn tree_index_bytes_fill_back(
    alloc: Global,
    handle: &mut Handle,
    low_kind: u8,
    low: &[u8],
    high_kind: u8,
    high: &[u8],
    keys: &mut [u8],
    entries: &mut [Entry],
    count: &mut usize,
) -> i32
    ensures kept { held handle.new ≡ held handle.old }
    ensures told { AsksBytes
        (λ index answer. FillsOrRefuses (reverse (pairs_between (slice_cmp nat_cmp) (bound_at
        low_kind low.now) (bound_at high_kind high.now) index.pairs)) answer keys.old keys.new
        entries.old entries.new count.old count.new) (held handle.old) result }
    ensures stays { UnlessBytes (held handle.old)
        ((keys.new ≡ keys.old) × (entries.new ≡ entries.old) × (count.new ≡ count.old)) }
{
    let Some(store) = handle.take(alloc) else {
        return MISFIT;
    };
    let answer = match store.bytes() {
        Some(index) => {
            let bounds = bounds_of(alloc, low_kind, low, high_kind, high);
            fill(index, bounds, true, keys, entries, count)
        }
        None => MISFIT,
    };
    *handle = Handle::leading_to(store);
    answer
}

/// Removes every pair whose key is within both bounds. Answers `YES`, also if there was none. Makes
/// O(log n) comparisons, and frees the leaves between the bounds whole. Copies the keys of the
/// bounds meanwhile.
#[unsafe(no_mangle)]
pub extern "C" fn tree_index_bytes_remove_range(
    alloc: Global,
    handle: &mut Handle,
    low_kind: u8,
    low: &[u8],
    high_kind: u8,
    high: &[u8],
) -> i32
    ensures { OnBytes
        (λ old answer new.
        ((answer ≡ YES)
        × (new.pairs ≡ cut (slice_cmp nat_cmp) old.pairs (bound_at low_kind low.now) (bound_at high_kind high.now)))
        ⊎ ((answer ≡ NO_MEMORY) × (new ≡ old))) (held handle.old) result (held handle.new) }
{
    let Some(mut store) = handle.take(alloc) else {
        return MISFIT;
    };
    let answer = match &mut *store {
        Store::Bytes(index) => match bounds_of(alloc, low_kind, low, high_kind, high) {
            Ok((low, high)) => {
                index.remove_range_sync((low.as_ref(), high.as_ref()));
                YES
            }
            Err(_) => NO_MEMORY,
        },
        _ => MISFIT,
    };
    *handle = Handle::leading_to(store);
    answer
}

// Copies the key of a bound.
fn bound_of(alloc: Global, kind: u8, key: &[u8]) -> Result<Bound<Bytes>, AllocError>
    ensures { IfOk result (λ bound. bound ≡ bound_at kind key.now) }
{
    match kind {
        1 => Ok(Bound::Included(key_of(alloc, key)?)),
        2 => Ok(Bound::Excluded(key_of(alloc, key)?)),
        _ => Ok(Bound::Unbounded),
    }
}

fn bounds_of(
    alloc: Global,
    low_kind: u8,
    low: &[u8],
    high_kind: u8,
    high: &[u8],
) -> Result<(Bound<Bytes>, Bound<Bytes>), AllocError>
    ensures { IfOk result
        (λ bounds. (bounds.0 ≡ bound_at low_kind low.now) × (bounds.1 ≡ bound_at high_kind high.now)) }
{
    let low = bound_of(alloc, low_kind, low)?;
    let high = bound_of(alloc, high_kind, high)?;
    Ok((low, high))
}

// Fills the places, and writes the count or the length that the first key needs.
#[inline(always)]
fn fill(
    index: &TreeIndex<Bytes, u64>,
    bounds: Result<(Bound<Bytes>, Bound<Bytes>), AllocError>,
    backwards: bool,
    keys: &mut [u8],
    entries: &mut [Entry],
    count: &mut usize,
) -> i32
    ensures { IfBounds bounds result
        (λ low high. FillsOrRefuses
        (along (way_of backwards)
        (pairs_between (slice_cmp nat_cmp) low high index.now.pairs))
        result keys.old keys.new entries.old entries.new count.old count.new)
        ((keys.new ≡ keys.old) × (entries.new ≡ entries.old) × (count.new ≡ count.old)) }
{
    let Ok((low, high)) = bounds else {
        return NO_MEMORY;
    };
    match fill_from(index, (low, high), backwards, keys, entries) {
        Ok(filled) => {
            *count = filled;
            YES
        }
        Err(length) => {
            *count = length;
            NO_ROOM
        }
    }
}

// Inlined into both exports, so that each has the moves of one direction alone.
#[inline(always)]
fn fill_from(
    index: &TreeIndex<Bytes, u64>,
    bounds: (Bound<Bytes>, Bound<Bytes>),
    backwards: bool,
    keys: &mut [u8],
    entries: &mut [Entry],
) -> Result<usize, usize>
    ensures { FillsBytes
        (along (way_of backwards)
        (pairs_between
        (slice_cmp nat_cmp) bounds.0 bounds.1 index.now.pairs)) keys.old keys.new entries.old entries.new result }
{
    let (low, high) = bounds;
    let mut cursor = index.range((low.as_ref(), high.as_ref()));
    let mut used = 0;
    for at in 0..entries.len() {
        let Some((key, value)) = step(&mut cursor, backwards) else {
            return Ok(at);
        };
        let bytes = key.as_slice();
        if !write_bytes(bytes, used, keys) {
            if at == 0 {
                return Err(bytes.len());
            }
            return Ok(at);
        }
        used += bytes.len();
        entries[at] = Entry {
            length: bytes.len(),
            value: *value,
        };
    }
    Ok(entries.len())
}

#[inline(always)]
fn step<'t>(cursor: &mut Range<'t, Bytes, u64>, backwards: bool) -> Option<(&'t Bytes, &'t u64)>
    ensures { Moves (slice_cmp nat_cmp) (way_of backwards) cursor.old result cursor.new }
{
    if backwards {
        cursor.next_back()
    } else {
        cursor.next()
    }
}
