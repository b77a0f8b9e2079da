//! Look-ups in an index whose keys are strings of bytes.
ghost use Rattle.std.specs.Prelude.{◌≡◌};
ghost use Rattle.std.specs.Cmp.Lexicographic.{slice_cmp};
ghost use Rattle.std.specs.Option.{option_map};
ghost use Rattle.std.specs.Ordering.{nat_cmp};
ghost use Rattle.tree_leaf.specs.Walks.{first_of, last_of};
ghost use Rattle.tree_index.specs.Nearest.{at_or_above, at_or_below};
ghost use Rattle.tree_index_c.specs.Answers.{Says, Writes};
ghost use Rattle.tree_index_c.specs.Entries.{FindsEntry, WritesEntry};
ghost use Rattle.tree_index_c.specs.Held.{AsksBytes, UnlessBytes, held};
ghost use Rattle.tree_model.specs.Pairs.{IsAbsent, IsPresent, pair_at};

use crate::bytes::key::key_of;
use crate::entry::{Entry, write_entry};
use crate::handle::Handle;
use crate::pair::write_value;
use crate::status::{MISFIT, NO, NO_MEMORY, YES};
use std::alloc::Global;
use tree_texts::peek_bytes;

/// Writes the value of a key. Answers `NO`, and writes nothing, if the key is absent. Runs in O(log
/// n). Copies nothing.
#[unsafe(no_mangle)]
pub extern "C" fn tree_index_bytes_peek(
    alloc: Global,
    handle: &mut Handle,
    key: &[u8],
    value: &mut u64,
) -> i32
    ensures kept { held handle.new ≡ held handle.old }
    ensures told { AsksBytes
        (λ index answer. Writes (option_map (λ pair. pair.1) (pair_at (slice_cmp nat_cmp)
        index.pairs key.now)) answer value.old value.new) (held handle.old) result }
    ensures stays { UnlessBytes (held handle.old) (value.new ≡ value.old) }
{
    let Some(store) = handle.take(alloc) else {
        return MISFIT;
    };
    let answer = match store.bytes() {
        Some(index) => write_value(peek_bytes(index, key).map(|(_, value)| *value), value),
        None => MISFIT,
    };
    *handle = Handle::leading_to(store);
    answer
}

/// Answers whether a key is present. Runs in O(log n). Copies nothing.
#[unsafe(no_mangle)]
pub extern "C" fn tree_index_bytes_contains(alloc: Global, handle: &mut Handle, key: &[u8]) -> i32
    ensures kept { held handle.new ≡ held handle.old }
    ensures told { AsksBytes
        (λ index answer. Says (IsPresent (slice_cmp nat_cmp) index.pairs key.now) (IsAbsent
        (slice_cmp nat_cmp) index.pairs key.now) answer) (held handle.old) result }
{
    let Some(store) = handle.take(alloc) else {
        return MISFIT;
    };
    let answer = match store.bytes() {
        Some(index) => {
            if peek_bytes(index, key).is_some() {
                YES
            } else {
                NO
            }
        }
        None => MISFIT,
    };
    *handle = Handle::leading_to(store);
    answer
}

/// Writes the pair with the smallest key. Answers `NO`, and writes nothing, if there is no pair,
/// and `NO_ROOM` if the key has too few places: the entry is written then, and tells the key's
/// length. Runs in O(log n).
#[unsafe(no_mangle)]
pub extern "C" fn tree_index_bytes_first(
    alloc: Global,
    handle: &mut Handle,
    key: &mut [u8],
    entry: &mut Entry,
) -> i32
    ensures kept { held handle.new ≡ held handle.old }
    ensures told { AsksBytes
        (λ index answer. WritesEntry (first_of index.pairs) answer key.old key.new entry.old
        entry.new) (held handle.old) result }
    ensures stays { UnlessBytes (held handle.old) ((key.new ≡ key.old) × (entry.new ≡ entry.old)) }
{
    let Some(store) = handle.take(alloc) else {
        return MISFIT;
    };
    let answer = match store.bytes() {
        Some(index) => write_entry(index.first(), key, entry),
        None => MISFIT,
    };
    *handle = Handle::leading_to(store);
    answer
}

/// Writes the pair with the largest key. Answers as [`tree_index_bytes_first`] does. Runs in O(log
/// n).
#[unsafe(no_mangle)]
pub extern "C" fn tree_index_bytes_last(
    alloc: Global,
    handle: &mut Handle,
    key: &mut [u8],
    entry: &mut Entry,
) -> i32
    ensures kept { held handle.new ≡ held handle.old }
    ensures told { AsksBytes
        (λ index answer. WritesEntry (last_of index.pairs) answer key.old key.new entry.old
        entry.new) (held handle.old) result }
    ensures stays { UnlessBytes (held handle.old) ((key.new ≡ key.old) × (entry.new ≡ entry.old)) }
{
    let Some(store) = handle.take(alloc) else {
        return MISFIT;
    };
    let answer = match store.bytes() {
        Some(index) => write_entry(index.last(), key, entry),
        None => MISFIT,
    };
    *handle = Handle::leading_to(store);
    answer
}

/// Writes the pair with a key, or else the one with the next smaller key. Answers as
/// [`tree_index_bytes_first`] does. Runs in O(log n). Copies the key meanwhile.
#[unsafe(no_mangle)]
pub extern "C" fn tree_index_bytes_at_or_below(
    alloc: Global,
    handle: &mut Handle,
    sought: &[u8],
    key: &mut [u8],
    entry: &mut Entry,
) -> i32
    ensures kept { held handle.new ≡ held handle.old }
    ensures told { AsksBytes
        (λ index answer. FindsEntry (at_or_below (slice_cmp nat_cmp) index.pairs sought.now) answer
        key.old key.new entry.old entry.new) (held handle.old) result }
    ensures stays { UnlessBytes (held handle.old) ((key.new ≡ key.old) × (entry.new ≡ entry.old)) }
{
    let Some(store) = handle.take(alloc) else {
        return MISFIT;
    };
    let answer = match store.bytes() {
        Some(index) => match key_of(alloc, sought) {
            Ok(sought) => write_entry(index.at_or_below(&sought), key, entry),
            Err(_) => NO_MEMORY,
        },
        None => MISFIT,
    };
    *handle = Handle::leading_to(store);
    answer
}

/// Writes the pair with a key, or else the one with the next larger key. Answers as
/// [`tree_index_bytes_first`] does. Runs in O(log n). Copies the key meanwhile.
#[unsafe(no_mangle)]
pub extern "C" fn tree_index_bytes_at_or_above(
    alloc: Global,
    handle: &mut Handle,
    sought: &[u8],
    key: &mut [u8],
    entry: &mut Entry,
) -> i32
    ensures kept { held handle.new ≡ held handle.old }
    ensures told { AsksBytes
        (λ index answer. FindsEntry (at_or_above (slice_cmp nat_cmp) index.pairs sought.now) answer
        key.old key.new entry.old entry.new) (held handle.old) result }
    ensures stays { UnlessBytes (held handle.old) ((key.new ≡ key.old) × (entry.new ≡ entry.old)) }
{
    let Some(store) = handle.take(alloc) else {
        return MISFIT;
    };
    let answer = match store.bytes() {
        Some(index) => match key_of(alloc, sought) {
            Ok(sought) => write_entry(index.at_or_above(&sought), key, entry),
            Err(_) => NO_MEMORY,
        },
        None => MISFIT,
    };
    *handle = Handle::leading_to(store);
    answer
}
