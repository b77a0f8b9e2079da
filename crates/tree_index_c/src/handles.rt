//! The calls that any handle takes.
ghost use Rattle.std.specs.Prelude.{◌≡◌, ◌^◌, ◌-◌, None, min};
ghost use Rattle.tree_index_c.specs.Answers.{Empties};
ghost use Rattle.tree_index_c.specs.Held.{held, count_in, depth_in, spare_in};

use crate::handle::Handle;
use crate::status::{MISFIT, YES};
use crate::store::Store;
use std::alloc::Global;

/// Frees the index of a handle and closes the handle. Does nothing to a closed one. Runs in O(n).
#[unsafe(no_mangle)]
pub extern "C" fn tree_index_free(alloc: Global, handle: &mut Handle)
    ensures { held handle.new ≡ None }
{
    drop(handle.take(alloc));
}

/// Returns the number of pairs, or 2^64 - 1 if there are more, and 0 if the handle is closed. Runs
/// in constant time.
#[unsafe(no_mangle)]
pub extern "C" fn tree_index_len(alloc: Global, handle: &mut Handle) -> usize
    ensures kept { held handle.new ≡ held handle.old }
    ensures len { result ≡ min (count_in (held handle.old)) (2 ^ 64 - 1) }
{
    let Some(store) = handle.take(alloc) else {
        return 0;
    };
    let len = match &*store {
        Store::Numbers(index) => index.len(),
        Store::Bytes(index) => index.len(),
        Store::FrozenNumbers(index) => index.len(),
        Store::FrozenBytes(index) => index.len(),
    };
    *handle = Handle::leading_to(store);
    len
}

/// Returns the number of levels of nodes, and 0 if the handle is closed. An index has no level
/// before its first pair and after it was cleared, and keeps one when its last pair is removed.
/// Runs in constant time.
#[unsafe(no_mangle)]
pub extern "C" fn tree_index_depth(alloc: Global, handle: &mut Handle) -> usize
    ensures kept { held handle.new ≡ held handle.old }
    ensures depth { result ≡ depth_in (held handle.old) }
{
    let Some(store) = handle.take(alloc) else {
        return 0;
    };
    let depth = match &*store {
        Store::Numbers(index) => index.depth(),
        Store::Bytes(index) => index.depth(),
        Store::FrozenNumbers(index) => index.depth(),
        Store::FrozenBytes(index) => index.depth(),
    };
    *handle = Handle::leading_to(store);
    depth
}

/// Returns how many writes are sure not to allocate an array, whatever their keys, and 0 if the
/// handle is closed. Runs in O(n).
#[unsafe(no_mangle)]
pub extern "C" fn tree_index_spare(alloc: Global, handle: &mut Handle) -> u8
    ensures kept { held handle.new ≡ held handle.old }
    ensures spare { result ≡ spare_in (held handle.old) }
{
    let Some(store) = handle.take(alloc) else {
        return 0;
    };
    let spare = match &*store {
        Store::Numbers(index) => index.spare(),
        Store::Bytes(index) => index.spare(),
        Store::FrozenNumbers(index) => index.spare(),
        Store::FrozenBytes(index) => index.spare(),
    };
    *handle = Handle::leading_to(store);
    spare
}

/// Removes all pairs. Answers `YES`, also if there was none. Runs in O(n). Keeps the memory for
/// later pairs.
#[unsafe(no_mangle)]
pub extern "C" fn tree_index_clear(alloc: Global, handle: &mut Handle) -> i32
    ensures { Empties (held handle.old) result (held handle.new) }
{
    let Some(mut store) = handle.take(alloc) else {
        return MISFIT;
    };
    let answer = match &mut *store {
        Store::Numbers(index) => {
            index.clear();
            YES
        }
        Store::Bytes(index) => {
            index.clear();
            YES
        }
        _ => MISFIT,
    };
    *handle = Handle::leading_to(store);
    answer
}
