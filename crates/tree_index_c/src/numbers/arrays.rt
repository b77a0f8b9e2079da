//! Ranges of keys that are numbers, with an array for the keys and one for the values.
ghost use Rattle.std.specs.Prelude.{◌≡◌, reverse};
ghost use Rattle.std.specs.Ordering.{nat_cmp};
ghost use Rattle.tree_cursors.specs.Ranged.{way_of};
ghost use Rattle.tree_index_c.specs.Held.{held, numbers_in};
ghost use Rattle.tree_index_c.specs.Pairs.{FillsArrays, bound_at, pairs_between};
ghost use Rattle.tree_model.specs.Ways.{along};

use crate::handle::Handle;
use crate::numbers::ranges::step;
use crate::pair::bound_of;
use std::alloc::Global;
use std::ops::Bound;
use tree_index::TreeIndex;

/// Writes the keys of the first pairs that are within both bounds to `keys`, and their values to
/// the same places of `values`, in ascending order, as many as there are places of both. Returns
/// how many it wrote, as [`tree_index_fill`] does.
#[unsafe(no_mangle)]
pub extern "C" fn tree_index_fill_arrays(
    alloc: Global,
    handle: &mut Handle,
    low_kind: u8,
    low: u64,
    high_kind: u8,
    high: u64,
    keys: &mut [u64],
    values: &mut [u64],
) -> usize
    ensures kept { held handle.new ≡ held handle.old }
    ensures filled { FillsArrays
        (pairs_between nat_cmp (bound_at low_kind low) (bound_at high_kind high)
        (numbers_in (held handle.old))) keys.old values.old result keys.new values.new }
{
    let Some(store) = handle.take(alloc) else {
        return 0;
    };
    let bounds = (bound_of(low_kind, low), bound_of(high_kind, high));
    let count = match store.numbers() {
        Some(index) => fill_arrays(index, bounds, false, keys, values),
        None => 0,
    };
    *handle = Handle::leading_to(store);
    count
}

/// Does what [`tree_index_fill_arrays`] does from the other end: the last pairs, in descending
/// order.
#[unsafe(no_mangle)]
pub extern "C" fn tree_index_fill_arrays_back(
    alloc: Global,
    handle: &mut Handle,
    low_kind: u8,
    low: u64,
    high_kind: u8,
    high: u64,
    keys: &mut [u64],
    values: &mut [u64],
) -> usize
    ensures kept { held handle.new ≡ held handle.old }
    ensures filled { FillsArrays
        (reverse (pairs_between nat_cmp (bound_at low_kind low) (bound_at high_kind high)
        (numbers_in (held handle.old)))) keys.old values.old result keys.new values.new }
{
    let Some(store) = handle.take(alloc) else {
        return 0;
    };
    let bounds = (bound_of(low_kind, low), bound_of(high_kind, high));
    let count = match store.numbers() {
        Some(index) => fill_arrays(index, bounds, true, keys, values),
        None => 0,
    };
    *handle = Handle::leading_to(store);
    count
}

// Inlined into both exports, so that each has the moves of one direction alone.
#[inline(always)]
fn fill_arrays(
    index: &TreeIndex<u64, u64>,
    bounds: (Bound<u64>, Bound<u64>),
    backwards: bool,
    keys: &mut [u64],
    values: &mut [u64],
) -> usize
    ensures { FillsArrays
        (along (way_of backwards) (pairs_between nat_cmp bounds.0 bounds.1 index.now.pairs))
        keys.old values.old result keys.new values.new }
{
    let (low, high) = bounds;
    let mut cursor = index.range((low.as_ref(), high.as_ref()));
    let room = keys.len().min(values.len());
    for at in 0..room {
        let Some((key, value)) = step(&mut cursor, backwards) else {
            return at;
        };
        keys[at] = *key;
        values[at] = *value;
    }
    room
}
