//! Ranges of keys that are numbers.
ghost use Rattle.std.specs.Prelude.{◌≡◌, reverse};
ghost use Rattle.std.specs.Ordering.{nat_cmp};
ghost use Rattle.tree_model.specs.Ways.{along};
ghost use Rattle.tree_model.specs.Rest.{Moves};
ghost use Rattle.tree_index_c.specs.Held.{OnNumbers, held, numbers_in};
ghost use Rattle.tree_index_c.specs.Pairs.{Fills, as_pair, bound_at, pairs_between};
ghost use Rattle.tree_model.specs.Pairs.{cut};
ghost use Rattle.tree_cursors.specs.Ranged.{way_of};

use crate::handle::Handle;
use crate::pair::{Pair, bound_of};
use crate::status::{MISFIT, YES};
use crate::store::Store;
use std::alloc::Global;
use std::ops::Bound;
use tree_index::{Range, TreeIndex};

/// Writes the first pairs whose keys are within both bounds, in ascending order, as many as there
/// are places. Returns how many it wrote, and 0 if the handle holds no index of numbers. Fewer than
/// there are places means that there are no others. Runs in O(log n) and the number of places.
#[unsafe(no_mangle)]
pub extern "C" fn tree_index_fill(
    alloc: Global,
    handle: &mut Handle,
    low_kind: u8,
    low: u64,
    high_kind: u8,
    high: u64,
    places: &mut [Pair],
) -> usize
    ensures kept { held handle.new ≡ held handle.old }
    ensures filled { Fills as_pair
        (pairs_between nat_cmp (bound_at low_kind low) (bound_at high_kind high)
        (numbers_in (held handle.old))) places.old result places.new }
{
    let Some(store) = handle.take(alloc) else {
        return 0;
    };
    let bounds = (bound_of(low_kind, low), bound_of(high_kind, high));
    let count = match store.numbers() {
        Some(index) => fill_from(index, bounds, false, places),
        None => 0,
    };
    *handle = Handle::leading_to(store);
    count
}

/// Writes the last pairs whose keys are within both bounds, in descending order, as many as there
/// are places. Returns how many it wrote, and 0 if the handle holds no index of numbers. Fewer than
/// there are places means that there are no others. Runs in O(log n) and the number of places.
#[unsafe(no_mangle)]
pub extern "C" fn tree_index_fill_back(
    alloc: Global,
    handle: &mut Handle,
    low_kind: u8,
    low: u64,
    high_kind: u8,
    high: u64,
    places: &mut [Pair],
) -> usize
    ensures kept { held handle.new ≡ held handle.old }
    ensures filled { Fills as_pair
        (reverse (pairs_between nat_cmp (bound_at low_kind low)
        (bound_at high_kind high) (numbers_in (held handle.old)))) places.old result places.new }
{
    let Some(store) = handle.take(alloc) else {
        return 0;
    };
    let bounds = (bound_of(low_kind, low), bound_of(high_kind, high));
    let count = match store.numbers() {
        Some(index) => fill_from(index, bounds, true, places),
        None => 0,
    };
    *handle = Handle::leading_to(store);
    count
}

/// Removes every pair whose key is within both bounds. Answers `YES`, also if there was none. Makes
/// O(log n) comparisons, and frees the leaves between the bounds whole. Allocates nothing.
#[unsafe(no_mangle)]
pub extern "C" fn tree_index_remove_range(
    alloc: Global,
    handle: &mut Handle,
    low_kind: u8,
    low: u64,
    high_kind: u8,
    high: u64,
) -> i32
    ensures { OnNumbers
        (λ old answer new. (answer ≡ YES)
        × (new.pairs ≡ cut nat_cmp old.pairs (bound_at low_kind low) (bound_at high_kind high)))
        (held handle.old) result (held handle.new) }
{
    let Some(mut store) = handle.take(alloc) else {
        return MISFIT;
    };
    let low = bound_of(low_kind, low);
    let high = bound_of(high_kind, high);
    let answer = match &mut *store {
        Store::Numbers(index) => {
            index.remove_range_sync((low.as_ref(), high.as_ref()));
            YES
        }
        _ => MISFIT,
    };
    *handle = Handle::leading_to(store);
    answer
}

// Inlined into both exports, so that each has the moves of one direction alone.
#[inline(always)]
fn fill_from(
    index: &TreeIndex<u64, u64>,
    bounds: (Bound<u64>, Bound<u64>),
    backwards: bool,
    places: &mut [Pair],
) -> usize
    ensures { Fills as_pair
        (along (way_of backwards)
        (pairs_between nat_cmp bounds.0 bounds.1 index.now.pairs)) places.old result places.new }
{
    let (low, high) = bounds;
    let mut cursor = index.range((low.as_ref(), high.as_ref()));
    for at in 0..places.len() {
        let Some((key, value)) = step(&mut cursor, backwards) else {
            return at;
        };
        places[at] = Pair {
            key: *key,
            value: *value,
        };
    }
    places.len()
}

/// Takes the next pair from one end of a walk.
#[inline(always)]
pub fn step<'t>(cursor: &mut Range<'t, u64, u64>, backwards: bool) -> Option<(&'t u64, &'t u64)>
    ensures { Moves nat_cmp (way_of backwards) cursor.old result cursor.new }
{
    if backwards {
        cursor.next_back()
    } else {
        cursor.next()
    }
}
