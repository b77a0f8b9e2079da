//! Indexes of pairs that arrive in the order of their keys, which are numbers.
ghost use Rattle.std.specs.Prelude.{◌≡◌, IfOk, map};
ghost use Rattle.tree_index_c.specs.Held.{held};
ghost use Rattle.tree_index_c.specs.Pairs.{pair_of};
ghost use Rattle.tree_index_c.specs.Sorted.{OpensSorted};

use crate::handle::Handle;
use crate::pair::Pair;
use crate::status::{MISFIT, NO, NO_MEMORY};
use crate::store::Store;
use std::alloc::{AllocError, Global};
use tree_index::{FromSortedError, TreeIndex};

/// Opens a closed handle on an index of these pairs, whose keys strictly ascend. Answers `NO` if
/// they don't, or if two are equal. The handle stays closed then. Compares each key with the next,
/// and gathers the pairs into whole leaves. Copies the pairs meanwhile.
#[unsafe(no_mangle)]
pub extern "C" fn tree_index_from_sorted(alloc: Global, handle: &mut Handle, pairs: &[Pair]) -> i32
    ensures { OpensSorted (map pair_of pairs.now) (held handle.old) result (held handle.new) }
{
    if handle.is_open {
        return MISFIT;
    }
    let Ok(pairs) = pairs_of(alloc, pairs) else {
        return NO_MEMORY;
    };
    match TreeIndex::from_sorted(alloc, pairs) {
        Ok(index) => handle.open(alloc, Store::Numbers(index)),
        Err(FromSortedError::NotAscending(_)) => NO,
        Err(FromSortedError::OutOfMemory) => NO_MEMORY,
    }
}

// Copies pairs of C.
fn pairs_of(alloc: Global, pairs: &[Pair]) -> Result<Vec<(u64, u64)>, AllocError>
    ensures { IfOk result (λ copy. copy.items ≡ map pair_of pairs.now) }
{
    pairs
        .iter()
        .map(|pair| (pair.key, pair.value))
        .collect(alloc)
}
