//! Indexes that other types hold.
ghost use Rattle.std.specs.Prelude.{◌≡◌, [], IfOk, IfSome, vec_len};

use std::alloc::{AllocError, Global};
use tree_index::TreeIndex;

/// Returns so many empty indexes, one for each part of a market.
///
/// Returns `Err` if an allocation is refused.
pub fn parts_of_market(alloc: Global, count: usize) -> Result<Vec<TreeIndex<u64, u64>>, AllocError>
    ensures { IfOk result (λ parts. vec_len parts ≡ count) }
{
    let mut parts = Vec::with_capacity(alloc, count)?;
    for _ in 0..count {
        parts.push(TreeIndex::new(alloc))?;
    }
    Ok(parts)
}

/// Returns an empty index, if one is wanted.
pub fn if_wanted(alloc: Global, is_wanted: bool) -> Option<TreeIndex<u64, u64>>
    ensures { IfSome result (λ prices. prices.pairs ≡ []) }
{
    if is_wanted {
        Some(TreeIndex::new(alloc))
    } else {
        None
    }
}
