//! Indexes of given pairs.
use std::alloc::{AllocError, Global};
use tree_index::TreeIndex;

// Stores pairs in this order.
pub(crate) fn fill(
    index: &mut TreeIndex<u64, u64>,
    pairs: &[(u64, u64)],
) -> Result<(), AllocError> {
    for (key, value) in pairs {
        if index.insert_sync(*key, *value).is_err() {
            return Err(AllocError);
        }
    }
    Ok(())
}

// Returns an index of pairs that are stored in this order.
pub(crate) fn index_of(
    alloc: Global,
    pairs: &[(u64, u64)],
) -> Result<TreeIndex<u64, u64>, AllocError> {
    let mut index = TreeIndex::new(alloc);
    fill(&mut index, pairs)?;
    Ok(index)
}
