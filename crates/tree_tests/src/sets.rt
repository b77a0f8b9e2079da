//! Tests of sets: worked rows, and two sets side by side.
mod rows;
mod two_sets;

use std::alloc::AllocError;
use tree_set::TreeSet;

// Inserts elements in this order.
pub(crate) fn insert_all(set: &mut TreeSet<u64>, elements: &[u64]) -> Result<(), AllocError> {
    for element in elements {
        if set.insert(*element).is_err() {
            return Err(AllocError);
        }
    }
    Ok(())
}
