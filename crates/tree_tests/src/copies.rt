//! Copies of an index, which leave it as it was and are as deep.
use crate::indexes::index_of;
use std::alloc::{AllocError, Global};
use std::process::Abort;
use test_support::refusals::succeeds;
use tree_index::{SmallTreeIndex, TreeIndex, TreeIndexOf};

// Copies an index, and returns the length of the copy.
fn copied_length(alloc: Global, index: &TreeIndex<u64, u64>) -> Result<usize, AllocError> {
    let copy = index.try_clone(alloc)?;
    Ok(copy.len())
}

// Copies an index of one pair. If an allocation fails, the pair stays.
fn leaves_its_source_steps(rt: &impl Abort, alloc: Global) -> Result<(), AllocError> {
    let index = index_of(alloc, &[(1, 10)])?;
    let copied = copied_length(alloc, &index);
    assert!(rt; index.peek(&1).copied() == Some(10));
    assert!(rt; copied? == 1);
    Ok(())
}

#[test]
fn leaves_its_source(rt: HostRuntime) {
    assert!(rt; succeeds(rt.alloc(), || leaves_its_source_steps(&rt, rt.alloc())));
}

// Whether two indexes are equal.
fn are_equal(first: &SmallTreeIndex<u64, u64>, second: &SmallTreeIndex<u64, u64>) -> bool {
    first == second
}

// An index of the keys from 0 to 99, with seven pairs a leaf.
fn small_index(alloc: Global) -> Result<SmallTreeIndex<u64, u64>, AllocError> {
    let mut index: SmallTreeIndex<u64, u64> = TreeIndexOf::new(alloc);
    for key in 0..100u64 {
        if index.insert_sync(key, key).is_err() {
            return Err(AllocError);
        }
    }
    Ok(index)
}

// Copies the index. The copy is equal to it, and as deep.
fn copies_leaves(
    rt: &impl Abort,
    alloc: Global,
    index: &SmallTreeIndex<u64, u64>,
) -> Result<(), AllocError> {
    let copy = index.try_clone(alloc)?;
    assert!(rt; are_equal(&copy, index) && copy.len() == 100 && copy.depth() == 2);
    Ok(())
}

// An index with seven pairs a leaf is copied by the same text.
fn copies_small_leaves_steps(rt: &impl Abort, alloc: Global) -> Result<(), AllocError> {
    let index = small_index(alloc)?;
    copies_leaves(rt, alloc, &index)
}

#[test]
fn copies_small_leaves(rt: HostRuntime) {
    assert!(rt; succeeds(rt.alloc(), || copies_small_leaves_steps(&rt, rt.alloc())));
}
