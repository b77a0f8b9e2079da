//! Two sets side by side.
use crate::sets::insert_all;
use std::alloc::{AllocError, Global};
use std::process::Abort;
use test_support::refusals::succeeds;
use tree_set::{TreeSet, TreeSetOf};

// Returns the digits that the union gives, as one number.
fn of_either(first: &TreeSet<u64>, second: &TreeSet<u64>) -> u64 {
    let mut digits = 0u64;
    for digit in first.union(second) {
        digits = digits.wrapping_mul(10).wrapping_add(*digit);
    }
    digits
}

// Returns those that the intersection gives.
fn of_both(first: &TreeSet<u64>, second: &TreeSet<u64>) -> u64 {
    let mut digits = 0u64;
    for digit in first.intersection(second) {
        digits = digits.wrapping_mul(10).wrapping_add(*digit);
    }
    digits
}

// Returns those that the symmetric difference gives.
fn of_one(first: &TreeSet<u64>, second: &TreeSet<u64>) -> u64 {
    let mut digits = 0u64;
    for digit in first.symmetric_difference(second) {
        digits = digits.wrapping_mul(10).wrapping_add(*digit);
    }
    digits
}

// Returns whether a clone equals the set.
fn is_cloned(set: &TreeSet<u64>) -> Result<bool, AllocError> {
    let copy = set.clone()?;
    Ok(copy == *set)
}

// Compares 1, 3 and 5 with a copy that gets 4.
fn compares_with_a_copy(
    rt: &impl Abort,
    alloc: Global,
    first: &TreeSet<u64>,
) -> Result<(), AllocError> {
    let mut second = first.try_clone(alloc)?;
    insert_all(&mut second, &[4])?;
    let told = [
        of_either(first, &second),
        of_both(first, &second),
        of_one(first, &second),
    ];
    assert!(rt; told == [1345, 135, 4]);
    Ok(())
}

fn compares_steps(rt: &impl Abort, alloc: Global) -> Result<(), AllocError> {
    let mut first: TreeSet<u64> = TreeSetOf::new(alloc);
    insert_all(&mut first, &[5, 1, 3])?;
    assert!(rt; is_cloned(&first)?);
    compares_with_a_copy(rt, alloc, &first)
}

#[test]
fn compares_with_copies(rt: HostRuntime) {
    assert!(rt; succeeds(rt.alloc(), || compares_steps(&rt, rt.alloc())));
}
