//! The calls of one set, over sets of several sizes.
use crate::sets::insert_all;
use std::alloc::{AllocError, Global};
use std::ops::Bound;
use std::process::Abort;
use test_support::refusals::succeeds;
use tree_set::{TreeSet, TreeSetOf};

// Inserts the numbers below `count`, the largest first.
fn fill(set: &mut TreeSet<u64>, count: u64) -> Result<(), AllocError> {
    for number in (0..count).rev() {
        if set.insert(number).is_err() {
            return Err(AllocError);
        }
    }
    Ok(())
}

// Returns whether the set has the numbers below `count`, and reports them.
fn has_run(set: &TreeSet<u64>, count: u64) -> bool {
    (set.len() as u64, set.is_empty(), set.contains(&count)) == (count, count == 0, false)
        && (count == 0 || set.contains(&(count - 1)))
}

// Returns whether a walk gives 0, 1, 2 and so on up to `count`.
fn walks_run(set: &TreeSet<u64>, count: u64) -> bool {
    let mut next = 0u64;
    for element in set {
        if *element != next {
            return false;
        }
        next = next.wrapping_add(1);
    }
    next == count
}

// Returns the ends of the set.
fn ends(set: &TreeSet<u64>) -> (Option<u64>, Option<u64>) {
    (set.first().copied(), set.last().copied())
}

// The numbers of elements: none, one, a full leaf, and so many that the tree has three levels.
static COUNTS: [u64; 4] = [0, 1, 15, 400];

fn walks_rows_steps(rt: &impl Abort, alloc: Global) -> Result<(), AllocError> {
    let mut set: TreeSet<u64> = TreeSetOf::new(alloc);
    for count in &COUNTS {
        set.clear();
        fill(&mut set, *count)?;
        assert!(rt; has_run(&set, *count) && walks_run(&set, *count));
    }
    assert!(rt; ends(&set) == (Some(0), Some(399)));
    Ok(())
}

#[test]
fn walks_rows(rt: HostRuntime) {
    assert!(rt; succeeds(rt.alloc(), || walks_rows_steps(&rt, rt.alloc())));
}

fn removes_steps(rt: &impl Abort, alloc: Global) -> Result<(), AllocError> {
    let mut set: TreeSet<u64> = TreeSetOf::new(alloc);
    insert_all(&mut set, &[3, 1, 2, 3, 7, 9])?;
    assert!(rt; format!(in alloc; "{set:?}")?.as_str() == "{1, 2, 3, 7, 9}");
    assert!(rt; set.remove(&2) && !set.remove(&2));
    assert!(rt; set.range((Bound::Excluded(&3), Bound::Unbounded)).next() == Some(&7));
    set.remove_range((Bound::Included(&3), Bound::Excluded(&9)));
    assert!(rt; format!(in alloc; "{set:?}")?.as_str() == "{1, 9}");
    Ok(())
}

#[test]
fn removes(rt: HostRuntime) {
    assert!(rt; succeeds(rt.alloc(), || removes_steps(&rt, rt.alloc())));
}
