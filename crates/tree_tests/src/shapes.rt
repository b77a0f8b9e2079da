//! How deep a tree is, and how many leaves and nodes it has, as the rules of splits and of removals
//! give it.
use crate::numbers::{Stores, ascend};
use std::alloc::{AllocError, Global};
use std::process::Abort;
use test_support::refusals::succeeds;
use tree_index::{SmallTreeIndex, TreeIndex, TreeIndexOf};

// So many ascending keys, and the depth then. With seven slots a leaf node holds 8 leaves of 7, a
// node over such nodes 7 of 49 pairs and one of 56, and the next level 7 of 343 pairs and one of
// 399.
static DEPTHS: [(u64, usize); 7] = [
    (1, 1),
    (56, 1),
    (57, 2),
    (399, 2),
    (400, 3),
    (2800, 3),
    (2801, 4),
];

// An index of numbers that grows.
trait Grown: Stores {
    // Calls `depth`.
    fn depth(&self) -> usize;
}

impl Grown for SmallTreeIndex<u64, u64> {
    fn depth(&self) -> usize {
        TreeIndexOf::depth(self)
    }
}

// Stores ascending keys, and compares the depths.
fn expect_depths(rt: &impl Abort, index: &mut impl Grown) -> Result<(), AllocError> {
    let mut stored: u64 = 0;
    for (count, depth) in &DEPTHS {
        ascend(index, stored.saturating_add(1), *count)?;
        stored = *count;
        assert!(rt; index.depth() == *depth);
    }
    Ok(())
}

fn grows_with_seven_slots_steps(rt: &impl Abort, alloc: Global) -> Result<(), AllocError> {
    let mut index: SmallTreeIndex<u64, u64> = SmallTreeIndex::new(alloc);
    expect_depths(rt, &mut index)
}

#[test]
fn grows_by_a_level_with_seven_slots(rt: HostRuntime) {
    assert!(rt; succeeds(rt.alloc(), || grows_with_seven_slots_steps(&rt, rt.alloc())));
}

// An index of numbers whose leaves and nodes are counted.
trait Shaped: Stores {
    // Calls `remove_sync`.
    fn remove(&mut self, key: u64) -> bool;

    // Returns the depth, and the numbers of leaves and nodes.
    fn shape(&self) -> Shape;

    // Returns the depth, the spare and the length.
    fn sizes(&self) -> (usize, u8, usize);
}

impl Shaped for TreeIndex<u64, u64> {
    fn remove(&mut self, key: u64) -> bool {
        self.remove_sync(&key)
    }

    fn shape(&self) -> Shape {
        let (arenas, _) = self.parts();
        (self.depth(), arenas.leaf_count(), arenas.node_count())
    }

    fn sizes(&self) -> (usize, u8, usize) {
        (self.depth(), self.spare(), self.len())
    }
}

// The depth, and the numbers of leaves and nodes.
type Shape = (usize, usize, usize);

// Keys that come in ascending order, the keys that are removed then in ascending or descending
// order, and the shapes before and after.
struct Row {
    keys: (u64, u64),
    grown: Shape,
    removed: (u64, u64),
    descending: bool,
    left: Shape,
}

static ROWS: [Row; 5] = [
    Row {
        keys: (0, 240),
        grown: (2, 17, 3),
        removed: (225, 240),
        descending: false,
        left: (1, 15, 1),
    },
    Row {
        keys: (1, 241),
        grown: (2, 17, 3),
        removed: (1, 241),
        descending: false,
        left: (1, 0, 1),
    },
    Row {
        keys: (1, 241),
        grown: (2, 17, 3),
        removed: (1, 241),
        descending: true,
        left: (1, 0, 1),
    },
    Row {
        keys: (1, 3616),
        grown: (3, 242, 20),
        removed: (3376, 3616),
        descending: true,
        left: (2, 225, 16),
    },
    Row {
        keys: (1, 3616),
        grown: (3, 242, 20),
        removed: (226, 3616),
        descending: true,
        left: (1, 15, 1),
    },
];

// Removes the keys of a row.
fn shrink(index: &mut impl Shaped, row: &Row) {
    let (first, last) = row.removed;
    for key in first..=last {
        let mirrored = first.saturating_add(last.saturating_sub(key));
        let _ = index.remove(if row.descending { mirrored } else { key });
    }
}

// Whether an index of one level has no pair, and then takes one.
fn begins_anew(index: &mut impl Shaped) -> Result<bool, AllocError> {
    let (_, _, len) = index.sizes();
    if len != 0 {
        return Ok(false);
    }
    index.store(1, 1)?;
    Ok(index.sizes() == (1, 14, 1))
}

// Grows an index by the keys of a row, and removes those that the row names. Returns whether it
// has the first shape of the row when it has grown, and the last one in the end.
fn takes_both_shapes(index: &mut impl Shaped, row: &Row) -> Result<bool, AllocError> {
    ascend(index, row.keys.0, row.keys.1)?;
    let grown = index.shape();
    shrink(index, row);
    if [grown, index.shape()] != [row.grown, row.left] {
        return Ok(false);
    }
    let (_, leaves, _) = row.left;
    Ok(leaves > 0 || begins_anew(index)?)
}

fn expect_row(rt: &impl Abort, alloc: Global, row: &Row) -> Result<(), AllocError> {
    let mut index: TreeIndex<u64, u64> = TreeIndex::new(alloc);
    assert!(rt; takes_both_shapes(&mut index, row)?);
    Ok(())
}

#[test]
fn drops_leaves_and_lowers_its_root(rt: HostRuntime) {
    for row in &ROWS {
        assert!(rt; succeeds(rt.alloc(), || expect_row(&rt, rt.alloc(), row)));
    }
}
