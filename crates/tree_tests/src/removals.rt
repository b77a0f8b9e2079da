//! How many comparisons removals make.
use crate::asked::RemovedKeys;
use crate::keys::Asked;
use std::alloc::{AllocError, Global};
use std::cell::Cell;
use std::process::Abort;
use test_support::refusals::succeeds;
use tree_index::{SmallTreeIndex, TreeIndex};

// What is removed from an index of the keys up to the last.
#[derive(Clone, Copy)]
enum Removal {
    // The keys from 226 to 3375.
    Range,
    // All keys one by one in ascending order.
    Run,
}

const KEYS: u64 = 3616;

// Stores the keys up to the last in ascending order.
fn fill<'c>(index: &mut impl RemovedKeys<'c>, counter: &'c Cell<u64>) -> Result<(), AllocError> {
    for number in 1..=KEYS {
        index.store(number, counter)?;
    }
    Ok(())
}

// Returns whether the keys from 226 to 3375 are removed, with at most 150 comparisons.
fn compares_at_the_borders<'c>(index: &mut impl RemovedKeys<'c>, counter: &'c Cell<u64>) -> bool {
    let (low, high) = (Asked::new(226, counter), Asked::new(3375, counter));
    counter.set(0);
    index.remove_range(&low, &high);
    counter.get() <= 150 && index.len() == 466
}

// Removes a key, which is there. Returns how many comparisons that makes.
fn compared_by_removal<'c>(
    rt: &impl Abort,
    index: &mut impl RemovedKeys<'c>,
    counter: &'c Cell<u64>,
    number: u64,
) -> u64 {
    let key = Asked::new(number, counter);
    counter.set(0);
    assert!(rt; index.remove(&key));
    counter.get()
}

// Returns whether all keys are removed one by one, and all but so many removals make few
// comparisons.
fn descends_seldom<'c>(
    rt: &impl Abort,
    index: &mut impl RemovedKeys<'c>,
    counter: &'c Cell<u64>,
    (few, descents): (u64, u64),
) -> bool {
    let mut longer: u64 = 0;
    for number in 1..=KEYS {
        if compared_by_removal(rt, index, counter, number) > few {
            longer = longer.saturating_add(1);
        }
    }
    longer <= descents && index.len() == 0
}

// Fills an index and removes keys, of a run all but so many with few comparisons.
fn expect_few<'c>(
    rt: &impl Abort,
    index: &mut impl RemovedKeys<'c>,
    counter: &'c Cell<u64>,
    removal: Removal,
    of_a_run: (u64, u64),
) -> Result<(), AllocError> {
    fill(index, counter)?;
    let are_few = match removal {
        Removal::Range => compares_at_the_borders(index, counter),
        Removal::Run => descends_seldom(rt, index, counter, of_a_run),
    };
    assert!(rt; are_few);
    Ok(())
}

fn remove_steps(rt: &impl Abort, alloc: Global, removal: Removal) -> Result<(), AllocError> {
    let counter = Cell::new(0);
    let mut index: TreeIndex<Asked, u64> = TreeIndex::new(alloc);
    expect_few(rt, &mut index, &counter, removal, (6, 244))
}

fn small_remove_steps(rt: &impl Abort, alloc: Global, removal: Removal) -> Result<(), AllocError> {
    let counter = Cell::new(0);
    let mut index: SmallTreeIndex<Asked, u64> = SmallTreeIndex::new(alloc);
    expect_few(rt, &mut index, &counter, removal, (5, 519))
}

// Whether a removal makes few comparisons at both sizes.
fn makes_few(rt: &impl Abort, alloc: Global, removal: Removal) -> bool {
    succeeds(alloc, || {
        remove_steps(rt, alloc, removal)?;
        small_remove_steps(rt, alloc, removal)
    })
}

// Of 3,616 keys 3,150 go, and the two borders alone are compared.
#[test]
fn compares_at_the_borders_alone(rt: HostRuntime) {
    assert!(rt; makes_few(&rt, rt.alloc(), Removal::Range));
}

// In a run of removals the first two descend, and those that empty one of the 242 or 517 leaves.
// Each other one compares its key with two keys of its leaf, and searches there.
#[test]
fn descends_seldom_in_a_run(rt: HostRuntime) {
    assert!(rt; makes_few(&rt, rt.alloc(), Removal::Run));
}
