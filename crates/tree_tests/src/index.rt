//! Calls of the index that take a condition or change a value, and its texts.
use crate::cursor_texts::expect_text;
use crate::indexes::index_of;
use crate::numbers::Stores;
use std::alloc::{AllocError, Global};
use std::process::Abort;
use test_support::refusals::succeeds;
use tree_index::{InsertError, SmallTreeIndex, TreeIndex, TreeIndexOf};

// An index of numbers, with calls that take a closure.
trait Conditional: Stores {
    // Adds to the value at a key by `modify_sync`, and returns whether there is one.
    fn add(&mut self, key: u64, amount: u64) -> bool;

    // Removes the pair of the key 1 by `remove_if_sync` if it has this value. Returns whether it
    // did, and how often the condition was called.
    fn remove_value(&mut self, wanted: u64) -> (bool, u64);
}

impl<const LEN: usize> Conditional for TreeIndexOf<u64, u64, LEN> {
    fn add(&mut self, key: u64, amount: u64) -> bool {
        self.modify_sync(&key, |value| value.wrapping_add(amount))
    }

    fn remove_value(&mut self, wanted: u64) -> (bool, u64) {
        let mut asked = 0u64;
        let removed = self.remove_if_sync(&1, |value| {
            asked = asked.saturating_add(1);
            *value == wanted
        });
        (removed, asked)
    }
}

// Values that the condition wants of the key 1, in turn, whether the pair is removed, and how often
// the condition is called.
static CONDITIONS: [(u64, bool, u64); 3] = [(0, false, 1), (10, true, 1), (10, false, 0)];

// Whether the condition is called once for a key that is present, and never for an absent one.
fn asks_once(index: &mut impl Conditional) -> Result<bool, AllocError> {
    index.store(1, 5)?;
    if [index.add(1, 5), index.add(2, 5)] != [true, false] {
        return Ok(false);
    }
    for (wanted, removes, times) in &CONDITIONS {
        if index.remove_value(*wanted) != (*removes, *times) {
            return Ok(false);
        }
    }
    Ok(true)
}

fn asks_once_steps(rt: &impl Abort, alloc: Global) -> Result<(), AllocError> {
    let mut index: TreeIndex<u64, u64> = TreeIndex::new(alloc);
    assert!(rt; asks_once(&mut index)?);
    Ok(())
}

fn small_asks_once_steps(rt: &impl Abort, alloc: Global) -> Result<(), AllocError> {
    let mut index: SmallTreeIndex<u64, u64> = SmallTreeIndex::new(alloc);
    assert!(rt; asks_once(&mut index)?);
    Ok(())
}

#[test]
fn asks_its_condition_once(rt: HostRuntime) {
    assert!(rt;
        succeeds(rt.alloc(), || {
            asks_once_steps(&rt, rt.alloc())?;
            small_asks_once_steps(&rt, rt.alloc())
        })
    );
}

// Pairs, and the text of their index.
static TEXTS: [(&[(u64, u64)], &str); 2] = [
    (&[], "TreeIndex { depth: 0, entries: [] }"),
    (
        &[(3, 4), (1, 10)],
        "TreeIndex { depth: 1, entries: [(1, 10), (3, 4)] }",
    ),
];

// Compares the text of the index of these pairs.
fn expect_shown(
    rt: &impl Abort,
    alloc: Global,
    pairs: &[(u64, u64)],
    wanted: &str,
) -> Result<(), AllocError> {
    let index = index_of(alloc, pairs)?;
    expect_text(rt, alloc, &index, wanted)
}

#[test]
fn shows_its_depth_and_its_pairs(rt: HostRuntime) {
    for (pairs, text) in &TEXTS {
        assert!(rt; succeeds(rt.alloc(), || expect_shown(&rt, rt.alloc(), *pairs, *text)));
    }
}

fn tells_why_a_pair_was_refused_steps(rt: &impl Abort, alloc: Global) -> Result<(), AllocError> {
    let duplicate: InsertError<u64, u64> = InsertError::Duplicate(1, 10);
    let refused: InsertError<u64, u64> = InsertError::OutOfMemory(1, 10);
    let shown = format!(in alloc; "{duplicate}; {refused}; {refused:?}")?;
    assert!(rt; shown.as_str() == "the key is present; out of memory; OutOfMemory(1, 10)");
    Ok(())
}

#[test]
fn tells_why_a_pair_was_refused(rt: HostRuntime) {
    assert!(rt;
        succeeds(
            rt.alloc(),
            || tells_why_a_pair_was_refused_steps(&rt, rt.alloc())
        )
    );
}
