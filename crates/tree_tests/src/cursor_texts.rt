//! The texts of cursors.
use crate::indexes::fill;
use std::alloc::{AllocError, Global};
use std::fmt::Debug;
use std::ops::Bound;
use std::process::Abort;
use test_support::refusals::succeeds;
use tree_index::TreeIndex;

// Compares what `Debug` writes.
pub(crate) fn expect_text<T: Debug>(
    rt: &impl Abort,
    alloc: Global,
    shown: &T,
    wanted: &str,
) -> Result<(), AllocError> {
    let text = format!(in alloc; "{shown:?}")?;
    assert!(rt; text.as_str() == wanted);
    Ok(())
}

// Pairs, a key, and the text of where it is.
type Place = (&'static [(u64, u64)], u64, &'static str);

static PLACES: [Place; 3] = [
    (
        &[(1, 1), (3, 2)],
        2,
        "Between(Iter { forward: Some((1, 1)), backward: Some((3, 2)) })",
    ),
    (
        &[(1, 1), (3, 2)],
        3,
        "Exact(Iter { forward: Some((3, 2)), backward: None })",
    ),
    (&[], 9, "Empty"),
];

// Compares the text of where a key is in an index of these pairs.
fn expect_place(
    rt: &impl Abort,
    alloc: Global,
    index: &mut TreeIndex<u64, u64>,
    (pairs, key, wanted): Place,
) -> Result<(), AllocError> {
    fill(index, pairs)?;
    expect_text(rt, alloc, &index.locate(&key), wanted)
}

fn text_of_place_steps(rt: &impl Abort, alloc: Global, place: Place) -> Result<(), AllocError> {
    let mut index: TreeIndex<u64, u64> = TreeIndex::new(alloc);
    expect_place(rt, alloc, &mut index, place)
}

#[test]
fn shows_where_a_key_is(rt: HostRuntime) {
    for place in &PLACES {
        assert!(rt; succeeds(rt.alloc(), || text_of_place_steps(&rt, rt.alloc(), *place)));
    }
}

// The text of a walk that has made its first move.
fn expect_begun(
    rt: &impl Abort,
    alloc: Global,
    index: &TreeIndex<u64, u64>,
) -> Result<(), AllocError> {
    let mut iter = index.iter();
    iter.next();
    let begun = "Iter { forward: Some((1, 10)), backward: None }";
    expect_text(rt, alloc, &iter, begun)
}

// The texts of a range that has made a move from one end, and then from the other.
fn expect_begun_range(
    rt: &impl Abort,
    alloc: Global,
    index: &TreeIndex<u64, u64>,
) -> Result<(), AllocError> {
    let mut range = index.range((Bound::Included(&1), Bound::Excluded(&5)));
    range.next();
    let begun = "Range { forward: Some((1, 10)), backward: None }";
    expect_text(rt, alloc, &range, begun)?;
    range.next_back();
    let both = "Range { forward: Some((1, 10)), backward: Some((3, 4)) }";
    expect_text(rt, alloc, &range, both)
}

fn expect_begun_walks(
    rt: &impl Abort,
    alloc: Global,
    index: &mut TreeIndex<u64, u64>,
) -> Result<(), AllocError> {
    fill(index, &[(1, 10), (3, 4)])?;
    expect_begun(rt, alloc, index)?;
    expect_begun_range(rt, alloc, index)
}

fn texts_of_begun_walks_steps(rt: &impl Abort, alloc: Global) -> Result<(), AllocError> {
    let mut index: TreeIndex<u64, u64> = TreeIndex::new(alloc);
    expect_begun_walks(rt, alloc, &mut index)
}

#[test]
fn shows_both_ends(rt: HostRuntime) {
    assert!(rt; succeeds(rt.alloc(), || texts_of_begun_walks_steps(&rt, rt.alloc())));
}

fn text_of_nothing_steps(rt: &impl Abort, alloc: Global) -> Result<(), AllocError> {
    let index: TreeIndex<u64, u64> = TreeIndex::new(alloc);
    let range = index.range((Bound::Unbounded, Bound::Unbounded));
    expect_text(rt, alloc, &range, "Range { forward: None, backward: None }")
}

#[test]
fn shows_nothing_of_an_empty_index(rt: HostRuntime) {
    assert!(rt; succeeds(rt.alloc(), || text_of_nothing_steps(&rt, rt.alloc())));
}
