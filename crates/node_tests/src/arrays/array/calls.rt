//! What the calls of an array return, on arrays worked out by hand.
use super::found::{Found, found};
use crate::arrays::expect::expect_eq;
use port_calls::dimension::DIMENSION;
use std::process::Abort;
use tree_array::array::{Array, ArrayOf, InsertResult, RemoveResult};

// The array in which these keys arrived, each with itself as its value.
pub(crate) fn of(keys: &[u64]) -> Array<u64, u64> {
    let mut array = Array::new();
    for key in keys {
        let _ = array.insert::<true>(*key, *key);
    }
    array
}

fn small_of(keys: &[u64]) -> ArrayOf<u64, u64, 7> {
    let mut array = ArrayOf::new();
    for key in keys {
        let _ = array.insert::<true>(*key, *key);
    }
    array
}

// The pair of a key, its value, and the slot of the least key from it on.
pub(crate) type AtKey = (u64, Found);

// Compares what the searches find.
pub(crate) fn expect_found(rt: &impl Abort, array: &Array<u64, u64>, rows: &[AtKey]) {
    for (key, wanted) in rows {
        expect_eq(rt, found(array, *key), *wanted);
    }
}

static OF_FIVE_ARRIVALS: [AtKey; 4] = [
    (9, (Some((9, 90)), Some(90), Some(4))),
    (6, (None, None, Some(4))),
    (3, (None, None, Some(3))),
    (10, (None, None, None)),
];

#[test]
fn stores_and_finds(rt: HostRuntime) {
    let mut array = of(&[5, 3, 9]);
    expect_eq(&rt, array.len(), 3);
    expect_eq(&rt, array.remove_if(&3, |_| true), RemoveResult::Success);
    expect_eq(&rt, array.insert::<false>(4, 4), InsertResult::Success);
    expect_eq(&rt, (array.len(), array.free()), (3, 11));
    expect_eq(&rt, array.insert::<true>(9, 90), InsertResult::Success);
    expect_eq(&rt, (array.len(), array.free()), (3, 10));
    expect_eq(&rt, array.optimal_boundary(), (15, 3, false));
    expect_found(&rt, &array, &OF_FIVE_ARRIVALS);
}

#[test]
fn stores_in_seven_slots(rt: HostRuntime) {
    let array = small_of(&[6, 2, 4]);
    expect_eq(&rt, (array.len(), array.free()), (3, 4));
    expect_eq(&rt, (DIMENSION.len, DIMENSION.bits), (15, 4));
}

// Keys in the order of their arrival, and where their array is to be divided, how many there are,
// and whether all came in ascending order.
type Division = (&'static [u64], (u8, usize, bool));

static DIVISIONS: [Division; 5] = [
    (
        &[0, 1, 2, 3, 4, 5, 6, 7, 8, 9, 10, 11, 12, 13, 14],
        (14, 15, true),
    ),
    (
        &[14, 13, 12, 11, 10, 9, 8, 7, 6, 5, 4, 3, 2, 1, 0],
        (1, 15, false),
    ),
    (
        &[7, 6, 5, 4, 3, 2, 1, 0, 8, 9, 10, 11, 12, 13, 14],
        (7, 15, false),
    ),
    (
        &[0, 1, 2, 3, 4, 5, 6, 7, 9, 8, 10, 11, 12, 13, 14],
        (13, 15, false),
    ),
    (
        &[14, 13, 12, 11, 10, 8, 9, 7, 6, 5, 4, 3, 2, 1, 0],
        (2, 15, false),
    ),
];

// Whether the array of these arrivals is to be divided there.
fn divides(division: &Division) -> bool {
    of(division.0).optimal_boundary() == division.1
}

#[test]
fn boundaries(rt: HostRuntime) {
    for division in &DIVISIONS {
        assert!(rt; divides(division));
    }
}

static SMALL_DIVISIONS: [Division; 8] = [
    (&[1, 2, 3, 4, 5, 6, 7], (6, 7, true)),
    (&[2, 1, 3, 4, 5, 6, 7], (5, 7, false)),
    (&[6, 2, 4, 7, 1, 3, 5], (4, 7, false)),
    (&[6, 2, 4, 1, 7, 3, 5], (3, 7, false)),
    (&[6, 2, 4, 1, 7, 5, 3], (3, 7, false)),
    (&[7, 6, 5, 4, 3, 1, 2], (2, 7, false)),
    (&[7, 6, 5, 4, 3, 2, 1], (1, 7, false)),
    (&[1, 2, 3, 4, 5], (7, 5, false)),
];

// Whether the array of seven slots with these arrivals is to be divided there.
fn divides_small(division: &Division) -> bool {
    small_of(division.0).optimal_boundary() == division.1
}

#[test]
fn boundaries_of_seven_slots(rt: HostRuntime) {
    for division in &SMALL_DIVISIONS {
        assert!(rt; divides_small(division));
    }
}
