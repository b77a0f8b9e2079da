//! What look-ups compare: how often, and which keys.
ghost use Rattle.std.specs.Prelude.{◌≡◌, ◌<◌};

use crate::asked::AskedKeys;
use crate::keys::Asked;
use crate::numbers::Stores;
use std::alloc::{AllocError, Global};
use std::cell::Cell;
use std::cmp::Ordering;
use std::marker::Brand;
use std::process::Abort;
use std::sync::ledger::{Blank, Ledger};
use test_support::refusals::succeeds;
use tree_array::array::{Judge, KeyJudge, Steps};
use tree_index::{SmallTreeIndex, TreeIndex, TreeIndexOf};

/// What a judge looks a key up in.
pub trait LookedUp<K: Ord> {
    /// Whether the judge finds a pair.
    fn finds<J: Judge<K>>(&self, judge: &mut J) -> bool;
}

impl<'c, const LEN: usize> LookedUp<Asked<'c>> for TreeIndexOf<Asked<'c>, u64, LEN> {
    fn finds<J: Judge<Asked<'c>>>(&self, judge: &mut J) -> bool {
        self.peek_entry_by(judge).is_some()
    }
}

impl<const LEN: usize> LookedUp<u64> for TreeIndexOf<u64, u64, LEN> {
    fn finds<J: Judge<u64>>(&self, judge: &mut J) -> bool {
        self.peek_entry_by(judge).is_some()
    }
}

// Whether a judge of the key finds a pair.
pub(crate) fn is_found<K: Ord, I: LookedUp<K>>(index: &I, key: &K) -> bool {
    is_found_by::<K, I, Brand>(index, key, Blank::new(1))
}

fn is_found_by<K: Ord, I: LookedUp<K>, L: Ledger>(index: &I, key: &K, blank: Blank) -> bool
    requires name { blank.name ≡ L.name }
    requires parts { blank.parts ≡ L.parts }
    requires some { 0 < L.parts }
{
    let mut judge: KeyJudge<K, L> = KeyJudge::new(key, Steps::new(blank));
    index.finds(&mut judge)
}

// Whether the look-ups of a number all find it or none does, and each compares it at most so
// often.
fn looks_up_alike<'c>(
    index: &impl AskedKeys<'c>,
    counter: &'c Cell<u64>,
    number: u64,
    most: u64,
) -> bool {
    let key = Asked::new(number, counter);
    counter.set(0);
    let there = index.contains(&key);
    let found = [
        (there, counter.replace(0)),
        (index.is_peeked(&key), counter.replace(0)),
        (index.is_entry(&key), counter.replace(0)),
        (index.is_shown(&key), counter.replace(0)),
        (index.is_read(&key), counter.replace(0)),
        (is_found(index, &key), counter.replace(0)),
    ];
    for (is_there, asked) in found {
        if is_there != there || asked > most {
            return false;
        }
    }
    true
}

// Whether the pairs next to a number, of the even numbers up to the last, are found where there are
// such, and each look-up compares it at most so often.
fn finds_those_beside<'c>(
    index: &impl AskedKeys<'c>,
    counter: &'c Cell<u64>,
    number: u64,
    last: u64,
    most: u64,
) -> bool {
    let key = Asked::new(number, counter);
    counter.set(0);
    let reached = (index.is_reached(&key), counter.replace(0));
    let passed = (index.is_passed(&key), counter.replace(0));
    (reached.0, passed.0) == (number <= last, number > 1) && reached.1 <= most && passed.1 <= most
}

// How many pairs an index has when it is looked up in, and how many comparisons an array takes at
// most.
struct Sizes {
    counts: [u64; 3],
    most: u64,
}

static SIZES: Sizes = Sizes {
    counts: [1, 241, 3616],
    most: 4,
};

// The same with seven pairs a leaf.
static SMALL_SIZES: Sizes = Sizes {
    counts: [1, 57, 400],
    most: 3,
};

// Whether the look-ups of each key agree, in an index of the even numbers up to the last, and those
// next to each are found.
fn looks_up_all<'c>(
    index: &impl AskedKeys<'c>,
    counter: &'c Cell<u64>,
    last: u64,
    most: u64,
) -> bool {
    let levels = (index.depth() as u64).saturating_add(1);
    let asked = levels.saturating_mul(most);
    for number in 1..=last.saturating_add(1) {
        let beside = asked.saturating_add(2);
        if !looks_up_alike(index, counter, number, asked)
            || !finds_those_beside(index, counter, number, last, beside)
        {
            return false;
        }
    }
    true
}

// Stores even numbers, and looks all up at each of the sizes.
fn compares_few<'c>(
    rt: &impl Abort,
    index: &mut impl AskedKeys<'c>,
    counter: &'c Cell<u64>,
    sizes: &Sizes,
) -> Result<(), AllocError> {
    let [_, _, count] = sizes.counts;
    for number in 1..=count {
        let last = number.saturating_mul(2);
        index.store(last, counter)?;
        if sizes.counts.contains(&number) {
            assert!(rt; looks_up_all(index, counter, last, sizes.most));
        }
    }
    Ok(())
}

fn compares_few_keys_steps(rt: &impl Abort, alloc: Global) -> Result<(), AllocError> {
    let counter = Cell::new(0);
    let mut index: TreeIndex<Asked, u64> = TreeIndex::new(alloc);
    compares_few(rt, &mut index, &counter, &SIZES)
}

fn compares_fewer_keys_steps(rt: &impl Abort, alloc: Global) -> Result<(), AllocError> {
    let counter = Cell::new(0);
    let mut index: SmallTreeIndex<Asked, u64> = SmallTreeIndex::new(alloc);
    compares_few(rt, &mut index, &counter, &SMALL_SIZES)
}

// At most one array a level is searched, and the leaf, with at most four comparisons each among 15
// slots. A look-up of the pairs next to a key makes at most two more.
#[test]
fn compares_few_keys(rt: HostRuntime) {
    assert!(rt; succeeds(rt.alloc(), || compares_few_keys_steps(&rt, rt.alloc())));
}

// The same with seven slots, and at most three comparisons.
#[test]
fn compares_fewer_keys_with_seven_slots(rt: HostRuntime) {
    assert!(rt; succeeds(rt.alloc(), || compares_fewer_keys_steps(&rt, rt.alloc())));
}

// A judge, and the stored key that it found equal to its own.
#[derive(Drop)]
struct Recording<J> {
    judge: J,
    equal: Option<u64>,
}

impl<J: Judge<u64>> Judge<u64> for Recording<J> {
    ghost key = { λ recording. J.key recording.judge };

    ghost count = { λ recording. J.count recording.judge };

    fn judge(&mut self, stored: &u64) -> Ordering {
        let answer = self.judge.judge(stored);
        if answer == Ordering::Equal {
            self.equal = Some(*stored);
        }
        answer
    }
}

// Whether a judge of the key finds a pair, and the stored key that the judge compared and found
// equal.
fn found_and_asked<I: LookedUp<u64>>(index: &I, key: u64) -> (bool, Option<u64>) {
    found_and_asked_by::<I, Brand>(index, key, Blank::new(1))
}

fn found_and_asked_by<I: LookedUp<u64>, L: Ledger>(
    index: &I,
    key: u64,
    blank: Blank,
) -> (bool, Option<u64>)
    requires name { blank.name ≡ L.name }
    requires parts { blank.parts ≡ L.parts }
    requires some { 0 < L.parts }
{
    let judge: KeyJudge<u64, L> = KeyJudge::new(&key, Steps::new(blank));
    let mut recording = Recording { judge, equal: None };
    let found = index.finds(&mut recording);
    (found, recording.equal)
}

// Whether the look-ups up to 483 find the even numbers from 2 to 482 alone, and each that finds one
// has compared that very key, and each other one no equal key.
fn asks_found_keys(index: &impl LookedUp<u64>) -> bool {
    for key in 0..=483u64 {
        let there = (2..=482).contains(&key) && key % 2 == 0;
        let wanted = if there { Some(key) } else { None };
        if found_and_asked(index, key) != (there, wanted) {
            return false;
        }
    }
    true
}

// Stores the even numbers up to 482, and looks all numbers up.
fn expect_asked(
    rt: &impl Abort,
    index: &mut (impl Stores + LookedUp<u64>),
) -> Result<(), AllocError> {
    for number in 1..=241u64 {
        index.store(number.saturating_mul(2), number)?;
    }
    assert!(rt; asks_found_keys(index));
    Ok(())
}

fn asks_found_keys_steps(rt: &impl Abort, alloc: Global) -> Result<(), AllocError> {
    let mut index: TreeIndex<u64, u64> = TreeIndex::new(alloc);
    expect_asked(rt, &mut index)
}

fn small_asks_found_keys_steps(rt: &impl Abort, alloc: Global) -> Result<(), AllocError> {
    let mut index: SmallTreeIndex<u64, u64> = SmallTreeIndex::new(alloc);
    expect_asked(rt, &mut index)
}

// A look-up that finds a pair has compared its judge with that very key, and one that finds none
// with no equal key.
#[test]
fn asks_the_key_it_finds(rt: HostRuntime) {
    assert!(rt;
        succeeds(rt.alloc(), || {
            asks_found_keys_steps(&rt, rt.alloc())?;
            small_asks_found_keys_steps(&rt, rt.alloc())
        })
    );
}
