//! How many comparisons a search of an array makes.
ghost use Rattle.std.specs.Prelude.{◌≡◌, ◌<◌};
ghost use Rattle.tree_array.specs.Length.{IsLen};

use super::found::Searched;
use std::cmp::Ordering;
use std::marker::Brand;
use std::process::Abort;
use std::sync::ledger::{Blank, Ledger};
use test_support::chance::Chance;
use tree_array::array::{ArrayOf, Judge, KeyJudge, Steps};

// A judge, whose comparisons the test counts itself.
#[derive(Drop)]
struct Watching<J> {
    judge: J,
    asked: u64,
}

impl<K: Ord, J: Judge<K>> Judge<K> for Watching<J> {
    ghost key = { λ watching. J.key watching.judge };

    ghost count = { λ watching. J.count watching.judge };

    fn judge(&mut self, stored: &K) -> Ordering {
        self.asked = self.asked.saturating_add(1);
        self.judge.judge(stored)
    }
}

// Whether one search finds the key, and how many comparisons it made.
fn questions<S: Searched>(searched: &S, key: u64) -> (bool, u64) {
    questions_by::<S, Brand>(searched, key, Blank::new(1))
}

fn questions_by<S: Searched, L: Ledger>(searched: &S, key: u64, blank: Blank) -> (bool, u64)
    requires name { blank.name ≡ L.name }
    requires parts { blank.parts ≡ L.parts }
    requires some { 0 < L.parts }
{
    let judge: KeyJudge<u64, L> = KeyJudge::new(&key, Steps::new(blank));
    let mut watching = Watching { judge, asked: 0 };
    let found = searched.finds(&mut watching);
    (found, watching.asked)
}

// A full array, whose odd keys arrived in random order.
fn filled<const LEN: usize>(seed: u64) -> ArrayOf<u64, u64, LEN>
    requires { IsLen LEN }
{
    let mut chance = Chance::new(seed);
    let mut array = ArrayOf::new();
    for _ in 0..2000 {
        let key = chance.below(LEN as u64).wrapping_mul(2).wrapping_add(1);
        let _ = array.insert::<false>(key, key);
    }
    array
}

// Whether a search of a full array of odd keys makes at most so many comparisons for each key below
// `bound`: those that are stored, those between two of them, and those outside.
fn asks_at_most<S: Searched>(searched: &S, bound: u64, most: u64) -> bool {
    for key in 0..bound {
        let (found, asked) = questions(searched, key);
        if asked > most || found != (key % 2 == 1) {
            return false;
        }
    }
    searched.is_filled()
}

#[test]
fn asks_few_questions(rt: HostRuntime) {
    for seed in 1..101 {
        assert!(rt; asks_at_most(&filled::<15>(seed), 31, 4));
        assert!(rt; asks_at_most(&filled::<7>(seed), 15, 3));
    }
}
