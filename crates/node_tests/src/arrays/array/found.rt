//! What the searches of an array find by a key, for the tests of arrays of any size.
ghost use Rattle.std.specs.Prelude.{◌≡◌, ◌<◌};

use std::marker::Brand;
use std::sync::ledger::{Blank, Ledger};
use tree_array::array::{ArrayOf, Judge, KeyJudge, Steps};

/// The pair of a key, its value, and the slot of the least key from it on.
pub type Found = (Option<(u64, u64)>, Option<u64>, Option<u8>);

/// What is searched.
pub trait Searched {
    /// Whether no slot is free.
    fn is_filled(&self) -> bool;

    /// Whether one search finds the judge's key.
    fn finds<J: Judge<u64>>(&self, judge: &mut J) -> bool;

    /// What each search finds.
    fn search<J: Judge<u64>>(&self, judge: &mut J) -> Found;
}

impl<const LEN: usize> Searched for ArrayOf<u64, u64, LEN> {
    fn is_filled(&self) -> bool {
        self.is_full()
    }

    fn finds<J: Judge<u64>>(&self, judge: &mut J) -> bool {
        self.search_entry(judge).is_some()
    }

    fn search<J: Judge<u64>>(&self, judge: &mut J) -> Found {
        let pair = match self.search_entry(judge) {
            Some((key, val)) => Some((*key, *val)),
            None => None,
        };
        let val = self.search_val(judge).copied();
        (pair, val, self.min_greater_equal(judge))
    }
}

// What the searches find by a key.
pub(crate) fn found<S: Searched>(searched: &S, key: u64) -> Found {
    found_by::<S, Brand>(searched, key, Blank::new(1))
}

fn found_by<S: Searched, L: Ledger>(searched: &S, key: u64, blank: Blank) -> Found
    requires name { blank.name ≡ L.name }
    requires parts { blank.parts ≡ L.parts }
    requires some { 0 < L.parts }
{
    let mut judge: KeyJudge<u64, L> = KeyJudge::new(&key, Steps::new(blank));
    searched.search(&mut judge)
}
