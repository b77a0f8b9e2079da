//! Keys in the form in which they are lent, and their comparisons, which nobody counts.
ghost use Rattle.std.specs.Prelude.{◌≡◌, ◌<◌, List};
ghost use Rattle.tree_model.specs.Pairs.{Finds};

use std::cmp::Ordering;
use std::marker::Brand;
use std::sync::ledger::{Blank, Ledger};
use tree_array::array::{ArrayOf, Asks, Judge, Steps};

/// A form in which a key is lent to a look-up. Each type of keys is a form of its own, a `&str` is
/// one of `Text`, and a `&[u8]` one of `Bytes`.
pub trait Lent<K: Ord> {
    ghost key: { Self → K };

    /// Compares the key with a stored one.
    fn compare(&self, stored: &K) -> Ordering
        ensures { result ≡ K.cmp (key self.now) stored.now };
}

impl<K: Ord> Lent<K> for K {
    ghost key = { λ key. key };

    #[inline(always)]
    fn compare(&self, stored: &K) -> Ordering {
        self.cmp(stored)
    }
}

// A pair is looked up by its key.
impl<K: Ord, V> Lent<K> for (K, V) {
    ghost key = { λ pair. pair.0 };

    #[inline(always)]
    fn compare(&self, stored: &K) -> Ordering {
        self.0.cmp(stored)
    }
}

// The mark of `Asked`.
pub(crate) struct ByForm;

// A key that is asked for on the way down.
#[derive(Drop)]
pub(crate) struct Asked<'q, Q>(pub(crate) &'q Q);

impl<K: Ord, Q: Lent<K>> Asks<K, ByForm> for Asked<'_, Q> {
    ghost key = { λ asked. Q.key asked.0.now };

    ghost count = { λ _. 0 };

    #[inline(always)]
    fn ask(&mut self, stored: &K) -> Ordering {
        self.0.compare(stored)
    }
}

// The judge of a key in the form in which it is lent.
#[derive(Drop)]
struct LentJudge<'q, Q, L: Ledger> {
    key: &'q Q,
    steps: Steps<L>,
}

impl<K: Ord, Q: Lent<K>, L: Ledger> Judge<K> for LentJudge<'_, Q, L> {
    ghost key = { λ judge. Q.key judge.key.now };

    ghost count = { λ judge. judge.steps };

    #[inline(always)]
    fn judge(&mut self, stored: &K) -> Ordering {
        self.steps.tick();
        self.key.compare(stored)
    }
}

// An array that is searched by a judge.
pub(crate) trait Searched<K: Ord, V> {
    ghost pairs: { Self → List (K × V) };

    // Returns the pair with the judge's key.
    fn search<J: Judge<K>>(&self, judge: &mut J) -> Option<(&K, &V)>
        ensures { Finds K.cmp (pairs self.now) (J.key judge.old) result };
}

impl<K: Ord + Drop, V: Drop, const LEN: usize> Searched<K, V> for ArrayOf<K, V, LEN> {
    ghost pairs = { λ array. array.entries };

    #[inline(always)]
    fn search<J: Judge<K>>(&self, judge: &mut J) -> Option<(&K, &V)> {
        self.search_entry(judge)
    }
}

// Returns the pair with a key.
#[inline(always)]
pub(crate) fn found_in<'t, Q: Lent<K>, K: Ord, V, S: Searched<K, V>>(
    array: &'t S,
    key: &Q,
) -> Option<(&'t K, &'t V)>
    ensures { Finds K.cmp (S.pairs array.now) (Q.key key.now) result }
{
    found_by::<Q, K, V, S, Brand>(array, key, Blank::new(1))
}

#[inline(always)]
fn found_by<'t, Q: Lent<K>, K: Ord, V, S: Searched<K, V>, L: Ledger>(
    array: &'t S,
    key: &Q,
    blank: Blank,
) -> Option<(&'t K, &'t V)>
    requires name { blank.name ≡ L.name }
    requires parts { blank.parts ≡ L.parts }
    requires some { 0 < L.parts }
    ensures { Finds K.cmp (S.pairs array.now) (Q.key key.now) result }
{
    let mut judge: LentJudge<Q, L> = LentJudge {
        key,
        steps: Steps::new(blank),
    };
    array.search(&mut judge)
}
