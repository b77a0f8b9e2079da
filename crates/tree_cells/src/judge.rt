//! Comparisons of a key that is sought with stored ones, and who counts them.
ghost use Rattle.std.specs.Prelude.{◌≡◌, ℕ, ◌+◌, ◌<◌, ◌≤◌};

use std::cmp::Ordering;
use std::marker::Model;
use std::sync::ledger::{Blank, Book, Ledger, Share};

/// A number of comparisons, which takes no bytes. Only [`Steps::tick`] changes it.
#[derive(Drop)]
pub struct Steps<L: Ledger> {
    book: Book<L>,
    share: Share<L>,
}

impl<L: Ledger> Model for Steps<L> {
    ghost Value = { ℕ };

    ghost view = { λ steps. steps.book.total };

    ghost invariant = { λ steps. 0 < steps.share.parts };
}

impl<L: Ledger> Steps<L> {
    /// Creates a count of no comparisons. The blank must be that of the ledger `L`.
    pub fn new(blank: Blank) -> Self
        requires name { blank.name ≡ L.name }
        requires parts { blank.parts ≡ L.parts }
        requires some { 0 < L.parts }
        ensures { result ≡ 0 }
    {
        let (book, share) = blank.open::<L>();
        Steps { book, share }
    }

    /// Counts one comparison.
    pub fn tick(&mut self)
        ensures { self.new ≡ self.old + 1 }
    {
        self.book.add(&mut self.share, 1);
    }
}

/// A key that is sought, and a count of its comparisons.
pub trait Judge<K: Ord> {
    ghost key: { Self → K };

    ghost count: { Self → ℕ };

    /// Compares the key that is sought with a stored one, and counts one comparison.
    fn judge(&mut self, stored: &K) -> Ordering
        ensures answer { result ≡ K.cmp (key self.old) stored.now }
        ensures same_key { key self.new ≡ key self.old }
        ensures counted { count self.new ≡ count self.old + 1 };
}

/// The ordinary judge of a key. A caller that counts nothing makes it in a function of its own,
/// generic in the ledger, to which it gives `Blank::new(1)`.
#[derive(Drop)]
pub struct KeyJudge<'k, K, L: Ledger> {
    key: &'k K,
    steps: Steps<L>,
}

impl<'k, K, L: Ledger> KeyJudge<'k, K, L> {
    /// Creates a judge of this key, which counts its comparisons on from `steps`.
    pub fn new(key: &'k K, steps: Steps<L>) -> Self
        ensures key { result.key.now ≡ key.now }
        ensures steps { result.steps ≡ steps }
    {
        KeyJudge { key, steps }
    }
}

impl<K: Ord, L: Ledger> Judge<K> for KeyJudge<'_, K, L> {
    ghost key = { λ judge. judge.key.now };

    ghost count = { λ judge. judge.steps };

    fn judge(&mut self, stored: &K) -> Ordering {
        self.steps.tick();
        self.key.cmp(stored)
    }
}

/// What a search compares by: a judge (`By` is [`Counted`]), or the key itself ([`Uncounted`]).
pub trait Asks<K: Ord, By> {
    ghost key: { Self → K };

    ghost count: { Self → ℕ };

    /// Compares the key that is sought with a stored one.
    fn ask(&mut self, stored: &K) -> Ordering
        ensures answer { result ≡ K.cmp (key self.old) stored.now }
        ensures same_key { key self.new ≡ key self.old }
        ensures counted { count self.new ≤ count self.old + 1 };
}

/// A judge counts the comparisons.
pub struct Counted;

/// Nobody counts the comparisons.
pub struct Uncounted;

impl<K: Ord, J: Judge<K>> Asks<K, Counted> for J {
    ghost key = { J.key };

    ghost count = { J.count };

    fn ask(&mut self, stored: &K) -> Ordering {
        self.judge(stored)
    }
}

impl<K: Ord> Asks<K, Uncounted> for &K {
    ghost key = { λ key. key.now };

    ghost count = { λ _. 0 };

    fn ask(&mut self, stored: &K) -> Ordering {
        (*self).cmp(stored)
    }
}
