//! One number of the tally of all calls.
ghost use Rattle.std.specs.Prelude.{◌≡◌, ◌+◌, ◌<◌, ◌≤◌, cond};

use crate::counted_share::CountedShare;
use std::sync::ledger::{Blank, Book, Ledger, Share};

/// One number of the tally: the book of its ledger, and the parts that are not out, with what they
/// count.
#[derive(Drop)]
pub struct Counter<L: Ledger> {
    book: Book<L>,
    kept: Share<L>,
    number: u64,
    ghost backed: { kept.amount ≡ number },
}

impl<L: Ledger> Counter<L> {
    /// Opens the ledger. Every part is here, and counts nothing.
    pub fn open(blank: Blank) -> Counter<L>
        requires name { blank.name ≡ L.name }
        requires parts { blank.parts ≡ L.parts }
        ensures total { result.book.total ≡ 0 }
        ensures parts { result.kept.parts ≡ L.parts }
        ensures number { result.number ≡ 0 }
    {
        let (book, kept) = blank.open::<L>();
        Counter {
            book,
            kept,
            number: 0,
        }
    }

    /// Returns what the parts here count.
    pub fn number(&self) -> u64
        ensures { result ≡ self.now.number }
    {
        self.number
    }

    /// Returns one part, which counts nothing yet.
    pub fn hand_out(&mut self) -> CountedShare<L>
        requires { 1 < self.old.kept.parts }
        ensures zero { result ≡ 0 }
        ensures total { self.new.book.total ≡ self.old.book.total }
        ensures parts { self.new.kept.parts + 1 ≡ self.old.kept.parts }
        ensures number { self.new.number ≡ self.old.number }
    {
        let share = self.kept.split_off(1, 0);
        CountedShare { number: 0, share }
    }

    /// Adds one to the book and to the count if `rises` is true.
    pub fn raise(&mut self, count: &mut CountedShare<L>, rises: bool)
        requires { count.old < u64.MAX }
        ensures total { self.new.book.total ≡ self.old.book.total + cond rises 1 0 }
        ensures count { count.new ≡ count.old + cond rises 1 0 }
        ensures parts { self.new.kept.parts ≡ self.old.kept.parts }
        ensures number { self.new.number ≡ self.old.number }
    {
        if rises {
            self.book.add(&mut count.share, 1);
            count.number += 1;
        }
    }

    /// Takes back one part, with its number.
    pub fn take_back(&mut self, count: CountedShare<L>)
        requires { self.old.book.total ≤ u64.MAX }
        ensures total { self.new.book.total ≡ self.old.book.total }
        ensures parts { self.new.kept.parts ≡ self.old.kept.parts + 1 }
        ensures within { self.new.kept.parts ≤ L.parts }
        ensures number { self.new.number ≡ self.old.number + count }
    {
        let CountedShare { number, share } = count;
        let Counter {
            book,
            kept,
            number: sum,
        } = self;
        kept.merge(share);
        book.audit(kept);
        *sum += number;
    }

    /// Shows that the number is the book's total once every part is here.
    pub fn settle(&mut self)
        requires { self.old.kept.parts ≡ L.parts }
        ensures total { self.new.book.total ≡ self.old.book.total }
        ensures parts { self.new.kept.parts ≡ self.old.kept.parts }
        ensures number { self.new.number ≡ self.old.number }
        ensures whole { self.old.number ≡ self.old.book.total }
    {
        self.book.audit(&mut self.kept);
    }
}
