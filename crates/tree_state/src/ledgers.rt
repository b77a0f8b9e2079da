//! The five ledgers of a shared index.
ghost use Rattle.std.specs.Prelude.{◌≡◌, ◌+◌, ◌<◌, ◌≤◌, false, vec_len};
ghost use Rattle.tree_state.specs.Ledgers.{Standing, standing, Fits, IsBlankFor};
ghost use Rattle.tree_state.specs.Tallies.{is_refused, none, plus, raised, sum_of, tally_of};
ghost use Rattle.tree_state.specs.declared.tally.Tally.{Tally};

use crate::blanks::Blanks;
use crate::books::{Books, Calls, Done, Found, Removed, Stored};
use crate::counter::Counter;
use crate::pass::PassOf;
use crate::replies::{is_done, is_found, is_removed, is_stored};
use crate::tally::Tally;
use std::marker::{Model, PhantomData};
use tree_model::Reply;

/// The five counters. Contracts see how many parts of each are here, what these count, and what is
/// counted in all.
#[derive(Drop)]
pub struct Ledgers<B: Books> {
    calls: Counter<Calls<B>>,
    stored: Counter<Stored<B>>,
    removed: Counter<Removed<B>>,
    found: Counter<Found<B>>,
    done: Counter<Done<B>>,
}

impl<B: Books> Model for Ledgers<B> {
    ghost Value = { Standing };

    ghost view = { λ l. record { parts = l.calls.kept.parts; kept = tally_of l.calls.number l.stored.number l.removed.number l.found.number l.done.number; totals = tally_of l.calls.book.total l.stored.book.total l.removed.book.total l.found.book.total l.done.book.total } };

    ghost invariant = { λ l. (l.stored.kept.parts ≡ l.calls.kept.parts) × (l.removed.kept.parts ≡ l.calls.kept.parts) × (l.found.kept.parts ≡ l.calls.kept.parts) × (l.done.kept.parts ≡ l.calls.kept.parts) };
}

impl<B: Books> Ledgers<B> {
    /// Opens the ledgers. Every part is here, and nothing is counted.
    pub fn open(workers: usize, blanks: Blanks) -> Ledgers<B>
        requires calls { IsBlankFor workers blanks.calls B.calls.name B.calls.parts }
        requires stored { IsBlankFor workers blanks.stored B.stored.name B.stored.parts }
        requires removed { IsBlankFor workers blanks.removed B.removed.name B.removed.parts }
        requires found { IsBlankFor workers blanks.found B.found.name B.found.parts }
        requires done { IsBlankFor workers blanks.done B.done.name B.done.parts }
        ensures { result ≡ standing (workers + 1) none none }
    {
        Ledgers {
            calls: Counter::open(blanks.calls),
            stored: Counter::open(blanks.stored),
            removed: Counter::open(blanks.removed),
            found: Counter::open(blanks.found),
            done: Counter::open(blanks.done),
        }
    }

    /// Returns a new pass.
    pub fn hand_out(&mut self) -> PassOf<B>
        requires { 1 < self.old.parts }
        ensures zero { result ≡ none }
        ensures parts { self.new.parts + 1 ≡ self.old.parts }
        ensures kept { self.new.kept ≡ self.old.kept }
        ensures totals { self.new.totals ≡ self.old.totals }
    {
        PassOf {
            calls: self.calls.hand_out(),
            stored: self.stored.hand_out(),
            removed: self.removed.hand_out(),
            found: self.found.hand_out(),
            done: self.done.hand_out(),
        }
    }

    /// Counts a reply other than `Refused`, here and in the pass.
    pub fn count<V>(&mut self, pass: &mut PassOf<B>, reply: &Reply<V>)
        requires room { pass.old.calls < u64.MAX }
        requires answered { is_refused reply.now ≡ false }
        ensures pass { pass.new ≡ raised pass.old reply.now }
        ensures parts { self.new.parts ≡ self.old.parts }
        ensures kept { self.new.kept ≡ self.old.kept }
        ensures totals { self.new.totals ≡ raised self.old.totals reply.now }
    {
        self.calls.raise(&mut pass.calls, true);
        self.stored.raise(&mut pass.stored, is_stored(reply));
        self.removed.raise(&mut pass.removed, is_removed(reply));
        self.found.raise(&mut pass.found, is_found(reply));
        self.done.raise(&mut pass.done, is_done(reply));
    }

    // Takes a pass back, with what it counted.
    fn take_back(&mut self, pass: PassOf<B>)
        requires { Fits self.old.totals }
        ensures parts { self.new.parts ≡ self.old.parts + 1 }
        ensures within { self.new.parts ≤ B.calls.parts }
        ensures kept { self.new.kept ≡ plus self.old.kept pass }
        ensures totals { self.new.totals ≡ self.old.totals }
    {
        let PassOf {
            calls,
            stored,
            removed,
            found,
            done,
        } = pass;
        self.calls.take_back(calls);
        self.stored.take_back(stored);
        self.removed.take_back(removed);
        self.found.take_back(found);
        self.done.take_back(done);
    }

    /// Takes every pass back. Returns what they counted, which is what is counted in all.
    pub fn take_all(mut self, workers: &Workers<B>, passes: Vec<PassOf<B>>) -> Tally
        requires rest { (self.parts ≡ 1) × (self.kept ≡ none) }
        requires fits { Fits self.totals }
        requires each { workers.now.number ≤ vec_len passes }
        ensures totals { result ≡ self.totals }
        ensures passes { result ≡ sum_of passes.items }
    {
        for pass in passes {
            self.take_back(pass);
        }
        self.settle(workers)
    }

    // Returns what the parts count once every part is here, which is what is counted in all.
    fn settle(mut self, workers: &Workers<B>) -> Tally
        requires { self.parts ≡ workers.now.number + 1 }
        ensures kept { result ≡ self.kept }
        ensures totals { result ≡ self.totals }
    {
        // Read for what the type keeps: how many parts each ledger has.
        let _ = &workers.number;
        self.calls.settle();
        self.stored.settle();
        self.removed.settle();
        self.found.settle();
        self.done.settle();
        Tally {
            calls: self.calls.number(),
            stored: self.stored.number(),
            removed: self.removed.number(),
            found: self.found.number(),
            done: self.done.number(),
        }
    }
}

/// How many workers the ledgers were made for: a ledger has one part more.
#[derive(Drop)]
pub struct Workers<B: Books> {
    /// The number of workers.
    pub number: usize,
    /// The ledgers, which only the type names.
    pub of: PhantomData<B>,
    ghost calls: { number + 1 ≡ B.calls.parts },
    ghost stored: { number + 1 ≡ B.stored.parts },
    ghost removed: { number + 1 ≡ B.removed.parts },
    ghost found: { number + 1 ≡ B.found.parts },
    ghost done: { number + 1 ≡ B.done.parts },
}

/// The ledgers while passes are out: one part of each is here, and counts nothing. Contracts see
/// the tally of all calls.
#[derive(Drop)]
pub struct BooksOf<B: Books> {
    /// The ledgers.
    pub ledgers: Ledgers<B>,
}

impl<B: Books> Model for BooksOf<B> {
    ghost Value = { Tally };

    ghost view = { λ b. b.ledgers.totals };

    ghost invariant = { λ b. (b.ledgers.parts ≡ 1) × (b.ledgers.kept ≡ none) };
}

impl<B: Books> BooksOf<B> {
    /// Counts a reply other than `Refused`, here and in the pass.
    pub fn count<V>(&mut self, pass: &mut PassOf<B>, reply: &Reply<V>)
        requires room { pass.old.calls < u64.MAX }
        requires answered { is_refused reply.now ≡ false }
        ensures books { self.new ≡ raised self.old reply.now }
        ensures pass { pass.new ≡ raised pass.old reply.now }
    {
        self.ledgers.count(pass, reply);
    }
}
