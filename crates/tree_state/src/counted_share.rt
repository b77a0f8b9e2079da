//! One number of a pass.
ghost use Rattle.std.specs.Prelude.{◌≡◌, ℕ};

use std::marker::Model;
use std::sync::ledger::{Ledger, Share};

/// One number of a pass, with the share of its ledger that backs it. Contracts see the number.
#[derive(Drop)]
pub struct CountedShare<L: Ledger> {
    pub(crate) number: u64,
    pub(crate) share: Share<L>,
}

impl<L: Ledger> Model for CountedShare<L> {
    ghost Value = { ℕ };

    ghost view = { λ c. c.number };

    ghost invariant = { λ c. (c.share.parts ≡ 1) × (c.share.amount ≡ c.number) };
}

impl<L: Ledger> CountedShare<L> {
    /// Returns the number.
    pub fn get(&self) -> u64
        ensures { result ≡ self.now }
    {
        self.number
    }
}
