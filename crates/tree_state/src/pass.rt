//! A worker's token for calls of a shared index.
ghost use Rattle.std.specs.Prelude.{◌≡◌, ◌≤◌};
ghost use Rattle.tree_state.specs.Tallies.{tally_of};
ghost use Rattle.tree_state.specs.declared.tally.Tally.{Tally};

use crate::books::{Books, Calls, Done, Found, Removed, Stored};
use crate::counted_share::CountedShare;
use crate::tally::Tally;
use std::fmt;
use std::marker::Model;

/// A worker's token for calls of a shared index. See [`PassOf`].
pub type Pass<C, S, M, F, D> = PassOf<(C, S, M, F, D)>;

/// A worker's token for calls of a shared index, which counts the calls that were answered.
/// Contracts see the tally of the worker's calls.
///
/// A pass is a part of each of the index's five ledgers, so its type ties it to that index. It
/// can't be cloned.
#[derive(Drop)]
pub struct PassOf<B: Books> {
    pub(crate) calls: CountedShare<Calls<B>>,
    pub(crate) stored: CountedShare<Stored<B>>,
    pub(crate) removed: CountedShare<Removed<B>>,
    pub(crate) found: CountedShare<Found<B>>,
    pub(crate) done: CountedShare<Done<B>>,
}

impl<B: Books> Model for PassOf<B> {
    ghost Value = { Tally };

    ghost view = { λ p. tally_of p.calls p.stored p.removed p.found p.done };

    // Each other number is at most `calls`, so that none passes what fits.
    ghost invariant = { λ p. (p.stored ≤ p.calls) × (p.removed ≤ p.calls) × (p.found ≤ p.calls) × (p.done ≤ p.calls) };
}

impl<B: Books> PassOf<B> {
    /// Returns the tally of the calls that were made with this pass. Each number is at most that of
    /// the calls. Runs in constant time.
    ///
    /// ```
    /// let told = (passes[0].tally(), passes[1].tally());
    /// ```
    pub fn tally(&self) -> Tally
        ensures tally { result ≡ self.now }
        ensures within { (result.stored ≤ result.calls) × (result.removed ≤ result.calls)
            × (result.found ≤ result.calls) × (result.done ≤ result.calls) }
    {
        Tally {
            calls: self.calls.get(),
            stored: self.stored.get(),
            removed: self.removed.get(),
            found: self.found.get(),
            done: self.done.get(),
        }
    }
}

impl<B: Books> fmt::Debug for PassOf<B> {
    fn fmt<W: fmt::Write>(&self, f: &mut fmt::Formatter<W>) -> fmt::Result {
        let tally = self.tally();
        write!(f, "Pass {{ tally: {tally:?} }}")
    }
}
