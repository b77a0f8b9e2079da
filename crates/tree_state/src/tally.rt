//! The results of calls, counted.
ghost use Rattle.std.specs.Prelude.{◌≡◌, ◌≤◌, cond, is_err};
ghost use Rattle.tree_state.specs.Ledgers.{Fits};
ghost use Rattle.tree_state.specs.Tallies.{raised, reply_of_apply};

use crate::replies::{is_done, is_found, is_refused, is_removed, is_stored};
use tree_model::{Command, Reply};

/// The results of the calls of an index, counted. A call that was refused isn't counted.
#[derive(Clone, Copy, PartialEq, Eq, Debug, Default, Drop)]
pub struct Tally {
    /// The calls that were answered.
    pub calls: u64,
    /// The inserts and upserts that stored their pair.
    pub stored: u64,
    /// The removals that removed a pair.
    pub removed: u64,
    /// The look-ups that found a value.
    pub found: u64,
    /// The removals of a range and of all pairs.
    pub done: u64,
}

impl Tally {
    /// Counts the outcome of a command. Returns how many commands were refused, which is 1 or 0.
    /// The caller must ensure that no number exceeds `u64::MAX`.
    ///
    /// ```
    /// for (worker, command) in schedule {
    ///     refused += tallies[worker].count(state.apply(command));
    /// }
    /// ```
    pub fn count<K: Drop, V: Drop>(&mut self, outcome: Result<Reply<V>, Command<K, V>>) -> usize
        requires { Fits (raised self.old (reply_of_apply outcome)) }
        ensures counted { self.new ≡ raised self.old (reply_of_apply outcome) }
        ensures refused { result ≡ cond (is_err outcome) 1 0 }
        ensures few { result ≤ 1 }
    {
        let Ok(reply) = &outcome else {
            return 1;
        };
        self.calls += u64::from(!is_refused(reply));
        self.stored += u64::from(is_stored(reply));
        self.removed += u64::from(is_removed(reply));
        self.found += u64::from(is_found(reply));
        self.done += u64::from(is_done(reply));
        0
    }
}
