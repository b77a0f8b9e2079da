//! Several workers' commands in one order, applied by one thread.
ghost use Rattle.std.specs.Prelude.{◌<◌, All, length};
ghost use Rattle.tree_state.specs.Schedules.{FitsEachRun, Ran};

use crate::{StateOf, Tally};
use tree_index::{Command, IndexKey, SameClone};

/// Applies each command in turn, and counts its reply for its worker. Returns how many commands
/// were refused.
///
/// Each command has the number of its worker. The caller must keep these numbers below the number
/// of tallies, and pass a schedule in no run of which a number of a tally exceeds `u64::MAX`.
///
/// Each command costs what [`StateOf::apply`] costs. A command in which an allocation fails is
/// dropped.
///
/// ```
/// let commands = schedule(alloc)?;
/// let refused = run_schedule(&mut state, commands, &mut tallies);
/// assert!(rt; are_all_told(refused, state.history(), &tallies));
/// ```
pub fn run_schedule<K: IndexKey + SameClone, V: SameClone, const LEN: usize>(
    state: &mut StateOf<K, V, LEN>,
    schedule: Vec<(usize, Command<K, V>)>,
    tallies: &mut [Tally],
) -> usize
    requires workers { All (λ entry. entry.0 < length tallies.old) schedule.items }
    requires room { FitsEachRun K.cmp K.seen V.seen state.old.pairs schedule.items tallies.old }
    ensures { Ran K.cmp K.seen V.seen schedule.items state.old tallies.old state.new tallies.new result }
{
    let mut refused = 0;
    for (worker, command) in schedule {
        refused += tallies[worker].count(state.apply(command));
    }
    refused
}
