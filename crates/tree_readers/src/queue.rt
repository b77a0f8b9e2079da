//! The queue of the commands that aren't in the log of the two copies yet.
ghost use Rattle.std.specs.Prelude.{◌≡◌, [], ◌∷◌, ◌++◌, drop, OnOk, MatchResult};

use crossbeam_utils::rule::Protocol;
use left_right::Absorb;
use left_right::writer::Writer as Sides;
use std::alloc::AllocError;
use std::collections::VecDeque;

// Puts a command behind the others. Returns `Err` with the command if it cannot allocate.
pub(crate) fn push<O>(queue: &mut VecDeque<O>, command: O) -> Result<(), O>
    ensures { MatchResult result (λ _. queue.new.items ≡ queue.old.items ++ command ∷ [])
        (λ back. (back ≡ command) × (queue.new.items ≡ queue.old.items)) }
{
    match queue.push_back(command) {
        Ok(()) => Ok(()),
        Err(failed) => Err(failed.value),
    }
}

// Moves a batch behind the others, whole. Returns `Err` if it cannot allocate, and then moves none.
pub(crate) fn push_all<O>(
    queue: &mut VecDeque<O>,
    batch: &mut VecDeque<O>,
) -> Result<(), AllocError>
    ensures { MatchResult result
        (λ _. (queue.new.items ≡ queue.old.items ++ batch.old.items) × (batch.new.items ≡ []))
        (λ _. (queue.new.items ≡ queue.old.items) × (batch.new.items ≡ batch.old.items)) }
{
    match queue.append(batch) {
        Ok(()) => Ok(()),
        Err(failed) => Err(failed),
    }
}

// Passes the commands on to the log of the two copies, in order. Returns `Err` if it cannot
// allocate; those that are left stay in the queue.
pub(crate) fn pass_on<T: Absorb<O> + Drop, O: Drop, V, P: Protocol<T, V>>(
    sides: &mut Sides<T, O, V, P>,
    queue: &mut VecDeque<O>,
) -> Result<(), AllocError>
    ensures desk { sides.new.desk ≡ sides.old.desk }
    ensures pending { drop sides.new.behind sides.new.log.items ++ queue.new.items
        ≡ drop sides.old.behind sides.old.log.items ++ queue.old.items }
    ensures ok { OnOk result (queue.new.items ≡ []) }
{
    while let Some(command) = queue.pop_front() {
        if let Err(command) = sides.append(command) {
            queue.push_front_reserved(command);
            return Err(AllocError);
        }
    }
    Ok(())
}
