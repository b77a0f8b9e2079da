//! A schedule of two workers, its replies and their tallies.
ghost use Rattle.std.specs.Prelude.{◌≡◌, ◌<◌, All, length, IfOk};

use std::alloc::{AllocError, Global};
use std::process::Abort;
use test_support::refusals::{answers_again, begins, ends, is_out_of_memory, succeeds};
use tree_index::{Command, Record, Reply};
use tree_shared::Tally;
use tree_state::{State, StateOf, run_schedule};

const NONE: Tally = Tally {
    calls: 0,
    stored: 0,
    removed: 0,
    found: 0,
    done: 0,
};

fn schedule(alloc: Global) -> Result<Vec<(usize, Command<u64, u64>)>, AllocError>
    ensures workers { IfOk result (λ made. All (λ entry. entry.0 < 2) made.items) }
    ensures few { IfOk result (λ made. length made.items ≡ 5) }
{
    let commands = vec![in alloc;
        (0, Command::Insert(1, 10)),
        (1, Command::Insert(1, 11)),
        (1, Command::Peek(1)),
        (0, Command::Remove(1)),
        (1, Command::Remove(1)),
    ]?;
    Ok(commands)
}

static REPLIES: [Reply<u64>; 5] = [
    Reply::Stored,
    Reply::Duplicate,
    Reply::Found(Some(10)),
    Reply::Removed(true),
    Reply::Removed(false),
];

static TALLIES: [Tally; 2] = [
    Tally {
        calls: 2,
        stored: 1,
        removed: 1,
        found: 0,
        done: 0,
    },
    Tally {
        calls: 3,
        stored: 0,
        removed: 0,
        found: 1,
        done: 0,
    },
];

// The replies if only the first command is refused: the second one stores its pair then.
static WITHOUT_FIRST: [Reply<u64>; 4] = [
    Reply::Stored,
    Reply::Found(Some(11)),
    Reply::Removed(true),
    Reply::Removed(false),
];

// The replies if both inserts are refused.
static WITHOUT_INSERTS: [Reply<u64>; 3] = [
    Reply::Found(None),
    Reply::Removed(false),
    Reply::Removed(false),
];

// Whether a history has these replies.
fn has_replies(history: &[Record<u64, u64>], replies: &[Reply<u64>]) -> bool {
    for (record, reply) in history.iter().zip(replies) {
        if record.reply != *reply {
            return false;
        }
    }
    history.len() == replies.len()
}

// Whether a history and tallies can be those of a schedule of which so many commands were refused.
// One alone is the first one, or the last one, for which the history has to grow; the inserts are
// refused if no leaf can be allocated but a record can; else all are.
fn are_all_told(refused: usize, history: &[Record<u64, u64>], tallies: &[Tally; 2]) -> bool {
    let [first, second] = tallies;
    let is_counted = history.len() as u64 == first.calls.saturating_add(second.calls);
    let fits = match refused {
        0 => *tallies == TALLIES && has_replies(history, &REPLIES),
        1 => { has_replies(history, &WITHOUT_FIRST) || has_replies(history, REPLIES.split_at(4).0) }
        2 => has_replies(history, &WITHOUT_INSERTS),
        _ => refused == REPLIES.len() && history.is_empty(),
    };
    is_counted && fits
}

// Runs the schedule. Returns how many commands were refused, and the tallies. `Err` if the schedule
// can't be allocated.
fn run_over<const LEN: usize>(
    alloc: Global,
    state: &mut StateOf<u64, u64, LEN>,
) -> Result<(usize, [Tally; 2]), AllocError> {
    let mut tallies = [NONE, NONE];
    let commands = schedule(alloc)?;
    begins(alloc, "run_schedule");
    let refused = run_schedule(state, commands, &mut tallies);
    ends(alloc);
    Ok((refused, tallies))
}

// Whether a state of so many calls before a schedule, with no pairs then, is as it left it.
fn is_left<const LEN: usize>(
    state: &StateOf<u64, u64, LEN>,
    calls: usize,
    refused: usize,
    tallies: &[Tally; 2],
) -> bool {
    let history = state.history().get(calls..).unwrap_or(&[]);
    are_all_told(refused, history, tallies) && state.index().is_empty()
}

// Runs the schedule over a state without pairs. Returns how many commands were refused, and whether
// they were answered as they should be. `Err` if the schedule can't be allocated.
fn run_once<const LEN: usize>(
    alloc: Global,
    state: &mut StateOf<u64, u64, LEN>,
) -> Result<(usize, bool), AllocError> {
    let calls = state.history().len();
    let (refused, tallies) = run_over(alloc, state)?;
    Ok((refused, is_left(state, calls, refused, &tallies)))
}

// Runs the schedule, a second time if a command is refused. Returns whether it is answered as it
// should be. `Err` if a command was refused.
fn run_twice<const LEN: usize>(
    alloc: Global,
    state: &mut StateOf<u64, u64, LEN>,
) -> Result<bool, AllocError> {
    let (refused, holds) = run_once(alloc, state)?;
    if refused == 0 || !holds {
        return Ok(holds);
    }
    let (refused, holds) = run_once(alloc, state)?;
    if !holds || refused > 0 && !is_out_of_memory(alloc) {
        return Ok(false);
    }
    if refused == 0 {
        answers_again(alloc, "run_schedule");
    }
    Err(AllocError)
}

fn run_at_fifteen(alloc: Global) -> Result<bool, AllocError> {
    let mut state: State<u64, u64> = State::new(alloc);
    run_twice(alloc, &mut state)
}

fn run_at_seven(alloc: Global) -> Result<bool, AllocError> {
    let mut state: StateOf<u64, u64, 7> = StateOf::new(alloc);
    run_twice(alloc, &mut state)
}

// Runs the schedule over a state of its own, and sees that it is answered as it should be. `Err` if
// a command is refused.
fn run_anew(rt: &impl Abort, alloc: Global) -> Result<(), AllocError> {
    let mut state: State<u64, u64> = State::new(alloc);
    let mut tallies = [NONE, NONE];
    let commands = schedule(alloc)?;
    let refused = run_schedule(&mut state, commands, &mut tallies);
    assert!(rt; are_all_told(refused, state.history(), &tallies));
    if refused > 0 {
        return Err(AllocError);
    }
    assert!(rt; state.index().is_empty());
    Ok(())
}

fn expect_runs(rt: &impl Abort, alloc: Global) -> Result<(), AllocError> {
    run_anew(rt, alloc)?;
    assert!(rt; run_at_fifteen(alloc)? && run_at_seven(alloc)?);
    Ok(())
}

#[test]
fn runs_in_order(rt: HostRuntime) {
    assert!(rt; succeeds(rt.alloc(), || expect_runs(&rt, rt.alloc())));
}
