//! The history that a state keeps of its calls.
use std::alloc::{AllocError, Global};
use std::process::Abort;
use test_support::refusals::succeeds;
use tree_index::{Command, InsertError, Record, Reply, TreeIndex};
use tree_state::{State, StateOf};

// Calls of a new state, and the reply to each.
static CALLS: [(Command<u64, u64>, Reply<u64>); 4] = [
    (Command::Insert(1, 10), Reply::Stored),
    (Command::Insert(1, 11), Reply::Duplicate),
    (Command::Peek(1), Reply::Found(Some(10))),
    (Command::Peek(2), Reply::Found(None)),
];

// Whether a history has the calls with their replies.
fn has_the_calls(history: &[Record<u64, u64>]) -> bool {
    if history.len() != CALLS.len() {
        return false;
    }
    for (record, (command, reply)) in history.iter().zip(&CALLS) {
        if record.command != *command || record.reply != *reply {
            return false;
        }
    }
    true
}

// Makes the calls of a new state. Returns whether each is replied to as wanted, and whether the
// history has them with their replies then.
fn keeps_each_call<const LEN: usize>(
    state: &mut StateOf<u64, u64, LEN>,
) -> Result<bool, AllocError> {
    for (command, reply) in &CALLS {
        match state.apply(*command) {
            Ok(told) if told == *reply => {}
            Ok(_) => return Ok(false),
            Err(_) => return Err(AllocError),
        }
    }
    Ok(has_the_calls(state.history()))
}

fn keeps_its_calls_steps(rt: &impl Abort, alloc: Global) -> Result<(), AllocError> {
    let mut state: State<u64, u64> = State::new(alloc);
    assert!(rt; keeps_each_call(&mut state)?);
    Ok(())
}

fn keeps_its_small_calls_steps(rt: &impl Abort, alloc: Global) -> Result<(), AllocError> {
    let mut state: StateOf<u64, u64, 7> = StateOf::new(alloc);
    assert!(rt; keeps_each_call(&mut state)?);
    Ok(())
}

#[test]
fn keeps_its_calls(rt: HostRuntime) {
    assert!(rt;
        succeeds(rt.alloc(), || {
            keeps_its_calls_steps(&rt, rt.alloc())?;
            keeps_its_small_calls_steps(&rt, rt.alloc())
        })
    );
}

// Whether an index has these pairs.
fn has_pairs(index: &TreeIndex<u64, u64>, pairs: &[(u64, u64)]) -> bool {
    for (key, value) in pairs {
        if index.peek(key).copied() != Some(*value) {
            return false;
        }
    }
    index.len() == pairs.len()
}

// Whether so many calls are in the history, and the index has these pairs.
fn stands(state: &State<u64, u64>, calls: usize, pairs: &[(u64, u64)]) -> bool {
    state.history().len() == calls && has_pairs(state.index(), pairs)
}

// Inserts the pair of 1 and 1 into an empty state. Returns whether an allocation failed: the pair
// was returned then, and the state was unchanged.
fn is_refused_a_pair(rt: &impl Abort, state: &mut State<u64, u64>) -> bool {
    let calls = state.history().len();
    let Err(back) = state.insert(1, 1) else {
        return false;
    };
    assert!(rt; back == InsertError::OutOfMemory(1, 1) && stands(state, calls, &[]));
    true
}

fn hands_a_pair_back_steps(rt: &impl Abort, alloc: Global) -> Result<(), AllocError> {
    let mut state: State<u64, u64> = State::new(alloc);
    if is_refused_a_pair(rt, &mut state) && is_refused_a_pair(rt, &mut state) {
        return Err(AllocError);
    }
    assert!(rt; stands(&state, 1, &[(1, 1)]));
    Ok(())
}

#[test]
fn hands_a_pair_back(rt: HostRuntime) {
    assert!(rt; succeeds(rt.alloc(), || hands_a_pair_back_steps(&rt, rt.alloc())));
}
