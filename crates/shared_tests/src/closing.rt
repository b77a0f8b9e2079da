//! The end of the sharing.
ghost use Rattle.std.specs.Prelude.{◌≡◌, All};
ghost use Rattle.tree_state.specs.Tallies.{none};

use crate::closed::closed_with;
use crate::numbers::reply_to;
use crate::scenario::{Scenario, play};
use std::alloc::{AllocError, Global};
use std::process::Abort;
use std::sync::Wait;
use std::thread::Threads;
use std::time::Clock;
use test_support::refusals::succeeds;
use tree_index::{Command, Record, Reply, TreeIndex};
use tree_shared::{Books, Closed, PassOf, SharedOver, Tally, UnclosedOver};

const INSERT: Command<u64, u64> = Command::Insert(1, 10);

// Whether nothing is counted if no call was made.
pub(crate) fn closes_without_calls<B: Books>(
    shared: SharedOver<u64, u64, B, 15>,
    passes: Vec<PassOf<B>>,
) -> bool {
    let nothing = Tally {
        calls: 0,
        stored: 0,
        removed: 0,
        found: 0,
        done: 0,
    };
    match closed_with(shared, passes) {
        Some(closed) => closed.tally == nothing && closed.history.is_empty(),
        None => false,
    }
}

#[test]
fn nothing_is_counted_without_workers(rt: HostRuntime) {
    assert!(rt; succeeds(rt.alloc(), || play(&rt, rt.alloc(), 0, Scenario::NoWorker)));
}

// Whether the index comes back with the pass of the only call, one of two, and is closed with
// both. `Err` if the call was refused.
pub(crate) fn closes_with_all_passes<B: Books, R: Wait + Abort>(
    rt: &R,
    shared: SharedOver<u64, u64, B, 15>,
    mut passes: Vec<PassOf<B>>,
) -> Result<bool, AllocError>
    requires { All (λ pass. pass ≡ none) passes.items }
{
    let Some(idle) = passes.pop() else {
        return Ok(false);
    };
    let inserted = insert_by_first(rt, &shared, &mut passes);
    let calls = u64::from(inserted == Ok(Reply::Stored));
    let Err(UnclosedOver::PassMissing(shared, passes)) = shared.close(passes) else {
        return Ok(false);
    };
    if !closes_with(shared, passes, idle, calls)? {
        return Ok(false);
    }
    Ok(inserted? == Reply::Stored)
}

// Makes the insert by the first pass. `Err` if it is refused, or there is no pass.
fn insert_by_first<B: Books, R: Wait + Abort>(
    rt: &R,
    shared: &SharedOver<u64, u64, B, 15>,
    passes: &mut Vec<PassOf<B>>,
) -> Result<Reply<u64>, AllocError> {
    match passes.get_mut(0) {
        Some(pass) => reply_to(rt, shared, pass, &INSERT),
        None => Err(AllocError),
    }
}

// Whether the index is closed with a pass that has made so many calls and an idle one.
fn closes_with<B: Books>(
    shared: SharedOver<u64, u64, B, 15>,
    mut passes: Vec<PassOf<B>>,
    idle: PassOf<B>,
    calls: u64,
) -> Result<bool, AllocError> {
    if !is_one_pass(&passes, calls) {
        return Ok(false);
    }
    passes.push(idle)?;
    match closed_with(shared, passes) {
        Some(closed) => Ok(is_left(calls, &closed)),
        None => Ok(false),
    }
}

// Whether these are one pass that has made so many calls.
fn is_one_pass<B: Books>(passes: &[PassOf<B>], calls: u64) -> bool {
    match passes {
        [pass] => pass.tally().calls == calls,
        _ => false,
    }
}

// Whether this is left of an insert that was answered once, or of one that was refused.
fn is_left(calls: u64, closed: &Closed<u64, u64>) -> bool {
    let wanted = Tally {
        calls,
        stored: calls,
        removed: 0,
        found: 0,
        done: 0,
    };
    closed.tally == wanted && is_recorded(calls, &closed.index, &closed.history)
}

// Whether an insert that was answered is in a history and in an index, and one that was refused in
// neither.
fn is_recorded(calls: u64, index: &TreeIndex<u64, u64>, history: &[Record<u64, u64>]) -> bool {
    match history {
        [] => calls == 0 && index.is_empty(),
        [record] => {
            calls == 1
                && record.command == INSERT
                && record.reply == Reply::Stored
                && index.len() == 1
                && index.peek(&1).copied() == Some(10)
        }
        _ => false,
    }
}

#[test]
fn comes_back_without_a_pass(rt: HostRuntime) {
    assert!(rt;
        succeeds(
            rt.alloc(),
            || play(&rt, rt.alloc(), 2, Scenario::PassAbsent)
        )
    );
}

// Whether the index and its history come back while a pass is out. `Err` if its only call was
// refused.
pub(crate) fn parts_while_a_pass_is_out<B: Books, R: Wait + Abort>(
    rt: &R,
    shared: SharedOver<u64, u64, B, 15>,
    mut passes: Vec<PassOf<B>>,
) -> Result<bool, AllocError>
    requires { All (λ pass. pass ≡ none) passes.items }
{
    let inserted = insert_by_first(rt, &shared, &mut passes);
    let calls = u64::from(inserted == Ok(Reply::Stored));
    let (index, history) = shared.into_parts();
    if !is_recorded(calls, &index, &history) {
        return Ok(false);
    }
    Ok(inserted? == Reply::Stored)
}

#[test]
fn ends_while_a_pass_is_out(rt: HostRuntime) {
    assert!(rt; succeeds(rt.alloc(), || play(&rt, rt.alloc(), 1, Scenario::Parts)));
}
