//! Workers that insert the same pairs at once.
ghost use Rattle.std.specs.Prelude.{◌≡◌, ◌+◌, ◌*◌, ◌≤◌, true, false, All, IfErr, IfOk, vec_len};
ghost use Rattle.std.specs.Ordering.{nat_cmp};
ghost use Rattle.tree_model.specs.History.{IsHistoryOf};
ghost use Rattle.tree_state.specs.Ledgers.{IsBlankFor};
ghost use Rattle.tree_state.specs.Tallies.{none, sum_of, tally};
ghost use Rattle.tree_shared.specs.Workers.{AreAnswered, OnlyInserts};

use crate::gate::Gate;
use crate::workers::run_all;
use crate::{Blanks, Books, Closed, PassOf, SharedOver};
use std::alloc::{AllocError, AllocFailed, Global};
use std::error::Error;
use std::fmt;
use std::marker::Brand;
use std::sync::Wait;
use std::thread::{SpawnError, Threads};

/// Why a storm left no closed index.
#[derive(Clone, Copy, PartialEq, Eq, Debug, Drop)]
pub enum StormError {
    /// An allocation failed or a thread could not be started.
    Refused,
    /// The gate stopped a worker.
    GateStopped,
}

impl fmt::Display for StormError {
    fn fmt<W: fmt::Write>(&self, f: &mut fmt::Formatter<W>) -> fmt::Result {
        match self {
            StormError::Refused => write!(f, "memory or a thread was refused"),
            StormError::GateStopped => write!(f, "the gate stopped a worker"),
        }
    }
}

impl Error for StormError {}

impl From<AllocError> for StormError {
    ghost use Rattle.tree_shared.specs.declared.storm.StormError.TheVariants.{Refused};

    ghost from_gives = { λ _ e. e ≡ Refused };

    fn from(_refused: AllocError) -> StormError {
        StormError::Refused
    }
}

impl<T: Drop> From<AllocFailed<T>> for StormError {
    ghost use Rattle.tree_shared.specs.declared.storm.StormError.TheVariants.{Refused};

    ghost from_gives = { λ _ e. e ≡ Refused };

    fn from(_refused: AllocFailed<T>) -> StormError {
        StormError::Refused
    }
}

impl<T: Drop> From<SpawnError<T>> for StormError {
    ghost use Rattle.tree_shared.specs.declared.storm.StormError.TheVariants.{Refused};

    ghost from_gives = { λ _ e. e ≡ Refused };

    fn from(_refused: SpawnError<T>) -> StormError {
        StormError::Refused
    }
}

/// Lets each worker insert the pairs (1, 1) to (n, n) in ascending order, through a pass and in a
/// thread of its own, and closes the index once all have ended.
///
/// A worker calls `before` of the gate before each call, and stops if that returns `false`; it
/// calls `after` when the call has returned. If a call cannot allocate, the worker goes on with the
/// next one.
///
/// Returns `Refused` if another allocation fails or a thread cannot be started, and else
/// `GateStopped` if the gate stopped a worker. The caller must choose 1 to 64 workers.
///
/// Starts a thread for each worker. Allocates the passes, a vector of handles, one of the returned
/// passes, and what the inserts allocate, for the history too.
///
/// ```
/// let closed = run_workers(&rt, rt.alloc(), 8, 1000, &OpenGate)?;
/// ```
pub fn run_workers<R: Threads + Wait + Sync, G: Gate + Sync>(
    rt: &R,
    alloc: Global,
    workers: usize,
    n: u64,
    gate: &G,
) -> Result<Closed<u64, u64>, StormError>
    requires { (1 ≤ workers) × (workers ≤ 64) }
    ensures replays { IfOk result
        (λ closed. IsHistoryOf nat_cmp (λ n. n) (λ n. n) closed.history.items closed.index.pairs) }
    ensures tally { IfOk result (λ closed. closed.tally ≡ tally closed.history.items) }
    ensures inserts { IfOk result (λ closed. OnlyInserts (workers * n) closed.tally) }
    ensures passed { IfOk result (λ closed. AreAnswered (G.answers gate.now) workers n false) }
    ensures stopped { IfErr result
        (λ e. e ≡ StormError.GateStopped → AreAnswered (G.answers gate.now) workers n true) }
{
    let blanks = Blanks::new(workers);
    run_with::<Brand, R, G>(rt, alloc, workers, n, gate, blanks)
}

// Makes the index with these blanks, and closes it.
fn run_with<B: Books + Send + Sync, R: Threads + Wait + Sync, G: Gate + Sync>(
    rt: &R,
    alloc: Global,
    workers: usize,
    n: u64,
    gate: &G,
    blanks: Blanks,
) -> Result<Closed<u64, u64>, StormError>
    requires calls { IsBlankFor workers blanks.calls B.calls.name B.calls.parts }
    requires stored { IsBlankFor workers blanks.stored B.stored.name B.stored.parts }
    requires removed { IsBlankFor workers blanks.removed B.removed.name B.removed.parts }
    requires found { IsBlankFor workers blanks.found B.found.name B.found.parts }
    requires done { IsBlankFor workers blanks.done B.done.name B.done.parts }
    ensures replays { IfOk result
        (λ closed. IsHistoryOf nat_cmp (λ n. n) (λ n. n) closed.history.items closed.index.pairs) }
    ensures tally { IfOk result (λ closed. closed.tally ≡ tally closed.history.items) }
    ensures inserts { IfOk result (λ closed. OnlyInserts (workers * n) closed.tally) }
    ensures passed { IfOk result (λ closed. AreAnswered (G.answers gate.now) workers n false) }
    ensures stopped { IfErr result
        (λ e. e ≡ StormError.GateStopped → AreAnswered (G.answers gate.now) workers n true) }
{
    let (shared, passes) = SharedOver::<u64, u64, B, 15>::new(alloc, workers, blanks)?;
    run_over(rt, alloc, shared, passes, n, gate)
}

// Lets the workers insert through all passes of an index, and closes it.
fn run_over<B: Books + Send + Sync, R: Threads + Wait + Sync, G: Gate + Sync>(
    rt: &R,
    alloc: Global,
    shared: SharedOver<u64, u64, B, 15>,
    passes: Vec<PassOf<B>>,
    n: u64,
    gate: &G,
) -> Result<Closed<u64, u64>, StormError>
    requires all { B.calls.parts ≤ vec_len passes + 1 }
    requires unused { All (λ pass. pass ≡ none) passes.items }
    ensures replays { IfOk result
        (λ closed. IsHistoryOf nat_cmp (λ n. n) (λ n. n) closed.history.items closed.index.pairs) }
    ensures tally { IfOk result (λ closed. closed.tally ≡ tally closed.history.items) }
    ensures inserts { IfOk result (λ closed. OnlyInserts (vec_len passes * n) closed.tally) }
    ensures passed { IfOk result (λ closed. AreAnswered (G.answers gate.now) (vec_len passes) n false) }
    ensures stopped { IfErr result
        (λ e. e ≡ StormError.GateStopped → AreAnswered (G.answers gate.now) (vec_len passes) n true) }
{
    match run_all(rt, alloc, &shared, passes, n, gate)? {
        (_, true) => Err(StormError::GateStopped),
        (passes, false) => Ok(closed_with(shared, passes)),
    }
}

// Closes an index with all its passes.
fn closed_with<B: Books>(
    shared: SharedOver<u64, u64, B, 15>,
    passes: Vec<PassOf<B>>,
) -> Closed<u64, u64>
    requires { B.calls.parts ≤ vec_len passes + 1 }
    ensures replays { IsHistoryOf nat_cmp (λ n. n) (λ n. n) result.history.items result.index.pairs }
    ensures tally { result.tally ≡ tally result.history.items }
    ensures passes { result.tally ≡ sum_of passes.items }
{
    match shared.close(passes) {
        Ok(closed) => closed,
        Err(_) => unreachable!(),
    }
}
