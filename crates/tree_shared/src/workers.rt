//! A thread for each pass of a shared index.
ghost use Rattle.std.specs.Prelude.{◌≡◌, ℕ, [], Some, All, IfErr, IfOk, slice_get, vec_len};
ghost use Rattle.tree_state.specs.Tallies.{none};
ghost use Rattle.tree_shared.specs.Workers.{AreAnswered, IsAnswered, IsTask, OnlyInserts};

use crate::gate::Gate;
use crate::storm::StormError;
use crate::{Books, PassOf, SharedOver};
use std::alloc::Global;
use std::snapshot::Snapshot;
use std::sync::Wait;
use std::thread;
use std::thread::{Promise, PromisedHandle, Scope, Threads};

// A worker's pass once the worker ended, and whether its gate stopped it.
#[derive(Drop)]
struct Ended<B: Books> {
    pass: PassOf<B>,
    stopped: bool,
}

// A worker of this number has tried n calls at this gate, unless that stopped it.
#[derive(Drop)]
struct Task<G> {
    gate: Snapshot<G>,
    worker: usize,
    n: u64,
}

impl<B: Books, G: Gate> Promise<Ended<B>> for Task<G> {
    ghost kept_by = { λ task ended. OnlyInserts task.n ended.pass
        × IsAnswered (G.answers task.gate.value task.worker) task.n ended.stopped };
}

// Inserts the pairs (1, 1) to (n, n). Goes on after an insert that cannot allocate.
fn work<B: Books, R: Wait, G: Gate>(
    rt: &R,
    shared: &SharedOver<u64, u64, B, 15>,
    mut pass: PassOf<B>,
    worker: usize,
    n: u64,
    gate: &G,
) -> Ended<B>
    requires { pass ≡ none }
    ensures inserts { OnlyInserts n result.pass }
    ensures gate { IsAnswered (G.answers gate.now worker) n result.stopped }
{
    for done in 0..n {
        let call = done + 1;
        if !gate.before(worker, call) {
            return Ended {
                pass,
                stopped: true,
            };
        }
        let _ = shared.insert(rt, &mut pass, call, call);
        gate.after(worker, call);
    }
    Ended {
        pass,
        stopped: false,
    }
}

// Starts a thread for each pass.
fn start_all<'s, E: 's, B: Books + Send + Sync + 's, R: Wait + Sync, G: Gate + Sync>(
    scope: &Scope<'s, E>,
    alloc: Global,
    rt: &'s R,
    shared: &'s SharedOver<u64, u64, B, 15>,
    passes: Vec<PassOf<B>>,
    n: u64,
    gate: &'s G,
) -> Result<Vec<PromisedHandle<Ended<B>, Task<G>>>, StormError>
    requires { All (λ pass. pass ≡ none) passes.items }
    ensures count { IfOk result (λ handles. vec_len handles ≡ vec_len passes) }
    ensures promised { IfOk result (λ handles. (worker : ℕ) (handle : _) →
        slice_get handles.items worker ≡ Some handle → IsTask gate.now worker n handle.promise) }
    ensures refused { IfErr result (λ e. e ≡ StormError.Refused) }
{
    let mut handles = Vec::with_capacity(alloc, passes.len())?;
    let mut worker = 0;
    for pass in passes {
        let job = move || -> Ended<B>
            requires { pass ≡ none }
            ensures inserts { OnlyInserts n result.pass }
            ensures gate { IsAnswered (G.answers gate.entry.now worker) n result.stopped }
        { work(rt, shared, pass, worker, n, gate) };
        let task = Task {
            gate: Snapshot::of(gate),
            worker,
            n,
        };
        handles.push(scope.spawn_with(task, job)?)?;
        worker += 1;
    }
    Ok(handles)
}

// Joins each thread, and appends its pass to a vector, which has room. Also returns whether one was
// stopped.
fn join_all<B: Books, R: Threads, G: Gate>(
    rt: &R,
    handles: Vec<PromisedHandle<Ended<B>, Task<G>>>,
    mut back: Vec<PassOf<B>>,
) -> Result<(Vec<PassOf<B>>, bool), StormError>
    requires { back.items ≡ [] }
    ensures count { IfOk result (λ ended. vec_len ended.0 ≡ vec_len handles) }
    ensures kept { IfOk result (λ ended. (gate : G) (n : ℕ) →
        ((worker : ℕ) (handle : _) → slice_get handles.items worker ≡ Some handle
        → IsTask gate worker n handle.promise)
        → All (OnlyInserts n) ended.0.items × AreAnswered (G.answers gate) (vec_len handles) n ended.1) }
    ensures refused { IfErr result (λ e. e ≡ StormError.Refused) }
{
    let mut stopped = false;
    for handle in handles {
        let ended = handle.join(rt);
        stopped |= ended.stopped;
        back.push(ended.pass)?;
    }
    Ok((back, stopped))
}

/// Inserts the pairs (1, 1) to (n, n) through each pass, by a thread for each. Returns the passes
/// once all threads have ended, and whether the gate stopped one.
///
/// Returns `Err` if an allocation fails or a thread cannot be started.
pub fn run_all<B: Books + Send + Sync, R: Threads + Wait + Sync, G: Gate + Sync>(
    rt: &R,
    alloc: Global,
    shared: &SharedOver<u64, u64, B, 15>,
    passes: Vec<PassOf<B>>,
    n: u64,
    gate: &G,
) -> Result<(Vec<PassOf<B>>, bool), StormError>
    requires { All (λ pass. pass ≡ none) passes.items }
    ensures count { IfOk result (λ ended. vec_len ended.0 ≡ vec_len passes) }
    ensures inserts { IfOk result (λ ended. All (OnlyInserts n) ended.0.items) }
    ensures gate { IfOk result (λ ended. AreAnswered (G.answers gate.now) (vec_len passes) n ended.1) }
    ensures refused { IfErr result (λ e. e ≡ StormError.Refused) }
{
    thread::scope(
        thread::scope_env(),
        rt,
        move |scope| -> Result<(Vec<PassOf<B>>, bool), StormError>
            requires { All (λ pass. pass ≡ none) passes.items }
            ensures count { IfOk result (λ ended. vec_len ended.0 ≡ vec_len passes) }
            ensures inserts { IfOk result (λ ended. All (OnlyInserts n) ended.0.items) }
            ensures gate { IfOk result
                (λ ended. AreAnswered (G.answers gate.entry.now) (vec_len passes) n ended.1) }
            ensures refused { IfErr result (λ e. e ≡ StormError.Refused) }
        {
            let back = Vec::with_capacity(alloc, passes.len())?;
            let handles = start_all(scope, alloc, rt, shared, passes, n, gate)?;
            join_all(rt, handles, back)
        },
    )
}
