//! Eight threads that store numbers of their own in one shared index.
ghost use Rattle.std.specs.Prelude.{◌≡◌, ◌<◌, ◌≤◌, [], All, IfOk, OnOk, length, vec_len};
ghost use Rattle.std.specs.Ordering.{nat_cmp};
ghost use Rattle.tree_model.specs.History.{IsHistoryOf};
ghost use Rattle.tree_state.specs.Ledgers.{IsBlankFor};
ghost use Rattle.tree_state.specs.Tallies.{none, tally};
ghost use Rattle.usage_threads.specs.Inserts.{IsOfInserts};

use crate::trouble::Trouble;
use std::alloc::{AllocError, Global};
use std::marker::Brand;
use std::sync::{Arc, Wait};
use std::thread;
use std::thread::{JoinHandle, Threads};
use tree_index::InsertError;
use tree_shared::{Blanks, Books, Closed, PassOf, SharedOver};

// A pass by which a worker stored its hundred numbers.
#[derive(Drop)]
struct Stored<B: Books> {
    pass: PassOf<B>,
    ghost each: { IsOfInserts 100 pass },
}

// Stores a hundred numbers, from the first one on, with the worker's own number. Returns `Err` if
// an allocation fails.
fn store_from<B: Books, R: Wait>(
    rt: &R,
    shared: &SharedOver<u64, u64, B, 15>,
    pass: &mut PassOf<B>,
    worker: u64,
    first: u64,
) -> Result<(), AllocError>
    requires unused { pass.old ≡ none }
    requires within { first ≤ 700 }
    ensures { OnOk result (IsOfInserts 100 pass.new) }
{
    for number in 0..100 {
        match shared.insert(rt, pass, first + number, worker) {
            Ok(()) | Err(InsertError::Duplicate(_, _)) => {}
            Err(InsertError::OutOfMemory(_, _)) => return Err(AllocError),
        }
    }
    Ok(())
}

// What the thread of a worker does.
fn store<B: Books, R: Wait>(
    rt: &R,
    shared: &SharedOver<u64, u64, B, 15>,
    mut pass: PassOf<B>,
    worker: u64,
) -> Result<Stored<B>, AllocError>
    requires { (pass ≡ none) × (worker < 8) }
{
    store_from(rt, shared, &mut pass, worker, worker * 100)?;
    Ok(Stored { pass })
}

// Starts the thread of a worker, which shares the index by an `Arc` of its own.
fn start<B: Books + Send + Sync + 'static, R: Threads + Wait + Copy + Send + 'static>(
    rt: R,
    shared: Arc<SharedOver<u64, u64, B, 15>>,
    pass: PassOf<B>,
    worker: u64,
) -> Result<JoinHandle<Result<Stored<B>, AllocError>>, AllocError>
    requires { (pass ≡ none) × (worker < 8) }
{
    let job = move || -> Result<Stored<B>, AllocError>
        requires { (pass ≡ none) × (worker < 8) }
    { store(&rt, &*shared, pass, worker) };
    Ok(thread::spawn(&rt, job)?)
}

// Starts a thread for each of the eight passes.
fn start_all<B: Books + Send + Sync + 'static, R: Threads + Wait + Copy + Send + 'static>(
    rt: R,
    alloc: Global,
    shared: &Arc<SharedOver<u64, u64, B, 15>>,
    mut passes: Vec<PassOf<B>>,
) -> Result<Vec<JoinHandle<Result<Stored<B>, AllocError>>>, AllocError>
    requires eight { vec_len passes ≡ 8 }
    requires unused { All (λ pass. pass ≡ none) passes.items }
    ensures { IfOk result (λ workers. vec_len workers ≡ 8) }
{
    let mut workers = Vec::with_capacity(alloc, 8)?;
    for worker in 0..8 {
        let Some(pass) = passes.pop() else {
            unreachable!()
        };
        workers.push(start(rt, Arc::try_clone(shared)?, pass, worker)?)?;
    }
    Ok(workers)
}

// Joins each thread, and puts its pass behind those in a vector.
fn join_all<B: Books, R: Threads>(
    rt: &R,
    workers: Vec<JoinHandle<Result<Stored<B>, AllocError>>>,
    mut passes: Vec<PassOf<B>>,
) -> Result<Vec<PassOf<B>>, AllocError>
    requires { passes.items ≡ [] }
    ensures count { IfOk result (λ passes. vec_len passes ≡ vec_len workers) }
    ensures each { IfOk result (λ passes. All (IsOfInserts 100) passes.items) }
{
    for worker in workers {
        let Stored { pass } = worker.join(rt)?;
        passes.push(pass)?;
    }
    Ok(passes)
}

// Lets the workers store their numbers in an index that is made with these blanks.
fn store_with<B: Books + Send + Sync + 'static, R: Threads + Wait + Copy + Send + 'static>(
    rt: R,
    alloc: Global,
    blanks: Blanks,
) -> Result<Closed<u64, u64>, Trouble>
    requires calls { IsBlankFor 8 blanks.calls B.calls.name B.calls.parts }
    requires stored { IsBlankFor 8 blanks.stored B.stored.name B.stored.parts }
    requires removed { IsBlankFor 8 blanks.removed B.removed.name B.removed.parts }
    requires found { IsBlankFor 8 blanks.found B.found.name B.found.parts }
    requires done { IsBlankFor 8 blanks.done B.done.name B.done.parts }
    ensures replays { IfOk result
        (λ closed. IsHistoryOf nat_cmp (λ n. n) (λ n. n) closed.history.items closed.index.pairs) }
    ensures tally { IfOk result
        (λ closed. (closed.tally ≡ tally closed.history.items) × IsOfInserts 800 closed.tally) }
    ensures few { IfOk result (λ closed. length closed.index.pairs ≤ closed.tally.stored) }
{
    let (shared, passes) = SharedOver::<u64, u64, B, 15>::new(alloc, 8, blanks)?;
    let shared = Arc::new(alloc, shared).map_err(|_| AllocError)?;
    let back = Vec::with_capacity(alloc, 8)?;
    let workers = start_all(rt, alloc, &shared, passes)?;
    let passes = join_all(&rt, workers, back)?;
    let shared = Arc::into_inner(shared).ok_or(Trouble::Shared)?;
    match shared.close(passes) {
        Ok(closed) => Ok(closed),
        Err(_) => unreachable!(),
    }
}

/// Lets eight workers store a hundred numbers each, in threads that share one index. Each of the
/// 800 inserts was answered then, and they are all of the history, which replays to the index.
///
/// Returns `Err` if an allocation fails or a thread can't be made.
pub fn store_by_eight<R: Threads + Wait + Copy + Send + 'static>(
    rt: R,
    alloc: Global,
) -> Result<Closed<u64, u64>, Trouble>
    ensures replays { IfOk result
        (λ closed. IsHistoryOf nat_cmp (λ n. n) (λ n. n) closed.history.items closed.index.pairs) }
    ensures tally { IfOk result
        (λ closed. (closed.tally ≡ tally closed.history.items) × IsOfInserts 800 closed.tally) }
    ensures few { IfOk result (λ closed. length closed.index.pairs ≤ closed.tally.stored) }
{
    store_with::<Brand, R>(rt, alloc, Blanks::new(8))
}
