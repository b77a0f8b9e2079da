//! Eight threads that store numbers of their own in one index behind a lock.
ghost use Rattle.std.specs.Prelude.{◌<◌};

use crate::trouble::Trouble;
use std::alloc::{AllocError, Global};
use std::sync::{Arc, Mutex, Wait};
use std::thread;
use std::thread::{JoinHandle, Threads};
use tree_index::TreeIndex;

// Stores a hundred numbers with the worker's own number. Returns `Err` if an allocation fails.
fn store<R: Wait>(rt: &R, index: &Mutex<TreeIndex<u64, u64>>, worker: u64) -> Result<(), AllocError>
    requires { worker < 8 }
{
    for number in 0..100 {
        let mut guard = index.lock(rt);
        guard
            .upsert_sync(worker * 100 + number, worker)
            .map_err(|_| AllocError)?;
    }
    Ok(())
}

// Starts the thread of a worker, which shares the index by an `Arc` of its own.
fn start<R: Threads + Wait + Copy + Send + 'static>(
    rt: R,
    index: Arc<Mutex<TreeIndex<u64, u64>>>,
    worker: u64,
) -> Result<JoinHandle<Result<(), AllocError>>, AllocError>
    requires { worker < 8 }
{
    let job = move || -> Result<(), AllocError>
        requires { worker < 8 }
    { store(&rt, &*index, worker) };
    Ok(thread::spawn(&rt, job)?)
}

/// Lets eight threads store a hundred numbers each. Returns the index.
///
/// Returns `Err` if an allocation fails or a thread can't be made.
pub fn store_by_lock<R: Threads + Wait + Copy + Send + 'static>(
    rt: R,
    alloc: Global,
) -> Result<TreeIndex<u64, u64>, Trouble> {
    let index = Arc::new(alloc, Mutex::new(TreeIndex::new(alloc))).map_err(|_| AllocError)?;
    let mut workers = Vec::with_capacity(alloc, 8)?;
    for worker in 0..8 {
        let worker = start(rt, Arc::try_clone(&index)?, worker)?;
        workers.push(worker).map_err(|_| AllocError)?;
    }
    for worker in workers {
        worker.join(&rt)?;
    }
    let index = Arc::into_inner(index).ok_or(Trouble::Shared)?;
    Ok(index.into_inner())
}
