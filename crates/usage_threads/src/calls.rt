//! Each call of a writer and of a handle, by one thread.
use crate::trouble::Trouble;
use std::alloc::{AllocError, Global};
use std::collections::VecDeque;
use std::ops::Bound;
use std::sync::{Mutex, Wait};
use tree_index::Command;
use tree_readers::{Handle, Writer};

// Keeps a command of each kind. They leave the price 40 of item 4.
fn keep_each<R: Wait + Drop>(writer: &mut Writer<u64, u64, R>) -> Result<(), Command<u64, u64>> {
    writer.insert(1, 10)?;
    writer.upsert(3, 30)?;
    writer.remove(3)?;
    writer.remove_range(Bound::Included(5), Bound::Excluded(9))?;
    writer.clear()?;
    writer.append(Command::Insert(4, 40))?;
    Ok(())
}

// Shows what is pending, and a batch behind it, on both copies. Returns how many prices there are.
fn show_batch<R: Wait + Drop>(
    writer: &mut Writer<u64, u64, R>,
    alloc: Global,
) -> Result<usize, AllocError> {
    let mut batch = VecDeque::new(alloc);
    batch.push_back(Command::Upsert(2, 20))?;
    batch.push_back(Command::Upsert(3, 30))?;
    writer.append_all(&mut batch)?;
    writer.flush()?;
    let index = writer.published();
    Ok(index.len())
}

// Returns the price of an item by a handle, unless its writer was closed.
fn lent(handle: &mut Handle<u64, u64>, item: u64) -> Option<u64> {
    match handle.enter() {
        Ok(guard) => guard.peek(&item).copied(),
        Err(_) => None,
    }
}

// Makes each call by the writer itself. Returns the price of item 2 by a handle.
fn call_alone<R: Wait + Drop>(
    writer: &mut Writer<u64, u64, R>,
    alloc: Global,
) -> Result<u64, Trouble> {
    keep_each(writer)?;
    show_batch(writer, alloc)?;
    let reader = writer.reader()?;
    let mut handle = reader.into_handle();
    Ok(lent(&mut handle, 2).unwrap_or(0))
}

/// Makes each call but those that begin and end a writer. Returns the price of item 2 by a handle.
pub fn call_each<R: Wait + Drop, W: Wait>(
    rt: &W,
    prices: &Mutex<Writer<u64, u64, R>>,
    alloc: Global,
) -> Result<u64, Trouble> {
    let mut guard = prices.lock(rt);
    call_alone(&mut *guard, alloc)
}
