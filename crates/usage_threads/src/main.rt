//! Threads that share an index, as docs/USING.md shows them. Behind one lock: two that claim
//! numbers, eight that store numbers of their own, without a history and with one, and a storm of
//! eight. Beside readers that never wait: prices that two quote and read, and a writer that changes
//! all of them at once. Then each call of a writer and of a handle.
//!
//! Prints what each of them saw, and prints the same whichever thread runs first.
#![tactic(auto)]

mod calls;
mod claims;
mod locked;
mod prices;
mod rounds;
mod stores;
mod trouble;

use crate::calls::call_each;
use crate::claims::claimed_by_two;
use crate::locked::store_by_lock;
use crate::prices::{close, quote_and_read, reader_of};
use crate::rounds::{Seen, race};
use crate::stores::store_by_eight;
use crate::trouble::Trouble;
use std::io;
use std::sync::atomic::AtomicU64;
use std::sync::{Mutex, Wait};
use std::thread::{Threads, join};
use tree_readers::Writer;
use tree_shared::{Closed, OpenGate, run_workers};

fn main(rt: HostRuntime) -> Result<(), Trouble> {
    let numbers: Vec<u64> = (1..=100).collect(rt.alloc())?;
    let claims = claimed_by_two(&rt, rt.alloc(), &numbers)?;
    show_calls(&rt, &claims.closed, 200)?;
    let index = store_by_lock(rt, rt.alloc())?;
    println!(rt; "locked {}", index.len())?;
    let closed = store_by_eight(rt, rt.alloc())?;
    show_calls(&rt, &closed, 800)?;
    let closed = run_workers(&rt, rt.alloc(), 8, 1000, &OpenGate)?;
    show_calls(&rt, &closed, 8000)?;
    show_prices(&rt)
}

// Prints what came of so many calls. Returns `Err` if an allocation failed in one of them.
fn show_calls(rt: &impl Print, closed: &Closed<u64, u64>, made: u64) -> Result<(), Trouble> {
    let (calls, stored, length) = (closed.tally.calls, closed.tally.stored, closed.index.len());
    if calls < made {
        return Err(Trouble::OutOfMemory);
    }
    println!(rt; "calls {calls} stored {stored} length {length}")?;
    Ok(())
}

// Prints what readers saw of prices.
fn show_prices<R: AllocGlobal + Print + Threads + Wait + Sync>(rt: &R) -> Result<(), Trouble> {
    let writer: Writer<u64, u64, &R> = Writer::new(rt.alloc(), rt, 4)?;
    let prices = Mutex::new(writer);
    let (one, two) = join(
        rt,
        || quote_and_read(rt, &prices, 1, 100),
        || quote_and_read(rt, &prices, 2, 200),
    );
    let (one, two) = (one?.unwrap_or(0), two?.unwrap_or(0));
    println!(rt; "item 1 at {one}, item 2 at {two}")?;
    let (one, two) = (reader_of(rt, &prices)?, reader_of(rt, &prices)?);
    let ended = AtomicU64::new(0);
    let (shown, (one, two)) = race(rt, &prices, one, two, &ended);
    shown?;
    show_seen(rt, 1, one)?;
    show_seen(rt, 2, two)?;
    let lent = call_each(rt, &prices, rt.alloc())?;
    let left = close(prices);
    println!(rt; "item 2 at {lent} by a handle, {left} prices")?;
    Ok(())
}

// Prints what a reader saw of a race.
fn show_seen(rt: &impl Print, reader: u64, seen: Seen) -> io::Result<()> {
    let Seen {
        round,
        is_whole,
        is_in_order,
    } = seen;
    println!(rt; "reader {reader}: round {round}, whole {is_whole}, in order {is_in_order}")
}
