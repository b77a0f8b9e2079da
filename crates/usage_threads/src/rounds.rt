//! A writer that changes all prices at once, round by round, and readers that look at them
//! meanwhile.
use crate::trouble::Trouble;
use std::sync::atomic::{AtomicU64, Ordering};
use std::sync::{Mutex, Wait};
use std::thread::{Threads, join};
use tree_index::TreeIndex;
use tree_readers::{Reader, Writer};

// In round n each item has the price n.
const ITEMS: u64 = 40;

const ROUNDS: u64 = 100;

/// What a reader saw.
#[derive(Clone, Copy, Drop)]
pub struct Seen {
    /// The last round.
    pub round: u64,
    /// Whether each look found the first and the last item at one price.
    pub is_whole: bool,
    /// Whether no look found an earlier round than the look before it.
    pub is_in_order: bool,
}

// Looks at the prices once.
fn look(index: &TreeIndex<u64, u64>, seen: Seen) -> Seen {
    let round = index.peek(&0).copied().unwrap_or(0);
    let last = index.peek(&(ITEMS - 1)).copied().unwrap_or(0);
    Seen {
        round,
        is_whole: seen.is_whole && last == round,
        is_in_order: seen.is_in_order && round >= seen.round,
    }
}

// Looks at the prices until the writer has ended, and once more.
fn look_on<R: Wait>(rt: &R, mut reader: Reader<u64, u64>, ended: &AtomicU64) -> Seen {
    let mut seen = Seen {
        round: 0,
        is_whole: true,
        is_in_order: true,
    };
    for _ in rt.forever() {
        let has_ended = ended.load(Ordering::SeqCst) == 1;
        let Ok(reading) = reader.enter() else {
            return seen;
        };
        seen = look(reading.index(), seen);
        reader = reading.leave();
        if has_ended {
            return seen;
        }
    }
    seen
}

// Lets two readers look at the prices until the writer has ended, and once more.
fn look_both<R: Threads + Wait + Sync>(
    rt: &R,
    one: Reader<u64, u64>,
    two: Reader<u64, u64>,
    ended: &AtomicU64,
) -> (Seen, Seen) {
    join(rt, || look_on(rt, one, ended), || look_on(rt, two, ended))
}

// Stores each item at the price of a round, and shows all of them at once.
fn show_round<R: Wait + Drop>(writer: &mut Writer<u64, u64, R>, round: u64) -> Result<(), Trouble> {
    for item in 0..ITEMS {
        writer.upsert(item, round)?;
    }
    writer.publish()?;
    Ok(())
}

// Shows each round, unless an allocation fails.
fn show_rounds<R: Wait + Drop>(writer: &mut Writer<u64, u64, R>) -> Result<(), Trouble> {
    for round in 0..ROUNDS {
        show_round(writer, round + 1)?;
    }
    Ok(())
}

// Shows each round, and lets the readers end.
fn show_all<R: Wait + Drop, W: Wait>(
    rt: &W,
    prices: &Mutex<Writer<u64, u64, R>>,
    ended: &AtomicU64,
) -> Result<(), Trouble> {
    let mut guard = prices.lock(rt);
    let shown = show_rounds(&mut *guard);
    ended.store(1, Ordering::SeqCst);
    shown
}

/// Lets two readers look at the prices while a writer changes them. Returns whether it showed each
/// round, and what each reader saw.
pub fn race<R: Threads + Wait + Sync, W: Wait + Drop + Send>(
    rt: &R,
    prices: &Mutex<Writer<u64, u64, W>>,
    one: Reader<u64, u64>,
    two: Reader<u64, u64>,
    ended: &AtomicU64,
) -> (Result<(), Trouble>, (Seen, Seen)) {
    // If no thread can be made, the first closure runs before the second.
    join(
        rt,
        || show_all(rt, prices, ended),
        || look_both(rt, one, two, ended),
    )
}
