//! Workers at a gate.
ghost use Rattle.std.specs.Prelude.{◌≤◌};

use std::alloc::{AllocError, Global};
use std::process::Abort;
use std::sync::Wait;
use std::sync::atomic::{AtomicBool, AtomicU64, Ordering};
use std::thread;
use std::thread::Threads;
use std::time::{Clock, Duration};
use test_support::refusals::succeeds;
use tree_index::{Command, Record};
use tree_shared::{Gate, OpenGate, StormError, run_workers};

// Waits for a flag, at most so many milliseconds. Returns whether it was raised.
fn is_raised<R: Clock>(rt: &R, flag: &AtomicBool, patience: u64) -> bool {
    for _ in 0..patience {
        if flag.load(Ordering::SeqCst) {
            return true;
        }
        thread::sleep(rt, Duration::from_millis(1));
    }
    false
}

// Which calls of its gate a worker made.
#[derive(Drop)]
struct Turns {
    is_here: AtomicBool,
    asked: AtomicU64,
    told: AtomicU64,
}

impl Turns {
    fn new() -> Self {
        Turns {
            is_here: AtomicBool::new(false),
            asked: AtomicU64::new(0),
            told: AtomicU64::new(0),
        }
    }

    // Records a call of `before`. Returns whether its turns went by one, `before` first.
    fn asks(&self, call: u64) -> bool {
        let asked = self.asked.swap(call, Ordering::SeqCst);
        asked == self.told.load(Ordering::SeqCst) && asked.checked_add(1) == Some(call)
    }

    // Records a call of `after`. Returns whether its turns went by one, `before` first.
    fn tells(&self, call: u64) -> bool {
        let told = self.told.swap(call, Ordering::SeqCst);
        call == self.asked.load(Ordering::SeqCst) && told.checked_add(1) == Some(call)
    }
}

// Holds the first calls of two workers until both are there, and checks that each calls `before`
// and `after` by turns.
#[derive(Drop)]
struct Meeting<R> {
    rt: R,
    patience: u64,
    first: Turns,
    second: Turns,
    is_in_turn: AtomicBool,
}

impl<R: Clock> Meeting<R> {
    // A gate whose workers wait at most so many milliseconds for one another.
    fn new(rt: R, patience: u64) -> Self {
        Meeting {
            rt,
            patience,
            first: Turns::new(),
            second: Turns::new(),
            is_in_turn: AtomicBool::new(true),
        }
    }

    // A worker's turns, and those of the other.
    fn turns(&self, worker: usize) -> (&Turns, &Turns) {
        if worker == 0 {
            (&self.first, &self.second)
        } else {
            (&self.second, &self.first)
        }
    }

    fn note(&self, is_in_turn: bool) {
        if !is_in_turn {
            self.is_in_turn.store(false, Ordering::SeqCst);
        }
    }

    // Whether both workers reported so many calls, each by turns.
    fn saw(&self, calls: u64) -> bool {
        self.is_in_turn.load(Ordering::SeqCst)
            && self.first.told.load(Ordering::SeqCst) == calls
            && self.second.told.load(Ordering::SeqCst) == calls
    }
}

impl<R: Clock> Gate for Meeting<R> {
    fn before(&self, worker: usize, call: u64) -> bool {
        let (own, other) = self.turns(worker);
        self.note(own.asks(call));
        own.is_here.store(true, Ordering::SeqCst);
        call != 1 || is_raised(&self.rt, &other.is_here, self.patience)
    }

    fn after(&self, worker: usize, call: u64) {
        let (own, _) = self.turns(worker);
        self.note(own.tells(call));
    }
}

// Whether a small allocation fails.
fn is_out_of_memory(alloc: Global) -> bool {
    Vec::<u8>::with_capacity(alloc, 1).is_err()
}

// Returns the history of a storm that no gate stops. Its index and its tally fit it, and one
// refusal takes one call at most. Returns `Err` if an allocation fails or a thread cannot be
// started before the calls.
fn history_of<R: Threads + Wait + Abort + Sync, G: Gate + Sync>(
    rt: &R,
    alloc: Global,
    workers: usize,
    n: u64,
    gate: &G,
) -> Result<Vec<Record<u64, u64>>, AllocError>
    requires { (1 ≤ workers) × (workers ≤ 64) }
{
    match run_workers(rt, alloc, workers, n, gate) {
        Ok(closed) => {
            let (calls, all) = (closed.tally.calls, n.saturating_mul(workers as u64));
            let fits = calls == all || calls.checked_add(1) == Some(all) || is_out_of_memory(alloc);
            let stored = closed.tally.stored;
            let length = closed.index.len() as u64;
            assert!(rt; fits && (calls < all || stored == n) && stored == length);
            Ok(closed.history)
        }
        Err(StormError::Refused) => Err(AllocError),
        Err(StormError::GateStopped) => panic!(rt; "the gate stopped a worker"),
    }
}

// Sees that the gate stops a storm.
fn expect_stop<R: Threads + Wait + Abort + Sync, G: Gate + Sync>(
    rt: &R,
    alloc: Global,
    workers: usize,
    n: u64,
    gate: &G,
) -> Result<(), AllocError>
    requires { (1 ≤ workers) × (workers ≤ 64) }
{
    match run_workers(rt, alloc, workers, n, gate) {
        Ok(_) => panic!(rt; "no stop was told"),
        Err(StormError::Refused) => Err(AllocError),
        Err(StormError::GateStopped) => Ok(()),
    }
}

// Workers that ran one after another would be stopped here. If both have started, they make all
// their calls, refused or not.
#[test]
fn gate_needs_two_workers(rt: HostRuntime) {
    let steps = || {
        let gate = Meeting::new(rt, 10_000);
        let history = history_of(&rt, rt.alloc(), 2, 100, &gate)?;
        assert!(rt; gate.saw(100));
        if history.len() < 200 {
            Err(AllocError)
        } else {
            Ok(())
        }
    };
    assert!(rt; succeeds(rt.alloc(), steps));
}

// One worker waits in vain, and stops.
#[test]
fn gate_stops_a_worker_alone(rt: HostRuntime) {
    let steps = || expect_stop(&rt, rt.alloc(), 1, 3, &Meeting::new(rt, 5));
    assert!(rt; succeeds(rt.alloc(), steps));
}

// Lets the second worker begin once the first has reported its second call, and holds the first
// there until the second begins its own second call.
#[derive(Drop)]
struct Relay<R> {
    rt: R,
    told: AtomicBool,
    went_on: AtomicBool,
}

impl<R: Clock> Gate for Relay<R> {
    fn before(&self, worker: usize, call: u64) -> bool {
        if worker == 1 && call == 2 {
            self.went_on.store(true, Ordering::SeqCst);
        }
        worker != 1 || call != 1 || is_raised(&self.rt, &self.told, 3_000)
    }

    fn after(&self, worker: usize, call: u64) {
        if worker == 0 && call == 2 {
            self.told.store(true, Ordering::SeqCst);
            is_raised(&self.rt, &self.went_on, 3_000);
        }
    }
}

// Whether a history inserts these keys, each as its own value, in this order.
fn inserts(history: &[Record<u64, u64>], keys: &[u64]) -> bool {
    for (record, key) in history.iter().zip(keys) {
        if record.command != Command::Insert(*key, *key) {
            return false;
        }
    }
    history.len() == keys.len()
}

// Checks that the inserts of a storm are these, in this order. Returns `Err` if one is refused, or
// a thread cannot be started.
fn expect_inserts<R: Threads + Wait + Abort + Sync, G: Gate + Sync>(
    rt: &R,
    alloc: Global,
    workers: usize,
    n: u64,
    gate: &G,
    keys: &[u64],
) -> Result<(), AllocError>
    requires { (1 ≤ workers) × (workers ≤ 64) }
{
    let history = history_of(rt, alloc, workers, n, gate)?;
    if history.len() < keys.len() {
        return Err(AllocError);
    }
    assert!(rt; inserts(&history, keys));
    Ok(())
}

#[test]
fn a_worker_inserts_in_ascending_order(rt: HostRuntime) {
    let keys = [1, 2, 3, 4, 5];
    assert!(rt;
        succeeds(
            rt.alloc(),
            || expect_inserts(&rt, rt.alloc(), 1, 5, &OpenGate, &keys)
        )
    );
}

#[test]
fn a_call_is_told_once_it_is_answered(rt: HostRuntime) {
    let steps = || {
        let gate = Relay {
            rt,
            told: AtomicBool::new(false),
            went_on: AtomicBool::new(false),
        };
        expect_inserts(&rt, rt.alloc(), 2, 2, &gate, &[1, 2, 1, 2])
    };
    assert!(rt; succeeds(rt.alloc(), steps));
}

// Stops this worker at its second call.
#[derive(Clone, Copy)]
struct Stop(usize);

impl Gate for Stop {
    fn before(&self, worker: usize, call: u64) -> bool {
        worker != self.0 || call < 2
    }

    fn after(&self, _worker: usize, _call: u64) {}
}

#[test]
fn tells_of_any_worker_that_stopped(rt: HostRuntime) {
    for worker in 0..3 {
        let steps = || expect_stop(&rt, rt.alloc(), 3, 5, &Stop(worker));
        assert!(rt; succeeds(rt.alloc(), steps), "worker {worker}");
    }
}
