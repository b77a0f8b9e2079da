//! What storms write, and how they end.
use crate::storm::run_storm;
use crate::tests::{holds, is_out_of_memory, words_of};
use crate::tool::tool;
use std::alloc::{AllocError, Global};
use std::io::Cursor;
use std::process::Abort;
use std::sync::Wait;
use std::sync::atomic::{AtomicU64, Ordering};
use std::thread::Threads;
use tree_shared::Gate;

// The line of a storm, and what it writes.
type Row = (&'static str, &'static str);

static STORMS: [Row; 5] = [
    ("storm 2 100", "calls 200 stored 100 length 100\n"),
    ("storm 2 0", "calls 0 stored 0 length 0\n"),
    ("storm 3 50", "calls 150 stored 50 length 50\n"),
    ("storm 64 1", "calls 64 stored 1 length 1\n"),
    ("storm 1 2000", "calls 2000 stored 2000 length 2000\n"),
];

const MANY_WORKERS: Row = ("storm 64 1000", "calls 64000 stored 1000 length 1000\n");

const MANY_PAIRS: Row = (
    "storm 1 100000",
    "calls 100000 stored 100000 length 100000\n",
);

// A status, and a text.
type End<'e> = (u8, &'e [u8]);

// Whether the program, with room for some bytes of output, ends with one of these statuses and its
// text, and shows no error.
fn ends_with<R: Threads + Wait + Sync>(
    rt: &R,
    alloc: Global,
    arguments: &[String],
    room: usize,
    ends: &[End<'_>],
) -> bool {
    let mut memory = [0; 64];
    let mut output = Cursor::new(&mut memory[..room.min(64)]);
    let mut shown = [0; 64];
    let mut errors = Cursor::new(&mut shown[..]);
    let input = b"".as_slice();
    let ended = tool(rt, alloc, arguments, input, &mut output, &mut errors);
    let (written, silent) = (output.position() as usize, errors.position() == 0);
    let told = (ended, &memory[..written.min(64)]);
    silent && ends.iter().any(|end| *end == told)
}

// Whether a storm with room for some bytes of output ends so, at once or the second time.
fn storm_ends<R: Threads + Wait + Sync>(
    rt: &R,
    alloc: Global,
    line: &str,
    room: usize,
    end: End<'_>,
) -> bool {
    let once = || match words_of(alloc, line) {
        Ok(arguments) => ends_with(rt, alloc, &arguments, room, &[end]),
        Err(_) => false,
    };
    holds(alloc, once)
}

// Asserts that a storm ends with its row's text.
fn expect_row<R: Threads + Wait + Abort + Sync>(rt: &R, alloc: Global, (line, text): Row) {
    assert!(rt;
        storm_ends(rt, alloc, line, 64, (0, text.as_bytes())),
        "{line}"
    );
}

#[test]
fn tells_what_was_stored(rt: HostRuntime) {
    for row in &STORMS {
        expect_row(&rt, rt.alloc(), *row);
    }
}

#[test]
fn tells_what_many_workers_stored(rt: HostRuntime) {
    expect_row(&rt, rt.alloc(), MANY_WORKERS);
}

#[test]
fn tells_of_many_pairs(rt: HostRuntime) {
    expect_row(&rt, rt.alloc(), MANY_PAIRS);
}

// Rooms that end in each part of the line of the first storm, and before and after it.
static ROOMS: [usize; 8] = [0, 3, 6, 8, 13, 19, 29, 31];

#[test]
fn tells_that_the_line_failed(rt: HostRuntime) {
    let (line, text) = STORMS[0];
    for room in ROOMS {
        let part = text.as_bytes().split_at(room).0;
        assert!(rt;
            storm_ends(&rt, rt.alloc(), line, room, (2, part)),
            "with room for {room}"
        );
    }
}

// Counts the calls before which workers called the gate.
#[derive(Drop)]
struct Counter(AtomicU64);

impl Gate for Counter {
    fn before(&self, _worker: usize, _call: u64) -> bool {
        self.0.fetch_add(1, Ordering::SeqCst);
        true
    }

    fn after(&self, _worker: usize, _call: u64) {}
}

const STORED: End<'static> = (0, b"calls 1 stored 1 length 1\n");

const LEFT: End<'static> = (0, b"calls 0 stored 0 length 0\n");

const REFUSED: End<'static> = (3, b"refused\n");

// The result of a storm of one worker and one pair.
#[derive(Clone, Copy, PartialEq, Eq)]
enum Storm {
    // Its call was answered.
    Answered,
    // Its call was refused, and it went on.
    CallRefused,
    // It was refused before its call.
    Refused,
    // Its line or its status is another.
    Wrong,
}

// What a status and a line report of such a storm.
fn storm_of(told: End<'_>) -> Storm {
    if told == STORED {
        return Storm::Answered;
    }
    if told == LEFT {
        return Storm::CallRefused;
    }
    if told == REFUSED {
        Storm::Refused
    } else {
        Storm::Wrong
    }
}

// Runs such a storm. It is refused if and only if its worker doesn't reach the call.
fn run_at_gate<R: Threads + Wait + Sync>(rt: &R, alloc: Global) -> Storm {
    let gate = Counter(AtomicU64::new(0));
    let mut memory = [0; 64];
    let mut output = Cursor::new(&mut memory[..]);
    let status = run_storm(rt, alloc, 1, 1, &gate, &mut output);
    let written = output.position() as usize;
    let storm = storm_of((status, &memory[..written.min(64)]));
    let asked = gate.0.load(Ordering::SeqCst);
    if asked == u64::from(storm != Storm::Refused) {
        storm
    } else {
        Storm::Wrong
    }
}

// Runs such a storm by the program.
fn run_by_tool<R: Threads + Wait + Sync>(rt: &R, alloc: Global, arguments: &[String]) -> Storm {
    let mut memory = [0; 64];
    let mut output = Cursor::new(&mut memory[..]);
    let mut shown = [0; 64];
    let mut errors = Cursor::new(&mut shown[..]);
    let input = b"".as_slice();
    let status = tool(rt, alloc, arguments, input, &mut output, &mut errors);
    let (written, silent) = (output.position() as usize, errors.position() == 0);
    if silent {
        storm_of((status, &memory[..written.min(64)]))
    } else {
        Storm::Wrong
    }
}

// Whether such a storm is answered. `Err` if an allocation failed or a thread could not be started:
// then the same storm is answered the second time, or every allocation fails from then on, and so
// it is refused before its call.
fn is_answered<F: Fn() -> Storm + Drop>(alloc: Global, run: F) -> Result<bool, AllocError>
    requires { F.IsAlwaysCallable run }
{
    let is_out = is_out_of_memory(alloc) && is_out_of_memory(alloc);
    match run() {
        Storm::Answered => return Ok(!is_out),
        Storm::CallRefused if !is_out => {}
        Storm::Refused => {}
        _ => return Ok(false),
    }
    match run() {
        Storm::Answered if !is_out => Err(AllocError),
        Storm::Refused if is_out_of_memory(alloc) => Err(AllocError),
        _ => Ok(false),
    }
}

#[test]
fn tells_that_memory_is_refused(rt: HostRuntime) {
    let once = || {
        let answered = is_answered(rt.alloc(), || run_at_gate(&rt, rt.alloc()));
        assert!(rt; answered != Ok(false));
        answered == Ok(true)
    };
    assert!(rt; holds(rt.alloc(), once));
}

#[test]
fn the_program_tells_that_memory_is_refused(rt: HostRuntime) {
    let once = || match words_of(rt.alloc(), "storm 1 1") {
        Ok(arguments) => {
            let answered = is_answered(rt.alloc(), || run_by_tool(&rt, rt.alloc(), &arguments));
            assert!(rt; answered != Ok(false));
            answered == Ok(true)
        }
        Err(_) => false,
    };
    assert!(rt; holds(rt.alloc(), once));
}
