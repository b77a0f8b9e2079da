//! The exit statuses of the program and what it writes, also if a read or a write fails.
ghost use Rattle.std.specs.Prelude.{◌≤◌, IfOk};

use crate::tool::tool;
use std::alloc::{AllocError, Global};
use std::io;
use std::io::{Cursor, ErrorKind, Read, Write};
use std::sync::Wait;
use std::thread::Threads;

// Lines, and the answers to them.
static SCRIPTS: [(&str, &str); 5] = [
    ("", ""),
    ("insert 1 10\npeek 1\n", "ok\n10\n"),
    (
        "insert 1 10\npeek 1\ninsert 2 20\npeek 2",
        "ok\n10\nok\n20\n",
    ),
    (
        "insert 2 2\ninsert 1 1\niter\nback\nrange (1 -\nrange [2 (2\nlocate 3\n",
        "ok\nok\n1=1 2=2\n2=2 1=1\n2=2\n\nsmaller 2=2\n",
    ),
    (LINES, ANSWERS),
];

const LINES: &str =
    "insert 1 10\ninsert 1 11\nrange [0 (1\ninsert 01 5\nlocate 9\nremove_range (1 -\nlen\nclear\nlocate 9\ndepth\n";

const ANSWERS: &str = "ok\nduplicate\n\n?\nsmaller 1=10\nok\n1\nok\nempty\n0\n";

// How the calls of a stream go: each moves so many bytes at most, and so many pass. Later ones
// fail, or move no byte.
#[derive(Clone, Copy, Debug)]
struct Calls {
    piece: usize,
    passes: u64,
    failure: Option<ErrorKind>,
}

impl Calls {
    // Calls that all pass.
    fn all() -> Self {
        Calls {
            piece: 256,
            passes: u64::MAX,
            failure: None,
        }
    }

    // Counts a call. Returns how many bytes of its buffer it may move.
    fn next(&mut self, length: usize) -> io::Result<usize>
        ensures { IfOk result (λ count. count ≤ length) }
    {
        if self.passes > 0 {
            self.passes -= 1;
            return Ok(self.piece.min(length));
        }
        match self.failure {
            Some(kind) => Err(io::Error::from(kind)),
            None => Ok(0),
        }
    }
}

// A stream with such calls.
#[derive(Drop)]
struct Stream<S> {
    inner: S,
    calls: Calls,
}

impl<S: Read> Read for Stream<S> {
    fn read(&mut self, buf: &mut [u8]) -> io::Result<usize> {
        let count = self.calls.next(buf.len())?;
        self.inner.read(&mut buf[..count])
    }
}

impl<S: Write> Write for Stream<S> {
    fn write(&mut self, buf: &[u8]) -> io::Result<usize> {
        let count = self.calls.next(buf.len())?;
        self.inner.write(&buf[..count])
    }

    fn flush(&mut self) -> io::Result<()> {
        self.inner.flush()
    }
}

// Whether the program, over these lines and with such reads and writes, ends with this status,
// writes these answers and shows no error.
fn ends_with<R: Threads + Wait + Sync>(
    rt: &R,
    alloc: Global,
    lines: &str,
    (reads, writes): (Calls, Calls),
    (status, answers): (u8, &[u8]),
) -> bool {
    let input = Stream {
        inner: lines.as_bytes(),
        calls: reads,
    };
    let mut memory = [0; 64];
    let mut output = Stream {
        inner: Cursor::new(&mut memory[..]),
        calls: writes,
    };
    let mut shown = [0; 64];
    let mut errors = Cursor::new(&mut shown[..]);
    let ended = tool(rt, alloc, &[], input, &mut output, &mut errors);
    let (written, silent) = (output.inner.position() as usize, errors.position() == 0);
    ended == status && silent && &memory[..written.min(64)] == answers
}

// Whether this holds, at once or the second time: a run in which an allocation fails answers
// otherwise. If an allocation failed in both, one of this function fails too.
pub(crate) fn holds<F: Fn() -> bool + Drop>(alloc: Global, once: F) -> bool
    requires { F.IsAlwaysCallable once }
{
    once() || once() || is_out_of_memory(alloc)
}

// Whether a small allocation fails.
pub(crate) fn is_out_of_memory(alloc: Global) -> bool {
    Vec::<u8>::with_capacity(alloc, 1).is_err()
}

#[test]
fn ends_at_the_end_of_the_input(rt: HostRuntime) {
    let byte_by_byte = Calls {
        piece: 1,
        ..Calls::all()
    };
    for (lines, answers) in &SCRIPTS {
        for calls in [Calls::all(), byte_by_byte] {
            let ended = (0, answers.as_bytes());
            let once = || ends_with(&rt, rt.alloc(), lines, (calls, calls), ended);
            assert!(rt; holds(rt.alloc(), once), "{lines:?}");
        }
    }
}

// The number of line feeds.
fn count_lines(text: &[u8]) -> usize {
    text.iter().filter(|byte| **byte == b'\n').count()
}

// The answers to the lines that a line feed ends within so many bytes.
fn answers_within(bytes: usize) -> &'static [u8] {
    let (lines, answers) = (LINES.as_bytes(), ANSWERS.as_bytes());
    let read = count_lines(lines.get(..bytes).unwrap_or(lines));
    for length in 0..answers.len() {
        let front = answers.split_at(length).0;
        if count_lines(front) == read {
            return front;
        }
    }
    answers
}

// Whether the program ends as it should with each number of reads that pass, of so many bytes, when
// the next one fails. If the read that finds no more bytes passes, it ends well.
fn tells_failed_reads<R: Threads + Wait + Sync>(
    rt: &R,
    alloc: Global,
    piece: usize,
    failure: ErrorKind,
) -> bool {
    for passes in 0..=LINES.len() / piece.max(1) + 2 {
        let reads = Calls {
            piece,
            passes: passes as u64,
            failure: Some(failure),
        };
        let is_whole = passes.saturating_sub(1).saturating_mul(piece) >= LINES.len();
        let answers = answers_within(passes.saturating_mul(piece));
        let ended = (if is_whole { 0 } else { 2 }, answers);
        if !holds(
            alloc,
            || ends_with(rt, alloc, LINES, (reads, Calls::all()), ended),
        ) {
            return false;
        }
    }
    true
}

#[test]
fn tells_that_a_read_failed(rt: HostRuntime) {
    assert!(rt; tells_failed_reads(&rt, rt.alloc(), 1, ErrorKind::Other));
}

#[test]
fn tells_that_a_read_was_interrupted(rt: HostRuntime) {
    assert!(rt; tells_failed_reads(&rt, rt.alloc(), 1, ErrorKind::Interrupted));
}

#[test]
fn tells_that_a_read_of_more_bytes_failed(rt: HostRuntime) {
    for piece in [2, 7, 256] {
        assert!(rt;
            tells_failed_reads(&rt, rt.alloc(), piece, ErrorKind::Other),
            "{piece} bytes"
        );
    }
}

#[test]
fn tells_that_a_write_failed(rt: HostRuntime) {
    for failure in [None, Some(ErrorKind::Other), Some(ErrorKind::Interrupted)] {
        for passes in 0..ANSWERS.len() {
            let writes = Calls {
                piece: 1,
                passes: passes as u64,
                failure,
            };
            let calls = (Calls::all(), writes);
            let ended = (2, ANSWERS.as_bytes().split_at(passes).0);
            let once = || ends_with(&rt, rt.alloc(), LINES, calls, ended);
            assert!(rt; holds(rt.alloc(), once), "{writes:?}");
        }
    }
}

// The words of a line.
pub(crate) fn words_of(alloc: Global, line: &str) -> Result<Vec<String>, AllocError> {
    let mut words = Vec::new(alloc);
    for word in line.split(' ') {
        words.push(String::from_str(alloc, word)?)?;
    }
    Ok(words)
}

// Whether the program with the argument `--small` answers these lines so and ends well.
fn answers_in_small<R: Threads + Wait + Sync>(
    rt: &R,
    alloc: Global,
    lines: &str,
    answers: &str,
) -> Result<bool, AllocError> {
    let arguments = words_of(alloc, "--small")?;
    let mut memory = [0; 64];
    let mut output = Cursor::new(&mut memory[..]);
    let mut shown = [0; 64];
    let mut errors = Cursor::new(&mut shown[..]);
    let input = lines.as_bytes();
    let ended = tool(rt, alloc, &arguments, input, &mut output, &mut errors);
    let (written, silent) = (output.position() as usize, errors.position() == 0);
    Ok(ended == 0 && silent && &memory[..written.min(64)] == answers.as_bytes())
}

#[test]
fn answers_over_leaves_of_seven(rt: HostRuntime) {
    let (lines, answers) = ("insert 1 10\nspare\ndepth\npeek 1\n", "ok\n6\n1\n10\n");
    let once = || answers_in_small(&rt, rt.alloc(), lines, answers) == Ok(true);
    assert!(rt; holds(rt.alloc(), once));
}

static UNKNOWN: [&str; 22] = [
    "x",
    "",
    "-h",
    "storm",
    "storm 2",
    "storm 2 5 1",
    "storm 0 5",
    "storm 65 1",
    "storm 02 5",
    "storm 2 05",
    "storm +2 5",
    "storm 2 100001",
    "Storm 2 5",
    "2 5 storm",
    "small",
    "--smal",
    "--smalls",
    "-small",
    "--Small",
    "--small --small",
    "--small storm 1 1",
    "storm 1 1 --small",
];

// Whether these arguments, with so many writes of a byte to the errors that pass, have status 1 and
// show this. The input is not read, and nothing is written to the output.
fn shows<R: Threads + Wait + Sync>(
    rt: &R,
    alloc: Global,
    arguments: &[String],
    passes: u64,
    failure: Option<ErrorKind>,
    shown: &[u8],
) -> bool {
    let mut input = LINES.as_bytes();
    let mut taken = [0; 64];
    let mut output = Cursor::new(&mut taken[..]);
    let mut memory = [0; 64];
    let mut errors = Stream {
        inner: Cursor::new(&mut memory[..]),
        calls: Calls {
            piece: 1,
            passes,
            failure,
        },
    };
    let status = tool(rt, alloc, arguments, &mut input, &mut output, &mut errors);
    let written = errors.inner.position() as usize;
    status == 1
        && input == LINES.as_bytes()
        && output.position() == 0
        && &memory[..written.min(64)] == shown
}

#[test]
fn shows_the_usage(rt: HostRuntime) {
    let usage = b"usage: treetool [--small | storm W N]\n".as_slice();
    for line in &UNKNOWN {
        let Ok(arguments) = words_of(rt.alloc(), line).or_else(|_| words_of(rt.alloc(), line))
        else {
            assert!(rt; is_out_of_memory(rt.alloc()));
            continue;
        };
        for (passes, shown) in [(64, usage), (0, b""), (3, b"usa")] {
            for failure in [None, Some(ErrorKind::Other)] {
                let holds = shows(&rt, rt.alloc(), &arguments, passes, failure, shown);
                assert!(rt; holds, "{line}");
            }
        }
    }
}
