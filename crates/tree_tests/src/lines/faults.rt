//! Runs in which a read or a write fails.
use super::engine::Answers;
use super::streams::{Failing, Failure, Sink, Source};
use std::alloc::{AllocError, Global};
use std::process::Abort;
use test_support::refusals::succeeds;
use tree_index::TreeIndex;
use tree_lines::{ToolFault, WriteFailed};

// Lines, the answers to them, and the pairs before the first line and after each, as `iter`
// answers them.
struct Script {
    lines: &'static [u8],
    answers: &'static [u8],
    pairs: &'static [&'static str],
}

static SCRIPTS: [Script; 3] = [
    Script {
        lines: b"insert 1 10\ninsert 2 20\ninsert 3 30\n",
        answers: b"ok\nok\nok\n",
        pairs: &["\n", "1=10\n", "1=10 2=20\n", "1=10 2=20 3=30\n"],
    },
    Script {
        lines: b"insert 1 10\ninsert 1 11\nrange [0 (1\ninsert 01 5\nlocate 9\nremove_range (1 -\nlen\nclear\nlocate 9\ndepth\n",
        answers: b"ok\nduplicate\n\n?\nsmaller 1=10\nok\n1\nok\nempty\n0\n",
        pairs: &[
            "\n", "1=10\n", "1=10\n", "1=10\n", "1=10\n", "1=10\n", "1=10\n", "1=10\n", "\n", "\n",
            "\n",
        ],
    },
    Script {
        lines: b"insert 1 10\ninsert 3 30\nback\nlocate 2\nremove 3\nrange - -\n",
        answers: b"ok\nok\n3=30 1=10\nbetween 1=10 3=30\ntrue\n1=10\n",
        pairs: &[
            "\n",
            "1=10\n",
            "1=10 3=30\n",
            "1=10 3=30\n",
            "1=10 3=30\n",
            "1=10\n",
            "1=10\n",
        ],
    },
];

// How many bytes a call moves at most: one, two, or more than a script has.
static PIECES: [usize; 3] = [1, 2, 256];

// The number of line feeds.
fn count_lines(bytes: &[u8]) -> usize {
    let mut count: usize = 0;
    for byte in bytes {
        if *byte == b'\n' {
            count = count.saturating_add(1);
        }
    }
    count
}

// How a run ended, what went out, and the pairs that it left.
#[derive(Drop)]
struct Ended {
    outcome: Result<(), ToolFault>,
    output: Sink,
    pairs: Sink,
}

impl Ended {
    // Whether these pairs are left.
    fn has_left(&self, pairs: Option<&&'static str>) -> bool {
        match pairs {
            Some(text) => text.as_bytes() == self.pairs.taken(),
            None => false,
        }
    }

    // Whether the run ended so, the answers are the first of a script, and the pairs are those
    // behind so many lines.
    fn shows(&self, script: &Script, outcome: Result<(), ToolFault>, applied: usize) -> bool {
        self.outcome == outcome
            && script.answers.starts_with(self.output.taken())
            && self.has_left(script.pairs.get(applied))
    }
}

// Runs the lines of a reader over an index, which is cleared first.
fn run(index: &mut impl Answers, mut input: Source<'_>, mut output: Sink) -> Ended {
    index.clear();
    let outcome = index.run(&mut input, &mut output);
    let (mut walk, mut pairs) = (b"iter\n".as_slice(), Sink::new(256, Failing::never()));
    let _ = index.run(&mut walk, &mut pairs);
    Ended {
        outcome,
        output,
        pairs,
    }
}

// Stores a pair, so that the index allocates no more for a script.
fn prepare(index: &mut TreeIndex<u64, u64>) -> Result<(), AllocError> {
    match index.upsert_sync(1, 1) {
        Ok(()) => Ok(()),
        Err(_) => Err(AllocError),
    }
}

// Whether each line that a line feed ended before the failed read is applied and answered, and no
// other one. A run ends well if the read that finds no more bytes passes.
fn shows_a_failed_read(
    index: &mut impl Answers,
    script: &Script,
    piece: usize,
    failing: Failing,
) -> bool {
    let input = Source::new(script.lines, piece, failing);
    let ended = run(index, input, Sink::new(1, Failing::never()));
    let passes = failing.passes as usize;
    let is_whole = passes.saturating_sub(1).saturating_mul(piece) >= script.lines.len();
    let outcome = if is_whole {
        Ok(())
    } else {
        Err(ToolFault::Read)
    };
    let given = passes.saturating_mul(piece);
    let lines = count_lines(script.lines.get(..given).unwrap_or(script.lines));
    let answers = ended.output.taken();
    let are_lines = answers.is_empty() || answers.ends_with(b"\n");
    are_lines && count_lines(answers) == lines && ended.shows(script, outcome, lines)
}

// Fails each read of a script in turn.
fn fail_reads(rt: &impl Abort, index: &mut impl Answers, script: &Script) {
    for by in [Failure::Broken, Failure::Interrupted] {
        for piece in &PIECES {
            for passes in 0..=script.lines.len() as u64 {
                let failing = Failing { passes, by };
                assert!(rt;
                    shows_a_failed_read(index, script, *piece, failing),
                    "{by:?} after {passes} reads of {piece}"
                );
            }
        }
    }
}

// Whether each line before the one whose answer broke off is applied and answered, and that one is
// applied. A run whose writes all pass ends well.
fn shows_a_failed_write(
    index: &mut impl Answers,
    script: &Script,
    piece: usize,
    failing: Failing,
) -> bool {
    let input = Source::new(script.lines, 1, Failing::never());
    let ended = run(index, input, Sink::new(piece, failing));
    let answers = ended.output.taken();
    let answered = count_lines(answers);
    let is_whole = answers.len() == script.answers.len();
    let (outcome, applied) = if is_whole {
        (Ok(()), answered)
    } else {
        (Err(ToolFault::Write), answered.saturating_add(1))
    };
    let taken = answers.len() as u64;
    let is_in_place = is_whole || taken == failing.passes || piece > 1 && taken > failing.passes;
    is_in_place && ended.shows(script, outcome, applied)
}

// Fails each write of a script in turn.
fn fail_writes(rt: &impl Abort, index: &mut impl Answers, script: &Script) {
    for by in [Failure::Broken, Failure::Interrupted, Failure::Stalled] {
        for piece in &PIECES {
            for passes in 0..script.answers.len() as u64 {
                let failing = Failing { passes, by };
                assert!(rt;
                    shows_a_failed_write(index, script, *piece, failing),
                    "{by:?} after {passes} writes of {piece}"
                );
            }
        }
    }
}

// What fails.
#[derive(Clone, Copy)]
enum Failed {
    Reads,
    Writes,
}

// Fails each read or each write of a script in turn.
fn fail_calls(rt: &impl Abort, index: &mut impl Answers, script: &Script, failed: Failed) {
    match failed {
        Failed::Reads => fail_reads(rt, index, script),
        Failed::Writes => fail_writes(rt, index, script),
    }
}

// Does so with each script.
fn fail_each(
    rt: &impl Abort,
    index: &mut TreeIndex<u64, u64>,
    failed: Failed,
) -> Result<(), AllocError> {
    prepare(index)?;
    for script in &SCRIPTS {
        fail_calls(rt, index, script, failed);
    }
    Ok(())
}

fn fails_steps(rt: &impl Abort, alloc: Global, failed: Failed) -> Result<(), AllocError> {
    let mut index: TreeIndex<u64, u64> = TreeIndex::new(alloc);
    fail_each(rt, &mut index, failed)
}

// Whether each read or each write that fails is reported.
fn is_told(rt: &impl Abort, alloc: Global, failed: Failed) -> bool {
    succeeds(alloc, || fails_steps(rt, alloc, failed))
}

#[test]
fn tells_that_a_read_failed(rt: HostRuntime) {
    assert!(rt; is_told(&rt, rt.alloc(), Failed::Reads));
}

#[test]
fn tells_that_a_write_failed(rt: HostRuntime) {
    assert!(rt; is_told(&rt, rt.alloc(), Failed::Writes));
}

fn shows_faults_steps(rt: &impl Abort, alloc: Global) -> Result<(), AllocError> {
    let (read, write) = (ToolFault::Read, ToolFault::Write);
    let text = format!(in alloc; "{read}, {write}, {write:?}, {WriteFailed}")?;
    assert!(rt; text.as_str() == "a read failed, a write failed, Write, a write failed");
    Ok(())
}

#[test]
fn shows_faults(rt: HostRuntime) {
    assert!(rt; succeeds(rt.alloc(), || shows_faults_steps(&rt, rt.alloc())));
}
