//! The storm: threads that fill a shared index, and the line that reports the result.
ghost use Rattle.std.specs.Prelude.{◌≡◌, ◌++◌, false, decimal, map, IfErr, IfOk, OnErr, OnOk};
ghost use Rattle.std.specs.Result.{ForOk};
ghost use Rattle.std.specs.String.{string_bytes};
ghost use Rattle.tree_lines.specs.Writing.{Writes};
ghost use Rattle.tree_state.specs.Tallies.{tally};
ghost use Rattle.tree_shared.specs.Workers.{AreAnswered};
ghost use Rattle.treetool.specs.Storm.{AsksForStorm, IsStorm, RunsStorm, WritesEnd, line_of, refused_line, storm_line};

use std::alloc::Global;
use std::io::Write;
use std::sync::Wait;
use std::thread::Threads;
use tree_lines::{WriteFailed, number_of, write_number, write_whole};
use tree_shared::{Closed, Gate, StormError, run_workers};

/// Returns the numbers of workers and of pairs of the storm that the arguments request, or `None`
/// if they request something else.
pub fn storm_of(arguments: &[String]) -> Option<(usize, u64)>
    ensures { AsksForStorm (map string_bytes arguments.now) result }
{
    let [name, workers, pairs] = arguments else {
        return None;
    };
    if name.as_str() != "storm" {
        return None;
    }
    let workers = number_of(workers.as_bytes())?;
    let pairs = number_of(pairs.as_bytes())?;
    if workers < 1 || workers > 64 || pairs > 100_000 {
        return None;
    }
    Some((workers as usize, pairs))
}

/// Runs a storm at a gate, writes its line and returns the exit status: 0, or 3 with the line
/// `refused` if an allocation failed, a thread could not be started or the gate stopped a worker,
/// or 2 if a write fails.
pub fn run_storm<R: Threads + Wait + Sync, G: Gate + Sync, W: Write>(
    rt: &R,
    alloc: Global,
    workers: usize,
    pairs: u64,
    gate: &G,
    output: &mut W,
) -> u8
    requires { IsStorm (workers, pairs) }
    ensures line { RunsStorm (workers, pairs) (W.contents output.old) (W.contents output.new) result }

    // With status 0 the gate let each worker make each of its calls.
    ensures passed { result ≡ 0 → AreAnswered (G.answers gate.now) workers pairs false }
{
    let ended = run_workers(rt, alloc, workers, pairs, gate);
    write_end(&ended, output)
}

// Writes how a storm ended, and returns the exit status.
#[tactic(auto, using(crate::proofs::Storms::ends_written))]
fn write_end<W: Write>(ended: &Result<Closed<u64, u64>, StormError>, output: &mut W) -> u8
    requires { ForOk ended.now (λ closed. closed.tally ≡ tally closed.history.items) }
    ensures closed { IfOk ended.now (λ closed.
        WritesEnd (line_of closed.history.items closed.index.pairs) 0
        (W.contents output.old) (W.contents output.new) result) }
    ensures refused { IfErr ended.now (λ _.
        WritesEnd refused_line 3 (W.contents output.old) (W.contents output.new) result) }
{
    match ended {
        Ok(closed) => status_of(write_closed(closed, output), 0),
        Err(_) => status_of(write_whole(output, b"refused\n"), 3),
    }
}

// Returns this status if all was written, or else 2.
fn status_of(written: Result<(), WriteFailed>, status: u8) -> u8
    ensures whole { OnOk written (result ≡ status) }
    ensures part { OnErr written (result ≡ 2) }
{
    match written {
        Ok(()) => status,
        Err(_) => 2,
    }
}

// Writes the line of a closed index.
fn write_closed<W: Write>(closed: &Closed<u64, u64>, output: &mut W) -> Result<(), WriteFailed>
    requires { closed.now.tally ≡ tally closed.now.history.items }
    ensures { Writes (line_of closed.now.history.items closed.now.index.pairs)
        (W.contents output.old) (W.contents output.new) result }
{
    let (tally, length) = (closed.tally, closed.index.len() as u64);
    write_storm(output, tally.calls, tally.stored, length)
}

// Writes the line of a storm.
fn write_storm<W: Write>(
    output: &mut W,
    calls: u64,
    stored: u64,
    length: u64,
) -> Result<(), WriteFailed>
    ensures { Writes (storm_line calls stored length) (W.contents output.old) (W.contents output.new) result }
{
    write_counted(output, b"calls ", calls)?;
    write_counted(output, b" stored ", stored)?;
    write_counted(output, b" length ", length)?;
    write_whole(output, b"\n")
}

// Writes what is counted, and its number.
fn write_counted<W: Write>(output: &mut W, counted: &[u8], number: u64) -> Result<(), WriteFailed>
    ensures { Writes (counted.now ++ decimal number) (W.contents output.old) (W.contents output.new) result }
{
    write_whole(output, counted)?;
    write_number(output, number)
}
