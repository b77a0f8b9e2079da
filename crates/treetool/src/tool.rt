//! The program over streams that are passed to it.
ghost use Rattle.std.specs.Prelude.{◌≡◌, ◌⊎◌, [], Some, None, map};
ghost use Rattle.std.specs.String.{string_bytes};
ghost use Rattle.treetool.specs.Storm.{RunsStorm};
ghost use Rattle.treetool.specs.Tasks.{AsksFor};
ghost use Rattle.treetool.specs.Tool.{AnswersLines, RefusesArguments};
ghost use Rattle.treetool.specs.declared.task.Task.TheVariants.{Lines, SmallLines, Storm};

use crate::storm::run_storm;
use crate::task::{Task, task_of};
use std::alloc::Global;
use std::io::{Read, Write};
use std::sync::Wait;
use std::thread::Threads;
use tree_index::{SmallTreeIndex, TreeIndex, TreeIndexOf};
use tree_lines::{run_lines, write_whole};
use tree_shared::OpenGate;

/// Runs the program and returns its exit status. `arguments` are those after the program's name.
///
/// Without arguments it answers the requests of `input` over an index that is empty at first, with
/// fifteen pairs a leaf; with the argument `--small` it does so with seven. The status is 0 at the
/// end of the input and 2 if a read or a write fails.
///
/// With the arguments of a storm it runs the storm and writes its line to `output`. The status is 0
/// then, 2 if the write fails, and 3, with the line `refused`, if the storm couldn't start a
/// thread, or couldn't allocate its passes or threads.
///
/// With other arguments it writes the usage line to `errors`; the status is then 1, even if that
/// write fails.
pub fn tool<R: Threads + Wait + Sync, I: Read + Drop, W: Write + Drop, E: Write + Drop>(
    rt: &R,
    alloc: Global,
    arguments: &[String],
    mut input: I,
    mut output: W,
    mut errors: E,
) -> u8
    ensures lines { AsksFor (map string_bytes arguments.now) (Some Lines) → (result ≡ 0) ⊎ (result ≡ 2) }
    ensures small { AsksFor (map string_bytes arguments.now) (Some SmallLines) → (result ≡ 0) ⊎ (result ≡ 2) }
    ensures storm { (workers pairs : _) → AsksFor (map string_bytes arguments.now) (Some (Storm workers pairs))
        → (result ≡ 0) ⊎ (result ≡ 2) ⊎ (result ≡ 3) }
    ensures usage { AsksFor (map string_bytes arguments.now) None → result ≡ 1 }
{
    run_tool(rt, alloc, arguments, &mut input, &mut output, &mut errors)
}

// Runs the program over borrowed streams, so that its contract can state what happens to them.
fn run_tool<R: Threads + Wait + Sync, I: Read, W: Write, E: Write>(
    rt: &R,
    alloc: Global,
    arguments: &[String],
    input: &mut I,
    output: &mut W,
    errors: &mut E,
) -> u8
    // Lines are answered over an index of the requested size, and nothing is written to the errors.
    ensures lines { AsksFor (map string_bytes arguments.now) (Some Lines) →
        AnswersLines 15 (I.remaining input.old) (I.remaining input.new)
        (W.contents output.old) (W.contents output.new) result × (errors.new ≡ errors.old) }
    ensures small { AsksFor (map string_bytes arguments.now) (Some SmallLines) →
        AnswersLines 7 (I.remaining input.old) (I.remaining input.new)
        (W.contents output.old) (W.contents output.new) result × (errors.new ≡ errors.old) }

    // For a storm, its line is written. The input is not read, and nothing is written to the
    // errors.
    ensures storm { (workers pairs : _) → AsksFor (map string_bytes arguments.now) (Some (Storm workers pairs)) →
        RunsStorm (workers, pairs) (W.contents output.old) (W.contents output.new) result
        × (input.new ≡ input.old) × (errors.new ≡ errors.old) }

    // Other arguments are refused. The input is not read, and nothing is written to the output.
    ensures usage { AsksFor (map string_bytes arguments.now) None →
        RefusesArguments (E.contents errors.old) (E.contents errors.new) result
        × (input.new ≡ input.old) × (output.new ≡ output.old) }
{
    match task_of(arguments) {
        Some(Task::Lines) => answer_lines(alloc, input, output),
        Some(Task::SmallLines) => answer_small_lines(alloc, input, output),
        Some(Task::Storm(workers, pairs)) => run_storm(
            rt, alloc, workers, pairs, &OpenGate, output,
        ),
        None => {
            let _ = write_whole(errors, b"usage: treetool [--small | storm W N]\n");
            1
        }
    }
}

// Answers lines over a new index of fifteen pairs a leaf, and returns the exit status.
fn answer_lines<I: Read, W: Write>(alloc: Global, input: &mut I, output: &mut W) -> u8
    ensures { AnswersLines 15 (I.remaining input.old) (I.remaining input.new)
        (W.contents output.old) (W.contents output.new) result }
{
    let mut index: TreeIndex<u64, u64> = TreeIndex::new(alloc);
    answer_over(&mut index, input, output)
}

// Does so over one of seven pairs a leaf.
fn answer_small_lines<I: Read, W: Write>(alloc: Global, input: &mut I, output: &mut W) -> u8
    ensures { AnswersLines 7 (I.remaining input.old) (I.remaining input.new)
        (W.contents output.old) (W.contents output.new) result }
{
    let mut index: SmallTreeIndex<u64, u64> = SmallTreeIndex::new(alloc);
    answer_over(&mut index, input, output)
}

// Answers lines over an index that is empty, and returns the exit status. An index of an unknown
// number of slots can be borrowed here, but not made: its proof would have to state how large it
// is.
fn answer_over<I: Read, W: Write, const LEN: usize>(
    index: &mut TreeIndexOf<u64, u64, LEN>,
    input: &mut I,
    output: &mut W,
) -> u8
    requires { index.old.pairs ≡ [] }
    ensures { AnswersLines LEN (I.remaining input.old) (I.remaining input.new)
        (W.contents output.old) (W.contents output.new) result }
{
    match run_lines(index, input, output) {
        Ok(()) => 0,
        Err(_) => 2,
    }
}
