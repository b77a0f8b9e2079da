//! The engine: reads lines of requests and writes their answers.
ghost use Rattle.std.specs.Prelude.{◌∷◌, []};
ghost use Rattle.tree_lines.specs.Progress.{EndsInput, Feeds};
ghost use Rattle.tree_lines.specs.Runs.{RunsLines};

use crate::WriteFailed;
use crate::answers::{answer_to, write_answer};
use crate::begun_line::BegunLine;
use std::error::Error;
use std::fmt;
use std::io::{Read, Write};
use tree_index::TreeIndexOf;

/// Why [`run_lines`] stopped before the end of its input.
#[derive(Clone, Copy, Debug, PartialEq, Eq)]
pub enum ToolFault {
    /// A read failed.
    Read,
    /// A write failed or took no byte.
    Write,
}

impl fmt::Display for ToolFault {
    fn fmt<W: fmt::Write>(&self, f: &mut fmt::Formatter<W>) -> fmt::Result {
        match self {
            ToolFault::Read => write!(f, "a read failed"),
            ToolFault::Write => write!(f, "a write failed"),
        }
    }
}

impl Error for ToolFault {}

/// Applies the requests of the input, one a line, and writes an answer line to each.
///
/// The answer to a line is written whole before the next line is applied. Bytes after the last line
/// feed are a line too, if there are any. A line that is not a request is answered `?` and changes
/// nothing.
///
/// Returns `Err(ToolFault::Read)` if a read fails: each line that a line feed ended is applied and
/// answered, and what was read after the last line feed is not applied. Returns
/// `Err(ToolFault::Write)` if a write fails or takes no byte: the request whose answer was cut
/// short is applied, and each line before it is applied and answered. Interrupted calls are not
/// tried again.
///
/// Reads at most 256 bytes at a time. The engine allocates nothing; an insert or an upsert may
/// allocate in the index.
///
/// ```
/// let mut index: TreeIndex<u64, u64> = TreeIndex::new(rt.alloc());
/// match run_lines(&mut index, &mut input, &mut output) {
///     Ok(()) => ExitCode::from(0),
///     Err(_) => ExitCode::from(2),
/// }
/// ```
pub fn run_lines<R: Read, W: Write, const LEN: usize>(
    index: &mut TreeIndexOf<u64, u64, LEN>,
    input: &mut R,
    output: &mut W,
) -> Result<(), ToolFault>
    ensures { RunsLines LEN index.old.pairs index.new.pairs (R.remaining input.old) (R.remaining input.new)
        (W.contents output.old) (W.contents output.new) result }
{
    let mut line = BegunLine::new();
    let mut piece = [0; 256];
    for _ in 0..u64::MAX {
        let Ok(count) = input.read(&mut piece) else {
            return Err(ToolFault::Read);
        };
        if count == 0 {
            return match end_lines(index, &line, output) {
                Ok(()) => Ok(()),
                Err(_) => Err(ToolFault::Write),
            };
        }
        let (bytes, _) = piece.split_at(count);
        let Ok(()) = feed_all(index, &mut line, bytes, output) else {
            return Err(ToolFault::Write);
        };
    }
    Err(ToolFault::Read)
}

// Answers the last line, which no line feed ended, unless it is empty.
fn end_lines<W: Write, const LEN: usize>(
    index: &mut TreeIndexOf<u64, u64, LEN>,
    line: &BegunLine,
    output: &mut W,
) -> Result<(), WriteFailed>
    ensures { EndsInput LEN line.now index.old.pairs index.new.pairs
        (W.contents output.old) (W.contents output.new) result }
{
    if line.is_empty() {
        return Ok(());
    }
    let answer = answer_to(index, line);
    write_answer(output, index, answer)
}

// Takes the bytes one after another.
fn feed_all<W: Write, const LEN: usize>(
    index: &mut TreeIndexOf<u64, u64, LEN>,
    line: &mut BegunLine,
    bytes: &[u8],
    output: &mut W,
) -> Result<(), WriteFailed>
    ensures { Feeds LEN line.old index.old.pairs bytes.now line.new index.new.pairs
        (W.contents output.old) (W.contents output.new) result }
{
    for byte in bytes {
        feed(index, line, *byte, output)?;
    }
    Ok(())
}

// Takes a byte. A line feed ends the line, which is then answered.
fn feed<W: Write, const LEN: usize>(
    index: &mut TreeIndexOf<u64, u64, LEN>,
    line: &mut BegunLine,
    byte: u8,
    output: &mut W,
) -> Result<(), WriteFailed>
    ensures { Feeds LEN line.old index.old.pairs (byte ∷ []) line.new index.new.pairs
        (W.contents output.old) (W.contents output.new) result }
{
    if byte != b'\n' {
        line.push(byte);
        return Ok(());
    }
    let answer = answer_to(index, line);
    write_answer(output, index, answer)?;
    line.clear();
    Ok(())
}
