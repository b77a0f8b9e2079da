//! Applies the request of a line and writes its answer.
ghost use Rattle.std.specs.Prelude.{◌≡◌, ℕ, List, Some};
ghost use Rattle.std.specs.Ordering.{nat_cmp};
ghost use Rattle.tree_model.specs.Edits.{RemovesIf};
ghost use Rattle.tree_lines.specs.Spelling.{clip, spelling, with_feed};
ghost use Rattle.tree_lines.specs.declared.requests.Request.{Request};
ghost use Rattle.tree_lines.specs.Lines.{Says, SaysEqual};
ghost use Rattle.tree_lines.specs.Progress.{answer_text, MeasuresIndex, Responds};
ghost use Rattle.tree_lines.specs.Writing.{Writes};

use crate::begun_line::BegunLine;
use crate::pairs::{write_ascending, write_descending, write_near};
use crate::requests::request_of;
use crate::short_text::ShortText;
use crate::{Request, WriteFailed, write_whole};
use std::io::Write;
use std::ops::Bound;
use tree_index::{InsertError, TreeIndexOf};

/// The answer to a line.
#[derive(Clone, Copy, Debug)]
pub enum Answer {
    /// `ok`.
    Done,
    /// `duplicate`.
    Duplicate,
    /// `refused`: the index could not allocate.
    Refused,
    /// `none`.
    Missing,
    /// `true` or `false`.
    Truth(bool),
    /// `?`: the line is not a request.
    Unknown,
    /// A number in decimal digits.
    Value(u64),
    /// The pairs whose keys are within both bounds, in ascending order.
    Ascending(Bound<u64>, Bound<u64>),
    /// All pairs, in descending order.
    Descending,
    /// Where a key is: present, or between which pairs.
    Near(u64),
}

/// Applies the request of a line and returns the answer.
pub fn answer_to<const LEN: usize>(
    index: &mut TreeIndexOf<u64, u64, LEN>,
    line: &BegunLine,
) -> Answer
    ensures says { (begun : List ℕ) → line.now ≡ clip begun →
        Says LEN index.old.pairs begun (answer_text index.new.pairs result) index.new.pairs }
    ensures measures { (request : Request) → line.now ≡ Some (spelling request) →
        MeasuresIndex index.old (Some request) (answer_text index.new.pairs result) }
{
    let Some(text) = line.text() else {
        return Answer::Unknown;
    };
    respond(index, request_of(text))
}

// Applies a request and returns the answer; `None` is a line that is not a request.
fn respond<const LEN: usize>(
    index: &mut TreeIndexOf<u64, u64, LEN>,
    request: Option<Request>,
) -> Answer
    ensures responds { Responds LEN index.old.pairs request (answer_text index.new.pairs result) index.new.pairs }
    ensures measures { MeasuresIndex index.old request (answer_text index.new.pairs result) }
{
    match request {
        None => Answer::Unknown,
        Some(Request::Insert(key, value)) => match index.insert_sync(key, value) {
            Ok(()) => Answer::Done,
            Err(InsertError::Duplicate(_, _)) => Answer::Duplicate,
            Err(InsertError::OutOfMemory(_, _)) => Answer::Refused,
        },
        Some(Request::Upsert(key, value)) => match index.upsert_sync(key, value) {
            Ok(()) => Answer::Done,
            Err(_) => Answer::Refused,
        },
        Some(Request::Remove(key)) => Answer::Truth(index.remove_sync(&key)),
        Some(Request::RemoveIf(key, value)) => Answer::Truth(remove_value(index, key, value)),
        Some(Request::RemoveRange(low, high)) => {
            index.remove_range_sync((low.as_ref(), high.as_ref()));
            Answer::Done
        }
        Some(Request::Clear) => {
            index.clear();
            Answer::Done
        }
        Some(Request::Contains(key)) => Answer::Truth(index.contains(&key)),
        Some(Request::Len) => Answer::Value(index.len() as u64),
        Some(Request::Depth) => Answer::Value(index.depth() as u64),
        Some(Request::Spare) => Answer::Value(u64::from(index.spare())),
        Some(Request::Iter) => Answer::Ascending(Bound::Unbounded, Bound::Unbounded),
        Some(Request::Back) => Answer::Descending,
        Some(Request::Range(low, high)) => Answer::Ascending(low, high),
        Some(Request::Locate(key)) => Answer::Near(key),
        Some(Request::Peek(key)) => match index.peek(&key) {
            Some(value) => Answer::Value(*value),
            None => Answer::Missing,
        },
    }
}

// Removes the pair at a key if it has this value, and returns whether it did.
fn remove_value<const LEN: usize>(
    index: &mut TreeIndexOf<u64, u64, LEN>,
    key: u64,
    value: u64,
) -> bool
    ensures { RemovesIf nat_cmp (SaysEqual value) index.old.pairs key result index.new.pairs }
{
    index.remove_if_sync(&key, |stored| *stored == value)
}

/// Writes an answer and a line feed. Pairs are written one by one out of the index that gave the
/// answer.
///
/// Returns `Err` if a write fails; part of the line may have been written. Walks only over the
/// pairs that it writes, and allocates nothing.
///
/// ```
/// let answer = answer_to(index, line);
/// write_answer(output, index, answer)
/// ```
pub fn write_answer<W: Write, const LEN: usize>(
    output: &mut W,
    index: &TreeIndexOf<u64, u64, LEN>,
    answer: Answer,
) -> Result<(), WriteFailed>
    ensures { Writes (with_feed (answer_text index.now.pairs answer))
        (W.contents output.old) (W.contents output.new) result }
{
    match answer {
        Answer::Done => write_whole(output, b"ok\n"),
        Answer::Duplicate => write_whole(output, b"duplicate\n"),
        Answer::Refused => write_whole(output, b"refused\n"),
        Answer::Missing => write_whole(output, b"none\n"),
        Answer::Truth(true) => write_whole(output, b"true\n"),
        Answer::Truth(false) => write_whole(output, b"false\n"),
        Answer::Unknown => write_whole(output, b"?\n"),
        Answer::Value(n) => {
            let mut text = ShortText::new();
            text.push_front(b'\n');
            text.push_number_front(n);
            write_whole(output, text.as_bytes())
        }
        Answer::Ascending(low, high) => write_ascending(output, index, low, high),
        Answer::Descending => write_descending(output, index),
        Answer::Near(key) => write_near(output, index, key),
    }
}
