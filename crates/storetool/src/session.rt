//! A store that answers lines. An answer is written once what it says is committed.
ghost use Rattle.std.specs.Prelude.{◌≡◌, ◌⊎◌, ◌++◌, ◌+◌, ◌-◌, ◌*◌, ◌^◌, ◌≤◌, ℕ, List, [], IfOk, OnOk, OnErr, length, min};
ghost use Rattle.std.specs.Io.KnownBytes.{Appends};
ghost use Rattle.std.specs.Ordering.{nat_cmp};
ghost use Rattle.storetool.specs.Answers.{Responds, Says};
ghost use Rattle.storetool.specs.Durable.{BreaksOff, IsDurable, Stands};
ghost use Rattle.tree_lines.specs.Lines.{SaysEqual};
ghost use Rattle.tree_lines.specs.Progress.{answer_text};
ghost use Rattle.tree_lines.specs.Spelling.{Fits, clip, spelling, with_feed};
ghost use Rattle.tree_lines.specs.Words.{ReadsAs};
ghost use Rattle.tree_model.specs.Edits.{RemovesIf};
ghost use Rattle.store_pair.specs.Pair.{AreClean, Held, MayHold};

use crate::failure::Failure;
use crate::stat::write_out;
use sqlite_disk::Disk;
use std::alloc::{AllocError, Global};
use std::io::Write;
use std::ops::Bound;
use tree_index::InsertError;
use tree_lines::{Answer, BegunLine, Request, request_of, write_answer};
use tree_store::TreeStore;

// The length of answers that do not wait for more lines.
const LONG: usize = 1 << 20;

/// What lines led to since the last commit: the answers that wait for one.
#[derive(Drop)]
pub struct Group {
    answers: Vec<u8>,
}

impl Group {
    /// Creates a group without a line.
    pub fn new(alloc: Global) -> Self
        ensures { result.answers.items ≡ [] }
    {
        Group {
            answers: Vec::new(alloc),
        }
    }

    /// Returns whether the answers should wait no longer.
    pub fn is_long(&self) -> bool {
        self.answers.len() >= LONG
    }
}

/// Applies the request of a line to a store, and keeps the answer.
///
/// Returns `Err` if it cannot allocate. Nothing is committed in either case.
pub fn apply<D: Disk>(
    store: &mut TreeStore<u64, u64, D>,
    group: &mut Group,
    line: &BegunLine,
) -> Result<(), Failure>
    ensures saved { store.new.saved ≡ store.old.saved }
    ensures says { OnOk result ((answer : List ℕ) × (group.new.answers.items ≡ group.old.answers.items ++ with_feed answer)
        × ((begun : List ℕ) → line.now ≡ clip begun → Says store.old.pairs begun answer store.new.pairs)) }
{
    let request = request_in(line);
    let answer = respond(store, request);
    match write_answer(&mut group.answers, store.index(), answer) {
        Ok(()) => Ok(()),
        Err(_) => Err(Failure::Memory),
    }
}

// Returns the request of a line, or `None` if it is none.
fn request_in(line: &BegunLine) -> Option<Request>
    ensures { (begun : List ℕ) → line.now ≡ clip begun → ReadsAs Fits spelling begun result }
{
    match line.text() {
        Some(text) => request_of(text),
        None => None,
    }
}

/// Commits what was applied to a store, and then writes the answers.
///
/// Returns `Err`, and writes no answer, if the commit fails. Returns `Err` too if a write fails.
pub fn commit<D: Disk, W: Write>(
    store: &mut TreeStore<u64, u64, D>,
    group: &mut Group,
    output: &mut W,
) -> Result<(), Failure>
    ensures durable { OnOk result (IsDurable D.is_clean D.may_leave store.new.saved store.old.pairs) }
    ensures wrote { OnOk result (Appends (W.contents output.old) (W.contents output.new) group.old.answers.items) }
    ensures empty { OnOk result (group.new.answers.items ≡ []) }
    ensures pairs { store.new.pairs ≡ store.old.pairs }
    ensures broke_off { OnErr result ((durable : List (ℕ × ℕ)) → IsDurable D.is_clean D.may_leave store.old.saved durable →
        BreaksOff D.is_clean D.may_leave durable store.old.pairs store.new.saved.files group.old.answers.items (W.contents output.old) (W.contents output.new)) }
{
    commit_writes(store)?;
    write_out(output, &group.answers)?;
    group.answers.clear();
    Ok(())
}

/// Commits what was written.
///
/// Returns `Err` if the commit fails.
pub fn commit_writes<D: Disk>(store: &mut TreeStore<u64, u64, D>) -> Result<(), Failure>
    ensures durable { OnOk result (IsDurable D.is_clean D.may_leave store.new.saved store.old.pairs) }
    ensures pairs { store.new.pairs ≡ store.old.pairs }
    ensures crash { (durable : List (ℕ × ℕ)) → IsDurable D.is_clean D.may_leave store.old.saved durable →
        AreClean D.is_clean store.new.saved.files → (left : Held) → MayHold D.may_leave store.new.saved.files left →
        Stands left durable ⊎ Stands left store.old.pairs }
{
    match store.commit() {
        Ok(()) => Ok(()),
        Err(error) => Err(Failure::Commit(error)),
    }
}

// Applies a request and returns the answer. `None` is a line that is not a request.
fn respond<D: Disk>(store: &mut TreeStore<u64, u64, D>, request: Option<Request>) -> Answer
    ensures responds { Responds store.old.pairs request (answer_text store.new.pairs result) store.new.pairs }
    ensures saved { store.new.saved ≡ store.old.saved }
{
    match request {
        None => Answer::Unknown,
        Some(Request::Insert(key, value)) => match store.insert(key, value) {
            Ok(()) => Answer::Done,
            Err(InsertError::Duplicate(_, _)) => Answer::Duplicate,
            Err(InsertError::OutOfMemory(_, _)) => Answer::Refused,
        },
        Some(Request::Upsert(key, value)) => match store.upsert(key, value) {
            Ok(()) => Answer::Done,
            Err(_) => Answer::Refused,
        },
        Some(Request::Remove(key)) => match store.remove(&key) {
            Ok(removed) => Answer::Truth(removed),
            Err(_) => Answer::Refused,
        },
        Some(Request::RemoveIf(key, value)) => match remove_value(store, key, value) {
            Ok(removed) => Answer::Truth(removed),
            Err(_) => Answer::Refused,
        },
        Some(Request::RemoveRange(low, high)) => {
            match store.remove_range((low.as_ref(), high.as_ref())) {
                Ok(()) => Answer::Done,
                Err(_) => Answer::Refused,
            }
        }
        Some(Request::Clear) => match store.clear() {
            Ok(()) => Answer::Done,
            Err(_) => Answer::Refused,
        },
        Some(Request::Peek(key)) => match store.index().peek(&key) {
            Some(value) => Answer::Value(*value),
            None => Answer::Missing,
        },
        Some(Request::Contains(key)) => Answer::Truth(store.index().contains(&key)),
        Some(Request::Len) => Answer::Value(pairs_in(store)),
        Some(Request::Depth) => Answer::Value(depth_of(store)),
        Some(Request::Spare) => Answer::Value(u64::from(store.index().spare())),
        Some(Request::Iter) => Answer::Ascending(Bound::Unbounded, Bound::Unbounded),
        Some(Request::Back) => Answer::Descending,
        Some(Request::Range(low, high)) => Answer::Ascending(low, high),
        Some(Request::Locate(key)) => Answer::Near(key),
    }
}

// Returns how many pairs a store has.
fn pairs_in<D: Disk>(store: &TreeStore<u64, u64, D>) -> u64
    ensures { result ≡ min (length store.now.pairs) (2 ^ 64 - 1) }
{
    store.index().len() as u64
}

// Returns how many levels of nodes its index has.
fn depth_of<D: Disk>(store: &TreeStore<u64, u64, D>) -> u64
    ensures { length store.now.pairs ≤ 15 * (15 + 1) ^ result }
{
    store.index().depth() as u64
}

// Removes the pair at a key if it has this value, and returns whether it did.
fn remove_value<D: Disk>(
    store: &mut TreeStore<u64, u64, D>,
    key: u64,
    value: u64,
) -> Result<bool, AllocError>
    ensures removes { IfOk result (λ removed. RemovesIf nat_cmp (SaysEqual value) store.old.pairs key removed store.new.pairs) }
    ensures refused { OnErr result (store.new.pairs ≡ store.old.pairs) }
    ensures saved { store.new.saved ≡ store.old.saved }
{
    let has_value = match store.index().peek(&key) {
        Some(stored) => *stored == value,
        None => false,
    };
    if !has_value {
        return Ok(false);
    }
    store.remove(&key)
}
