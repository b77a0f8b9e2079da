//! Reads lines, and answers all that are there at once.
ghost use Rattle.std.specs.Prelude.{◌∷◌, [], ℕ, List, Option};
ghost use Rattle.storetool.specs.Answers.{Script};
ghost use Rattle.storetool.specs.Durable.{IsDurable};
ghost use Rattle.storetool.specs.Session.{Ends, Serves, Steps};

use crate::failure::Failure;
use crate::session::{Group, apply, commit};
use crate::task::Policy;
use sqlite_disk::Disk;
use std::alloc::Global;
use std::io::{Read, Write};
use tree_lines::BegunLine;
use tree_store::TreeStore;

// How many bytes one read takes at most: as many as a pipe holds.
const PIECE: usize = 1 << 16;

/// Answers the lines of an input over a store whose pairs are committed. What one read takes is
/// committed together and then answered, or each line by itself. Bytes behind the last line feed
/// are a line too.
///
/// Returns `Err` if a read, a commit or a write fails, or if it cannot allocate. What was answered
/// is committed, and nothing more is answered.
pub fn serve<D: Disk, R: Read, W: Write>(
    alloc: Global,
    store: &mut TreeStore<u64, u64, D>,
    policy: Policy,
    input: &mut R,
    output: &mut W,
) -> Result<(), Failure>
    requires { IsDurable D.is_clean D.may_leave store.old.saved store.old.pairs }

    // After `Ok` all lines are answered. After `Err` a crash leaves what was answered.
    ensures { Serves Script D.is_clean D.may_leave store.old store.new (R.remaining input.old) (R.remaining input.new)
        (W.contents output.old) (W.contents output.new) result }
{
    let mut group = Group::new(alloc);
    let mut line = BegunLine::new();
    let mut piece = vec![in alloc; 0u8; PIECE]?;
    for _ in 0..u64::MAX {
        let Ok(count) = input.read(&mut piece) else {
            return Err(Failure::Input);
        };
        if count == 0 {
            return end(store, &mut group, &line, output);
        }
        let (bytes, _) = piece.split_at(count);
        feed_and_commit(store, &mut group, &mut line, policy, bytes, output)?;
    }
    Err(Failure::Input)
}

// Applies the last line, which no line feed ended, unless it is empty. Then commits.
fn end<D: Disk, W: Write>(
    store: &mut TreeStore<u64, u64, D>,
    group: &mut Group,
    line: &BegunLine,
    output: &mut W,
) -> Result<(), Failure>
    ensures { Ends Script D.is_clean D.may_leave group.old.answers.items line.now store.old store.new
        (W.contents output.old) (W.contents output.new) result }
{
    if line.is_empty() {
        return commit(store, group, output);
    }
    apply(store, group, line)?;
    commit(store, group, output)
}

// Takes bytes of the input, and commits what their lines did.
fn feed_and_commit<D: Disk, W: Write>(
    store: &mut TreeStore<u64, u64, D>,
    group: &mut Group,
    line: &mut BegunLine,
    policy: Policy,
    bytes: &[u8],
    output: &mut W,
) -> Result<(), Failure>
    ensures { Steps Script D.is_clean D.may_leave bytes.now group.old.answers.items line.old store.old
        group.new.answers.items line.new store.new (W.contents output.old) (W.contents output.new) result }
{
    feed_all(store, group, line, policy, bytes, output)?;
    commit(store, group, output)
}

// Takes the bytes one after another.
fn feed_all<D: Disk, W: Write>(
    store: &mut TreeStore<u64, u64, D>,
    group: &mut Group,
    line: &mut BegunLine,
    policy: Policy,
    bytes: &[u8],
    output: &mut W,
) -> Result<(), Failure>
    ensures { Steps Script D.is_clean D.may_leave bytes.now group.old.answers.items line.old store.old
        group.new.answers.items line.new store.new (W.contents output.old) (W.contents output.new) result }
{
    for byte in bytes {
        feed(store, group, line, policy, *byte, output)?;
    }
    Ok(())
}

// Takes a byte. A line feed ends the line, which is then applied.
fn feed<D: Disk, W: Write>(
    store: &mut TreeStore<u64, u64, D>,
    group: &mut Group,
    line: &mut BegunLine,
    policy: Policy,
    byte: u8,
    output: &mut W,
) -> Result<(), Failure>
    ensures { Steps Script D.is_clean D.may_leave (byte ∷ []) group.old.answers.items line.old store.old
        group.new.answers.items line.new store.new (W.contents output.old) (W.contents output.new) result }
{
    if byte != b'\n' {
        line.push(byte);
        return Ok(());
    }
    apply(store, group, line)?;
    line.clear();
    commit_if_due(store, group, policy, output)
}

// Commits if each line is committed alone, or if the answers should wait no longer.
fn commit_if_due<D: Disk, W: Write>(
    store: &mut TreeStore<u64, u64, D>,
    group: &mut Group,
    policy: Policy,
    output: &mut W,
) -> Result<(), Failure>
    ensures { (line : Option (List ℕ)) → Steps Script D.is_clean D.may_leave [] group.old.answers.items line store.old
        group.new.answers.items line store.new (W.contents output.old) (W.contents output.new) result }
{
    let is_due = policy == Policy::Each || group.is_long();
    if is_due {
        return commit(store, group, output);
    }
    Ok(())
}
