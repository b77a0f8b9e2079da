//! Stores pairs, one a line, in the form in which `dump` lists them.
ghost use Rattle.std.specs.Prelude.{◌≡◌, ◌++◌, ◌∷◌, ℕ, List, [], None, IfSome, OnErr, OnOk};
ghost use Rattle.std.specs.Ordering.{nat_cmp};
ghost use Rattle.storetool.specs.Durable.{IsDurable};
ghost use Rattle.storetool.specs.Loads.{IsPairLine, Loads};
ghost use Rattle.storetool.specs.Session.{Ends, Serves, Steps, Takes};
ghost use Rattle.tree_lines.specs.Spelling.{clip};
ghost use Rattle.tree_model.specs.Pairs.{put};

use crate::failure::Failure;
use crate::session::commit_writes;
use sqlite_disk::Disk;
use std::alloc::Global;
use std::io::Read;
use tree_lines::{BegunLine, number_of};
use tree_store::TreeStore;

// How many bytes one read takes at most. What it takes is one commit.
const PIECE: usize = 1 << 20;

/// Stores the pairs of an input, in any order, in a store whose pairs are committed. A pair whose
/// key is present replaces the one there. What one read takes is committed together.
///
/// Returns `Err` with its number if a line isn't a key, a space and a value. Those before it are
/// committed. Returns `Err` too if a read or a commit fails, or if it cannot allocate.
pub fn load<D: Disk, R: Read>(
    alloc: Global,
    store: &mut TreeStore<u64, u64, D>,
    input: &mut R,
) -> Result<(), Failure>
    requires { IsDurable D.is_clean D.may_leave store.old.saved store.old.pairs }

    // After `Ok` all pairs are stored. After `Err` a crash leaves those of some first lines.
    ensures { Serves Loads D.is_clean D.may_leave store.old store.new (R.remaining input.old) (R.remaining input.new) None None result }
{
    let mut line = BegunLine::new();
    let mut number = 1;
    let mut piece = vec![in alloc; 0u8; PIECE]?;
    for _ in 0..u64::MAX {
        let Ok(count) = input.read(&mut piece) else {
            return Err(Failure::Input);
        };
        if count == 0 {
            return end(store, &line, number);
        }
        let (bytes, _) = piece.split_at(count);
        load_piece(store, &mut line, &mut number, bytes)?;
    }
    Err(Failure::Input)
}

// Stores the pair of the last line, which no line feed ended, unless it is empty. Then commits.
fn end<D: Disk>(
    store: &mut TreeStore<u64, u64, D>,
    line: &BegunLine,
    number: u64,
) -> Result<(), Failure>
    ensures { Ends Loads D.is_clean D.may_leave [] line.now store.old store.new None None result }
{
    if line.is_empty() {
        return commit_writes(store);
    }
    store_pair(store, line, number)?;
    commit_writes(store)
}

// Takes bytes of the input, and commits the pairs of the lines that end within them.
fn load_piece<D: Disk>(
    store: &mut TreeStore<u64, u64, D>,
    line: &mut BegunLine,
    number: &mut u64,
    bytes: &[u8],
) -> Result<(), Failure>
    ensures { Steps Loads D.is_clean D.may_leave bytes.now [] line.old store.old [] line.new store.new None None result }
{
    let taken = take_lines(store, line, number, bytes);
    commit_writes(store)?;
    taken
}

// Takes the bytes one after another, up to a line that isn't a pair. The begun line has this
// number.
fn take_lines<D: Disk>(
    store: &mut TreeStore<u64, u64, D>,
    line: &mut BegunLine,
    number: &mut u64,
    bytes: &[u8],
) -> Result<(), Failure>
    ensures { Takes Loads D.is_clean D.may_leave bytes.now [] line.old store.old [] line.new store.new None None result }
{
    for byte in bytes {
        take(store, line, number, *byte)?;
    }
    Ok(())
}

// Takes a byte. A line feed ends the line, whose pair is then stored.
fn take<D: Disk>(
    store: &mut TreeStore<u64, u64, D>,
    line: &mut BegunLine,
    number: &mut u64,
    byte: u8,
) -> Result<(), Failure>
    ensures taken { OnOk result (Steps Loads D.is_clean D.may_leave (byte ∷ []) [] line.old store.old [] line.new store.new None None result) }
    ensures refused { OnErr result ((line.new ≡ line.old) × (store.new ≡ store.old)) }
{
    if byte != b'\n' {
        line.push(byte);
        return Ok(());
    }
    store_pair(store, line, *number)?;
    line.clear();
    *number = number.saturating_add(1);
    Ok(())
}

// Stores the pair of the line with this number.
fn store_pair<D: Disk>(
    store: &mut TreeStore<u64, u64, D>,
    line: &BegunLine,
    number: u64,
) -> Result<(), Failure>
    ensures stored { OnOk result ((pair : ℕ × ℕ) × ((begun : List ℕ) → line.now ≡ clip begun → IsPairLine begun pair)
        × (store.new.pairs ≡ put nat_cmp store.old.pairs pair.0 pair.1)) }
    ensures refused { OnErr result (store.new.pairs ≡ store.old.pairs) }
    ensures saved { store.new.saved ≡ store.old.saved }
{
    let Some((key, value)) = pair_in(line) else {
        return Err(Failure::BadLine(number));
    };
    match store.upsert(key, value) {
        Ok(()) => Ok(()),
        Err(_) => Err(Failure::Memory),
    }
}

// Returns the pair that a line spells.
fn pair_in(line: &BegunLine) -> Option<(u64, u64)>
    ensures { IfSome result (λ pair. (begun : List ℕ) → line.now ≡ clip begun → IsPairLine begun pair) }
{
    match line.text() {
        Some(text) => pair_of(text),
        None => None,
    }
}

// Returns the pair that a text spells.
fn pair_of(text: &[u8]) -> Option<(u64, u64)>
    ensures { IfSome result (λ pair. IsPairLine text.now pair) }
{
    let (key, value) = halves(text)?;
    Some((number_of(key)?, number_of(value)?))
}

// Returns what is before the first space, and what is behind it.
fn halves(text: &[u8]) -> Option<(&[u8], &[u8])>
    ensures { IfSome result (λ it. text.now ≡ it.0.now ++ 32 ∷ it.1.now) }
{
    let space = text.iter().position(|byte| *byte == b' ')?;
    let (key, behind) = text.split_at(space.min(text.len()));
    match behind {
        [b' ', value @ ..] => Some((key, value)),
        _ => None,
    }
}
