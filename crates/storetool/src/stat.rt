//! Tells how large a store is.
ghost use Rattle.std.specs.Prelude.{◌≡◌, ◌++◌, ◌-◌, ◌^◌, ℕ, OnOk, length, min};
ghost use Rattle.storetool.specs.Printing.{Prints, figure, figures};

use crate::failure::Failure;
use sqlite_disk::Disk;
use std::alloc::Global;
use std::io::Write;
use tree_lines::{WriteFailed, write_number, write_whole};
use tree_store::TreeStore;

// How many bytes the record of a pair takes.
const PAIR: usize = 17;

/// Writes how many pairs a store has, how many bytes of its file are in use and how many of these
/// are not records of these pairs, how many levels of nodes its index has, and which generation of
/// the store the file has, each with its name on a line.
///
/// Returns `Err` if a write fails or if it cannot allocate.
pub fn stat<D: Disk, W: Write>(
    alloc: Global,
    store: &TreeStore<u64, u64, D>,
    output: &mut W,
) -> Result<(), Failure>
    ensures { (bytes waste depth : ℕ) ×
        Prints (figures (min (length store.now.pairs) (2 ^ 64 - 1)) bytes waste depth store.now.saved.head.generation)
        (W.contents output.old) (W.contents output.new) result }
{
    let mut text = Vec::new(alloc);
    match push_figures(&mut text, store) {
        Ok(()) => write_out(output, &text),
        Err(_) => Err(Failure::Memory),
    }
}

// Appends the lines of a store.
fn push_figures<D: Disk>(
    text: &mut Vec<u8>,
    store: &TreeStore<u64, u64, D>,
) -> Result<(), WriteFailed>
    ensures { OnOk result ((bytes waste depth : ℕ) × (text.new.items ≡ text.old.items ++
        figures (min (length store.now.pairs) (2 ^ 64 - 1)) bytes waste depth store.now.saved.head.generation)) }
{
    let (pairs, bytes) = (store.index().len(), store.size());
    let waste = bytes.saturating_sub(pairs.saturating_mul(PAIR));
    push_figure(text, "pairs", pairs as u64)?;
    push_figure(text, "bytes", bytes as u64)?;
    push_figure(text, "waste", waste as u64)?;
    push_figure(text, "depth", store.index().depth() as u64)?;
    push_figure(text, "generation", store.head().generation)
}

/// Writes a text and flushes it.
///
/// Returns `Err` if either fails.
pub fn write_out<W: Write>(output: &mut W, text: &[u8]) -> Result<(), Failure>
    ensures { Prints text.now (W.contents output.old) (W.contents output.new) result }
{
    let Ok(()) = write_whole(output, text) else {
        return Err(Failure::Output);
    };
    let Ok(()) = output.flush() else {
        return Err(Failure::Output);
    };
    Ok(())
}

/// Appends the line of a number.
///
/// Returns `Err` if it cannot allocate.
pub fn push_figure(text: &mut Vec<u8>, name: &str, number: u64) -> Result<(), WriteFailed>
    ensures { OnOk result (text.new.items ≡ text.old.items ++ figure name.now number) }
{
    write_whole(text, name.as_bytes())?;
    write_whole(text, b" ")?;
    write_number(text, number)?;
    write_whole(text, b"\n")
}
