//! Lists the pairs of a store, in key order.
ghost use Rattle.std.specs.Prelude.{◌≡◌, ◌++◌, IfOk, OnOk};
ghost use Rattle.std.specs.String.{string_bytes};
ghost use Rattle.serde_json.specs.Written.{compact_text};
ghost use Rattle.storetool.specs.Printing.{PassesOn, Prints, json_listing, json_piece, listing, pair_data, pair_line};

use crate::failure::Failure;
use crate::stat::write_out;
use serde_json::Value;
use std::alloc::Global;
use std::io::Write;
use tree_index::TreeIndex;
use tree_lines::{WriteFailed, write_number, write_whole};

// The length at which what is listed so far is written.
const LONG: usize = 1 << 16;

/// Writes the pairs, one a line, as a key, a space and a value.
///
/// Returns `Err` if a write fails or if it cannot allocate.
pub fn dump<W: Write>(
    alloc: Global,
    index: &TreeIndex<u64, u64>,
    output: &mut W,
) -> Result<(), Failure>
    ensures { Prints (listing index.now.pairs) (W.contents output.old) (W.contents output.new) result }
{
    let mut text = Vec::new(alloc);
    for (key, value) in index {
        dump_pair(&mut text, *key, *value, output)?;
    }
    write_out(output, &text)
}

// Lists a pair.
fn dump_pair<W: Write>(
    text: &mut Vec<u8>,
    key: u64,
    value: u64,
    output: &mut W,
) -> Result<(), Failure>
    ensures { PassesOn (text.old.items ++ pair_line (key, value)) text.new.items (W.contents output.old) (W.contents output.new) result }
{
    match push_pair(text, key, value) {
        Ok(()) => pass_on(text, output),
        Err(_) => Err(Failure::Memory),
    }
}

// Appends the line of a pair.
fn push_pair(text: &mut Vec<u8>, key: u64, value: u64) -> Result<(), WriteFailed>
    ensures { OnOk result (text.new.items ≡ text.old.items ++ pair_line (key, value)) }
{
    write_number(text, key)?;
    write_whole(text, b" ")?;
    write_number(text, value)?;
    write_whole(text, b"\n")
}

/// Writes the pairs as one JSON array, of an array of key and value for each.
///
/// Returns `Err` if a write fails or if it cannot allocate.
pub fn dump_json<W: Write>(
    alloc: Global,
    index: &TreeIndex<u64, u64>,
    output: &mut W,
) -> Result<(), Failure>
    ensures { Prints (json_listing index.now.pairs) (W.contents output.old) (W.contents output.new) result }
{
    let mut text = vec![in alloc; b'[']?;
    let mut is_first = true;
    for (key, value) in index {
        dump_json_pair(alloc, &mut text, is_first, *key, *value, output)?;
        is_first = false;
    }
    text.extend_from_slice(b"]\n")?;
    write_out(output, &text)
}

// Lists a pair as JSON, behind a comma unless it is the first.
fn dump_json_pair<W: Write>(
    alloc: Global,
    text: &mut Vec<u8>,
    is_first: bool,
    key: u64,
    value: u64,
    output: &mut W,
) -> Result<(), Failure>
    ensures { PassesOn (text.old.items ++ json_piece is_first (key, value)) text.new.items (W.contents output.old) (W.contents output.new) result }
{
    match push_json(alloc, text, is_first, key, value) {
        Ok(()) => pass_on(text, output),
        Err(failure) => Err(failure),
    }
}

// Appends a pair as JSON, behind a comma unless it is the first.
fn push_json(
    alloc: Global,
    text: &mut Vec<u8>,
    is_first: bool,
    key: u64,
    value: u64,
) -> Result<(), Failure>
    ensures { OnOk result (text.new.items ≡ text.old.items ++ json_piece is_first (key, value)) }
{
    let pair = pair_json(alloc, key, value)?;
    if is_first {
        text.extend_from_slice(pair.as_bytes())?;
        return Ok(());
    }
    text.push(b',')?;
    text.extend_from_slice(pair.as_bytes())?;
    Ok(())
}

// Returns a pair as JSON.
fn pair_json(alloc: Global, key: u64, value: u64) -> Result<String, Failure>
    ensures { IfOk result (λ text. string_bytes text ≡ compact_text (pair_data (key, value))) }
{
    let pair = Value::Array(vec![in alloc; Value::from(key), Value::from(value)]?);
    Ok(pair.to_string(alloc)?)
}

// Writes the text and empties it, if it is long.
fn pass_on<W: Write>(text: &mut Vec<u8>, output: &mut W) -> Result<(), Failure>
    ensures { PassesOn text.old.items text.new.items (W.contents output.old) (W.contents output.new) result }
{
    if text.len() < LONG {
        return Ok(());
    }
    write_out(output, text)?;
    text.clear();
    Ok(())
}
