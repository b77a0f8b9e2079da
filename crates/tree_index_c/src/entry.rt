//! Keys that are strings of bytes, as C gets them.
ghost use Rattle.std.specs.Prelude.{◌≤◌, length};
ghost use Rattle.tree_model.specs.Rest.{lent};
ghost use Rattle.tree_index_c.specs.Entries.{WritesBytes, WritesEntry};

use crate::status::{NO, NO_ROOM, YES};
use tree_texts::Bytes;

/// The length of a key, whose bytes lie elsewhere, and a value.
#[repr(C)]
#[derive(Clone, Copy)]
pub struct Entry {
    pub length: usize,
    pub value: u64,
}

/// Writes the bytes of a key to the first places, and its length and its value to an entry. Where
/// the places are too few it writes the entry alone.
pub fn write_entry(pair: Option<(&Bytes, &u64)>, places: &mut [u8], entry: &mut Entry) -> i32
    ensures { WritesEntry (lent pair.entry) result places.old places.new entry.old entry.new }
{
    let Some((key, value)) = pair else {
        return NO;
    };
    let bytes = key.as_slice();
    *entry = Entry {
        length: bytes.len(),
        value: *value,
    };
    if write_bytes(bytes, 0, places) {
        YES
    } else {
        NO_ROOM
    }
}

/// Writes bytes to the places from one on. Returns whether they have room there, and writes nothing
/// if they haven't.
pub fn write_bytes(bytes: &[u8], from: usize, places: &mut [u8]) -> bool
    requires { from ≤ length places.old }
    ensures { WritesBytes bytes.now from places.old result places.new }
{
    if bytes.len() > places.len() - from {
        return false;
    }
    places[from..from + bytes.len()].copy_from_slice(bytes);
    true
}
