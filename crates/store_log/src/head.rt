//! The head of a file: what its first frame says.
ghost use Rattle.std.specs.Prelude.{◌≡◌, ◌+◌, ◌≤◌, ◌++◌, ◌∷◌, [], length, IfOk, OnOk, Some};
ghost use Rattle.store_frames.specs.Frame.{frame};
ghost use Rattle.store_frames.specs.Seal.{sealed};
ghost use Rattle.store_log.specs.Head.{head_at, head_text, four_at, eight_at};

use std::alloc::{AllocError, Global};
use store_frames::{frame_of, seal_of};

// The length of the text of a head.
const LENGTH: usize = 36;

// `TreeStore`, 0, and version 1 as two bytes.
const MAGIC: [u8; 12] = [84, 114, 101, 101, 83, 116, 111, 114, 101, 0, 1, 0];

/// What the first frame of a file says of the file.
#[derive(Clone, Copy, Debug, PartialEq, Eq)]
pub struct Head {
    /// Which type the keys have: a number that the caller chooses.
    pub kind_of_keys: u32,
    /// Which type the values have: a number that the caller chooses.
    pub kind_of_values: u32,
    /// Of two files, the one with the larger generation counts.
    pub generation: u64,
    /// The key under which the texts of the file are sealed.
    pub key: u64,
}

// Returns the head that a text spells.
pub(crate) fn head_in(text: &[u8]) -> Option<Head>
    ensures { result ≡ head_at text.now }
{
    if text.len() != LENGTH {
        return None;
    }
    if !text.starts_with(&MAGIC) {
        return None;
    }
    Some(Head {
        kind_of_keys: u32::from_le_bytes(four_at(text, 12)),
        kind_of_values: u32::from_le_bytes(four_at(text, 16)),
        generation: u64::from_le_bytes(eight_at(text, 20)),
        key: u64::from_le_bytes(eight_at(text, 28)),
    })
}

// Returns the frame of a head, under its seal, and a closed gate behind it.
pub(crate) fn head_frame(alloc: Global, head: &Head) -> Result<Vec<u8>, AllocError>
    ensures frame { IfOk result (λ bytes. bytes.items ≡ frame (sealed head.now.key (head_text head.now)) ++ 0 ∷ []) }
    ensures spells { OnOk result (head_at (head_text head.now) ≡ Some head.now) }
{
    let mut text = Vec::with_capacity(alloc, LENGTH)?;
    text.extend_from_slice(&MAGIC)?;
    text.extend_from_slice(&head.kind_of_keys.to_le_bytes())?;
    text.extend_from_slice(&head.kind_of_values.to_le_bytes())?;
    text.extend_from_slice(&head.generation.to_le_bytes())?;
    text.extend_from_slice(&head.key.to_le_bytes())?;
    let seal = seal_of(head.key, &text);
    frame_of(alloc, &text, &seal)
}

// Returns four bytes from a place on.
fn four_at(text: &[u8], at: usize) -> [u8; 4]
    requires { at + 4 ≤ length text.now }
    ensures { result ≡ four_at text.now at }
{
    [text[at], text[at + 1], text[at + 2], text[at + 3]]
}

// Returns eight bytes from a place on.
fn eight_at(text: &[u8], at: usize) -> [u8; 8]
    requires { at + 8 ≤ length text.now }
    ensures { result ≡ eight_at text.now at }
{
    [
        text[at],
        text[at + 1],
        text[at + 2],
        text[at + 3],
        text[at + 4],
        text[at + 5],
        text[at + 6],
        text[at + 7],
    ]
}
