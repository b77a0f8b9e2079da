//! A batch as bytes: an open gate, two marked numbers and the batch. The numbers are the length of
//! the batch and how many of its bytes are zero.
ghost use Rattle.std.specs.Prelude.{◌≡◌, ◌<◌, ◌+◌, ◌^◌, ◌++◌, ◌∷◌, [], length, IfOk, option_map};
ghost use Rattle.store_frames.specs.Frame.{frame, first_frame};

use crate::digits::{are_marked, marked, unmarked};
use crate::zeros::zeros_of;
use std::alloc::{AllocError, Global};

/// The first byte of a frame that counts. Any other byte there ends the frames of a file.
pub const GATE: u8 = 215;

// How many bytes the two numbers of a frame take.
const NUMBERS: usize = 10;

/// How many bytes of a frame come before its batch.
pub const HEADER: usize = 1 + NUMBERS;

/// The length of the longest batch that a header can describe.
pub const LONGEST: usize = (1 << 35) - 1;

/// Returns the frame of a batch, and a closed gate behind it. The batch is in two parts, a text and
/// its seal, which together must not be longer than [`LONGEST`].
///
/// Returns `Err` if it cannot allocate. Makes one allocation, and passes over the bytes twice.
pub fn frame_of(alloc: Global, text: &[u8], seal: &[u8]) -> Result<Vec<u8>, AllocError>
    requires { length text.now + length seal.now < 2 ^ 35 }
    ensures { IfOk result (λ bytes. bytes.items ≡ frame (text.now ++ seal.now) ++ 0 ∷ []) }
{
    let count = text.len() + seal.len();
    let length = marked(count);
    let zeros = marked(zeros_of(text) + zeros_of(seal));
    let mut bytes = Vec::with_capacity(alloc, HEADER + count + 1)?;
    bytes.push(GATE)?;
    bytes.extend_from_slice(&length)?;
    bytes.extend_from_slice(&zeros)?;
    bytes.extend_from_slice(text)?;
    bytes.extend_from_slice(seal)?;
    bytes.push(0)?;
    Ok(bytes)
}

/// Returns the batch of the frame at the front, and what is behind it. Returns `None` if no frame
/// is there.
///
/// Passes once over the batch, and allocates nothing.
pub fn first_frame(bytes: &[u8]) -> Option<(&[u8], &[u8])>
    ensures { option_map (λ found. (found.0.now, found.1.now)) result ≡ first_frame bytes.now }
{
    let Some((gate, behind)) = bytes.split_first() else {
        return None;
    };
    if *gate != GATE {
        return None;
    }
    frame_behind(behind)
}

/// Returns the same of the bytes behind a gate, as if that were open.
pub fn frame_behind(bytes: &[u8]) -> Option<(&[u8], &[u8])>
    ensures { option_map (λ found. (found.0.now, found.1.now)) result ≡ first_frame (215 ∷ bytes.now) }
{
    if bytes.len() < NUMBERS {
        return None;
    }
    let (numbers, rest) = bytes.split_at(NUMBERS);
    if !are_marked(numbers) {
        return None;
    }
    let length = unmarked(&numbers[..5]);
    let zeros = unmarked(&numbers[5..]);
    if rest.len() < length {
        return None;
    }
    let (batch, behind) = rest.split_at(length);
    if zeros_of(batch) != zeros {
        return None;
    }
    Some((batch, behind))
}
