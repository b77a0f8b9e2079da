//! How far the frames of a file go.
ghost use Rattle.std.specs.Prelude.{◌≡◌, ◌≤◌, length, IfOk, IfErr};
ghost use Rattle.store_frames.specs.Frame.{Scanned, batches_of};
ghost use Rattle.store_frames.specs.Seal.{AreSealed};

use crate::frame::first_frame;
use crate::seal::unsealed;

/// Tests the seal of each batch of a file, and returns where its frames end.
///
/// Returns `Err` if the seal of a batch doesn't fit, with the place at which the first such frame
/// begins.
///
/// Passes over the frames twice, and allocates nothing.
pub fn test_frames(key: u64, bytes: &[u8]) -> Result<usize, usize>
    ensures frames { IfOk result (λ end. Scanned bytes.now end) }
    ensures sealed { IfOk result (λ _. AreSealed key (batches_of bytes.now)) }
    ensures within { IfOk result (λ end. end ≤ length bytes.now) }
    ensures damaged { IfErr result (λ at. (AreSealed key (batches_of bytes.now) → ⊥) × (at ≤ length bytes.now)) }
{
    let mut rest = bytes;
    while let Some((batch, behind)) = first_frame(rest) {
        let Some(_) = unsealed(key, batch) else {
            return Err(bytes.len() - rest.len());
        };
        rest = behind;
    }
    Ok(bytes.len() - rest.len())
}
