//! Where the byte strings end that begin with a prefix.
ghost use Rattle.std.specs.Prelude.{◌≡◌, ◌-◌, ◌<◌, ◌≤◌, ℕ, length, slice_index, IfOk};
ghost use Rattle.std.specs.Range.Bound.{bound_map};
ghost use Rattle.tree_texts.specs.Prefix.{end_of};

use std::alloc::{AllocError, Global};
use std::ops::Bound;

/// Returns the upper bound of the byte strings that begin with a prefix: the least one that is
/// larger than all of them, excluded. There is no bound if each byte of the prefix is 255, or if
/// the prefix is empty.
///
/// Returns `Err` if it cannot allocate the bound.
pub fn end_of_prefix(alloc: Global, prefix: &[u8]) -> Result<Bound<Vec<u8>>, AllocError>
    ensures { IfOk result (λ high. bound_map (λ bytes. bytes.items) high ≡ end_of prefix.now) }
{
    let kept = up_to_last_below_255(prefix);
    if kept == 0 {
        return Ok(Bound::Unbounded);
    }
    let mut end = Vec::from_slice(alloc, &prefix[..kept - 1])?;
    end.push(prefix[kept - 1] + 1)?;
    Ok(Bound::Excluded(end))
}

// Returns how many bytes there are up to the last one below 255, with that one.
fn up_to_last_below_255(bytes: &[u8]) -> usize
    ensures within { result ≤ length bytes.now }
    ensures last { 0 < result → slice_index bytes.now (result - 1) < 255 }
    ensures after { (i : ℕ) → result ≤ i → i < length bytes.now → slice_index bytes.now i ≡ 255 }
{
    let mut kept = 0;
    for (i, byte) in bytes.iter().enumerate() {
        if *byte < 255 {
            kept = i + 1;
        }
    }
    kept
}
