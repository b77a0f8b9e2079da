//! Counts of bytes that are zero.
ghost use Rattle.std.specs.Prelude.{◌≡◌, ◌≤◌, ◌++◌, length, drop, replicate};
ghost use Rattle.store_frames.specs.Frame.{zeros};

/// Returns how many bytes are zero. Passes over them once.
pub fn zeros_of(bytes: &[u8]) -> usize
    ensures count { result ≡ zeros bytes.now }
    ensures few { result ≤ length bytes.now }
{
    let mut zeros = 0;
    for byte in bytes {
        if *byte == 0 {
            zeros += 1;
        }
    }
    zeros
}

/// Returns how many bytes at the front are zero. Reads as far as these go, and one byte more.
pub fn leading_zeros(bytes: &[u8]) -> usize
    ensures within { result ≤ length bytes.now }
    ensures zeros { bytes.now ≡ replicate result 0 ++ drop result bytes.now }
{
    let mut count = 0;
    for byte in bytes {
        if *byte != 0 {
            return count;
        }
        count += 1;
    }
    count
}
