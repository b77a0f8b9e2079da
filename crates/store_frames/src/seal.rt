//! A text with its digest behind it. The digest tells damage, and plays no part in crashes.
ghost use Rattle.std.specs.Prelude.{◌≡◌, ◌≢◌, IfSome, IfNone};
ghost use Rattle.std.specs.Int.{w64, to_le_bytes};
ghost use Rattle.sqlite_disk.specs.Digest.{digest};
ghost use Rattle.store_frames.specs.Seal.{sealed, text_of};

use sqlite_disk::digest_of;

/// How many bytes a seal has.
pub const SEAL_LENGTH: usize = 8;

/// Returns the seal of a text: its digest under the key, the lowest byte first.
///
/// The digest is SipHash-1-3 of the key and the text, and never 0. Passes over the text once.
pub fn seal_of(key: u64, text: &[u8]) -> [u8; 8]
    ensures { result ≡ to_le_bytes w64 (digest key text.now) }
{
    digest_of(key, text).to_le_bytes()
}

/// Returns the text of a batch whose last bytes are the seal of the others under the key. Returns
/// `None` for any other batch.
///
/// Passes over the batch once, and allocates nothing.
pub fn unsealed(key: u64, batch: &[u8]) -> Option<&[u8]>
    ensures fits { IfSome result (λ text. batch.now ≡ sealed key text.now) }
    ensures other { IfNone result (batch.now ≢ sealed key (text_of batch.now)) }
{
    let Some((text, seal)) = batch.split_last_chunk::<8>() else {
        return None;
    };
    if *seal == seal_of(key, text) {
        Some(text)
    } else {
        None
    }
}
