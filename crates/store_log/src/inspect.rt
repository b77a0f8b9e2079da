//! What a file is by its bytes, before any of them is changed.
ghost use Rattle.std.specs.Prelude.{◌≡◌, ◌≢◌, ◌≤◌, ◌↔◌, ◌∷◌, ℕ, List, length, IfOk, IfErr, IfNone, IfSome, IsTrue, IsErrOf};
ghost use Rattle.store_frames.specs.Seal.{text_of};
ghost use Rattle.store_log.specs.Head.{HasKinds};
ghost use Rattle.store_log.specs.Log.{Finds, HasHead, HasTexts, IsBlank, IsHeadBatch, end_of};
ghost use Rattle.store_log.specs.Refusal.{IsRefusal};
ghost use Rattle.store_log.specs.declared.head.Head.{Head as HeadOf};

use crate::OpenError;
use crate::head::{Head, head_in};
use store_frames::{GATE, SEAL_LENGTH, first_frame, frame_behind, test_frames, unsealed};

// How many bytes a file has that has a head alone: its frame, and a closed gate.
const FRESH: usize = 56;

// Returns the head of a file, and where its frames end, once each seal was tested, and the kinds of
// keys and values, and the frames were found to go as far as the mark.
pub(crate) fn examine(
    bytes: &[u8],
    kinds: (u32, u32),
    mark: usize,
) -> Result<(Head, usize), OpenError>
    ensures found { IfOk result (λ found. Finds bytes.now found.0 found.1) }
    ensures within { IfOk result (λ found. found.1 ≤ length bytes.now) }
    ensures kinds { IfOk result (λ found. HasKinds found.0 kinds) }
    ensures reached { IfOk result (λ found. mark ≤ found.1) }
    ensures refused { IfErr result (λ _. (head : HeadOf) (texts : List (List ℕ)) → HasTexts head texts bytes.now → HasKinds head kinds → mark ≤ end_of bytes.now → ⊥) }
    ensures blank { IsErrOf result OpenError.Blank → IsBlank bytes.now }
    ensures other { IsErrOf result OpenError.NoHead → IsBlank bytes.now → ⊥ }
    ensures refusal { IfErr result IsRefusal }
{
    let Some((batch, _)) = first_frame(bytes) else {
        return Err(without_frame(bytes));
    };
    let Some(head) = head_in(text_in(batch)) else {
        return Err(OpenError::NoHead);
    };
    let end = match test_frames(head.key, bytes) {
        Ok(end) => end,
        Err(at) => return Err(OpenError::Damaged(at)),
    };
    if !has_kinds(&head, kinds) {
        return Err(OpenError::OtherKinds);
    }
    if end < mark {
        return Err(OpenError::Lost(end));
    }
    Ok((head, end))
}

// Returns whether the keys and the values are of these kinds.
fn has_kinds(head: &Head, kinds: (u32, u32)) -> bool
    ensures { IsTrue result ↔ HasKinds head.now kinds }
{
    head.kind_of_keys == kinds.0 && head.kind_of_values == kinds.1
}

// Returns why a file without a frame at its front can't be opened.
fn without_frame(bytes: &[u8]) -> OpenError
    ensures blank { result ≡ OpenError.Blank → IsBlank bytes.now }
    ensures other { result ≡ OpenError.NoHead → IsBlank bytes.now → ⊥ }
    ensures refusal { IsRefusal result }
{
    if is_blank(bytes) {
        OpenError::Blank
    } else {
        OpenError::NoHead
    }
}

/// Returns whether a crash may have left the file while its head was being made. Runs in constant
/// time.
pub fn is_blank(bytes: &[u8]) -> bool
    ensures { IsTrue result ↔ IsBlank bytes.now }
{
    let Some((gate, behind)) = bytes.split_first() else {
        return true;
    };
    if behind.is_empty() {
        return true;
    }
    if bytes.len() > FRESH {
        return false;
    }
    if *gate == GATE {
        return false;
    }
    if *gate == 0 {
        return true;
    }
    has_head(behind)
}

// Returns whether a head is behind the gate.
fn has_head(behind: &[u8]) -> bool
    ensures { IsTrue result ↔ HasHead (215 ∷ behind.now) }
{
    let Some((batch, _)) = frame_behind(behind) else {
        return false;
    };
    sealed_head(batch).is_some()
}

// Returns the head of a batch, if its seal fits.
pub(crate) fn sealed_head(batch: &[u8]) -> Option<Head>
    ensures found { IfSome result (λ head. IsHeadBatch batch.now head) }
    ensures none { IfNone result ((head : HeadOf) → IsHeadBatch batch.now head → ⊥) }
{
    let Some(head) = head_in(text_in(batch)) else {
        return None;
    };
    let Some(_) = unsealed(head.key, batch) else {
        return None;
    };
    Some(head)
}

/// Returns the text of a batch: all but its seal, whether that fits or not.
pub fn text_in(batch: &[u8]) -> &[u8]
    ensures { result.now ≡ text_of batch.now }
{
    let (text, _) = batch.split_at(batch.len().saturating_sub(SEAL_LENGTH));
    text
}
