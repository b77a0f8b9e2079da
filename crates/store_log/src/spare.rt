//! The other file of a log that has two: a compaction writes over it.
ghost use Rattle.std.specs.Prelude.{◌≡◌, ◌↔◌, ◌∷◌, ◌++◌, ℕ, List, [], length, drop, IfOk, IfSome, IfNone, OnOk, IfErr, IsTrue, Some, ◌+◌, ◌<◌, ◌^◌};
ghost use Rattle.sqlite_disk.specs.Disk.{Only};
ghost use Rattle.store_frames.specs.Frame.{frame};
ghost use Rattle.store_frames.specs.Seal.{sealed};
ghost use Rattle.store_log.specs.Cause.{IsIo};
ghost use Rattle.store_log.specs.Head.{head_at, head_text};
ghost use Rattle.store_log.specs.Spare.{AreOlder, IsGateOf, IsHeaded, IsShutOff, IsSpare};
ghost use Rattle.store_log.specs.declared.head.Head.{Head as HeadOf};

use crate::LogError;
use crate::frame_file::LONGEST_TEXT;
use crate::head::{Head, head_frame};
use crate::inspect::sealed_head;
use crate::synced::write_synced;
use sqlite_disk::Disk;
use std::alloc::Global;
use store_frames::{GATE, HEADER, first_frame, frame_of, seal_of};

// How many bytes the frame of a head has.
const HEAD_FRAME: usize = 55;

/// Returns the head at the front of a file, or `None` if no head under its seal is there. Passes
/// over the first frame twice.
pub fn head_of(bytes: &[u8]) -> Option<Head>
    ensures found { IfSome result (λ head. IsHeaded bytes.now head) }
    ensures none { IfNone result ((head : HeadOf) → IsHeaded bytes.now head → ⊥) }
{
    let Some((batch, _)) = first_frame(bytes) else {
        return None;
    };
    sealed_head(batch)
}

/// Returns whether a file may be written over: it has at most two bytes, or its first byte is zero,
/// or a head is at its front, whatever is left of the header of its frame. So a crash never leaves
/// a file that is refused here, and a file of something else is. Runs in constant time.
pub fn is_spare(bytes: &[u8]) -> bool
    ensures { IsTrue result ↔ IsSpare bytes.now }
{
    if bytes.len() <= 2 {
        return true;
    }
    if bytes[0] == 0 {
        return true;
    }
    if bytes.len() < HEAD_FRAME {
        return false;
    }
    let (_, behind) = bytes.split_at(HEADER);
    let (batch, _) = behind.split_at(HEAD_FRAME - HEADER);
    sealed_head(batch).is_some()
}

/// Closes the gate at the front of a file that doesn't count, and cuts the file off behind it. A
/// file that is older than some generation stays so, whatever a crash leaves.
///
/// Returns `Err` if the disk fails. Writes at most two bytes, each by itself, and syncs at most
/// three times. Allocates nothing.
pub fn retire<D: Disk>(disk: &mut D) -> Result<(), LogError>
    requires { IsTrue (D.is_usable disk.old) }
    ensures older { (generation : ℕ) → IsTrue (D.is_clean disk.new) → AreOlder generation (D.may_leave disk.old) → AreOlder generation (D.may_leave disk.new) }
    ensures clean { IsTrue (D.is_clean disk.new) → IsTrue (D.is_clean disk.old) }
{
    shut_off(disk)?;
    disk.set_len(1)?;
    Ok(())
}

// Closes the gate at the front. A gate that is neither open nor closed may hide a whole head, which
// is spoiled first: a torn write of the gate may open it.
pub(crate) fn shut_off<D: Disk>(disk: &mut D) -> Result<(), LogError>
    requires { IsTrue (D.is_usable disk.old) }
    ensures shut { OnOk result (IsTrue (D.is_clean disk.new) → IsShutOff (D.seen disk.new)) }
    ensures durable { OnOk result (Only (D.seen disk.new) (D.may_leave disk.new)) }
    ensures usable { OnOk result (IsTrue (D.is_usable disk.new)) }
    ensures cause { IfErr result IsIo }
    ensures older { (generation : ℕ) → IsTrue (D.is_clean disk.new) → AreOlder generation (D.may_leave disk.old) → AreOlder generation (D.may_leave disk.new) }
    ensures clean { IsTrue (D.is_clean disk.new) → IsTrue (D.is_clean disk.old) }
{
    disk.sync()?;
    let gate = gate_of(disk)?;
    if gate == 0 {
        return Ok(());
    }
    if gate != GATE {
        write_synced(disk, 1, &[0])?;
    }
    write_synced(disk, 0, &[0])
}

// Returns the first byte of a file, or the byte of an open gate if the file is empty.
fn gate_of<D: Disk>(disk: &mut D) -> Result<u8, LogError>
    requires { IsTrue (D.is_usable disk.old) }
    ensures cause { IfErr result IsIo }
    ensures gate { IfOk result (λ gate. IsTrue (D.is_clean disk.new) → IsGateOf (D.seen disk.old) gate) }
    ensures seen { D.seen disk.new ≡ D.seen disk.old }
    ensures crash { (c : List ℕ) → D.may_leave disk.new c → D.may_leave disk.old c }
    ensures usable { IsTrue (D.is_usable disk.new) }
    ensures clean { IsTrue (D.is_clean disk.new) → IsTrue (D.is_clean disk.old) }
{
    let len = disk.len()?;
    if len == 0 {
        return Ok(GATE);
    }
    let mut first = [0u8];
    disk.read_at(0, &mut first)?;
    Ok(first[0])
}

// Writes the frame of a head, and the frame of a text with a closed gate behind it, but for the
// gate of the first. The gate at the front is closed all the while.
pub(crate) fn stage<D: Disk>(disk: &mut D, head: &[u8], text: &[u8]) -> Result<(), LogError>
    requires usable { IsTrue (D.is_usable disk.old) }
    requires head { length head.now ≡ 55 }
    requires text { 0 < length text.now }
    ensures staged { OnOk result (IsTrue (D.is_clean disk.new) → (junk : List ℕ) × (D.seen disk.new ≡ 0 ∷ drop 1 head.now ++ (text.now ++ junk))) }
    ensures durable { OnOk result (Only (D.seen disk.new) (D.may_leave disk.new)) }
    ensures usable { OnOk result (IsTrue (D.is_usable disk.new)) }
    ensures cause { IfErr result IsIo }
    ensures older { (generation : ℕ) → IsTrue (D.is_clean disk.new) → AreOlder generation (D.may_leave disk.old) → AreOlder generation (D.may_leave disk.new) }
    ensures clean { IsTrue (D.is_clean disk.new) → IsTrue (D.is_clean disk.old) }
{
    shut_off(disk)?;
    let (_, behind) = head.split_at(1);
    write_synced(disk, 1, behind)?;
    write_synced(disk, head.len(), text)
}

// Returns the frame of a head, and the frame of a text with a closed gate behind it.
pub(crate) fn two_frames(
    alloc: Global,
    head: &Head,
    text: &[u8],
) -> Result<(Vec<u8>, Vec<u8>), LogError>
    ensures first { IfOk result (λ frames. frames.0.items ≡ frame (sealed head.now.key (head_text head.now))) }
    ensures second { IfOk result (λ frames. frames.1.items ≡ frame (sealed head.now.key text.now) ++ 0 ∷ []) }
    ensures spells { OnOk result (head_at (head_text head.now) ≡ Some head.now) }
    ensures short { OnOk result (length text.now + 8 < 128 ^ 5) }
    ensures cause { IfErr result (λ e. IsIo e → ⊥) }
{
    if text.len() > LONGEST_TEXT {
        return Err(LogError::TooLong);
    }
    let mut first = head_frame(alloc, head)?;
    first.truncate(HEAD_FRAME);
    let frame = frame_of(alloc, text, &seal_of(head.key, text))?;
    Ok((first, frame))
}
