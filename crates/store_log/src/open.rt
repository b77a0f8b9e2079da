//! Opens a file that a crash may have left.
ghost use Rattle.std.specs.Prelude.{◌≡◌, ◌⊎◌, ◌+◌, ◌≤◌, ◌<◌, ◌^◌, ◌++◌, List, ℕ, [], length, drop, replicate, OnOk, IfOk, IfErr, IsTrue};
ghost use Rattle.sqlite_disk.specs.Disk.{Only};
ghost use Rattle.store_frames.specs.Frame.{Reads, Scanned, batches_of};
ghost use Rattle.store_log.specs.Rest.{IsAtRest, Ends, CanShut, IsShut, LeavesThese};

use crate::LogError;
use crate::frame_file::FrameFile;
use crate::synced::write_synced;
use sqlite_disk::Disk;
use std::alloc::Global;
use store_frames::{GATE, leading_zeros};

impl<D: Disk> FrameFile<D> {
    // Repairs what a crash left at the end of the frames. The bytes are all that were read.
    pub(crate) fn settled(
        alloc: Global,
        mut disk: D,
        bytes: &[u8],
        end: usize,
    ) -> Result<Self, (LogError, D)>
        requires usable { IsTrue (D.is_usable disk) }
        requires durable { Only (D.seen disk) (D.may_leave disk) }
        requires read { IsTrue (D.is_clean disk) → bytes.now ≡ D.seen disk }
        requires scanned { Scanned bytes.now end }
        requires within { end ≤ length bytes.now }
        ensures rest { IfOk result (λ file. IsTrue (D.is_clean file.disk) → IsAtRest D.seen D.may_leave (batches_of (D.seen disk)) file) }
        ensures usable { IfOk result (λ file. IsTrue (D.is_usable file.disk)) }
        ensures room { IfOk result (λ file. 0 < file.room) }
        ensures crash { IfOk result (λ file. IsTrue (D.is_clean file.disk) → LeavesThese (batches_of (D.seen disk)) (D.may_leave file.disk)) }
        ensures crash_err { IfErr result (λ e. IsTrue (D.is_clean e.1) → LeavesThese (batches_of (D.seen disk)) (D.may_leave e.1)) }
        ensures clean { IfOk result (λ file. IsTrue (D.is_clean file.disk) → IsTrue (D.is_clean disk)) }
        ensures clean_err { IfErr result (λ e. IsTrue (D.is_clean e.1) → IsTrue (D.is_clean disk)) }
    {
        let (_, tail) = bytes.split_at(end);
        match settle(&mut disk, tail, end) {
            Ok(room) => Ok(FrameFile {
                disk,
                alloc,
                end,
                room,
            }),
            Err(error) => Err((error, disk)),
        }
    }
}

/// Returns all bytes of a file.
///
/// Returns `Err` if the disk fails or if it cannot allocate. Reads the file once, and allocates its
/// length.
pub fn read_all<D: Disk>(alloc: Global, disk: &mut D) -> Result<Vec<u8>, LogError>
    requires { IsTrue (D.is_usable disk.old) }
    ensures bytes { IfOk result (λ bytes. IsTrue (D.is_clean disk.new) → bytes.items ≡ D.seen disk.old) }
    ensures seen { D.seen disk.new ≡ D.seen disk.old }
    ensures crash { (c : List ℕ) → D.may_leave disk.new c → D.may_leave disk.old c }
    ensures usable { IsTrue (D.is_usable disk.new) }
    ensures clean { IsTrue (D.is_clean disk.new) → IsTrue (D.is_clean disk.old) }
{
    let len = disk.len()?;
    let mut bytes = vec![in alloc; 0u8; len]?;
    disk.read_at(0, &mut bytes)?;
    Ok(bytes)
}

// Ensures that a closed gate is at the end, and returns how many zeros are.
pub(crate) fn settle<D: Disk>(disk: &mut D, tail: &[u8], end: usize) -> Result<usize, LogError>
    ghost batches: { List (List ℕ) }
    requires usable { IsTrue (D.is_usable disk.old) }
    requires end { end < 2 ^ 63 }
    requires read { IsTrue (D.is_clean disk.old) → Ends D.seen D.may_leave batches disk.old tail.now end }
    ensures shut { IfOk result (λ room. IsTrue (D.is_clean disk.new) → IsShut D.seen D.may_leave batches disk.new room end) }
    ensures some { IfOk result (λ room. 0 < room) }
    ensures usable { OnOk result (IsTrue (D.is_usable disk.new)) }
    ensures clean { IsTrue (D.is_clean disk.new) → IsTrue (D.is_clean disk.old) }
    ensures crash { IsTrue (D.is_clean disk.new) → LeavesThese batches (D.may_leave disk.new) }
{
    let room = leading_zeros(tail);
    if room > 0 {
        return Ok(room);
    }
    spoil(disk, tail, end)?;
    shut(disk, end)?;
    Ok(1)
}

// Ensures that no gate at the end opens a frame.
fn spoil<D: Disk>(disk: &mut D, tail: &[u8], end: usize) -> Result<(), LogError>
    ghost batches: { List (List ℕ) }
    requires usable { IsTrue (D.is_usable disk.old) }
    requires end { end < 2 ^ 63 }
    requires read { IsTrue (D.is_clean disk.old) → Ends D.seen D.may_leave batches disk.old tail.now end }
    ensures ready { OnOk result (IsTrue (D.is_clean disk.new) → CanShut D.seen D.may_leave batches disk.new end) }
    ensures usable { OnOk result (IsTrue (D.is_usable disk.new)) }
    ensures clean { IsTrue (D.is_clean disk.new) → IsTrue (D.is_clean disk.old) }
    ensures crash { IsTrue (D.is_clean disk.new) → LeavesThese batches (D.may_leave disk.new) }
{
    let Some((gate, _)) = tail.split_first() else {
        return Ok(());
    };
    if *gate == GATE {
        return Ok(());
    }
    write_synced(disk, end + 1, &[0])?;
    Ok(())
}

// Closes the gate at the end.
fn shut<D: Disk>(disk: &mut D, end: usize) -> Result<(), LogError>
    ghost batches: { List (List ℕ) }
    requires usable { IsTrue (D.is_usable disk.old) }
    requires ready { IsTrue (D.is_clean disk.old) → CanShut D.seen D.may_leave batches disk.old end }
    ensures shut { OnOk result (IsTrue (D.is_clean disk.new) → IsShut D.seen D.may_leave batches disk.new 1 end) }
    ensures usable { OnOk result (IsTrue (D.is_usable disk.new)) }
    ensures clean { IsTrue (D.is_clean disk.new) → IsTrue (D.is_clean disk.old) }
    ensures crash { IsTrue (D.is_clean disk.new) → LeavesThese batches (D.may_leave disk.new) }
{
    write_synced(disk, end, &[0])?;
    Ok(())
}
