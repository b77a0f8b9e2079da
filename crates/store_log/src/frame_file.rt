//! A file of frames, to which frames are appended.
ghost use Rattle.std.specs.Prelude.{◌≡◌, ◌⊎◌, ◌+◌, ◌*◌, ◌^◌, ◌<◌, ◌≤◌, ◌++◌, ◌∷◌, [], List, ℕ, length, OnOk, OnErr, IfErr, IsTrue};
ghost use Rattle.sqlite_disk.specs.Disk.{MoreFaults};
ghost use Rattle.store_frames.specs.Frame.{frame};
ghost use Rattle.store_log.specs.Cause.{CausedBy, IsIo};
ghost use Rattle.store_log.specs.Rest.{IsAtRest, LeavesThese, LeavesTheseOr};

use crate::LogError;
use crate::synced::write_synced;
use sqlite_disk::Disk;
use std::alloc::Global;
use store_frames::{GATE, LONGEST, SEAL_LENGTH, frame_of};

// The least number of bytes by which a file grows.
const GROWTH: usize = 1 << 16;

// The length at which a file is full.
const FULL: usize = 1 << 60;

// The length of the longest text.
pub(crate) const LONGEST_TEXT: usize = LONGEST - SEAL_LENGTH;

/// A file of frames, and where they end. From `end` on there are `room` zeros, all of them on the
/// disk, of which the first is the closed gate of the next frame. A file without room is stopped.
#[derive(Drop)]
pub struct FrameFile<D: Disk> {
    pub(crate) disk: D,
    pub(crate) alloc: Global,
    pub(crate) end: usize,
    pub(crate) room: usize,
}

impl<D: Disk> FrameFile<D> {
    /// Appends a batch, in two parts. At `Ok` it is on the disk.
    ///
    /// At `Err` the file is stopped, or as before, and the call may be tried again.
    pub fn append(&mut self, text: &[u8], seal: &[u8; 8]) -> Result<(), LogError>
        ghost batches: { List (List ℕ) }
        requires usable { IsTrue (D.is_usable self.old.disk) }
        requires rest { IsTrue (D.is_clean self.old.disk) → IsAtRest D.seen D.may_leave batches self.old }
        ensures appended { OnOk result (IsTrue (D.is_clean self.new.disk) → IsAtRest D.seen D.may_leave (batches ++ (text.now ++ seal.now) ∷ []) self.new) }

        // A crash leaves the batches from before the call, with the new one or without.
        ensures crash { IsTrue (D.is_clean self.new.disk) → LeavesTheseOr batches (text.now ++ seal.now) (D.may_leave self.new.disk) }
        ensures cause { IfErr result (λ e. CausedBy e (MoreFaults (D.faults self.old.disk) (D.faults self.new.disk)) (self.new ≡ self.old)) }
        ensures room { OnOk result (0 < self.new.room) }
        ensures refused { OnErr result ((self.new.room ≡ 0) ⊎ (IsTrue (D.is_usable self.new.disk) × (IsTrue (D.is_clean self.new.disk) → IsAtRest D.seen D.may_leave batches self.new))) }
        ensures usable { OnOk result (IsTrue (D.is_usable self.new.disk)) }
        ensures clean { IsTrue (D.is_clean self.new.disk) → IsTrue (D.is_clean self.old.disk) }
    {
        if text.len() > LONGEST_TEXT || self.end > FULL {
            return Err(LogError::TooLong);
        }
        let frame = frame_of(self.alloc, text, seal)?;
        self.append_frame(&frame)
    }

    // Appends a frame. The bytes are the frame and a closed gate.
    fn append_frame(&mut self, bytes: &[u8]) -> Result<(), LogError>
        ghost more: { List (List ℕ) × List ℕ }
        requires usable { IsTrue (D.is_usable self.old.disk) }
        requires rest { IsTrue (D.is_clean self.old.disk) → IsAtRest D.seen D.may_leave more.0 self.old }
        requires frame { bytes.now ≡ frame more.1 ++ 0 ∷ [] }
        requires short { length more.1 < 128 ^ 5 }
        requires end { self.old.end ≤ 2 ^ 60 }
        ensures appended { OnOk result (IsTrue (D.is_clean self.new.disk) → IsAtRest D.seen D.may_leave (more.0 ++ more.1 ∷ []) self.new) }
        ensures crash { IsTrue (D.is_clean self.new.disk) → LeavesTheseOr more.0 more.1 (D.may_leave self.new.disk) }
        ensures cause { IfErr result (λ e. CausedBy e (MoreFaults (D.faults self.old.disk) (D.faults self.new.disk)) (self.new ≡ self.old)) }
        ensures room { OnOk result (0 < self.new.room) }
        ensures refused { OnErr result ((self.new.room ≡ 0) ⊎ (IsTrue (D.is_usable self.new.disk) × (IsTrue (D.is_clean self.new.disk) → IsAtRest D.seen D.may_leave more.0 self.new))) }
        ensures usable { OnOk result (IsTrue (D.is_usable self.new.disk)) }
        ensures clean { IsTrue (D.is_clean self.new.disk) → IsTrue (D.is_clean self.old.disk) }
    {
        if self.disk.mixes() {
            self.make_room(bytes.len())?;
            if self.disk.mixes() {
                return self.append_once(&bytes[..bytes.len() - 1]);
            }
        }
        self.append_twice(bytes)
    }

    // One write over zeros, and one sync.
    fn append_once(&mut self, bytes: &[u8]) -> Result<(), LogError>
        ghost more: { List (List ℕ) × List ℕ }
        requires usable { IsTrue (D.is_usable self.old.disk) }
        requires rest { IsTrue (D.is_clean self.old.disk) → IsAtRest D.seen D.may_leave more.0 self.old }
        requires frame { bytes.now ≡ frame more.1 }
        requires short { length more.1 < 128 ^ 5 }
        requires room { length bytes.now < self.old.room }
        requires end { self.old.end ≤ 2 ^ 60 }
        requires mixing { IsTrue (D.is_mixing self.old.disk) }
        ensures appended { OnOk result (IsTrue (D.is_clean self.new.disk) → IsAtRest D.seen D.may_leave (more.0 ++ more.1 ∷ []) self.new) }
        ensures crash { IsTrue (D.is_clean self.new.disk) → LeavesTheseOr more.0 more.1 (D.may_leave self.new.disk) }
        ensures stopped { OnErr result (self.new.room ≡ 0) }
        ensures room { OnOk result (0 < self.new.room) }
        ensures cause { IfErr result (λ e. IsIo e × MoreFaults (D.faults self.old.disk) (D.faults self.new.disk)) }
        ensures usable { OnOk result (IsTrue (D.is_usable self.new.disk)) }
        ensures clean { IsTrue (D.is_clean self.new.disk) → IsTrue (D.is_clean self.old.disk) }
    {
        let room = self.room - bytes.len();
        self.room = 0;
        write_synced(&mut self.disk, self.end, bytes)?;
        self.end += bytes.len();
        self.room = room;
        Ok(())
    }

    // What is behind the gate, a sync, the gate, and a sync. The bytes are a frame and a closed gate.
    pub(crate) fn append_twice(&mut self, bytes: &[u8]) -> Result<(), LogError>
        ghost more: { List (List ℕ) × List ℕ }
        requires usable { IsTrue (D.is_usable self.old.disk) }
        requires rest { IsTrue (D.is_clean self.old.disk) → IsAtRest D.seen D.may_leave more.0 self.old }
        requires frame { bytes.now ≡ frame more.1 ++ 0 ∷ [] }
        requires short { length more.1 < 128 ^ 5 }
        requires end { self.old.end ≤ 2 ^ 60 }
        ensures appended { OnOk result (IsTrue (D.is_clean self.new.disk) → IsAtRest D.seen D.may_leave (more.0 ++ more.1 ∷ []) self.new) }
        ensures crash { IsTrue (D.is_clean self.new.disk) → LeavesTheseOr more.0 more.1 (D.may_leave self.new.disk) }
        ensures stopped { OnErr result (self.new.room ≡ 0) }
        ensures room { OnOk result (0 < self.new.room) }
        ensures cause { IfErr result (λ e. IsIo e × MoreFaults (D.faults self.old.disk) (D.faults self.new.disk)) }
        ensures usable { OnOk result (IsTrue (D.is_usable self.new.disk)) }
        ensures clean { IsTrue (D.is_clean self.new.disk) → IsTrue (D.is_clean self.old.disk) }
    {
        self.room = 0;
        let (_, behind) = bytes.split_at(1);
        write_synced(&mut self.disk, self.end + 1, behind)?;
        write_synced(&mut self.disk, self.end, &[GATE])?;
        self.end += bytes.len() - 1;
        self.room = 1;
        Ok(())
    }

    // Ensures that so many zeros are at the end, all of them on the disk. The gate stays as it is.
    fn make_room(&mut self, wanted: usize) -> Result<(), LogError>
        ghost batches: { List (List ℕ) }
        requires usable { IsTrue (D.is_usable self.old.disk) }
        requires rest { IsTrue (D.is_clean self.old.disk) → IsAtRest D.seen D.may_leave batches self.old }
        requires end { self.old.end ≤ 2 ^ 60 }
        requires few { wanted ≤ 2 ^ 40 }
        ensures ok { OnOk result (IsTrue (D.is_clean self.new.disk) → IsAtRest D.seen D.may_leave batches self.new) }
        ensures room { OnOk result ((wanted ≤ self.new.room) × (self.new.end ≡ self.old.end)) }
        ensures fine { OnOk result (D.faults self.new.disk ≡ D.faults self.old.disk) }
        ensures cause { IfErr result (λ e. CausedBy e (MoreFaults (D.faults self.old.disk) (D.faults self.new.disk)) (self.new ≡ self.old)) }
        ensures crash { IsTrue (D.is_clean self.new.disk) → LeavesThese batches (D.may_leave self.new.disk) }
        ensures refused { OnErr result ((self.new.room ≡ 0) ⊎ (IsTrue (D.is_usable self.new.disk) × (IsTrue (D.is_clean self.new.disk) → IsAtRest D.seen D.may_leave batches self.new))) }
        ensures usable { OnOk result (IsTrue (D.is_usable self.new.disk)) }
        ensures clean { IsTrue (D.is_clean self.new.disk) → IsTrue (D.is_clean self.old.disk) }
    {
        if wanted <= self.room {
            return Ok(());
        }
        let more = wanted.max(GROWTH).max(self.end / 8);
        let zeros = vec![in self.alloc; 0u8; more]?;
        self.room = 0;
        let written = self.disk.write_at(self.end + 1, &zeros);
        // A write that failed, as on a full disk, may have changed what is behind the gate.
        self.disk.sync()?;
        self.room = 1;
        written?;
        self.room = more + 1;
        Ok(())
    }
}
