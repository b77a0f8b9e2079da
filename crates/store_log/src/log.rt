//! A log of texts in one file.
ghost use Rattle.std.specs.Prelude.{◌≡◌, ◌⊎◌, ◌≤◌, ◌++◌, ◌∷◌, [], ℕ, List, false, true, OnOk, OnErr, IfOk, IfErr, IsErrOf, IsTrue};
ghost use Rattle.sqlite_disk.specs.Disk.{MoreFaults, Only};
ghost use Rattle.store_log.specs.Cause.{CausedBy};
ghost use Rattle.store_log.specs.Head.{HasKinds};
ghost use Rattle.store_log.specs.Log.{HasTexts, IsBlank, IsFresh, IsUntouched, LeavesTexts, end_of};
ghost use Rattle.store_log.specs.Refusal.{IsRefusal};
ghost use Rattle.store_log.specs.Spare.{AreOlder, IsOlder, next_head};
ghost use Rattle.store_log.specs.declared.head.Head.{Head as HeadOf};

use crate::frame_file::FrameFile;
use crate::head::{Head, head_frame};
use crate::inspect::{examine, is_blank};
use crate::make::write_head;
use crate::open::read_all;
use crate::spare::{stage, two_frames};
use crate::synced::write_synced;
use crate::{LogError, OpenError};
use sqlite_disk::Disk;
use std::alloc::Global;
use std::marker::Model;
use std::mem;
use store_frames::{GATE, seal_of};

/// A log of texts in one file, behind a head. Each text is in a frame, so a crash leaves all of it
/// or nothing, and under a seal, so damage is found.
///
/// Contracts see the disk, the head, the texts, the oldest first, and whether the log is stopped.
/// A log is stopped by a write or a sync that fails, since nothing is known of the file then. The
/// caller must open it again.
#[derive(Drop)]
pub struct Log<D: Disk> {
    file: FrameFile<D>,
    head: Head,
}

impl<D: Disk> Model for Log<D> {
    ghost use Rattle.store_log.specs.Log.{Contents, IsLog, contents_of};

    ghost Value = { Contents D };

    ghost view = { λ l. contents_of D.seen l.head l.file };

    ghost invariant = { λ l. IsLog D.is_usable D.is_clean D.seen D.may_leave l.head l.file };
}

impl<D: Disk> Log<D> {
    /// Opens the log of a file that a crash may have left, and returns the bytes of the file too.
    /// Each seal is tested before a byte of the file changes. The keys and the values must be of
    /// these kinds, and the frames must go at least as far as the mark, which is what
    /// [`end`](Self::end) returned earlier, or 0.
    ///
    /// Returns `Err` with the disk if the file is blank, has no head or other kinds, or is damaged.
    /// Then no byte of it has changed, and the disk may be used. Damage of a header behind the mark
    /// is not found: it looks like what a crash leaves. Returns `Err` too if the file can't be
    /// read, if it cannot allocate, or if what a crash left can't be repaired. Then the file has
    /// the texts that it had.
    ///
    /// Reads the file once, and passes over its frames three times. Allocates its length.
    pub fn open(
        alloc: Global,
        mut disk: D,
        kinds: (u32, u32),
        mark: usize,
    ) -> Result<(Self, Vec<u8>), (OpenError, D)>
        requires usable { IsTrue (D.is_usable disk) }

        // After a restart, what is read is what is on the disk.
        requires durable { Only (D.seen disk) (D.may_leave disk) }
        ensures opened { IfOk result (λ opened. IsTrue (D.is_clean opened.0.disk) → HasTexts opened.0.head opened.0.texts (D.seen disk)) }
        ensures bytes { IfOk result (λ opened. IsTrue (D.is_clean opened.0.disk) → opened.1.items ≡ D.seen disk) }
        ensures kinds { IfOk result (λ opened. HasKinds opened.0.head kinds) }
        ensures reached { IfOk result (λ opened. IsTrue (D.is_clean opened.0.disk) → mark ≤ end_of (D.seen disk)) }
        ensures runs { IfOk result (λ opened. opened.0.stopped ≡ false) }
        ensures clean { IfOk result (λ opened. IsTrue (D.is_clean opened.0.disk) → IsTrue (D.is_clean disk)) }
        ensures clean_err { IfErr result (λ e. IsTrue (D.is_clean e.1) → IsTrue (D.is_clean disk)) }
        ensures kept { IfOk result (λ opened. IsTrue (D.is_clean opened.0.disk) → LeavesTexts opened.0.head opened.0.texts (D.may_leave opened.0.disk)) }

        // A file that has a head of these kinds and sealed texts is not refused, and a refusal
        // changes nothing.
        ensures sound { IfErr result (λ e. IsTrue (D.is_clean e.1) → IsRefusal e.0 → (head : HeadOf) (texts : List (List ℕ)) → HasTexts head texts (D.seen disk) → HasKinds head kinds → mark ≤ end_of (D.seen disk) → ⊥) }
        ensures usable { IfErr result (λ e. IsRefusal e.0 → IsTrue (D.is_usable e.1)) }
        ensures untouched { IfErr result (λ e. IsRefusal e.0 → IsUntouched D.seen D.may_leave disk e.1) }
        ensures blank { IfErr result (λ e. IsTrue (D.is_clean e.1) → e.0 ≡ OpenError.Blank → IsBlank (D.seen disk)) }
        ensures other { IfErr result (λ e. IsTrue (D.is_clean e.1) → e.0 ≡ OpenError.NoHead → IsBlank (D.seen disk) → ⊥) }

        // After any other error a crash leaves the texts that the file had.
        ensures crash { IfErr result (λ e. IsTrue (D.is_clean e.1) → (head : HeadOf) (texts : List (List ℕ)) → HasTexts head texts (D.seen disk) → LeavesTexts head texts (D.may_leave e.1)) }
    {
        let bytes = match read_all(alloc, &mut disk) {
            Ok(bytes) => bytes,
            Err(error) => return Err((OpenError::Log(error), disk)),
        };
        let (head, end) = match examine(&bytes, kinds, mark) {
            Ok(found) => found,
            Err(refusal) => return Err((refusal, disk)),
        };
        match FrameFile::settled(alloc, disk, &bytes, end) {
            Ok(file) => Ok((Log { file, head }, bytes)),
            Err((error, disk)) => Err((OpenError::Log(error), disk)),
        }
    }

    /// Makes a log without a text in a blank file.
    ///
    /// Returns `Err` with the disk, and changes no byte, if the file is not blank: a file is blank
    /// if it is empty, or if a crash left it while its head was being made. Returns `Err` too if
    /// the disk fails or if it cannot allocate. Then the file is blank, or has a head alone.
    ///
    /// Writes the head behind its closed gate, and then opens the gate. Syncs after each step.
    pub fn make(alloc: Global, mut disk: D, head: Head) -> Result<Self, (OpenError, D)>
        requires usable { IsTrue (D.is_usable disk) }
        requires durable { Only (D.seen disk) (D.may_leave disk) }
        ensures made { IfOk result (λ log. (log.head ≡ head) × (log.stopped ≡ false)) }
        ensures empty { IfOk result (λ log. IsTrue (D.is_clean log.disk) → (log.texts ≡ []) × LeavesTexts head [] (D.may_leave log.disk)) }
        ensures blank { IfOk result (λ log. IsTrue (D.is_clean log.disk) → IsBlank (D.seen disk)) }
        ensures untouched { IfErr result (λ e. IsRefusal e.0 → IsUntouched D.seen D.may_leave disk e.1) }
        ensures occupied { IfErr result (λ e. IsTrue (D.is_clean e.1) → IsRefusal e.0 → IsBlank (D.seen disk) → ⊥) }

        // After any error a file that was not blank is as it was.
        ensures kept { IfErr result (λ e. IsTrue (D.is_clean e.1) → (IsBlank (D.seen disk) → ⊥) → IsUntouched D.seen D.may_leave disk e.1) }
        ensures crash { IfErr result (λ e. IsTrue (D.is_clean e.1) → IsBlank (D.seen disk) → (file : List ℕ) → D.may_leave e.1 file → IsFresh file) }
    {
        let bytes = match read_all(alloc, &mut disk) {
            Ok(bytes) => bytes,
            Err(error) => return Err((OpenError::Log(error), disk)),
        };
        if !is_blank(&bytes) {
            return Err((OpenError::Occupied, disk));
        }
        let Ok(frame) = head_frame(alloc, &head) else {
            return Err((OpenError::Log(LogError::Memory), disk));
        };
        match write_head(&mut disk, &bytes, &frame) {
            Ok(()) => Ok(Log {
                file: FrameFile {
                    disk,
                    alloc,
                    end: frame.len() - 1,
                    room: 1,
                },
                head,
            }),
            Err(error) => Err((OpenError::Log(error), disk)),
        }
    }

    /// Returns the head. Runs in constant time.
    pub fn head(&self) -> Head
        ensures { result ≡ self.now.head }
    {
        self.head
    }

    /// Returns whether an earlier write or sync failed. Runs in constant time.
    pub fn is_stopped(&self) -> bool
        ensures { result ≡ self.now.stopped }
    {
        self.file.room == 0
    }

    /// Returns where the frames end: a mark for a later opening. Runs in constant time.
    pub fn end(&self) -> usize
        ensures { IsTrue (D.is_clean self.now.disk) → self.now.stopped ≡ false → result ≡ end_of (D.seen self.now.disk) }
    {
        self.file.end
    }

    /// Lends the disk. Runs in constant time.
    pub fn disk(&self) -> &D
        ensures { result.now ≡ self.now.disk }
    {
        &self.file.disk
    }

    /// Returns the disk. Runs in constant time.
    pub fn into_disk(self) -> D
        ensures { result ≡ self.disk }
    {
        let Log { file, head: _ } = self;
        let FrameFile { disk, .. } = file;
        disk
    }

    /// Reads the file again, and returns its bytes, which have the texts of the log.
    ///
    /// Returns `Err` if the file can't be read, if it cannot allocate, or if the log is stopped.
    /// Allocates the length of the file.
    pub fn read(&mut self) -> Result<Vec<u8>, LogError>
        ensures texts { IfOk result (λ bytes. IsTrue (D.is_clean self.new.disk) → HasTexts self.new.head self.new.texts bytes.items) }
        ensures bytes { IfOk result (λ bytes. IsTrue (D.is_clean self.new.disk) → bytes.items ≡ D.seen self.old.disk) }
        ensures seen { D.seen self.new.disk ≡ D.seen self.old.disk }
        ensures head { self.new.head ≡ self.old.head }
        ensures same { self.new.texts ≡ self.old.texts }
        ensures stopped { self.new.stopped ≡ self.old.stopped }
        ensures crash { (file : List ℕ) → D.may_leave self.new.disk file → D.may_leave self.old.disk file }
        ensures clean { IsTrue (D.is_clean self.new.disk) → IsTrue (D.is_clean self.old.disk) }
    {
        if self.file.room == 0 {
            return Err(LogError::Stopped);
        }
        read_all(self.file.alloc, &mut self.file.disk)
    }

    /// Reads the file again, and tests its head and each seal. Returns how many bytes were tested.
    ///
    /// Returns `Err` if the file is damaged, if it can't be read, if it cannot allocate, or if the
    /// log is stopped. Allocates the length of the file.
    pub fn verify(&mut self) -> Result<usize, OpenError>
        ensures sound { IfErr result (λ e. IsRefusal e → IsTrue (D.is_clean self.new.disk) → ⊥) }
        ensures seen { D.seen self.new.disk ≡ D.seen self.old.disk }
        ensures head { self.new.head ≡ self.old.head }
        ensures same { self.new.texts ≡ self.old.texts }
        ensures stopped { self.new.stopped ≡ self.old.stopped }
        ensures crash { (file : List ℕ) → D.may_leave self.new.disk file → D.may_leave self.old.disk file }
        ensures clean { IsTrue (D.is_clean self.new.disk) → IsTrue (D.is_clean self.old.disk) }
    {
        if self.file.room == 0 {
            return Err(OpenError::Log(LogError::Stopped));
        }
        let kinds = (self.head.kind_of_keys, self.head.kind_of_values);
        let end = self.file.end;
        let bytes = match self.read() {
            Ok(bytes) => bytes,
            Err(error) => return Err(OpenError::Log(error)),
        };
        match examine(&bytes, kinds, end) {
            Ok((_, end)) => Ok(end),
            Err(refusal) => Err(refusal),
        }
    }

    /// Appends a text. At `Ok` it is on the disk, and each crash from then on leaves it.
    ///
    /// Returns `Err` if the text is too long, if it cannot allocate, or if the disk fails. Then the
    /// log is stopped, or a crash leaves the texts that it had and the call may be repeated. If the
    /// log was stopped already, returns `Err` and changes nothing.
    ///
    /// Writes the text once, and as many zeros as the file grows by if there is no room. Syncs once
    /// if a crash leaves each byte of a torn write old or new, and twice otherwise. Allocates a
    /// copy of the text.
    pub fn append(&mut self, text: &[u8]) -> Result<(), LogError>
        ensures appended { OnOk result (IsTrue (D.is_clean self.new.disk) → self.new.texts ≡ self.old.texts ++ text.now ∷ []) }
        ensures kept { OnOk result (IsTrue (D.is_clean self.new.disk) → LeavesTexts self.new.head self.new.texts (D.may_leave self.new.disk)) }
        ensures runs { OnOk result (self.new.stopped ≡ false) }

        // A crash leaves the texts from before the call, with the new one or without.
        ensures crash { IsTrue (D.is_clean self.new.disk) → self.old.stopped ≡ false → (file : List ℕ) → D.may_leave self.new.disk file →
            HasTexts self.old.head self.old.texts file ⊎ HasTexts self.old.head (self.old.texts ++ text.now ∷ []) file }
        ensures refused { OnErr result ((self.new.stopped ≡ true) ⊎ (IsTrue (D.is_clean self.new.disk) →
            (self.new.texts ≡ self.old.texts) × LeavesTexts self.old.head self.old.texts (D.may_leave self.new.disk))) }

        // The disk failed, or nothing changed.
        ensures cause { IfErr result (λ e. CausedBy e (MoreFaults (D.faults self.old.disk) (D.faults self.new.disk)) (self.new ≡ self.old)) }
        ensures stopped { self.old.stopped ≡ true → IsErrOf result LogError.Stopped × (self.new ≡ self.old) }
        ensures head { self.new.head ≡ self.old.head }
        ensures clean { IsTrue (D.is_clean self.new.disk) → IsTrue (D.is_clean self.old.disk) }
    {
        if self.file.room == 0 {
            return Err(LogError::Stopped);
        }
        let seal = seal_of(self.head.key, text);
        self.file.append(text, &seal)
    }

    /// Writes a log of this one text into a spare disk, under the next generation, and goes on in
    /// it. The disks change places. The gate of the head is opened last, so a crash leaves the
    /// spare file older than this log, or with the new log.
    ///
    /// Returns `Err` if the text is too long, if it cannot allocate, or if the spare disk fails.
    /// Then the log is as before, and may go on, or it is stopped: the spare file may have the new
    /// log. Returns `Err` too, and changes nothing, if the log is stopped or the spare disk can't
    /// be used.
    ///
    /// Syncs the spare disk at most six times. Allocates a copy of the text.
    pub fn rewrite(&mut self, spare: &mut D, text: &[u8]) -> Result<(), LogError>
        requires older { IsTrue (D.is_clean self.old.disk) → IsTrue (D.is_clean spare.old) → AreOlder self.old.head.generation (D.may_leave spare.old) }
        ensures rewritten { OnOk result (IsTrue (D.is_clean self.new.disk) → (self.new.texts ≡ text.now ∷ []) × LeavesTexts self.new.head self.new.texts (D.may_leave self.new.disk)) }
        ensures turned { OnOk result ((self.new.head ≡ next_head self.old.head) × (self.new.stopped ≡ false) × (spare.new ≡ self.old.disk)) }
        ensures runs { OnOk result (self.old.stopped ≡ false) }
        ensures same { OnErr result ((self.new.disk ≡ self.old.disk) × (self.new.head ≡ self.old.head) × (self.new.texts ≡ self.old.texts)) }
        ensures refused { OnErr result ((self.new.stopped ≡ true) ⊎ ((self.new ≡ self.old) × (IsTrue (D.is_clean self.old.disk) → IsTrue (D.is_clean spare.new) → AreOlder self.old.head.generation (D.may_leave spare.new)))) }

        // A crash leaves the spare file older than the log, or with the new one.
        ensures crash { OnErr result (IsTrue (D.is_clean self.old.disk) → IsTrue (D.is_clean spare.new) → (file : List ℕ) → D.may_leave spare.new file →
            IsOlder self.old.head.generation file ⊎ HasTexts (next_head self.old.head) (text.now ∷ []) file) }
        ensures cause { IfErr result (λ e. CausedBy e (Unit {0}) ((self.new ≡ self.old) × (spare.new ≡ spare.old))) }
        ensures stopped { self.old.stopped ≡ true → IsErrOf result LogError.Stopped }
        ensures clean_ok { OnOk result (IsTrue (D.is_clean self.new.disk) → IsTrue (D.is_clean spare.old)) }
        ensures clean_err { OnErr result (IsTrue (D.is_clean spare.new) → IsTrue (D.is_clean spare.old)) }
    {
        if self.file.room == 0 || !spare.may_be_used() {
            return Err(LogError::Stopped);
        }
        if self.head.generation == u64::MAX {
            return Err(LogError::TooLong);
        }
        let head = Head {
            generation: self.head.generation + 1,
            ..self.head
        };
        let (first, frame) = two_frames(self.file.alloc, &head, text)?;
        stage(spare, &first, &frame)?;
        self.file.room = 0;
        write_synced(spare, 0, &[GATE])?;
        mem::swap(&mut self.file.disk, spare);
        self.file.end = first.len() + frame.len() - 1;
        self.file.room = 1;
        self.head = head;
        Ok(())
    }
}
