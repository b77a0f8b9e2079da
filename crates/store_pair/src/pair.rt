//! A log in two files.
ghost use Rattle.std.specs.Prelude.{◌≡◌, ◌⊎◌, ◌++◌, ◌∷◌, [], ℕ, List, false, true, OnOk, OnErr, IfOk, IfErr, IsErrOf, IsTrue};
ghost use Rattle.store_log.specs.Cause.{CausedBy};
ghost use Rattle.store_log.specs.Head.{HasKinds};
ghost use Rattle.store_log.specs.Log.{HasTexts};
ghost use Rattle.store_log.specs.Refusal.{IsRefusal};
ghost use Rattle.store_log.specs.Spare.{AreOlder, next_head};
ghost use Rattle.store_log.specs.declared.head.Head.{Head as HeadOf};
ghost use Rattle.store_pair.specs.Pair.{AreBlank, AreClean, AreFresh, AreSettled, AreUntouched, AreUsable, AreUsed, HaveFailed, HavePair, Held, LeavePair, MayHold, held_in};

use crate::Files;
use crate::inspect::ordered;
use sqlite_disk::Disk;
use std::alloc::Global;
use std::marker::Model;
use store_log::{Head, Log, LogError, OpenError, is_blank, read_all, retire};

/// A log in one of two files. The other file is older: it has no head, or one of an earlier
/// generation.
///
/// Contracts see the files, the head, the texts, the oldest first, and whether the log is stopped.
#[derive(Drop)]
pub struct LogPair<D: Disk> {
    log: Log<D>,
    spare: D,
    // Whether the second file is the one that counts.
    swapped: bool,
}

impl<D: Disk> Model for LogPair<D> {
    ghost use Rattle.store_pair.specs.Pair.{IsPair, Pair, pair_of};

    ghost Value = { Pair D };

    ghost view = { λ p. pair_of p.swapped p.log p.spare };

    ghost invariant = { λ p. IsPair D.is_clean D.may_leave p.log p.spare };
}

impl<D: Disk> LogPair<D> {
    /// Opens the log in two files that a crash may have left, and returns the bytes of the file
    /// that counts. Each seal is tested before a byte changes.
    ///
    /// Returns `Err` with the files if both are blank, if none has a head, if the other one holds
    /// something else, if the keys or the values are of other kinds, or if the file that counts is
    /// damaged. Then no byte has changed, and the files may be used. Returns `Err` too if a file
    /// can't be read, if it cannot allocate, or if what a crash left can't be repaired. Then the
    /// files have the texts that they had.
    ///
    /// Reads the file that counts twice. Allocates the lengths of both.
    pub fn open(
        alloc: Global,
        files: Files<D>,
        kinds: (u32, u32),
    ) -> Result<(Self, Vec<u8>), (OpenError, Files<D>)>
        requires usable { AreUsable D.is_usable files }

        // After a restart, what is read is what is on the disk.
        requires settled { AreSettled D.seen D.may_leave files }
        ensures opened { IfOk result (λ opened. AreClean D.is_clean opened.0.files → HavePair opened.0.head opened.0.texts (held_in D.seen files)) }
        ensures bytes { IfOk result (λ opened. AreClean D.is_clean opened.0.files → HasTexts opened.0.head opened.0.texts opened.1.items) }
        ensures kinds { IfOk result (λ opened. HasKinds opened.0.head kinds) }
        ensures runs { IfOk result (λ opened. opened.0.stopped ≡ false) }
        ensures clean { IfOk result (λ opened. AreClean D.is_clean opened.0.files → AreClean D.is_clean files) }
        ensures clean_err { IfErr result (λ e. AreClean D.is_clean e.1 → AreClean D.is_clean files) }
        ensures kept { IfOk result (λ opened. AreClean D.is_clean opened.0.files → LeavePair D.may_leave opened.0.head opened.0.texts opened.0.files) }

        // Files that have a head of these kinds and sealed texts are not refused, and a refusal
        // changes nothing.
        ensures sound { IfErr result (λ e. AreClean D.is_clean e.1 → IsRefusal e.0 → (head : HeadOf) (texts : List (List ℕ)) → HavePair head texts (held_in D.seen files) → HasKinds head kinds → ⊥) }
        ensures usable { IfErr result (λ e. IsRefusal e.0 → AreUsable D.is_usable e.1) }
        ensures untouched { IfErr result (λ e. IsRefusal e.0 → AreUntouched D.seen D.may_leave files e.1) }
        ensures blank { IfErr result (λ e. AreClean D.is_clean e.1 → e.0 ≡ OpenError.Blank → AreBlank (held_in D.seen files)) }

        // After any other error a crash leaves the texts that the files had.
        ensures crash { IfErr result (λ e. AreClean D.is_clean e.1 → (head : HeadOf) (texts : List (List ℕ)) → HavePair head texts (held_in D.seen files) → LeavePair D.may_leave head texts e.1) }
    {
        let (swapped, disk, mut spare) = match ordered(alloc, files) {
            Ok(found) => found,
            Err(refused) => return Err(refused),
        };
        match Log::open(alloc, disk, kinds, 0) {
            Ok((log, bytes)) => {
                close(&mut spare);
                let pair = LogPair {
                    log,
                    spare,
                    swapped,
                };
                Ok((pair, bytes))
            }
            Err((error, disk)) => Err((error, Files::of(swapped, disk, spare))),
        }
    }

    /// Makes a log without a text in two blank files.
    ///
    /// Returns `Err` with the files, and changes no byte, if one is not blank. Returns `Err` too if
    /// the disk fails or if it cannot allocate. Then the files are blank, or the first has a head
    /// alone.
    pub fn make(alloc: Global, files: Files<D>, head: Head) -> Result<Self, (OpenError, Files<D>)>
        requires usable { AreUsable D.is_usable files }
        requires settled { AreSettled D.seen D.may_leave files }
        ensures made { IfOk result (λ pair. (pair.head ≡ head) × (pair.stopped ≡ false)) }
        ensures empty { IfOk result (λ pair. AreClean D.is_clean pair.files → (pair.texts ≡ []) × LeavePair D.may_leave head [] pair.files) }
        ensures blank { IfOk result (λ pair. AreClean D.is_clean pair.files → AreBlank (held_in D.seen files)) }
        ensures untouched { IfErr result (λ e. IsRefusal e.0 → AreUntouched D.seen D.may_leave files e.1) }
        ensures occupied { IfErr result (λ e. AreClean D.is_clean e.1 → IsRefusal e.0 → AreBlank (held_in D.seen files) → ⊥) }

        // After any error files that were not blank are as they were.
        ensures kept { IfErr result (λ e. AreClean D.is_clean e.1 → (AreBlank (held_in D.seen files) → ⊥) → AreUntouched D.seen D.may_leave files e.1) }
        ensures crash { IfErr result (λ e. AreClean D.is_clean e.1 → AreBlank (held_in D.seen files) → (left : Held) → MayHold D.may_leave e.1 left → AreFresh left) }
    {
        let Files { first, mut second } = files;
        let bytes = match read_all(alloc, &mut second) {
            Ok(bytes) => bytes,
            Err(error) => return Err((OpenError::Log(error), Files { first, second })),
        };
        if !is_blank(&bytes) {
            return Err((OpenError::Occupied, Files { first, second }));
        }
        match Log::make(alloc, first, head) {
            Ok(log) => Ok(LogPair {
                log,
                spare: second,
                swapped: false,
            }),
            Err((error, first)) => Err((error, Files { first, second })),
        }
    }

    /// Returns the head. Runs in constant time.
    pub fn head(&self) -> Head
        ensures { result ≡ self.now.head }
    {
        self.log.head()
    }

    /// Returns whether an earlier write or sync failed. Runs in constant time.
    pub fn is_stopped(&self) -> bool
        ensures { result ≡ self.now.stopped }
    {
        self.log.is_stopped()
    }

    /// Returns how many bytes of the file that counts are in use. Runs in constant time.
    pub fn end(&self) -> usize
        ensures { AreClean D.is_clean self.now.files → self.now.stopped ≡ false → AreUsed (held_in D.seen self.now.files) result }
    {
        self.log.end()
    }

    /// Returns the files. Runs in constant time.
    pub fn into_files(self) -> Files<D>
        ensures { result ≡ self.files }
    {
        let LogPair {
            log,
            spare,
            swapped,
        } = self;
        Files::of(swapped, log.into_disk(), spare)
    }

    /// Reads the file that counts again, and returns its bytes, which have the texts of the log.
    ///
    /// Returns `Err` if the file can't be read, if it cannot allocate, or if the log is stopped.
    /// Allocates the length of the file.
    pub fn read(&mut self) -> Result<Vec<u8>, LogError>
        ensures texts { IfOk result (λ bytes. AreClean D.is_clean self.new.files → HasTexts self.new.head self.new.texts bytes.items) }
        ensures head { self.new.head ≡ self.old.head }
        ensures same { self.new.texts ≡ self.old.texts }
        ensures stopped { self.new.stopped ≡ self.old.stopped }
        ensures crash { (left : Held) → MayHold D.may_leave self.new.files left → MayHold D.may_leave self.old.files left }
        ensures clean { AreClean D.is_clean self.new.files → AreClean D.is_clean self.old.files }
    {
        self.log.read()
    }

    /// Reads the file that counts again, and tests its head and each seal. Returns how many bytes
    /// were tested.
    ///
    /// Returns `Err` if the file is damaged, if it can't be read, if it cannot allocate, or if the
    /// log is stopped. Allocates the length of the file.
    pub fn verify(&mut self) -> Result<usize, OpenError>
        ensures sound { IfErr result (λ e. IsRefusal e → AreClean D.is_clean self.new.files → ⊥) }
        ensures head { self.new.head ≡ self.old.head }
        ensures same { self.new.texts ≡ self.old.texts }
        ensures stopped { self.new.stopped ≡ self.old.stopped }
        ensures crash { (left : Held) → MayHold D.may_leave self.new.files left → MayHold D.may_leave self.old.files left }
        ensures clean { AreClean D.is_clean self.new.files → AreClean D.is_clean self.old.files }
    {
        self.log.verify()
    }

    /// Appends a text. At `Ok` it is on the disk, and each crash from then on leaves it.
    ///
    /// Returns `Err` if the text is too long, if it cannot allocate, or if the disk fails. Then the
    /// log is stopped, or a crash leaves the texts that it had and the call may be repeated. If the
    /// log was stopped already, returns `Err` and changes nothing. Costs what `Log::append` does.
    pub fn append(&mut self, text: &[u8]) -> Result<(), LogError>
        ensures appended { OnOk result (AreClean D.is_clean self.new.files → self.new.texts ≡ self.old.texts ++ text.now ∷ []) }
        ensures kept { OnOk result (AreClean D.is_clean self.new.files → LeavePair D.may_leave self.new.head self.new.texts self.new.files) }
        ensures runs { OnOk result (self.new.stopped ≡ false) }

        // A crash leaves the texts from before the call, with the new one or without.
        ensures crash { AreClean D.is_clean self.new.files → self.old.stopped ≡ false → (left : Held) → MayHold D.may_leave self.new.files left →
            HavePair self.old.head self.old.texts left ⊎ HavePair self.old.head (self.old.texts ++ text.now ∷ []) left }
        ensures refused { OnErr result ((self.new.stopped ≡ true) ⊎ (AreClean D.is_clean self.new.files →
            (self.new.texts ≡ self.old.texts) × LeavePair D.may_leave self.old.head self.old.texts self.new.files)) }

        // The disk failed, or nothing changed.
        ensures cause { IfErr result (λ e. CausedBy e (HaveFailed D.faults self.old.files self.new.files) (self.new ≡ self.old)) }
        ensures stopped { self.old.stopped ≡ true → IsErrOf result LogError.Stopped × (self.new ≡ self.old) }
        ensures head { self.new.head ≡ self.old.head }
        ensures clean { AreClean D.is_clean self.new.files → AreClean D.is_clean self.old.files }
    {
        self.log.append(text)
    }

    /// Writes this one text into the other file, under the next generation, and goes on there. A
    /// crash leaves the texts that the files had, or this one.
    ///
    /// Returns `Err` if the text is too long, if it cannot allocate, or if the disk fails. Then the
    /// log is stopped, or a crash leaves the texts that it had and it may go on. If the log was
    /// stopped already, returns `Err` and changes nothing. Costs what `Log::rewrite` does.
    pub fn rewrite(&mut self, text: &[u8]) -> Result<(), LogError>
        ensures rewritten { OnOk result (AreClean D.is_clean self.new.files → (self.new.texts ≡ text.now ∷ []) × LeavePair D.may_leave self.new.head (text.now ∷ []) self.new.files) }
        ensures runs { OnOk result (self.new.stopped ≡ false) }
        ensures turned { OnOk result (self.new.head ≡ next_head self.old.head) }
        ensures same { OnErr result (self.new.head ≡ self.old.head) }

        // A crash leaves the texts from before the call, or the new one.
        ensures crash { AreClean D.is_clean self.new.files → self.old.stopped ≡ false → (left : Held) → MayHold D.may_leave self.new.files left →
            HavePair self.old.head self.old.texts left ⊎ HavePair (next_head self.old.head) (text.now ∷ []) left }
        ensures refused { OnErr result ((self.new.stopped ≡ true) ⊎ (AreClean D.is_clean self.new.files →
            (self.new.texts ≡ self.old.texts) × LeavePair D.may_leave self.old.head self.old.texts self.new.files)) }
        ensures cause { IfErr result (λ e. CausedBy e (Unit {0}) (self.new ≡ self.old)) }
        ensures stopped { self.old.stopped ≡ true → IsErrOf result LogError.Stopped × (self.new ≡ self.old) }
        ensures clean { AreClean D.is_clean self.new.files → AreClean D.is_clean self.old.files }
    {
        if self.log.is_stopped() {
            return Err(LogError::Stopped);
        }
        match self.log.rewrite(&mut self.spare, text) {
            Ok(()) => {
                self.swapped = !self.swapped;
                close(&mut self.spare);
                Ok(())
            }
            Err(error) => Err(error),
        }
    }
}

// Retires a file that doesn't count, as far as the disk lets it. If that fails, a later call does.
fn close<D: Disk>(spare: &mut D)
    ensures older { (generation : ℕ) → IsTrue (D.is_clean spare.new) → AreOlder generation (D.may_leave spare.old) → AreOlder generation (D.may_leave spare.new) }
    ensures clean { IsTrue (D.is_clean spare.new) → IsTrue (D.is_clean spare.old) }
{
    if !spare.may_be_used() {
        return;
    }
    let _ = retire(spare);
}
