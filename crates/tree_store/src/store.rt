//! The store.
ghost use Rattle.std.specs.Prelude.{◌≡◌, ◌⊎◌, [], List, false, true, OnOk, OnErr, IfOk, IfErr, IsErrOf};
ghost use Rattle.store_codec.specs.Records.{record_at};
ghost use Rattle.store_log.specs.Cause.{CausedBy};
ghost use Rattle.store_log.specs.Spare.{next_head};
ghost use Rattle.store_pair.specs.Pair.{AreBlank, AreClean, AreFresh, AreSettled, AreUntouched, AreUsable, AreUsed, HaveFailed, Held, MayHold, held_in};
ghost use Rattle.tree_store.specs.Refusal.{Refuses, RefusesAtOnce};
ghost use Rattle.tree_store.specs.Store.{HasSaved, Leave, StandFor, new_head};
ghost use Rattle.store_log.specs.declared.error.OpenError.TheVariants.{Blank};

use crate::batch::all_records;
use crate::error::ReplayError;
use crate::replay::replayed;
use crate::{Files, LogError, OpenError};
use sqlite_disk::Disk;
use std::alloc::Global;
use std::marker::Model;
use store_codec::{Encode, StoreKey};
use store_log::Head;
use store_pair::LogPair;
use tree_index::TreeIndex;

/// An ordered index whose writes survive a crash.
///
/// The pairs are in memory, and [`index`](Self::index) lends them. A write notes what it did, and
/// [`commit`](Self::commit) makes all writes since the last commit durable, or none of them.
///
/// Contracts see the pairs, and what of the store is in its files. A store is stopped by a write or
/// a sync that fails, since nothing is known of the files then. The caller must open it again.
pub struct TreeStore<K: StoreKey, V: Encode, D: Disk> {
    pub(crate) index: TreeIndex<K, V>,
    pub(crate) log: LogPair<D>,
    // The records of the writes since the last commit.
    pub(crate) batch: Vec<u8>,
}

// Written out for the reason that the drop of a tree is.
impl<K: StoreKey, V: Encode, D: Disk + Drop> Drop for TreeStore<K, V, D> {
    fn drop(self) {
        let TreeStore { index, log, batch } = self;
        drop(index);
        drop(log);
        drop(batch);
    }
}

impl<K: StoreKey, V: Encode, D: Disk> Model for TreeStore<K, V, D> {
    ghost use Rattle.store_codec.specs.Records.{record_at};
    ghost use Rattle.tree_store.specs.Store.{Store, store_of, IsStore};

    ghost Value = { Store K V D };

    ghost view = { λ s. store_of s.index.pairs s.log };

    ghost invariant = { λ s. IsStore K.cmp K.seen V.seen (record_at K.value_at V.value_at) (K.kind_number, V.kind_number) D.is_clean D.may_leave s.log s.batch.items s.index.pairs };
}

impl<K: StoreKey, V: Encode, D: Disk> TreeStore<K, V, D> {
    /// Opens the store in files that a crash may have left.
    ///
    /// Returns `Err` with the files if no store of these keys and values is in them, or if they are
    /// damaged. Then no byte has changed, unless a batch is `Unreadable`. Returns `Err` too if a
    /// file can't be read, if it cannot allocate, or if what a crash left can't be repaired. Then
    /// the files have the batches that they had.
    ///
    /// Reads the file once, and replays its batches. Allocates the length of the file too.
    pub fn open(alloc: Global, files: Files<D>) -> Result<Self, (OpenError, Files<D>)>
        requires usable { AreUsable D.is_usable files }

        // After a restart, what is read is what is on the disk.
        requires settled { AreSettled D.seen D.may_leave files }

        // The pairs are what the files stand for, and what a crash leaves stands for.
        ensures opened { IfOk result (λ store. AreClean D.is_clean store.saved.files →
            StandFor K.cmp K.seen V.seen (record_at K.value_at V.value_at) (K.kind_number, V.kind_number) (held_in D.seen files) store.pairs) }
        ensures saved { IfOk result (λ store. AreClean D.is_clean store.saved.files →
            HasSaved K.cmp K.seen V.seen (record_at K.value_at V.value_at) store.saved store.pairs) }
        ensures leaves { IfOk result (λ store. AreClean D.is_clean store.saved.files →
            Leave K.cmp K.seen V.seen (record_at K.value_at V.value_at) (K.kind_number, V.kind_number) D.may_leave store.saved.files store.pairs) }
        ensures runs { IfOk result (λ store. store.saved.stopped ≡ false) }
        ensures clean { IfOk result (λ store. AreClean D.is_clean store.saved.files → AreClean D.is_clean files) }
        ensures clean_err { IfErr result (λ e. AreClean D.is_clean e.1 → AreClean D.is_clean files) }

        // Files that stand for some pairs are not refused, and most refusals change nothing.
        ensures sound { IfErr result (λ e. AreClean D.is_clean e.1 → Refuses e.0 → (pairs : List (K × V)) →
            StandFor K.cmp K.seen V.seen (record_at K.value_at V.value_at) (K.kind_number, V.kind_number) (held_in D.seen files) pairs → ⊥) }
        ensures untouched { IfErr result (λ e. RefusesAtOnce e.0 → AreUntouched D.seen D.may_leave files e.1) }
        ensures usable { IfErr result (λ e. RefusesAtOnce e.0 → AreUsable D.is_usable e.1) }
        ensures blank { IfErr result (λ e. AreClean D.is_clean e.1 → e.0 ≡ OpenError.Log Blank → AreBlank (held_in D.seen files)) }

        // After any error a crash leaves what the files stood for.
        ensures crash { IfErr result (λ e. AreClean D.is_clean e.1 → (pairs : List (K × V)) →
            StandFor K.cmp K.seen V.seen (record_at K.value_at V.value_at) (K.kind_number, V.kind_number) (held_in D.seen files) pairs →
            Leave K.cmp K.seen V.seen (record_at K.value_at V.value_at) (K.kind_number, V.kind_number) D.may_leave e.1 pairs) }
    {
        let (log, bytes) = match LogPair::open(alloc, files, (K::kind(), V::kind())) {
            Ok(opened) => opened,
            Err((error, files)) => return Err((OpenError::Log(error), files)),
        };
        match replayed(alloc, &bytes) {
            Ok(index) => Ok(TreeStore {
                index,
                log,
                batch: Vec::new(alloc),
            }),
            Err(ReplayError::Memory) => Err((OpenError::Memory, log.into_files())),
            Err(ReplayError::Unreadable) => Err((OpenError::Unreadable, log.into_files())),
        }
    }

    /// Makes a store without a pair in blank files: files that are empty, or that a crash left
    /// while a store was made. Batches are sealed under a key, which should be random.
    ///
    /// Returns `Err` with the files, and changes no byte, if they are not blank. Returns `Err` too
    /// if the disk fails or if it cannot allocate. Then the files are blank, or have a store
    /// without a pair.
    ///
    /// Writes a head of 55 bytes in a few steps, and syncs after each. Allocates the head.
    pub fn make(alloc: Global, files: Files<D>, key: u64) -> Result<Self, (OpenError, Files<D>)>
        requires usable { AreUsable D.is_usable files }
        requires settled { AreSettled D.seen D.may_leave files }
        ensures pairs { IfOk result (λ store. store.pairs ≡ []) }
        ensures saved { IfOk result (λ store. AreClean D.is_clean store.saved.files →
            HasSaved K.cmp K.seen V.seen (record_at K.value_at V.value_at) store.saved []) }
        ensures leaves { IfOk result (λ store. AreClean D.is_clean store.saved.files →
            Leave K.cmp K.seen V.seen (record_at K.value_at V.value_at) (K.kind_number, V.kind_number) D.may_leave store.saved.files []) }
        ensures runs { IfOk result (λ store. store.saved.stopped ≡ false) }
        ensures blank { IfOk result (λ store. AreClean D.is_clean store.saved.files → AreBlank (held_in D.seen files)) }
        ensures head { IfOk result (λ store. store.saved.head ≡ new_head K.kind_number V.kind_number key) }
        ensures occupied { IfErr result (λ e. AreClean D.is_clean e.1 → Refuses e.0 → AreBlank (held_in D.seen files) → ⊥) }

        // After any error files that were not blank are as they were.
        ensures kept { IfErr result (λ e. AreClean D.is_clean e.1 → (AreBlank (held_in D.seen files) → ⊥) → AreUntouched D.seen D.may_leave files e.1) }
        ensures untouched { IfErr result (λ e. Refuses e.0 → AreUntouched D.seen D.may_leave files e.1) }
        ensures crash { IfErr result (λ e. AreClean D.is_clean e.1 → AreBlank (held_in D.seen files) → (left : Held) → MayHold D.may_leave e.1 left → AreFresh left) }
    {
        let head = Head {
            kind_of_keys: K::kind(),
            kind_of_values: V::kind(),
            generation: 1,
            key,
        };
        match LogPair::make(alloc, files, head) {
            Ok(log) => Ok(TreeStore {
                index: TreeIndex::new(alloc),
                log,
                batch: Vec::new(alloc),
            }),
            Err((error, files)) => Err((OpenError::Log(error), files)),
        }
    }

    /// Makes the writes since the last commit durable, all or none. Does nothing if there are none.
    ///
    /// Returns `Err` if the batch is too long, if it cannot allocate, or if the disk fails. Then
    /// the store is stopped, or a crash leaves the pairs of the last commit and the call may be
    /// repeated. If the store was stopped already, returns `Err` and changes nothing.
    ///
    /// Writes the records once, and syncs once if a crash leaves each byte of a torn write old or
    /// new, and twice otherwise. Allocates a copy of the records.
    pub fn commit(&mut self) -> Result<(), LogError>
        ensures saved { OnOk result (AreClean D.is_clean self.new.saved.files →
            HasSaved K.cmp K.seen V.seen (record_at K.value_at V.value_at) self.new.saved self.old.pairs) }
        ensures leaves { OnOk result (AreClean D.is_clean self.new.saved.files →
            Leave K.cmp K.seen V.seen (record_at K.value_at V.value_at) (K.kind_number, V.kind_number) D.may_leave self.new.saved.files self.old.pairs) }
        ensures runs { OnOk result (self.new.saved.stopped ≡ false) }

        // A crash leaves the pairs of the last commit, or those of now.
        ensures crash { AreClean D.is_clean self.new.saved.files → self.old.saved.stopped ≡ false → (durable : List (K × V)) →
            HasSaved K.cmp K.seen V.seen (record_at K.value_at V.value_at) self.old.saved durable → (left : Held) → MayHold D.may_leave self.new.saved.files left →
            StandFor K.cmp K.seen V.seen (record_at K.value_at V.value_at) (K.kind_number, V.kind_number) left durable
            ⊎ StandFor K.cmp K.seen V.seen (record_at K.value_at V.value_at) (K.kind_number, V.kind_number) left self.old.pairs }

        // After an error the store is stopped, or a crash leaves the pairs of the last commit.
        ensures refused { OnErr result ((self.new.saved.stopped ≡ true) ⊎ (AreClean D.is_clean self.new.saved.files → (durable : List (K × V)) →
            HasSaved K.cmp K.seen V.seen (record_at K.value_at V.value_at) self.old.saved durable →
            HasSaved K.cmp K.seen V.seen (record_at K.value_at V.value_at) self.new.saved durable
            × Leave K.cmp K.seen V.seen (record_at K.value_at V.value_at) (K.kind_number, V.kind_number) D.may_leave self.new.saved.files durable)) }
        ensures cause { IfErr result (λ e. CausedBy e (HaveFailed D.faults self.old.saved.files self.new.saved.files) (self.new ≡ self.old)) }
        ensures stopped { self.old.saved.stopped ≡ true → IsErrOf result LogError.Stopped × (self.new ≡ self.old) }
        ensures pairs { self.new.pairs ≡ self.old.pairs }
        ensures head { self.new.saved.head ≡ self.old.saved.head }
        ensures clean { AreClean D.is_clean self.new.saved.files → AreClean D.is_clean self.old.saved.files }
    {
        if self.log.is_stopped() {
            return Err(LogError::Stopped);
        }
        if self.batch.is_empty() {
            return Ok(());
        }
        match self.log.append(&self.batch) {
            Ok(()) => {
                self.batch.clear();
                Ok(())
            }
            Err(error) => Err(error),
        }
    }

    /// Writes the pairs into the other file, under the next generation, and goes on there. So the
    /// file has no more than they need, and what was not committed is committed. A crash leaves the
    /// pairs of the last commit, or those of now.
    ///
    /// Returns `Err` if there are too many pairs for one batch, if it cannot allocate, or if the
    /// disk fails. Then the store is stopped, or a crash leaves the pairs of the last commit and
    /// the store goes on. If the store was stopped already, returns `Err` and changes nothing.
    ///
    /// Walks over the pairs once, writes each once, and syncs at most eight times. Allocates the
    /// records of all pairs twice.
    pub fn compact(&mut self, alloc: Global) -> Result<(), LogError>
        ensures saved { OnOk result (AreClean D.is_clean self.new.saved.files →
            HasSaved K.cmp K.seen V.seen (record_at K.value_at V.value_at) self.new.saved self.old.pairs) }
        ensures leaves { OnOk result (AreClean D.is_clean self.new.saved.files →
            Leave K.cmp K.seen V.seen (record_at K.value_at V.value_at) (K.kind_number, V.kind_number) D.may_leave self.new.saved.files self.old.pairs) }
        ensures runs { OnOk result (self.new.saved.stopped ≡ false) }

        // A crash leaves the pairs of the last commit, or those of now.
        ensures crash { AreClean D.is_clean self.new.saved.files → self.old.saved.stopped ≡ false → (durable : List (K × V)) →
            HasSaved K.cmp K.seen V.seen (record_at K.value_at V.value_at) self.old.saved durable → (left : Held) → MayHold D.may_leave self.new.saved.files left →
            StandFor K.cmp K.seen V.seen (record_at K.value_at V.value_at) (K.kind_number, V.kind_number) left durable
            ⊎ StandFor K.cmp K.seen V.seen (record_at K.value_at V.value_at) (K.kind_number, V.kind_number) left self.old.pairs }

        // After an error the store is stopped, or a crash leaves the pairs of the last commit.
        ensures refused { OnErr result ((self.new.saved.stopped ≡ true) ⊎ (AreClean D.is_clean self.new.saved.files → (durable : List (K × V)) →
            HasSaved K.cmp K.seen V.seen (record_at K.value_at V.value_at) self.old.saved durable →
            HasSaved K.cmp K.seen V.seen (record_at K.value_at V.value_at) self.new.saved durable
            × Leave K.cmp K.seen V.seen (record_at K.value_at V.value_at) (K.kind_number, V.kind_number) D.may_leave self.new.saved.files durable)) }
        ensures cause { IfErr result (λ e. CausedBy e (Unit {0}) (self.new ≡ self.old)) }
        ensures stopped { self.old.saved.stopped ≡ true → IsErrOf result LogError.Stopped × (self.new ≡ self.old) }
        ensures pairs { self.new.pairs ≡ self.old.pairs }
        ensures turned { OnOk result (self.new.saved.head ≡ next_head self.old.saved.head) }
        ensures same { OnErr result (self.new.saved.head ≡ self.old.saved.head) }
        ensures clean { AreClean D.is_clean self.new.saved.files → AreClean D.is_clean self.old.saved.files }
    {
        if self.log.is_stopped() {
            return Err(LogError::Stopped);
        }
        let text = all_records(alloc, &self.index)?;
        match self.log.rewrite(&text) {
            Ok(()) => {
                self.batch.clear();
                Ok(())
            }
            Err(error) => Err(error),
        }
    }

    /// Reads the file that counts again, and tests its head and each seal. Returns how many bytes
    /// were tested.
    ///
    /// Returns `Err` if the file is damaged, if it can't be read, if it cannot allocate, or if the
    /// store is stopped. The pairs stay as they are. Allocates the length of the file.
    pub fn verify(&mut self) -> Result<usize, OpenError>
        ensures sound { IfErr result (λ e. Refuses e → AreClean D.is_clean self.new.saved.files → ⊥) }
        ensures pairs { self.new.pairs ≡ self.old.pairs }
        ensures head { self.new.saved.head ≡ self.old.saved.head }
        ensures texts { self.new.saved.texts ≡ self.old.saved.texts }
        ensures stopped { self.new.saved.stopped ≡ self.old.saved.stopped }
        ensures no_more { (left : Held) → MayHold D.may_leave self.new.saved.files left → MayHold D.may_leave self.old.saved.files left }
        ensures clean { AreClean D.is_clean self.new.saved.files → AreClean D.is_clean self.old.saved.files }
    {
        match self.log.verify() {
            Ok(end) => Ok(end),
            Err(error) => Err(OpenError::Log(error)),
        }
    }

    /// Returns how many bytes the records have that were not committed. Runs in constant time.
    pub fn pending(&self) -> usize
        ensures { result ≡ 0 → AreClean D.is_clean self.now.saved.files → self.now.saved.stopped ≡ false →
            HasSaved K.cmp K.seen V.seen (record_at K.value_at V.value_at) self.now.saved self.now.pairs }
    {
        self.batch.len()
    }

    /// Forgets the writes since the last commit: the pairs are those of the last commit again.
    ///
    /// Returns `Err`, and keeps all pairs, if a file can't be read, if it cannot allocate, or if
    /// the store is stopped. Reads the file once, and replays its batches.
    pub fn roll_back(&mut self, alloc: Global) -> Result<(), OpenError>
        ensures rolled { OnOk result (AreClean D.is_clean self.new.saved.files →
            HasSaved K.cmp K.seen V.seen (record_at K.value_at V.value_at) self.new.saved self.new.pairs) }
        ensures refused { OnErr result (self.new.pairs ≡ self.old.pairs) }
        ensures saved { (durable : List (K × V)) → HasSaved K.cmp K.seen V.seen (record_at K.value_at V.value_at) self.old.saved durable →
            HasSaved K.cmp K.seen V.seen (record_at K.value_at V.value_at) self.new.saved durable }
        ensures no_more { (left : Held) → MayHold D.may_leave self.new.saved.files left → MayHold D.may_leave self.old.saved.files left }
        ensures stopped { self.new.saved.stopped ≡ self.old.saved.stopped }
        ensures head { self.new.saved.head ≡ self.old.saved.head }
        ensures clean { AreClean D.is_clean self.new.saved.files → AreClean D.is_clean self.old.saved.files }
    {
        let bytes = match self.log.read() {
            Ok(bytes) => bytes,
            Err(error) => return Err(OpenError::Log(store_log::OpenError::Log(error))),
        };
        match replayed(alloc, &bytes) {
            Ok(index) => {
                self.index = index;
                self.batch.clear();
                Ok(())
            }
            Err(ReplayError::Memory) => Err(OpenError::Memory),
            Err(ReplayError::Unreadable) => Err(OpenError::Unreadable),
        }
    }

    /// Lends the index: look-ups, cursors, nearest keys and ranges. Runs in constant time.
    pub fn index(&self) -> &TreeIndex<K, V>
        ensures { result.now.pairs ≡ self.now.pairs }
    {
        &self.index
    }

    /// Returns the head of the files. Runs in constant time.
    pub fn head(&self) -> Head
        ensures { result ≡ self.now.saved.head }
    {
        self.log.head()
    }

    /// Returns whether an earlier write or sync failed. Runs in constant time.
    pub fn is_stopped(&self) -> bool
        ensures { result ≡ self.now.saved.stopped }
    {
        self.log.is_stopped()
    }

    /// Returns how many bytes of the file that counts are in use. Runs in constant time.
    pub fn size(&self) -> usize
        ensures { AreClean D.is_clean self.now.saved.files → self.now.saved.stopped ≡ false → AreUsed (held_in D.seen self.now.saved.files) result }
    {
        self.log.end()
    }

    /// Returns the files. Writes that were not committed are lost.
    pub fn into_files(self) -> Files<D>
        ensures { result ≡ self.saved.files }
    {
        let TreeStore { index, log, batch } = self;
        drop(index);
        drop(batch);
        log.into_files()
    }
}
