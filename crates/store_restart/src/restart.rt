//! Restarts.
ghost use Rattle.std.specs.Prelude.{◌≡◌, List, IfOk, IfErr, IsTrue, OnOk};
ghost use Rattle.sqlite_disk.specs.Disk.{Only};
ghost use Rattle.sqlite_disk.specs.Fuse.{inner_of};
ghost use Rattle.store_codec.specs.Records.{record_at};
ghost use Rattle.store_pair.specs.Pair.{AreClean, AreSettled, AreUsable, Held, MayHold, held_in};
ghost use Rattle.store_restart.specs.Fronts.{IsAfterFront};
ghost use Rattle.tree_store.specs.Refusal.{Refuses};
ghost use Rattle.tree_store.specs.Store.{StandFor};

use crate::{Batch, Reached, leaves_a_front};
use sqlite_disk::{Crash, Disk, Fuse};
use std::alloc::Global;
use std::io;
use store_codec::{Encode, StoreKey};
use tree_store::{Files, LogError, OpenError, TreeStore};

/// Opens a store and makes batches as [`leaves_a_front`] does. Then the machine stops and starts
/// again, and the files are opened once more. Returns how far the run came, and what the second
/// opening returned.
///
/// The pairs that are found are those after a front of the batches, which has each batch whose
/// commit returned `Ok`. They are found if the files are clean (`is_clean`), and known as keys and
/// values are seen.
///
/// Returns `Err` only if the disk failed or if it cannot allocate, since files that stood for some
/// pairs are not refused. The files can be opened again.
pub fn finds_a_front<K: StoreKey, V: Encode, D: Crash>(
    alloc: Global,
    files: Files<D>,
    batches: Vec<Batch<K, V>>,
) -> (Reached, Result<TreeStore<K, V, D>, (OpenError, Files<D>)>)
    requires usable { AreUsable D.Disk.is_usable files }
    requires settled { AreSettled D.Disk.seen D.Disk.may_leave files }
    ensures found { IfOk result.1 (λ store. AreClean D.Disk.is_clean store.saved.files → (pairs : List (K × V)) →
        StandFor K.cmp K.seen V.seen (record_at K.value_at V.value_at) (K.kind_number, V.kind_number) (held_in D.Disk.seen files) pairs →
        IsAfterFront K.cmp K.seen V.seen result.0 batches.items pairs store.pairs) }
    ensures sound { IfErr result.1 (λ e. AreClean D.Disk.is_clean e.1 → Refuses e.0 → (pairs : List (K × V)) →
        StandFor K.cmp K.seen V.seen (record_at K.value_at V.value_at) (K.kind_number, V.kind_number) (held_in D.Disk.seen files) pairs → ⊥) }
{
    match TreeStore::open(alloc, files) {
        Ok(mut store) => {
            let reached = leaves_a_front(alloc, &mut store, batches);
            (reached, restart(alloc, store.into_files()))
        }
        Err((_, files)) => {
            let reached = Reached {
                made: 0,
                durable: 0,
            };
            (reached, restart(alloc, files))
        }
    }
}

/// Does so on a machine that stops after so many calls of each file: all later ones fail, and
/// change nothing.
///
/// A machine that stops makes no call of either file any more. So each moment at which it may stop,
/// in the first opening, a commit or a compaction, is a pair of such numbers, where the last call
/// may have been torn. That such a machine is a disk whose calls fail is argued and not proved. So
/// is that a real file meets the contract of `Disk`. A store that is being made is not covered.
pub fn stops_and_restarts<K: StoreKey, V: Encode, D: Crash>(
    alloc: Global,
    files: Files<D>,
    calls: (u64, u64),
    batches: Vec<Batch<K, V>>,
) -> (
    Reached,
    Result<TreeStore<K, V, Fuse<D>>, (OpenError, Files<Fuse<D>>)>,
)
    requires usable { AreUsable D.Disk.is_usable files }
    requires settled { AreSettled D.Disk.seen D.Disk.may_leave files }
    ensures found { IfOk result.1 (λ store. AreClean (λ f. D.Disk.is_clean (inner_of f)) store.saved.files → (pairs : List (K × V)) →
        StandFor K.cmp K.seen V.seen (record_at K.value_at V.value_at) (K.kind_number, V.kind_number) (held_in D.Disk.seen files) pairs →
        IsAfterFront K.cmp K.seen V.seen result.0 batches.items pairs store.pairs) }
    ensures sound { IfErr result.1 (λ e. AreClean (λ f. D.Disk.is_clean (inner_of f)) e.1 → Refuses e.0 → (pairs : List (K × V)) →
        StandFor K.cmp K.seen V.seen (record_at K.value_at V.value_at) (K.kind_number, V.kind_number) (held_in D.Disk.seen files) pairs → ⊥) }
{
    let Files { first, second } = files;
    let files = Files {
        first: Fuse::new(first, calls.0),
        second: Fuse::new(second, calls.1),
    };
    finds_a_front(alloc, files, batches)
}

// Stops the machine, starts it again, and opens what a crash left.
fn restart<K: StoreKey, V: Encode, D: Crash>(
    alloc: Global,
    mut files: Files<D>,
) -> Result<TreeStore<K, V, D>, (OpenError, Files<D>)>
    ensures found { IfOk result (λ store. AreClean D.Disk.is_clean store.saved.files →
        (held : Held) × MayHold D.Disk.may_leave files held
        × StandFor K.cmp K.seen V.seen (record_at K.value_at V.value_at) (K.kind_number, V.kind_number) held store.pairs) }
    ensures sound { IfErr result (λ e. AreClean D.Disk.is_clean e.1 → Refuses e.0 →
        (held : Held) × MayHold D.Disk.may_leave files held
        × ((pairs : List (K × V)) → StandFor K.cmp K.seen V.seen (record_at K.value_at V.value_at) (K.kind_number, V.kind_number) held pairs → ⊥)) }
    ensures clean { IfOk result (λ store. AreClean D.Disk.is_clean store.saved.files → AreClean D.Disk.is_clean files) }
    ensures clean_err { IfErr result (λ e. AreClean D.Disk.is_clean e.1 → AreClean D.Disk.is_clean files) }
{
    match stop_both(&mut files) {
        Ok(()) => TreeStore::open(alloc, files),
        Err(error) => Err((failed(error), files)),
    }
}

// Stops a machine with two files, and starts it again.
fn stop_both<D: Crash>(files: &mut Files<D>) -> io::Result<()>
    ensures left { OnOk result (MayHold D.Disk.may_leave files.old (held_in D.Disk.seen files.new)) }
    ensures settled { OnOk result (AreSettled D.Disk.seen D.Disk.may_leave files.new) }
    ensures usable { OnOk result (AreUsable D.Disk.is_usable files.new) }
    ensures clean { AreClean D.Disk.is_clean files.new → AreClean D.Disk.is_clean files.old }
{
    stop(&mut files.first)?;
    stop(&mut files.second)
}

// Stops a machine with this file, and starts it again. All that is left is on the disk then.
fn stop<D: Crash>(disk: &mut D) -> io::Result<()>
    ensures left { D.Disk.may_leave disk.old (D.Disk.seen disk.new) }
    ensures settled { OnOk result (Only (D.Disk.seen disk.new) (D.Disk.may_leave disk.new)) }
    ensures usable { OnOk result (IsTrue (D.Disk.is_usable disk.new)) }
    ensures clean { IsTrue (D.Disk.is_clean disk.new) → IsTrue (D.Disk.is_clean disk.old) }
{
    disk.crash();
    disk.sync()
}

// The error of an opening whose disk failed.
fn failed(error: io::Error) -> OpenError
    ensures { Refuses result → ⊥ }
{
    OpenError::Log(store_log::OpenError::Log(LogError::Io(error)))
}
