//! Opens the store in a pair of files, or in a copy of them.
ghost use Rattle.std.specs.Prelude.{◌≡◌, ◌⊎◌, [], IfOk};
ghost use Rattle.storetool.specs.Durable.{IsDurable, Stands};
ghost use Rattle.store_pair.specs.Pair.{AreBlank, AreClean, AreSettled, AreUsable, held_in};

use crate::failure::Failure;
use crate::image::{read_whole, settled_with};
use crate::limited::Limited;
use crate::place::Pair;
use crate::verify::Progress;
use sqlite_disk::{Disk, Memory, Start};
use sqlite_std_file::FileFrom;
use std::alloc::Global;
use tree_store::{Files, OpenError, TreeStore};

/// A store of numbers.
pub type Store<D> = TreeStore<u64, u64, D>;

/// The files of a store at a place.
pub type Placed<S> = Files<Limited<FileFrom<S>>>;

/// Returns the files of a place as those of a store, which no write makes longer than this.
pub fn files_of<S: Start>(pair: Pair<S>, limit: usize) -> Placed<S>
    ensures first { result.first.inner ≡ pair.db }
    ensures second { result.second.inner ≡ pair.log }
{
    Files {
        first: Limited::new(pair.db, limit),
        second: Limited::new(pair.log, limit),
    }
}

/// Opens the store in files, or makes one if they are blank.
///
/// Returns `Err` if they have no store of numbers, if they are damaged, or if they can't be read or
/// mended.
pub fn opened<D: Disk + Drop>(alloc: Global, files: Files<D>) -> Result<Store<D>, Failure>
    requires usable { AreUsable D.is_usable files }
    requires settled { AreSettled D.seen D.may_leave files }
    ensures durable { IfOk result (λ store. IsDurable D.is_clean D.may_leave store.saved store.pairs) }
    ensures opened { IfOk result (λ store. AreClean D.is_clean store.saved.files →
        Stands (held_in D.seen files) store.pairs ⊎ (AreBlank (held_in D.seen files) × (store.pairs ≡ []))) }
{
    match TreeStore::open(alloc, files) {
        Ok(store) => Ok(store),
        Err((OpenError::Log(store_log::OpenError::Blank), files)) => {
            let key = files.first.key();
            match TreeStore::make(alloc, files, key) {
                Ok(store) => Ok(store),
                Err((error, _)) => Err(Failure::Store(error)),
            }
        }
        Err((error, _)) => Err(Failure::Store(error)),
    }
}

/// Opens a copy of files in memory, and tells the progress. What a crash left is mended in the copy
/// alone.
///
/// Returns `Err` if a file can't be read, and as [`opened`] does.
pub fn copied<D: Disk>(
    rt: &HostRuntime,
    files: &mut Files<D>,
    progress: &mut Progress,
) -> Result<Store<Memory>, Failure> {
    let mut other = *progress;
    let bytes = read_whole(rt, &mut files.first, progress)?;
    let first = settled_with(Memory::new(rt.alloc()), &bytes)?;
    let bytes = read_whole(rt, &mut files.second, &mut other)?;
    let second = settled_with(Memory::new(rt.alloc()), &bytes)?;
    progress.add(&other);
    opened(rt.alloc(), Files { first, second })
}
