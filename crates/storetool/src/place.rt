//! Opens the files of a store, each by its own handle and under a lock.
ghost use Rattle.std.specs.Prelude.{true, false, IsTrue, IfOk};
ghost use Rattle.sqlite_std_file.specs.File.{file_is_usable, IsFresh};

use crate::failure::Failure;
use sqlite_disk::Start;
use sqlite_std_file::{FileFrom, OpenError};
use std::{fs, io};

/// The two files.
pub type Pair<S> = sqlite_disk::Files<FileFrom<S>>;

/// Opens the files of a store, and makes those that are missing. The folder is synced then.
///
/// Returns `Err` if the file is missing and isn't to be made, if it is a folder or something else
/// that isn't a plain file, if another process has it open, or if the system refuses it.
pub fn open_files<S: Start>(
    rt: &HostRuntime,
    path: &str,
    start: S,
    makes: bool,
) -> Result<Pair<S>, Failure>
    ensures log { IfOk result (λ files. IsTrue (file_is_usable S.Start files.log)) }
    ensures db { IfOk result (λ files. IsTrue (file_is_usable S.Start files.db)) }
    ensures fresh { IfOk result (λ files. IsFresh true files.log × IsFresh false files.db) }
{
    look_at(rt, path, makes)?;
    match sqlite_std_file::open(rt, path, start) {
        Ok(files) => Ok(files),
        Err(OpenError::Busy) => Err(Failure::Busy),
        Err(OpenError::OutOfMemory) => Err(Failure::NoMemory),
        Err(OpenError::HotJournal) => Err(Failure::HasJournal),
        Err(OpenError::Io(error)) => Err(failure_of(error)),
    }
}

// Looks at what has the name, before anything is made.
fn look_at(rt: &HostRuntime, path: &str, makes: bool) -> Result<(), Failure> {
    match fs::metadata(rt, path) {
        Ok(found) if found.is_dir() => Err(Failure::IsFolder),
        Ok(found) if !found.is_file() => Err(Failure::NotPlain),
        Ok(_) => Ok(()),
        Err(error) if error.kind() == io::ErrorKind::NotFound => {
            if makes { Ok(()) } else { Err(Failure::NoFile) }
        }
        Err(error) => Err(failure_of(error)),
    }
}

// Returns the failure of an opening by its error.
fn failure_of(error: io::Error) -> Failure {
    match error.kind() {
        io::ErrorKind::IsADirectory => Failure::IsFolder,
        io::ErrorKind::Unsupported => Failure::NotPlain,
        io::ErrorKind::OutOfMemory => Failure::NoMemory,
        _ => Failure::Open(error),
    }
}
