//! Why the program ends with a status above 0, and what its user can do then.
ghost use Rattle.std.specs.Prelude.{◌≡◌};
ghost use Rattle.storetool.specs.Failures.{status_of};

use std::alloc::{AllocError, AllocFailed};
use std::{fmt, io};
use store_log::LogError;
use tree_store::OpenError;

/// Why the program ended before it was done.
#[derive(Clone, Copy, Debug)]
pub enum Failure {
    /// The input can't be read.
    Input,
    /// The output can't be written.
    Output,
    /// This line of a `load` isn't a pair. Those before it are stored.
    BadLine(u64),
    /// A commit failed, or a sync behind it.
    Commit(LogError),
    /// An allocation failed while lines were answered.
    Memory,
    /// An allocation failed before a file was opened.
    NoMemory,
    /// Another process has the file open.
    Busy,
    /// The file is missing.
    NoFile,
    /// The file can't be opened.
    Open(io::Error),
    /// What is at the file's name, or at that of its second file, is a folder.
    IsFolder,
    /// What is there is no file with one name.
    NotPlain,
    /// The store in the file can't be opened.
    Store(OpenError),
    /// Another program's journal is beside the file.
    HasJournal,
}

impl Failure {
    /// Returns the exit status.
    pub fn status(&self) -> u8
        ensures { result ≡ status_of self.now }
    {
        match self {
            Failure::Input | Failure::Output | Failure::BadLine(_) => 2,
            Failure::Commit(_) | Failure::Memory => 3,
            Failure::NoMemory
            | Failure::Busy
            | Failure::NoFile
            | Failure::Open(_)
            | Failure::IsFolder
            | Failure::NotPlain
            | Failure::Store(OpenError::Memory)
            | Failure::Store(OpenError::Log(store_log::OpenError::Log(_))) => 4,
            Failure::Store(_) | Failure::HasJournal => 5,
        }
    }
}

impl From<AllocError> for Failure {
    fn from(_: AllocError) -> Failure {
        Failure::Memory
    }
}

impl<T: Drop> From<AllocFailed<T>> for Failure {
    fn from(_: AllocFailed<T>) -> Failure {
        Failure::Memory
    }
}

impl From<LogError> for Failure {
    fn from(error: LogError) -> Failure {
        Failure::Commit(error)
    }
}

impl fmt::Display for Failure {
    fn fmt<W: fmt::Write>(&self, f: &mut fmt::Formatter<W>) -> fmt::Result {
        match self {
            Failure::Input => write!(
                f,
                "the input can't be read: what was answered is stored, see to where it comes from"
            ),
            Failure::Output => write!(
                f,
                "the output can't be written: what was answered is stored, see to where it goes"
            ),
            Failure::BadLine(line) => write!(
                f,
                "line {line} isn't a pair: the lines before it are stored, mend it and load the rest"
            ),
            Failure::Commit(error) => fmt_commit(*error, f),
            Failure::Memory => write!(
                f,
                "out of memory: what was answered is stored, end other programs and go on"
            ),
            Failure::NoMemory => write!(f, "out of memory: end other programs first"),
            Failure::Busy => write!(f, "another process has it open: end that one first"),
            Failure::NoFile => write!(f, "there is no such file: see to its name"),
            Failure::Open(error) => fmt_open(*error, f),
            Failure::IsFolder => write!(f, "it is a folder: name a file"),
            Failure::NotPlain => write!(
                f,
                "it isn't a plain file with one name: name another, or take away its other names"
            ),
            Failure::Store(error) => fmt_store(*error, f),
            Failure::HasJournal => write!(
                f,
                "it isn't a store, or a journal of SQLite has its name and -journal: move that away"
            ),
        }
    }
}

// Writes why a commit failed.
fn fmt_commit<W: fmt::Write>(error: LogError, f: &mut fmt::Formatter<W>) -> fmt::Result {
    match error {
        LogError::Io(error) if is_full(error.kind()) => write!(
            f,
            "the disk is full: what was answered is stored, make room and go on"
        ),
        LogError::Io(error) if error.kind() == io::ErrorKind::FileTooLarge => write!(
            f,
            "the limit on a file's size is reached: what was answered is stored, raise it and go on"
        ),
        LogError::Io(error) => write!(
            f,
            "the disk failed ({error}): what was answered is stored, verify the file"
        ),
        LogError::Memory => write!(
            f,
            "out of memory: what was answered is stored, end other programs and go on"
        ),
        LogError::TooLong => write!(f, "too many writes in one commit: send fewer lines at once"),
        LogError::Stopped => write!(f, "an earlier write failed: open the file again"),
    }
}

// Returns whether an error of this kind says that there is no room.
fn is_full(kind: io::ErrorKind) -> bool {
    matches!(
        kind,
        io::ErrorKind::StorageFull | io::ErrorKind::QuotaExceeded
    )
}

// Writes why a file couldn't be opened.
fn fmt_open<W: fmt::Write>(error: io::Error, f: &mut fmt::Formatter<W>) -> fmt::Result {
    match error.kind() {
        io::ErrorKind::NotFound | io::ErrorKind::NotADirectory => {
            write!(f, "there is no such folder: make it first")
        }
        io::ErrorKind::PermissionDenied => {
            write!(f, "permission denied: it has to be readable and writable")
        }
        io::ErrorKind::ReadOnlyFilesystem => {
            write!(f, "its file system is read-only: name a file elsewhere")
        }
        io::ErrorKind::StorageFull | io::ErrorKind::QuotaExceeded => {
            write!(f, "the disk is full: make room first")
        }
        _ => write!(f, "it can't be opened ({error}): see to the file"),
    }
}

// Writes why the store in a file couldn't be opened.
fn fmt_store<W: fmt::Write>(error: OpenError, f: &mut fmt::Formatter<W>) -> fmt::Result {
    match error {
        OpenError::Memory => write!(f, "out of memory: end other programs first"),
        OpenError::Unreadable => write!(f, "it is damaged: restore a copy"),
        OpenError::Log(error) => match error {
            store_log::OpenError::NoHead | store_log::OpenError::Occupied => write!(
                f,
                "it or its -wal file is no store's, or damaged in its first bytes: nothing was \
                 changed, name another"
            ),
            store_log::OpenError::Blank => write!(f, "it has no store: nothing was changed"),
            store_log::OpenError::OtherKinds => write!(
                f,
                "its keys or values are of another type: nothing was changed, name another"
            ),
            store_log::OpenError::Damaged(at) | store_log::OpenError::Lost(at) => write!(
                f,
                "it is damaged from byte {at} on: nothing was changed, restore a copy"
            ),
            store_log::OpenError::Log(LogError::Memory) => {
                write!(f, "out of memory: end other programs first")
            }
            store_log::OpenError::Log(LogError::Io(error)) if is_full(error.kind()) => {
                write!(f, "the disk is full: make room first")
            }
            store_log::OpenError::Log(LogError::Io(error))
                if error.kind() == io::ErrorKind::FileTooLarge => {
                write!(f, "the limit on a file's size is too low: raise it first")
            }
            store_log::OpenError::Log(LogError::Io(error)) => {
                write!(f, "it can't be read or mended ({error}): see to the disk")
            }
            store_log::OpenError::Log(_) => write!(f, "it can't be mended: see to the disk"),
        },
    }
}
