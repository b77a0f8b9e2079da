//! Why a call of a log failed.
ghost use Rattle.std.specs.Prelude.{◌≡◌};

use std::alloc::{AllocError, AllocFailed};
use std::error::Error;
use std::{fmt, io};

/// Why a text could not be appended.
#[derive(Clone, Copy, Debug)]
pub enum LogError {
    /// The disk failed, or is full: the kind of the error says which.
    Io(io::Error),
    /// An allocation failed. Nothing was written.
    Memory,
    /// The text is too long, or the file is full. Nothing was written.
    TooLong,
    /// An earlier write or sync failed. The caller must open the file again.
    Stopped,
}

impl From<io::Error> for LogError {
    ghost use Rattle.store_log.specs.declared.error.LogError.TheVariants.{Io};

    ghost from_gives = { λ e error. error ≡ Io e };

    fn from(error: io::Error) -> LogError {
        LogError::Io(error)
    }
}

impl From<AllocError> for LogError {
    ghost use Rattle.store_log.specs.declared.error.LogError.TheVariants.{Memory};

    ghost from_gives = { λ _ error. error ≡ Memory };

    fn from(_: AllocError) -> LogError {
        LogError::Memory
    }
}

impl<T: Drop> From<AllocFailed<T>> for LogError {
    ghost use Rattle.store_log.specs.declared.error.LogError.TheVariants.{Memory};

    ghost from_gives = { λ _ error. error ≡ Memory };

    fn from(_: AllocFailed<T>) -> LogError {
        LogError::Memory
    }
}

impl fmt::Display for LogError {
    fn fmt<W: fmt::Write>(&self, f: &mut fmt::Formatter<W>) -> fmt::Result {
        match self {
            LogError::Io(error) => write!(f, "{error}"),
            LogError::Memory => write!(f, "out of memory"),
            LogError::TooLong => write!(f, "the text is too long"),
            LogError::Stopped => write!(f, "an earlier write failed"),
        }
    }
}

impl Error for LogError {}

/// Why a log could not be opened or made. Only after `Log` may a byte of the file have changed.
#[derive(Clone, Copy, Debug)]
pub enum OpenError {
    /// The file could not be read, or what a crash left could not be repaired.
    Log(LogError),
    /// The file is empty, or a crash left it while its head was being made.
    Blank,
    /// The file is not blank and has no head: it is not a log, or its first bytes are damaged.
    NoHead,
    /// The keys or the values of the file are of other kinds than the caller's.
    OtherKinds,
    /// The text of the frame that begins at this byte is damaged.
    Damaged(usize),
    /// The frames end at this byte, before the mark: what comes next is damaged or gone.
    Lost(usize),
    /// The file of a log that is to be made is not blank.
    Occupied,
}

impl fmt::Display for OpenError {
    fn fmt<W: fmt::Write>(&self, f: &mut fmt::Formatter<W>) -> fmt::Result {
        match self {
            OpenError::Log(error) => write!(f, "{error}"),
            OpenError::Blank => write!(f, "the file is blank"),
            OpenError::NoHead => write!(f, "the file has no head"),
            OpenError::OtherKinds => write!(f, "the file has keys or values of another type"),
            OpenError::Damaged(at) => write!(f, "the file is damaged at byte {at}"),
            OpenError::Lost(at) => write!(f, "the file is damaged from byte {at} on"),
            OpenError::Occupied => write!(f, "the file is not blank"),
        }
    }
}

impl Error for OpenError {}
