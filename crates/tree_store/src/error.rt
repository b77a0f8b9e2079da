//! Why a store could not be opened.
ghost use Rattle.std.specs.Prelude.{◌≡◌};

use std::alloc::AllocError;
use std::error::Error;
use std::fmt;

/// Why a store could not be opened or made. Only after `Memory`, `Unreadable` and a failure of the
/// disk may a byte of the files have changed.
#[derive(Clone, Copy, Debug)]
pub enum OpenError {
    /// The log of the batches could not be opened or made.
    Log(store_log::OpenError),
    /// An allocation failed while the batches were replayed.
    Memory,
    /// A batch whose seal fits has no records: another program wrote it.
    Unreadable,
}

impl fmt::Display for OpenError {
    fn fmt<W: fmt::Write>(&self, f: &mut fmt::Formatter<W>) -> fmt::Result {
        match self {
            OpenError::Log(error) => write!(f, "{error}"),
            OpenError::Memory => write!(f, "out of memory"),
            OpenError::Unreadable => write!(f, "a batch has no records"),
        }
    }
}

impl Error for OpenError {}

/// Why batches could not be replayed.
#[derive(Clone, Copy, Debug, PartialEq, Eq)]
pub(crate) enum ReplayError {
    /// An allocation failed.
    Memory,
    /// A text has no records.
    Unreadable,
}

impl From<AllocError> for ReplayError {
    ghost use Rattle.tree_store.specs.declared.error.ReplayError.TheVariants.{Memory};

    ghost from_gives = { λ _ error. error ≡ Memory };

    fn from(_: AllocError) -> ReplayError {
        ReplayError::Memory
    }
}
