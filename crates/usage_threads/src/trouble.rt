//! Why a line is absent.
use std::alloc::AllocError;
use std::io;
use tree_index::Command;
use tree_readers::NoPlace;
use tree_shared::StormError;

/// Why a line is absent.
#[derive(Debug, Drop)]
pub enum Trouble {
    /// An allocation failed, or no thread could be made.
    OutOfMemory,
    /// Each place for a reader is in use.
    NoPlace,
    /// A thread that ended still shares the index.
    Shared,
    /// A line could not be written.
    Unwritten,
}

impl From<AllocError> for Trouble {
    fn from(_: AllocError) -> Trouble {
        Trouble::OutOfMemory
    }
}

impl From<StormError> for Trouble {
    fn from(_: StormError) -> Trouble {
        Trouble::OutOfMemory
    }
}

impl From<Command<u64, u64>> for Trouble {
    fn from(_: Command<u64, u64>) -> Trouble {
        Trouble::OutOfMemory
    }
}

impl From<NoPlace> for Trouble {
    fn from(_: NoPlace) -> Trouble {
        Trouble::NoPlace
    }
}

impl From<io::Error> for Trouble {
    fn from(_: io::Error) -> Trouble {
        Trouble::Unwritten
    }
}
