//! Why a writer makes no reader, and why a handle doesn't lend its index.
use std::error::Error;
use std::fmt;

/// Each place for a reader is in use.
#[derive(Clone, Copy, Debug, PartialEq, Eq, Drop)]
pub struct NoPlace;

impl fmt::Display for NoPlace {
    fn fmt<W: fmt::Write>(&self, f: &mut fmt::Formatter<W>) -> fmt::Result {
        write!(f, "each place for a reader is in use")
    }
}

impl Error for NoPlace {}

/// Why a handle doesn't lend its index.
#[derive(Clone, Copy, Debug, PartialEq, Eq, Drop)]
pub enum EnterError {
    /// The writer was closed or dropped.
    Closed,
    /// The handle has no reader: an earlier guard was forgotten, and the reader with it.
    Forgotten,
}

impl fmt::Display for EnterError {
    fn fmt<W: fmt::Write>(&self, f: &mut fmt::Formatter<W>) -> fmt::Result {
        match self {
            EnterError::Closed => write!(f, "the writer was closed"),
            EnterError::Forgotten => write!(f, "an earlier guard was forgotten"),
        }
    }
}

impl Error for EnterError {}
