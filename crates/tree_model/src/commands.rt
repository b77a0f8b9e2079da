//! The commands of an index, its replies, and the record of both in a history.
ghost use Rattle.std.specs.Prelude.{◌≡◌};
ghost use Rattle.tree_model.specs.Edits.{handed_back};

use std::error::Error;
use std::fmt;
use std::ops::Bound;

/// A call of an index, as a value.
#[derive(Clone, Copy, Debug, PartialEq, Eq, Drop)]
pub enum Command<K, V> {
    /// Stores a pair if its key is absent.
    Insert(K, V),
    /// Stores a pair. A pair with an equal key is replaced.
    Upsert(K, V),
    /// Removes the pair with a key.
    Remove(K),
    /// Removes every pair whose key is within both bounds.
    RemoveRange(Bound<K>, Bound<K>),
    /// Removes all pairs.
    Clear,
    /// Looks up a key.
    Peek(K),
}

/// The reply to a command.
#[derive(Clone, Copy, Debug, PartialEq, Eq, Drop)]
pub enum Reply<V> {
    /// The pair was stored.
    Stored,
    /// The key is present, and nothing changed.
    Duplicate,
    /// Whether a pair was removed.
    Removed(bool),
    /// No pair is left that was to be removed.
    Done,
    /// The value of the key, or `None` if the key is absent.
    Found(Option<V>),
    /// An allocation failed, and nothing changed.
    Refused,
}

/// A command in a history, with its reply.
#[derive(Clone, Copy, Debug, PartialEq, Eq, Drop)]
pub struct Record<K, V> {
    /// The command.
    pub command: Command<K, V>,
    /// The reply.
    pub reply: Reply<V>,
}

/// The error of an insert, with the pair that was not stored.
#[derive(Clone, Copy, Debug, PartialEq, Eq, Drop)]
pub enum InsertError<K, V> {
    /// The key is present.
    Duplicate(K, V),
    /// An allocation failed. An index returns this only for an absent key, a call that keeps a
    /// history for any key.
    OutOfMemory(K, V),
}

impl<K, V> InsertError<K, V> {
    /// Returns the pair that was not stored, in constant time.
    pub fn into_pair(self) -> (K, V)
        ensures { result ≡ handed_back self }
    {
        match self {
            InsertError::Duplicate(key, value) => (key, value),
            InsertError::OutOfMemory(key, value) => (key, value),
        }
    }
}

impl<K, V> fmt::Display for InsertError<K, V> {
    fn fmt<W: fmt::Write>(&self, f: &mut fmt::Formatter<W>) -> fmt::Result {
        match self {
            InsertError::Duplicate(_, _) => write!(f, "the key is present"),
            InsertError::OutOfMemory(_, _) => write!(f, "out of memory"),
        }
    }
}

impl<K: fmt::Debug + Drop, V: fmt::Debug + Drop> Error for InsertError<K, V> {}
