//! What the calls of an array return.
ghost use Rattle.std.specs.Prelude.{◌≡◌};
ghost use Rattle.tree_array.specs.Insertion.{as_insert};

/// The result of an insert.
#[derive(Clone, Copy, Debug, PartialEq, Eq, Drop)]
pub enum InsertResult<K, V> {
    /// The pair was stored.
    Success,
    /// An equal key is there, and nothing changed. The pair is returned.
    Duplicate(K, V),
    /// There is no room, and nothing changed. The pair is returned.
    Full(K, V),
}

/// The result of a store: an [`InsertResult`] that distinguishes a new key from one that was there.
#[derive(Clone, Copy, Debug, PartialEq, Eq, Drop)]
pub enum StoreResult<K, V> {
    /// The pair was stored, and its key is new.
    New,
    /// The pair was stored in place of one with an equal key.
    Replaced,
    /// An equal key is there, and nothing changed. The pair is returned.
    Duplicate(K, V),
    /// There is no room, and nothing changed. The pair is returned.
    Full(K, V),
}

impl<K, V> StoreResult<K, V> {
    /// Returns the result without what was there before.
    pub fn into_insert(self) -> InsertResult<K, V>
        ensures { result ≡ as_insert self }
    {
        match self {
            StoreResult::New | StoreResult::Replaced => InsertResult::Success,
            StoreResult::Duplicate(key, val) => InsertResult::Duplicate(key, val),
            StoreResult::Full(key, val) => InsertResult::Full(key, val),
        }
    }
}

/// The result of a removal.
#[derive(Clone, Copy, Debug, PartialEq, Eq)]
pub enum RemoveResult {
    /// The key was removed, and others are left.
    Success,
    /// The last key was removed, which retired the array.
    Retired,
    /// Nothing was removed.
    Fail,
}
