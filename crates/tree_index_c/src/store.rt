//! The index that a handle leads to.
ghost use Rattle.std.specs.Prelude.{◌≡◌};
ghost use Rattle.std.specs.Option.{option_copied};
ghost use Rattle.tree_index_c.specs.Held.{bytes_of, numbers_of};

use std::alloc::Global;
use std::sync::Arc;
use tree_index::TreeIndex;
use tree_texts::Bytes;

/// An index of either kind of key. It is the handle's own, or it is frozen: several handles may
/// share it then, and none changes it.
#[derive(Drop)]
pub enum Store {
    Numbers(TreeIndex<u64, u64>),
    Bytes(TreeIndex<Bytes, u64>),
    FrozenNumbers(Arc<TreeIndex<u64, u64>, Global>),
    FrozenBytes(Arc<TreeIndex<Bytes, u64>, Global>),
}

impl Store {
    /// Creates a store of an empty index, to stand where another is taken out. Allocates nothing.
    pub fn empty(alloc: Global) -> Store {
        Store::Numbers(TreeIndex::new(alloc))
    }

    /// Returns the index, if its keys are numbers.
    pub fn numbers(&self) -> Option<&TreeIndex<u64, u64>>
        ensures { option_copied result ≡ numbers_of self.now }
    {
        match self {
            Store::Numbers(index) => Some(index),
            Store::FrozenNumbers(index) => Some(index),
            Store::Bytes(_) | Store::FrozenBytes(_) => None,
        }
    }

    /// Returns the index, if its keys are strings of bytes.
    pub fn bytes(&self) -> Option<&TreeIndex<Bytes, u64>>
        ensures { option_copied result ≡ bytes_of self.now }
    {
        match self {
            Store::Bytes(index) => Some(index),
            Store::FrozenBytes(index) => Some(index),
            Store::Numbers(_) | Store::FrozenNumbers(_) => None,
        }
    }
}
