//! An index that stores numbers, as its tests call it.
use std::alloc::AllocError;
use tree_index::TreeIndexOf;

/// An index that stores numbers.
///
/// To the proof of a test that is written over a trait an index is a bare name, and its calls have
/// no clauses. A type that is passed as one of a trait costs a proof of each function of the trait,
/// so each test has a trait of what it calls alone.
pub trait Stores {
    /// Calls `insert_sync`. Returns `Err` if the pair isn't stored, for whatever reason.
    fn store(&mut self, key: u64, value: u64) -> Result<(), AllocError>;
}

impl<const LEN: usize> Stores for TreeIndexOf<u64, u64, LEN> {
    fn store(&mut self, key: u64, value: u64) -> Result<(), AllocError> {
        match self.insert_sync(key, value) {
            Ok(()) => Ok(()),
            Err(_) => Err(AllocError),
        }
    }
}

// Stores the numbers from the first to the last, each as its own value.
pub(crate) fn ascend(index: &mut impl Stores, first: u64, last: u64) -> Result<(), AllocError> {
    for number in first..=last {
        index.store(number, number)?;
    }
    Ok(())
}
