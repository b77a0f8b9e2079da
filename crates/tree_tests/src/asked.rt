//! An index whose keys count their comparisons.
use crate::keys::Asked;
use crate::look_ups::LookedUp;
use std::alloc::AllocError;
use std::cell::Cell;
use std::ops::Bound;
use tree_index::TreeIndexOf;

/// An index whose keys count their comparisons.
pub trait StoredKeys<'c> {
    /// Stores a number at its key by `insert_sync`.
    fn store(&mut self, number: u64, counter: &'c Cell<u64>) -> Result<(), AllocError>;
}

/// The same, as tests of removals call it.
pub trait RemovedKeys<'c>: StoredKeys<'c> {
    /// Calls `remove_sync`.
    fn remove(&mut self, key: &Asked<'c>) -> bool;

    /// Removes the keys from one to another by `remove_range_sync`.
    fn remove_range(&mut self, low: &Asked<'c>, high: &Asked<'c>);

    /// Calls `len`.
    fn len(&self) -> usize;
}

/// The same, as tests of look-ups call it.
pub trait AskedKeys<'c>: StoredKeys<'c> + LookedUp<Asked<'c>> {
    /// Calls `depth`.
    fn depth(&self) -> usize;

    /// Calls `contains`.
    fn contains(&self, key: &Asked<'c>) -> bool;

    /// Returns whether `peek` finds a value.
    fn is_peeked(&self, key: &Asked<'c>) -> bool;

    /// Returns whether `peek_entry` finds a pair.
    fn is_entry(&self, key: &Asked<'c>) -> bool;

    /// Returns whether the reader of `peek_with` gets a pair.
    fn is_shown(&self, key: &Asked<'c>) -> bool;

    /// Returns whether the reader of `read_sync` gets a pair.
    fn is_read(&self, key: &Asked<'c>) -> bool;

    /// Returns whether `at_or_above` finds a pair.
    fn is_reached(&self, key: &Asked<'c>) -> bool;

    /// Returns whether `at_or_below` finds a pair.
    fn is_passed(&self, key: &Asked<'c>) -> bool;
}

impl<'c, const LEN: usize> StoredKeys<'c> for TreeIndexOf<Asked<'c>, u64, LEN> {
    fn store(&mut self, number: u64, counter: &'c Cell<u64>) -> Result<(), AllocError> {
        match self.insert_sync(Asked::new(number, counter), number) {
            Ok(()) => Ok(()),
            Err(_) => Err(AllocError),
        }
    }
}

impl<'c, const LEN: usize> RemovedKeys<'c> for TreeIndexOf<Asked<'c>, u64, LEN> {
    fn remove(&mut self, key: &Asked<'c>) -> bool {
        self.remove_sync(key)
    }

    fn remove_range(&mut self, low: &Asked<'c>, high: &Asked<'c>) {
        self.remove_range_sync((Bound::Included(low), Bound::Included(high)));
    }

    fn len(&self) -> usize {
        TreeIndexOf::len(self)
    }
}

impl<'c, const LEN: usize> AskedKeys<'c> for TreeIndexOf<Asked<'c>, u64, LEN> {
    fn depth(&self) -> usize {
        TreeIndexOf::depth(self)
    }

    fn contains(&self, key: &Asked<'c>) -> bool {
        TreeIndexOf::contains(self, key)
    }

    fn is_peeked(&self, key: &Asked<'c>) -> bool {
        self.peek(key).is_some()
    }

    fn is_entry(&self, key: &Asked<'c>) -> bool {
        self.peek_entry(key).is_some()
    }

    fn is_shown(&self, key: &Asked<'c>) -> bool {
        self.peek_with(key, |_, value| *value).is_some()
    }

    fn is_read(&self, key: &Asked<'c>) -> bool {
        self.read_sync(key, |_, value| *value).is_some()
    }

    fn is_reached(&self, key: &Asked<'c>) -> bool {
        self.at_or_above(key).is_some()
    }

    fn is_passed(&self, key: &Asked<'c>) -> bool {
        self.at_or_below(key).is_some()
    }
}
