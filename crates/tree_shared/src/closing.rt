//! What is left when the sharing of an index ends.

use crate::shared::SharedOver;
use std::error::Error;
use std::fmt;
use tree_index::{IndexKey, Record, SameClone, TreeIndexOf};
use tree_state::{Books, PassOf, Tally};

/// What a closed index of fifteen pairs a leaf leaves. See [`ClosedOf`].
pub type Closed<K, V> = ClosedOf<K, V, 15>;

/// What a closed index leaves. `LEN` is 7 or 15.
#[derive(Drop)]
pub struct ClosedOf<K: IndexKey, V: Drop, const LEN: usize> {
    /// The index.
    pub index: TreeIndexOf<K, V, LEN>,
    /// The answered commands in order, each with its reply.
    pub history: Vec<Record<K, V>>,
    /// The tally of the history.
    pub tally: Tally,
}

/// Why an index of fifteen pairs a leaf was not closed. See [`UnclosedOf`].
pub type Unclosed<K, V, C, S, M, F, D> = UnclosedOf<K, V, C, S, M, F, D, 15>;

/// Why an index was not closed. See [`UnclosedOver`].
pub type UnclosedOf<K, V, C, S, M, F, D, const LEN: usize> = UnclosedOver<
    K,
    V,
    (C, S, M, F, D),
    LEN,
>;

/// Why an index was not closed, with the shared index and the passes. `LEN` is 7 or 15.
#[derive(Drop)]
pub enum UnclosedOver<K: IndexKey + SameClone, V: SameClone, B: Books, const LEN: usize> {
    /// A pass is absent.
    PassMissing(SharedOver<K, V, B, LEN>, Vec<PassOf<B>>),
}

impl<K: IndexKey + fmt::Debug, V: Drop + fmt::Debug, const LEN: usize> fmt::Debug
    for ClosedOf<K, V, LEN> {
    fn fmt<W: fmt::Write>(&self, f: &mut fmt::Formatter<W>) -> fmt::Result {
        write!(
            f,
            "Closed {{ index: {:?}, history: {:?}, tally: {:?} }}",
            &self.index,
            self.history.as_slice(),
            &self.tally
        )
    }
}

impl<K, V, B, const LEN: usize> fmt::Debug for UnclosedOver<K, V, B, LEN>
where
    K: IndexKey + SameClone,
    V: SameClone,
    B: Books,
{
    fn fmt<W: fmt::Write>(&self, f: &mut fmt::Formatter<W>) -> fmt::Result {
        let UnclosedOver::PassMissing(_, passes) = self;
        write!(
            f,
            "PassMissing(SharedTreeIndex {{ .. }}, {:?})",
            passes.as_slice()
        )
    }
}

impl<K, V, B, const LEN: usize> fmt::Display for UnclosedOver<K, V, B, LEN>
where
    K: IndexKey + SameClone,
    V: SameClone,
    B: Books,
{
    fn fmt<W: fmt::Write>(&self, f: &mut fmt::Formatter<W>) -> fmt::Result {
        write!(f, "a pass is missing")
    }
}

impl<K, V, B, const LEN: usize> Error for UnclosedOver<K, V, B, LEN>
where
    K: IndexKey + SameClone,
    V: SameClone,
    B: Books,
{}
