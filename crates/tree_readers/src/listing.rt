//! What `Debug` prints of a writer and its readers.
use crate::handle::{GuardOver, HandleOver, Leave};
use crate::reader::{ReaderOver, ReadingOver};
use crate::rule::Known;
use crate::writer::WriterOver;
use crossbeam_utils::rule::Protocol;
use left_right::Absorb;
use std::collections::LinkedList;
use std::fmt;
use std::sync::Wait;
use tree_index::{Command, IndexKey, SameClone};

impl<
    K: IndexKey + SameClone,
    V: SameClone,
    R: Wait + Drop,
    T: Absorb<Command<K, V>, State = LinkedList<Command<K, V>>> + Drop,
    P: Protocol<T, Known<K, V>>,
> fmt::Debug for WriterOver<K, V, R, T, P> {
    fn fmt<W: fmt::Write>(&self, f: &mut fmt::Formatter<W>) -> fmt::Result {
        f.debug_struct("Writer").finish_non_exhaustive()
    }
}

impl<
    K: IndexKey + SameClone,
    V: SameClone,
    T: Absorb<Command<K, V>, State = LinkedList<Command<K, V>>> + Drop,
    P: Protocol<T, Known<K, V>>,
> fmt::Debug for ReaderOver<K, V, T, P> {
    fn fmt<W: fmt::Write>(&self, f: &mut fmt::Formatter<W>) -> fmt::Result {
        f.debug_struct("Reader").finish_non_exhaustive()
    }
}

impl<
    K: IndexKey + SameClone,
    V: SameClone,
    T: Absorb<Command<K, V>, State = LinkedList<Command<K, V>>> + Drop,
    P: Protocol<T, Known<K, V>>,
> fmt::Debug for ReadingOver<K, V, T, P> {
    fn fmt<W: fmt::Write>(&self, f: &mut fmt::Formatter<W>) -> fmt::Result {
        f.debug_struct("Reading").finish_non_exhaustive()
    }
}

impl<H: Drop> fmt::Debug for HandleOver<H> {
    fn fmt<W: fmt::Write>(&self, f: &mut fmt::Formatter<W>) -> fmt::Result {
        f.debug_struct("Handle").finish_non_exhaustive()
    }
}

impl<H: Drop, G: Leave<H> + fmt::Debug> fmt::Debug for GuardOver<'_, H, G> {
    fn fmt<W: fmt::Write>(&self, f: &mut fmt::Formatter<W>) -> fmt::Result {
        fmt::Debug::fmt(&self.reading, f)
    }
}
