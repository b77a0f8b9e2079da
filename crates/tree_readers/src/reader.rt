//! Readers, and what they read.
ghost use Rattle.std.specs.Prelude.{◌≡◌, [], ◌∷◌, IfOk, IfErr, Some};
ghost use Rattle.tree_model.specs.History.{IsSamePairs};
ghost use Rattle.tree_readers.specs.Fronts.{after};
ghost use Rattle.tree_readers.specs.Knowns.{BeginsWithAll};

use crate::copy::CopyOf;
use crate::handle::{HandleOf, HandleOver};
use crate::rule::{Fronts, Known, Look};
use crossbeam_utils::rule::Protocol;
use left_right::Absorb;
use left_right::reader::{Reader as SideReader, Reading as SideReading};
use std::collections::LinkedList;
use std::marker::Model;
use tree_index::{Command, IndexKey, SameClone, TreeIndexOf};

/// A reader of an index of fifteen pairs a leaf. See [`ReaderOver`].
pub type Reader<K, V> = ReaderOf<K, V, 15>;

/// A reader of an index of seven pairs a leaf. See [`ReaderOver`].
pub type SmallReader<K, V> = ReaderOf<K, V, 7>;

/// A reader of an index of `LEN` pairs a leaf, 7 or 15. See [`ReaderOver`].
pub type ReaderOf<K, V, const LEN: usize> = ReaderOver<K, V, CopyOf<K, V, LEN>, Fronts>;

/// A reader inside an index of fifteen pairs a leaf. See [`ReadingOver`].
pub type Reading<K, V> = ReadingOf<K, V, 15>;

/// A reader inside an index of seven pairs a leaf. See [`ReadingOver`].
pub type SmallReading<K, V> = ReadingOf<K, V, 7>;

/// A reader inside an index of `LEN` pairs a leaf, 7 or 15. See [`ReadingOver`].
pub type ReadingOf<K, V, const LEN: usize> = ReadingOver<K, V, CopyOf<K, V, LEN>, Fronts>;

/// A reader outside the index. It may be sent to another thread.
///
/// Contracts see lists of commands that it knows of, with each of which the published commands
/// begin: what its writer had published when it made the reader, or what the reader saw last. `T`
/// is a [`CopyOf`] and `P` is [`Fronts`], as the aliases of this type have it.
pub struct ReaderOver<
    K: IndexKey + SameClone,
    V: SameClone,
    T: Absorb<Command<K, V>, State = LinkedList<Command<K, V>>> + Drop,
    P: Protocol<T, Known<K, V>>,
> {
    pub(crate) reader: SideReader<T, Known<K, V>, P>,
}

// Written out for the reason that the drop of `Tree` in `tree_root` is.
impl<
    K: IndexKey + SameClone,
    V: SameClone,
    T: Absorb<Command<K, V>, State = LinkedList<Command<K, V>>> + Drop,
    P: Protocol<T, Known<K, V>>,
> Drop for ReaderOver<K, V, T, P> {
    fn drop(self) {
        let ReaderOver { reader } = self;
        drop(reader);
    }
}

impl<
    K: IndexKey + SameClone,
    V: SameClone,
    T: Absorb<Command<K, V>, State = LinkedList<Command<K, V>>> + Drop,
    P: Protocol<T, Known<K, V>>,
> Model for ReaderOver<K, V, T, P> {
    ghost use Rattle.std.specs.Prelude.{List};
    ghost use Rattle.tree_model.specs.declared.commands.Command.{Command};

    ghost Value = { List (List (Command K V)) };

    ghost view = { λ r. r.reader.place.me.0.client.fronts };
}

impl<K: IndexKey + SameClone, V: SameClone, const LEN: usize> ReaderOf<K, V, LEN> {
    /// Enters the index that was published last. It stays as it is until the reader leaves.
    ///
    /// Its pairs are those after a list of commands that begins with each list that the reader
    /// knows of. Returns `Err` with the reader if the writer was closed or dropped. Doesn't wait,
    /// allocates nothing, and runs in constant time.
    ///
    /// ```
    /// let reading = reader.enter()?;
    /// ```
    pub fn enter(self) -> Result<ReadingOf<K, V, LEN>, Self>
        ensures ok { IfOk result (λ r. BeginsWithAll r.commands self) }
        ensures err { IfErr result (λ r. r ≡ self) }
    {
        let ReaderOver { reader } = self;
        match reader.enter_as::<Look>() {
            Ok(reading) => Ok(ReadingOver { reading }),
            Err(reader) => Err(ReaderOver { reader }),
        }
    }

    /// Returns a handle, which enters by reference.
    ///
    /// ```
    /// let mut handle = reader.into_handle();
    /// ```
    pub fn into_handle(self) -> HandleOf<K, V, LEN>
        ensures { result.reader ≡ Some self }
    {
        HandleOver { reader: Some(self) }
    }
}

/// A reader inside the index. Until it leaves, or is dropped, the writer may have to wait for it.
///
/// Contracts see the pairs, and the commands that left them. `T` is a [`CopyOf`] and `P` is
/// [`Fronts`], as the aliases of this type have it.
pub struct ReadingOver<
    K: IndexKey + SameClone,
    V: SameClone,
    T: Absorb<Command<K, V>, State = LinkedList<Command<K, V>>> + Drop,
    P: Protocol<T, Known<K, V>>,
> {
    reading: SideReading<T, Known<K, V>, P>,
}

// Written out for the reason that the drop of `Tree` in `tree_root` is.
impl<
    K: IndexKey + SameClone,
    V: SameClone,
    T: Absorb<Command<K, V>, State = LinkedList<Command<K, V>>> + Drop,
    P: Protocol<T, Known<K, V>>,
> Drop for ReadingOver<K, V, T, P> {
    fn drop(self) {
        let ReadingOver { reading } = self;
        drop(reading.leave());
    }
}

impl<
    K: IndexKey + SameClone,
    V: SameClone,
    T: Absorb<Command<K, V>, State = LinkedList<Command<K, V>>> + Drop,
    P: Protocol<T, Known<K, V>>,
> Model for ReadingOver<K, V, T, P> {
    ghost use Rattle.std.specs.Prelude.{◌≡◌, [], ◌∷◌};

    ghost Value = { T };

    ghost view = { λ r. r.reading.part.value };

    ghost invariant = { λ r. r.reading.place.me.0.client.fronts ≡ T.state r.reading.part.value ∷ [] };
}

impl<K: IndexKey + SameClone, V: SameClone, const LEN: usize> ReadingOf<K, V, LEN> {
    /// Returns the index, for reading, in constant time.
    ///
    /// ```
    /// let price = reading.index().peek(&item).copied();
    /// ```
    pub fn index(&self) -> &TreeIndexOf<K, V, LEN>
        ensures pairs { result.now.pairs ≡ self.now.pairs }
        ensures front { IsSamePairs K.cmp K.seen V.seen result.now.pairs (after K.cmp self.now.commands) }
    {
        self.reading.get().index()
    }

    /// Leaves the index. The reader knows of the commands that left its pairs.
    ///
    /// Doesn't wait, allocates nothing, and runs in constant time.
    ///
    /// ```
    /// reader = reading.leave();
    /// ```
    pub fn leave(self) -> ReaderOf<K, V, LEN>
        ensures { result ≡ self.commands ∷ [] }
    {
        let ReadingOver { reading } = self;
        ReaderOver {
            reader: reading.leave(),
        }
    }
}
