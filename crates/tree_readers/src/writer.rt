//! The writer.
ghost use Rattle.std.specs.Prelude.{◌≡◌, ◌⊎◌, ◌+◌, ◌^◌, ◌<◌, [], ◌∷◌, ◌++◌, drop, IfOk, MatchResult};
ghost use Rattle.left_right.specs.Sides.{view};
ghost use Rattle.tree_array.specs.Length.{IsLen};
ghost use Rattle.tree_model.specs.History.{IsSamePairs};
ghost use Rattle.tree_model.specs.declared.commands.Command.TheVariants.{Insert, Upsert, Remove, RemoveRange, Clear};
ghost use Rattle.tree_readers.specs.Fronts.{after};
ghost use Rattle.tree_readers.specs.Views.{Awaits, AwaitsOne, Flushes, IsUnchanged, Publishes};

use crate::copy::CopyOf;
use crate::errors::NoPlace;
use crate::queue::{pass_on, push, push_all};
use crate::reader::{ReaderOf, ReaderOver};
use crate::rule::{Fronts, Known, Learning, Showing, Telling};
use core::mem::replace_with;
use crossbeam_utils::rule::Protocol;
use left_right::Absorb;
use left_right::writer::Writer as Sides;
use std::alloc::{AllocError, Global};
use std::collections::{LinkedList, VecDeque};
use std::marker::Model;
use std::ops::Bound;
use std::sync::Wait;
use tree_index::{Command, IndexKey, SameClone, TreeIndexOf};

/// A writer of an index of fifteen pairs a leaf. See [`WriterOver`].
pub type Writer<K, V, R> = WriterOf<K, V, R, 15>;

/// A writer of an index of seven pairs a leaf. See [`WriterOver`].
pub type SmallWriter<K, V, R> = WriterOf<K, V, R, 7>;

/// A writer of an index of `LEN` pairs a leaf, 7 or 15. See [`WriterOver`].
pub type WriterOf<K, V, R, const LEN: usize> = WriterOver<K, V, R, CopyOf<K, V, LEN>, Fronts>;

/// What changes an index while others read it. It may be sent to another thread.
///
/// Contracts see the commands that are published, whose pairs readers see, those that are pending
/// until the next call of `publish`, and how many times readers were shown another copy. `R` is the
/// handle by which the writer waits. `T` is a [`CopyOf`] and `P` is [`Fronts`], as the aliases of
/// this type have it.
///
/// A drop waits for the readers inside, as [`close`](WriterOf::close) does.
pub struct WriterOver<
    K: IndexKey + SameClone,
    V: SameClone,
    R: Wait + Drop,
    T: Absorb<Command<K, V>, State = LinkedList<Command<K, V>>> + Drop,
    P: Protocol<T, Known<K, V>>,
> {
    sides: Sides<T, Command<K, V>, Known<K, V>, P>,
    // Commands that aren't in the log of the sides yet. It can reserve, which the log can't.
    queue: VecDeque<Command<K, V>>,
    rt: R,
}

impl<
    K: IndexKey + SameClone,
    V: SameClone,
    R: Wait + Drop,
    T: Absorb<Command<K, V>, State = LinkedList<Command<K, V>>> + Drop,
    P: Protocol<T, Known<K, V>>,
> Drop for WriterOver<K, V, R, T, P> {
    fn drop(self) {
        let WriterOver { sides, queue, rt } = self;
        drop(queue);
        drop(sides.take(&rt));
    }
}

impl<
    K: IndexKey + SameClone,
    V: SameClone,
    R: Wait + Drop,
    T: Absorb<Command<K, V>, State = LinkedList<Command<K, V>>> + Drop,
    P: Protocol<T, Known<K, V>>,
> Model for WriterOver<K, V, R, T, P> {
    ghost use Rattle.std.specs.Prelude.{◌≡◌, [], ◌∷◌, ◌++◌, drop};
    ghost use Rattle.tree_readers.specs.Views.{WriterView};

    ghost Value = { WriterView K V };

    ghost view = { λ w. record {
      published = T.state w.sides.desk.shown.value;
      pending = drop w.sides.behind w.sides.log.items ++ w.queue.items;
      shows = w.sides.desk.place.me.0.client.shows;
    } };

    ghost invariant = { λ w. w.sides.desk.place.me.0.client.fronts ≡ T.state w.sides.desk.shown.value ∷ [] };
}

impl<K: IndexKey + SameClone, V: SameClone, R: Wait + Drop, const LEN: usize> WriterOf<
    K,
    V,
    R,
    LEN,
> {
    /// Creates a writer of an empty index, with places for so many readers. The caller must choose
    /// 7 or 15 for `LEN`, and at least one place and fewer than 2 to the power of 32.
    ///
    /// Returns `Err` if it cannot allocate. Allocates the two copies and the places, and nothing
    /// for pairs.
    ///
    /// ```
    /// let writer: Writer<u64, u64, &R> = Writer::new(rt.alloc(), rt, 4)?;
    /// ```
    pub fn new(alloc: Global, rt: R, readers: usize) -> Result<Self, AllocError>
        requires len { IsLen LEN }
        requires readers { (0 < readers) × (readers < 2 ^ 32) }
        ensures { IfOk result (λ w. (w.published ≡ []) × (w.pending ≡ []) × (w.shows ≡ 0)) }
    {
        let first = CopyOf::new(alloc);
        let second = CopyOf::new(alloc);
        let sides = Sides::new(alloc, first, second, readers)?;
        Ok(WriterOver {
            sides,
            queue: VecDeque::new(alloc),
            rt,
        })
    }

    /// Creates a reader, which knows of the published commands: whenever it enters, it sees the
    /// pairs after these at least. So it is a receipt for what was published.
    ///
    /// Returns `Err` if each place for a reader is in use. A place is free again once its reader is
    /// dropped. Looks at each place until one is free, and allocates nothing.
    ///
    /// ```
    /// let receipt = writer.reader()?;
    /// ```
    pub fn reader(&mut self) -> Result<ReaderOf<K, V, LEN>, NoPlace>
        ensures kept { self.new ≡ self.old }
        ensures reader { IfOk result (λ r. r ≡ [] ∷ self.old.published ∷ []) }
    {
        let Ok(mut reader) = self.sides.factory().reader() else {
            return Err(NoPlace);
        };
        reader.learn::<Learning>(self.sides.tell::<Telling>());
        Ok(ReaderOver { reader })
    }

    /// Returns the index that readers see, in constant time.
    ///
    /// ```
    /// let index = writer.published();
    /// ```
    pub fn published(&self) -> &TreeIndexOf<K, V, LEN>
        ensures { IsSamePairs K.cmp K.seen V.seen result.now.pairs (after K.cmp self.now.published) }
    {
        self.sides.published().index()
    }

    /// Keeps a command for the next call of `publish`.
    ///
    /// Returns `Err` with the command if it cannot allocate. Runs in constant time, except when the
    /// queue of the pending commands grows.
    ///
    /// ```
    /// writer.append(Command::Insert(4, 40))?;
    /// ```
    pub fn append(&mut self, command: Command<K, V>) -> Result<(), Command<K, V>>
        ensures { AwaitsOne self.old command result self.new }
    {
        push(&mut self.queue, command)
    }

    /// Keeps each command of a batch for the next call of `publish`, and leaves the batch empty.
    ///
    /// Returns `Err` if it cannot allocate. Then it kept none of them, and the batch still has all
    /// of its commands. Allocates at most once, before the first command is moved.
    ///
    /// ```
    /// writer.append_all(&mut batch)?;
    /// ```
    pub fn append_all(&mut self, batch: &mut VecDeque<Command<K, V>>) -> Result<(), AllocError>
        ensures { MatchResult result
            (λ _. Awaits self.old batch.old.items self.new × (batch.new.items ≡ []))
            (λ _. IsUnchanged self.old self.new × (batch.new.items ≡ batch.old.items)) }
    {
        push_all(&mut self.queue, batch)
    }

    /// Keeps an insert for the next call of `publish`. It stores the pair if no pair has its key by
    /// then. Returns and costs what [`append`](WriterOf::append) does.
    ///
    /// ```
    /// writer.insert(1, 10)?;
    /// ```
    pub fn insert(&mut self, key: K, value: V) -> Result<(), Command<K, V>>
        ensures { AwaitsOne self.old (Insert key value) result self.new }
    {
        self.append(Command::Insert(key, value))
    }

    /// Keeps an upsert for the next call of `publish`. It stores the pair, and replaces one with an
    /// equal key. Returns and costs what [`append`](WriterOf::append) does.
    ///
    /// ```
    /// writer.upsert(3, 30)?;
    /// ```
    pub fn upsert(&mut self, key: K, value: V) -> Result<(), Command<K, V>>
        ensures { AwaitsOne self.old (Upsert key value) result self.new }
    {
        self.append(Command::Upsert(key, value))
    }

    /// Keeps the removal of a key for the next call of `publish`. Returns and costs what
    /// [`append`](WriterOf::append) does.
    ///
    /// ```
    /// writer.remove(3)?;
    /// ```
    pub fn remove(&mut self, key: K) -> Result<(), Command<K, V>>
        ensures { AwaitsOne self.old (Remove key) result self.new }
    {
        self.append(Command::Remove(key))
    }

    /// Keeps the removal of every pair within two bounds for the next call of `publish`. Returns
    /// and costs what [`append`](WriterOf::append) does.
    ///
    /// ```
    /// writer.remove_range(Bound::Included(5), Bound::Excluded(9))?;
    /// ```
    pub fn remove_range(&mut self, low: Bound<K>, high: Bound<K>) -> Result<(), Command<K, V>>
        ensures { AwaitsOne self.old (RemoveRange low high) result self.new }
    {
        self.append(Command::RemoveRange(low, high))
    }

    /// Keeps the removal of all pairs for the next call of `publish`. Returns and costs what
    /// [`append`](WriterOf::append) does.
    ///
    /// ```
    /// writer.clear()?;
    /// ```
    pub fn clear(&mut self) -> Result<(), Command<K, V>>
        ensures { AwaitsOne self.old Clear result self.new }
    {
        self.append(Command::Clear)
    }

    /// Shows readers every pending command, all at once.
    ///
    /// Returns `Err` if it cannot allocate. Then readers see what they saw, the commands are still
    /// pending, and the next call goes on where this one stopped. Waits for the readers that still
    /// read the copy of the call before. Carries out each pending command on one copy, and those of
    /// the call before on the same one, and looks at each reader's place.
    ///
    /// ```
    /// writer.publish()?;
    /// ```
    pub fn publish(&mut self) -> Result<(), AllocError>
        ensures { MatchResult result (λ _. Publishes self.old self.new) (λ _. IsUnchanged self.old self.new) }
    {
        pass_on(&mut self.sides, &mut self.queue)?;
        replace_with(&mut self.sides, &self.rt, show::<K, V, R, LEN>)
    }

    /// Publishes twice, so that both copies have each command and what was removed is dropped. It
    /// waits and costs as two calls of [`publish`](WriterOf::publish).
    ///
    /// Returns `Err` if it cannot allocate. Then either nothing changed, or all is published and
    /// the copy that no reader enters lacks some of it until the next call.
    ///
    /// ```
    /// writer.flush()?;
    /// ```
    pub fn flush(&mut self) -> Result<(), AllocError>
        ensures { MatchResult result (λ _. Flushes self.old self.new)
            (λ _. IsUnchanged self.old self.new ⊎ Publishes self.old self.new) }
    {
        self.publish()?;
        self.publish()
    }

    /// Returns the index that was published last. Its readers enter no more. Commands that are
    /// pending are dropped.
    ///
    /// Waits for the readers inside, and allocates nothing.
    ///
    /// ```
    /// let index = writer.close();
    /// ```
    pub fn close(self) -> TreeIndexOf<K, V, LEN>
        ensures { IsSamePairs K.cmp K.seen V.seen result.pairs (after K.cmp self.published) }
    {
        let WriterOver { sides, queue, rt } = self;
        drop(queue);
        let copy = sides.take(&rt);
        Box::into_inner(copy).into_index()
    }
}

// The two copies, and what readers don't see yet.
type SidesOf<K, V, const LEN: usize> = Sides<CopyOf<K, V, LEN>, Command<K, V>, Known<K, V>, Fronts>;

// Shows readers every command of the log.
fn show<K: IndexKey + SameClone, V: SameClone, R: Wait, const LEN: usize>(
    sides: SidesOf<K, V, LEN>,
    rt: &R,
) -> (SidesOf<K, V, LEN>, Result<(), AllocError>)
    requires { (view sides.desk.place).fronts ≡ sides.desk.shown.value.commands ∷ [] }
    ensures knows { (view result.0.desk.place).fronts ≡ result.0.desk.shown.value.commands ∷ [] }
    ensures commands { MatchResult result.1
        (λ _. (result.0.desk.shown.value.commands ≡ sides.desk.shown.value.commands ++ drop sides.behind sides.log.items)
        × (drop result.0.behind result.0.log.items ≡ []) × ((view result.0.desk.place).shows ≡ (view sides.desk.place).shows + 1))
        (λ _. (result.0.desk.shown.value.commands ≡ sides.desk.shown.value.commands)
        × (drop result.0.behind result.0.log.items ≡ drop sides.behind sides.log.items)
        × ((view result.0.desk.place).shows ≡ (view sides.desk.place).shows)) }
{
    sides.publish_as::<Showing, R>(rt)
}
