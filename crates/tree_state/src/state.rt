//! An index with the history of its calls.
ghost use Rattle.std.specs.Prelude.{◌≡◌, ◌<◌, List, [], ◌∷◌, ◌++◌, vec_len, vec_capacity, IfOk, IfErr, OnErr};
ghost use Rattle.std.specs.Option.{option_copied, option_map};
ghost use Rattle.tree_array.specs.Length.{IsLen};
ghost use Rattle.tree_model.specs.History.{Appends, IsHistoryOf};
ghost use Rattle.tree_state.specs.Inserts.{RecordsInsert};

use crate::prepared::PreparedPair;
use std::alloc::{AllocError, Global};
use std::fmt;
use std::marker::Model;
use std::ops::Bound;
use tree_index::{Command, IndexKey, InsertError, Record, Reply, SameClone, TreeIndexOf};

/// An index of fifteen pairs a leaf with the history of its calls. See [`StateOf`].
pub type State<K, V> = StateOf<K, V, 15>;

/// An index with the history of its calls. Contracts see the list of its pairs and the history.
/// `LEN` is 7 or 15.
///
/// The type's invariant is that the history replays to that list: from the empty list, each reply
/// is the one that the list gives, and none is `Refused`.
pub struct StateOf<K: IndexKey + SameClone, V: SameClone, const LEN: usize> {
    index: TreeIndexOf<K, V, LEN>,
    history: Vec<Record<K, V>>,
}

// Written out for the reason that the drop of `Tree` in `tree_root` is.
impl<K: IndexKey + SameClone, V: SameClone, const LEN: usize> Drop for StateOf<K, V, LEN> {
    fn drop(self) {
        let StateOf { index, history } = self;
        drop(index);
        drop(history);
    }
}

impl<K: IndexKey + SameClone, V: SameClone, const LEN: usize> Model for StateOf<K, V, LEN> {
    ghost use Rattle.tree_model.specs.History.{Log, IsHistoryOf};

    ghost Value = { Log K V };

    ghost view = { λ a. record { pairs = a.index.pairs; history = a.history.items } };

    ghost invariant = { λ a. IsHistoryOf K.cmp K.seen V.seen a.history.items a.index.pairs };
}

impl<K: IndexKey + SameClone, V: SameClone, const LEN: usize> StateOf<K, V, LEN> {
    /// Creates an empty index without a history. Allocates nothing. The caller must choose 7 or 15
    /// for `LEN`.
    ///
    /// ```
    /// let mut state: State<u64, u64> = State::new(alloc);
    /// let mut tallies = [NONE, NONE];
    /// let commands = schedule(alloc)?;
    /// let refused = run_schedule(&mut state, commands, &mut tallies);
    /// ```
    pub fn new(alloc: Global) -> Self
        requires { IsLen LEN }
        ensures pairs { result.pairs ≡ [] }
        ensures history { result.history ≡ [] }
    {
        StateOf {
            index: TreeIndexOf::new(alloc),
            history: Vec::new(alloc),
        }
    }

    /// Returns the index, for reading, in constant time.
    ///
    /// ```
    /// assert!(rt; state.index().is_empty());
    /// ```
    pub fn index(&self) -> &TreeIndexOf<K, V, LEN>
        ensures { result.now.pairs ≡ self.now.pairs }
    {
        &self.index
    }

    /// Returns the answered commands in order, each with its reply. Its keys and values are clones
    /// of those that were passed.
    ///
    /// ```
    /// Ok(has_the_calls(state.history()))
    ///
    /// for (record, (command, reply)) in history.iter().zip(&CALLS) {
    ///     if record.command != *command || record.reply != *reply {
    ///         return false;
    ///     }
    /// }
    /// ```
    pub fn history(&self) -> &[Record<K, V>]
        ensures calls { result.now ≡ self.now.history }
        ensures replays { IsHistoryOf K.cmp K.seen V.seen self.now.history self.now.pairs }
    {
        &self.history
    }

    /// Returns the index and the history. Allocates nothing.
    ///
    /// ```
    /// let (index, history) = state.into_parts();
    /// ```
    pub fn into_parts(self) -> (TreeIndexOf<K, V, LEN>, Vec<Record<K, V>>)
        ensures pairs { result.0.pairs ≡ self.pairs }
        ensures calls { result.1.items ≡ self.history }
        ensures replays { IsHistoryOf K.cmp K.seen V.seen self.history self.pairs }
    {
        let StateOf { index, history } = self;
        (index, history)
    }

    /// Answers a command, and appends a clone of it with its reply to the history.
    ///
    /// Returns `Err` with the command if an allocation fails; index and history are then unchanged.
    /// The room for the record and the clones are allocated before the index changes. A reply is
    /// never `Refused`.
    ///
    /// ```
    /// match state.apply(*command) {
    ///     Ok(told) if told == *reply => {}
    ///     Ok(_) => return Ok(false),
    ///     Err(_) => return Err(AllocError),
    /// }
    /// ```
    #[inline(always)]
    pub fn apply(&mut self, command: Command<K, V>) -> Result<Reply<V>, Command<K, V>>
        ensures ok { IfOk result (Appends K.cmp K.seen V.seen self.old self.new command) }
        ensures handed_back { IfErr result (λ back. back ≡ command) }
        ensures err { OnErr result (self.new ≡ self.old) }
    {
        match command {
            Command::Insert(key, value) => match self.insert(key, value) {
                Ok(()) => Ok(Reply::Stored),
                Err(InsertError::Duplicate(_, _)) => Ok(Reply::Duplicate),
                Err(InsertError::OutOfMemory(key, value)) => Err(Command::Insert(key, value)),
            },
            Command::Upsert(key, value) => self.upsert(key, value),
            Command::Remove(key) => self.remove(key),
            Command::RemoveRange(low, high) => self.remove_range(low, high),
            Command::Clear => self.clear(),
            Command::Peek(key) => self.look_up(key),
        }
    }

    /// Does what [`apply`](StateOf::apply) does with an insert, and returns the pair for a
    /// duplicate too.
    ///
    /// After `OutOfMemory` index and history are unchanged.
    ///
    /// ```
    /// let Err(back) = state.insert(1, 1) else {
    ///     return false;
    /// };
    /// assert!(rt; back == InsertError::OutOfMemory(1, 1) && stands(state, calls, &[]));
    /// ```
    pub fn insert(&mut self, key: K, value: V) -> Result<(), InsertError<K, V>>
        ensures { RecordsInsert K.cmp K.seen V.seen self.old self.new key value result }
    {
        match PreparedPair::new(key, value) {
            Ok(pair) => self.insert_prepared(pair),
            Err((key, value)) => Err(InsertError::OutOfMemory(key, value)),
        }
    }

    /// Does what [`insert`](StateOf::insert) does, with a pair whose clones for the history are
    /// made.
    ///
    /// ```
    /// match PreparedPair::new(key, value) {
    ///     Ok(pair) => self.insert_prepared(pair),
    ///     Err((key, value)) => Err(InsertError::OutOfMemory(key, value)),
    /// }
    /// ```
    pub fn insert_prepared(&mut self, pair: PreparedPair<K, V>) -> Result<(), InsertError<K, V>>
        ensures { RecordsInsert K.cmp K.seen V.seen self.old self.new pair.0 pair.1 result }
    {
        let PreparedPair {
            key,
            value,
            kept_key,
            kept_value,
        } = pair;
        if self.history.reserve(1).is_err() {
            return Err(InsertError::OutOfMemory(key, value));
        }
        match self.index.insert_sync(key, value) {
            Ok(()) => {
                let kept = Command::Insert(kept_key, kept_value);
                keep(&mut self.history, kept, Reply::Stored);
                Ok(())
            }
            Err(InsertError::Duplicate(key, value)) => {
                let kept = Command::Insert(kept_key, kept_value);
                keep(&mut self.history, kept, Reply::Duplicate);
                Err(InsertError::Duplicate(key, value))
            }
            Err(InsertError::OutOfMemory(key, value)) => Err(InsertError::OutOfMemory(key, value)),
        }
    }

    // Answers an upsert. Clones of the pair go into the history.
    fn upsert(&mut self, key: K, value: V) -> Result<Reply<V>, Command<K, V>>
        ensures ok { IfOk result (Appends K.cmp K.seen V.seen self.old self.new (Command.Upsert key value)) }
        ensures handed_back { IfErr result (λ back. back ≡ Command.Upsert key value) }
        ensures err { OnErr result (self.new ≡ self.old) }
    {
        let pair = match PreparedPair::new(key, value) {
            Ok(pair) => pair,
            Err((key, value)) => return Err(Command::Upsert(key, value)),
        };
        match self.upsert_prepared(pair) {
            Ok(()) => Ok(Reply::Stored),
            Err((key, value)) => Err(Command::Upsert(key, value)),
        }
    }

    /// Does what [`apply`](StateOf::apply) does with an upsert, with a pair whose clones for the
    /// history are made.
    ///
    /// Returns `Err` with the pair if an allocation fails; index and history are then unchanged.
    ///
    /// ```
    /// match self.upsert_prepared(pair) {
    ///     Ok(()) => Ok(Reply::Stored),
    ///     Err((key, value)) => Err(Command::Upsert(key, value)),
    /// }
    /// ```
    pub fn upsert_prepared(&mut self, pair: PreparedPair<K, V>) -> Result<(), (K, V)>
        ensures ok { IfOk result
            (λ _. Appends K.cmp K.seen V.seen self.old self.new (Command.Upsert pair.0 pair.1) Reply.Stored) }
        ensures handed_back { IfErr result (λ back. back ≡ pair) }
        ensures err { OnErr result (self.new ≡ self.old) }
    {
        let PreparedPair {
            key,
            value,
            kept_key,
            kept_value,
        } = pair;
        if self.history.reserve(1).is_err() {
            return Err((key, value));
        }
        self.index.upsert_sync(key, value)?;
        keep(
            &mut self.history,
            Command::Upsert(kept_key, kept_value),
            Reply::Stored,
        );
        Ok(())
    }

    // Answers a removal. The key itself goes into the history.
    #[inline(always)]
    fn remove(&mut self, key: K) -> Result<Reply<V>, Command<K, V>>
        ensures ok { IfOk result (Appends K.cmp K.seen V.seen self.old self.new (Command.Remove key)) }
        ensures handed_back { IfErr result (λ back. back ≡ Command.Remove key) }
        ensures err { OnErr result (self.new ≡ self.old) }
    {
        if self.history.reserve(1).is_err() {
            return Err(Command::Remove(key));
        }
        let was = self.index.remove_sync(&key);
        keep(&mut self.history, Command::Remove(key), Reply::Removed(was));
        Ok(Reply::Removed(was))
    }

    // Answers a removal of a range. The bounds themselves go into the history.
    fn remove_range(&mut self, low: Bound<K>, high: Bound<K>) -> Result<Reply<V>, Command<K, V>>
        ensures ok { IfOk result (Appends K.cmp K.seen V.seen self.old self.new (Command.RemoveRange low high)) }
        ensures handed_back { IfErr result (λ back. back ≡ Command.RemoveRange low high) }
        ensures err { OnErr result (self.new ≡ self.old) }
    {
        if self.history.reserve(1).is_err() {
            return Err(Command::RemoveRange(low, high));
        }
        self.index.remove_range_sync((low.as_ref(), high.as_ref()));
        keep(
            &mut self.history,
            Command::RemoveRange(low, high),
            Reply::Done,
        );
        Ok(Reply::Done)
    }

    // Answers a removal of all pairs.
    fn clear(&mut self) -> Result<Reply<V>, Command<K, V>>
        ensures ok { IfOk result (Appends K.cmp K.seen V.seen self.old self.new Command.Clear) }
        ensures handed_back { IfErr result (λ back. back ≡ Command.Clear) }
        ensures err { OnErr result (self.new ≡ self.old) }
    {
        if self.history.reserve(1).is_err() {
            return Err(Command::Clear);
        }
        self.index.clear();
        keep(&mut self.history, Command::Clear, Reply::Done);
        Ok(Reply::Done)
    }

    // Answers a look-up. A second clone of what it found goes into the history.
    #[inline(always)]
    fn look_up(&mut self, key: K) -> Result<Reply<V>, Command<K, V>>
        ensures ok { IfOk result (Appends K.cmp K.seen V.seen self.old self.new (Command.Peek key)) }
        ensures handed_back { IfErr result (λ back. back ≡ Command.Peek key) }
        ensures err { OnErr result (self.new ≡ self.old) }
    {
        if self.history.reserve(1).is_err() {
            return Err(Command::Peek(key));
        }
        let Ok((found, kept)) = two_clones(self.index.peek(&key)) else {
            return Err(Command::Peek(key));
        };
        keep(&mut self.history, Command::Peek(key), Reply::Found(kept));
        Ok(Reply::Found(found))
    }
}

impl<K, V, const LEN: usize> fmt::Debug for StateOf<K, V, LEN>
where
    K: IndexKey + SameClone + fmt::Debug,
    V: SameClone + fmt::Debug,
{
    fn fmt<W: fmt::Write>(&self, f: &mut fmt::Formatter<W>) -> fmt::Result {
        let history = self.history();
        write!(
            f,
            "State {{ index: {:?}, history: {history:?} }}",
            self.index()
        )
    }
}

// Clones an optional value twice.
fn two_clones<V: SameClone>(value: Option<&V>) -> Result<(Option<V>, Option<V>), AllocError>
    ensures first { IfOk result (λ clones. option_map V.seen clones.0 ≡ option_map V.seen (option_copied value.entry)) }
    ensures second { IfOk result
        (λ clones. option_map V.seen clones.1 ≡ option_map V.seen (option_copied value.entry)) }
{
    match value {
        None => Ok((None, None)),
        Some(value) => Ok((Some(value.clone()?), Some(value.clone()?))),
    }
}

// Appends a record. The caller must reserve room for it.
fn keep<K: Drop, V: Drop>(history: &mut Vec<Record<K, V>>, command: Command<K, V>, reply: Reply<V>)
    requires { vec_len history.old < vec_capacity history.old }
    ensures { history.new.items ≡ history.old.items ++ record { command = command; reply = reply } ∷ [] }
{
    history.push_reserved(Record { command, reply });
}
