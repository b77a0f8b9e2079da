//! An index that threads share.
ghost use Rattle.std.specs.Prelude.{◌≡◌, ◌+◌, ◌<◌, All, true, vec_len, IfOk, IfErr, OnErr};
ghost use Rattle.tree_array.specs.Length.{IsLen};
ghost use Rattle.tree_model.specs.History.{IsHistoryOf, IsSameBound};
ghost use Rattle.tree_model.specs.Pairs.{lent_bound};
ghost use Rattle.tree_state.specs.Ledgers.{IsBlankFor};
ghost use Rattle.tree_shared.specs.Replies.{is_reply_to};
ghost use Rattle.tree_state.specs.Tallies.{none, raised, sum_of, tally, pair_of, reply_of_insert, reply_of_upsert, reply_of_remove, reply_of_removal, reply_of_peek};

use crate::closing::{ClosedOf, UnclosedOver};
use crate::locked::Locked;
use crate::serves::serve;
use std::alloc::{AllocError, Global};
use std::fmt;
use std::marker::PhantomData;
use std::ops::Bound;
use std::sync::{Mutex, Wait};
use tree_index::{Command, IndexKey, InsertError, Record, Reply, SameClone, TreeIndexOf};
use tree_state::{
    Blanks, Books, BooksOf, Ledgers, PassOf, PreparedPair, StateOf, Workers, found_value,
    is_removed,
};

/// An index of fifteen pairs a leaf that threads share by reference. See [`SharedOver`].
pub type SharedTreeIndex<K, V, C, S, M, F, D> = SharedTreeIndexOf<K, V, C, S, M, F, D, 15>;

/// An index that threads share by reference, whose five ledgers are types. See [`SharedOver`].
pub type SharedTreeIndexOf<K, V, C, S, M, F, D, const LEN: usize> = SharedOver<
    K,
    V,
    (C, S, M, F, D),
    LEN,
>;

/// An index that threads share by reference, each with a pass of its own. `LEN` is 7 or 15.
///
/// One lock guards the index, the history of its calls and the tally of the history, and each call
/// takes it once. A call is counted in the pass that it was made with.
#[derive(Drop)]
pub struct SharedOver<K: IndexKey + SameClone, V: SameClone, B: Books, const LEN: usize> {
    locked: Mutex<Locked<K, V, B, LEN>>,
}

impl<K: IndexKey + SameClone, V: SameClone, B: Books, const LEN: usize> SharedOver<K, V, B, LEN> {
    /// Creates an empty index, and a pass for each worker, which has counted nothing.
    ///
    /// Returns `Err` if it cannot allocate the passes, which is all it allocates. The caller must
    /// choose 7 or 15 for `LEN`, and make the blanks for as many workers.
    ///
    /// ```
    /// let (held, mut passes) = SharedTreeIndex::<u64, u64, C, S, M, F, D>::new(alloc, 2, blanks)?;
    /// let [one, two] = passes.as_mut_slice() else {
    ///     unreachable!()
    /// };
    /// ```
    pub fn new(
        alloc: Global,
        workers: usize,
        blanks: Blanks,
    ) -> Result<(Self, Vec<PassOf<B>>), AllocError>
        requires len { IsLen LEN }
        requires calls { IsBlankFor workers blanks.calls B.calls.name B.calls.parts }
        requires stored { IsBlankFor workers blanks.stored B.stored.name B.stored.parts }
        requires removed { IsBlankFor workers blanks.removed B.removed.name B.removed.parts }
        requires found { IsBlankFor workers blanks.found B.found.name B.found.parts }
        requires done { IsBlankFor workers blanks.done B.done.name B.done.parts }
        ensures count { IfOk result (λ made. vec_len made.1 ≡ workers) }
        ensures zero { IfOk result (λ made. All (λ pass. pass ≡ none) made.1.items) }
    {
        let mut ledgers = Ledgers::open(workers, blanks);
        let mut passes = Vec::with_capacity(alloc, workers)?;
        for _i in 0..workers {
            passes.push(ledgers.hand_out())?;
        }
        let workers = Workers {
            number: workers,
            of: PhantomData,
        };
        let locked = Locked {
            state: StateOf::new(alloc),
            books: BooksOf { ledgers },
            workers,
        };
        let shared = SharedOver {
            locked: Mutex::new(locked),
        };
        Ok((shared, passes))
    }

    /// Stores a pair if its key is absent.
    ///
    /// Returns `Duplicate` if the key is present, and `OutOfMemory` if an allocation fails, for the
    /// pair or for the history, even if the key is present. Both return the pair. After
    /// `OutOfMemory` nothing changed. Clones the pair before it takes the lock.
    ///
    /// ```
    /// for number in numbers {
    ///     let _ = owners.insert(rt, pass, *number, owner);
    /// }
    /// ```
    pub fn insert<R: Wait>(
        &self,
        rt: &R,
        pass: &mut PassOf<B>,
        key: K,
        value: V,
    ) -> Result<(), InsertError<K, V>>
        requires { pass.old.calls < u64.MAX }
        ensures counted { pass.new ≡ raised {V = V} pass.old (reply_of_insert result) }
        ensures pair { IfErr result (λ e. pair_of e ≡ (key, value)) }
    {
        match PreparedPair::new(key, value) {
            // No clause sees that this is an insert: an upsert that stores its pair is counted
            // alike.
            Ok(pair) => serve(&self.locked, rt, pass, pair),
            Err((key, value)) => Err(InsertError::OutOfMemory(key, value)),
        }
    }

    /// Stores a pair. A pair with an equal key is replaced, key and value.
    ///
    /// Returns `Err` with the pair if an allocation fails; nothing changed then. Clones the pair
    /// before it takes the lock.
    ///
    /// ```
    /// Command::Upsert(key, value) => match shared.upsert(rt, pass, *key, *value) {
    ///     Ok(()) => Reply::Stored,
    ///     Err(back) => {
    ///         assert!(rt; back == (*key, *value));
    ///         return Err(AllocError);
    ///     }
    /// },
    /// ```
    pub fn upsert<R: Wait>(
        &self,
        rt: &R,
        pass: &mut PassOf<B>,
        key: K,
        value: V,
    ) -> Result<(), (K, V)>
        requires { pass.old.calls < u64.MAX }
        ensures counted { pass.new ≡ raised {V = V} pass.old (reply_of_upsert result) }
        ensures pair { IfErr result (λ pair. pair ≡ (key, value)) }
    {
        let pair = PreparedPair::new(key, value)?;
        serve(&self.locked, rt, pass, pair)
    }

    /// Removes the pair with a key. Returns whether there was one.
    ///
    /// Returns `Err` if an allocation fails; nothing changed then. Clones the key before it takes
    /// the lock.
    ///
    /// ```
    /// Command::Remove(key) => Reply::Removed(shared.remove(rt, pass, key)?),
    /// ```
    pub fn remove<R: Wait>(&self, rt: &R, pass: &mut PassOf<B>, key: &K) -> Result<bool, AllocError>
        requires { pass.old.calls < u64.MAX }
        ensures { pass.new ≡ raised {V = V} pass.old (reply_of_remove result) }
    {
        let copy = key.clone()?;
        match self.apply(rt, pass, Command::Remove(copy)) {
            Ok(reply) => Ok(is_removed(&reply)),
            Err(_) => Err(AllocError),
        }
    }

    /// Removes every pair whose key is within both bounds.
    ///
    /// Returns `Err` if an allocation fails; nothing changed then. Clones the bounds before it
    /// takes the lock.
    ///
    /// ```
    /// shared.remove_range(rt, pass, (low.as_ref(), high.as_ref()))?;
    /// ```
    pub fn remove_range<R: Wait>(
        &self,
        rt: &R,
        pass: &mut PassOf<B>,
        bounds: (Bound<&K>, Bound<&K>),
    ) -> Result<(), AllocError>
        requires { pass.old.calls < u64.MAX }
        ensures { pass.new ≡ raised {V = V} pass.old (reply_of_removal result) }
    {
        // No clause sees which bounds are removed: the lock hides the history, and a pass has
        // numbers alone.
        let (low, high) = cloned_bounds(bounds)?;
        match self.apply(rt, pass, Command::RemoveRange(low, high)) {
            Ok(_) => Ok(()),
            Err(_) => Err(AllocError),
        }
    }

    /// Removes all pairs.
    ///
    /// Returns `Err` if it cannot allocate the record of the call, which is all it allocates;
    /// nothing changed then. Drops each pair under the lock.
    ///
    /// ```
    /// shared.clear(rt, pass)?;
    /// ```
    pub fn clear<R: Wait>(&self, rt: &R, pass: &mut PassOf<B>) -> Result<(), AllocError>
        requires { pass.old.calls < u64.MAX }
        ensures { pass.new ≡ raised {V = V} pass.old (reply_of_removal result) }
    {
        match self.apply(rt, pass, Command::Clear) {
            Ok(_) => Ok(()),
            Err(_) => Err(AllocError),
        }
    }

    /// Returns a clone of the value of a key.
    ///
    /// Returns `Err` if an allocation fails; nothing changed then. Clones the key before it takes
    /// the lock.
    ///
    /// ```
    /// Command::Peek(key) => Reply::Found(shared.peek(rt, pass, key)?),
    /// ```
    pub fn peek<R: Wait>(
        &self,
        rt: &R,
        pass: &mut PassOf<B>,
        key: &K,
    ) -> Result<Option<V>, AllocError>
        requires { pass.old.calls < u64.MAX }
        ensures { pass.new ≡ raised {V = V} pass.old (reply_of_peek result) }
    {
        let copy = key.clone()?;
        match self.apply(rt, pass, Command::Peek(copy)) {
            Ok(reply) => Ok(found_value(reply)),
            Err(_) => Err(AllocError),
        }
    }

    // Answers a command under the lock. Returns `Err` with the command if an allocation fails.
    #[inline(always)]
    fn apply<R: Wait>(
        &self,
        rt: &R,
        pass: &mut PassOf<B>,
        command: Command<K, V>,
    ) -> Result<Reply<V>, Command<K, V>>
        requires { pass.old.calls < u64.MAX }
        ensures kind { IfOk result (λ reply. is_reply_to command reply ≡ true) }
        ensures handed_back { IfErr result (λ back. back ≡ command) }
        ensures counted { IfOk result (λ reply. pass.new ≡ raised pass.old reply) }
        ensures uncounted { OnErr result (pass.new ≡ pass.old) }
    {
        serve(&self.locked, rt, pass, command)
    }

    /// Ends the sharing, with every pass. Allocates nothing.
    ///
    /// Returns `PassMissing` if a pass is absent, with the shared index and the passes.
    ///
    /// ```
    /// match held.close(passes) {
    ///     Ok(closed) => Ok(Claims { closed, told }),
    ///     Err(_) => unreachable!(),
    /// }
    /// ```
    pub fn close(
        self,
        passes: Vec<PassOf<B>>,
    ) -> Result<ClosedOf<K, V, LEN>, UnclosedOver<K, V, B, LEN>>
        ensures replays { IfOk result
            (λ closed. IsHistoryOf K.cmp K.seen V.seen closed.history.items closed.index.pairs) }
        ensures tally { IfOk result (λ closed. closed.tally ≡ tally closed.history.items) }
        ensures passes { IfOk result (λ closed. closed.tally ≡ sum_of passes.items) }
        ensures missing { OnErr result (vec_len passes + 1 < B.calls.parts) }
        ensures given_back { IfErr result (λ e. (shared : _) × (e ≡ UnclosedOver.PassMissing shared passes)) }
    {
        let (state, books, workers) = self.locked.into_inner().into_parts();
        if passes.len() < workers.number {
            let locked = Locked {
                state,
                books,
                workers,
            };
            let shared = SharedOver {
                locked: Mutex::new(locked),
            };
            return Err(UnclosedOver::PassMissing(shared, passes));
        }
        let (index, history) = state.into_parts();
        let BooksOf { ledgers } = books;
        let tally = ledgers.take_all(&workers, passes);
        Ok(ClosedOf {
            index,
            history,
            tally,
        })
    }

    /// Ends the sharing without the passes. Returns the index and the history. Allocates nothing.
    ///
    /// ```
    /// let (index, history) = shared.into_parts();
    /// ```
    pub fn into_parts(self) -> (TreeIndexOf<K, V, LEN>, Vec<Record<K, V>>)
        ensures { IsHistoryOf K.cmp K.seen V.seen result.1.items result.0.pairs }
    {
        // No clause sees that this is what the lock guarded: without the passes nothing here has
        // its numbers.
        let (state, _books, _workers) = self.locked.into_inner().into_parts();
        state.into_parts()
    }
}

// Clones both bounds of a range.
fn cloned_bounds<K: IndexKey + SameClone>(
    bounds: (Bound<&K>, Bound<&K>),
) -> Result<(Bound<K>, Bound<K>), AllocError>
    ensures low { IfOk result (λ copies. IsSameBound K.cmp K.seen (lent_bound bounds.entry.0) copies.0) }
    ensures high { IfOk result (λ copies. IsSameBound K.cmp K.seen (lent_bound bounds.entry.1) copies.1) }
{
    Ok((cloned_bound(bounds.0)?, cloned_bound(bounds.1)?))
}

// Clones a bound.
fn cloned_bound<K: IndexKey + SameClone>(bound: Bound<&K>) -> Result<Bound<K>, AllocError>
    ensures { IfOk result (λ copy. IsSameBound K.cmp K.seen (lent_bound bound.entry) copy) }
{
    match bound {
        Bound::Included(key) => Ok(Bound::Included(key.clone()?)),
        Bound::Excluded(key) => Ok(Bound::Excluded(key.clone()?)),
        Bound::Unbounded => Ok(Bound::Unbounded),
    }
}

/// Takes no lock, and so shows no pair.
impl<K, V, B, const LEN: usize> fmt::Debug for SharedOver<K, V, B, LEN>
where
    K: IndexKey + SameClone,
    V: SameClone,
    B: Books,
{
    fn fmt<W: fmt::Write>(&self, f: &mut fmt::Formatter<W>) -> fmt::Result {
        write!(f, "SharedTreeIndex {{ .. }}")
    }
}
