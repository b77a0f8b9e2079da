//! What the lock of a shared index guards.
ghost use Rattle.std.specs.Prelude.{◌≡◌, ◌<◌, true, IfOk, IfErr, OnErr};
ghost use Rattle.tree_model.specs.History.{Appends};
ghost use Rattle.tree_state.specs.Inserts.{RecordsInsert};
ghost use Rattle.tree_shared.specs.Counted.{IsCounted, IsInsertCounted, IsUpsertCounted};
ghost use Rattle.tree_shared.specs.Recorded.{RecordsCommand, RecordsUpsert};
ghost use Rattle.tree_state.specs.Tallies.{raised, tally, reply_of_insert, reply_of_upsert, pair_of};
ghost use Rattle.tree_shared.specs.Replies.{is_reply_to};

use crate::serves::Serves;
use tree_index::{Command, IndexKey, InsertError, Reply, SameClone};
use tree_state::{Books, BooksOf, PassOf, PreparedPair, StateOf, Workers};

/// What the lock guards: the state, and the books that tally its history. `LEN` is 7 or 15.
pub struct Locked<K: IndexKey + SameClone, V: SameClone, B: Books, const LEN: usize> {
    pub(crate) state: StateOf<K, V, LEN>,
    pub(crate) books: BooksOf<B>,
    pub(crate) workers: Workers<B>,
    ghost tallied: { books ≡ tally state.history },
}

// Written out, so that it is proved here and not once more in each crate that shares an index.
impl<K: IndexKey + SameClone, V: SameClone, B: Books, const LEN: usize> Drop
    for Locked<K, V, B, LEN> {
    fn drop(self) {
        let Locked {
            state,
            books,
            workers,
        } = self;
        drop(state);
        drop(books);
        drop(workers);
    }
}

impl<K: IndexKey + SameClone, V: SameClone, B: Books, const LEN: usize> Locked<K, V, B, LEN> {
    /// Returns the state, the books that tally its history, and what is known of the workers.
    pub fn into_parts(self) -> (StateOf<K, V, LEN>, BooksOf<B>, Workers<B>)
        ensures parts { (result.0 ≡ self.state) × (result.1 ≡ self.books) × (result.2 ≡ self.workers) }
        ensures tallied { result.1 ≡ tally result.0.history }
    {
        let Locked {
            state,
            books,
            workers,
        } = self;
        (state, books, workers)
    }

    /// Answers a command, and counts its reply in the books and in the pass.
    ///
    /// Returns `Err` with the command if an allocation fails; nothing changed then.
    #[inline(always)]
    pub fn apply(
        &mut self,
        pass: &mut PassOf<B>,
        command: Command<K, V>,
    ) -> Result<Reply<V>, Command<K, V>>
        requires room { pass.old.calls < u64.MAX }
        ensures ok { IfOk result (Appends K.cmp K.seen V.seen self.old.state self.new.state command) }
        ensures kind { IfOk result (λ reply. is_reply_to command reply ≡ true) }
        ensures handed_back { IfErr result (λ back. back ≡ command) }
        ensures counted { IfOk result (λ reply. pass.new ≡ raised pass.old reply) }
        ensures kept { OnErr result (self.new.state ≡ self.old.state) }
        ensures uncounted { OnErr result (pass.new ≡ pass.old) }
    {
        let Locked {
            state,
            books,
            workers: _,
        } = self;
        let reply = state.apply(command)?;
        books.count(pass, &reply);
        Ok(reply)
    }

    /// Answers an insert, and counts its reply in the books and in the pass.
    ///
    /// Returns `Err` with the pair for a duplicate too. After `OutOfMemory` nothing changed.
    #[inline(always)]
    pub fn insert(
        &mut self,
        pass: &mut PassOf<B>,
        pair: PreparedPair<K, V>,
    ) -> Result<(), InsertError<K, V>>
        requires room { pass.old.calls < u64.MAX }
        ensures records { RecordsInsert K.cmp K.seen V.seen self.old.state self.new.state pair.0 pair.1 result }
        ensures pair { IfErr result (λ e. pair_of e ≡ pair) }
        ensures counted { pass.new ≡ raised {V = V} pass.old (reply_of_insert result) }
    {
        let Locked {
            state,
            books,
            workers: _,
        } = self;
        let outcome = state.insert_prepared(pair);
        match &outcome {
            Ok(()) => books.count::<V>(pass, &Reply::Stored),
            Err(InsertError::Duplicate(_, _)) => books.count::<V>(pass, &Reply::Duplicate),
            Err(InsertError::OutOfMemory(_, _)) => {}
        }
        outcome
    }

    /// Answers an upsert, and counts its reply in the books and in the pass.
    ///
    /// Returns `Err` with the pair if an allocation fails; nothing changed then.
    #[inline(always)]
    pub fn upsert(&mut self, pass: &mut PassOf<B>, pair: PreparedPair<K, V>) -> Result<(), (K, V)>
        requires room { pass.old.calls < u64.MAX }
        ensures ok { IfOk result
            (λ _. Appends K.cmp K.seen V.seen self.old.state self.new.state
            (Command.Upsert pair.0 pair.1) Reply.Stored) }
        ensures pair { IfErr result (λ back. back ≡ pair) }
        ensures counted { pass.new ≡ raised {V = V} pass.old (reply_of_upsert result) }
        ensures kept { OnErr result (self.new.state ≡ self.old.state) }
    {
        let Locked {
            state,
            books,
            workers: _,
        } = self;
        state.upsert_prepared(pair)?;
        books.count::<V>(pass, &Reply::Stored);
        Ok(())
    }
}

impl<K: IndexKey + SameClone, V: SameClone, B: Books, const LEN: usize> Serves<
    Command<K, V>,
    Result<Reply<V>, Command<K, V>>,
    B,
> for Locked<K, V, B, LEN> {
    ghost counts = { λ command answer old new. IsCounted command answer old new };

    ghost records = { λ old command answer new.
        RecordsCommand K.cmp K.seen V.seen old.state new.state command answer };

    #[inline(always)]
    fn serve(
        &mut self,
        pass: &mut PassOf<B>,
        command: Command<K, V>,
    ) -> Result<Reply<V>, Command<K, V>> {
        self.apply(pass, command)
    }
}

impl<K: IndexKey + SameClone, V: SameClone, B: Books, const LEN: usize> Serves<
    PreparedPair<K, V>,
    Result<(), InsertError<K, V>>,
    B,
> for Locked<K, V, B, LEN> {
    ghost counts = { λ pair answer old new. IsInsertCounted pair answer old new };

    ghost records = { λ old pair answer new.
        RecordsInsert K.cmp K.seen V.seen old.state new.state pair.0 pair.1 answer };

    #[inline(always)]
    fn serve(
        &mut self,
        pass: &mut PassOf<B>,
        pair: PreparedPair<K, V>,
    ) -> Result<(), InsertError<K, V>> {
        self.insert(pass, pair)
    }
}

impl<K: IndexKey + SameClone, V: SameClone, B: Books, const LEN: usize> Serves<
    PreparedPair<K, V>,
    Result<(), (K, V)>,
    B,
> for Locked<K, V, B, LEN> {
    ghost counts = { λ pair answer old new. IsUpsertCounted pair answer old new };

    ghost records = { λ old pair answer new.
        RecordsUpsert K.cmp K.seen V.seen old.state new.state pair answer };

    #[inline(always)]
    fn serve(&mut self, pass: &mut PassOf<B>, pair: PreparedPair<K, V>) -> Result<(), (K, V)> {
        self.upsert(pass, pair)
    }
}
