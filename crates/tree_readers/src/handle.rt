//! A handle to an index, and the guard by which it lends the index.
ghost use Rattle.std.specs.Prelude.{◌≡◌, [], ◌∷◌, None, Some, IfErr, IfOk, IfSome, IsErrOf};
ghost use Rattle.std.specs.Borrow.{sem, RestsIfErr};
ghost use Rattle.tree_model.specs.History.{IsSamePairs};
ghost use Rattle.tree_readers.specs.Fronts.{after};
ghost use Rattle.tree_readers.specs.Knowns.{BeginsWithAll};
ghost use Rattle.tree_readers.specs.contracts.handle.HandleOver.{the_row};

use crate::errors::EnterError;
use crate::reader::{ReaderOf, ReadingOf};
use std::ops::Deref;
use tree_index::{IndexKey, SameClone, TreeIndexOf};

/// A handle to an index of fifteen pairs a leaf. See [`HandleOver`].
pub type Handle<K, V> = HandleOf<K, V, 15>;

/// A handle to an index of seven pairs a leaf. See [`HandleOver`].
pub type SmallHandle<K, V> = HandleOf<K, V, 7>;

/// A handle to an index of `LEN` pairs a leaf, 7 or 15. See [`HandleOver`].
pub type HandleOf<K, V, const LEN: usize> = HandleOver<ReaderOf<K, V, LEN>>;

/// What a handle to an index of fifteen pairs a leaf lends. See [`GuardOver`].
pub type Guard<'a, K, V> = GuardOf<'a, K, V, 15>;

/// What a handle to an index of seven pairs a leaf lends. See [`GuardOver`].
pub type SmallGuard<'a, K, V> = GuardOf<'a, K, V, 7>;

/// What a handle to an index of `LEN` pairs a leaf, 7 or 15, lends. See [`GuardOver`].
pub type GuardOf<'a, K, V, const LEN: usize> = GuardOver<
    'a,
    ReaderOf<K, V, LEN>,
    ReadingOf<K, V, LEN>,
>;

/// A reader inside the index that may leave it.
pub trait Leave<H> {
    // The reader afterwards.
    ghost left: { Self → H };

    /// Leaves the index.
    fn leave_to(self) -> H
        ensures { result ≡ left self };
}

impl<K: IndexKey + SameClone, V: SameClone, const LEN: usize> Leave<ReaderOf<K, V, LEN>>
    for ReadingOf<K, V, LEN> {
    ghost left = { λ reading. reading.commands ∷ [] };

    fn leave_to(self) -> ReaderOf<K, V, LEN> {
        self.leave()
    }
}

/// A reader outside the index that may enter it.
pub trait Enter: Drop {
    /// The reader inside.
    type Inside: Leave<Self>;

    // What it sees, by what it knows.
    ghost sees: { Self → Self.Inside → Type 0 };

    // That it was refused.
    ghost refuses: { Self → Type 0 };

    /// Enters the index. Returns `Err` with the reader if the writer was closed or dropped. Runs in
    /// constant time.
    fn enter_to(self) -> Result<Self::Inside, Self>
        ensures ok { IfOk result (λ inside. sees self inside) }
        ensures err { IfErr result (λ reader. (reader ≡ self) × refuses self) };
}

impl<K: IndexKey + SameClone, V: SameClone, const LEN: usize> Enter for ReaderOf<K, V, LEN> {
    type Inside = ReadingOf<K, V, LEN>;

    ghost sees = { λ reader reading. BeginsWithAll reading.commands reader };

    // No clause of the library says when a reader is refused.
    ghost refuses = { λ reader. Unit {0} };

    fn enter_to(self) -> Result<ReadingOf<K, V, LEN>, Self> {
        self.enter()
    }
}

/// A reader that enters by reference, for a caller that keeps it in a field or lends it on.
#[derive(Drop)]
pub struct HandleOver<H: Drop> {
    /// The reader. A guard has it while it lives, and keeps it if it is forgotten.
    pub reader: Option<H>,
}

/// What a handle lends: the index, until the guard is dropped. Then the handle has its reader
/// again.
///
/// A guard that is forgotten stays inside, and stops the writer.
pub struct GuardOver<'a, H: Drop, G: Leave<H>> {
    /// The handle.
    pub home: &'a mut HandleOver<H>,
    /// The reader inside the index.
    pub reading: G,
}

impl<H: Drop, G: Leave<H>> Drop for GuardOver<'_, H, G> {
    fn drop(self)
        ensures { self.exit.0.now.reader ≡ Some (G.left self.entry.reading) }
    {
        let GuardOver { home, reading } = self;
        home.reader = Some(reading.leave_to());
    }
}

impl<H: Enter> HandleOver<H> {
    /// Lends the index that was published last. It stays as it is until the guard is dropped.
    ///
    /// Returns `Err(Closed)` if the writer was closed or dropped, and `Err(Forgotten)` if an
    /// earlier guard was forgotten. The handle is then as it was. Doesn't wait, allocates nothing,
    /// and runs in constant time.
    ///
    /// ```
    /// match handle.enter() {
    ///     Ok(guard) => guard.peek(&item).copied(),
    ///     Err(_) => None,
    /// }
    /// ```
    pub fn enter(&mut self) -> Result<GuardOver<'_, H, H::Inside>, EnterError>
        ensures* kept { sem 𝓛 (RestsIfErr (the_row H.row) self.entry (λ guard. guard.home.ghost_name) result (λ last. last.reader ≡ self.old.reader)) }
        ensures same_reference { IfOk result (λ guard. guard.home.ghost_name ≡ self.entry.ghost_name) }
        ensures front { IfOk result (λ guard. IfSome self.old.reader (λ reader. H.sees reader guard.reading)) }
        ensures forgotten { self.old.reader ≡ None → IsErrOf result EnterError.Forgotten }
        ensures closed { IfSome self.old.reader
            (λ reader. IfErr result (λ error. (error ≡ EnterError.Closed) × H.refuses reader)) }
    {
        let Some(reader) = self.reader.take() else {
            return Err(EnterError::Forgotten);
        };
        match reader.enter_to() {
            Ok(reading) => Ok(GuardOver {
                home: self,
                reading,
            }),
            Err(reader) => {
                self.reader = Some(reader);
                Err(EnterError::Closed)
            }
        }
    }
}

impl<K: IndexKey + SameClone, V: SameClone, const LEN: usize> Deref
    for GuardOver<'_, ReaderOf<K, V, LEN>, ReadingOf<K, V, LEN>> {
    type Target = TreeIndexOf<K, V, LEN>;

    ghost deref_gives = { λ guard index. IsSamePairs K.cmp K.seen V.seen index.pairs (after K.cmp guard.reading.commands) };

    fn deref(&self) -> &TreeIndexOf<K, V, LEN> {
        self.reading.index()
    }
}
