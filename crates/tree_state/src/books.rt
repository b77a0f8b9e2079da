//! The five ledgers of a shared index, under one type.
ghost use Rattle.tree_state.specs.Ledgers.{Named};

use std::marker::{Brand, PhantomData};
use std::sync::ledger::Ledger;

/// The books of a shared index: the name of each of its five ledgers, and how many parts it has.
///
/// Five types that are ledgers are books. So is a [`Brand`], whose names a caller chooses.
pub trait Books {
    // The ledger of all calls.
    ghost calls: { Named };

    // That of stored pairs.
    ghost stored: { Named };

    // That of removals that removed a pair.
    ghost removed: { Named };

    // That of look-ups that found a value.
    ghost found: { Named };

    // That of removals of a range and of all pairs.
    ghost done: { Named };
}

impl<C: Ledger, S: Ledger, M: Ledger, F: Ledger, D: Ledger> Books for (C, S, M, F, D) {
    ghost calls = { record { name = C.name; parts = C.parts } };

    ghost stored = { record { name = S.name; parts = S.parts } };

    ghost removed = { record { name = M.name; parts = M.parts } };

    ghost found = { record { name = F.name; parts = F.parts } };

    ghost done = { record { name = D.name; parts = D.parts } };
}

impl Books for Brand {
    ghost calls = { record { name = 0; parts = 0 } };

    ghost stored = { record { name = 0; parts = 0 } };

    ghost removed = { record { name = 0; parts = 0 } };

    ghost found = { record { name = 0; parts = 0 } };

    ghost done = { record { name = 0; parts = 0 } };
}

/// The ledger of all calls.
pub struct Calls<B: Books> {
    of: PhantomData<B>,
}

impl<B: Books> Ledger for Calls<B> {
    ghost name = { B.calls.name };

    ghost parts = { B.calls.parts };
}

/// The ledger of stored pairs.
pub struct Stored<B: Books> {
    of: PhantomData<B>,
}

impl<B: Books> Ledger for Stored<B> {
    ghost name = { B.stored.name };

    ghost parts = { B.stored.parts };
}

/// The ledger of removals that removed a pair.
pub struct Removed<B: Books> {
    of: PhantomData<B>,
}

impl<B: Books> Ledger for Removed<B> {
    ghost name = { B.removed.name };

    ghost parts = { B.removed.parts };
}

/// The ledger of look-ups that found a value.
pub struct Found<B: Books> {
    of: PhantomData<B>,
}

impl<B: Books> Ledger for Found<B> {
    ghost name = { B.found.name };

    ghost parts = { B.found.parts };
}

/// The ledger of removals of a range and of all pairs.
pub struct Done<B: Books> {
    of: PhantomData<B>,
}

impl<B: Books> Ledger for Done<B> {
    ghost name = { B.done.name };

    ghost parts = { B.done.parts };
}
