//! The rule of the readers and the writer: the published commands begin with all that any of them
//! knows.
ghost use Rattle.std.specs.Prelude.{[], ◌∷◌, ◌++◌};
ghost use Rattle.tree_readers.specs.Rules.{Keeps, Sees, Shows, known};

use crate::copy::CopyOf;
use atomic_table::{Join, Split};
use crossbeam_utils::rule::{Outcome, Protocol};
use std::collections::LinkedList;
use tree_index::{Command, IndexKey, SameClone};

/// What a reader or the writer knows. No value of it is made.
pub struct Known<K, V> {
    /// Lists with which the published commands begin.
    pub fronts: LinkedList<LinkedList<Command<K, V>>>,
    /// How many times the writer has shown another copy, if it is the writer that knows it.
    pub shows: u64,
}

/// The rule: the commands that the shown copy took in begin with each list that a reader or the
/// writer knows. No value of it is made.
pub struct Fronts;

impl<K: IndexKey + SameClone, V: SameClone, const LEN: usize> Protocol<
    CopyOf<K, V, LEN>,
    Known<K, V>,
> for Fronts {
    ghost holds = { λ copy views. Keeps copy.commands views };

    ghost first = { known ([] ∷ []) 0 };
}

// What is published is known afterwards, and begins with all that was known.
pub(crate) struct Look;

impl<K: IndexKey + SameClone, V: SameClone, const LEN: usize> Outcome<
    CopyOf<K, V, LEN>,
    Known<K, V>,
> for Look {
    ghost then = { λ v x y w. Sees v y.commands w };
}

// The same of the writer, which has shown another copy.
pub(crate) struct Showing;

impl<K: IndexKey + SameClone, V: SameClone, const LEN: usize> Outcome<
    CopyOf<K, V, LEN>,
    Known<K, V>,
> for Showing {
    ghost then = { λ v x y w. Shows v y.commands w };
}

// How the writer passes on what it knows, and keeps it.
pub(crate) struct Telling;

impl<K, V> Split<Known<K, V>> for Telling {
    ghost left = { λ v. v };

    ghost right = { λ v. v };
}

// How a reader takes in what the writer knows.
pub(crate) struct Learning;

impl<K, V> Join<Known<K, V>> for Learning {
    ghost both = { λ v w. known (v.fronts ++ w.fronts) v.shows };

    ghost spent = { known [] 0 };
}
