//! A copy of the index, with the commands that it took in.
ghost use Rattle.std.specs.Prelude.{◌≡◌, [], ◌∷◌, ◌++◌, MatchResult};
ghost use Rattle.tree_array.specs.Length.{IsLen};
ghost use Rattle.tree_model.specs.History.{IsSameCommand, IsSamePairs};
ghost use Rattle.tree_readers.specs.Fronts.{after};

use crate::edits::{cloned, edit};
use crate::past::{Past, add, nothing};
use left_right::Absorb;
use std::alloc::{AllocError, Global};
use std::collections::LinkedList;
use std::marker::Model;
use std::snapshot::Snapshot;
use tree_index::{Command, IndexKey, SameClone, TreeIndexOf};

/// A copy of the index. `LEN` is 7 or 15.
///
/// Contracts see its pairs and the commands that it took in, which it doesn't store. The type keeps
/// that the pairs are those after the commands, or clones of them.
pub struct CopyOf<K: IndexKey + SameClone, V: SameClone, const LEN: usize> {
    index: TreeIndexOf<K, V, LEN>,
    past: Snapshot<Past<Command<K, V>>>,
}

// Written out for the reason that the drop of `Tree` in `tree_root` is.
impl<K: IndexKey + SameClone, V: SameClone, const LEN: usize> Drop for CopyOf<K, V, LEN> {
    fn drop(self) {
        let CopyOf { index, past } = self;
        drop(index);
        drop(past);
    }
}

impl<K: IndexKey + SameClone, V: SameClone, const LEN: usize> Model for CopyOf<K, V, LEN> {
    ghost use Rattle.tree_readers.specs.Fronts.{Front, IsFront};

    ghost Value = { Front K V };

    ghost view = { λ c. record { pairs = c.index.pairs; commands = c.past.value } };

    ghost invariant = { λ c. IsFront K.cmp K.seen V.seen c.past.value c.index.pairs };
}

impl<K: IndexKey + SameClone, V: SameClone, const LEN: usize> CopyOf<K, V, LEN> {
    // Creates an empty copy, which took in no command. Allocates nothing.
    pub(crate) fn new(alloc: Global) -> Self
        requires { IsLen LEN }
        ensures pairs { result.pairs ≡ [] }
        ensures commands { result.commands ≡ [] }
    {
        CopyOf {
            index: TreeIndexOf::new(alloc),
            past: nothing(),
        }
    }

    // Returns the index.
    pub(crate) fn index(&self) -> &TreeIndexOf<K, V, LEN>
        ensures pairs { result.now.pairs ≡ self.now.pairs }
        ensures front { IsSamePairs K.cmp K.seen V.seen result.now.pairs (after K.cmp self.now.commands) }
    {
        &self.index
    }

    // Takes the index out.
    pub(crate) fn into_index(self) -> TreeIndexOf<K, V, LEN>
        ensures pairs { result.pairs ≡ self.pairs }
        ensures front { IsSamePairs K.cmp K.seen V.seen result.pairs (after K.cmp self.commands) }
    {
        let CopyOf { index, past } = self;
        drop(past);
        index
    }

    // Takes in a command, of which contracts see another form: the command itself, or its clone.
    // Returns `Err` with the command if it cannot allocate.
    fn take_in(
        &mut self,
        command: Command<K, V>,
        shown: Snapshot<Command<K, V>>,
    ) -> Result<(), Command<K, V>>
        requires { IsSameCommand K.cmp K.seen V.seen command shown.value }
        ensures { MatchResult result (λ _. self.new.commands ≡ self.old.commands ++ shown.value ∷ [])
            (λ back. (back ≡ command) × (self.new.commands ≡ self.old.commands)) }
    {
        edit(&mut self.index, command)?;
        add(&mut self.past, shown);
        Ok(())
    }
}

impl<K: IndexKey + SameClone, V: SameClone, const LEN: usize> Absorb<Command<K, V>>
    for CopyOf<K, V, LEN> {
    type State = LinkedList<Command<K, V>>;

    ghost state = { λ copy. copy.commands };

    ghost applied = { λ commands command. commands ++ command ∷ [] };

    fn absorb_first(&mut self, operation: &Command<K, V>, _other: &Self) -> Result<(), AllocError> {
        let command = cloned(operation)?;
        self.take_in(command, Snapshot::of(operation))
            .map_err(|_| AllocError)
    }

    fn absorb_second(
        &mut self,
        operation: Command<K, V>,
        _other: &Self,
    ) -> Result<(), Command<K, V>> {
        let shown = Snapshot::of(&operation);
        self.take_in(operation, shown)
    }
}
