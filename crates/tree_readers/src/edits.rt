//! What a command does to an index, and clones of commands.
ghost use Rattle.std.specs.Prelude.{◌≡◌, IfOk, OnOk, IfErr};
ghost use Rattle.tree_model.specs.History.{IsSameBound, IsSameCommand};
ghost use Rattle.tree_readers.specs.Fronts.{Does};

use std::alloc::AllocError;
use std::ops::Bound;
use tree_index::{Command, IndexKey, InsertError, SameClone, TreeIndexOf};

// Carries out a command on an index. Returns `Err` with the command if it cannot allocate; then the
// pairs are as they were.
pub(crate) fn edit<K: IndexKey + SameClone, V: SameClone, const LEN: usize>(
    index: &mut TreeIndexOf<K, V, LEN>,
    command: Command<K, V>,
) -> Result<(), Command<K, V>>
    ensures ok { OnOk result (Does K.cmp V.seen index.old.pairs command index.new.pairs) }
    ensures err { IfErr result (λ back. (back ≡ command) × (index.new.pairs ≡ index.old.pairs)) }
{
    match command {
        Command::Insert(key, value) => match index.insert_sync(key, value) {
            Ok(()) => Ok(()),
            Err(InsertError::Duplicate(_, _)) => Ok(()),
            Err(InsertError::OutOfMemory(key, value)) => Err(Command::Insert(key, value)),
        },
        Command::Upsert(key, value) => match index.upsert_sync(key, value) {
            Ok(()) => Ok(()),
            Err((key, value)) => Err(Command::Upsert(key, value)),
        },
        Command::Remove(key) => {
            index.remove_sync(&key);
            Ok(())
        }
        Command::RemoveRange(low, high) => {
            index.remove_range_sync((low.as_ref(), high.as_ref()));
            Ok(())
        }
        Command::Clear => {
            index.clear();
            Ok(())
        }
        Command::Peek(_) => Ok(()),
    }
}

// Clones a command.
pub(crate) fn cloned<K: IndexKey + SameClone, V: SameClone>(
    command: &Command<K, V>,
) -> Result<Command<K, V>, AllocError>
    ensures { IfOk result (λ copy. IsSameCommand K.cmp K.seen V.seen copy command.now) }
{
    match command {
        Command::Insert(key, value) => Ok(Command::Insert(key.clone()?, value.clone()?)),
        Command::Upsert(key, value) => Ok(Command::Upsert(key.clone()?, value.clone()?)),
        Command::Remove(key) => Ok(Command::Remove(key.clone()?)),
        Command::RemoveRange(low, high) => {
            Ok(Command::RemoveRange(cloned_bound(low)?, cloned_bound(high)?))
        }
        Command::Clear => Ok(Command::Clear),
        Command::Peek(key) => Ok(Command::Peek(key.clone()?)),
    }
}

// Clones a bound.
fn cloned_bound<K: IndexKey + SameClone>(bound: &Bound<K>) -> Result<Bound<K>, AllocError>
    ensures { IfOk result (λ copy. IsSameBound K.cmp K.seen copy bound.now) }
{
    match bound {
        Bound::Included(key) => Ok(Bound::Included(key.clone()?)),
        Bound::Excluded(key) => Ok(Bound::Excluded(key.clone()?)),
        Bound::Unbounded => Ok(Bound::Unbounded),
    }
}
