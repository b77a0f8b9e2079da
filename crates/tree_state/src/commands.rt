//! Lists of commands.
ghost use Rattle.std.specs.Prelude.{◌≡◌, IfOk, OnErr};
ghost use Rattle.tree_state.specs.Climbs.{Climbs, PacksBy};
ghost use Rattle.tree_state.specs.Served.{AreServed, Spends, SpendsBy};
ghost use Rattle.tree_model.specs.Runs.{Step, Runs};
ghost use Rattle.tree_model.specs.declared.commands.Command.TheVariants.{Insert, Upsert};

use std::alloc::AllocError;
use tree_index::{Command, IndexKey, InsertError, Reply, SameClone, TreeIndexOf};

/// Applies the commands in turn and returns a reply to each.
///
/// Returns `Err` if it cannot allocate the replies; nothing changed then. A command in which an
/// allocation fails gets the reply `Refused` and leaves the pairs as they were, and the run goes
/// on.
///
/// Of the writes before the first command that removes, as many as the index had spare are not
/// refused. If all commands are inserts of ascending keys into an index without a tree, and none is
/// refused, the depth is at most 1, or there are more than `LEN^depth` commands.
///
/// Allocates the replies at once, before the first command; each command costs what the call of the
/// index costs. A `Peek` clones the value that it finds.
///
/// ```
/// for key in first..=last {
///     commands.push(Command::Insert(key, key))?;
/// }
///
/// fn run(&mut self, commands: Vec<Command<u64, u64>>) -> Result<Vec<Reply<u64>>, AllocError> {
///     run(self, commands)
/// }
/// ```
pub fn run<K: IndexKey, V: SameClone, const LEN: usize>(
    index: &mut TreeIndexOf<K, V, LEN>,
    commands: Vec<Command<K, V>>,
) -> Result<Vec<Reply<V>>, AllocError>
    ensures runs { IfOk result
        (λ replies. Runs K.cmp V.seen index.old.pairs commands.items replies.items index.new.pairs) }
    ensures spare { IfOk result (λ replies. AreServed index.old.spare commands.items replies.items) }
    ensures depth { IfOk result (λ replies. Climbs K.cmp LEN commands.items replies.items index.old index.new) }
    ensures err { OnErr result (index.new ≡ index.old) }
{
    let mut replies = Vec::with_capacity(*commands.allocator(), commands.len())?;
    for command in commands {
        replies.push(answer(index, command)).unwrap();
    }
    Ok(replies)
}

// Answers one command.
fn answer<K: IndexKey, V: SameClone, const LEN: usize>(
    index: &mut TreeIndexOf<K, V, LEN>,
    command: Command<K, V>,
) -> Reply<V>
    ensures step { Step K.cmp V.seen index.old.pairs command result index.new.pairs }
    ensures spare { SpendsBy command index.old.spare index.new.spare result }
    ensures packed { PacksBy K.cmp LEN command index.old index.new result }
{
    match command {
        Command::Insert(key, value) => insert(index, key, value),
        Command::Upsert(key, value) => upsert(index, key, value),
        Command::Remove(key) => Reply::Removed(index.remove_sync(&key)),
        Command::RemoveRange(low, high) => {
            index.remove_range_sync((low.as_ref(), high.as_ref()));
            Reply::Done
        }
        Command::Clear => {
            index.clear();
            Reply::Done
        }
        Command::Peek(key) => match index.peek(&key) {
            None => Reply::Found(None),
            Some(value) => match value.clone() {
                Ok(value) => Reply::Found(Some(value)),
                Err(_) => Reply::Refused,
            },
        },
    }
}

// Answers an insert. A function of its own, so that a wrong body of it is tried in its own few
// goals.
fn insert<K: IndexKey, V: SameClone, const LEN: usize>(
    index: &mut TreeIndexOf<K, V, LEN>,
    key: K,
    value: V,
) -> Reply<V>
    ensures step { Step K.cmp V.seen index.old.pairs (Insert key value) result index.new.pairs }
    ensures spare { Spends index.old.spare index.new.spare result }
    ensures packed { PacksBy K.cmp LEN (Insert key value) index.old index.new result }
{
    match index.insert_sync(key, value) {
        Ok(()) => Reply::Stored,
        Err(InsertError::Duplicate(_, _)) => Reply::Duplicate,
        Err(InsertError::OutOfMemory(_, _)) => Reply::Refused,
    }
}

// Answers an upsert. A function of its own for the same reason.
fn upsert<K: IndexKey, V: SameClone, const LEN: usize>(
    index: &mut TreeIndexOf<K, V, LEN>,
    key: K,
    value: V,
) -> Reply<V>
    ensures step { Step K.cmp V.seen index.old.pairs (Upsert key value) result index.new.pairs }
    ensures spare { Spends index.old.spare index.new.spare result }
{
    let Ok(()) = index.upsert_sync(key, value) else {
        return Reply::Refused;
    };
    Reply::Stored
}
