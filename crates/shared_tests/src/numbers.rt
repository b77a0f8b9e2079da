//! Calls of a shared index over numbers.
use std::alloc::AllocError;
use std::process::Abort;
use std::sync::Wait;
use tree_index::{Command, InsertError, Reply};
use tree_shared::{Books, PassOf, SharedOver};

// A call, and the reply to it.
pub(crate) type Row = (Command<u64, u64>, Reply<u64>);

// Returns what a call is answered. Returns `Err` if an allocation fails in it.
pub(crate) fn reply_to<B: Books, R: Wait + Abort, const LEN: usize>(
    rt: &R,
    shared: &SharedOver<u64, u64, B, LEN>,
    pass: &mut PassOf<B>,
    command: &Command<u64, u64>,
) -> Result<Reply<u64>, AllocError> {
    if pass.tally().calls > 10_000 {
        return Err(AllocError);
    }
    Ok(match command {
        Command::Insert(key, value) => match shared.insert(rt, pass, *key, *value) {
            Ok(()) => Reply::Stored,
            Err(InsertError::Duplicate(_, _)) => Reply::Duplicate,
            Err(InsertError::OutOfMemory(_, _)) => return Err(AllocError),
        },
        Command::Upsert(key, value) => match shared.upsert(rt, pass, *key, *value) {
            Ok(()) => Reply::Stored,
            Err(back) => {
                assert!(rt; back == (*key, *value));
                return Err(AllocError);
            }
        },
        Command::Remove(key) => Reply::Removed(shared.remove(rt, pass, key)?),
        Command::RemoveRange(low, high) => {
            shared.remove_range(rt, pass, (low.as_ref(), high.as_ref()))?;
            Reply::Done
        }
        Command::Clear => {
            shared.clear(rt, pass)?;
            Reply::Done
        }
        Command::Peek(key) => Reply::Found(shared.peek(rt, pass, key)?),
    })
}

// Makes these calls. Returns whether each was answered as it should be.
pub(crate) fn are_answered<B: Books, R: Wait + Abort, const LEN: usize>(
    rt: &R,
    shared: &SharedOver<u64, u64, B, LEN>,
    pass: &mut PassOf<B>,
    rows: &[Row],
) -> bool {
    for (command, reply) in rows {
        match reply_to(rt, shared, pass, command) {
            Ok(told) if told == *reply => {}
            _ => return false,
        }
    }
    true
}
