//! A history, replayed on the ordered map of the standard library.
use std::alloc::{AllocError, Global};
use std::collections::BTreeMap;
use std::ops::RangeBounds;
use tree_index::{Command, Record, Reply, TreeIndexOf};

// Returns whether a map that is empty at first gives each command the reply in the history, and
// then has the pairs of the index.
pub(crate) fn replays<const LEN: usize>(
    alloc: Global,
    history: &[Record<u64, u64>],
    index: &TreeIndexOf<u64, u64, LEN>,
) -> Result<bool, AllocError> {
    let mut map = BTreeMap::new(alloc);
    for record in history {
        if reply_of(&mut map, &record.command)? != record.reply {
            return Ok(false);
        }
    }
    Ok(has_the_pairs(&map, index))
}

// The reply to a command.
fn reply_of(
    map: &mut BTreeMap<u64, u64>,
    command: &Command<u64, u64>,
) -> Result<Reply<u64>, AllocError> {
    Ok(match command {
        Command::Insert(key, _) if map.contains_key(key) => Reply::Duplicate,
        Command::Insert(key, value) | Command::Upsert(key, value) => {
            map.insert(*key, *value).map_err(|_| AllocError)?;
            Reply::Stored
        }
        Command::Remove(key) => Reply::Removed(map.remove(key).is_some()),
        Command::RemoveRange(low, high) => {
            map.retain(|key, _| !(*low, *high).contains(key));
            Reply::Done
        }
        Command::Clear => {
            map.clear();
            Reply::Done
        }
        Command::Peek(key) => Reply::Found(map.get(key).copied()),
    })
}

// Whether a map has the pairs of an index.
fn has_the_pairs<const LEN: usize>(
    map: &BTreeMap<u64, u64>,
    index: &TreeIndexOf<u64, u64, LEN>,
) -> bool {
    let mut wanted = index.iter();
    for pair in map.iter() {
        if wanted.next() != Some(pair) {
            return false;
        }
    }
    map.len() == index.len()
}
