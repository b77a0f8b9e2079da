//! Writes of many pairs, whose keys are looked up several at a time.
ghost use Rattle.std.specs.Prelude.{◌≡◌, ◌∷◌, ◌<◌, ◌≤◌, length, MatchResult};
ghost use Rattle.std.specs.VecDeque.{deque_capacity, deque_len};
ghost use Rattle.tree_batches.specs.Writes.{StopsAt, StoresAll};
ghost use Rattle.tree_node.specs.Whole.{IsTree};

use crate::batch::BATCH;
use crate::batched::entry_in;
use crate::descent::leaves_of;
use crate::each::tree_of;
use crate::lent::Lent;
use std::collections::VecDeque;
use tree_array::array::IndexKey;
use tree_index::TreeIndexOf;
use tree_node::node::{ArenasOf, Root};

// With so many pairs an index is no longer in the cache.
const WIDE: usize = 1 << 16;

/// Stores each pair of a list. A pair with an equal key is replaced, so of pairs with equal keys
/// the last one stays.
///
/// Returns `Err` with the pairs that are left if an allocation fails: the one that needed it and
/// those after it, in order. The pairs before it stay stored, which are at least as many as the
/// spare was.
///
/// Costs what [`upsert_sync`](TreeIndexOf::upsert_sync) does for each pair. In an index of more
/// than 65,536 pairs, which is larger than the cache, first looks up eight keys at a time.
///
/// ```
/// upsert_each(samples, batch)
/// ```
pub fn upsert_each<K: IndexKey, V: Drop, const LEN: usize>(
    index: &mut TreeIndexOf<K, V, LEN>,
    pairs: Vec<(K, V)>,
) -> Result<(), Vec<(K, V)>>
    ensures { MatchResult result (λ _. StoresAll K.cmp index.old pairs.items index.new)
        (λ left. StopsAt K.cmp index.old pairs.items left.items index.new.pairs) }
{
    let mut left = VecDeque::from(pairs);
    match upsert_all(index, &mut left) {
        Ok(()) => Ok(()),
        Err(refused) => {
            left.push_front_reserved(refused);
            let back = Vec::from(left);
            Err(back)
        }
    }
}

// Takes each pair from the front of a queue and stores it. Returns `Err` with the pair for which an
// allocation fails; those behind it stay in the queue, which has room for one more.
fn upsert_all<K: IndexKey, V: Drop, const LEN: usize>(
    index: &mut TreeIndexOf<K, V, LEN>,
    left: &mut VecDeque<(K, V)>,
) -> Result<(), (K, V)>
    ensures { MatchResult result (λ _. StoresAll K.cmp index.old left.old.items index.new)
        (λ refused. StopsAt K.cmp index.old left.old.items (refused ∷ left.new.items) index.new.pairs
        × (deque_len left.new < deque_capacity left.new)) }
{
    fetch(index, left.as_slices().0);
    while let Some(pair) = left.pop_front() {
        let (key, value) = pair;
        index.upsert_sync(key, value)?;
        if left.len() % BATCH == 0 {
            fetch(index, left.as_slices().0);
        }
    }
    Ok(())
}

// Looks up the keys of the next batch of pairs, so that what their writes read is in the cache.
fn fetch<K: IndexKey, V: Drop, const LEN: usize>(index: &TreeIndexOf<K, V, LEN>, pairs: &[(K, V)]) {
    if index.len() > WIDE {
        let (arenas, root) = tree_of(index);
        let mut found = [false; BATCH];
        find_present(arenas, &root, &pairs[..pairs.len().min(BATCH)], &mut found);
    }
}

// Finds whether each key of a batch is present, in place. Never inlined, so that a search whose
// answer nobody reads is made.
#[inline(never)]
fn find_present<Q: Lent<K>, K: Ord + Drop, V: Drop, const LEN: usize>(
    arenas: &ArenasOf<K, V, LEN>,
    root: &Option<Root>,
    keys: &[Q],
    found: &mut [bool],
)
    requires tree { IsTree K.cmp arenas.now root.now }
    requires few { length keys.now ≤ 8 }
    requires long { length found.old ≡ 8 }
{
    let mut leaves = [None; BATCH];
    leaves_of(arenas, root, keys, &mut leaves);
    for place in 0..keys.len() {
        found[place] = entry_in(arenas, root, leaves[place], &keys[place]).is_some();
    }
}
