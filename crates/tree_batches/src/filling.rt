//! The answers for a batch of keys.
ghost use Rattle.std.specs.Prelude.{◌≡◌, ◌≤◌, ◌<◌, MatchBool, None, drop, get_or, length, map, ℕ};
ghost use Rattle.std.specs.Map.Iter.{TakesFirst};
ghost use Rattle.tree_batches.specs.Batches.{AreFound, HasFound, answer_for};

use crate::answers::Answers;
use crate::batch::{BATCH, Batch};
use crate::batched::Batched;
use crate::lent::Lent;
use tree_leaf::arena::LeafId;
use tree_node::node::Root;

// Takes the answer for the first key that wasn't answered.
#[inline(always)]
pub(crate) fn take_next<
    't,
    W: Answers<'t, Q, K, V>,
    Q: Lent<K>,
    K: Ord + Drop + 't,
    V: Drop + 't,
    A: Batched<K, V>,
>(arenas: &'t A, root: &Option<Root>, keys: &[Q], batch: &mut Batch<W::Answer>) -> Option<W::Answer>
    requires tree { A.is_tree arenas.now root.now }
    requires kept { HasFound W.seen (answer_for W.shown Q.key K.cmp (A.pairs arenas.now root.now)) keys.now batch.old }
    ensures first { TakesFirst W.seen
        (map (answer_for W.shown Q.key K.cmp (A.pairs arenas.now root.now)) (drop batch.old.answered keys.now))
        result
        (map (answer_for W.shown Q.key K.cmp (A.pairs arenas.now root.now)) (drop batch.new.answered keys.now)) }
    ensures kept { HasFound W.seen (answer_for W.shown Q.key K.cmp (A.pairs arenas.now root.now)) keys.now batch.new }
{
    if !has_next::<W, Q, K, V, A>(arenas, root, keys, batch) {
        return None;
    }
    Some(batch.take_first())
}

// Returns whether a key is left. Finds the answers of the next batch if all of this one were given.
#[inline(always)]
fn has_next<
    't,
    W: Answers<'t, Q, K, V>,
    Q: Lent<K>,
    K: Ord + Drop + 't,
    V: Drop + 't,
    A: Batched<K, V>,
>(arenas: &'t A, root: &Option<Root>, keys: &[Q], batch: &mut Batch<W::Answer>) -> bool
    requires tree { A.is_tree arenas.now root.now }
    requires kept { HasFound W.seen (answer_for W.shown Q.key K.cmp (A.pairs arenas.now root.now)) keys.now batch.old }
    ensures same { batch.new.answered ≡ batch.old.answered }
    ensures more { MatchBool result (batch.new.answered < batch.new.end) (length keys.now ≤ batch.new.answered) }
    ensures kept { HasFound W.seen (answer_for W.shown Q.key K.cmp (A.pairs arenas.now root.now)) keys.now batch.new }
{
    if batch.answered < batch.end {
        return true;
    }
    if batch.answered == keys.len() {
        return false;
    }
    refill::<W, Q, K, V, A>(arenas, root, keys, batch);
    true
}

// Finds the answers of the next batch.
#[inline(always)]
fn refill<
    't,
    W: Answers<'t, Q, K, V>,
    Q: Lent<K>,
    K: Ord + Drop + 't,
    V: Drop + 't,
    A: Batched<K, V>,
>(arenas: &'t A, root: &Option<Root>, keys: &[Q], batch: &mut Batch<W::Answer>)
    requires tree { A.is_tree arenas.now root.now }
    requires more { batch.old.answered < length keys.now }
    requires long { length batch.old.found ≡ 8 }
    ensures same { batch.new.answered ≡ batch.old.answered }
    ensures more { batch.new.answered < batch.new.end }
    ensures kept { HasFound W.seen (answer_for W.shown Q.key K.cmp (A.pairs arenas.now root.now)) keys.now batch.new }
{
    let start = batch.answered;
    let end = start + (keys.len() - start).min(BATCH);
    find_all::<W, Q, K, V, A>(arenas, root, &keys[start..end], &mut batch.found);
    batch.start = start;
    batch.end = end;
}

// Finds the answers for the keys of a batch, in place. Never inlined, so that a caller keeps its
// own loop in registers.
#[inline(never)]
fn find_all<
    't,
    W: Answers<'t, Q, K, V>,
    Q: Lent<K>,
    K: Ord + Drop + 't,
    V: Drop + 't,
    A: Batched<K, V>,
>(arenas: &'t A, root: &Option<Root>, keys: &[Q], found: &mut [W::Answer])
    requires tree { A.is_tree arenas.now root.now }
    requires few { length keys.now ≤ 8 }
    requires long { length found.old ≡ 8 }
    ensures long { length found.new ≡ 8 }
    ensures each { AreFound W.seen (answer_for W.shown Q.key K.cmp (A.pairs arenas.now root.now)) keys.now (length keys.now) found.new }
{
    let mut leaves = [None; BATCH];
    arenas.leaves(root, keys, &mut leaves);
    answer_all::<W, Q, K, V, A>(arenas, root, keys, &leaves, found);
}

// Finds the answers for the keys of a batch in their leaves, in place.
#[inline(always)]
fn answer_all<
    't,
    W: Answers<'t, Q, K, V>,
    Q: Lent<K>,
    K: Ord + Drop + 't,
    V: Drop + 't,
    A: Batched<K, V>,
>(
    arenas: &'t A,
    root: &Option<Root>,
    keys: &[Q],
    leaves: &[Option<LeafId>],
    found: &mut [W::Answer],
)
    requires tree { A.is_tree arenas.now root.now }
    requires few { length keys.now ≤ 8 }
    requires long { length found.old ≡ 8 }
    requires few_leaves { length leaves.now ≡ 8 }
    requires leaves { (k : ℕ) (d : Q) → k < length keys.now → A.is_leaf arenas.now root.now (Q.key (get_or keys.now k d)) (get_or leaves.now k None) }
    ensures long { length found.new ≡ 8 }
    ensures each { AreFound W.seen (answer_for W.shown Q.key K.cmp (A.pairs arenas.now root.now)) keys.now (length keys.now) found.new }
{
    for place in 0..keys.len() {
        found[place] = answer_in::<W, Q, K, V, A>(arenas, root, leaves[place], &keys[place]);
    }
}

// Returns the answer for a key from the leaf that the key belongs to. Never inlined, as the steps of
// the descent aren't.
#[inline(never)]
fn answer_in<
    't,
    W: Answers<'t, Q, K, V>,
    Q: Lent<K>,
    K: Ord + Drop + 't,
    V: Drop + 't,
    A: Batched<K, V>,
>(arenas: &'t A, root: &Option<Root>, leaf: Option<LeafId>, key: &Q) -> W::Answer
    requires tree { A.is_tree arenas.now root.now }
    requires leaf { A.is_leaf arenas.now root.now (Q.key key.now) leaf }
    ensures { W.seen result ≡ answer_for W.shown Q.key K.cmp (A.pairs arenas.now root.now) key.now }
{
    W::answer(arenas, root, leaf, key)
}
