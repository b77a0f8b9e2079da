//! Look-ups of many keys, several at a time.
ghost use Rattle.std.specs.Prelude.{◌≡◌, is_some, length, map};
ghost use Rattle.std.specs.Iterator.{at_most};
ghost use Rattle.std.specs.Map.Iter.{TakesFirst, deref, deref_pair};
ghost use Rattle.std.specs.Option.{option_map};
ghost use Rattle.tree_batches.specs.Batches.{entries_for, values_for};
ghost use Rattle.tree_index.specs.Nearest.{at_or_above, at_or_below};
ghost use Rattle.tree_node.specs.Whole.{IsTree, root_at, walk_under};

use crate::answers::{Answers, AtOrAbove, AtOrBelow, Entries, Presence, Values};
use crate::batch::Batch;
use crate::batched::Batched;
use crate::filling::take_next;
use crate::lent::Lent;
use std::iter::FusedIterator;
use std::marker::{Model, PhantomData};
use tree_array::array::IndexKey;
use tree_index::TreeIndexOf;
use tree_leaf::arena::NodeId;
use tree_node::node::{ArenasOf, Root};

/// The answer for each key of a list, in the order of the list.
///
/// Contracts see the list of the answers that are still to come. A batch of eight keys is looked up
/// when the first of them is asked for.
#[derive(Drop)]
pub struct EachOver<'t, 'k, W: Answers<'t, Q, K, V>, Q: Lent<K>, K: Ord, V, A: Batched<K, V>> {
    arenas: &'t A,
    root: Option<Root>,
    keys: &'k [Q],
    batch: Batch<W::Answer>,
    stored: PhantomData<(K, V)>,
}

/// The answer for each key of a list, with up to `LEN` pairs a leaf. See [`EachOver`].
pub type EachOf<'t, 'k, W, Q, K, V, const LEN: usize> = EachOver<
    't,
    'k,
    W,
    Q,
    K,
    V,
    ArenasOf<K, V, LEN>,
>;

/// The pair with each key of a list, with up to `LEN` pairs a leaf. See [`EachOver`].
pub type EntryEachOf<'t, 'k, K, V, const LEN: usize> = EachOf<'t, 'k, Entries, K, K, V, LEN>;

/// The pair with each key of a list, with up to fifteen pairs a leaf. See [`EachOver`].
pub type EntryEach<'t, 'k, K, V> = EntryEachOf<'t, 'k, K, V, 15>;

/// The value at each key of a list, with up to `LEN` pairs a leaf. See [`EachOver`].
pub type PeekEachOf<'t, 'k, K, V, const LEN: usize> = EachOf<'t, 'k, Values, K, K, V, LEN>;

/// The value at each key of a list, with up to fifteen pairs a leaf. See [`EachOver`].
pub type PeekEach<'t, 'k, K, V> = PeekEachOf<'t, 'k, K, V, 15>;

/// Whether each key of a list is present, with up to `LEN` pairs a leaf. See [`EachOver`].
pub type ContainsEachOf<'t, 'k, K, V, const LEN: usize> = EachOf<'t, 'k, Presence, K, K, V, LEN>;

/// Whether each key of a list is present, with fifteen pairs a leaf. See [`EachOver`].
pub type ContainsEach<'t, 'k, K, V> = ContainsEachOf<'t, 'k, K, V, 15>;

/// The pair up to each key of a list, with up to `LEN` pairs a leaf. See [`EachOver`].
pub type AtOrBelowEachOf<'t, 'k, K, V, const LEN: usize> = EachOf<'t, 'k, AtOrBelow, K, K, V, LEN>;

/// The pair from each key of a list on, with up to `LEN` pairs a leaf. See [`EachOver`].
pub type AtOrAboveEachOf<'t, 'k, K, V, const LEN: usize> = EachOf<'t, 'k, AtOrAbove, K, K, V, LEN>;

impl<'t, 'k, W: Answers<'t, Q, K, V>, Q: Lent<K>, K: Ord, V, A: Batched<K, V>> Model
    for EachOver<'t, 'k, W, Q, K, V, A> {
    ghost use Rattle.std.specs.Prelude.{List, drop, map};
    ghost use Rattle.tree_batches.specs.Batches.{HasFound, answer_for};

    ghost Value = { List W.Shown };

    ghost view = { λ e. map (answer_for W.shown Q.key K.cmp (A.pairs e.arenas.now e.root)) (drop e.batch.answered e.keys.now) };

    ghost invariant = { λ e. A.is_tree e.arenas.now e.root
        × HasFound W.seen (answer_for W.shown Q.key K.cmp (A.pairs e.arenas.now e.root)) e.keys.now e.batch };
}

/// Looks up each key of a list, eight at a time, and returns the values.
///
/// Makes the comparisons of a single look-up for each key, and allocates nothing.
///
/// ```
/// for price in peek_each(prices, basket) {
///     cost = cost.checked_add(price.copied().unwrap_or(0))?;
/// }
/// ```
pub fn peek_each<'t, 'k, K: IndexKey, V: Drop, const LEN: usize>(
    index: &'t TreeIndexOf<K, V, LEN>,
    keys: &'k [K],
) -> PeekEachOf<'t, 'k, K, V, LEN>
    ensures { result ≡ values_for K.cmp index.now.pairs keys.now }
{
    peek_each_lent::<K, K, V, LEN>(index, keys)
}

/// Looks up each key of a list, eight at a time, and returns the pairs as they are stored.
///
/// Makes the comparisons of a single look-up for each key, and allocates nothing.
///
/// ```
/// let (item, price) = peek_entry_each(offers, basket).next()??;
/// ```
pub fn peek_entry_each<'t, 'k, K: IndexKey, V: Drop, const LEN: usize>(
    index: &'t TreeIndexOf<K, V, LEN>,
    keys: &'k [K],
) -> EntryEachOf<'t, 'k, K, V, LEN>
    ensures { result ≡ entries_for K.cmp index.now.pairs keys.now }
{
    peek_entry_each_lent::<K, K, V, LEN>(index, keys)
}

/// Looks up each key of a list, eight at a time, and returns whether it is present.
///
/// Makes the comparisons of a single look-up for each key, and allocates nothing.
///
/// ```
/// for present in contains_each(stock, basket) {
///     if !present {
///         return false;
///     }
/// }
/// ```
pub fn contains_each<'t, 'k, K: IndexKey, V: Drop, const LEN: usize>(
    index: &'t TreeIndexOf<K, V, LEN>,
    keys: &'k [K],
) -> ContainsEachOf<'t, 'k, K, V, LEN>
    ensures { result ≡ map is_some (entries_for K.cmp index.now.pairs keys.now) }
{
    contains_each_lent::<K, K, V, LEN>(index, keys)
}

/// Does what [`peek_each`] does, by keys in another form.
///
/// ```
/// for count in peek_each_lent(counts, words) {
///     total = total.checked_add(count.copied().unwrap_or(0))?;
/// }
/// ```
pub fn peek_each_lent<'t, 'k, Q: Lent<K>, K: IndexKey, V: Drop, const LEN: usize>(
    index: &'t TreeIndexOf<K, V, LEN>,
    keys: &'k [Q],
) -> EachOf<'t, 'k, Values, Q, K, V, LEN>
    ensures { result ≡ values_for K.cmp index.now.pairs (map Q.key keys.now) }
{
    let (arenas, root) = tree_of(index);
    EachOver {
        arenas,
        root,
        keys,
        batch: Batch::empty(None),
        stored: PhantomData,
    }
}

/// Does what [`peek_entry_each`] does, by keys in another form.
///
/// ```
/// let (_, count) = peek_entry_each_lent(counts, words).next()??;
/// ```
pub fn peek_entry_each_lent<'t, 'k, Q: Lent<K>, K: IndexKey, V: Drop, const LEN: usize>(
    index: &'t TreeIndexOf<K, V, LEN>,
    keys: &'k [Q],
) -> EachOf<'t, 'k, Entries, Q, K, V, LEN>
    ensures { result ≡ entries_for K.cmp index.now.pairs (map Q.key keys.now) }
{
    let (arenas, root) = tree_of(index);
    EachOver {
        arenas,
        root,
        keys,
        batch: Batch::empty(None),
        stored: PhantomData,
    }
}

/// Does what [`contains_each`] does, by keys in another form.
///
/// ```
/// for present in contains_each_lent(counts, words) {
///     if !present {
///         return false;
///     }
/// }
/// ```
pub fn contains_each_lent<'t, 'k, Q: Lent<K>, K: IndexKey, V: Drop, const LEN: usize>(
    index: &'t TreeIndexOf<K, V, LEN>,
    keys: &'k [Q],
) -> EachOf<'t, 'k, Presence, Q, K, V, LEN>
    ensures { result ≡ map is_some (entries_for K.cmp index.now.pairs (map Q.key keys.now)) }
{
    let (arenas, root) = tree_of(index);
    EachOver {
        arenas,
        root,
        keys,
        batch: Batch::empty(false),
        stored: PhantomData,
    }
}

/// Looks up each key of a list, eight at a time, and returns its pair or else the one with the next
/// smaller key, or `None` if every key is larger.
///
/// Makes the comparisons of a descent for each key, and allocates nothing.
///
/// ```
/// for sample in at_or_below_each(samples, times) {
///     if sample.is_none() {
///         return false;
///     }
/// }
/// ```
pub fn at_or_below_each<'t, 'k, K: IndexKey, V: Drop, const LEN: usize>(
    index: &'t TreeIndexOf<K, V, LEN>,
    keys: &'k [K],
) -> AtOrBelowEachOf<'t, 'k, K, V, LEN>
    ensures { result ≡ map (at_or_below K.cmp index.now.pairs) keys.now }
{
    let (arenas, root) = tree_of(index);
    EachOver {
        arenas,
        root,
        keys,
        batch: Batch::empty(None),
        stored: PhantomData,
    }
}

/// Looks up each key of a list, eight at a time, and returns its pair or else the one with the next
/// larger key, or `None` if every key is smaller.
///
/// Makes the comparisons of a descent for each key, and allocates nothing.
///
/// ```
/// for ask in at_or_above_each(asks, prices) {
///     let (price, _) = ask?;
///     cost = cost.checked_add(*price)?;
/// }
/// ```
pub fn at_or_above_each<'t, 'k, K: IndexKey, V: Drop, const LEN: usize>(
    index: &'t TreeIndexOf<K, V, LEN>,
    keys: &'k [K],
) -> AtOrAboveEachOf<'t, 'k, K, V, LEN>
    ensures { result ≡ map (at_or_above K.cmp index.now.pairs) keys.now }
{
    let (arenas, root) = tree_of(index);
    EachOver {
        arenas,
        root,
        keys,
        batch: Batch::empty(None),
        stored: PhantomData,
    }
}

// Returns the arenas of an index, and its root.
pub(crate) fn tree_of<K: IndexKey, V: Drop, const LEN: usize>(
    index: &TreeIndexOf<K, V, LEN>,
) -> (&ArenasOf<K, V, LEN>, Option<Root>)
    ensures tree { IsTree K.cmp result.0.now result.1 }
    ensures pairs { walk_under result.0.now result.1 ≡ index.now.pairs }
{
    let (arenas, id) = index.parts();
    let root = root_of(id, index.depth());
    (arenas, root)
}

// Returns the root with a number, at the level of a depth.
fn root_of(id: Option<NodeId>, level: usize) -> Option<Root>
    ensures { result ≡ option_map (λ id. root_at id level) id }
{
    match id {
        Some(id) => Some(Root { id, level }),
        None => None,
    }
}

impl<'t, 'k, Q: Lent<K> + 'k, K: Ord + Drop + 't + 'k, V: Drop + 't, A: Batched<K, V>> Iterator
    for EachOver<'t, 'k, Values, Q, K, V, A> {
    type Item = Option<&'t V>;

    ghost next_gives = { TakesFirst (option_map deref) };

    ghost remaining = { λ s. at_most (length s) };

    #[inline(always)]
    fn next(&mut self) -> Option<Option<&'t V>> {
        take_next::<Values, Q, K, V, A>(self.arenas, &self.root, self.keys, &mut self.batch)
    }

    fn size_hint(&self) -> (usize, Option<usize>) {
        let left = self.len();
        (left, Some(left))
    }
}

impl<
    't,
    'k,
    Q: Lent<K> + 'k,
    K: Ord + Drop + 't + 'k,
    V: Drop + 't,
    A: Batched<K, V>,
> ExactSizeIterator for EachOver<'t, 'k, Values, Q, K, V, A> {
    fn len(&self) -> usize {
        self.keys.len() - self.batch.answered()
    }
}

impl<'t, 'k, Q: Lent<K> + 'k, K: Ord + Drop + 't + 'k, V: Drop + 't, A: Batched<K, V>> FusedIterator
    for EachOver<'t, 'k, Values, Q, K, V, A> {}

impl<'t, 'k, Q: Lent<K> + 'k, K: Ord + Drop + 't + 'k, V: Drop + 't, A: Batched<K, V>> Iterator
    for EachOver<'t, 'k, Entries, Q, K, V, A> {
    type Item = Option<(&'t K, &'t V)>;

    ghost next_gives = { TakesFirst (option_map deref_pair) };

    ghost remaining = { λ s. at_most (length s) };

    #[inline(always)]
    fn next(&mut self) -> Option<Option<(&'t K, &'t V)>> {
        take_next::<Entries, Q, K, V, A>(self.arenas, &self.root, self.keys, &mut self.batch)
    }

    fn size_hint(&self) -> (usize, Option<usize>) {
        let left = self.len();
        (left, Some(left))
    }
}

impl<
    't,
    'k,
    Q: Lent<K> + 'k,
    K: Ord + Drop + 't + 'k,
    V: Drop + 't,
    A: Batched<K, V>,
> ExactSizeIterator for EachOver<'t, 'k, Entries, Q, K, V, A> {
    fn len(&self) -> usize {
        self.keys.len() - self.batch.answered()
    }
}

impl<'t, 'k, Q: Lent<K> + 'k, K: Ord + Drop + 't + 'k, V: Drop + 't, A: Batched<K, V>> FusedIterator
    for EachOver<'t, 'k, Entries, Q, K, V, A> {}

impl<'t, 'k, Q: Lent<K> + 'k, K: Ord + Drop + 't + 'k, V: Drop + 't, A: Batched<K, V>> Iterator
    for EachOver<'t, 'k, Presence, Q, K, V, A> {
    type Item = bool;

    ghost next_gives = { TakesFirst (λ present. present) };

    ghost remaining = { λ s. at_most (length s) };

    #[inline(always)]
    fn next(&mut self) -> Option<bool> {
        take_next::<Presence, Q, K, V, A>(self.arenas, &self.root, self.keys, &mut self.batch)
    }

    fn size_hint(&self) -> (usize, Option<usize>) {
        let left = self.len();
        (left, Some(left))
    }
}

impl<
    't,
    'k,
    Q: Lent<K> + 'k,
    K: Ord + Drop + 't + 'k,
    V: Drop + 't,
    A: Batched<K, V>,
> ExactSizeIterator for EachOver<'t, 'k, Presence, Q, K, V, A> {
    fn len(&self) -> usize {
        self.keys.len() - self.batch.answered()
    }
}

impl<'t, 'k, Q: Lent<K> + 'k, K: Ord + Drop + 't + 'k, V: Drop + 't, A: Batched<K, V>> FusedIterator
    for EachOver<'t, 'k, Presence, Q, K, V, A> {}

impl<'t, 'k, K: Ord + Drop + 't + 'k, V: Drop + 't, A: Batched<K, V>> Iterator
    for EachOver<'t, 'k, AtOrBelow, K, K, V, A> {
    type Item = Option<(&'t K, &'t V)>;

    ghost next_gives = { TakesFirst (option_map deref_pair) };

    ghost remaining = { λ s. at_most (length s) };

    #[inline(always)]
    fn next(&mut self) -> Option<Option<(&'t K, &'t V)>> {
        take_next::<AtOrBelow, K, K, V, A>(self.arenas, &self.root, self.keys, &mut self.batch)
    }

    fn size_hint(&self) -> (usize, Option<usize>) {
        let left = self.len();
        (left, Some(left))
    }
}

impl<'t, 'k, K: Ord + Drop + 't + 'k, V: Drop + 't, A: Batched<K, V>> ExactSizeIterator
    for EachOver<'t, 'k, AtOrBelow, K, K, V, A> {
    fn len(&self) -> usize {
        self.keys.len() - self.batch.answered()
    }
}

impl<'t, 'k, K: Ord + Drop + 't + 'k, V: Drop + 't, A: Batched<K, V>> FusedIterator
    for EachOver<'t, 'k, AtOrBelow, K, K, V, A> {}

impl<'t, 'k, K: Ord + Drop + 't + 'k, V: Drop + 't, A: Batched<K, V>> Iterator
    for EachOver<'t, 'k, AtOrAbove, K, K, V, A> {
    type Item = Option<(&'t K, &'t V)>;

    ghost next_gives = { TakesFirst (option_map deref_pair) };

    ghost remaining = { λ s. at_most (length s) };

    #[inline(always)]
    fn next(&mut self) -> Option<Option<(&'t K, &'t V)>> {
        take_next::<AtOrAbove, K, K, V, A>(self.arenas, &self.root, self.keys, &mut self.batch)
    }

    fn size_hint(&self) -> (usize, Option<usize>) {
        let left = self.len();
        (left, Some(left))
    }
}

impl<'t, 'k, K: Ord + Drop + 't + 'k, V: Drop + 't, A: Batched<K, V>> ExactSizeIterator
    for EachOver<'t, 'k, AtOrAbove, K, K, V, A> {
    fn len(&self) -> usize {
        self.keys.len() - self.batch.answered()
    }
}

impl<'t, 'k, K: Ord + Drop + 't + 'k, V: Drop + 't, A: Batched<K, V>> FusedIterator
    for EachOver<'t, 'k, AtOrAbove, K, K, V, A> {}
