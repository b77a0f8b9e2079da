//! The pairs whose keys begin with some bytes.
ghost use Rattle.std.specs.Prelude.{◌≡◌, ◌≢◌, ◌↔◌, ℕ, IfOk, IsTrue, List, [], OnErr, filter};
ghost use Rattle.std.specs.Cmp.Lexicographic.{slice_cmp};
ghost use Rattle.std.specs.Ordering.{nat_cmp};
ghost use Rattle.tree_texts.specs.Head.{AreBytes};
ghost use Rattle.tree_texts.specs.Prefix.{BoundPrefix, TellsPrefix, beginning_with, not_beginning_with};
ghost use Rattle.tree_model.specs.Cursor.{fresh};
ghost use Rattle.tree_model.specs.Pairs.{high_of, low_of, within};
ghost use Rattle.tree_cursors.specs.Ranged.{pairs_within};

use crate::bytes::Bytes;
use crate::end_of_prefix;
use crate::within::last_within;
use std::alloc::{AllocError, Global};
use std::ops::Bound;
use tree_index::{RangeOf, TreeIndexOf};

/// Returns the bounds of the keys that begin with a prefix: the prefix, included, and the least key
/// that is larger than all of them, excluded. There is no upper bound if each byte of the prefix is
/// 255, or if the prefix is empty.
///
/// Returns `Err` if it cannot allocate the two bounds, which is all it allocates.
///
/// ```
/// let bounds = prefix_bounds(alloc, prefix)?;
/// let mut count: usize = 0;
/// for _pair in prefix_range(lengths, &bounds) {
///     count = count.saturating_add(1);
/// }
/// ```
pub fn prefix_bounds(
    alloc: Global,
    prefix: &[u8],
) -> Result<(Bound<Bytes>, Bound<Bytes>), AllocError>
    ensures { IfOk result (λ bounds. BoundPrefix AreBytes prefix.now bounds) }
{
    let low = Vec::from_slice(alloc, prefix)?;
    let high = end_of_prefix(alloc, prefix)?;
    Ok((Bound::Included(Bytes::from(low)), high.map(Bytes::from)))
}

/// Returns a cursor over the pairs whose keys begin with a prefix, from both ends. The caller must
/// pass the bounds that [`prefix_bounds`] returned for the prefix.
///
/// Descends once, and allocates nothing. The moves cost what those of [`range`](TreeIndexOf::range)
/// do.
#[tactic(auto, using(tree_node::proofs::Sizes::fits))]
pub fn prefix_range<'t, V: Drop, const LEN: usize>(
    index: &'t TreeIndexOf<Bytes, V, LEN>,
    bounds: &'t (Bound<Bytes>, Bound<Bytes>),
) -> RangeOf<'t, Bytes, V, LEN>
    ensures range { result ≡ fresh index.now.pairs bounds.now.0 bounds.now.1 }
    ensures prefix { (prefix : List ℕ) → BoundPrefix AreBytes prefix bounds.now
        → pairs_within (slice_cmp nat_cmp) result ≡ beginning_with prefix index.now.pairs }
{
    let bounds = (bounds.0.as_ref(), bounds.1.as_ref());
    has_bytes_between(index, bounds);
    index.range(bounds)
}

/// Removes every pair whose key begins with a prefix, and returns whether there was one.
///
/// Returns `Err` if it cannot allocate the bounds of the prefix. No pair is removed then. Descends
/// once, and then costs what [`remove_range_sync`](TreeIndexOf::remove_range_sync) does.
///
/// ```
/// let found = remove_prefix(alloc, &mut lengths, *prefix)?;
/// ```
#[tactic(auto, using(tree_node::proofs::Sizes::fits))]
pub fn remove_prefix<V: Drop, const LEN: usize>(
    alloc: Global,
    index: &mut TreeIndexOf<Bytes, V, LEN>,
    prefix: &[u8],
) -> Result<bool, AllocError>
    ensures removed { IfOk result (λ _. index.new.pairs ≡ not_beginning_with prefix.now index.old.pairs) }
    ensures found { IfOk result (λ found. IsTrue found ↔ (beginning_with prefix.now index.old.pairs ≢ [])) }
    ensures unchanged { OnErr result (index.new ≡ index.old) }
{
    let (low, high) = prefix_bounds(alloc, prefix)?;
    let bounds = (low.as_ref(), high.as_ref());
    let found = has_bytes_between(index, bounds);
    if found {
        index.remove_range_sync(bounds);
    }
    Ok(found)
}

// Returns whether a pair is within two bounds. Descends once.
//
// If the bounds are those of a prefix, every pair within them begins with it if the last one does.
// That one is read here, and so known to be bytes.
#[tactic(auto, using(tree_node::proofs::Sizes::fits))]
fn has_bytes_between<V: Drop, const LEN: usize>(
    index: &TreeIndexOf<Bytes, V, LEN>,
    bounds: (Bound<&Bytes>, Bound<&Bytes>),
) -> bool
    ensures found { IsTrue result ↔ (filter
        (λ pair. within (slice_cmp nat_cmp) (low_of bounds.entry) (high_of bounds.entry) pair.0) index.now.pairs ≢ []) }
    ensures prefix { (prefix : List ℕ) → BoundPrefix AreBytes prefix (low_of bounds.entry, high_of bounds.entry)
        → TellsPrefix prefix (low_of bounds.entry, high_of bounds.entry) index.now.pairs }
{
    match last_within(index, bounds) {
        Some((last, _)) => {
            last.head();
            true
        }
        None => false,
    }
}
