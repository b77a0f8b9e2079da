//! The pairs whose keys begin with a text.
ghost use Rattle.std.specs.Prelude.{◌≡◌, ◌≢◌, ◌<◌, ◌↔◌, ℕ, IfOk, IsTrue, List, [], MatchOption, OnErr, filter, string_bytes};
ghost use Rattle.std.specs.Char.{IsScalar};
ghost use Rattle.std.specs.Cmp.Lexicographic.{slice_cmp};
ghost use Rattle.std.specs.Ordering.{nat_cmp};
ghost use Rattle.std.specs.Str.{IsUtf8};
ghost use Rattle.tree_texts.specs.Prefix.{BoundPrefix, TellsPrefix, beginning_with, not_beginning_with};
ghost use Rattle.tree_model.specs.Cursor.{fresh};
ghost use Rattle.tree_model.specs.Pairs.{high_of, low_of, within};
ghost use Rattle.tree_cursors.specs.Ranged.{pairs_within};
ghost use Rattle.tree_texts.specs.TextPrefix.{next_char, text_end};

use crate::text::Text;
use crate::within::last_within;
use std::alloc::{AllocError, Global};
use std::ops::Bound;
use tree_index::{RangeOf, TreeIndexOf};

/// Returns the bounds of the texts that begin with a prefix: the prefix, included, and the least
/// text that is larger than all of them, excluded. There is no upper bound if each character of the
/// prefix is the last one, U+10FFFF, or if the prefix is empty.
///
/// Returns `Err` if it cannot allocate the two bounds, which is all it allocates.
///
/// ```
/// let bounds = text_prefix_bounds(alloc, prefix)?;
/// let mut there = text_prefix_range(lengths, &bounds);
/// ```
pub fn text_prefix_bounds(
    alloc: Global,
    prefix: &str,
) -> Result<(Bound<Text>, Bound<Text>), AllocError>
    ensures { IfOk result (λ bounds. BoundPrefix IsUtf8 prefix.now bounds) }
{
    let low = String::from_str(alloc, prefix)?;
    let high = end_of_text(low.clone()?)?;
    Ok((Bound::Included(Text::from(low)), high))
}

/// Returns a cursor over the pairs whose keys begin with a prefix, from both ends. The caller must
/// pass the bounds that [`text_prefix_bounds`] returned for the prefix.
///
/// Descends once, and allocates nothing. The moves cost what those of [`range`](TreeIndexOf::range)
/// do.
#[tactic(auto, using(tree_node::proofs::Sizes::fits))]
pub fn text_prefix_range<'t, V: Drop, const LEN: usize>(
    index: &'t TreeIndexOf<Text, V, LEN>,
    bounds: &'t (Bound<Text>, Bound<Text>),
) -> RangeOf<'t, Text, V, LEN>
    ensures range { result ≡ fresh index.now.pairs bounds.now.0 bounds.now.1 }
    ensures prefix { (prefix : List ℕ) → BoundPrefix IsUtf8 prefix bounds.now
        → pairs_within (slice_cmp nat_cmp) result ≡ beginning_with prefix index.now.pairs }
{
    let bounds = (bounds.0.as_ref(), bounds.1.as_ref());
    has_text_between(index, bounds);
    index.range(bounds)
}

/// Removes every pair whose key begins with a prefix, and returns whether there was one.
///
/// Returns `Err` if it cannot allocate the bounds of the prefix. No pair is removed then. Descends
/// once, and then costs what [`remove_range_sync`](TreeIndexOf::remove_range_sync) does.
///
/// ```
/// let found = remove_text_prefix(alloc, &mut lengths, *prefix)?;
/// ```
#[tactic(auto, using(tree_node::proofs::Sizes::fits))]
pub fn remove_text_prefix<V: Drop, const LEN: usize>(
    alloc: Global,
    index: &mut TreeIndexOf<Text, V, LEN>,
    prefix: &str,
) -> Result<bool, AllocError>
    ensures removed { IfOk result (λ _. index.new.pairs ≡ not_beginning_with prefix.now index.old.pairs) }
    ensures found { IfOk result (λ found. IsTrue found ↔ (beginning_with prefix.now index.old.pairs ≢ [])) }
    ensures unchanged { OnErr result (index.new ≡ index.old) }
{
    let (low, high) = text_prefix_bounds(alloc, prefix)?;
    let bounds = (low.as_ref(), high.as_ref());
    let found = has_text_between(index, bounds);
    if found {
        index.remove_range_sync(bounds);
    }
    Ok(found)
}

// Returns whether a pair is within two bounds. Descends once.
//
// If the bounds are those of a prefix, every pair within them begins with it if the last one does.
// That one is read here, and so known to be a text.
#[tactic(auto, using(tree_node::proofs::Sizes::fits))]
fn has_text_between<V: Drop, const LEN: usize>(
    index: &TreeIndexOf<Text, V, LEN>,
    bounds: (Bound<&Text>, Bound<&Text>),
) -> bool
    ensures found { IsTrue result ↔ (filter
        (λ pair. within (slice_cmp nat_cmp) (low_of bounds.entry) (high_of bounds.entry) pair.0) index.now.pairs ≢ []) }
    ensures prefix { (prefix : List ℕ) → BoundPrefix IsUtf8 prefix (low_of bounds.entry, high_of bounds.entry)
        → TellsPrefix prefix (low_of bounds.entry, high_of bounds.entry) index.now.pairs }
{
    match last_within(index, bounds) {
        Some((last, _)) => {
            last.as_str();
            true
        }
        None => false,
    }
}

// Returns the least text that is larger than all that begin with a prefix.
fn end_of_text(prefix: String) -> Result<Bound<Text>, AllocError>
    ensures { IfOk result (λ high. high ≡ text_end (string_bytes prefix)) }
{
    let mut text = prefix;
    while let Some(last) = text.pop() {
        if let Some(next) = char_after(last) {
            text.push(next)?;
            return Ok(Bound::Excluded(Text::from(text)));
        }
    }
    Ok(Bound::Unbounded)
}

// Returns the next character, or `None` after the last one. No character is between U+D7FF and
// U+E000.
fn char_after(c: char) -> Option<char>
    ensures scalar { IsScalar c }
    ensures next { MatchOption result (c ≡ 0x10FFFF) (λ next. (c ≢ 0x10FFFF) × (next ≡ next_char c)) }
{
    match c {
        char::MAX => None,
        '\u{D7FF}' => Some('\u{E000}'),
        _ => char::from_u32(c as u32 + 1),
    }
}
