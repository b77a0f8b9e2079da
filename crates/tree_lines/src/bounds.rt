//! Parses the bounds of a line: `[n` includes n, `(n` excludes it, and `-` leaves the end open.
ghost use Rattle.tree_lines.specs.Spelling.{FitsBound, bound_text};
ghost use Rattle.tree_lines.specs.Words.{BothBoundsFit, ReadsAs, two_bounds};

use crate::numbers::number_of;
use crate::words::two_words_of;
use std::ops::Bound;

/// Parses a lower and an upper bound, each after a space. Returns `None` if the text is anything
/// else.
pub fn two_bounds_of(text: &[u8]) -> Option<(Bound<u64>, Bound<u64>)>
    ensures { ReadsAs BothBoundsFit two_bounds text.now result }
{
    let (low, high) = two_words_of(text)?;
    Some((bound_of(low)?, bound_of(high)?))
}

// Parses a bound. Returns `None` if the word is anything else or its number exceeds `u64`.
fn bound_of(word: &[u8]) -> Option<Bound<u64>>
    ensures { ReadsAs FitsBound bound_text word.now result }
{
    match word {
        [b'[', digits @ ..] => match number_of(digits) {
            Some(n) => Some(Bound::Included(n)),
            None => None,
        },
        [b'(', digits @ ..] => match number_of(digits) {
            Some(n) => Some(Bound::Excluded(n)),
            None => None,
        },
        [b'-'] => Some(Bound::Unbounded),
        _ => None,
    }
}
