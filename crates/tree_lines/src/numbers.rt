//! Parses the numbers of a line: decimal digits with neither a sign nor a leading zero.
ghost use Rattle.std.specs.Prelude.{◌↔◌, IsTrue, decimal};
ghost use Rattle.tree_lines.specs.Words.{BothFit, FitsWord, IsPlain, ReadsAs, one_number, two_numbers};

use crate::words::{behind_space, two_words_of};

/// Parses a space and a number. Returns `None` if the text is anything else.
pub fn one_number_of(text: &[u8]) -> Option<u64>
    ensures { ReadsAs FitsWord one_number text.now result }
{
    let Some(word) = behind_space(text) else {
        return None;
    };
    number_of(word)
}

/// Parses two numbers, each after a space. Returns `None` if the text is anything else.
pub fn two_numbers_of(text: &[u8]) -> Option<(u64, u64)>
    ensures { ReadsAs BothFit two_numbers text.now result }
{
    let (first, second) = two_words_of(text)?;
    Some((number_of(first)?, number_of(second)?))
}

/// Parses a number. Returns `None` if the word is anything else or the number exceeds `u64`.
/// Allocates nothing.
///
/// ```
/// let workers = number_of(workers.as_bytes())?;
/// ```
pub fn number_of(word: &[u8]) -> Option<u64>
    ensures { ReadsAs FitsWord decimal word.now result }
{
    if !is_plain(word) {
        return None;
    }
    let Ok(text) = str::from_utf8(word) else {
        return None;
    };
    match text.parse() {
        Ok(n) => Some(n),
        Err(_) => None,
    }
}

// Returns whether the word has neither a plus sign nor a leading zero.
fn is_plain(word: &[u8]) -> bool
    ensures { IsTrue result ↔ IsPlain word.now }
{
    match word.first() {
        Some(b'+') => false,
        Some(b'0') => word.len() == 1,
        _ => true,
    }
}
