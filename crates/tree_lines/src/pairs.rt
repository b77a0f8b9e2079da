//! Writes pairs out of an index, one by one.
ghost use Rattle.std.specs.Prelude.{◌≡◌, ◌++◌, Bool, if◌then◌else◌, [], ◌∷◌, map, reverse};
ghost use Rattle.tree_lines.specs.Spelling.{behind_spaces, with_feed};
ghost use Rattle.tree_lines.specs.Lines.{inside, near_text, pair_text, pairs_text};
ghost use Rattle.tree_lines.specs.Pairs.{listed, parted_text, told_text};
ghost use Rattle.tree_lines.specs.Writing.{Writes};
ghost use Rattle.tree_model.specs.Rest.{lent};

use crate::short_text::ShortText;
use crate::{WriteFailed, write_whole};
use std::io::Write;
use std::ops::Bound;
use tree_index::{ProximityOf, TreeIndexOf};

/// Writes the pairs whose keys are within both bounds, in ascending order, and a line feed.
///
/// Returns `Err` if a write fails; part of the line may have been written. Allocates nothing.
pub fn write_ascending<W: Write, const LEN: usize>(
    output: &mut W,
    index: &TreeIndexOf<u64, u64, LEN>,
    low: Bound<u64>,
    high: Bound<u64>,
) -> Result<(), WriteFailed>
    ensures { Writes (with_feed (pairs_text (inside low high index.now.pairs)))
        (W.contents output.old) (W.contents output.new) result }
{
    let mut is_first = true;
    for (key, value) in index.range((low.as_ref(), high.as_ref())) {
        write_pair(output, is_first, *key, *value)?;
        is_first = false;
    }
    write_whole(output, b"\n")
}

/// Writes all pairs, in descending order, and a line feed.
///
/// Returns `Err` if a write fails; part of the line may have been written. Allocates nothing.
pub fn write_descending<W: Write, const LEN: usize>(
    output: &mut W,
    index: &TreeIndexOf<u64, u64, LEN>,
) -> Result<(), WriteFailed>
    ensures { Writes (with_feed (pairs_text (reverse index.now.pairs)))
        (W.contents output.old) (W.contents output.new) result }
{
    let mut pairs = index.iter();
    let mut is_first = true;
    while let Some((key, value)) = pairs.next_back() {
        write_pair(output, is_first, *key, *value)?;
        is_first = false;
    }
    write_whole(output, b"\n")
}

/// Writes where a key is, with its pair or its neighbours, and a line feed.
///
/// Returns `Err` if a write fails; part of the line may have been written. Allocates nothing.
pub fn write_near<W: Write, const LEN: usize>(
    output: &mut W,
    index: &TreeIndexOf<u64, u64, LEN>,
    key: u64,
) -> Result<(), WriteFailed>
    ensures { Writes (with_feed (near_text index.now.pairs key))
        (W.contents output.old) (W.contents output.new) result }
{
    match index.locate(&key) {
        ProximityOf::Exact(found) => write_told(output, b"exact", found.get(), None),
        ProximityOf::Between(found) => {
            write_told(output, b"between", found.get(), found.get_back())
        }
        ProximityOf::Smaller(found) => write_told(output, b"smaller", None, found.get_back()),
        ProximityOf::Larger(found) => write_told(output, b"larger", found.get(), None),
        ProximityOf::Empty => write_whole(output, b"empty\n"),
    }
}

// Writes a word, then each of the pairs that exists after a space, and a line feed.
fn write_told<W: Write>(
    output: &mut W,
    word: &[u8],
    first: Option<(&u64, &u64)>,
    second: Option<(&u64, &u64)>,
) -> Result<(), WriteFailed>
    ensures { Writes (with_feed (told_text word.now (lent first.entry) (lent second.entry)))
        (W.contents output.old) (W.contents output.new) result }
{
    write_whole(output, word)?;
    write_if_any(output, first)?;
    write_if_any(output, second)?;
    write_whole(output, b"\n")
}

// Writes a space and a pair, or nothing if there is none.
fn write_if_any<W: Write>(output: &mut W, pair: Option<(&u64, &u64)>) -> Result<(), WriteFailed>
    ensures { Writes (behind_spaces (map pair_text (listed (lent pair.entry))))
        (W.contents output.old) (W.contents output.new) result }
{
    match pair {
        Some((key, value)) => write_pair(output, false, *key, *value),
        None => Ok(()),
    }
}

// Writes a pair, after a space unless it is the first of its line.
fn write_pair<W: Write>(
    output: &mut W,
    is_first: bool,
    key: u64,
    value: u64,
) -> Result<(), WriteFailed>
    ensures { Writes (parted_text is_first (key, value))
        (W.contents output.old) (W.contents output.new) result }
{
    let mut text = ShortText::new();
    text.push_number_front(value);
    text.push_front(b'=');
    text.push_number_front(key);
    if !is_first {
        text.push_front(b' ');
    }
    write_whole(output, text.as_bytes())
}
