//! The pairs whose keys begin with a prefix, bytes that are looked up, and elements of a set that
//! begin with a prefix.
use std::alloc::{AllocError, Global};
use std::process::Abort;
use test_support::refusals::succeeds;
use tree_index::TreeIndex;
use tree_set::{TreeSet, TreeSetOf};
use tree_texts::{
    Bytes, Text, peek_bytes, prefix_bounds, prefix_range, remove_prefix, remove_text_prefix,
    text_prefix_bounds, text_prefix_range,
};

// Words in no order: with characters of one to four bytes, with the last character, and with the
// same first eight bytes.
static WORDS: [&str; 12] = [
    "plum",
    "über",
    "plums",
    "\u{10FFFF}a",
    "",
    "pl",
    "\u{D7FF}b",
    "plumbers",
    "\u{E000}",
    "plumbers at work",
    "pm",
    "😀",
];

// A prefix, and the words that begin with it in ascending order.
type Row = (&'static str, &'static [&'static str]);

static ROWS: [Row; 8] = [
    ("plum", &["plum", "plumbers", "plumbers at work", "plums"]),
    ("plumbers", &["plumbers", "plumbers at work"]),
    ("plumbers at", &["plumbers at work"]),
    ("plumbers in", &[]),
    ("\u{D7FF}", &["\u{D7FF}b"]),
    ("\u{10FFFF}", &["\u{10FFFF}a"]),
    ("ü", &["über"]),
    ("😀😀", &[]),
];

// Stores the words, each with its length.
fn store_words(alloc: Global) -> Result<TreeIndex<Text, usize>, AllocError> {
    let mut lengths: TreeIndex<Text, usize> = TreeIndex::new(alloc);
    for word in &WORDS {
        let key = Text::from(String::from_str(alloc, *word)?);
        if lengths.insert_sync(key, word.len()).is_err() {
            return Err(AllocError);
        }
    }
    Ok(lengths)
}

// The word of a pair, if there is one.
fn word_of<'t>(pair: Option<(&'t Text, &'t usize)>) -> Option<&'t str> {
    let (word, _) = pair?;
    Some(word.as_str())
}

// Returns whether the words with a prefix are these, from either end.
fn walks_words(
    alloc: Global,
    lengths: &TreeIndex<Text, usize>,
    prefix: &str,
    wanted: &[&str],
) -> Result<bool, AllocError> {
    let bounds = text_prefix_bounds(alloc, prefix)?;
    let mut there = text_prefix_range(lengths, &bounds);
    let mut back = text_prefix_range(lengths, &bounds);
    for word in wanted {
        if word_of(there.next()) != Some(*word) {
            return Ok(false);
        }
    }
    for word in wanted.iter().rev() {
        if word_of(back.next_back()) != Some(*word) {
            return Ok(false);
        }
    }
    Ok(there.next().is_none() && back.next_back().is_none())
}

// Walks the words of each row, removes them, and finds that they are gone and the others are not.
fn walks_and_removes_words(rt: &impl Abort, alloc: Global) -> Result<(), AllocError> {
    for (prefix, wanted) in &ROWS {
        let mut lengths = store_words(alloc)?;
        assert!(rt; walks_words(alloc, &lengths, *prefix, *wanted)?);
        let found = remove_text_prefix(alloc, &mut lengths, *prefix)?;
        assert!(rt; found != wanted.is_empty());
        assert!(rt; walks_words(alloc, &lengths, *prefix, &[])?);
        assert!(rt; lengths.len().saturating_add(wanted.len()) == WORDS.len());
    }
    Ok(())
}

#[test]
fn texts_by_prefix(rt: HostRuntime) {
    assert!(rt; succeeds(rt.alloc(), || walks_and_removes_words(&rt, rt.alloc())));
}

// Bytes in no order, with those of 255.
static BYTES: [&[u8]; 7] = [
    &[7, 255],
    &[255, 255, 1],
    &[],
    &[8],
    &[7, 255, 255],
    &[255],
    &[7, 254],
];

// A prefix, and how many of the bytes begin with it.
type BytesRow = (&'static [u8], usize);

static BYTES_ROWS: [BytesRow; 6] = [
    (&[], 7),
    (&[7], 3),
    (&[7, 255], 2),
    (&[255], 2),
    (&[255, 255], 1),
    (&[9], 0),
];

// Stores the bytes, each with their number.
fn store_bytes(alloc: Global) -> Result<TreeIndex<Bytes, usize>, AllocError> {
    let mut lengths: TreeIndex<Bytes, usize> = TreeIndex::new(alloc);
    for bytes in &BYTES {
        let key = Bytes::from((*bytes).to_vec(alloc)?);
        if lengths.insert_sync(key, bytes.len()).is_err() {
            return Err(AllocError);
        }
    }
    Ok(lengths)
}

// Returns how many bytes begin with a prefix.
fn bytes_with(
    alloc: Global,
    lengths: &TreeIndex<Bytes, usize>,
    prefix: &[u8],
) -> Result<usize, AllocError> {
    let bounds = prefix_bounds(alloc, prefix)?;
    let mut count: usize = 0;
    for _pair in prefix_range(lengths, &bounds) {
        count = count.saturating_add(1);
    }
    Ok(count)
}

// Returns the number that is stored with bytes.
fn number_of(lengths: &TreeIndex<Bytes, usize>, bytes: &[u8]) -> Option<usize> {
    let (_, length) = peek_bytes(lengths, bytes)?;
    Some(*length)
}

// Counts the bytes of each row, and removes them.
fn counts_and_removes_bytes(rt: &impl Abort, alloc: Global) -> Result<(), AllocError> {
    for (prefix, wanted) in &BYTES_ROWS {
        let mut lengths = store_bytes(alloc)?;
        assert!(rt; number_of(&lengths, &[7, 254]) == Some(2));
        assert!(rt; bytes_with(alloc, &lengths, *prefix)? == *wanted);
        let found = remove_prefix(alloc, &mut lengths, *prefix)?;
        assert!(rt; found == (*wanted > 0));
        assert!(rt; bytes_with(alloc, &lengths, *prefix)? == 0);
        assert!(rt; lengths.len().saturating_add(*wanted) == BYTES.len());
    }
    Ok(())
}

#[test]
fn bytes_by_prefix(rt: HostRuntime) {
    assert!(rt; succeeds(rt.alloc(), || counts_and_removes_bytes(&rt, rt.alloc())));
}

// Stores the words in a set.
fn set_of_words(alloc: Global) -> Result<TreeSet<Text>, AllocError> {
    let mut words: TreeSet<Text> = TreeSetOf::new(alloc);
    for word in &WORDS {
        let element = Text::from(String::from_str(alloc, *word)?);
        if words.insert(element).is_err() {
            return Err(AllocError);
        }
    }
    Ok(words)
}

// Returns whether the elements with a prefix are these.
fn walks_elements(
    alloc: Global,
    words: &TreeSet<Text>,
    prefix: &str,
    wanted: &[&str],
) -> Result<bool, AllocError> {
    let bounds = text_prefix_bounds(alloc, prefix)?;
    let mut left = words.text_prefix(&bounds);
    for word in wanted {
        let Some(element) = left.next() else {
            return Ok(false);
        };
        if element.as_str() != *word {
            return Ok(false);
        }
    }
    Ok(left.next().is_none())
}

// Walks the elements of each row, removes them, and finds that they are gone and the others are not.
fn walks_and_removes_elements(rt: &impl Abort, alloc: Global) -> Result<(), AllocError> {
    for (prefix, wanted) in &ROWS {
        let mut words = set_of_words(alloc)?;
        assert!(rt; walks_elements(alloc, &words, *prefix, *wanted)?);
        let found = words.remove_text_prefix(alloc, *prefix)?;
        assert!(rt; found != wanted.is_empty());
        assert!(rt; walks_elements(alloc, &words, *prefix, &[])?);
        assert!(rt; words.len().saturating_add(wanted.len()) == WORDS.len());
    }
    Ok(())
}

#[test]
fn set_of_texts_by_prefix(rt: HostRuntime) {
    assert!(rt; succeeds(rt.alloc(), || walks_and_removes_elements(&rt, rt.alloc())));
}

// Stores the bytes in a set.
fn set_of_bytes(alloc: Global) -> Result<TreeSet<Bytes>, AllocError> {
    let mut set: TreeSet<Bytes> = TreeSetOf::new(alloc);
    for bytes in &BYTES {
        let element = Bytes::from((*bytes).to_vec(alloc)?);
        if set.insert(element).is_err() {
            return Err(AllocError);
        }
    }
    Ok(set)
}

// Returns how many elements begin with a prefix.
fn elements_with(alloc: Global, set: &TreeSet<Bytes>, prefix: &[u8]) -> Result<usize, AllocError> {
    let bounds = prefix_bounds(alloc, prefix)?;
    let mut count: usize = 0;
    for _element in set.prefix(&bounds) {
        count = count.saturating_add(1);
    }
    Ok(count)
}

// Counts the elements of each row, and removes them.
fn counts_and_removes_elements(rt: &impl Abort, alloc: Global) -> Result<(), AllocError> {
    for (prefix, wanted) in &BYTES_ROWS {
        let mut set = set_of_bytes(alloc)?;
        assert!(rt; elements_with(alloc, &set, *prefix)? == *wanted);
        let found = set.remove_prefix(alloc, *prefix)?;
        assert!(rt; found == (*wanted > 0));
        assert!(rt; elements_with(alloc, &set, *prefix)? == 0);
        assert!(rt; set.len().saturating_add(*wanted) == BYTES.len());
    }
    Ok(())
}

#[test]
fn set_of_bytes_by_prefix(rt: HostRuntime) {
    assert!(rt; succeeds(rt.alloc(), || counts_and_removes_elements(&rt, rt.alloc())));
}
