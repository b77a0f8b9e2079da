//! Answers the lines of its input, those before a form feed over an index with seven pairs a leaf,
//! and those after it over one with fifteen. Its stored run is two scripts of worked lines, part
//! after part. The index is cleared if a new one is meant.
//!
//! With seven pairs a leaf:
//!
//! 1. Keys 1 to 3616 in ascending order, with the depth on the way, and two removals of ranges.
//! 2. Levels that go with a range, or where all of their pairs are removed.
//! 3. The spare after upserts of one key, after removals, after a leaf is divided, and beside an
//!    empty last leaf.
//! 4. Edits and look-ups.
//! 5. Removals of ranges.
//! 6. Pairs in order, ranges and nearest keys.
//! 7. Lines that are no requests, and a script that has one.
//! 8. A last line without a line feed.
//!
//! With fifteen:
//!
//! 1. Keys 1 to 3616 in ascending order, the depth on the way, and again where they are removed in
//!    descending order.
//! 2. The spare after upserts of one key, and after removals from one leaf.
//! 3. A root whose last pair was removed, and the pair that comes then.
//! 4. The spare after a leaf is divided: filled downwards, both ways, and as a child under a
//!    separator.
//! 5. Leaves and levels that go where all of their pairs are removed.
//! 6. Removals of ranges.
//! 7. Edits and look-ups.
//! 8. Pairs in order, and nearest keys.
//! 9. Lines that are no requests, though some contain one, and what is stored afterwards.
//! 10. Long lines, each of which contains a request or would be one.
//! 11. A last line without a line feed.
#![tactic(auto)]

use std::io::{self, Read};
use std::process::ExitCode;
use tree_index::{SmallTreeIndex, TreeIndex};
use tree_lines::{ToolFault, run_lines};

// What is between the two scripts.
const FORM_FEED: u8 = 12;

// Reads the input whole.
fn read_input(rt: &HostRuntime) -> io::Result<Vec<u8>> {
    let mut input = Vec::new(rt.alloc());
    rt.stdin().read_to_end(&mut input)?;
    Ok(input)
}

// Answers the lines of a script over an index with seven pairs a leaf.
fn answer_small(rt: &HostRuntime, mut input: &[u8]) -> Result<(), ToolFault> {
    let mut index: SmallTreeIndex<u64, u64> = SmallTreeIndex::new(rt.alloc());
    run_lines(&mut index, &mut input, &mut rt.stdout())
}

// Answers the lines of a script over an index with fifteen pairs a leaf.
fn answer(rt: &HostRuntime, mut input: &[u8]) -> ExitCode {
    let mut output = rt.stdout();
    let mut index: TreeIndex<u64, u64> = TreeIndex::new(rt.alloc());
    match run_lines(&mut index, &mut input, &mut output) {
        Ok(()) => ExitCode::from(0),
        Err(_) => ExitCode::from(2),
    }
}

fn main(rt: HostRuntime) -> ExitCode {
    let Ok(input) = read_input(&rt) else {
        return ExitCode::from(2);
    };
    let mut scripts = input.split(|byte| *byte == FORM_FEED);
    match answer_small(&rt, scripts.next().unwrap_or_default()) {
        Ok(()) => answer(&rt, scripts.next().unwrap_or_default()),
        Err(_) => ExitCode::from(2),
    }
}
