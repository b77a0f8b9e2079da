//! An index that answers lines.
use std::io::{Read, Write};
use tree_index::{TreeIndex, TreeIndexOf};
use tree_lines::{ToolFault, run_lines};

// An index that answers lines, as its tests call it.
pub(crate) trait Answers {
    // Calls `clear`.
    fn clear(&mut self);

    // Calls `run_lines`.
    fn run<R: Read, W: Write>(&mut self, input: &mut R, output: &mut W) -> Result<(), ToolFault>;
}

impl Answers for TreeIndex<u64, u64> {
    fn clear(&mut self) {
        TreeIndexOf::clear(self);
    }

    fn run<R: Read, W: Write>(&mut self, input: &mut R, output: &mut W) -> Result<(), ToolFault> {
        run_lines(self, input, output)
    }
}
