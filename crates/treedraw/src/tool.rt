//! The program over streams that are passed to it.
ghost use Rattle.std.specs.Prelude.{◌<◌, ◌≤◌, length};

use crate::dot::DOT;
use crate::draw::draw;
use crate::language::Language;
use crate::options::{Options, options_of};
use crate::reading::shape_of;
use crate::shape::Shape;
use crate::svg::SVG;
use std::alloc::{AllocError, Global};
use std::io::{self, Read, Write};
use tree_index::{SmallTreeIndex, TreeIndex, TreeIndexOf};
use tree_lines::{run_lines, write_whole};

/// Why not all pictures were written.
#[derive(Clone, Copy)]
pub enum DrawFault {
    /// A write failed or took no byte.
    Write,
    /// An allocation failed.
    Memory,
}

/// Runs the program and returns its exit status. `arguments` are those after the program's name.
///
/// The status is 0 if all pictures were written, 1 with other arguments, 2 if a read or a write
/// fails, and 3 if an allocation for a picture fails. An insert that cannot allocate changes
/// nothing, as in `treetool`.
pub fn tool<I: Read, O: Write, E: Write>(
    alloc: Global,
    arguments: &[String],
    input: &mut I,
    output: &mut O,
    errors: &mut E,
) -> u8
    ensures { result ≤ 3 }
{
    let Some(options) = options_of(arguments) else {
        let _ = write_whole(errors, b"usage: treedraw [--small] [--svg] [--every]\n");
        return 1;
    };
    let mut script = Vec::new(alloc);
    let Ok(_) = input.read_to_end(&mut script) else {
        return 2;
    };
    let drawn = if options.is_small {
        draw_small(alloc, lines_of(script.as_slice()), options, output)
    } else {
        draw_large(alloc, lines_of(script.as_slice()), options, output)
    };
    match drawn {
        Ok(()) => 0,
        Err(DrawFault::Write) => 2,
        Err(DrawFault::Memory) => 3,
    }
}

// Draws what lines do to an index of fifteen pairs a leaf.
fn draw_large<W: Write>(
    alloc: Global,
    script: &[u8],
    options: Options,
    output: &mut W,
) -> Result<(), DrawFault> {
    let mut index: TreeIndex<u64, u64> = TreeIndex::new(alloc);
    draw_lines(alloc, &mut index, script, options, output)
}

// Draws what they do to one of seven.
fn draw_small<W: Write>(
    alloc: Global,
    script: &[u8],
    options: Options,
    output: &mut W,
) -> Result<(), DrawFault> {
    let mut index: SmallTreeIndex<u64, u64> = SmallTreeIndex::new(alloc);
    draw_lines(alloc, &mut index, script, options, output)
}

// Applies lines one after another, and draws the tree after each, or after the last one.
fn draw_lines<W: Write, const LEN: usize>(
    alloc: Global,
    index: &mut TreeIndexOf<u64, u64, LEN>,
    script: &[u8],
    options: Options,
    output: &mut W,
) -> Result<(), DrawFault> {
    let mut left = script;
    while !left.is_empty() {
        let (line, behind) = first_line(left);
        let is_drawn = options.is_every || behind.is_empty();
        take_line(alloc, index, line, is_drawn, options, output)?;
        left = behind;
    }
    Ok(())
}

// Applies a line, and draws the tree after it if that is requested.
fn take_line<W: Write, const LEN: usize>(
    alloc: Global,
    index: &mut TreeIndexOf<u64, u64, LEN>,
    line: &[u8],
    is_drawn: bool,
    options: Options,
    output: &mut W,
) -> Result<(), DrawFault> {
    if is_drawn {
        draw_line(alloc, index, line, options, output)
    } else {
        apply(index, line);
        Ok(())
    }
}

// Returns the lines of a script. An empty script is one line without a request.
fn lines_of(script: &[u8]) -> &[u8] {
    if script.is_empty() { b"\n" } else { script }
}

// Returns the first line of a text with its line feed, and what is after it.
fn first_line(text: &[u8]) -> (&[u8], &[u8])
    requires { 0 < length text.now }
    ensures { length result.1.now < length text.now }
{
    for (place, byte) in text.iter().enumerate() {
        if *byte == b'\n' {
            return text.split_at(place + 1);
        }
    }
    text.split_at(text.len())
}

// Applies a line as `treetool` does. Nobody reads its answer.
fn apply<const LEN: usize>(index: &mut TreeIndexOf<u64, u64, LEN>, line: &[u8]) {
    let mut input = line;
    let mut answers = io::sink();
    let _ = run_lines(index, &mut input, &mut answers);
}

// Applies a line, and writes a picture of the tree after it. Reads the whole tree twice.
fn draw_line<W: Write, const LEN: usize>(
    alloc: Global,
    index: &mut TreeIndexOf<u64, u64, LEN>,
    line: &[u8],
    options: Options,
    output: &mut W,
) -> Result<(), DrawFault> {
    let Ok(picture) = picture_of(alloc, index, line, options) else {
        return Err(DrawFault::Memory);
    };
    match write_whole(output, picture.as_slice()) {
        Ok(()) => Ok(()),
        Err(_) => Err(DrawFault::Write),
    }
}

// Applies a line, and returns a picture of the tree after it.
fn picture_of<const LEN: usize>(
    alloc: Global,
    index: &mut TreeIndexOf<u64, u64, LEN>,
    line: &[u8],
    options: Options,
) -> Result<Vec<u8>, AllocError> {
    let before = shape_of(alloc, index)?;
    picture_after(alloc, index, &before, line, options)
}

// Applies a line, and returns a picture of what it changed.
fn picture_after<const LEN: usize>(
    alloc: Global,
    index: &mut TreeIndexOf<u64, u64, LEN>,
    before: &Shape,
    line: &[u8],
    options: Options,
) -> Result<Vec<u8>, AllocError> {
    apply(index, line);
    let now = shape_of(alloc, index)?;
    drawn(alloc, before, &now, line, options)
}

// Returns a picture of a tree and what a line changed in it.
fn drawn(
    alloc: Global,
    before: &Shape,
    now: &Shape,
    line: &[u8],
    options: Options,
) -> Result<Vec<u8>, AllocError> {
    let mut picture = Vec::new(alloc);
    draw(&mut picture, language_of(options), before, now, line)?;
    Ok(picture)
}

// Returns the language that the options request.
fn language_of(options: Options) -> &'static Language {
    if options.is_svg { &SVG } else { &DOT }
}
