//! Tests each byte of a store's files, and shows on a terminal how far that has come.

use crate::failure::Failure;
use crate::stat::{push_figure, write_out};
use std::alloc::Global;
use std::io::{IsTerminal, Write};
use store_frames::first_frame;

/// How much of a file was read.
#[derive(Clone, Copy, Debug, Default)]
pub struct Progress {
    /// How many bytes were read.
    pub bytes: usize,
    /// How many frames are in them.
    pub frames: u64,
    // Whether frames are counted.
    counts: bool,
    // Where the frames end.
    end: usize,
}

impl Progress {
    /// Returns the progress of a test, whose frames are counted.
    pub fn of_test() -> Self {
        Progress {
            counts: true,
            ..Progress::default()
        }
    }

    /// Counts the frames of the bytes that were read so far, and shows on a terminal how far a file
    /// of this length is tested.
    pub fn tell(&mut self, rt: &HostRuntime, bytes: &[u8], length: usize) {
        self.bytes = bytes.len();
        if !self.counts {
            return;
        }
        self.count(bytes);
        if rt.stderr().is_terminal() {
            let (read, frames) = (self.bytes, self.frames);
            let left = length.saturating_sub(read);
            let _ = eprint!(rt; "\r{read} bytes, {frames} frames, {left} bytes left ");
        }
    }

    // Counts the frames behind those that were found.
    fn count(&mut self, bytes: &[u8]) {
        let Some(mut rest) = bytes.get(self.end..) else {
            return;
        };
        for _ in 0..u64::MAX {
            let Some((_, behind)) = first_frame(rest) else {
                break;
            };
            self.frames = self.frames.saturating_add(1);
            rest = behind;
        }
        self.end = bytes.len().saturating_sub(rest.len());
    }

    /// Adds what was read of another file.
    pub fn add(&mut self, other: &Progress) {
        self.bytes = self.bytes.saturating_add(other.bytes);
        self.frames = self.frames.saturating_add(other.frames);
    }

    /// Ends the line on the terminal.
    pub fn end(&self, rt: &HostRuntime) {
        if rt.stderr().is_terminal() {
            let _ = eprintln!(rt; "");
        }
    }
}

/// Writes how many bytes were tested, and how many frames are in them.
///
/// Returns `Err` if a write fails or if it cannot allocate.
pub fn report<W: Write>(alloc: Global, read: &Progress, output: &mut W) -> Result<(), Failure> {
    let mut text = Vec::new(alloc);
    push_figure(&mut text, "bytes", read.bytes as u64).map_err(|_| Failure::Memory)?;
    push_figure(&mut text, "frames", read.frames).map_err(|_| Failure::Memory)?;
    write_out(output, &text)
}
