//! A reader and a writer of which one call fails.
use std::io;
use std::io::{ErrorKind, Read, Write};

/// The way in which a call fails.
#[derive(Clone, Copy, Debug)]
pub enum Failure {
    Broken,
    Interrupted,
    /// The call succeeds, but takes or gives no byte.
    Stalled,
}

/// The call that fails: the one after those that pass. Later calls succeed again.
#[derive(Clone, Copy)]
pub struct Failing {
    pub passes: u64,
    pub by: Failure,
}

impl Failing {
    // No call fails that a test makes.
    pub(crate) fn never() -> Failing {
        Failing {
            passes: u64::MAX,
            by: Failure::Broken,
        }
    }

    // Counts a call. Returns `Ok(false)` if it is to take or give no byte.
    fn call(&mut self) -> io::Result<bool> {
        if self.passes > 0 {
            self.passes -= 1;
            return Ok(true);
        }
        let by = self.by;
        *self = Failing::never();
        match by {
            Failure::Broken => Err(io::Error::from(ErrorKind::Other)),
            Failure::Interrupted => Err(io::Error::from(ErrorKind::Interrupted)),
            Failure::Stalled => Ok(false),
        }
    }
}

/// A reader that gives its bytes in pieces.
#[derive(Drop)]
pub struct Source<'a> {
    bytes: &'a [u8],
    piece: usize,
    failing: Failing,
}

impl<'a> Source<'a> {
    pub(crate) fn new(bytes: &'a [u8], piece: usize, failing: Failing) -> Self {
        Source {
            bytes,
            piece,
            failing,
        }
    }
}

impl Read for Source<'_> {
    fn read(&mut self, buf: &mut [u8]) -> io::Result<usize> {
        if !self.failing.call()? {
            return Ok(0);
        }
        let count = self.piece.min(self.bytes.len()).min(buf.len());
        buf[..count].copy_from_slice(&self.bytes[..count]);
        self.bytes = &self.bytes[count..];
        Ok(count)
    }
}

/// A writer that takes up to 256 bytes, in pieces.
#[derive(Drop)]
pub struct Sink {
    taken: [u8; 256],
    length: usize,
    piece: usize,
    failing: Failing,
}

impl Sink {
    pub(crate) fn new(piece: usize, failing: Failing) -> Self {
        Sink {
            taken: [0; 256],
            length: 0,
            piece,
            failing,
        }
    }

    // Returns the bytes that were taken.
    pub(crate) fn taken(&self) -> &[u8] {
        &self.taken[..self.length.min(256)]
    }
}

impl Write for Sink {
    fn write(&mut self, buf: &[u8]) -> io::Result<usize> {
        if !self.failing.call()? {
            return Ok(0);
        }
        let start = self.length.min(256);
        let count = self.piece.min(buf.len()).min(256 - start);
        self.taken[start..start + count].copy_from_slice(&buf[..count]);
        self.length = start + count;
        Ok(count)
    }

    fn flush(&mut self) -> io::Result<()> {
        Ok(())
    }
}
