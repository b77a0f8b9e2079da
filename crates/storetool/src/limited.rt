//! A file that is not written past a length. A write past the limit on a file's size would end the
//! process by a signal, which no code here can catch.
ghost use Rattle.std.specs.Prelude.{◌≡◌, ◌↔◌, ◌+◌, ◌<◌, false, IsErr};
ghost use Rattle.sqlite_disk.specs.Disk.{CountsFault};
ghost use Rattle.sqlite_disk.specs.Refusal.{finds_no_room};

use sqlite_disk::{Disk, Tally};
use std::{fs, io};

/// A file that no write makes longer than its limit.
#[derive(Drop)]
pub struct Limited<D: Disk> {
    inner: D,
    limit: usize,
    // How many calls the limit refused.
    refused: u64,
}

impl<D: Disk> Limited<D> {
    /// Puts a limit on the length of a file.
    pub fn new(inner: D, limit: usize) -> Limited<D>
        ensures { result.inner ≡ inner }
    {
        Limited {
            inner,
            limit,
            refused: 0,
        }
    }
}

// Returns `Err`, and counts it, if a length is beyond the limit.
fn allow(limit: usize, length: usize, refused: &mut u64) -> io::Result<()>
    ensures faults { CountsFault result refused.old refused.new }
    ensures kind { finds_no_room result ≡ false }
    ensures beyond { IsErr result ↔ (limit < length) }
{
    if length > limit {
        *refused = refused.saturating_add(1);
        return Err(io::ErrorKind::FileTooLarge.into());
    }
    Ok(())
}

impl<D: Disk> Disk for Limited<D> {
    ghost seen = { λ d. D.Disk.seen d.inner };

    ghost may_leave = { λ d. D.Disk.may_leave d.inner };

    ghost is_usable = { λ d. D.Disk.is_usable d.inner };

    ghost faults = { λ d. D.Disk.faults d.inner + d.refused };

    ghost tally_of = { λ d. D.Disk.tally_of d.inner };

    ghost is_clean = { λ d. D.Disk.is_clean d.inner };

    ghost is_fair = { λ d. D.Disk.is_fair d.inner };

    ghost is_rotten = { λ d. D.Disk.is_rotten d.inner };

    ghost is_mixing = { λ d. D.Disk.is_mixing d.inner };

    ghost key_of = { λ d. D.Disk.key_of d.inner };

    ghost seen_may_stay = { λ d. D.Disk.seen_may_stay d.inner };

    ghost fair_if_clean = { λ d. D.Disk.fair_if_clean d.inner };

    fn mixes(&self) -> bool {
        self.inner.mixes()
    }

    fn key(&self) -> u64 {
        self.inner.key()
    }

    fn tally(&self) -> Tally {
        self.inner.tally()
    }

    fn may_be_used(&self) -> bool {
        self.inner.may_be_used()
    }

    fn len(&mut self) -> io::Result<usize> {
        self.inner.len()
    }

    fn read_at(&mut self, at: usize, buf: &mut [u8]) -> io::Result<()> {
        self.inner.read_at(at, buf)
    }

    fn read_checked(&mut self, key: u64, want: u64, at: usize, buf: &mut [u8]) -> io::Result<()> {
        self.inner.read_checked(key, want, at, buf)
    }

    fn write_at(&mut self, at: usize, bytes: &[u8]) -> io::Result<()> {
        let end = at.saturating_add(bytes.len());
        allow(self.limit, end, &mut self.refused)?;
        self.inner.write_at(at, bytes)
    }

    fn set_len(&mut self, len: usize) -> io::Result<()> {
        allow(self.limit, len, &mut self.refused)?;
        self.inner.set_len(len)
    }

    fn sync(&mut self) -> io::Result<()> {
        self.inner.sync()
    }
}

/// Returns the limit on a file's size that the system reports for this process, or the largest
/// number if it reports none.
pub fn file_limit(rt: &HostRuntime) -> usize {
    match fs::read_to_string(rt, "/proc/self/limits") {
        Ok(text) => limit_in(text.as_str()).unwrap_or(usize::MAX),
        Err(_) => usize::MAX,
    }
}

// Returns the limit in the lines of the system, or `None` if it isn't a number.
fn limit_in(text: &str) -> Option<usize> {
    for line in text.lines() {
        if let Some(limits) = line.strip_prefix("Max file size") {
            return limits.trim_start().split_once(' ')?.0.parse().ok();
        }
    }
    None
}
