//! A file whose writes are not synced: they survive the end of the process, but not that of the
//! machine.
ghost use Rattle.std.specs.Prelude.{◌≡◌, refl};

use sqlite_disk::{Disk, Tally};
use std::io;

/// A file that a sync leaves as it is.
#[derive(Drop)]
pub struct Unsynced<D: Disk> {
    pub inner: D,
}

impl<D: Disk> Disk for Unsynced<D> {
    ghost seen = { λ d. D.Disk.seen d.inner };

    // What the end of the process may leave.
    ghost may_leave = { λ d c. c ≡ D.Disk.seen d.inner };

    ghost is_usable = { λ d. D.Disk.is_usable d.inner };

    ghost faults = { λ d. D.Disk.faults d.inner };

    ghost tally_of = { λ d. D.Disk.tally_of d.inner };

    ghost is_clean = { λ d. D.Disk.is_clean d.inner };

    ghost is_fair = { λ d. D.Disk.is_fair d.inner };

    ghost is_rotten = { λ d. D.Disk.is_rotten d.inner };

    ghost key_of = { λ d. D.Disk.key_of d.inner };

    ghost seen_may_stay = { λ d. refl };

    ghost fair_if_clean = { λ d. D.Disk.fair_if_clean d.inner };

    fn mixes(&self) -> bool {
        false
    }

    fn key(&self) -> u64 {
        self.inner.key()
    }

    fn tally(&self) -> Tally {
        self.inner.tally()
    }

    fn may_be_used(&self) -> bool {
        self.inner.may_be_used()
    }

    fn len(&mut self) -> io::Result<usize> {
        self.inner.len()
    }

    fn read_at(&mut self, at: usize, buf: &mut [u8]) -> io::Result<()> {
        self.inner.read_at(at, buf)
    }

    fn read_checked(&mut self, key: u64, want: u64, at: usize, buf: &mut [u8]) -> io::Result<()> {
        self.inner.read_checked(key, want, at, buf)
    }

    fn write_at(&mut self, at: usize, bytes: &[u8]) -> io::Result<()> {
        self.inner.write_at(at, bytes)
    }

    fn set_len(&mut self, len: usize) -> io::Result<()> {
        self.inner.set_len(len)
    }

    // A write is seen by who reads the file next, so a process that ends leaves it.
    fn sync(&mut self) -> io::Result<()> {
        Ok(())
    }
}
