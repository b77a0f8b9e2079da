//! A copy of a file in memory, for tasks that are not to change a byte of it.
ghost use Rattle.std.specs.Prelude.{IsTrue, IfOk};
ghost use Rattle.sqlite_disk.specs.Disk.{Only};

use crate::failure::Failure;
use crate::verify::Progress;
use sqlite_disk::Disk;
use std::io;
use store_log::LogError;
use tree_store::OpenError;

// How many bytes one read takes at most.
const PIECE: usize = 1 << 20;

/// Returns the bytes of a file, and tells the progress of each read.
///
/// Returns `Err` if the file can't be read or if it cannot allocate.
pub fn read_whole<D: Disk>(
    rt: &HostRuntime,
    disk: &mut D,
    progress: &mut Progress,
) -> Result<Vec<u8>, Failure> {
    if !disk.may_be_used() {
        return Err(stopped());
    }
    let length = disk.len().map_err(unread)?;
    let mut bytes = Vec::new(rt.alloc());
    let mut at = 0;
    while at < length {
        let count = PIECE.min(length - at);
        read_piece(rt, disk, &mut bytes, at, count)?;
        at += count;
        progress.tell(rt, &bytes, length);
    }
    Ok(bytes)
}

// Appends so many bytes of a file, from a place on.
fn read_piece<D: Disk>(
    rt: &HostRuntime,
    disk: &mut D,
    bytes: &mut Vec<u8>,
    at: usize,
    count: usize,
) -> Result<(), Failure> {
    if !disk.may_be_used() {
        return Err(stopped());
    }
    let mut piece = vec![in rt.alloc(); 0u8; count]?;
    disk.read_at(at, &mut piece).map_err(unread)?;
    Ok(bytes.extend_from_slice(&piece)?)
}

/// Writes bytes to the front of a file, and returns it once they are on its disk.
///
/// Returns `Err` if that fails.
pub fn settled_with<C: Disk + Drop>(mut copy: C, bytes: &[u8]) -> Result<C, Failure>
    ensures usable { IfOk result (λ copy. IsTrue (C.is_usable copy)) }
    ensures settled { IfOk result (λ copy. Only (C.seen copy) (C.may_leave copy)) }
{
    if !copy.may_be_used() {
        return Err(stopped());
    }
    copy.write_at(0, bytes).map_err(unread)?;
    copy.sync().map_err(unread)?;
    Ok(copy)
}

// Returns the failure of a file of which a sync failed.
fn stopped() -> Failure {
    Failure::Store(OpenError::Log(store_log::OpenError::Log(LogError::Stopped)))
}

/// Returns the failure of a read.
pub fn unread(error: io::Error) -> Failure {
    Failure::Store(OpenError::Log(store_log::OpenError::Log(LogError::Io(error))))
}
