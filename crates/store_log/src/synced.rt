//! One write that is on the disk once it is done.
ghost use Rattle.std.specs.Prelude.{◌≡◌, ◌+◌, ◌^◌, ◌<◌, ℕ, List, length, OnOk, IfErr, IsTrue};
ghost use Rattle.sqlite_disk.specs.Disk.{Follows, Holds, Mixed, MoreFaults, Only, Torn};
ghost use Rattle.store_log.specs.Cause.{IsIo};

use crate::LogError;
use sqlite_disk::Disk;

// Writes bytes at a place, and syncs.
pub(crate) fn write_synced<D: Disk>(disk: &mut D, at: usize, bytes: &[u8]) -> Result<(), LogError>
    requires { IsTrue (D.is_usable disk.old) }
    ensures written { OnOk result (0 < length bytes.now → Holds (D.seen disk.new) at bytes.now) }
    ensures durable { OnOk result (Only (D.seen disk.new) (D.may_leave disk.new)) }
    ensures usable { OnOk result (IsTrue (D.is_usable disk.new)) }
    ensures fine { OnOk result (D.faults disk.new ≡ D.faults disk.old) }
    ensures cause { IfErr result (λ e. IsIo e × MoreFaults (D.faults disk.old) (D.faults disk.new)) }
    ensures others { Torn at (length bytes.now) (D.seen disk.old) (D.seen disk.new) }
    ensures crash { Follows (Torn at (length bytes.now)) (D.may_leave disk.old) (D.may_leave disk.new) }
    ensures mixed { IsTrue (D.is_mixing disk.old) → at + length bytes.now < 2 ^ 64 → Follows (Mixed at bytes.now) (D.may_leave disk.old) (D.may_leave disk.new) }
    ensures clean { IsTrue (D.is_clean disk.new) → IsTrue (D.is_clean disk.old) }
{
    disk.write_at(at, bytes)?;
    disk.sync()?;
    Ok(())
}
