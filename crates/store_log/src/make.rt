//! Makes the head of a blank file.
ghost use Rattle.std.specs.Prelude.{◌≡◌, ◌<◌, ◌↔◌, ℕ, List, length, slice_index, OnOk, IsTrue};
ghost use Rattle.sqlite_disk.specs.Disk.{Only};
ghost use Rattle.store_log.specs.Log.{HasHead, IsBlank, IsClosed, IsFresh};

use crate::LogError;
use crate::synced::write_synced;
use sqlite_disk::Disk;
use store_frames::GATE;

// Writes the frame of a head and a closed gate behind it into a blank file, of which `old` is all.
// The gate of the frame is opened last.
pub(crate) fn write_head<D: Disk>(disk: &mut D, old: &[u8], bytes: &[u8]) -> Result<(), LogError>
    requires usable { IsTrue (D.is_usable disk.old) }
    requires blank { IsBlank old.now }
    requires read { IsTrue (D.is_clean disk.old) → D.seen disk.old ≡ old.now }
    requires durable { Only (D.seen disk.old) (D.may_leave disk.old) }
    requires whole { length bytes.now ≡ 56 }
    requires head { HasHead bytes.now }
    ensures written { OnOk result (IsTrue (D.is_clean disk.new) → D.seen disk.new ≡ bytes.now) }
    ensures durable { OnOk result (Only (D.seen disk.new) (D.may_leave disk.new)) }
    ensures usable { OnOk result (IsTrue (D.is_usable disk.new)) }
    ensures crash { IsTrue (D.is_clean disk.new) → (file : List ℕ) → D.may_leave disk.new file → IsFresh file }
    ensures clean { IsTrue (D.is_clean disk.new) → IsTrue (D.is_clean disk.old) }
{
    let (_, behind) = bytes.split_at(1);
    close(disk, old)?;
    write_synced(disk, 1, behind)?;
    write_synced(disk, 0, &[GATE])?;
    Ok(())
}

// Ensures that a closed gate is at the front of a blank file.
fn close<D: Disk>(disk: &mut D, old: &[u8]) -> Result<(), LogError>
    requires usable { IsTrue (D.is_usable disk.old) }
    requires blank { IsBlank old.now }
    requires read { IsTrue (D.is_clean disk.old) → D.seen disk.old ≡ old.now }
    requires durable { Only (D.seen disk.old) (D.may_leave disk.old) }
    ensures closed { OnOk result (IsTrue (D.is_clean disk.new) → IsClosed (D.seen disk.new)) }
    ensures durable { OnOk result (Only (D.seen disk.new) (D.may_leave disk.new)) }
    ensures usable { OnOk result (IsTrue (D.is_usable disk.new)) }
    ensures crash { IsTrue (D.is_clean disk.new) → (file : List ℕ) → D.may_leave disk.new file → IsFresh file }
    ensures clean { IsTrue (D.is_clean disk.new) → IsTrue (D.is_clean disk.old) }
{
    if is_closed(old) {
        return Ok(());
    }
    write_synced(disk, 0, &[0])?;
    Ok(())
}

// Returns whether the first byte is a closed gate.
fn is_closed(bytes: &[u8]) -> bool
    ensures { IsTrue result ↔ ((0 < length bytes.now) × (slice_index bytes.now 0 ≡ 0)) }
{
    let Some((gate, _)) = bytes.split_first() else {
        return false;
    };
    *gate == 0
}
