//! Which of two files counts.
ghost use Rattle.std.specs.Prelude.{◌≡◌, ◌↔◌, ℕ, List, IfOk, IfErr, IsErrOf, IsTrue};
ghost use Rattle.store_log.specs.Refusal.{IsRefusal};
ghost use Rattle.store_log.specs.Spare.{IsOlder};
ghost use Rattle.store_log.specs.declared.head.Head.{Head as HeadOf};
ghost use Rattle.store_pair.specs.Pair.{AreBlank, AreClean, AreOrdered, AreSettled, AreUntouched, AreUsable, Held, HavePair, IsCounted, counted_in, held_in, other_in};

use crate::Files;
use sqlite_disk::Disk;
use std::alloc::Global;
use store_log::{LogError, OpenError, head_of, is_blank, is_spare, read_all};

// Reads two files, and returns whether the second counts, the one that does, and the other. Returns
// `Err` with the files if they can't be read or if none counts.
pub(crate) fn ordered<D: Disk>(
    alloc: Global,
    mut files: Files<D>,
) -> Result<(bool, D, D), (OpenError, Files<D>)>
    requires usable { AreUsable D.is_usable files }
    requires settled { AreSettled D.seen D.may_leave files }
    ensures ordered { IfOk result (λ found. AreOrdered D.is_clean D.is_usable D.seen D.may_leave files found.0 found.1 found.2) }
    ensures sound { IfErr result (λ e. AreClean D.is_clean e.1 → IsRefusal e.0 → (head : HeadOf) (texts : List (List ℕ)) → HavePair head texts (held_in D.seen files) → ⊥) }
    ensures blank { IfErr result (λ e. AreClean D.is_clean e.1 → e.0 ≡ OpenError.Blank → AreBlank (held_in D.seen files)) }
    ensures usable { IfErr result (λ e. AreUsable D.is_usable e.1) }
    ensures untouched { IfErr result (λ e. AreUntouched D.seen D.may_leave files e.1) }
    ensures clean { IfErr result (λ e. AreClean D.is_clean e.1 → AreClean D.is_clean files) }
{
    let (one, other) = match read_both(alloc, &mut files) {
        Ok(bytes) => bytes,
        Err(error) => return Err((OpenError::Log(error), files)),
    };
    match second_counts(&one, &other) {
        Ok(swapped) => {
            let (disk, spare) = files.in_order(swapped);
            Ok((swapped, disk, spare))
        }
        Err(refusal) => Err((refusal, files)),
    }
}

// Returns the bytes of both files.
fn read_both<D: Disk>(alloc: Global, files: &mut Files<D>) -> Result<(Vec<u8>, Vec<u8>), LogError>
    requires { AreUsable D.is_usable files.old }
    ensures bytes { IfOk result (λ bytes. AreClean D.is_clean files.new → held_in D.seen files.old ≡ record { first = bytes.0.items; second = bytes.1.items }) }
    ensures untouched { AreUntouched D.seen D.may_leave files.old files.new }
    ensures usable { AreUsable D.is_usable files.new }
    ensures clean { AreClean D.is_clean files.new → AreClean D.is_clean files.old }
{
    let first = read_all(alloc, &mut files.first)?;
    let second = read_all(alloc, &mut files.second)?;
    Ok((first, second))
}

// Returns whether the second of two files counts, or the first.
pub(crate) fn second_counts(first: &[u8], second: &[u8]) -> Result<bool, OpenError>
    ensures found { IfOk result (λ swapped. IsCounted (counted_in swapped (record { first = first.now; second = second.now })) (other_in swapped (record { first = first.now; second = second.now }))) }
    ensures refused { IfErr result (λ _. (head : HeadOf) (texts : List (List ℕ)) → HavePair head texts (record { first = first.now; second = second.now }) → ⊥) }
    ensures blank { IsErrOf result OpenError.Blank → AreBlank (record { first = first.now; second = second.now }) }
    ensures refusal { IfErr result IsRefusal }
{
    if is_counted(first, second) {
        return Ok(false);
    }
    if is_counted(second, first) {
        return Ok(true);
    }
    if is_blank(first) && is_blank(second) {
        return Err(OpenError::Blank);
    }
    Err(OpenError::NoHead)
}

// Returns whether one file has a head, and the other is older.
fn is_counted(one: &[u8], other: &[u8]) -> bool
    ensures { IsTrue result ↔ IsCounted one.now other.now }
{
    match head_of(one) {
        Some(head) => is_older(other, head.generation),
        None => false,
    }
}

// Returns whether a file may be written over, and has no head of this generation or a later one.
fn is_older(bytes: &[u8], generation: u64) -> bool
    ensures { IsTrue result ↔ IsOlder generation bytes.now }
{
    match head_of(bytes) {
        Some(head) => head.generation < generation,
        None => is_spare(bytes),
    }
}
