//! Records: what a write did to an index, and not what was asked for.

ghost use Rattle.std.specs.Prelude.{◌≡◌, ◌∷◌, [], ◌++◌, ℕ, List, OnOk, OnErr, IfOk, option_map};
ghost use Rattle.std.specs.Range.Bound.{bound_map};
ghost use Rattle.store_codec.specs.Records.{ReadsBack, bound_bytes, bound_at, record_bytes, record_at, record_map};

use crate::Encode;
use std::alloc::{AllocError, Global};
use std::ops::Bound;

/// What a write did to the list of pairs.
#[derive(Drop)]
pub enum Record<K, V> {
    /// Stored the pair, in place of one whose key is equal.
    Put(K, V),
    /// Removed the pair with this key.
    Remove(K),
    /// Removed the pairs within both bounds.
    Cut(Bound<K>, Bound<K>),
    /// Removed all pairs.
    Clear,
}

/// Appends the record of a stored pair: the byte 1, the key and the value.
///
/// Returns `Err` if it cannot allocate. A front of the record may be in `out` then. Allocates only
/// if `out` has no room.
pub fn push_put<K: Encode, V: Encode>(
    out: &mut Vec<u8>,
    key: &K,
    value: &V,
) -> Result<(), AllocError>
    ensures pushed { OnOk result (out.new.items ≡ out.old.items ++ record_bytes K.bytes_of V.bytes_of (Record.Put (K.seen key.now) (V.seen value.now))) }
    ensures refused { OnErr result ((front : List ℕ) × (out.new.items ≡ out.old.items ++ front)) }
    ensures law { OnOk result (ReadsBack (record_at K.value_at V.value_at) (record_bytes K.bytes_of V.bytes_of (Record.Put (K.seen key.now) (V.seen value.now))) (Record.Put (K.seen key.now) (V.seen value.now))) }
{
    out.push(1)?;
    key.push_to(out)?;
    value.push_to(out)
}

/// Appends the record of a removed pair: the byte 2 and the key.
///
/// Returns `Err` if it cannot allocate. A front of the record may be in `out` then. Allocates only
/// if `out` has no room.
pub fn push_remove<K: Encode>(out: &mut Vec<u8>, key: &K) -> Result<(), AllocError>
    ensures pushed { OnOk result (out.new.items ≡ out.old.items ++ 2 ∷ K.bytes_of (K.seen key.now)) }
    ensures refused { OnErr result ((front : List ℕ) × (out.new.items ≡ out.old.items ++ front)) }
    ensures law { OnOk result (ReadsBack K.value_at (K.bytes_of (K.seen key.now)) (K.seen key.now)) }
{
    out.push(2)?;
    key.push_to(out)
}

/// Appends the record of a removed range: the byte 3 and both bounds. A bound is the byte 0, or 1
/// and a key that is included, or 2 and one that isn't.
///
/// Returns `Err` if it cannot allocate. A front of the record may be in `out` then. Allocates only
/// if `out` has no room.
pub fn push_cut<K: Encode>(
    out: &mut Vec<u8>,
    low: Bound<&K>,
    high: Bound<&K>,
) -> Result<(), AllocError>
    ensures pushed { OnOk result (out.new.items ≡ out.old.items ++ 3 ∷ bound_bytes K.bytes_of (bound_map (λ key. K.seen key.now) low.entry) ++ bound_bytes K.bytes_of (bound_map (λ key. K.seen key.now) high.entry)) }
    ensures refused { OnErr result ((front : List ℕ) × (out.new.items ≡ out.old.items ++ front)) }
    ensures law { OnOk result (ReadsBack (bound_at K.value_at) (bound_bytes K.bytes_of (bound_map (λ key. K.seen key.now) low.entry)) (bound_map (λ key. K.seen key.now) low.entry) × ReadsBack (bound_at K.value_at) (bound_bytes K.bytes_of (bound_map (λ key. K.seen key.now) high.entry)) (bound_map (λ key. K.seen key.now) high.entry)) }
{
    out.push(3)?;
    push_bound(out, low)?;
    push_bound(out, high)
}

/// Appends the record of a removal of all pairs: the byte 4.
///
/// Returns `Err` if it cannot allocate. Then `out` is as it was. Allocates only if `out` has no
/// room.
pub fn push_clear(out: &mut Vec<u8>) -> Result<(), AllocError>
    ensures pushed { OnOk result (out.new.items ≡ out.old.items ++ 4 ∷ []) }
    ensures refused { OnErr result (out.new.items ≡ out.old.items) }
{
    out.push(4)?;
    Ok(())
}

// Appends a bound.
fn push_bound<K: Encode>(out: &mut Vec<u8>, bound: Bound<&K>) -> Result<(), AllocError>
    ensures pushed { OnOk result (out.new.items ≡ out.old.items ++ bound_bytes K.bytes_of (bound_map (λ key. K.seen key.now) bound.entry)) }
    ensures refused { OnErr result ((front : List ℕ) × (out.new.items ≡ out.old.items ++ front)) }
    ensures law { OnOk result (ReadsBack (bound_at K.value_at) (bound_bytes K.bytes_of (bound_map (λ key. K.seen key.now) bound.entry)) (bound_map (λ key. K.seen key.now) bound.entry)) }
{
    match bound {
        Bound::Unbounded => {
            out.push(0)?;
            Ok(())
        }
        Bound::Included(key) => {
            out.push(1)?;
            key.push_to(out)
        }
        Bound::Excluded(key) => {
            out.push(2)?;
            key.push_to(out)
        }
    }
}

/// Returns the record at the front, with what is behind it. Returns `Ok(None)` if no record is
/// there, and `Err` if it cannot allocate. Allocates only what the key and the value own.
pub fn next_record<K: Encode, V: Encode>(
    alloc: Global,
    bytes: &[u8],
) -> Result<Option<(Record<K, V>, &[u8])>, AllocError>
    ensures { IfOk result (λ found. option_map (λ it. (record_map K.seen V.seen it.0, it.1.now)) found ≡ record_at K.value_at V.value_at bytes.now) }
{
    let Some((tag, rest)) = bytes.split_first() else {
        return Ok(None);
    };
    match *tag {
        1 => {
            let Some((key, rest)) = K::take_from(alloc, rest)? else {
                return Ok(None);
            };
            let Some((value, rest)) = V::take_from(alloc, rest)? else {
                return Ok(None);
            };
            Ok(Some((Record::Put(key, value), rest)))
        }
        2 => {
            let Some((key, rest)) = K::take_from(alloc, rest)? else {
                return Ok(None);
            };
            Ok(Some((Record::Remove(key), rest)))
        }
        3 => {
            let Some((low, rest)) = take_bound(alloc, rest)? else {
                return Ok(None);
            };
            let Some((high, rest)) = take_bound(alloc, rest)? else {
                return Ok(None);
            };
            Ok(Some((Record::Cut(low, high), rest)))
        }
        4 => Ok(Some((Record::Clear, rest))),
        _ => Ok(None),
    }
}

// Returns the bound at the front, with what is behind it.
fn take_bound<K: Encode>(
    alloc: Global,
    bytes: &[u8],
) -> Result<Option<(Bound<K>, &[u8])>, AllocError>
    ensures { IfOk result (λ found. option_map (λ it. (bound_map K.seen it.0, it.1.now)) found ≡ bound_at K.value_at bytes.now) }
{
    let Some((tag, rest)) = bytes.split_first() else {
        return Ok(None);
    };
    match *tag {
        0 => Ok(Some((Bound::Unbounded, rest))),
        1 => {
            let Some((key, rest)) = K::take_from(alloc, rest)? else {
                return Ok(None);
            };
            Ok(Some((Bound::Included(key), rest)))
        }
        2 => {
            let Some((key, rest)) = K::take_from(alloc, rest)? else {
                return Ok(None);
            };
            Ok(Some((Bound::Excluded(key), rest)))
        }
        _ => Ok(None),
    }
}
