//! Keys and values as bytes.
ghost use Rattle.std.specs.Prelude.{◌≡◌, ◌++◌, ℕ, List, Option, OnOk, OnErr, IfOk, option_map};
ghost use Rattle.std.specs.declared.cmp.Ordering.TheVariants.{Equal};
ghost use Rattle.store_codec.specs.Records.{ReadsBack};

use std::alloc::{AllocError, Global};
use tree_model::IndexKey;

/// A type whose values are stored as bytes. Contracts see a value as its `seen`, which is the value
/// itself unless an impl says otherwise.
pub trait Encode: Drop {
    ghost Seen: { Type 0 } = { Self };

    ghost seen: { Self → Seen };

    /// The bytes of what is seen.
    ghost bytes_of: { Seen → List ℕ };

    /// What is seen at the front of bytes, with what is behind it.
    ghost value_at: { List ℕ → Option (Seen × List ℕ) };

    /// The number of the type in the head of a file.
    ghost kind_number: { ℕ };

    /// Returns the number of the type in the head of a file: one that no other type has whose
    /// values have other bytes. The numbers below 1024 are those of this crate.
    fn kind() -> u32
        ensures { result ≡ kind_number };

    /// Appends the bytes of the value. Whatever is behind them, [`take_from`](Self::take_from)
    /// finds the value again.
    ///
    /// Returns `Err` if it cannot allocate. A front of the bytes may be in `out` then.
    /// Allocates only if `out` has no room.
    fn push_to(&self, out: &mut Vec<u8>) -> Result<(), AllocError>
        ensures pushed { OnOk result (out.new.items ≡ out.old.items ++ bytes_of (seen self.now)) }
        ensures refused { OnErr result ((front : List ℕ) × (out.new.items ≡ out.old.items ++ front)) }
        ensures law { OnOk result (ReadsBack value_at (bytes_of (seen self.now)) (seen self.now)) };

    /// Returns the value at the front, with what is behind it. Returns `Ok(None)` if no value is
    /// there, and `Err` if it cannot allocate. Allocates only what the value owns.
    fn take_from(alloc: Global, bytes: &[u8]) -> Result<Option<(Self, &[u8])>, AllocError>
        ensures { IfOk result (λ found. option_map (λ it. (seen it.0, it.1.now)) found ≡ value_at bytes.now) };
}

/// A key of a stored index. Keys that are seen alike compare equal.
pub trait StoreKey: IndexKey + Encode {
    ghost seen_equal: { (x y : Self) → Self.seen x ≡ Self.seen y → Self.cmp x y ≡ Equal };
}
