//! Pairs and options as bytes.
ghost use Rattle.std.specs.Prelude.{◌+◌, ◌*◌, ◌^◌, ◌%◌, ◌++◌, Option};
ghost use Rattle.std.specs.Option.{option_map};
ghost use Rattle.std.proofs.Common.{rules};

use crate::{Encode, StoreKey};
use std::alloc::{AllocError, Global};

impl<A: StoreKey, B: StoreKey> StoreKey for (A, B) {
    ghost seen_equal = { Prim.search rules };
}

/// The bytes of the first part, and then those of the second.
impl<A: Encode, B: Encode> Encode for (A, B) {
    ghost use Rattle.store_codec.specs.Compound.{pair_at};

    ghost Seen = { A.Seen × B.Seen };

    ghost seen = { λ x. (A.seen x.0, B.seen x.1) };

    ghost bytes_of = { λ s. A.bytes_of s.0 ++ B.bytes_of s.1 };

    ghost value_at = { pair_at A.value_at B.value_at };

    ghost kind_number = { ((A.kind_number * 2654435761 + 1024) % 4294967291 + B.kind_number * 65599) % 2 ^ 32 };

    // The first part is reduced by a prime of its own. By sums alone, `((A, B), (C, D))` and
    // `((A, C), (B, D))` would have one number.
    fn kind() -> u32 {
        let first = (u64::from(A::kind()) * 2654435761 + 1024) % 4294967291;
        let mixed = first + u64::from(B::kind()) * 65599;
        (mixed % (1 << 32)) as u32
    }

    fn push_to(&self, out: &mut Vec<u8>) -> Result<(), AllocError> {
        self.0.push_to(out)?;
        self.1.push_to(out)
    }

    fn take_from(alloc: Global, bytes: &[u8]) -> Result<Option<(Self, &[u8])>, AllocError> {
        let Some((first, rest)) = A::take_from(alloc, bytes)? else {
            return Ok(None);
        };
        let Some((second, rest)) = B::take_from(alloc, rest)? else {
            return Ok(None);
        };
        Ok(Some(((first, second), rest)))
    }
}

impl<K: StoreKey> StoreKey for Option<K> {
    ghost seen_equal = { Prim.search rules };
}

/// The byte 0, or the byte 1 and the bytes of the value.
impl<V: Encode> Encode for Option<V> {
    ghost use Rattle.store_codec.specs.Compound.{option_at, option_bytes};

    ghost Seen = { Option V.Seen };

    ghost seen = { λ x. option_map (λ value. V.seen value) x };

    ghost bytes_of = { option_bytes V.bytes_of };

    ghost value_at = { option_at V.value_at };

    ghost kind_number = { (V.kind_number * 2654435761 + 2048) % 4294967291 };

    fn kind() -> u32 {
        let mixed = u64::from(V::kind()) * 2654435761 + 2048;
        (mixed % 4294967291) as u32
    }

    fn push_to(&self, out: &mut Vec<u8>) -> Result<(), AllocError> {
        match self {
            None => {
                out.push(0)?;
                Ok(())
            }
            Some(value) => {
                out.push(1)?;
                value.push_to(out)
            }
        }
    }

    fn take_from(alloc: Global, bytes: &[u8]) -> Result<Option<(Self, &[u8])>, AllocError> {
        let Some((tag, rest)) = bytes.split_first() else {
            return Ok(None);
        };
        match *tag {
            0 => Ok(Some((None, rest))),
            1 => {
                let Some((value, rest)) = V::take_from(alloc, rest)? else {
                    return Ok(None);
                };
                Ok(Some((Some(value), rest)))
            }
            _ => Ok(None),
        }
    }
}
