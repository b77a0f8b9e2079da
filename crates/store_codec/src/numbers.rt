//! Whole numbers, `bool` and `char` as bytes. A signed number has the bytes of the unsigned one
//! with the same bits.

use crate::{Encode, StoreKey};
use std::alloc::{AllocError, Global};

impl StoreKey for u8 {
    ghost use Rattle.store_codec.specs.Keys.{seen_numbers};

    ghost seen_equal = { seen_numbers };
}

impl Encode for u8 {
    ghost use Rattle.store_codec.specs.Numbers.{byte_bytes, byte_at_front};

    ghost seen = { λ x. x };

    ghost bytes_of = { byte_bytes };

    ghost value_at = { byte_at_front };

    ghost kind_number = { 1 };

    fn kind() -> u32 {
        1
    }

    fn push_to(&self, out: &mut Vec<u8>) -> Result<(), AllocError> {
        out.push(*self)?;
        Ok(())
    }

    fn take_from(_alloc: Global, bytes: &[u8]) -> Result<Option<(Self, &[u8])>, AllocError> {
        let Some((first, rest)) = bytes.split_first() else {
            return Ok(None);
        };
        Ok(Some((*first, rest)))
    }
}

impl StoreKey for u16 {
    ghost use Rattle.store_codec.specs.Keys.{seen_numbers};

    ghost seen_equal = { seen_numbers };
}

impl Encode for u16 {
    ghost use Rattle.std.specs.Int.{w16, to_le_bytes};
    ghost use Rattle.store_codec.specs.Numbers.{number_at};

    ghost seen = { λ x. x };

    ghost bytes_of = { to_le_bytes w16 };

    ghost value_at = { number_at w16 2 };

    ghost kind_number = { 2 };

    fn kind() -> u32 {
        2
    }

    fn push_to(&self, out: &mut Vec<u8>) -> Result<(), AllocError> {
        out.extend_from_slice(&self.to_le_bytes())
    }

    fn take_from(_alloc: Global, bytes: &[u8]) -> Result<Option<(Self, &[u8])>, AllocError> {
        let Some((first, rest)) = bytes.split_first_chunk::<2>() else {
            return Ok(None);
        };
        Ok(Some((u16::from_le_bytes(*first), rest)))
    }
}

impl StoreKey for u32 {
    ghost use Rattle.store_codec.specs.Keys.{seen_numbers};

    ghost seen_equal = { seen_numbers };
}

impl Encode for u32 {
    ghost use Rattle.std.specs.Int.{w32, to_le_bytes};
    ghost use Rattle.store_codec.specs.Numbers.{number_at};

    ghost seen = { λ x. x };

    ghost bytes_of = { to_le_bytes w32 };

    ghost value_at = { number_at w32 4 };

    ghost kind_number = { 3 };

    fn kind() -> u32 {
        3
    }

    fn push_to(&self, out: &mut Vec<u8>) -> Result<(), AllocError> {
        out.extend_from_slice(&self.to_le_bytes())
    }

    fn take_from(_alloc: Global, bytes: &[u8]) -> Result<Option<(Self, &[u8])>, AllocError> {
        let Some((first, rest)) = bytes.split_first_chunk::<4>() else {
            return Ok(None);
        };
        Ok(Some((u32::from_le_bytes(*first), rest)))
    }
}

impl StoreKey for u64 {
    ghost use Rattle.store_codec.specs.Keys.{seen_numbers};

    ghost seen_equal = { seen_numbers };
}

impl Encode for u64 {
    ghost use Rattle.std.specs.Int.{w64, to_le_bytes};
    ghost use Rattle.store_codec.specs.Numbers.{number_at};

    ghost seen = { λ x. x };

    ghost bytes_of = { to_le_bytes w64 };

    ghost value_at = { number_at w64 8 };

    ghost kind_number = { 4 };

    fn kind() -> u32 {
        4
    }

    fn push_to(&self, out: &mut Vec<u8>) -> Result<(), AllocError> {
        out.extend_from_slice(&self.to_le_bytes())
    }

    fn take_from(_alloc: Global, bytes: &[u8]) -> Result<Option<(Self, &[u8])>, AllocError> {
        let Some((first, rest)) = bytes.split_first_chunk::<8>() else {
            return Ok(None);
        };
        Ok(Some((u64::from_le_bytes(*first), rest)))
    }
}

impl StoreKey for u128 {
    ghost use Rattle.store_codec.specs.Keys.{seen_numbers};

    ghost seen_equal = { seen_numbers };
}

impl Encode for u128 {
    ghost use Rattle.std.specs.Int.{w128, to_le_bytes};
    ghost use Rattle.store_codec.specs.Numbers.{number_at};

    ghost seen = { λ x. x };

    ghost bytes_of = { to_le_bytes w128 };

    ghost value_at = { number_at w128 16 };

    ghost kind_number = { 7 };

    fn kind() -> u32 {
        7
    }

    fn push_to(&self, out: &mut Vec<u8>) -> Result<(), AllocError> {
        out.extend_from_slice(&self.to_le_bytes())
    }

    fn take_from(_alloc: Global, bytes: &[u8]) -> Result<Option<(Self, &[u8])>, AllocError> {
        let Some((first, rest)) = bytes.split_first_chunk::<16>() else {
            return Ok(None);
        };
        Ok(Some((u128::from_le_bytes(*first), rest)))
    }
}

impl StoreKey for i8 {
    ghost use Rattle.store_codec.specs.Keys.{seen_integers};

    ghost seen_equal = { seen_integers };
}

impl Encode for i8 {
    ghost use Rattle.std.specs.Int.{w8};
    ghost use Rattle.store_codec.specs.Numbers.{integer_at, integer_bytes};

    ghost seen = { λ x. x };

    ghost bytes_of = { integer_bytes w8 };

    ghost value_at = { integer_at w8 1 };

    ghost kind_number = { 8 };

    fn kind() -> u32 {
        8
    }

    fn push_to(&self, out: &mut Vec<u8>) -> Result<(), AllocError> {
        out.extend_from_slice(&self.to_le_bytes())
    }

    fn take_from(_alloc: Global, bytes: &[u8]) -> Result<Option<(Self, &[u8])>, AllocError> {
        let Some((first, rest)) = bytes.split_first_chunk::<1>() else {
            return Ok(None);
        };
        Ok(Some((i8::from_le_bytes(*first), rest)))
    }
}

impl StoreKey for i16 {
    ghost use Rattle.store_codec.specs.Keys.{seen_integers};

    ghost seen_equal = { seen_integers };
}

impl Encode for i16 {
    ghost use Rattle.std.specs.Int.{w16};
    ghost use Rattle.store_codec.specs.Numbers.{integer_at, integer_bytes};

    ghost seen = { λ x. x };

    ghost bytes_of = { integer_bytes w16 };

    ghost value_at = { integer_at w16 2 };

    ghost kind_number = { 9 };

    fn kind() -> u32 {
        9
    }

    fn push_to(&self, out: &mut Vec<u8>) -> Result<(), AllocError> {
        out.extend_from_slice(&self.to_le_bytes())
    }

    fn take_from(_alloc: Global, bytes: &[u8]) -> Result<Option<(Self, &[u8])>, AllocError> {
        let Some((first, rest)) = bytes.split_first_chunk::<2>() else {
            return Ok(None);
        };
        Ok(Some((i16::from_le_bytes(*first), rest)))
    }
}

impl StoreKey for i32 {
    ghost use Rattle.store_codec.specs.Keys.{seen_integers};

    ghost seen_equal = { seen_integers };
}

impl Encode for i32 {
    ghost use Rattle.std.specs.Int.{w32};
    ghost use Rattle.store_codec.specs.Numbers.{integer_at, integer_bytes};

    ghost seen = { λ x. x };

    ghost bytes_of = { integer_bytes w32 };

    ghost value_at = { integer_at w32 4 };

    ghost kind_number = { 10 };

    fn kind() -> u32 {
        10
    }

    fn push_to(&self, out: &mut Vec<u8>) -> Result<(), AllocError> {
        out.extend_from_slice(&self.to_le_bytes())
    }

    fn take_from(_alloc: Global, bytes: &[u8]) -> Result<Option<(Self, &[u8])>, AllocError> {
        let Some((first, rest)) = bytes.split_first_chunk::<4>() else {
            return Ok(None);
        };
        Ok(Some((i32::from_le_bytes(*first), rest)))
    }
}

impl StoreKey for i64 {
    ghost use Rattle.store_codec.specs.Keys.{seen_integers};

    ghost seen_equal = { seen_integers };
}

impl Encode for i64 {
    ghost use Rattle.std.specs.Int.{w64};
    ghost use Rattle.store_codec.specs.Numbers.{integer_at, integer_bytes};

    ghost seen = { λ x. x };

    ghost bytes_of = { integer_bytes w64 };

    ghost value_at = { integer_at w64 8 };

    ghost kind_number = { 11 };

    fn kind() -> u32 {
        11
    }

    fn push_to(&self, out: &mut Vec<u8>) -> Result<(), AllocError> {
        out.extend_from_slice(&self.to_le_bytes())
    }

    fn take_from(_alloc: Global, bytes: &[u8]) -> Result<Option<(Self, &[u8])>, AllocError> {
        let Some((first, rest)) = bytes.split_first_chunk::<8>() else {
            return Ok(None);
        };
        Ok(Some((i64::from_le_bytes(*first), rest)))
    }
}

impl StoreKey for bool {
    ghost use Rattle.store_codec.specs.Keys.{seen_booleans};

    ghost seen_equal = { seen_booleans };
}

impl Encode for bool {
    ghost use Rattle.store_codec.specs.Numbers.{bool_bytes, bool_at};

    ghost seen = { λ x. x };

    ghost bytes_of = { bool_bytes };

    ghost value_at = { bool_at };

    ghost kind_number = { 5 };

    fn kind() -> u32 {
        5
    }

    fn push_to(&self, out: &mut Vec<u8>) -> Result<(), AllocError> {
        let byte = if *self { 1 } else { 0 };
        out.push(byte)?;
        Ok(())
    }

    fn take_from(_alloc: Global, bytes: &[u8]) -> Result<Option<(Self, &[u8])>, AllocError> {
        let Some((first, rest)) = bytes.split_first() else {
            return Ok(None);
        };
        match *first {
            0 => Ok(Some((false, rest))),
            1 => Ok(Some((true, rest))),
            _ => Ok(None),
        }
    }
}

impl StoreKey for char {
    ghost use Rattle.store_codec.specs.Keys.{seen_numbers};

    ghost seen_equal = { seen_numbers };
}

/// A `char` is stored as its code, in four bytes.
impl Encode for char {
    ghost use Rattle.std.specs.Int.{w32, to_le_bytes};
    ghost use Rattle.store_codec.specs.Numbers.{char_at};

    ghost seen = { λ x. x };

    ghost bytes_of = { to_le_bytes w32 };

    ghost value_at = { char_at };

    ghost kind_number = { 6 };

    fn kind() -> u32 {
        6
    }

    fn push_to(&self, out: &mut Vec<u8>) -> Result<(), AllocError> {
        let code = *self as u32;
        out.extend_from_slice(&code.to_le_bytes())
    }

    fn take_from(_alloc: Global, bytes: &[u8]) -> Result<Option<(Self, &[u8])>, AllocError> {
        let Some((first, rest)) = bytes.split_first_chunk::<4>() else {
            return Ok(None);
        };
        match char::from_u32(u32::from_le_bytes(*first)) {
            Some(value) => Ok(Some((value, rest))),
            None => Ok(None),
        }
    }
}
