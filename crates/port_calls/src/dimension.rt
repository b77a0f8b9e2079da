//! The dimensions of an array.

/// How many slots an array has, and how many bits the name of each takes in the order.
#[derive(Clone, Copy, Debug, PartialEq, Eq)]
pub struct Dimension {
    pub len: u8,
    pub bits: u8,
}

/// The dimension of [`Array`](tree_array::array::Array).
pub const DIMENSION: Dimension = Dimension { len: 15, bits: 4 };

/// The dimension of an array of seven slots.
pub const SMALL_DIMENSION: Dimension = Dimension { len: 7, bits: 4 };
