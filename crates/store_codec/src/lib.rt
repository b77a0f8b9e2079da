//! Keys, values and what writes did to an index, as bytes.
//!
//! Whole numbers have their size, the lowest byte first. A `bool` is one byte, a `char` four. Pairs
//! are their parts, one behind the other. An option is the byte 0, or the byte 1 and its value.
#![tactic(auto)]

mod compound;
mod encode;
mod numbers;
mod records;

pub use encode::{Encode, StoreKey};
pub use records::{Record, next_record, push_clear, push_cut, push_put, push_remove};
