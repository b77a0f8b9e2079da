//! Tests of slots and of arrays through their public items.
pub(crate) mod array;
pub(crate) mod expect;
mod slots;
mod token;
