//! The cells of an array, the order of its entries in one word, and searches by halving.
#![tactic(auto)]

pub mod cells;
mod gather;
pub mod judge;
pub mod order;
pub mod search;
