//! Removal of a range of keys by whole parts of a tree.
#![tactic(auto)]

pub mod cutting;
mod dropping;
mod parts;
