//! Fixed arrays of pairs, kept in the order of their keys: what leaves and nodes are made of.
#![tactic(auto)]

mod answers;
pub mod array;
