//! What is made of cursors over the pairs of a tree: walks over its keys and its values, and
//! comparisons, hashes and listings of its pairs.
#![tactic(auto)]

pub mod equality;
pub mod hash;
pub mod keys;
pub mod listing;
pub mod order;
