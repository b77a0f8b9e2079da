//! Leaves and nodes under numbers, the links that make leaves one chain, and walks over the entries
//! of a chain, either way.
#![tactic(auto)]

pub mod arena;
mod iter;
pub mod laws;
pub mod leaf;
mod stand;

pub use iter::{Iter, IterOf, LinkedIter, RevIter, RevIterOf};
pub use stand::Walked;
