//! A tree with its root: pairs are stored, removed and found under it, and it is made, split and
//! lowered as they come and go.
#![tactic(auto)]

mod append;
mod finger;
mod tree;
mod values;

pub use tree::{Stored, Tree};
