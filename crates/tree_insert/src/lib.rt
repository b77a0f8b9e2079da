//! Inserts below a node, how a tree grows at its root, and appends: pairs whose keys are larger
//! than all others go to the end of the last leaf without a descent, one by one or a whole leaf at
//! once.
#![tactic(auto)]

mod appending;
pub mod insertion;
pub mod planting;
pub mod root;

pub use appending::{append_run, append_to, last_leaf_at};
