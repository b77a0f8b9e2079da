//! What removals do to one node: at which of its children the removal of a range begins and ends,
//! and how an empty leaf or node is taken out of the node above it.
#![tactic(auto)]

pub mod borders;
mod clean_up;
pub mod places;

pub use clean_up::{drop_child_node, drop_keyed_leaf, retire_if_empty, take_keyed};
