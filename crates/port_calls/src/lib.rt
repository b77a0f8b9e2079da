//! Calls on the number of a node, for callers that don't know its level. A tree of `tree_root`
//! keeps its depth and calls the crates below at a level. Only tests call this one.
#![tactic(auto)]

pub mod approximate;
pub mod dimension;
pub mod growth;
pub mod internal_node_calls;
pub mod node_calls;
pub mod root_calls;
