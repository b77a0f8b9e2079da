//! Removals under the number of a node, and how a tree loses levels.
#![tactic(auto)]

mod emptied;
pub mod entries;
pub mod lowering;
pub mod removal;
