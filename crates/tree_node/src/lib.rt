//! Trees of nodes over linked leaves, kept in arenas under numbers: what a tree is, how a key finds
//! its child, and the path of a key from the root to its leaf, with look-ups along it.
#![tactic(auto)]

pub mod branch;
mod changes;
pub mod depth;
pub mod descent;
pub mod look_ups;
pub mod node;
pub mod routing;
