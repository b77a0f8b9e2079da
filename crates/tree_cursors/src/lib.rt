//! Cursors over the pairs of a tree, from both ends.
//!
//! An end of a cursor finds its bound by a search from the root ([`seek`]), and then walks from
//! leaf to leaf.
#![tactic(auto)]

pub mod cursor;
pub mod end;
mod ends;
pub mod iter;
pub mod laws;
pub mod locate;
pub mod range;
pub mod seek;
