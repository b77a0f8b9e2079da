//! Queries on a whole part of a tree: its least and greatest entry, and its spare.
#![tactic(auto)]

pub mod children;
pub mod ends;
pub mod spare;
