//! What the crates of tests and the benchmarks share.
#![tactic(auto)]

pub mod chance;
pub mod refusals;
