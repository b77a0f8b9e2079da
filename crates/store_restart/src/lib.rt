//! What is found after a machine stopped while a store ran.
//!
//! No program needs this crate: its contracts are the theorem on crashes, and its functions are
//! what the theorem is about.
#![tactic(auto)]

mod batch;
mod restart;
mod run;

pub use batch::Batch;
pub use restart::{finds_a_front, stops_and_restarts};
pub use run::{Reached, leaves_a_front};
