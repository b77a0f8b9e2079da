//! An ordered index whose writes survive a crash.
//!
//! The pairs are in a `TreeIndex` in memory. Each write notes what it did, and a commit makes all
//! writes since the last one durable, or none of them.
#![tactic(auto)]

mod batch;
mod error;
pub mod laws;
mod replay;
mod store;
mod writes;

pub use error::OpenError;
pub use store::TreeStore;
pub use store_log::{Head, LogError};
pub use store_pair::Files;
