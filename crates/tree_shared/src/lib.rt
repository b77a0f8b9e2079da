//! An ordered index that threads share behind one lock, with the history of its calls, and threads
//! that fill one.
//!
//! Each worker calls the index through a [`Pass`] of its own, which counts the worker's calls. When
//! the sharing ends, the passes' tallies add up to the tally of the history, and the history
//! replays to the index.
#![tactic(auto)]

mod closing;
mod gate;
mod locked;
mod serves;
mod shared;
mod storm;
mod workers;

pub use closing::{Closed, ClosedOf, Unclosed, UnclosedOf, UnclosedOver};
pub use gate::{Gate, OpenGate};
pub use shared::{SharedOver, SharedTreeIndex, SharedTreeIndexOf};
pub use storm::{StormError, run_workers};
pub use tree_state::{Blanks, Books, Pass, PassOf, Tally};
