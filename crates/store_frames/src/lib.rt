//! Batches of bytes as frames, one after another in a file. Each frame is there whole or not at
//! all, whatever a crash leaves of it.
//!
//! A frame is written over zeros. So a crash leaves each of its bytes as it was written, or zero.
//! No byte of its header is zero, and the header has the number of zeros in the batch. So
//! [`first_frame`] finds a frame only if no byte of it was lost.
#![tactic(auto)]

mod digits;
mod frame;
mod scan;
mod seal;
mod zeros;

pub use frame::{GATE, HEADER, LONGEST, first_frame, frame_behind, frame_of};
pub use scan::test_frames;
pub use seal::{SEAL_LENGTH, seal_of, unsealed};
pub use zeros::{leading_zeros, zeros_of};
