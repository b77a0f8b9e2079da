//! What the exported functions answer.
//!
//! An enum can't be passed to C, so that these are numbers. The headers name them again. Failures
//! are negative, so `answer > 0` means that the call did its work.

/// No: the key is absent, or present where it must not be, or there is no pair.
pub const NO: i32 = 0;

/// Yes: it was done.
pub const YES: i32 = 1;

/// An allocation failed. The pairs are as they were.
pub const NO_MEMORY: i32 = -1;

/// The handle doesn't fit the call: it is closed, or open where it must be closed, or has the other
/// kind of key, or its index is frozen where it must not be, or not where it must be. Nothing
/// changed.
pub const MISFIT: i32 = -2;

/// The places that the caller passed are too few for a key. Nothing changed but the length that is
/// reported.
pub const NO_ROOM: i32 = -3;
