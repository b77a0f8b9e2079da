//! The calls on an index whose keys are numbers.
//!
//! Each takes the index out of its handle, calls it and puts it back. Any other handle is answered
//! with `MISFIT`.

mod arrays;
mod batches;
mod lookups;
mod ranges;
mod sorted;
mod writes;
