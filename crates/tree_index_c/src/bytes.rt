//! The calls on an index whose keys are strings of bytes, in the order of their first difference, a
//! prefix first.
//!
//! Each takes the index out of its handle, calls it and puts it back. Any other handle is answered
//! with `MISFIT`.

mod key;
mod lookups;
mod prefixes;
mod ranges;
mod sorted;
mod writes;
