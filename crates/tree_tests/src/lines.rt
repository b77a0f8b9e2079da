//! Lines of requests through the engine, over readers and writers that come and go in pieces or
//! fail.
pub(crate) mod engine;
mod faults;
pub(crate) mod streams;
